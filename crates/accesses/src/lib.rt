// The kinds of request about the accesses that a subject holds, on a unit: get and release. The checks of a kind are in the scope's order, then
// stands what it stores. A refusal leaves every byte. Get stores first, and puts the old set back where star or the wall refuses.

#![tactic(auto)]

ghost use Rattle.std.specs.Prelude.{◌≡◌, ◌<◌};
ghost use Rattle.model.specs.State.{subject_count, object_count};
ghost use Rattle.model.specs.Decisions.{number, checked};
ghost use Rattle.unit.specs.Rows.{state_in};
ghost use Rattle.model.specs.declared.Mode.{Mode};
ghost use Rattle.model.specs.Rules.{checks};
ghost use Rattle.kinds.specs.Stages.{before_star, after_get};
ghost use Rattle.kinds.specs.Carried.{Does};

use labels::{dominates, done, ensure, implies, is_present};
use mode_sets::{add, has, needs_label, observes, remove};
use model::{Decision, Mode, Request};
use star::breaks_star;
use unit::{Rows, clearance_of, held_by, is_enrolled, is_live, label_of, rights_of, set_held};
use wall::breaks_wall;

// 1: the actor then holds the access. Star and the wall are asked of the state with the access in it.
pub fn get(unit: &mut Rows, s: u8, o: u8, x: Mode) -> Decision
    requires { (s < subject_count) × (o < object_count) }
    ensures { Does (Request.Get s o x) unit.old unit.new (number result) }
{
    if let Err(refusal) = may_get(unit, s, o, x) {
        return refusal;
    }
    let had = held_by(unit, o, s);
    let new = add(x, had);
    set_held(unit, o, s, new);
    if let Err(broken) = access_fits(unit, s, x) {
        set_held(unit, o, s, had);
        return broken;
    }
    done(has(x, had))
}

// Checks 9 and 18 of the actor, after the access was stored. Star is asked of r, w and a, the wall of e too.
#[tactic(auto, using(wall::proofs::Ranges::ranges), unfolding(kinds::specs::Stages::after_get, model::specs::Decisions::checked, model::specs::Tests::unless, model::specs::Tests::implies))]
fn access_fits(unit: &Rows, s: u8, x: Mode) -> Result<(), Decision>
    requires { s < subject_count }
    ensures { result ≡ checked (after_get s x (state_in unit.now)) }
{
    let i = s as usize;
    if needs_label(x) {
        ensure(!breaks_star(unit, i, i + 1), Decision::StarBroken)?;
    }
    ensure(!breaks_wall(unit, i, i + 1), Decision::WallBroken)
}

// The checks of get but star and the wall: 3, 4, 6, 7, 8.
#[tactic(auto, unfolding(kinds::specs::Stages::before_star, model::specs::Decisions::checked, model::specs::Tests::unless))]
fn may_get(unit: &Rows, s: u8, o: u8, x: Mode) -> Result<(), Decision>
    requires { (s < subject_count) × (o < object_count) }
    ensures { result ≡ checked (before_star s o x (state_in unit.now)) }
{
    let clearance = clearance_of(unit, s);
    let label = label_of(unit, o);
    ensure(is_present(clearance), Decision::NotEnrolled)?;
    ensure(is_live(unit, o), Decision::NotLive)?;
    ensure(has(x, rights_of(unit, o, s)), Decision::NoRight)?;
    let labelled = implies(needs_label(x), is_present(label));
    let cleared = implies(observes(x), dominates(clearance, label));
    ensure(labelled, Decision::NoLabel)?;
    ensure(cleared, Decision::SimpleBroken)
}

// 2: the actor's access is dropped, held or not.
pub fn release(unit: &mut Rows, s: u8, o: u8, x: Mode) -> Decision
    requires { (s < subject_count) × (o < object_count) }
    ensures { Does (Request.Release s o x) unit.old unit.new (number result) }
{
    if let Err(refusal) = may_release(unit, s, o) {
        return refusal;
    }
    let held = held_by(unit, o, s);
    set_held(unit, o, s, remove(x, held));
    done(!has(x, held))
}

// The checks of release: 3 and 4.
#[tactic(auto, unfolding(model::specs::Rules::checks, model::specs::Decisions::checked, model::specs::Tests::unless))]
fn may_release(unit: &Rows, s: u8, o: u8) -> Result<(), Decision>
    requires { (s < subject_count) × (o < object_count) }
    ensures { (x : Mode) → result ≡ checked (checks (Request.Release s o x) (state_in unit.now)) }
{
    ensure(is_enrolled(unit, s), Decision::NotEnrolled)?;
    ensure(is_live(unit, o), Decision::NotLive)
}
