// The kinds of request about the rights of another subject, on a unit: give and rescind. The checks are in the scope's order, then stands
// what the kind stores. A refusal leaves every byte.

#![tactic(auto)]

ghost use Rattle.std.specs.Prelude.{◌≡◌, ◌<◌};
ghost use Rattle.model.specs.State.{subject_count, object_count};
ghost use Rattle.model.specs.Decisions.{number, checked};
ghost use Rattle.model.specs.Rules.{checks};
ghost use Rattle.unit.specs.Rows.{state_in};
ghost use Rattle.kinds.specs.Carried.{Does};

use labels::{done, ensure};
use mode_sets::{add, has, remove};
use model::{Decision, Mode, Request};
use unit::{Rows, held_by, is_enrolled, is_live, is_owner, rights_of, set_held, set_rights};

// 3: the other subject gains the right.
pub fn give(unit: &mut Rows, s: u8, t: u8, o: u8, x: Mode) -> Decision
    requires { (s < subject_count) × (t < subject_count) × (o < object_count) }
    ensures { Does (Request.Give s t o x) unit.old unit.new (number result) }
{
    if let Err(refusal) = may_give(unit, s, t, o, x) {
        return refusal;
    }
    let rights = rights_of(unit, o, t);
    let new = add(x, rights);
    set_rights(unit, o, t, new);
    done(has(x, rights))
}

// 4: the other subject loses the right and the access.
pub fn rescind(unit: &mut Rows, s: u8, t: u8, o: u8, x: Mode) -> Decision
    requires { (s < subject_count) × (t < subject_count) × (o < object_count) }
    ensures { Does (Request.Rescind s t o x) unit.old unit.new (number result) }
{
    if let Err(refusal) = may_give(unit, s, t, o, x) {
        return refusal;
    }
    let rights = rights_of(unit, o, t);
    let held = held_by(unit, o, t);
    let rights_left = remove(x, rights);
    let held_left = remove(x, held);
    set_rights(unit, o, t, rights_left);
    set_held(unit, o, t, held_left);
    done(!has(x, rights) & !has(x, held))
}

// The checks of give and rescind: 3 of both subjects, 4, and 6: the actor is owner and has that right itself.
#[tactic(auto, unfolding(model::specs::Rules::checks, model::specs::Decisions::checked, model::specs::Tests::unless))]
fn may_give(unit: &Rows, s: u8, t: u8, o: u8, x: Mode) -> Result<(), Decision>
    requires { (s < subject_count) × (t < subject_count) × (o < object_count) }
    ensures { result ≡ checked (checks (Request.Give s t o x) (state_in unit.now)) }
{
    let enrolled = is_enrolled(unit, s) & is_enrolled(unit, t);
    ensure(enrolled, Decision::NotEnrolled)?;
    ensure(is_live(unit, o), Decision::NotLive)?;
    let right = is_owner(unit, s, o) & has(x, rights_of(unit, o, s));
    ensure(right, Decision::NoRight)
}
