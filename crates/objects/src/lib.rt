// Create and delete, on a unit. The checks of a kind are in the scope's order, then stands what it stores. A refusal leaves every byte.

#![tactic(auto)]

ghost use Rattle.std.specs.Prelude.{◌≡◌, cond, ◌<◌, ◌≤◌};
ghost use Rattle.model.specs.State.{subject_count, object_count};
ghost use Rattle.model.specs.Decisions.{number, checked};
ghost use Rattle.model.specs.Rules.{checks};
ghost use Rattle.unit.specs.Rows.{state_in};
ghost use Rattle.kinds.specs.Carried.{Does};

use hierarchy::{parent_live, remove};
use labels::ensure;
use model::{Creation, Decision, Label, Monitor, Request};
use unit::{Rows, is_enrolled, is_live, is_owner, row_of, set_rows};

// 5: live, unlabelled and without a company, under the parent that how says, owned by the actor, who gains r, w, a, and e if how says so.
pub fn create(unit: &mut Rows, s: u8, o: u8, how: Creation) -> Decision
    requires { (s < subject_count) × (o < object_count) × (how.parent ≤ object_count) }
    ensures { Does (Request.Create s o how) unit.old unit.new (number result) }
{
    if let Err(refusal) = may_create(unit, s, o, how) {
        return refusal;
    }
    let none = [0u8; Monitor::SUBJECTS];
    let mut rights = none;
    rights[s as usize] = owner_rights(how.execute);
    let parent = how.parent as u8;
    let rest = row_of(1, s, None, 0, parent);
    set_rows(unit, o, rights, none, rest);
    Decision::Granted
}

// The checks of create: 3, 5, and 19 of the parent.
#[tactic(auto, unfolding(model::specs::Rules::checks, model::specs::Decisions::checked, model::specs::Tests::unless))]
fn may_create(unit: &Rows, s: u8, o: u8, how: Creation) -> Result<(), Decision>
    requires { (s < subject_count) × (o < object_count) }
    ensures { result ≡ checked (checks (Request.Create s o how) (state_in unit.now)) }
{
    ensure(is_enrolled(unit, s), Decision::NotEnrolled)?;
    ensure(!is_live(unit, o), Decision::AlreadyLive)?;
    ensure(parent_live(unit, how.parent), Decision::ParentNotLive)
}

fn owner_rights(execute: bool) -> u8
    ensures { result ≡ cond execute 15 14 }
{
    if execute { 15 } else { 14 }
}

// 6: no longer live, its rights and accesses gone, and everything below it.
pub fn delete(unit: &mut Rows, s: u8, o: u8) -> Decision
    requires { (s < subject_count) × (o < object_count) }
    ensures { Does (Request.Delete s o) unit.old unit.new (number result) }
{
    if let Err(refusal) = by_owner(unit, s, o) {
        return refusal;
    }
    remove(unit, o);
    Decision::Granted
}

// The checks of delete, with which change of level and the setting of company numbers begin: 3, 4, and 6: the actor is owner.
#[tactic(auto, unfolding(model::specs::Rules::checks, model::specs::Decisions::checked, model::specs::Tests::unless))]
pub fn by_owner(unit: &Rows, s: u8, o: u8) -> Result<(), Decision>
    requires { (s < subject_count) × (o < object_count) }
    ensures { result ≡ checked (checks (Request.Delete s o) (state_in unit.now)) }
{
    ensure(is_enrolled(unit, s), Decision::NotEnrolled)?;
    ensure(is_live(unit, o), Decision::NotLive)?;
    ensure(is_owner(unit, s, o), Decision::NoRight)
}
