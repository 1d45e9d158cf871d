// The wall between competing companies (change request §10): over all objects for some of the subjects, and for two accesses.

#![tactic(auto)]

mod lists;
mod numbers;

ghost use Rattle.std.specs.Prelude.{◌≡◌, not, ◌<◌, ◌≤◌};
ghost use Rattle.model.specs.Companies.{wall_kept};
ghost use Rattle.model.specs.Rules.{wall_for};
ghost use Rattle.model.specs.State.{subject_count};
ghost use Rattle.unit.specs.Rows.{objects_in};
ghost use Rattle.wall.specs.Between.{wall_between};
ghost use Rattle.wall.specs.Lists.{no_companies};

use crate::lists::{altered_confined, join_numbers};
use crate::numbers::{compatible, confined};
use labels::implies;
use mode_sets::{alters, any_held, observes};
use model::{Mode, Monitor};
use star::list_where;
use unit::{Rows, companies_of, held_by};

// Whether two accesses keep the wall: x to an object with the company numbers p, y to one with q.
pub fn companies_keep(x: Mode, p: u16, y: Mode, q: u16) -> bool
    ensures { result ≡ wall_kept x y p q }
{
    let first = implies(observes(x) & alters(y), confined(p, q));
    let second = implies(observes(y) & alters(x), confined(q, p));
    compatible(p, q) & (first & second)
}

// No object has a company number: left at the first that has one.
fn no_companies(unit: &Rows) -> bool
    ensures { result ≡ no_companies (objects_in unit.now) }
{
    (0..Monitor::OBJECTS as u8).all(|o| companies_of(unit, o) == 0)
}

// Whether subject s breaks the wall: the objects that it has an access to are listed, and gone over once for each of the two rules.
fn subject_breaks_wall(unit: &Rows, s: u8) -> bool
    requires s_lt_subject_count { s < subject_count }
    ensures { result ≡ not (wall_for s (objects_in unit.now)) }
{
    let mut room = [0u8; Monitor::OBJECTS];
    let accessed = list_where(&mut room, |o| any_held(held_by(unit, o, s)));
    match join_numbers(unit, s, accessed) {
        Some(read) => !altered_confined(unit, s, accessed, read),
        None => true,
    }
}

// Whether a subject from low to below high breaks the wall. Where no object has a company number, nobody does.
pub fn breaks_wall(unit: &Rows, low: usize, high: usize) -> bool
    requires high_le_subject_count { high ≤ subject_count }
    ensures { result ≡ not (wall_between low high (objects_in unit.now)) }
{
    if no_companies(unit) {
        return false;
    }
    (low..high).any(|s| subject_breaks_wall(unit, s as u8))
}
