// The clearances of the subjects in two states: who is enrolled, and a level that one clearance dominates and the other does not.
ghost use Rattle.std.specs.Prelude.{◌≡◌};
ghost use Rattle.unit.specs.Rows.{subjects_in, state_in};
ghost use Rattle.differences.specs.Sequences.{requests_of};
ghost use Rattle.differences.specs.Records.{enrolment_apart, enrolments_apart, free_place, level_apart, clearance_apart, clearances_apart};

use crate::sequence::{Place, Sequence, Slot};
use labels::{compare, is_present};
use model::{Comparison, Label, Level, Monitor, Request};
use unit::{Rows, clearance_of, is_live, owner_of, profile_of};

// Enrolled in one only: any request by that subject, 3 or not.
#[tactic(auto, unfolding(crate::specs::Records::enrolment_apart, telling::specs::Distinguish::when))]
fn enrolment_apart(s: u8, a: Label, b: Label) -> Option<Sequence>
    ensures { requests_of result ≡ enrolment_apart s a b }
{
    (is_present(a) != is_present(b)).then_some(Sequence::One(Request::Delete(s, 0)))
}

// The first subject that is enrolled in one unit only.
pub fn enrolments_apart(a: &Rows, b: &Rows) -> Option<Sequence>
    ensures { requests_of result ≡ enrolments_apart (subjects_in a.now) (subjects_in b.now) }
{
    (0..Monitor::SUBJECTS as u8).find_map(|s| {
        enrolment_apart(s, clearance_of(a, s), clearance_of(b, s))
    })
}

// The last object that is in use and not live; where there is none, object 0, which its owner can delete.
pub fn free_place(unit: &Rows) -> Slot
    ensures { result ≡ free_place (state_in unit.now) }
{
    let in_use = profile_of(unit).objects;
    let free = (0..Monitor::OBJECTS as u8).rfind(|o| !is_live(unit, *o) & (*o < in_use));
    let object = free.unwrap_or(0);
    let place = Place {
        object,
        owner: is_live(unit, object).then_some(owner_of(unit, object)),
    };
    let recorded = owner_of(unit, object);
    Slot { place, recorded }
}

// s reads at a level that the other one does not dominate, if there is one.
#[tactic(auto, unfolding(crate::specs::Records::level_apart))]
fn level_apart(place: Place, s: u8, a: Level, b: Level) -> Option<Sequence>
    ensures { requests_of result ≡ level_apart place s a b }
{
    let level = match compare(a, b) {
        Comparison::Equal => return None,
        Comparison::Above | Comparison::Apart => a,
        Comparison::Below => b,
    };
    Some(Sequence::Reading {
        place,
        subject: s,
        level,
    })
}

// Another clearance: s reads at a level that one of the two does not dominate, 8 or not.
#[tactic(auto, unfolding(crate::specs::Records::clearance_apart))]
fn clearance_apart(place: Place, s: u8, a: Label, b: Label) -> Option<Sequence>
    ensures { requests_of result ≡ clearance_apart place s a b }
{
    level_apart(place, s, a?, b?)
}

// The first subject whose clearances differ, in two units.
pub fn clearances_apart(place: Place, a: &Rows, b: &Rows) -> Option<Sequence>
    ensures { requests_of result ≡ clearances_apart place (subjects_in a.now) (subjects_in b.now) }
{
    (0..Monitor::SUBJECTS as u8).find_map(|s| {
        clearance_apart(place, s, clearance_of(a, s), clearance_of(b, s))
    })
}
