// The star property over all objects, and the simple property over all subjects.

#![tactic(auto)]

mod lists;

ghost use Rattle.std.specs.Prelude.{◌≡◌, not, ◌<◌, ◌≤◌};
ghost use Rattle.model.specs.Rules.{simple_all};
ghost use Rattle.star.specs.Between.{star_between};
ghost use Rattle.star.specs.Idle.{nothing_held, idle};
ghost use Rattle.model.specs.State.{subject_count, object_count, object, object_at};
ghost use Rattle.model.specs.Rules.{star_for};
ghost use Rattle.unit.specs.Rows.{subjects_in, objects_in, state_in};
ghost use Rattle.star.specs.Lists.{Covers};

use crate::lists::{list_held, pair_offends};
use labels::{dominates, implies};
pub use lists::list_where;
use mode_pairs::table_asks;
use mode_sets::any_observes;
use model::Monitor;
use unit::{Rows, clearance_of, held_by, held_row, label_of};

// Nobody holds r, w or a in the row. Every set is looked at, without a branch: sixteen at once are quicker than up to the first.
fn nothing_held(row: [u8; 16]) -> bool
    ensures { result ≡ nothing_held row }
{
    let mut free = true;
    for modes in row {
        free = free & !table_asks(modes);
    }
    free
}

// Nobody from low to below end holds r, w or a at object o: of one subject its set is looked at, else all.
fn idle(unit: &Rows, o: u8, low: usize, end: usize) -> bool
    requires o_lt_object_count { o < object_count }
    ensures { result ≡ idle (object (state_in unit.now) o).held low end }
{
    let first = low.min(15);
    if first + 1 == end {
        !table_asks(held_by(unit, o, first as u8))
    } else {
        nothing_held(held_row(unit, o))
    }
}

// Whether subject s breaks the star property: the objects that it reads and those that it alters are listed, and their pairs looked at.
fn subject_breaks_star(unit: &Rows, s: u8, busy: &[u8]) -> bool
    requires s_lt_subject_count { (s < subject_count) × Covers s (object_at (objects_in unit.now)) busy.now }
    ensures { result ≡ not (star_for s (objects_in unit.now)) }
{
    let mut read = [0u8; Monitor::OBJECTS];
    let mut altered = [0u8; Monitor::OBJECTS];
    let held = list_held(unit, s, busy, &mut read, &mut altered);
    pair_offends(unit, held.read, held.altered)
}

// Whether a subject from low to below high breaks the star property. The objects that are not idle are listed once for all of them.
pub fn breaks_star(unit: &Rows, low: usize, high: usize) -> bool
    requires high_le_subject_count { high ≤ subject_count }
    ensures { result ≡ not (star_between low high (objects_in unit.now)) }
{
    let mut room = [0u8; Monitor::OBJECTS];
    let busy = list_where(&mut room, |o| !idle(unit, o, low, high));
    (low..high).any(|s| subject_breaks_star(unit, s as u8, busy))
}

// Whether each subject that reads object o has a clearance that dominates its label.
pub fn keeps_simple(unit: &Rows, o: u8) -> bool
    requires o_lt_object_count { o < object_count }
    ensures { result ≡ simple_all (subjects_in unit.now) (object (state_in unit.now) o) }
{
    let label = label_of(unit, o);
    (0..Monitor::SUBJECTS as u8).all(|s| {
        let reads = any_observes(held_by(unit, o, s));
        implies(reads, dominates(clearance_of(unit, s), label))
    })
}
