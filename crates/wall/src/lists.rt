// The company numbers of the objects in a list, and the two rules over them.
ghost use Rattle.std.specs.Prelude.{◌≡◌, ◌<◌, cond, length, Option, Some, None};
ghost use Rattle.model.specs.State.{subject_count, object_at};
ghost use Rattle.unit.specs.Rows.{objects_in};
ghost use Rattle.star.specs.Lists.{Numbers};
ghost use Rattle.wall.specs.Joined.{joined_below, joins, confined_to};
ghost use Rattle.wall.specs.Lists.{numbers_at, read_at, altered_at};

use crate::numbers::{compatible, confined, joined, joined_if};
use labels::implies;
use mode_sets::{any_alters, any_observes};
use unit::{Rows, companies_of, held_by};

// The numbers of those that the subject reads, joined, where all listed objects are compatible. Each object is compared with all before it at
// once, by their joined numbers: where these are compatible, each class has one number that is not 0 at most.
pub fn join_numbers(unit: &Rows, s: u8, list: &[u8]) -> Option<u16>
    requires s_lt_subject_count { (s < subject_count) × Numbers list.now }
    ensures { result ≡ cond (joins (length list.now) (numbers_at (object_at (objects_in unit.now)) list.now)) (Some (joined_below (length list.now) (read_at s (object_at (objects_in unit.now)) list.now) (numbers_at (object_at (objects_in unit.now)) list.now))) None }
{
    let mut fit = true;
    let mut seen = 0u16;
    let mut read = 0u16;
    for &o in list {
        let numbers = companies_of(unit, o);
        fit = fit & compatible(seen, numbers);
        seen = joined(seen, numbers);
        read = joined_if(any_observes(held_by(unit, o, s)), read, numbers);
    }
    if fit { Some(read) } else { None }
}

// Whether each listed object that the subject alters has every number of those that it reads.
pub fn altered_confined(unit: &Rows, s: u8, list: &[u8], read: u16) -> bool
    requires s_lt_subject_count { (s < subject_count) × Numbers list.now }
    ensures { result ≡ confined_to (length list.now) (altered_at s (object_at (objects_in unit.now)) list.now) read (numbers_at (object_at (objects_in unit.now)) list.now) }
{
    let mut kept = true;
    for &o in list {
        let alters = any_alters(held_by(unit, o, s));
        kept = kept & implies(alters, confined(read, companies_of(unit, o)));
    }
    kept
}
