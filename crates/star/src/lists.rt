// Lists of objects for the star check of a unit, in arrays that the caller lends, and the pairs of two such lists.
ghost use Rattle.std.specs.Prelude.{◌≡◌, Bool, not, ◌<◌, length, ℕ};
ghost use Rattle.model.specs.State.{subject_count, object_count, object_at};
ghost use Rattle.unit.specs.Rows.{objects_in};
ghost use Rattle.star.specs.Lists.{read_by, altered_by, Listed, itself, out_of, Numbers, pairs_kept};

use labels::dominates;
use mode_pairs::{table_alters, table_observes};
use model::Monitor;
use unit::{Rows, held_by, label_of};

// The objects that pass a test, listed in an array that the caller lends. Each number is stored, and counted where it passes.
pub fn list_where<F: Fn(u8) -> bool>(room: &mut [u8; Monitor::OBJECTS], passes: F) -> &[u8]
    requires { (o : ℕ) → o < object_count → F.pre passes o }
    ensures { (f : ℕ → Bool) → ((o : ℕ) → o < object_count → (r : Bool) → F.post passes o r → r ≡ f o) → Listed f itself result.now object_count }
{
    let mut count = 0;
    for o in 0..Monitor::OBJECTS as u8 {
        room[count] = o;
        count += usize::from(passes(o));
    }
    // The count is no larger. Without the bound the compiler has the last test once more behind the loop, and then each test takes twice as many steps.
    &room[..count.min(Monitor::OBJECTS)]
}

// The objects that a subject reads, and those that it alters.
#[derive(Clone, Copy)]
pub struct Held<'a> {
    pub read: &'a [u8],
    pub altered: &'a [u8],
}

// Of the objects of busy those that subject s reads, and those that it alters.
// Kept: two counts by hand, since one pass fills both lists, and without a branch.
pub fn list_held<'a>(
    unit: &Rows,
    s: u8,
    busy: &[u8],
    read: &'a mut [u8; Monitor::OBJECTS],
    altered: &'a mut [u8; Monitor::OBJECTS],
) -> Held<'a>
    requires s_lt_subject_count { (s < subject_count) × Numbers busy.now }
    ensures reads { Listed (read_by s (object_at (objects_in unit.now))) (out_of busy.now) result.read.now (length busy.now) }
    ensures alters { Listed (altered_by s (object_at (objects_in unit.now))) (out_of busy.now) result.altered.now (length busy.now) }
{
    let mut r = 0;
    let mut a = 0;
    for &o in busy {
        let modes = held_by(unit, o, s);
        read[r] = o;
        r += usize::from(table_observes(modes));
        altered[a] = o;
        a += usize::from(table_alters(modes));
    }
    Held {
        read: &read[..r],
        altered: &altered[..a],
    }
}

// Whether the label of an object that is altered does not dominate that of one that is read: left at the first such pair.
pub fn pair_offends(unit: &Rows, read: &[u8], altered: &[u8]) -> bool
    requires numbers { Numbers read.now × Numbers altered.now }
    ensures { result ≡ not (pairs_kept (object_at (objects_in unit.now)) read.now altered.now) }
{
    // Kept: nested loops, left from inside by a label, the form that is asked for.
    let mut offends = false;
    'pairs: for &p in read {
        let below = label_of(unit, p);
        for &q in altered {
            let above = label_of(unit, q);
            if !dominates(above, below) {
                offends = true;
                break 'pairs;
            }
        }
    }
    offends
}
