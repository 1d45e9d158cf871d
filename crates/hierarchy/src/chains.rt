// The parents of objects, and the chain of them above an object. In a record a parent is a number plus one, 0 for none.
ghost use Rattle.std.specs.Prelude.{◌≡◌, suc, ◌<◌};
ghost use Rattle.model.specs.Hierarchy.{parent_at, ends, below, parent_live, parents_hold};
ghost use Rattle.model.specs.State.{object_count, object_at};
ghost use Rattle.unit.specs.Rows.{objects_in};
ghost use Rattle.hierarchy.specs.Parents.{numbered};

use model::Monitor;
use unit::{Rows, is_live, parent_of};

// The parent in the record of object o, by its number.
fn parent(unit: &Rows, o: u8) -> Option<u8>
    requires o_lt_object_count { o < object_count }
    ensures { result ≡ numbered (object_at (objects_in unit.now) o).parent }
{
    match parent_of(unit, o) {
        0 => None,
        p => Some(p - 1),
    }
}

// The parent of object y: what is not live is under nothing, and a number from 64 on is that of no object.
fn above(unit: &Rows, y: u8) -> Option<u8>
    ensures { result ≡ numbered (parent_at (objects_in unit.now) y) }
{
    if ((y as usize) < Monitor::OBJECTS) && is_live(unit, y) {
        parent(unit, y)
    } else {
        None
    }
}

// Whether the chain from object o ends. One that does is not longer than there are objects, so no more of it is gone up.
pub fn chain_ends(unit: &Rows, o: u8) -> bool
    requires o_lt_object_count { o < object_count }
    ensures { result ≡ ends object_count (objects_in unit.now) (suc o) }
{
    let mut at = o;
    for _ in 0..Monitor::OBJECTS {
        match above(unit, at) {
            Some(p) => at = p,
            None => return true,
        }
    }
    false
}

// Whether object y is below o: o is met on the chain above y.
pub fn is_below(unit: &Rows, o: u8, y: u8) -> bool
    requires o_lt_object_count { o < object_count }
    ensures { result ≡ below (objects_in unit.now) o y }
{
    let mut at = y;
    for _ in 0..Monitor::OBJECTS {
        match above(unit, at) {
            Some(p) if p == o => return true,
            Some(p) => at = p,
            None => return false,
        }
    }
    false
}

// Whether a parent is none or live; a number above 64 is that of no object.
pub fn parent_live(unit: &Rows, p: u16) -> bool
    ensures { result ≡ parent_live (objects_in unit.now) p }
{
    if p == 0 {
        return true;
    }
    if (p as usize) <= Monitor::OBJECTS {
        return is_live(unit, (p - 1) as u8);
    }
    false
}

// Whether every parent is live and every chain of parents ends.
pub fn parents_hold(unit: &Rows) -> bool
    ensures { result ≡ parents_hold (objects_in unit.now) }
{
    (0..Monitor::OBJECTS as u8).all(|o| {
        let live = parent_live(unit, u16::from(parent_of(unit, o)));
        live & chain_ends(unit, o)
    })
}
