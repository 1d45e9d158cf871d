// Deletion: "Deleting an object deletes everything below it, child by child down to the last".
ghost use Rattle.std.specs.Prelude.{◌≡◌, true, ◌<◌};
ghost use Rattle.model.specs.Hierarchy.{has_child};
ghost use Rattle.model.specs.State.{object_count, object_at};
ghost use Rattle.unit.specs.Rows.{objects_in};
ghost use Rattle.hierarchy.specs.Removed.{child_of, removed};

use model::Monitor;
use unit::{Rows, is_live, parent_of, set_rows};

// Whether object c is live and has o as its parent. The parent stands first, since few objects have it.
fn is_child(unit: &Rows, c: u8, o: u8) -> bool
    requires c_lt_object_count { (c < object_count) × (o < object_count) }
    ensures { result ≡ child_of (object_at (objects_in unit.now) c) o }
{
    (parent_of(unit, c) == o + 1) & is_live(unit, c)
}

// Whether some live object has o as its parent.
pub fn has_child(unit: &Rows, o: u8) -> bool
    requires o_lt_object_count { o < object_count }
    ensures { result ≡ has_child (objects_in unit.now) o }
{
    (0..Monitor::OBJECTS as u8).any(|c| is_child(unit, c, o))
}

// Object o and everything below it become no objects. The object goes before its children, so that the live ones are fewer at each call,
// also where parents stand in a circle.
pub fn remove(unit: &mut Rows, o: u8)
    requires o_lt_object_count { (o < object_count) × ((object_at (objects_in unit.old) o).live ≡ true) }
    ensures { unit.new ≡ removed unit.old o }
{
    let empty = [0u8; 16];
    set_rows(unit, o, empty, empty, empty);
    for c in 0..Monitor::OBJECTS as u8 {
        if is_child(unit, c, o) {
            remove(unit, c);
        }
    }
}
