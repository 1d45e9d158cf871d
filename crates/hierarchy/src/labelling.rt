// The rule of labels: "A labelled child has a labelled parent whose label it dominates".
ghost use Rattle.std.specs.Prelude.{◌≡◌, ◌<◌};
ghost use Rattle.model.specs.Hierarchy.{label_under, labels_rise};
ghost use Rattle.model.specs.State.{object_count, object_at};
ghost use Rattle.unit.specs.Rows.{objects_in};

use labels::{dominates, implies, is_present};
use model::{Label, Monitor};
use unit::{Rows, label_of, parent_of};

// The label of object y; a number from 64 on is that of no object, which has no label.
fn label_at(unit: &Rows, y: u8) -> Label
    ensures { result ≡ (object_at (objects_in unit.now) y).label }
{
    if (y as usize) < Monitor::OBJECTS {
        label_of(unit, y)
    } else {
        None
    }
}

// Whether object o keeps the rule toward its parent. Without a parent, as most are, no label is read.
fn keeps_rule(unit: &Rows, o: u8) -> bool
    requires o_lt_object_count { o < object_count }
    ensures { result ≡ label_under (objects_in unit.now) (object_at (objects_in unit.now) o).label (object_at (objects_in unit.now) o).parent }
{
    // Kept: the number as the record has it; by an Option this check takes a quarter more steps for each object.
    let p = parent_of(unit, o);
    if p == 0 {
        return true;
    }
    let label = label_of(unit, o);
    implies(is_present(label), dominates(label, label_at(unit, p - 1)))
}

// Whether all objects keep it.
pub fn labels_rise(unit: &Rows) -> bool
    ensures { result ≡ labels_rise (objects_in unit.now) }
{
    (0..Monitor::OBJECTS as u8).all(|o| keeps_rule(unit, o))
}
