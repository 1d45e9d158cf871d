// The image writer: records one behind the other across byte borders.

#![tactic(auto)]

ghost use Rattle.std.specs.Prelude.{◌≡◌, ◌+◌, ◌<◌};
ghost use Rattle.model.specs.Decisions.{checked};
ghost use Rattle.model.specs.Layout.{object_width, table_width, objects_width, object_bits, table_bits, objects_bits};
ghost use Rattle.model.specs.Writing.{writing, written};
ghost use Rattle.record_fields.specs.Writers.{Room, Wrote};
ghost use Rattle.unit.specs.Rows.{subjects_in, objects_in, state_in};

use empty_slots::is_none;
use model::{Decision, Monitor, Object};
use record_fields::{BitWriter, side_by_side};
use unit::{Rows, clearance_of, object_in};

// An object's record: live, owner, the label, the company numbers, the sets, the parent; where there is no object, bits that are 0.
fn write_object(w: &mut BitWriter<'_>, object: Object)
    requires { Room w.old object_width }
    ensures same_buffer { w.new.out.ghost_name ≡ w.old.out.ghost_name }
    ensures moves { w.new.at ≡ w.old.at + object_width }
    ensures wrote { Wrote w.old (object_bits object) w.new }
{
    if is_none(object) {
        w.zeros(Monitor::OBJECT_BITS);
        return;
    }
    let rights = object.rights;
    let held = object.held;
    w.append(5, side_by_side(u8::from(object.live), object.owner));
    w.label(object.label);
    w.companies(object.companies);
    w.sets(rights, held);
    w.parent(object.parent);
}

// The table at the start of the image.
fn write_subjects(w: &mut BitWriter<'_>, unit: &Rows)
    requires { Room w.old table_width × (w.old.waiting < 256) }
    ensures same_buffer { w.new.out.ghost_name ≡ w.old.out.ghost_name }
    ensures moves { w.new.at ≡ w.old.at + table_width }
    ensures wrote { Wrote w.old (table_bits (subjects_in unit.now)) w.new }
{
    for s in 0..Monitor::SUBJECTS as u8 {
        w.label(clearance_of(unit, s));
    }
}

// The object records, behind the bits of the table.
fn write_objects(w: &mut BitWriter<'_>, unit: &Rows)
    requires { Room w.old objects_width × (w.old.waiting < 256) }
    ensures same_buffer { w.new.out.ghost_name ≡ w.old.out.ghost_name }
    ensures moves { w.new.at ≡ w.old.at + objects_width }
    ensures wrote { Wrote w.old (objects_bits (objects_in unit.now)) w.new }
{
    for o in 0..Monitor::OBJECTS as u8 {
        write_object(w, object_in(unit, o));
    }
}

// The image of a unit's state into the first bytes of out; a shorter buffer is left as it is.
pub fn save(unit: &Rows, out: &mut [u8]) -> Result<(), Decision>
    ensures { (result ≡ checked (writing out.old)) × (out.new ≡ written (state_in unit.now) out.old) }
{
    if out.len() < Monitor::IMAGE_BYTES {
        return Err(Decision::ShortBuffer);
    }
    let mut w = BitWriter::new(out);
    write_subjects(&mut w, unit);
    write_objects(&mut w, unit);
    Ok(())
}
