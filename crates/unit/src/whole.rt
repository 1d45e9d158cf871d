// A whole record out of its rows, and the rows of a record and of a monitor.
ghost use Rattle.std.specs.Prelude.{◌≡◌, ◌<◌, length};
ghost use Rattle.model.specs.State.{object_count, object};
ghost use Rattle.unit.specs.Rows.{row_count, object_of, state_in};
ghost use Rattle.unit.specs.Stored.{set_object, unit_of};

use crate::parts::set_rows;
use crate::rows::{
    CLEARANCES, HELD, PROFILE, REST, Rows, companies_in, label_in, profile_row, row_of,
};
use model::{Monitor, Object};

// The record that three rows say.
#[tactic(auto, unfolding(crate::specs::Rows::object_of))]
pub fn object_of(rights: [u8; 16], held: [u8; 16], rest: [u8; 16]) -> Object
    ensures { result ≡ object_of rights held rest }
{
    Object {
        live: rest[0] == 1,
        owner: rest[1],
        label: label_in(rest),
        companies: companies_in(rest),
        rights,
        held,
        parent: rest[8],
    }
}

// The record of an object.
pub fn object_in(unit: &Rows, o: u8) -> Object
    requires o_lt_object_count { o < object_count }
    ensures { result ≡ object (state_in unit.now) o }
{
    let i = o as usize;
    object_of(unit[i], unit[HELD + i], unit[REST + i])
}

#[tactic(auto, unfolding(crate::specs::Stored::set_object))]
pub fn set_object(unit: &mut Rows, o: u8, ob: Object)
    requires o_lt_object_count { o < object_count }
    ensures { unit.new ≡ set_object unit.old o ob }
{
    let rest = row_of(
        u8::from(ob.live),
        ob.owner,
        ob.label,
        ob.companies,
        ob.parent,
    );
    set_rows(unit, o, ob.rights, ob.held, rest);
}

// Every row of a monitor.
pub fn fill(unit: &mut Rows, m: Monitor)
    ensures { unit.new ≡ unit_of m }
{
    for o in 0..Monitor::OBJECTS {
        set_object(unit, o as u8, m.objects[o]);
    }
    for s in 0..Monitor::SUBJECTS {
        unit[CLEARANCES + s] = row_of(0, 0, m.subjects[s].clearance, 0, 0);
    }
    unit[PROFILE] = profile_row(m.profile);
}
