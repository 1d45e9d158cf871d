// What the checks read of a unit, and what the kinds store.
#![tactic(auto, using(crate::proofs::Readings::readings))]

ghost use Rattle.std.specs.Prelude.{◌≡◌, ◌<◌, length, set};
ghost use Rattle.model.specs.State.{subject_count, object_count, object, clearance, enrolled, rights_of, held_by};
ghost use Rattle.model.specs.Rules.{owns};
ghost use Rattle.unit.specs.Rows.{row_count, state_in, row_at, rest_row};
ghost use Rattle.unit.specs.Stored.{set_rights, set_held, set_label, set_companies, set_rows};

use crate::rows::{
    CLEARANCES, HELD, PROFILE, REST, Rows, companies_in, label_in, profile_in, row_of,
};
use model::{Label, Profile};

pub fn is_enrolled(unit: &Rows, s: u8) -> bool
    requires s_lt_subject_count { s < subject_count }
    ensures { result ≡ enrolled (state_in unit.now) s }
{
    unit[CLEARANCES + s as usize][2] == 1
}

pub fn clearance_of(unit: &Rows, s: u8) -> Label
    requires s_lt_subject_count { s < subject_count }
    ensures { result ≡ clearance (state_in unit.now) s }
{
    let row = unit[CLEARANCES + s as usize];
    label_in(row)
}

// The profile of the monitor.
pub fn profile_of(unit: &Rows) -> Profile
    ensures { result ≡ (state_in unit.now).profile }
{
    let row = unit[PROFILE];
    profile_in(row)
}

pub fn is_live(unit: &Rows, o: u8) -> bool
    requires o_lt_object_count { o < object_count }
    ensures { result ≡ (object (state_in unit.now) o).live }
{
    unit[REST + o as usize][0] == 1
}

pub fn is_owner(unit: &Rows, s: u8, o: u8) -> bool
    requires o_lt_object_count { o < object_count }
    ensures { result ≡ owns s (object (state_in unit.now) o) }
{
    unit[REST + o as usize][1] == s
}

pub fn owner_of(unit: &Rows, o: u8) -> u8
    requires o_lt_object_count { o < object_count }
    ensures { result ≡ (object (state_in unit.now) o).owner }
{
    unit[REST + o as usize][1]
}

pub fn label_of(unit: &Rows, o: u8) -> Label
    requires o_lt_object_count { o < object_count }
    ensures { result ≡ (object (state_in unit.now) o).label }
{
    let row = unit[REST + o as usize];
    label_in(row)
}

// The four company numbers of an object, in one.
pub fn companies_of(unit: &Rows, o: u8) -> u16
    requires o_lt_object_count { o < object_count }
    ensures { result ≡ (object (state_in unit.now) o).companies }
{
    let row = unit[REST + o as usize];
    companies_in(row)
}

// The parent of an object, its number plus one, or 0.
pub fn parent_of(unit: &Rows, o: u8) -> u8
    requires o_lt_object_count { o < object_count }
    ensures { result ≡ (object (state_in unit.now) o).parent }
{
    unit[REST + o as usize][8]
}

pub fn rights_of(unit: &Rows, o: u8, s: u8) -> u8
    requires o_lt_object_count { (o < object_count) × (s < subject_count) }
    ensures { result ≡ rights_of (object (state_in unit.now) o) s }
{
    unit[o as usize][s as usize]
}

pub fn held_by(unit: &Rows, o: u8, s: u8) -> u8
    requires o_lt_object_count { (o < object_count) × (s < subject_count) }
    ensures { result ≡ held_by (object (state_in unit.now) o) s }
{
    unit[HELD + o as usize][s as usize]
}

// The accesses of all subjects at an object.
pub fn held_row(unit: &Rows, o: u8) -> [u8; 16]
    requires o_lt_object_count { o < object_count }
    ensures { result ≡ (object (state_in unit.now) o).held }
{
    unit[HELD + o as usize]
}

// Not inlined: its row would stand on the stack of the whole of `asking::ask`.
#[inline(never)]
pub fn set_rights(unit: &mut Rows, o: u8, s: u8, n: u8)
    requires o_lt_object_count { (o < object_count) × (s < subject_count) }
    ensures { unit.new ≡ set_rights unit.old o s n }
{
    // Kept: the row is taken out, changed and stored back, the form that is asked for.
    let i = o as usize;
    let mut rights = unit[i];
    rights[s as usize] = n;
    unit[i] = rights;
}

pub fn set_held(unit: &mut Rows, o: u8, s: u8, n: u8)
    requires o_lt_object_count { (o < object_count) × (s < subject_count) }
    ensures { unit.new ≡ set_held unit.old o s n }
{
    // Kept: the row is taken out, changed and stored back, the form that is asked for.
    let i = HELD + o as usize;
    let mut held = unit[i];
    held[s as usize] = n;
    unit[i] = held;
}

// The row of an object that has all but its sets, as it stands; a refused change of its label or of its company numbers puts it back.
pub fn rest_of(unit: &Rows, o: u8) -> [u8; 16]
    requires o_lt_object_count { o < object_count }
    ensures { result ≡ row_at unit.now (rest_row o) }
{
    unit[REST + o as usize]
}

pub fn set_rest(unit: &mut Rows, o: u8, row: [u8; 16])
    requires o_lt_object_count { o < object_count }
    ensures { unit.new ≡ set unit.old (rest_row o) row }
{
    unit[REST + o as usize] = row;
}

#[tactic(auto, unfolding(crate::specs::Rows::object_of))]
pub fn set_label(unit: &mut Rows, o: u8, label: Label)
    requires o_lt_object_count { o < object_count }
    ensures { unit.new ≡ set_label unit.old o label }
{
    let row = rest_of(unit, o);
    let companies = companies_in(row);
    let new = row_of(u8::from(row[0] == 1), row[1], label, companies, row[8]);
    set_rest(unit, o, new);
}

#[tactic(auto, unfolding(crate::specs::Rows::object_of))]
pub fn set_companies(unit: &mut Rows, o: u8, companies: u16)
    requires o_lt_object_count { o < object_count }
    ensures { unit.new ≡ set_companies unit.old o companies }
{
    let row = rest_of(unit, o);
    let kept = label_in(row);
    let new = row_of(u8::from(row[0] == 1), row[1], kept, companies, row[8]);
    set_rest(unit, o, new);
}

// The three rows of an object.
pub fn set_rows(unit: &mut Rows, o: u8, rights: [u8; 16], held: [u8; 16], rest: [u8; 16])
    requires o_lt_object_count { o < object_count }
    ensures { unit.new ≡ set_rows unit.old o rights held rest }
{
    let i = o as usize;
    unit[i] = rights;
    unit[HELD + i] = held;
    unit[REST + i] = rest;
}
