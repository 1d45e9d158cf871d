// The records of table and image, read across byte borders: what they say, and whether they have their form.

#![tactic(auto)]

ghost use Rattle.std.specs.Prelude.{◌≡◌, ◌+◌, ◌*◌, ◌≤◌, length};
ghost use Rattle.model.specs.Layout.{label_width, sets_width, object_width, objects_size, image_size};
ghost use Rattle.image_records.specs.Records.{flag_width, bits_at, flag_of, label_of, sets_of, object_of, subjects_read};
ghost use Rattle.model.specs.State.{object_count};
ghost use Rattle.model.specs.Reading.{objects_from, objects_form};
ghost use Rattle.unit.specs.Stored.{ObjectsStored, SameClearances};

use model::{Label, Level, Monitor, Object, Subject, no_object};
use unit::{Rows, set_object};

// The number in the four bits behind a bit that is set, and whether all five bits are 0.
#[derive(Clone, Copy)]
struct FlagRead {
    number: Option<u8>,
    blank: bool,
}

// A label, and whether no bit of its record is set.
#[derive(Clone, Copy)]
struct LabelRead {
    label: Label,
    blank: bool,
}

// The rights and the accesses at one object, and whether no bit of them is set.
#[derive(Clone, Copy)]
struct SetsRead {
    rights: [u8; 16],
    held: [u8; 16],
    blank: bool,
}

// An object, and whether its record has its form: what is absent has no other bit set.
// Kept: no `Option`, for what was read is promised where the form is broken too, and is stored before all forms are known.
#[derive(Clone, Copy)]
struct ObjectRead {
    object: Object,
    formed: bool,
}

// What the bytes of a table say, and whether each record has its form.
// Kept: no `Option`, for what was read is promised where a form is broken too.
#[derive(Clone, Copy)]
pub struct TableRead {
    pub subjects: [Subject; 16],
    pub formed: bool,
}

// Five bits: live and owner, or present and class.
fn read_flag(bytes: &[u8], at: usize) -> FlagRead
    requires { at + flag_width ≤ 8 * length bytes.now }
    ensures { result ≡ flag_of (bits_at bytes.now at flag_width) }
{
    let head = bits::read_field(bytes, at, 5);
    FlagRead {
        number: (16 <= head).then_some((head & 15) as u8),
        blank: head == 0,
    }
}

// A label's record, from bit at on.
fn read_label(bytes: &[u8], at: usize) -> LabelRead
    requires { (at + label_width ≤ 8 * length bytes.now) × (length bytes.now ≤ image_size) }
    ensures { result ≡ label_of (bits_at bytes.now at label_width) }
{
    let head = read_flag(bytes, at);
    let needs = bits::read_field(bytes, at + 5, 16) as u16;
    let label = head.number.map(|class| Level { class, needs });
    let blank = head.blank & (needs == 0);
    LabelRead { label, blank }
}

// The sets of the sixteen subjects at one object: eight bits for each, the rights and then the accesses.
fn read_sets(bytes: &[u8], at: usize) -> SetsRead
    requires { (at + sets_width ≤ 8 * length bytes.now) × (length bytes.now ≤ image_size) }
    ensures { result ≡ sets_of (bits_at bytes.now at sets_width) }
{
    let mut rights = [0u8; 16];
    let mut held = [0u8; 16];
    let mut blank = true;
    for s in 0..Monitor::SUBJECTS {
        let sets = bits::read_byte(bytes, at + 8 * s);
        rights[s] = (sets >> 4) as u8;
        held[s] = (sets & 15) as u8;
        blank = blank & (sets == 0);
    }
    SetsRead {
        rights,
        held,
        blank,
    }
}

// An object's record, from bit at on.
fn read_object(bytes: &[u8], at: usize) -> ObjectRead
    requires { (at + object_width ≤ 8 * length bytes.now) × (length bytes.now ≤ image_size) }
    ensures { result ≡ object_of (bits_at bytes.now at object_width) }
{
    let head = read_flag(bytes, at);
    let read = read_label(bytes, at + Monitor::LABEL_AT);
    let companies = bits::read_field(bytes, at + Monitor::COMPANIES_AT, 16);
    let sets = read_sets(bytes, at + Monitor::SETS_AT);
    let parent = bits::read_field(bytes, at + Monitor::PARENT_AT, 7);
    let Some(owner) = head.number else {
        return ObjectRead {
            object: no_object(),
            formed: head.blank & (read.blank & ((companies == 0) & (sets.blank & (parent == 0)))),
        };
    };
    let rights = sets.rights;
    let held = sets.held;
    ObjectRead {
        object: Object {
            live: true,
            owner,
            label: read.label,
            companies: companies as u16,
            rights,
            held,
            parent: parent as u8,
        },
        formed: labels::is_present(read.label) | read.blank,
    }
}

// The records of a table; bytes of another length have no form, and nobody in them.
pub fn read_subjects(bytes: &[u8]) -> TableRead
    ensures { result ≡ subjects_read bytes.now }
{
    let mut subjects = [Subject { clearance: None }; Monitor::SUBJECTS];
    if bytes.len() != Monitor::TABLE_BYTES {
        return TableRead {
            subjects,
            formed: false,
        };
    }
    let mut formed = true;
    for s in 0..Monitor::SUBJECTS {
        let read = read_label(bytes, Monitor::LABEL_BITS * s);
        subjects[s] = Subject {
            clearance: read.label,
        };
        formed = formed & (labels::is_present(read.label) | read.blank);
    }
    TableRead { subjects, formed }
}

// The object records, in the part of an image that begins with them, into the rows of a unit; whether each has its form.
pub fn read_objects(unit: &mut Rows, bytes: &[u8]) -> bool
    requires bytes_len { length bytes.now ≡ objects_size }
    ensures formed { result ≡ objects_form bytes.now }
    ensures stored { ObjectsStored (objects_from bytes.now) unit.new object_count }
    ensures kept { SameClearances unit.old unit.new }
{
    let mut formed = true;
    for o in 0..Monitor::OBJECTS {
        let read = read_object(bytes, Monitor::OBJECT_BITS * o);
        set_object(unit, o as u8, read.object);
        formed = formed & read.formed;
    }
    formed
}
