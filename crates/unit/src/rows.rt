// Where the rows of a unit stand, and what one row of bytes says: a label in bytes 2 to 5, two numbers before it, one in two bytes and one
// in one byte behind it.
ghost use Rattle.std.specs.Prelude.{◌≡◌};
ghost use Rattle.unit.specs.Rows.{level_in, label_in, companies_in, profile_in};
ghost use Rattle.unit.specs.Stored.{label_bytes, row_of, profile_of};

use model::{Label, Level, Monitor, Profile};

// The rights of object o are row o; here begin the accesses held, the rest of the records, and the clearances; the last row is the profile.
pub const HELD: usize = Monitor::OBJECTS;

pub const REST: usize = 2 * Monitor::OBJECTS;

pub const CLEARANCES: usize = 3 * Monitor::OBJECTS;

pub const PROFILE: usize = 3 * Monitor::OBJECTS + Monitor::SUBJECTS;

pub const ROWS: usize = 3 * Monitor::OBJECTS + Monitor::SUBJECTS + 1;

// The rows of a unit, as they lie in memory.
pub type Rows = [[u8; 16]; ROWS];

// The level that a row says where it has one.
fn level_in(row: [u8; 16]) -> Level
    ensures { result ≡ level_in row }
{
    Level {
        class: row[3],
        needs: u16::from_be_bytes([row[4], row[5]]),
    }
}

// The label that a row says, or none.
pub fn label_in(row: [u8; 16]) -> Label
    ensures { result ≡ label_in row }
{
    if row[2] == 1 {
        Some(level_in(row))
    } else {
        None
    }
}

// The company numbers that a row says.
pub fn companies_in(row: [u8; 16]) -> u16
    ensures { result ≡ companies_in row }
{
    u16::from_be_bytes([row[6], row[7]])
}

// The profile that a row says.
pub fn profile_in(row: [u8; 16]) -> Profile
    ensures { result ≡ profile_in row }
{
    Profile {
        subjects: row[0],
        objects: row[1],
        highest: level_in(row),
    }
}

// The four bytes of a label.
#[derive(Clone, Copy)]
struct LabelBytes {
    present: u8,
    class: u8,
    high: u8,
    low: u8,
}

#[tactic(auto, unfolding(crate::specs::Stored::label_bytes))]
fn label_bytes(label: Label) -> LabelBytes
    ensures { result ≡ label_bytes label }
{
    match label {
        None => LabelBytes {
            present: 0,
            class: 0,
            high: 0,
            low: 0,
        },
        Some(level) => {
            let [high, low] = level.needs.to_be_bytes();
            LabelBytes {
                present: 1,
                class: level.class,
                high,
                low,
            }
        }
    }
}

// The row of two numbers, a label, the four company numbers in one, and a parent.
#[tactic(auto, unfolding(crate::specs::Stored::row_of))]
pub fn row_of(a: u8, b: u8, label: Label, companies: u16, parent: u8) -> [u8; 16]
    ensures { result ≡ row_of a b label companies parent }
{
    let l = label_bytes(label);
    let [high, low] = companies.to_be_bytes();
    [
        a, b, l.present, l.class, l.high, l.low, high, low, parent, 0, 0, 0, 0, 0, 0, 0,
    ]
}

// The row of a profile.
pub fn profile_row(p: Profile) -> [u8; 16]
    ensures { result ≡ profile_of p }
{
    let highest = p.highest;
    row_of(p.subjects, p.objects, Some(highest), 0, 0)
}
