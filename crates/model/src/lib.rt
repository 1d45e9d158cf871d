// The types of the reference monitor. What they mean is said in specs/, in the order of specs/Lib.antt.

#![tactic(auto)]

ghost use Rattle.std.specs.Prelude.{◌≡◌};
ghost use Rattle.model.specs.State.{widest, no_object, fresh};
ghost use Rattle.model.specs.Decisions.{number};

// A class, 0 to 15, and a set of needs-to-know, 0 to 15, where need k weighs 2^k.
#[derive(Clone, Copy, PartialEq, Eq)]
pub struct Level {
    pub class: u8,
    pub needs: u16,
}

// The label of an object, or none; the clearance of a subject, or absent. Absent is no level: it differs from class 0 with no needs.
pub type Label = Option<Level>;

// How one level compares with another: the same; above, only the first dominates; below, only the second does; apart, neither.
#[derive(Clone, Copy, PartialEq, Eq)]
pub enum Comparison {
    Equal,
    Above,
    Below,
    Apart,
}

// A subject is enrolled exactly where its clearance is present.
#[derive(Clone, Copy)]
pub struct Subject {
    pub clearance: Label,
}

#[derive(Clone, Copy, PartialEq, Eq)]
pub enum Mode {
    Read,
    Write,
    Append,
    Execute,
}

// Companies: the numbers of four conflict classes, four bits for each, the first class highest. Rights and held accesses: for each of the
// sixteen subjects a set of modes, r 8, w 4, a 2, e 1. Parent: the number of the object that this one is under, plus one; 0 for none.
#[derive(Clone, Copy)]
pub struct Object {
    pub live: bool,
    pub owner: u8,
    pub label: Label,
    pub companies: u16,
    pub rights: [u8; 16],
    pub held: [u8; 16],
    pub parent: u8,
}

// What stands where no object is live: no owner, label, company, right, access or parent.
pub fn no_object() -> Object
    ensures { result ≡ no_object }
{
    Object {
        live: false,
        owner: 0,
        label: None,
        companies: 0,
        rights: [0u8; 16],
        held: [0u8; 16],
        parent: 0,
    }
}

// A site profile: the subjects in use, 1 to 16, the objects in use, 1 to 64, and the level that has the highest class and every need in use.
#[derive(Clone, Copy)]
pub struct Profile {
    pub subjects: u8,
    pub objects: u8,
    pub highest: Level,
}

// The profile that has everything in use.
pub fn widest() -> Profile
    ensures { result ≡ widest }
{
    Profile {
        subjects: 16,
        objects: 64,
        highest: Level {
            class: 15,
            needs: 65535,
        },
    }
}

#[derive(Clone, Copy)]
pub struct Monitor {
    pub profile: Profile,
    pub subjects: [Subject; 16],
    pub objects: [Object; 64],
}

impl Monitor {
    pub const SUBJECTS: usize = 16;

    pub const OBJECTS: usize = 64;

    // A label's record: present, class, needs. A subject's record in the table has the same form.
    pub const LABEL_BITS: usize = 1 + 4 + 16;

    // Where the label stands in an object's record, behind live and owner, then the company numbers, the sets and the parent behind it.
    pub const LABEL_AT: usize = 1 + 4;

    pub const COMPANIES_AT: usize = Self::LABEL_AT + Self::LABEL_BITS;

    pub const SETS_AT: usize = Self::COMPANIES_AT + 16;

    pub const PARENT_AT: usize = Self::SETS_AT + Self::SUBJECTS * 8;

    pub const OBJECT_BITS: usize = Self::PARENT_AT + 7;

    // The size of an enrolment table, which is also where the object records of an image begin.
    pub const TABLE_BITS: usize = Self::SUBJECTS * Self::LABEL_BITS;

    pub const TABLE_BYTES: usize = Self::TABLE_BITS / 8;

    pub const IMAGE_BYTES: usize = Self::TABLE_BYTES + Self::OBJECTS * Self::OBJECT_BITS / 8;

    // A monitor begun fresh under a profile from an enrolment table, with no live object.
    pub fn begin(profile: Profile, table: [Subject; Monitor::SUBJECTS]) -> Monitor
        ensures { result ≡ fresh profile table }
    {
        Monitor {
            profile,
            subjects: table,
            objects: [no_object(); Monitor::OBJECTS],
        }
    }
}

// The fields of a request's six bytes.
#[derive(Clone, Copy)]
pub struct Fields {
    pub kind: u8,
    pub actor: u8,
    pub other: u8,
    pub object: u8,
    pub mode: u8,
    pub class: u8,
    pub needs: u16,
    pub spare: u8,
}

// How an object is created: whether its owner gains e too, and its parent, number plus one, 0 for none.
#[derive(Clone, Copy)]
pub struct Creation {
    pub execute: bool,
    pub parent: u16,
}

// A well-formed request: the actor, in give and rescind the other subject, the object, then what the kind uses beside them.
#[derive(Clone, Copy)]
pub enum Request {
    Get(u8, u8, Mode),
    Release(u8, u8, Mode),
    Give(u8, u8, u8, Mode),
    Rescind(u8, u8, u8, Mode),
    Create(u8, u8, Creation),
    Delete(u8, u8),
    ChangeLevel(u8, u8, Level),
    SetCompanies(u8, u8, u16),
}

// Every answer of the monitor, in the order of its number (specs/Decisions.antt).
#[derive(Clone, Copy, PartialEq, Eq)]
pub enum Decision {
    Granted,
    Already,
    MalformedRequest,
    NotEnrolled,
    NotLive,
    AlreadyLive,
    NoRight,
    NoLabel,
    SimpleBroken,
    StarBroken,
    WrongLength,
    StrayBits,
    AbsentSubject,
    ShortBuffer,
    LabelLowered,
    ZeroSeed,
    OutsideProfile,
    EmptyJournal,
    WallBroken,
    ParentNotLive,
    HierarchyBroken,
}

impl From<Decision> for u8 {
    ghost from_gives = { λ d n. n ≡ number d };

    fn from(d: Decision) -> u8 {
        match d {
            Decision::Granted => 0,
            Decision::Already => 1,
            Decision::MalformedRequest => 2,
            Decision::NotEnrolled => 3,
            Decision::NotLive => 4,
            Decision::AlreadyLive => 5,
            Decision::NoRight => 6,
            Decision::NoLabel => 7,
            Decision::SimpleBroken => 8,
            Decision::StarBroken => 9,
            Decision::WrongLength => 10,
            Decision::StrayBits => 11,
            Decision::AbsentSubject => 12,
            Decision::ShortBuffer => 13,
            Decision::LabelLowered => 14,
            Decision::ZeroSeed => 15,
            Decision::OutsideProfile => 16,
            Decision::EmptyJournal => 17,
            Decision::WallBroken => 18,
            Decision::ParentNotLive => 19,
            Decision::HierarchyBroken => 20,
        }
    }
}

// The answer to a request or to a beginning, and the monitor after it.
#[derive(Clone, Copy)]
pub struct Response {
    pub decision: Decision,
    pub monitor: Monitor,
}
