// What a site profile asks of a beginning: that it is in its ranges, that no record stands beyond it, and that every level is inside it.

#![tactic(auto)]

ghost use Rattle.std.specs.Prelude.{◌≡◌};
ghost use Rattle.model.specs.State.{subject_count, object_count};
ghost use Rattle.model.specs.Profiles.{site, profile_fits, label_inside};
ghost use Rattle.unit.specs.Rows.{state_in};
ghost use Rattle.profiles.specs.Kept.{subjects_kept, objects_kept, kept};

use labels::{at_least, is_present};
use model::{Label, Level, Monitor, Profile};
use unit::{Rows, clearance_of, is_live, label_of, profile_of};

// A profile by its four numbers.
pub fn site(subjects: u8, objects: u8, class: u8, needs: u16) -> Profile
    ensures { result ≡ site subjects objects class needs }
{
    Profile {
        subjects,
        objects,
        highest: Level { class, needs },
    }
}

// The ranges: subjects in use 1 to 16, objects in use 1 to 64, highest class 0 to 15.
pub fn fits(p: Profile) -> bool
    ensures { result ≡ profile_fits p }
{
    let subjects = (1 <= p.subjects) & (p.subjects <= 16);
    let objects = (1 <= p.objects) & (p.objects <= 64);
    subjects & (objects & (p.highest.class < 16))
}

// A clearance or label that is absent, or has no class and no need outside the profile.
fn label_inside(p: Profile, l: Label) -> bool
    ensures { result ≡ label_inside p l }
{
    match l {
        None => true,
        Some(level) => at_least(p.highest, level),
    }
}

// Whether every record beyond the profile is absent, and whether every level is inside it.
// Kept: two answers with no value behind either, each asked for on its own.
#[derive(Clone, Copy)]
pub struct Kept {
    pub absent: bool,
    pub inside: bool,
}

// The records of the subjects.
pub fn subjects_kept(unit: &Rows) -> Kept
    ensures { result ≡ subjects_kept (state_in unit.now) subject_count }
{
    let p = profile_of(unit);
    let mut absent = true;
    let mut inside = true;
    for s in 0..Monitor::SUBJECTS as u8 {
        let clearance = clearance_of(unit, s);
        absent = absent & ((s < p.subjects) | !is_present(clearance));
        inside = inside & label_inside(p, clearance);
    }
    Kept { absent, inside }
}

// The records of the objects.
fn objects_kept(unit: &Rows) -> Kept
    ensures { result ≡ objects_kept (state_in unit.now) object_count }
{
    let p = profile_of(unit);
    let mut absent = true;
    let mut inside = true;
    for o in 0..Monitor::OBJECTS as u8 {
        absent = absent & ((o < p.objects) | !is_live(unit, o));
        inside = inside & label_inside(p, label_of(unit, o));
    }
    Kept { absent, inside }
}

// All records of a unit.
pub fn keeps(unit: &Rows) -> Kept
    ensures { result ≡ kept (state_in unit.now) }
{
    let subjects = subjects_kept(unit);
    let objects = objects_kept(unit);
    Kept {
        absent: subjects.absent & objects.absent,
        inside: subjects.inside & objects.inside,
    }
}
