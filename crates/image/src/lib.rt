// The table reader and the image reader: a unit begun from bytes of any length and content; a refusal leaves the empty monitor in it.

#![tactic(auto)]

ghost use Rattle.std.specs.Prelude.{◌≡◌, Err, OnOk};
ghost use Rattle.model.specs.State.{widest, fresh, empty_monitor};
ghost use Rattle.model.specs.Decisions.{checked};
ghost use Rattle.model.specs.declared.Decision.TheVariants.{Granted};
ghost use Rattle.model.specs.Reading.{table_from, monitor_from, table_checks, image_checks, read_table, read_image};
ghost use Rattle.unit.specs.Stored.{unit_of};
ghost use Rattle.image.specs.Settled.{settled};

use checking::state_checks;
use image_records::{read_objects, read_subjects};
use labels::ensure;
use model::{Decision, Monitor, Profile, Subject, widest};
use profiles::{Kept, fits, keeps, subjects_kept};
use unit::{Rows, fill};

// The rows of a monitor begun fresh under a profile, with no live object.
fn begin(unit: &mut Rows, profile: Profile, subjects: [Subject; 16])
    ensures { unit.new ≡ unit_of (fresh profile subjects) }
{
    fill(unit, Monitor::begin(profile, subjects));
}

// What a refused beginning returns and leaves: the refusal, and nobody enrolled under the widest profile.
fn refused(unit: &mut Rows, d: Decision) -> Result<(), Decision>
    ensures { (result ≡ Err d) × (unit.new ≡ unit_of empty_monitor) }
{
    let nobody = [Subject { clearance: None }; Monitor::SUBJECTS];
    begin(unit, widest(), nobody);
    Err(d)
}

// The checks behind the length that look at the records: 11, with any record beyond the profile, then 16 for the levels.
#[tactic(auto, unfolding(model::specs::Decisions::checked, model::specs::Tests::unless))]
fn settle(formed: bool, kept: Kept) -> Result<(), Decision>
    ensures { result ≡ checked (settled formed kept Granted) }
{
    ensure(formed & kept.absent, Decision::StrayBits)?;
    ensure(kept.inside, Decision::OutsideProfile)
}

// The checks of a table, and where they pass the rows of the monitor that it begins.
#[tactic(auto, unfolding(model::specs::Reading::table_checks, model::specs::Decisions::checked, model::specs::Tests::unless))]
fn take_table(unit: &mut Rows, profile: Profile, table: &[u8]) -> Result<(), Decision>
    ensures answer { result ≡ checked (table_checks profile table.now) }
    ensures begun { OnOk result (unit.new ≡ unit_of (fresh profile (table_from table.now))) }
{
    ensure(fits(profile), Decision::OutsideProfile)?; // before the table is read
    let long = table.len() == Monitor::TABLE_BYTES;
    ensure(long, Decision::WrongLength)?;
    let read = read_subjects(table);
    let subjects = read.subjects;
    begin(unit, profile, subjects);
    let kept = subjects_kept(unit); // no object is live
    settle(read.formed, kept)
}

// The checks of an image, and where they pass the rows of the monitor that it says. The object records are a part of their own.
#[tactic(auto, unfolding(model::specs::Reading::image_checks, model::specs::Decisions::checked, model::specs::Tests::unless))]
fn take_image(unit: &mut Rows, profile: Profile, image: &[u8]) -> Result<(), Decision>
    ensures answer { result ≡ checked (image_checks profile image.now) }
    ensures begun { OnOk result (unit.new ≡ unit_of (monitor_from profile image.now)) }
{
    ensure(fits(profile), Decision::OutsideProfile)?; // before the image is read
    let long = image.len() == Monitor::IMAGE_BYTES;
    ensure(long, Decision::WrongLength)?;
    let table = read_subjects(&image[0..Monitor::TABLE_BYTES]);
    let subjects = table.subjects;
    begin(unit, profile, subjects);
    let formed = read_objects(unit, &image[Monitor::TABLE_BYTES..]);
    let kept = keeps(unit);
    settle(table.formed & formed, kept)?;
    state_checks(unit)
}

// Begins from an enrolment table under a profile: checks 16, 10, 11, 16.
pub fn start(unit: &mut Rows, profile: Profile, table: &[u8]) -> Result<(), Decision>
    ensures { (result ≡ checked (read_table profile table.now).decision) × (unit.new ≡ unit_of (read_table profile table.now).monitor) }
{
    if let Err(refusal) = take_table(unit, profile, table) {
        return refused(unit, refusal);
    }
    Ok(())
}

// Begins from an image under a profile: the checks of a table, then those of the state.
pub fn open(unit: &mut Rows, profile: Profile, image: &[u8]) -> Result<(), Decision>
    ensures { (result ≡ checked (read_image profile image.now).decision) × (unit.new ≡ unit_of (read_image profile image.now).monitor) }
{
    if let Err(refusal) = take_image(unit, profile, image) {
        return refused(unit, refusal);
    }
    Ok(())
}

// Begins from an enrolment table under the widest profile.
pub fn start_widest(unit: &mut Rows, table: &[u8]) -> Result<(), Decision>
    ensures { (result ≡ checked (read_table widest table.now).decision) × (unit.new ≡ unit_of (read_table widest table.now).monitor) }
{
    start(unit, widest(), table)
}

// Begins from an image under the widest profile.
pub fn open_widest(unit: &mut Rows, image: &[u8]) -> Result<(), Decision>
    ensures { (result ≡ checked (read_image widest image.now).decision) × (unit.new ≡ unit_of (read_image widest image.now).monitor) }
{
    open(unit, widest(), image)
}
