// A unit begun from a table or an image: the rows of the monitor, and an empty journal.
ghost use Rattle.std.specs.Prelude.{◌≡◌};
ghost use Rattle.model.specs.Decisions.{checked};
ghost use Rattle.model.specs.Reading.{read_table, read_image};
ghost use Rattle.journaled.specs.Units.{rows_of, begun_rows};

use crate::Unit;
use journal::clear;
use model::{Decision, Profile};

// Begins from an image; a refused one leaves the empty monitor.
pub fn open(unit: &mut Unit, profile: Profile, image: &[u8]) -> Result<(), Decision>
    ensures { (result ≡ checked (read_image profile image.now).decision) × (rows_of unit.new ≡ begun_rows (read_image profile image.now).monitor) }
{
    let (monitor, rest) = unit.rows.split_first_chunk_mut().unwrap();
    let opened = image::open(monitor, profile, image);
    clear(rest.as_mut_array().unwrap());
    opened
}

// Begins from a table; a refused one leaves the empty monitor.
pub fn start(unit: &mut Unit, profile: Profile, table: &[u8]) -> Result<(), Decision>
    ensures { (result ≡ checked (read_table profile table.now).decision) × (rows_of unit.new ≡ begun_rows (read_table profile table.now).monitor) }
{
    let (monitor, rest) = unit.rows.split_first_chunk_mut().unwrap();
    let started = image::start(monitor, profile, table);
    clear(rest.as_mut_array().unwrap());
    started
}
