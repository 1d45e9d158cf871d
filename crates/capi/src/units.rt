// A unit in memory that C or Rust owns: opened or started under the widest profile, asked, taken back, saved. It is 308 rows of sixteen bytes, the
// monitor and behind it the journal, and passes as one pointer. What is asked of it, saved and shown is under the profile that it has.
ghost use Rattle.std.specs.Prelude.{◌≡◌};
ghost use Rattle.model.specs.State.{widest};
ghost use Rattle.model.specs.Decisions.{number};
ghost use Rattle.model.specs.Runs.{reply};
ghost use Rattle.model.specs.Journal.{taking_back};
ghost use Rattle.model.specs.Reading.{read_table, read_image};
ghost use Rattle.model.specs.Writing.{writing, written};
ghost use Rattle.unit.specs.Rows.{state_in};
ghost use Rattle.journaled.specs.Units.{rows_of, said_by, begun_rows, asked_unit, taken_unit};
ghost use Rattle.page.specs.Page.{paging, paged};

use journaled::{Unit, ask, open, start, take_back};
use labels::number;
use model::widest;
use writing::save;

// Begins from an image; a refused one leaves the empty monitor in the unit.
#[unsafe(no_mangle)]
pub extern "C" fn circmon_open(unit: &mut Unit, image: &[u8]) -> u8
    ensures { (result ≡ number (read_image widest image.now).decision) × (rows_of unit.new ≡ begun_rows (read_image widest image.now).monitor) }
{
    number(open(unit, widest(), image))
}

// Begins from a table; a refused one leaves the empty monitor in the unit.
#[unsafe(no_mangle)]
pub extern "C" fn circmon_start(unit: &mut Unit, table: &[u8]) -> u8
    ensures { (result ≡ number (read_table widest table.now).decision) × (rows_of unit.new ≡ begun_rows (read_table widest table.now).monitor) }
{
    number(start(unit, widest(), table))
}

// The reply to a request; the unit is the state after it, and with reply 0 the journal has the record as it was.
#[unsafe(no_mangle)]
pub extern "C" fn circmon_ask(unit: &mut Unit, request: &[u8]) -> u8
    ensures { (result ≡ reply request.now (state_in (rows_of unit.old))) × (rows_of unit.new ≡ asked_unit request.now (rows_of unit.old)) }
{
    ask(unit, request)
}

// Takes back the latest request that is still in the journal; an empty journal leaves every byte.
#[unsafe(no_mangle)]
pub extern "C" fn circmon_take_back(unit: &mut Unit) -> u8
    ensures { (result ≡ number (taking_back (said_by (rows_of unit.old)).journal)) × (rows_of unit.new ≡ taken_unit (rows_of unit.old)) }
{
    number(take_back(unit))
}

// The image of the state into the buffer.
#[unsafe(no_mangle)]
pub extern "C" fn circmon_save(unit: &Unit, image: &mut [u8]) -> u8
    ensures { (result ≡ number (writing image.old)) × (image.new ≡ written (state_in (rows_of unit.now)) image.old) }
{
    number(save(unit.monitor(), image))
}

// The access page of an object into the buffer.
#[unsafe(no_mangle)]
pub extern "C" fn circmon_page(unit: &Unit, object: u8, page: &mut [u8]) -> u8
    ensures { (result ≡ number (paging (state_in (rows_of unit.now)) object page.old)) × (page.new ≡ paged (state_in (rows_of unit.now)) object page.old) }
{
    number(page::page(unit.monitor(), object, page))
}
