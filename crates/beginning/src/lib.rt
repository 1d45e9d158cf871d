// The image of a monitor that is begun from a table under the widest profile. No object is live in it: so it is the bytes of the table, and zeros behind them.

#![tactic(auto)]

ghost use Rattle.std.specs.Prelude.{◌≡◌};
ghost use Rattle.model.specs.State.{widest};
ghost use Rattle.model.specs.Decisions.{checked};
ghost use Rattle.model.specs.Reading.{read_table};
ghost use Rattle.model.specs.Writing.{writing, written};

use buffers::put_bytes;
use image_records::read_subjects;
use labels::ensure;
use model::{Decision, Monitor};

// Checks 10 and 11 of a table; the widest profile refuses nothing that passes them.
pub fn check_table(table: &[u8]) -> Result<(), Decision>
    ensures { result ≡ checked (read_table widest table.now).decision }
{
    ensure(table.len() == Monitor::TABLE_BYTES, Decision::WrongLength)?;
    ensure(read_subjects(table).formed, Decision::StrayBits)
}

// The image into the first bytes of out, from a table that was checked; a shorter buffer is left as it is.
pub fn write_begun(table: &[u8], out: &mut [u8]) -> Result<(), Decision>
    requires { checked (read_table widest table.now).decision ≡ Ok tt }
    ensures { (result ≡ checked (writing out.old)) × (out.new ≡ written (read_table widest table.now).monitor out.old) }
{
    if out.len() < Monitor::IMAGE_BYTES {
        return Err(Decision::ShortBuffer);
    }
    let mut image = [0u8; Monitor::IMAGE_BYTES];
    put_bytes(&mut image, 0, table);
    put_bytes(out, 0, &image);
    Ok(())
}
