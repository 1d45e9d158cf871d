// The access page of an object: who has which rights and holds which accesses, for a terminal.

#![tactic(auto)]

ghost use Rattle.std.specs.Prelude.{◌≡◌};
ghost use Rattle.model.specs.Decisions.{checked};
ghost use Rattle.unit.specs.Rows.{state_in};
ghost use Rattle.page.specs.Page.{paging, paged};

use buffers::put_bytes;
use model::{Decision, Monitor};
use page_lines::{LAST_BYTES, LINE_BYTES, last_line, put_lines};
use unit::{Rows, is_live};

// Where the last line begins, and the size of a page.
const LAST_AT: usize = LINE_BYTES * Monitor::SUBJECTS;

pub const PAGE_BYTES: usize = LAST_AT + LAST_BYTES;

// The page of object o into the first bytes of out; a refusal leaves every byte of it.
pub fn page(unit: &Rows, o: u8, out: &mut [u8]) -> Result<(), Decision>
    ensures { (result ≡ checked (paging (state_in unit.now) o out.old)) × (out.new ≡ paged (state_in unit.now) o out.old) }
{
    if Monitor::OBJECTS <= o as usize {
        return Err(Decision::MalformedRequest);
    }
    if !is_live(unit, o) {
        return Err(Decision::NotLive);
    }
    if out.len() < PAGE_BYTES {
        return Err(Decision::ShortBuffer);
    }
    put_lines(out, unit, o);
    let last = last_line(unit, o);
    put_bytes(out, LAST_AT, &last);
    Ok(())
}
