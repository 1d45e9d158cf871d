// The sixteen lines of a page, one for each subject.
ghost use Rattle.std.specs.Prelude.{◌≡◌, ◌<◌, ◌≤◌, length};
ghost use Rattle.model.specs.State.{subject_count, object_count, object};
ghost use Rattle.model.specs.Buffers.{put};
ghost use Rattle.unit.specs.Rows.{state_in};
ghost use Rattle.page_lines.specs.Lines.{line, lines, page_size};

use buffers::{put_bytes, two_digits};
use model::Monitor;
use page_sets::{count, marks};
use unit::{Rows, held_by, rights_of};

pub const LINE_BYTES: usize = 15;

// The line of a subject, from its two sets.
fn line(s: u8, rights: u8, held: u8) -> [u8; LINE_BYTES]
    ensures { result ≡ line s rights held }
{
    let [tens, ones] = two_digits(s);
    let [r, w, a, e] = marks(rights);
    let [held_r, held_w, held_a, held_e] = marks(held);
    let held_count = b'0' + count(held);
    [
        tens, ones, b' ', r, w, a, e, b' ', held_r, held_w, held_a, held_e, b' ', held_count, b'\n',
    ]
}

// The lines into the first bytes of out.
pub fn put_lines(out: &mut [u8], unit: &Rows, o: u8)
    requires o_lt_object_count { (o < object_count) × (page_size ≤ length out.old) }
    ensures { out.new ≡ put out.old 0 (lines (object (state_in unit.now) o) subject_count) }
{
    // Kept: by place, since the contract of `chunks_exact_mut` does not say what the buffer holds in the end.
    for s in 0..Monitor::SUBJECTS as u8 {
        let rights = rights_of(unit, o, s);
        let held = held_by(unit, o, s);
        put_bytes(out, LINE_BYTES * usize::from(s), &line(s, rights, held));
    }
}
