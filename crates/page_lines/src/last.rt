// The last line of a page: how many hold each mode, and the total.
ghost use Rattle.std.specs.Prelude.{◌≡◌, ◌<◌};
ghost use Rattle.model.specs.State.{object_count, object};
ghost use Rattle.unit.specs.Rows.{state_in};
ghost use Rattle.page_lines.specs.Lines.{holders, last_line};

use buffers::two_digits;
use model::{Mode, Monitor};
use page_sets::bit_of;
use unit::{Rows, held_by};

pub const LAST_BYTES: usize = 18;

// How many subjects hold the mode.
fn holders(unit: &Rows, o: u8, x: Mode) -> u8
    requires o_lt_object_count { o < object_count }
    ensures { result ≡ holders (object (state_in unit.now) o) x }
{
    let mut count: u8 = 0;
    for s in 0..Monitor::SUBJECTS as u8 {
        count += bit_of(held_by(unit, o, s), x);
    }
    count
}

// The total is the sum over the modes here, which is the sum down the lines.
pub fn last_line(unit: &Rows, o: u8) -> [u8; LAST_BYTES]
    requires o_lt_object_count { o < object_count }
    ensures { result ≡ last_line (object (state_in unit.now) o) }
{
    // Kept: a map over the four modes made this function four times slower.
    let read = holders(unit, o, Mode::Read);
    let write = holders(unit, o, Mode::Write);
    let append = holders(unit, o, Mode::Append);
    let execute = holders(unit, o, Mode::Execute);
    let [r, w, a, e] = [read, write, append, execute].map(two_digits);
    let all = two_digits(read + write + append + execute);
    [
        b't', b'o', b' ', r[0], r[1], b' ', w[0], w[1], b' ', a[0], a[1], b' ', e[0], e[1], b' ',
        all[0], all[1], b'\n',
    ]
}
