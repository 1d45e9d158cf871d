// The edges of tables and images: lengths, and a bit that is turned over. The comment behind each has the number that the scope
// gives it, and why.
ghost use Rattle.std.specs.Prelude.{◌≤◌, length};

use saying::{Output, answer, enrolment, say, say_bytes};
use unit::{ROWS, Rows};
use writing::save;

// The bytes with a bit turned over, if one is to be. Bits are counted from the start, most significant first.
fn turned(mut bytes: [u8; 1459], bit: Option<usize>) -> [u8; 1459] {
    if let Some(bit) = bit {
        if let Some(byte) = bytes.get_mut(bit / 8) {
            *byte ^= 128 >> (bit % 8);
        }
    }
    bytes
}

// The line up to its number.
fn describe(out: &mut Output, words: &str, length: usize, bit: Option<usize>) {
    say_bytes(out, words, length);
    if let Some(bit) = bit {
        say(out, ", turned over bit ", bit);
    }
}

// Reads so many bytes from the start of the table.
fn table(out: &mut Output, length: usize, bit: Option<usize>)
    requires { length ≤ 1459 }
{
    let bytes = turned(enrolment(), bit);
    describe(out, "table of ", length, bit);
    let mut unit = [[0u8; 16]; ROWS];
    answer(out, image::start_widest(&mut unit, &bytes[0..length]));
}

// Tables of three lengths, and one with a bit in an absent record.
pub fn tables(out: &mut Output) {
    table(out, 41, None); // 10: another length
    table(out, 43, None); // 10: another length
    table(out, 42, Some(294 + 20)); // 11: the last bit of subject 14's record, 294 to 314; subject 14 is absent
    table(out, 42, None); // 0
}

// Reads so many bytes from the start of the unit's image, which has a zero byte behind it.
fn image(out: &mut Output, unit: &Rows, length: usize, bit: Option<usize>)
    requires { length ≤ 1459 }
{
    let mut written = [0u8; 1459];
    let _ = save(unit, &mut written);
    let bytes = turned(written, bit);
    describe(out, "image of ", length, bit);
    let mut opened = [[0u8; 16]; ROWS];
    answer(out, image::open_widest(&mut opened, &bytes[0..length]));
}

// Object 0 is live and owned by subject 0, and no other object is live.
pub fn images(out: &mut Output, unit: &Rows) {
    image(out, unit, 1457, None); // 10: another length
    image(out, unit, 1458, None); // 0: written and read back
    image(out, unit, 1459, None); // 10: another length
    image(out, unit, 1458, Some(8 * 1458 - 1)); // 11: the last bit of all is in the record of object 63, which is not live
    image(out, unit, 1274, None); // 10: the length of an image without company numbers
    image(out, unit, 1402, None); // 10: the length of an image without parents
    image(out, unit, 1458, Some(336 + 26)); // 0: the first bit of the company numbers of object 0, which nobody else holds: company 8 of the first class
    image(out, unit, 1458, Some(336 + 177 + 26)); // 11: the same of object 1, which is not live
    image(out, unit, 1458, Some(336 + 1)); // 12: the first owner bit, behind the live bit, of object 0: the owner becomes 8, who is absent
    image(out, unit, 1458, Some(336 + 170)); // 19: the first parent bit of object 0: its parent becomes object 63, which is not live
    image(out, unit, 1458, Some(336 + 176)); // 19: the last parent bit: its parent becomes object 0, which is itself
}
