// The edges of a lent buffer.
use saying::{Output, answer, end, say_bytes};
use unit::Rows;
use writing::save;

// What is in the buffer after the writing.
fn describe(out: &mut Output, bytes: &[u8]) {
    if let Some(last) = bytes.last() {
        print!(out; "  its last byte after that");
        end(out, *last);
    }
    print!(out; "  how many of its bytes are 170 after that");
    end(out, bytes.iter().filter(|b| **b == 170).count());
}

// A writing into a buffer whose bytes were all 170.
fn buffer(out: &mut Output, unit: &Rows, bytes: &mut [u8]) {
    say_bytes(out, "buffer, each byte 170, of ", bytes.len());
    answer(out, save(unit, bytes));
    describe(out, bytes);
}

// The image ends with 0, for object 63 is not live, and none of its bytes is 170. Those that are not 0 are in hexadecimal 88, 0C, C0,
// E0, 1F, FF, FF in the table, and 84 and 3E in the record of object 0: live, owner 0, a label of class 0 without needs, no company
// (1 0000 1 and 36 zeros), then subject 0's rights r, w, a, e and its access r (1111 1000).
pub fn buffers(out: &mut Output, unit: &Rows) {
    let mut short = [170u8; 1457];
    buffer(out, unit, &mut short); // 13; last byte 170, and 1457 bytes are 170: all are left
    let mut exact = [170u8; 1458];
    buffer(out, unit, &mut exact); // 0; last byte 0, and no byte is 170
    let mut long = [170u8; 1459];
    buffer(out, unit, &mut long); // 0; last byte 170, and 1 byte is 170: the one behind the image is left
}
