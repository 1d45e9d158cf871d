// Executes the edges of tables, images and lent buffers with the proved functions, and prints a line for each: what was tried, and
// the number that came. The numbers in the file stdout were worked out from the scope by hand; the comments say why.

#![tactic(auto)]

mod beginnings;
mod lent;

use asking::ask;
use saying::Output;
use std::io;
use unit::{ROWS, Rows};

// Subject 0 creates object 0 with e, labels it (0, 0000) and reads it.
fn read_one(unit: &mut Rows) {
    ask(unit, &[0x50, 0x00, 0x04, 0x00, 0x00, 0x00]);
    ask(unit, &[0x70, 0x00, 0x00, 0x00, 0x00, 0x00]);
    ask(unit, &[0x10, 0x00, 0x01, 0x00, 0x00, 0x00]);
}

fn main(rt: HostRuntime) -> io::Result<()> {
    let mut out = Output::new(rt.stdout());
    beginnings::tables(&mut out);
    let table = saying::enrolment();
    let mut unit = [[0u8; 16]; ROWS];
    let _ = image::start_widest(&mut unit, &table[0..42]);
    read_one(&mut unit);
    beginnings::images(&mut out, &unit);
    lent::buffers(&mut out, &unit);
    out.finish()
}
