// Executes the edges of a site profile with the proved functions, and prints a line for each: what was tried, and the number that came.
// The numbers in the file stdout were worked out from change requests §8, §10 and §11 and the scope by hand; the comments say why.

#![tactic(auto)]

mod ranges;
mod requests;
mod tables;

use saying::Output;
use std::io;
use unit::ROWS;

fn main(rt: HostRuntime) -> io::Result<()> {
    let mut out = Output::new(rt.stdout());
    ranges::ranges(&mut out);
    print!(out; "under subjects 4, objects 10, class 3, needs 3\n");
    tables::tables(&mut out);
    // subject 0 has class 3 and the needs 0 and 1, subject 3 class 0 and no needs
    let table = tables::with_bytes(0x98, 0x18, 0x01, 0);
    let mut fresh = [[0u8; 16]; ROWS];
    let _ = image::start(&mut fresh, tables::narrow(), &table);
    requests::creates(&mut out, fresh);
    asking::ask(&mut fresh, &[0x50, 0, 0, 0, 0, 0]); // subject 0 creates object 0
    requests::others(&mut out, fresh);
    requests::levels(&mut out, fresh);
    requests::companies(&mut out, fresh);
    requests::parents(&mut out, fresh);
    print!(out; "after a table that was refused there\n");
    let mut empty = [[0u8; 16]; ROWS];
    let _ = image::start(&mut empty, tables::narrow(), &[0u8; 41]);
    requests::refused(&mut out, empty);
    out.finish()
}
