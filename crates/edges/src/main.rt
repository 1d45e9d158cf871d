// Executes the edges of requests with the proved functions, and prints a line for each: what was tried, and the number that came.
// The numbers in the file stdout were worked out from the scope by hand; the comment at each request says why.

#![tactic(auto)]

mod companies;
mod parents;
mod requests;

use saying::Output;
use std::io;
use unit::ROWS;

fn main(rt: HostRuntime) -> io::Result<()> {
    let mut out = Output::new(rt.stdout());
    let table = saying::enrolment();
    let mut fresh = [[0u8; 16]; ROWS];
    let _ = image::start_widest(&mut fresh, &table[0..42]);
    let one = requests::subjects(&mut out, fresh);
    requests::objects(&mut out, fresh);
    requests::modes(&mut out, one);
    requests::lengths(&mut out, fresh);
    let labelled = requests::kinds(&mut out, one);
    requests::unused(&mut out, labelled);
    requests::levels(&mut out, labelled);
    companies::setting(&mut out, one);
    companies::wall(&mut out, one);
    parents::creating(&mut out, one);
    parents::labelling(&mut out, one);
    out.finish()
}
