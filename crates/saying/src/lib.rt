// The parts of a line that the programs over the scope's edges print, and the table that they begin with.

#![tactic(auto)]

ghost use Rattle.std.specs.Prelude.{◌≡◌};
ghost use Rattle.saying.specs.Enrolment.{enrolled};

mod output;
mod trial;

use model::{Decision, Fields};
pub use output::Output;
use std::fmt::Display;
pub use trial::{ask, create, get, give, release};

// Some words and a number.
pub fn say<N: Display + Drop>(out: &mut Output, words: &str, n: N) {
    print!(out; "{words}{n}");
}

// The same where the number is not 0, and nothing where it is.
fn say_set(out: &mut Output, words: &str, n: u16) {
    if n != 0 {
        say(out, words, n);
    }
}

// Some words and a length in bytes.
pub fn say_bytes(out: &mut Output, words: &str, length: usize) {
    print!(out; "{words}{length} bytes");
}

// The end of a line: a number.
pub fn end<N: Display + Drop>(out: &mut Output, n: N) {
    print!(out; ": {n}\n");
}

// The end of a line: the number of an answer.
pub fn answer(out: &mut Output, answer: Result<(), Decision>) {
    end(out, labels::number(answer));
}

// What the kind is called.
fn name(kind: u8) -> &'static str {
    match kind {
        1 => "get, kind ",
        2 => "release, kind ",
        3 => "give, kind ",
        5 => "create, kind ",
        6 => "delete, kind ",
        7 => "change level, kind ",
        8 => "set companies, kind ",
        _ => "kind ",
    }
}

// The line of a request up to its number. Of the fields that not every kind uses only those are said that are not 0.
fn describe(out: &mut Output, f: Fields) {
    say(out, name(f.kind), f.kind);
    say(out, ", by subject ", f.actor);
    say_set(out, ", other subject ", u16::from(f.other));
    say(out, ", object ", f.object);
    say(out, ", mode ", f.mode);
    say_set(out, ", class ", u16::from(f.class));
    say_set(out, ", needs ", f.needs);
    say_set(out, ", spare ", u16::from(f.spare));
}

// A table in which subject 0 has (1, 0001), subject 1 (3, 0003), subject 2 (0, 0000), as in table W, and subject 15 (15, FFFF); zeros
// behind it. Subject 15's record is bits 315 to 335: enrolled weighs 16 in byte 39, the class is the rest of that byte, then the needs.
pub fn enrolment() -> [u8; 1459]
    ensures { result ≡ enrolled }
{
    let mut bytes = [0u8; 1459];
    bytes[0] = 0x88;
    bytes[2] = 0x0c;
    bytes[3] = 0xc0;
    bytes[5] = 0xe0;
    bytes[39] = 0x1f;
    bytes[40] = 0xff;
    bytes[41] = 0xff;
    bytes
}
