// Where the lines go.
ghost use Rattle.std.specs.Prelude.{◌≡◌, IsOk, OnErr};

use std::fmt::Display;
use std::io;
use std::io::{Print, Stdout};

// Standard output, and whether every write so far went through. After one that failed nothing more is written, and the program goes
// on to its end and ends with the failure: so a function that prints a line has no failure of its own to hand back.
pub struct Output {
    stdout: Stdout,
    pub outcome: io::Result<()>,
}

impl Output {
    pub fn new(stdout: Stdout) -> Output
        ensures { IsOk result.outcome }
    {
        Output {
            stdout,
            outcome: Ok(()),
        }
    }

    // What `print!(out; ..)` calls.
    pub fn print<D: Display + Drop>(&mut self, value: D)
        ensures { OnErr self.old.outcome (self.new ≡ self.old) }
    {
        if self.outcome.is_ok() {
            self.outcome = self.stdout.print(value);
        }
    }

    // The first failure, if a write failed.
    pub fn finish(self) -> io::Result<()>
        ensures { result ≡ self.outcome }
    {
        let Output { stdout: _, outcome } = self;
        outcome
    }
}
