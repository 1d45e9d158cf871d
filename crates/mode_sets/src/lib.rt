// Modes and sets of modes. Each function computes the definition that its contract names, for every argument.

#![tactic(auto)]

ghost use Rattle.std.specs.Prelude.{◌≡◌};
ghost use Rattle.model.specs.Levels.{subset};
ghost use Rattle.model.specs.Modes.{weight, has, add, remove, observes, alters, needs_label, any_observes, any_alters, any_needs_label, any_held};

use model::Mode;

// The bit of each mode in a set of modes.
const READ: u8 = 8;

const WRITE: u8 = 4;

const APPEND: u8 = 2;

const EXECUTE: u8 = 1;

// ---- modes

fn weight(x: Mode) -> u8
    ensures { result ≡ weight x }
{
    match x {
        Mode::Read => READ,
        Mode::Write => WRITE,
        Mode::Append => APPEND,
        Mode::Execute => EXECUTE,
    }
}

pub fn observes(x: Mode) -> bool
    ensures { result ≡ observes x }
{
    matches!(x, Mode::Read | Mode::Write)
}

pub fn alters(x: Mode) -> bool
    ensures { result ≡ alters x }
{
    matches!(x, Mode::Write | Mode::Append)
}

pub fn needs_label(x: Mode) -> bool
    ensures { result ≡ needs_label x }
{
    x != Mode::Execute
}

// ---- sets of modes, one bit for each mode; also of numbers above 15, which are no sets of four modes

pub fn has(x: Mode, n: u8) -> bool
    ensures { result ≡ has x n }
{
    n & weight(x) != 0
}

pub fn add(x: Mode, n: u8) -> u8
    ensures { result ≡ add x n }
{
    n | weight(x)
}

pub fn remove(x: Mode, n: u8) -> u8
    ensures { result ≡ remove x n }
{
    n & !weight(x)
}

// Whether a set has a mode that observes, one that alters, one that needs a label, and any of the four.
// Kept: four questions of one line each; a function with the modes as an argument would be no plainer.

pub fn any_observes(n: u8) -> bool
    ensures { result ≡ any_observes n }
{
    n & (READ | WRITE) != 0
}

pub fn any_alters(n: u8) -> bool
    ensures { result ≡ any_alters n }
{
    n & (WRITE | APPEND) != 0
}

pub fn any_needs_label(n: u8) -> bool
    ensures { result ≡ any_needs_label n }
{
    n & (READ | WRITE | APPEND) != 0
}

pub fn any_held(n: u8) -> bool
    ensures { result ≡ any_held n }
{
    n & (READ | WRITE | APPEND | EXECUTE) != 0
}

// Each of the four modes that is in h is in r.
pub fn within(h: u8, r: u8) -> bool
    ensures { result ≡ subset 4 h r }
{
    let x = h % 16;
    x & r == x
}
