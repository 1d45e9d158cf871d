// What the page shows of a set of modes: its letters, and how many modes are in it.

#![tactic(auto)]

ghost use Rattle.std.specs.Prelude.{◌≡◌};
ghost use Rattle.bits.specs.Bits.{bit};
ghost use Rattle.model.specs.Modes.{has};
ghost use Rattle.page_sets.specs.Sets.{letter, mark, marks, mode_count};

use mode_sets::has;
use model::Mode;

// The four modes, in the order of the page.
const MODES: [Mode; 4] = [Mode::Read, Mode::Write, Mode::Append, Mode::Execute];

fn letter(x: Mode) -> u8
    ensures { result ≡ letter x }
{
    match x {
        Mode::Read => b'r',
        Mode::Write => b'w',
        Mode::Append => b'a',
        Mode::Execute => b'e',
    }
}

// The letter of the mode, or a dash where it is not in the set.
fn mark(set: u8, x: Mode) -> u8
    ensures { result ≡ mark set x }
{
    if has(x, set) { letter(x) } else { b'-' }
}

// r, w, a and e, each at its own place.
pub fn marks(set: u8) -> [u8; 4]
    ensures { result ≡ marks set }
{
    MODES.map(|x| mark(set, x))
}

// 1 where the mode is in the set.
pub fn bit_of(set: u8, x: Mode) -> u8
    ensures { result ≡ bit (has x set) }
{
    u8::from(has(x, set))
}

// How many of the four modes are in the set.
pub fn count(set: u8) -> u8
    ensures { result ≡ mode_count set }
{
    let [r, w, a, e] = MODES.map(|x| bit_of(set, x));
    r + w + a + e
}
