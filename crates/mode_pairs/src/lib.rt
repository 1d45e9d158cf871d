// Mode pairs: for each mode held and mode wanted, which label the star property asks to dominate which. The check decides by this table.

#![tactic(auto)]

ghost use Rattle.std.specs.Prelude.{◌≡◌};
ghost use Rattle.model.specs.Modes.{any_observes, any_alters, any_needs_label};
ghost use Rattle.mode_pairs.specs.Table.{place, coded, row_asks, if_asking, modes_asking};
ghost use Rattle.model.specs.ModePairs.{entry, kept};

use labels::{dominates, implies};
use mode_sets::add;
use model::{Label, Mode};

const NEITHER: u8 = 0;

// The label of the object wanted dominates that of the object held.
const WANTED: u8 = 1;

// The label of the object held dominates that of the object wanted.
const HELD: u8 = 2;

const BOTH: u8 = WANTED | HELD;

// A row for each mode held; in each row the modes wanted: r, w, a, e.
const PAIRS: [[u8; 4]; 4] = [
    // r held: the label of what is wanted for w or a dominates its label
    [NEITHER, WANTED, WANTED, NEITHER],
    // w held, which reads and writes: its label dominates that of what is wanted for r, that of what is wanted for a dominates it; for w both
    [HELD, BOTH, WANTED, NEITHER],
    // a held: its label dominates that of what is wanted for r or w
    [HELD, HELD, NEITHER, NEITHER],
    // e held, which neither reads nor writes
    [NEITHER, NEITHER, NEITHER, NEITHER],
];

// Where the mode stands in a row, and its row in the table: the modes are declared in this order.
fn place(x: Mode) -> usize
    ensures { result ≡ place x }
{
    x as usize
}

fn entry(held: Mode, wanted: Mode) -> u8
    ensures { result ≡ coded (entry held wanted) }
{
    PAIRS[place(held)][place(wanted)]
}

// All that the entries of a row ask: NEITHER, WANTED, HELD or BOTH.
fn row_asks(held: Mode) -> u8
    ensures { result ≡ row_asks held }
{
    entry(held, Mode::Read)
        | entry(held, Mode::Write)
        | entry(held, Mode::Append)
        | entry(held, Mode::Execute)
}

// The mode alone, as a set, where its row asks that this label dominate: WANTED, HELD, or BOTH for one of the two; else no mode.
fn if_asking(held: Mode, which: u8) -> u8
    ensures { result ≡ if_asking held which }
{
    if row_asks(held) & which != 0 {
        add(held, 0)
    } else {
        0
    }
}

// The modes whose rows ask it.
fn modes_asking(which: u8) -> u8
    ensures { result ≡ modes_asking which }
{
    if_asking(Mode::Read, which)
        | if_asking(Mode::Write, which)
        | if_asking(Mode::Append, which)
        | if_asking(Mode::Execute, which)
}

// Kept: three questions of one line each; a function with the label as an argument would be no plainer.

// Whether a mode of the set observes: its row asks that the label of the object wanted dominate.
pub fn table_observes(n: u8) -> bool
    ensures { result ≡ any_observes n }
{
    n & modes_asking(WANTED) != 0
}

// Whether a mode of the set alters: its row asks that the label of the object held, its own, dominate.
pub fn table_alters(n: u8) -> bool
    ensures { result ≡ any_alters n }
{
    n & modes_asking(HELD) != 0
}

// Whether the table asks anything of a mode of the set.
pub fn table_asks(n: u8) -> bool
    ensures { result ≡ any_needs_label n }
{
    n & modes_asking(BOTH) != 0
}

// Whether two labels keep what the table asks: p of the object held in mode x, q of the object wanted in mode y.
pub fn labels_keep(x: Mode, p: Label, y: Mode, q: Label) -> bool
    ensures { result ≡ kept (entry x y) p q }
{
    let asked = entry(x, y);
    let wanted = implies(asked & WANTED != 0, dominates(q, p));
    let held = implies(asked & HELD != 0, dominates(p, q));
    wanted & held
}
