// The journal of a unit: up to 32 records that requests changed, each as it was before, in a ring of rows. Every content of the rows is a journal.

#![tactic(auto)]

ghost use Rattle.std.specs.Prelude.{◌≡◌, ◌<◌};
ghost use Rattle.model.specs.Journal.{journal_size};
ghost use Rattle.journal.specs.Ring.{next_slot, entry_count, slot_of, entry_in};
ghost use Rattle.journal.specs.Stored.{set_ring, set_slot, entered_rows, left_rows, no_entries};

use model::{Monitor, Object};
use unit::object_of;

// Entries in all.
const SLOTS: usize = 32;

// Here begin the numbers of the objects, behind three rows for each slot; then the row with the next slot and the number of entries.
const PLACES: usize = 3 * SLOTS;

const RING: usize = PLACES + SLOTS / Monitor::SUBJECTS;

pub const ROWS: usize = RING + 1;

// The rows of a journal, as they lie in memory behind those of the monitor.
pub type Journal = [[u8; 16]; ROWS];

// The slot that the next entry takes.
fn next_slot(journal: &Journal) -> usize
    ensures { result ≡ next_slot journal.now }
{
    (journal[RING][0] % 32) as usize
}

// How many entries there are.
pub fn entry_count(journal: &Journal) -> usize
    ensures { result ≡ entry_count journal.now }
{
    let n = journal[RING][1];
    if n < 32 { n as usize } else { SLOTS }
}

// The slot of the latest entry.
pub fn latest_slot(journal: &Journal) -> usize
    ensures { result ≡ slot_of journal.now 0 }
{
    (next_slot(journal) + (SLOTS - 1)) % SLOTS
}

// The object of a slot.
pub fn place_in(journal: &Journal, k: usize) -> u8
    requires k_lt_journal_size { k < journal_size }
    ensures { result ≡ (entry_in journal.now k).place }
{
    journal[PLACES + k / 16][k % 16] % 64
}

// The record of a slot.
pub fn record_in(journal: &Journal, k: usize) -> Object
    requires k_lt_journal_size { k < journal_size }
    ensures { result ≡ (entry_in journal.now k).was }
{
    object_of(journal[3 * k], journal[3 * k + 1], journal[3 * k + 2])
}

fn set_ring(journal: &mut Journal, next: u8, count: u8)
    ensures { journal.new ≡ set_ring journal.old next count }
{
    journal[RING][0] = next;
    journal[RING][1] = count;
}

fn set_slot(
    journal: &mut Journal,
    k: usize,
    o: u8,
    rights: [u8; 16],
    held: [u8; 16],
    rest: [u8; 16],
)
    requires k_lt_journal_size { k < journal_size }
    ensures { journal.new ≡ set_slot journal.old k o rights held rest }
{
    journal[3 * k] = rights;
    journal[3 * k + 1] = held;
    journal[3 * k + 2] = rest;
    journal[PLACES + k / 16][k % 16] = o;
}

// The rows of an object become the latest entry; where all slots are taken, in the place of the oldest.
#[tactic(auto, unfolding(crate::specs::Stored::entered_rows))]
pub fn enter(journal: &mut Journal, o: u8, rights: [u8; 16], held: [u8; 16], rest: [u8; 16])
    ensures { journal.new ≡ entered_rows journal.old o rights held rest }
{
    let k = next_slot(journal);
    let count = entry_count(journal);
    set_slot(journal, k, o, rights, held, rest);
    let next = (k + 1) % SLOTS;
    let more = (count + 1).min(SLOTS);
    set_ring(journal, next as u8, more as u8);
}

// The latest entry goes; there is one.
#[tactic(auto, unfolding(crate::specs::Stored::left_rows))]
pub fn leave(journal: &mut Journal)
    requires journal_nonzero { 0 < entry_count journal.old }
    ensures { journal.new ≡ left_rows journal.old }
{
    let k = latest_slot(journal);
    let count = entry_count(journal);
    set_ring(journal, k as u8, (count - 1) as u8);
}

// No entry: every row is 0.
#[tactic(auto, unfolding(crate::specs::Stored::no_entries))]
pub fn clear(journal: &mut Journal)
    ensures { journal.new ≡ no_entries }
{
    *journal = [[0u8; 16]; ROWS];
}
