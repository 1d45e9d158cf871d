// A unit: the rows of a monitor and, behind them, those of its journal. It is begun, asked, and taken back.

#![tactic(auto)]

mod beginning;

ghost use Rattle.std.specs.Prelude.{◌≡◌, cond, ◌&&◌, ◌<◌, ◌++◌};
ghost use Rattle.model.specs.Decisions.{checked};
ghost use Rattle.model.specs.Runs.{reply};
ghost use Rattle.model.specs.Journal.{taking_back};
ghost use Rattle.model.specs.State.{object_count};
ghost use Rattle.model.specs.Hierarchy.{has_child};
ghost use Rattle.unit.specs.Rows.{objects_in, state_in};
ghost use Rattle.journal.specs.Ring.{entry_count};
ghost use Rattle.journal.specs.Stored.{entered_rows, no_entries};
ghost use Rattle.journaled.specs.Units.{rows_of, monitor_part, journal_part, said_by, named, deletes, asked_unit, restored_unit, taken_unit};

pub use beginning::{open, start};
use bits::read_word;
use decoding::fields_of;
use hierarchy::has_child;
use journal::{Journal, clear, enter, entry_count, latest_slot, leave, place_in, record_in};
use model::Decision;
use unit::{HELD, REST, Rows, set_object};

// Rows of a unit: those of the monitor, and behind them those of its journal.
pub const ROWS: usize = unit::ROWS + journal::ROWS;

// A unit as it lies in memory that the caller owns, C too. Every content of it is a monitor and a journal.
#[repr(C)]
#[derive(Clone, Copy)]
pub struct Unit {
    pub rows: [[u8; 16]; ROWS],
}

impl Unit {
    // The rows of the monitor, which stand first.
    pub fn monitor(&self) -> &Rows
        ensures { result.now ≡ monitor_part (rows_of self.now) }
    {
        self.rows.first_chunk().unwrap()
    }

    // The rows of the journal, which stand behind them.
    pub fn journal(&self) -> &Journal
        ensures { result.now ≡ journal_part (rows_of self.now) }
    {
        self.rows.last_chunk().unwrap()
    }
}

// The object that a request names. Of bytes that are no request it is some number below 64, and nothing is entered.
fn named(bytes: &[u8]) -> u8
    ensures object { result ≡ named bytes.now }
    ensures below { result < object_count }
{
    if bytes.len() != 6 {
        return 0;
    }
    let f = fields_of(read_word(bytes));
    f.object % 64
}

// Whether the bytes have the kind that deletes.
fn deletes(bytes: &[u8]) -> bool
    ensures { result ≡ deletes bytes.now }
{
    if bytes.len() != 6 {
        return false;
    }
    let f = fields_of(read_word(bytes));
    f.kind == 6
}

// Whether the bytes ask for a deletion, of object o, that takes children: no other request looks for these.
fn takes_children(rows: &Rows, bytes: &[u8], o: u8) -> bool
    requires { o < object_count }
    ensures { result ≡ (deletes bytes.now && has_child (objects_in rows.now) o) }
{
    if !deletes(bytes) {
        return false;
    }
    has_child(rows, o)
}

// A reply 0 enters the record of object o as it was; where the request took children, the journal becomes empty.
fn enter_request(
    journal: &mut Journal,
    took: bool,
    o: u8,
    rights: [u8; 16],
    held: [u8; 16],
    rest: [u8; 16],
)
    ensures { journal.new ≡ cond took no_entries (entered_rows journal.old o rights held rest) }
{
    if took {
        clear(journal);
    } else {
        enter(journal, o, rights, held, rest);
    }
}

// The reply to a byte string, on the two parts of a unit.
fn ask_parts(monitor: &mut Rows, journal: &mut Journal, bytes: &[u8]) -> u8
    ensures { (result ≡ reply bytes.now (state_in (monitor.old ++ journal.old))) × (monitor.new ++ journal.new ≡ asked_unit bytes.now (monitor.old ++ journal.old)) }
{
    let o = named(bytes);
    let i = o as usize;
    let rights = monitor[i];
    let held = monitor[HELD + i];
    let rest = monitor[REST + i];
    let took = takes_children(monitor, bytes, o);
    let reply = u8::from(asking::ask(monitor, bytes));
    if reply == 0 {
        enter_request(journal, took, o, rights, held, rest);
    }
    reply
}

// The reply to a byte string of any length and content; the unit is the state after it.
pub fn ask(unit: &mut Unit, bytes: &[u8]) -> u8
    ensures { (result ≡ reply bytes.now (state_in (rows_of unit.old))) × (rows_of unit.new ≡ asked_unit bytes.now (rows_of unit.old)) }
{
    let (monitor, rest) = unit.rows.split_first_chunk_mut().unwrap();
    ask_parts(monitor, rest.as_mut_array().unwrap(), bytes)
}

// The record of the latest entry is restored, and the entry goes; there is one.
fn restore(monitor: &mut Rows, journal: &mut Journal)
    requires nonzero { 0 < entry_count journal.old }
    ensures { monitor.new ++ journal.new ≡ restored_unit (monitor.old ++ journal.old) }
{
    let k = latest_slot(journal);
    let o = place_in(journal, k);
    let was = record_in(journal, k);
    set_object(monitor, o, was);
    leave(journal);
}

// Takes back the latest request that is still in the journal; an empty journal leaves every byte.
pub fn take_back(unit: &mut Unit) -> Result<(), Decision>
    ensures { (result ≡ checked (taking_back (said_by (rows_of unit.old)).journal)) × (rows_of unit.new ≡ taken_unit (rows_of unit.old)) }
{
    if entry_count(unit.journal()) == 0 {
        return Err(Decision::EmptyJournal);
    }
    let (monitor, behind) = unit.rows.split_first_chunk_mut().unwrap();
    restore(monitor, behind.as_mut_array().unwrap());
    Ok(())
}
