// The requests on which the states of two units reply differently, found and written one behind the other.

#![tactic(auto)]

ghost use Rattle.std.specs.Prelude.{◌≡◌, ◌+◌, ◌*◌, ◌≤◌, length};
ghost use Rattle.model.specs.Requests.{request_size};
ghost use Rattle.model.specs.Buffers.{put};
ghost use Rattle.telling.specs.Distinguish.{by_standing, distinguish};
ghost use Rattle.unit.specs.Rows.{state_in};
ghost use Rattle.differences.specs.Sequences.{reading_of, requests_in, requests_of};
ghost use Rattle.distinguish.specs.Telling.{bytes_of, room_of_four, told_number, told_bytes};

use differences::{
    Sequence, clearances_apart, enrolments_apart, free_place, objects_apart, parents_apart,
    standings_apart,
};
use encoding::put_request;
use model::{Creation, Decision, Level, Mode, Request};
use unit::Rows;

// The room for four requests.
const ROOM: usize = 24;

// An object that is created to be asked of has no parent, and its owner no execute.
const PLAIN: Creation = Creation {
    execute: false,
    parent: 0,
};

// Who is enrolled, then what is live and who owns it, and where these are equal what is under what.
#[tactic(auto, using(differences::proofs::Searching::joined, crate::proofs::Parts::standing_parts))]
fn standing_of(a: &Rows, b: &Rows) -> Option<Sequence>
    ensures { requests_of result ≡ by_standing (state_in a.now) (state_in b.now) }
{
    enrolments_apart(a, b)
        .or_else(|| standings_apart(a, b))
        .or_else(|| parents_apart(a, b))
}

// First what deletions and creations tell, then the rest of the objects, and where these are equal the clearances.
#[tactic(auto, using(differences::proofs::Searching::joined, crate::proofs::Parts::distinguish_parts))]
fn sequence_of(a: &Rows, b: &Rows) -> Option<Sequence>
    ensures { requests_of result ≡ distinguish (state_in a.now) (state_in b.now) }
{
    standing_of(a, b)
        .or_else(|| objects_apart(a, b))
        .or_else(|| clearances_apart(free_place(a).place, a, b))
}

// ---- the requests, written one behind the other

// Create, change of level and get.
fn write_reading(out: &mut [u8], at: usize, s: u8, o: u8, l: Level)
    requires { at + 3 * request_size ≤ length out.old }
    ensures { out.new ≡ put out.old at (bytes_of (reading_of s o l)) }
{
    put_request(out, at, Request::Create(s, o, PLAIN));
    put_request(out, at + 6, Request::ChangeLevel(s, o, l));
    put_request(out, at + 12, Request::Get(s, o, Mode::Read));
}

// The requests of the sequence from the first byte on; returns how many there are.
fn write_sequence(out: &mut [u8], q: Sequence) -> u8
    requires { room_of_four ≤ length out.old }
    ensures { (result ≡ length (requests_in q)) × (out.new ≡ put out.old 0 (bytes_of (requests_in q))) }
{
    match q {
        Sequence::One(only) => {
            put_request(out, 0, only);
            1
        }
        Sequence::Remaking {
            owner,
            object,
            child,
        } => {
            put_request(out, 0, Request::Delete(owner, object));
            put_request(out, 6, Request::Create(owner, child, PLAIN));
            2
        }
        Sequence::Reading {
            place,
            subject,
            level,
        } => match place.owner {
            None => {
                write_reading(out, 0, subject, place.object, level);
                3
            }
            Some(owner) => {
                put_request(out, 0, Request::Delete(owner, place.object));
                write_reading(out, 6, subject, place.object, level);
                4
            }
        },
    }
}

// The number of requests, which are in the first bytes of out, six for each; 13 where out has no room for four.
pub fn distinguish(a: &Rows, b: &Rows, out: &mut [u8]) -> u8
    ensures { (result ≡ told_number (state_in a.now) (state_in b.now) out.old) × (out.new ≡ told_bytes (state_in a.now) (state_in b.now) out.old) }
{
    if out.len() < ROOM {
        return u8::from(Decision::ShortBuffer);
    }
    match sequence_of(a, b) {
        None => 0,
        Some(found) => write_sequence(out, found),
    }
}
