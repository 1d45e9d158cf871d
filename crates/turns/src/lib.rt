// A list of requests on a unit.

#![tactic(auto)]

ghost use Rattle.std.specs.Prelude.{◌≡◌, [], ◌<◌, length, get_or};
ghost use Rattle.model.specs.Buffers.{front};
ghost use Rattle.model.specs.Program.{pieces, piece_count};
ghost use Rattle.model.specs.Runs.{replies};
ghost use Rattle.unit.specs.Rows.{state_in};
ghost use Rattle.asking.specs.Asked.{asked_all};
ghost use Rattle.turns.specs.Turns.{turns};

use asking::ask;
use unit::Rows;

// How many pieces of six bytes there are, a last short one counted.
pub fn piece_count(bytes: usize) -> usize
    ensures { result ≡ piece_count bytes }
{
    bytes.div_ceil(6)
}

// The piece at place i: six bytes, or fewer at the end.
pub fn piece(requests: &[u8], i: usize) -> &[u8]
    requires { i < piece_count (length requests.now) }
    ensures { result.now ≡ get_or (pieces requests.now) i [] }
{
    let at = i * 6;
    let end = (at + 6).min(requests.len());
    &requests[at..end]
}

// Asks a unit the pieces in a row, as many as have room for a reply.
pub fn run(unit: &mut Rows, requests: &[u8], out: &mut [u8])
    ensures left { unit.new ≡ asked_all (turns requests.now (length out.old)) unit.old }
    ensures written { out.new ≡ front (length (turns requests.now (length out.old))) (replies (turns requests.now (length out.old)) (state_in unit.old)) out.old }
{
    // Kept: by place, since the contract of `iter_mut` under `zip` does not say what the buffer holds in the end.
    let count = piece_count(requests.len()).min(out.len());
    for i in 0..count {
        out[i] = u8::from(ask(unit, piece(requests, i)));
    }
}
