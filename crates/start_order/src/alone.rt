// Which gets are granted if they came alone.
ghost use Rattle.std.specs.Prelude.{◌≡◌, ◌≤◌, length};
ghost use Rattle.model.specs.Program.{pieces, piece_count};
ghost use Rattle.unit.specs.Rows.{state_in};
ghost use Rattle.start_order.specs.Answers.{most_pieces, wanted, alone};
ghost use Rattle.start_order.specs.Tried.{Tried};

use crate::MOST;
use crate::wanted::access_in;
use asking::ask;
use turns::{piece, piece_count};
use unit::{Rows, held_by, profile_of, set_held};

// Whether the piece is a get that is granted on the unit as it is. It is carried out, and then the actor's set is what it was before.
fn is_alone(unit: &mut Rows, piece: &[u8]) -> bool
    ensures answered { result ≡ alone (state_in unit.old) (wanted (state_in unit.old).profile piece.now) }
    ensures left { unit.new ≡ unit.old }
{
    let profile = profile_of(unit);
    let Some(get) = access_in(profile, piece) else {
        return false;
    };
    let had = held_by(unit, get.object, get.subject);
    let reply = u8::from(ask(unit, piece));
    set_held(unit, get.object, get.subject, had);
    reply < 2
}

// For each piece whether it is granted if it came alone.
pub fn list_alone(unit: &mut Rows, requests: &[u8], list: &mut [bool; MOST])
    requires room { piece_count (length requests.now) ≤ most_pieces }
    ensures listed { Tried (state_in unit.old) (pieces requests.now) list.new }
    ensures left { unit.new ≡ unit.old }
{
    for i in 0..piece_count(requests.len()) {
        list[i] = is_alone(unit, piece(requests, i));
    }
}
