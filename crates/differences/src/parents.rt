// The parents of objects in two states (change request §11): a deletion and a creation by which one of them is told from the other.
ghost use Rattle.std.specs.Prelude.{◌≡◌};
ghost use Rattle.unit.specs.Rows.{state_in};
ghost use Rattle.telling.specs.Distinguish.{by_below, to_parent};
ghost use Rattle.differences.specs.Sequences.{requests_of};
ghost use Rattle.differences.specs.Records.{parents_apart};

use crate::sequence::Sequence;
use hierarchy::is_below;
use model::Monitor;
use unit::{Rows, is_live, owner_of, parent_of};

// Object y is below a live object x in one only: the owner of x deletes it and creates y again, 5 or not. A number from 64 on is that of no object.
#[tactic(auto, unfolding(telling::specs::Distinguish::by_below))]
fn below_apart(a: &Rows, b: &Rows, x: u8, y: u8) -> Option<Sequence>
    ensures { requests_of result ≡ by_below (state_in a.now) (state_in b.now) x y }
{
    if usize::from(x) >= Monitor::OBJECTS {
        return None;
    }
    let apart = is_below(a, x, y) != is_below(b, x, y);
    (is_live(a, x) & apart).then_some(Sequence::Remaking {
        owner: owner_of(a, x),
        object: x,
        child: y,
    })
}

// Object o has the parents p and q: one of them is above it in one only, or the one parent is above the other in one only.
#[tactic(auto, using(crate::proofs::Searching::joined), unfolding(telling::specs::Distinguish::to_parent))]
fn parent_apart(a: &Rows, b: &Rows, o: u8, p: u8, q: u8) -> Option<Sequence>
    ensures { requests_of result ≡ to_parent (state_in a.now) (state_in b.now) o p q }
{
    match (p.checked_sub(1), q.checked_sub(1)) {
        (None, None) => None,
        (None, Some(y)) => below_apart(a, b, y, o),
        (Some(x), None) => below_apart(a, b, x, o),
        (Some(x), Some(y)) if x == y => None,
        (Some(x), Some(y)) => below_apart(a, b, x, o)
            .or_else(|| below_apart(a, b, y, o))
            .or_else(|| below_apart(a, b, y, x)),
    }
}

// The first object that has another parent, in two units.
pub fn parents_apart(a: &Rows, b: &Rows) -> Option<Sequence>
    ensures { requests_of result ≡ parents_apart (state_in a.now) (state_in b.now) }
{
    (0..Monitor::OBJECTS as u8).find_map(|o| {
        parent_apart(a, b, o, parent_of(a, o), parent_of(b, o))
    })
}
