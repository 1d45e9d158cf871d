// Whether the order of a list of gets matters: the first two of them that clash.

#![tactic(auto)]

mod alone;
mod search;
mod wanted;

ghost use Rattle.std.specs.Prelude.{◌≡◌};
ghost use Rattle.model.specs.Program.{pieces};
ghost use Rattle.unit.specs.Rows.{state_in};
ghost use Rattle.start_order.specs.Answers.{start_order};

use crate::alone::list_alone;
use crate::search::{Gets, first_other};
use turns::piece_count;
use unit::{Rows, profile_of};

// As many pieces as are looked at.
pub const MOST: usize = 4096;

// All orders of the gets leave equal states; the gets at two places clash; at a place stands no get; there are too many.
#[derive(Clone, Copy)]
pub enum StartOrder {
    Agree,
    Clash(usize, usize),
    NoGet(usize),
    TooMany,
}

// The answer for the pieces of a row of requests. Gets are tried on a copy of the unit.
pub fn start_order(unit: &Rows, requests: &[u8]) -> StartOrder
    ensures { result ≡ start_order (pieces requests.now) (state_in unit.now) }
{
    if MOST < piece_count(requests.len()) {
        return StartOrder::TooMany;
    }
    let profile = profile_of(unit);
    let other = first_other(profile, requests);
    if let Some(i) = other {
        return StartOrder::NoGet(i);
    }
    let mut copy = *unit;
    let mut alone = [false; MOST];
    list_alone(&mut copy, requests, &mut alone);
    let gets = Gets {
        unit,
        requests,
        alone: &alone,
    };
    gets.first_clash()
}
