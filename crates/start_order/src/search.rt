// The first piece that is no get, and the first two gets that clash.
ghost use Rattle.std.specs.Prelude.{◌≡◌, ◌&&◌, [], ◌<◌, length, get_or, Some};
ghost use Rattle.model.specs.State.{object_count};
ghost use Rattle.model.specs.Program.{pieces};
ghost use Rattle.unit.specs.Rows.{state_in};
ghost use Rattle.start_order.specs.First.{found};
ghost use Rattle.start_order.specs.Answers.{wanted, alone, breaks, first_other, partner, first_clash};
ghost use Rattle.start_order.specs.Tried.{Tried};

use crate::wanted::{Access, breaks, wanted_at};
use crate::{MOST, StartOrder};
use model::Profile;
use turns::piece_count;
use unit::{Rows, profile_of};

// The place of the first piece that is no well-formed get.
pub fn first_other(p: Profile, requests: &[u8]) -> Option<usize>
    ensures { result ≡ found (length (pieces requests.now)) (first_other p (pieces requests.now)) }
{
    for i in 0..piece_count(requests.len()) {
        if wanted_at(p, requests, i).is_none() {
            return Some(i);
        }
    }
    None
}

// The pieces of a row of requests on a unit, and for each whether it is granted alone.
#[derive(Drop)]
pub struct Gets<'a> {
    pub unit: &'a Rows,
    pub requests: &'a [u8],
    pub alone: &'a [bool; MOST],
    ghost tried: { Tried (state_in unit.now) (pieces requests.now) alone.now },
}

impl<'a> Gets<'a> {
    // How many pieces there are.
    fn count(&self) -> usize
        ensures { result ≡ length (pieces self.now.requests.now) }
    {
        piece_count(self.requests.len())
    }

    // What the piece at place i asks for, under the profile of the unit.
    fn wanted_at(&self, i: usize) -> Option<Access>
        requires { i < length (pieces self.now.requests.now) }
        ensures { result ≡ wanted (state_in self.now.unit.now).profile (get_or (pieces self.now.requests.now) i []) }
    {
        wanted_at(profile_of(self.unit), self.requests, i)
    }

    // Whether the get at place j is granted alone and breaks star or the wall together with another.
    fn clashes_at(&self, first: Access, j: usize) -> bool
        requires inside { (first.object < object_count) × (j < length (pieces self.now.requests.now)) }
        ensures { result ≡ (alone (state_in self.now.unit.now) (wanted (state_in self.now.unit.now).profile (get_or (pieces self.now.requests.now) j [])) && breaks (state_in self.now.unit.now) (Some first) (wanted (state_in self.now.unit.now).profile (get_or (pieces self.now.requests.now) j []))) }
    {
        if !self.alone[j] {
            return false;
        }
        match self.wanted_at(j) {
            Some(second) => breaks(self.unit, first, second),
            None => false,
        }
    }

    // The place of the first get behind i that clashes with the one at i.
    fn partner(&self, i: usize) -> Option<usize>
        requires inside { i < length (pieces self.now.requests.now) }
        ensures { result ≡ found (length (pieces self.now.requests.now)) (partner (state_in self.now.unit.now) (pieces self.now.requests.now) i) }
    {
        if !self.alone[i] {
            return None;
        }
        let first = self.wanted_at(i)?;
        for j in i + 1..self.count() {
            if self.clashes_at(first, j) {
                return Some(j);
            }
        }
        None
    }

    // The first two gets that clash.
    pub fn first_clash(&self) -> StartOrder
        ensures { result ≡ first_clash (state_in self.now.unit.now) (pieces self.now.requests.now) }
    {
        for i in 0..self.count() {
            if let Some(j) = self.partner(i) {
                return StartOrder::Clash(i, j);
            }
        }
        StartOrder::Agree
    }
}
