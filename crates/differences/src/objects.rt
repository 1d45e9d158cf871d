// The record of one object in two states, and all objects: the first difference gives the request.
ghost use Rattle.std.specs.Prelude.{◌≡◌};
ghost use Rattle.unit.specs.Rows.{objects_in};
ghost use Rattle.telling.specs.Distinguish.{to_label};
ghost use Rattle.differences.specs.Sequences.{requests_of};
ghost use Rattle.differences.specs.Records.{life_apart, owner_apart, standing_apart, standings_apart, companies_apart, ask_of, mode_apart, set_apart, row_apart, object_apart, objects_apart};

use crate::sequence::Sequence;
use mode_sets::has;
use model::{Label, Mode, Monitor, Object, Request};
use unit::{Rows, object_in};

// ---- what a record says of the object itself

// Live in one only: a delete by the owner there, 4 or not.
#[tactic(auto, unfolding(crate::specs::Records::life_apart, telling::specs::Distinguish::when))]
fn life_apart(o: u8, a: Object, b: Object) -> Option<Sequence>
    ensures { requests_of result ≡ life_apart o a b }
{
    let owner = if a.live { a.owner } else { b.owner };
    (a.live != b.live).then_some(Sequence::One(Request::Delete(owner, o)))
}

// Another owner: a delete by one of them, 6 or not.
#[tactic(auto, unfolding(crate::specs::Records::owner_apart, telling::specs::Distinguish::when))]
fn owner_apart(o: u8, a: Object, b: Object) -> Option<Sequence>
    ensures { requests_of result ≡ owner_apart o a b }
{
    (a.owner != b.owner).then_some(Sequence::One(Request::Delete(a.owner, o)))
}

// Its life, else its owner: what a deletion tells.
#[tactic(auto, using(crate::proofs::Searching::joined), unfolding(crate::specs::Records::standing_apart))]
fn standing_apart(o: u8, a: Object, b: Object) -> Option<Sequence>
    ensures { requests_of result ≡ standing_apart o a b }
{
    life_apart(o, a, b).or_else(|| owner_apart(o, a, b))
}

// Another label: the owner changes the level to one of them, 1 or not.
#[tactic(auto, using(crate::proofs::Searching::when_told), unfolding(telling::specs::Distinguish::to_label, model::specs::Levels::same_label))]
fn label_apart(s: u8, o: u8, a: Label, b: Label) -> Option<Sequence>
    ensures { requests_of result ≡ to_label s o a b }
{
    let level = a.or(b)?;
    (a != b).then_some(Sequence::One(Request::ChangeLevel(s, o, level)))
}

// Other company numbers: the owner sets those of the first, 1 or not.
#[tactic(auto, unfolding(crate::specs::Records::companies_apart, telling::specs::Distinguish::when))]
fn companies_apart(o: u8, a: Object, b: Object) -> Option<Sequence>
    ensures { requests_of result ≡ companies_apart o a b }
{
    let request = Request::SetCompanies(a.owner, o, a.companies);
    (a.companies != b.companies).then_some(Sequence::One(request))
}

// ---- rights and held accesses

// A held access is asked of by a release, a right by a get.
fn ask_of(held: bool, s: u8, o: u8, x: Mode) -> Request
    ensures { result ≡ ask_of held s o x }
{
    if held {
        Request::Release(s, o, x)
    } else {
        Request::Get(s, o, x)
    }
}

// The mode is in one of the sets of subject s only.
#[tactic(auto, using(crate::proofs::Searching::when_told), unfolding(crate::specs::Records::mode_apart))]
fn mode_apart(held: bool, o: u8, s: u8, a: u8, b: u8, x: Mode) -> Option<Sequence>
    ensures { requests_of result ≡ mode_apart held o s a b x }
{
    (has(x, a) != has(x, b)).then_some(Sequence::One(ask_of(held, s, o, x)))
}

// The first mode in which the two sets of subject s differ.
#[tactic(auto, using(crate::proofs::Searching::joined), unfolding(crate::specs::Records::set_apart))]
fn set_apart(held: bool, o: u8, s: u8, a: u8, b: u8) -> Option<Sequence>
    ensures { requests_of result ≡ set_apart held o s a b }
{
    let apart = |x| mode_apart(held, o, s, a, b, x);
    apart(Mode::Read)
        .or_else(|| apart(Mode::Write))
        .or_else(|| apart(Mode::Append))
        .or_else(|| apart(Mode::Execute))
}

// The first subject whose sets differ in the two rows.
fn row_apart(held: bool, o: u8, a: [u8; 16], b: [u8; 16]) -> Option<Sequence>
    ensures { requests_of result ≡ row_apart held o a b }
{
    (0..Monitor::SUBJECTS).find_map(|s| set_apart(held, o, s as u8, a[s], b[s]))
}

// ---- all objects

// The first object of which life or owner differ, in two units.
pub fn standings_apart(a: &Rows, b: &Rows) -> Option<Sequence>
    ensures { requests_of result ≡ standings_apart (objects_in a.now) (objects_in b.now) }
{
    (0..Monitor::OBJECTS as u8).find_map(|o| standing_apart(o, object_in(a, o), object_in(b, o)))
}

// The rest of a record.
#[tactic(auto, using(crate::proofs::Searching::joined), unfolding(crate::specs::Records::object_apart))]
fn object_apart(o: u8, a: Object, b: Object) -> Option<Sequence>
    ensures { requests_of result ≡ object_apart o a b }
{
    label_apart(a.owner, o, a.label, b.label)
        .or_else(|| companies_apart(o, a, b))
        .or_else(|| row_apart(false, o, a.rights, b.rights))
        .or_else(|| row_apart(true, o, a.held, b.held))
}

// The first object of which the rest of the records differs, in two units.
pub fn objects_apart(a: &Rows, b: &Rows) -> Option<Sequence>
    ensures { requests_of result ≡ objects_apart (objects_in a.now) (objects_in b.now) }
{
    (0..Monitor::OBJECTS as u8).find_map(|o| object_apart(o, object_in(a, o), object_in(b, o)))
}
