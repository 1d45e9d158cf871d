// One request on a unit: six bytes are decoded, and the kind that they say is carried out.

#![tactic(auto)]

ghost use Rattle.std.specs.Prelude.{◌≡◌, length};
ghost use Rattle.model.specs.Decisions.{number};
ghost use Rattle.model.specs.Requests.{InRange};
ghost use Rattle.model.specs.Runs.{reply};
ghost use Rattle.unit.specs.Rows.{state_in};
ghost use Rattle.kinds.specs.Carried.{Does};
ghost use Rattle.asking.specs.Asked.{asked};

use accesses::{get, release};
use company_changes::change_companies;
use decoding::decode;
use level_changes::change_level;
use model::{Decision, Request};
use objects::{create, delete};
use rights::{give, rescind};
use unit::{Rows, profile_of};

fn carry_out(unit: &mut Rows, q: Request) -> Decision
    requires in_range { InRange q }
    ensures { Does q unit.old unit.new (number result) }
{
    match q {
        Request::Get(s, o, x) => get(unit, s, o, x),
        Request::Release(s, o, x) => release(unit, s, o, x),
        Request::Give(s, t, o, x) => give(unit, s, t, o, x),
        Request::Rescind(s, t, o, x) => rescind(unit, s, t, o, x),
        Request::Create(s, o, how) => create(unit, s, o, how),
        Request::Delete(s, o) => delete(unit, s, o),
        Request::ChangeLevel(s, o, level) => change_level(unit, s, o, level),
        Request::SetCompanies(s, o, companies) => change_companies(unit, s, o, companies),
    }
}

// The answer to a byte string of any length and content; the unit is the state after it. The number of the answer is the reply.
pub fn ask(unit: &mut Rows, bytes: &[u8]) -> Decision
    ensures { (number result ≡ reply bytes.now (state_in unit.old)) × (unit.new ≡ asked bytes.now unit.old) }
{
    let profile = profile_of(unit);
    match decode(profile, bytes) {
        None => Decision::MalformedRequest,
        Some(q) => carry_out(unit, q),
    }
}
