// Company numbers, on a unit (change request §10): the checks in their order, then what is stored. A refusal leaves every byte. The numbers are stored before the wall is asked for, and the old row is put back where it refuses.

#![tactic(auto)]

ghost use Rattle.std.specs.Prelude.{◌≡◌, ◌<◌};
ghost use Rattle.model.specs.State.{subject_count, object_count};
ghost use Rattle.model.specs.Decisions.{number};
ghost use Rattle.kinds.specs.Carried.{Does};

use labels::done;
use model::{Decision, Monitor, Request};
use objects::by_owner;
use unit::{Rows, companies_of, rest_of, set_companies, set_rest};
use wall::breaks_wall;

// 8: the four company numbers of the object become those of the owner's request. The wall is asked of all subjects in the state after it.
pub fn change_companies(unit: &mut Rows, s: u8, o: u8, companies: u16) -> Decision
    requires { (s < subject_count) × (o < object_count) }
    ensures { Does (Request.SetCompanies s o companies) unit.old unit.new (number result) }
{
    if let Err(refusal) = by_owner(unit, s, o) {
        return refusal;
    }
    let old = companies_of(unit, o);
    let rest = rest_of(unit, o);
    set_companies(unit, o, companies);
    if breaks_wall(unit, 0, Monitor::SUBJECTS) {
        set_rest(unit, o, rest);
        return Decision::WallBroken;
    }
    done(old == companies)
}
