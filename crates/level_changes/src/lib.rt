// Change of level, on a unit: the checks in the scope's order, then what it stores. A refusal leaves every byte. It stores before it asks for simple, star and the rule of labels, and puts the old row back where one of them refuses.

#![tactic(auto)]

ghost use Rattle.std.specs.Prelude.{◌≡◌, ◌<◌};
ghost use Rattle.model.specs.State.{subject_count, object_count};
ghost use Rattle.model.specs.Decisions.{number, checked};
ghost use Rattle.unit.specs.Rows.{state_in};
ghost use Rattle.kinds.specs.Stages.{after_change};
ghost use Rattle.kinds.specs.Carried.{Does};

use hierarchy::labels_rise;
use labels::{done, ensure, is_level, not_lowered};
use model::{Decision, Level, Monitor, Request};
use objects::by_owner;
use star::{breaks_star, keeps_simple};
use unit::{Rows, label_of, rest_of, set_label, set_rest};

// 7: the label becomes class and needs. A label that is there is only raised; simple and star are asked of all subjects in the state after
// the change, and the rule of labels of all objects.
pub fn change_level(unit: &mut Rows, s: u8, o: u8, level: Level) -> Decision
    requires { (s < subject_count) × (o < object_count) }
    ensures { Does (Request.ChangeLevel s o level) unit.old unit.new (number result) }
{
    if let Err(refusal) = by_owner(unit, s, o) {
        return refusal;
    }
    let label = label_of(unit, o);
    if !not_lowered(label, level) {
        return Decision::LabelLowered;
    }
    let rest = rest_of(unit, o);
    set_label(unit, o, Some(level));
    if let Err(broken) = label_fits(unit, o) {
        set_rest(unit, o, rest);
        return broken;
    }
    done(is_level(label, level))
}

// Checks 8 and 9 over all subjects, after the label of object o was changed, then 20 over all objects. Each is asked only where those before
// it hold.
#[tactic(auto, using(wall::proofs::Ranges::ranges), unfolding(kinds::specs::Stages::after_change, model::specs::Decisions::checked, model::specs::Tests::unless))]
fn label_fits(unit: &Rows, o: u8) -> Result<(), Decision>
    requires { o < object_count }
    ensures { result ≡ checked (after_change o (state_in unit.now)) }
{
    ensure(keeps_simple(unit, o), Decision::SimpleBroken)?;
    ensure(
        !breaks_star(unit, 0, Monitor::SUBJECTS),
        Decision::StarBroken,
    )?;
    ensure(labels_rise(unit), Decision::HierarchyBroken)
}
