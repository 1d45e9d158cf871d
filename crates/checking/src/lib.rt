// The checks of a whole state that an image must pass, each over all objects before the next: 12, 6, 7, 8, 9, 18, 19, 20.
// Checks 12, 6, 7 and 8 look at one object and one subject at a time, so one pass over them finds what all four need.

#![tactic(auto)]

ghost use Rattle.std.specs.Prelude.{◌≡◌, ◌<◌};
ghost use Rattle.model.specs.Levels.{present};
ghost use Rattle.model.specs.State.{object_count, clearance_at, object};
ghost use Rattle.unit.specs.Rows.{subjects_in, objects_in, state_in};
ghost use Rattle.model.specs.Decisions.{checked};
ghost use Rattle.model.specs.Reading.{state_checks};
ghost use Rattle.checking.specs.Checks.{both, at, of_object, of_objects};

use hierarchy::{labels_rise, parents_hold};
use labels::{dominates, ensure, implies, is_present};
use mode_sets::{any_needs_label, any_observes, within};
use model::{Decision, Label, Monitor};
use star::breaks_star;
use unit::{Rows, clearance_of, held_by, is_enrolled, is_live, label_of, owner_of, rights_of};
use wall::breaks_wall;

// Which of the checks passed: 12, 6, 7 and 8.
#[derive(Clone, Copy)]
struct Findings {
    enrolled: bool,
    matrix: bool,
    labelled: bool,
    simple: bool,
}

// Nothing has failed.
const UNBROKEN: Findings = Findings {
    enrolled: true,
    matrix: true,
    labelled: true,
    simple: true,
};

// The checks passed at both places.
fn both(a: Findings, b: Findings) -> Findings
    ensures { result ≡ both a b }
{
    Findings {
        enrolled: a.enrolled & b.enrolled,
        matrix: a.matrix & b.matrix,
        labelled: a.labelled & b.labelled,
        simple: a.simple & b.simple,
    }
}

// One subject at one object: its clearance, the object's label, its rights and its accesses there.
fn findings_at(clearance: Label, label: Label, rights: u8, held: u8) -> Findings
    ensures { result ≡ at clearance label rights held }
{
    let reads = any_observes(held);
    let reads_or_alters = any_needs_label(held);
    Findings {
        enrolled: is_present(clearance) | ((rights == 0) & (held == 0)),
        matrix: within(held, rights),
        labelled: implies(reads_or_alters, is_present(label)),
        simple: implies(reads, dominates(clearance, label)),
    }
}

// The subject with this number is enrolled; no subject has a number past 15.
fn is_known(unit: &Rows, s: u8) -> bool
    ensures { result ≡ present (clearance_at (subjects_in unit.now) s) }
{
    if (s as usize) < Monitor::SUBJECTS {
        return is_enrolled(unit, s);
    }
    false
}

// All subjects at one object.
fn findings_of(unit: &Rows, o: u8) -> Findings
    requires o_lt_object_count { o < object_count }
    ensures { result ≡ of_object (subjects_in unit.now) (object (state_in unit.now) o) }
{
    let label = label_of(unit, o);
    let owned = implies(is_live(unit, o), is_known(unit, owner_of(unit, o)));
    let mut found = Findings {
        enrolled: owned,
        ..UNBROKEN
    };
    for s in 0..Monitor::SUBJECTS as u8 {
        let here = findings_at(
            clearance_of(unit, s),
            label,
            rights_of(unit, o, s),
            held_by(unit, o, s),
        );
        found = both(found, here);
    }
    found
}

// All subjects at all objects.
fn findings_over(unit: &Rows) -> Findings
    ensures { result ≡ of_objects (subjects_in unit.now) (objects_in unit.now) }
{
    let mut found = UNBROKEN;
    for o in 0..Monitor::OBJECTS as u8 {
        found = both(found, findings_of(unit, o));
    }
    found
}

// The first check that fails refuses with its answer. For every content of a unit.
#[tactic(auto, using(wall::proofs::Ranges::ranges), unfolding(model::specs::Reading::state_checks, model::specs::Decisions::checked, model::specs::Tests::unless))]
pub fn state_checks(unit: &Rows) -> Result<(), Decision>
    ensures { result ≡ checked (state_checks (state_in unit.now)) }
{
    let found = findings_over(unit);
    ensure(found.enrolled, Decision::AbsentSubject)?;
    ensure(found.matrix, Decision::NoRight)?;
    ensure(found.labelled, Decision::NoLabel)?;
    ensure(found.simple, Decision::SimpleBroken)?;
    let star_kept = !breaks_star(unit, 0, Monitor::SUBJECTS);
    ensure(star_kept, Decision::StarBroken)?;
    let wall_kept = !breaks_wall(unit, 0, Monitor::SUBJECTS);
    ensure(wall_kept, Decision::WallBroken)?;
    ensure(parents_hold(unit), Decision::ParentNotLive)?;
    ensure(labels_rise(unit), Decision::HierarchyBroken)
}
