// Labels and answers. Each function computes the definition that its contract names, for every argument.

#![tactic(auto)]

ghost use Rattle.std.specs.Prelude.{◌≡◌, ◌&&◌, cond};
ghost use Rattle.model.specs.Tests.{implies};
ghost use Rattle.model.specs.Levels.{subset, at_least, answered, compare, equal_or_above, dominates, present, same_label};
ghost use Rattle.model.specs.Decisions.{checked_number};
ghost use Rattle.model.specs.declared.Decision.TheVariants.{Already, Granted};
ghost use Rattle.model.specs.Rules.{not_lowered};

use model::{Comparison, Decision, Label, Level};

// ---- tests

pub fn implies(a: bool, b: bool) -> bool
    ensures { result ≡ implies a b }
{
    !a | b
}

// A check that fails refuses with its answer.
pub fn ensure(passes: bool, d: Decision) -> Result<(), Decision>
    ensures { result ≡ cond passes (Ok tt) (Err d) }
{
    if passes { Ok(()) } else { Err(d) }
}

// ---- labels

// Every need of b is in a.
fn includes(a: u16, b: u16) -> bool
    ensures { result ≡ subset 16 b a }
{
    b & a == b
}

// One direction of a comparison.
pub fn at_least(a: Level, b: Level) -> bool
    ensures { result ≡ at_least a b }
{
    (b.class <= a.class) & includes(a.needs, b.needs)
}

// first: a dominates b; second: b dominates a.
fn answered(first: bool, second: bool) -> Comparison
    ensures { result ≡ answered first second }
{
    if first {
        if second {
            Comparison::Equal
        } else {
            Comparison::Above
        }
    } else if second {
        Comparison::Below
    } else {
        Comparison::Apart
    }
}

// How the level a compares with b.
pub fn compare(a: Level, b: Level) -> Comparison
    ensures { result ≡ compare a b }
{
    answered(at_least(a, b), at_least(b, a))
}

fn equal_or_above(c: Comparison) -> bool
    ensures { result ≡ equal_or_above c }
{
    matches!(c, Comparison::Equal | Comparison::Above)
}

pub fn dominates(a: Label, b: Label) -> bool
    ensures { result ≡ dominates a b }
{
    match (a, b) {
        (Some(x), Some(y)) => equal_or_above(compare(x, y)),
        _ => false,
    }
}

// An absent label is not class 0 without needs.
pub fn is_present(l: Label) -> bool
    ensures { result ≡ present l }
{
    l.is_some()
}

// The label is there and is the level v.
pub fn is_level(l: Label, v: Level) -> bool
    ensures { result ≡ same_label l (Some v) }
{
    l == Some(v)
}

// Whether the level may follow the label of an object: it dominates the label, or there is none yet.
pub fn not_lowered(old: Label, new: Level) -> bool
    ensures { result ≡ not_lowered old (Some new) }
{
    implies(is_present(old), dominates(Some(new), old))
}

// ---- answers

// The answer where nothing was refused: whether the state was so already.
pub fn done(was_so: bool) -> Decision
    ensures { result ≡ cond was_so Already Granted }
{
    if was_so {
        Decision::Already
    } else {
        Decision::Granted
    }
}

// The number of an answer: 0 where nothing was refused.
pub fn number(answer: Result<(), Decision>) -> u8
    ensures { result ≡ checked_number answer }
{
    match answer {
        Ok(()) => 0,
        Err(d) => u8::from(d),
    }
}
