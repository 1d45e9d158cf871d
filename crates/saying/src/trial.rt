// Requests of six bytes, each tried on a copy of a unit, with its line.
ghost use Rattle.std.specs.Prelude.{◌≡◌};
ghost use Rattle.model.specs.Requests.{pack};
ghost use Rattle.encoding.specs.Word.{without_level};
ghost use Rattle.asking.specs.Asked.{asked};

use crate::{Output, describe, end};
use encoding::{pack, without_level};
use model::Fields;
use unit::Rows;

// Asks, prints the line, and hands back the unit after the request.
pub fn ask(out: &mut Output, unit: Rows, f: Fields) -> Rows
    ensures { result ≡ asked (pack f) unit }
{
    describe(out, f);
    let bytes = pack(f);
    let mut next = unit;
    let reply = asking::ask(&mut next, &bytes);
    end(out, u8::from(reply));
    next
}

// The fields of a get; the next three are those of the kinds of their names.
pub fn get(actor: u8, object: u8, mode: u8) -> Fields
    ensures { result ≡ without_level 1 actor 0 object mode }
{
    without_level(1, actor, 0, object, mode)
}

pub fn release(actor: u8, object: u8, mode: u8) -> Fields
    ensures { result ≡ without_level 2 actor 0 object mode }
{
    without_level(2, actor, 0, object, mode)
}

pub fn give(actor: u8, other: u8, object: u8, mode: u8) -> Fields
    ensures { result ≡ without_level 3 actor other object mode }
{
    without_level(3, actor, other, object, mode)
}

pub fn create(actor: u8, object: u8, mode: u8) -> Fields
    ensures { result ≡ without_level 5 actor 0 object mode }
{
    without_level(5, actor, 0, object, mode)
}
