// What the six bytes of a request say.

#![tactic(auto)]

ghost use Rattle.std.specs.Prelude.{◌≡◌};
ghost use Rattle.model.specs.Requests.{mode_allowed, unused_zero, parent_within, fields_formed, level_of, within, well_formed, mode_of, request, decode_fields, decode};
ghost use Rattle.decoding.specs.Word.{fields_of_word};

use labels::{at_least, implies};
use model::{Creation, Fields, Level, Mode, Profile, Request};

// The fields of 48 bits that were read as one number: kind 4 bits, actor 5, other subject 5, object 7, mode 3, class 4, needs 16, spare 4.
#[tactic(auto, unfolding(crate::specs::Word::fields_of_word))]
pub fn fields_of(word: u64) -> Fields
    ensures { result ≡ fields_of_word word }
{
    Fields {
        kind: ((word >> 44) % 16) as u8,
        actor: ((word >> 39) % 32) as u8,
        other: ((word >> 34) % 32) as u8,
        object: ((word >> 27) % 128) as u8,
        mode: ((word >> 24) % 8) as u8,
        class: ((word >> 20) % 16) as u8,
        needs: ((word >> 4) % 65536) as u16,
        spare: (word % 16) as u8,
    }
}

// ---- which fields are well formed

// A mode stands in kinds 1 to 4; a create with mode 4 gives its owner execute too.
#[tactic(auto, unfolding(model::specs::Requests::mode_allowed))]
fn mode_allowed(kind: u8, mode: u8) -> bool
    ensures { result ≡ mode_allowed kind mode }
{
    match kind {
        0..=4 => matches!(mode, 1..=4),
        5 => matches!(mode, 0 | 4),
        _ => mode == 0,
    }
}

// The other subject stands in kinds 3 and 4, class in kind 7 only, needs in kinds 5, 7 and 8, spare in none.
#[tactic(auto, unfolding(model::specs::Requests::unused_zero))]
fn unused_zero(f: Fields) -> bool
    ensures { result ≡ unused_zero f }
{
    let other = matches!(f.kind, 3 | 4) | (f.other == 0);
    let class = (f.kind == 7) | (f.class == 0);
    let needs = matches!(f.kind, 5 | 7 | 8) | (f.needs == 0);
    other & class & needs & (f.spare == 0)
}

// The parent of a create, number plus one, is that of one of the first n objects, or none.
#[tactic(auto, unfolding(model::specs::Requests::parent_within))]
fn parent_within(n: u8, f: Fields) -> bool
    ensures { result ≡ parent_within n f }
{
    implies(f.kind == 5, f.needs <= u16::from(n))
}

// What must be so of the fields under every profile.
#[tactic(auto, unfolding(model::specs::Requests::fields_formed))]
fn fields_formed(f: Fields) -> bool
    ensures { result ≡ fields_formed f }
{
    let allowed = mode_allowed(f.kind, f.mode);
    let zero = unused_zero(f);
    let parent = parent_within(64, f);
    matches!(f.kind, 1..=8)
        & (f.actor < 16)
        & (f.other < 16)
        & (f.object < 64)
        & parent
        & allowed
        & zero
}

// The class and the needs of a request.
fn level_of(f: Fields) -> Level
    ensures { result ≡ level_of f }
{
    Level {
        class: f.class,
        needs: f.needs,
    }
}

// No subject, object, class or need is outside the profile. In kind 5 the needs are a parent, which is an object, and in kind 8 company
// numbers, which no profile bounds.
#[tactic(auto, unfolding(model::specs::Requests::within))]
fn within(p: Profile, f: Fields) -> bool
    ensures { result ≡ within p f }
{
    let inside = matches!(f.kind, 5 | 8) | at_least(p.highest, level_of(f));
    let parent = parent_within(p.objects, f);
    (f.actor < p.subjects) & (f.other < p.subjects) & (f.object < p.objects) & parent & inside
}

// The fields are those of a request, and inside the profile.
#[tactic(auto, unfolding(model::specs::Requests::well_formed))]
pub fn well_formed(p: Profile, f: Fields) -> bool
    ensures { result ≡ well_formed p f }
{
    fields_formed(f) & within(p, f)
}

// ---- the request

// The mode of every number, so that it cannot fail; well-formed fields have 1 to 4 where a mode stands.
pub fn mode_of(x: u8) -> Mode
    ensures { result ≡ mode_of x }
{
    match x {
        1 => Mode::Read,
        2 => Mode::Write,
        3 => Mode::Append,
        _ => Mode::Execute,
    }
}

// The request of well-formed fields.
#[tactic(auto, unfolding(model::specs::Requests::request))]
fn request_of(f: Fields) -> Request
    ensures { result ≡ request f }
{
    let x = mode_of(f.mode);
    let l = level_of(f);
    match f.kind {
        1 => Request::Get(f.actor, f.object, x),
        2 => Request::Release(f.actor, f.object, x),
        3 => Request::Give(f.actor, f.other, f.object, x),
        4 => Request::Rescind(f.actor, f.other, f.object, x),
        5 => Request::Create(
            f.actor,
            f.object,
            Creation {
                execute: f.mode == 4,
                parent: f.needs,
            },
        ),
        6 => Request::Delete(f.actor, f.object),
        7 => Request::ChangeLevel(f.actor, f.object, l),
        _ => Request::SetCompanies(f.actor, f.object, f.needs),
    }
}

// What fields say to a monitor of a profile; none where they are malformed.
#[tactic(auto, unfolding(model::specs::Requests::decode_fields))]
pub fn decode_fields(p: Profile, f: Fields) -> Option<Request>
    ensures { result ≡ decode_fields p f }
{
    if well_formed(p, f) {
        Some(request_of(f))
    } else {
        None
    }
}

// What a byte string says to a monitor of a profile; none where it is malformed.
#[tactic(auto, unfolding(model::specs::Requests::decode))]
pub fn decode(p: Profile, b: &[u8]) -> Option<Request>
    ensures { result ≡ decode p b.now }
{
    if b.len() != 6 {
        return None;
    }
    decode_fields(p, fields_of(bits::read_word(b)))
}
