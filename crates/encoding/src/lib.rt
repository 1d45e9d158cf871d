// The six bytes of a request.

#![tactic(auto)]

ghost use Rattle.std.specs.Prelude.{◌≡◌, ◌+◌, ◌≤◌, length};
ghost use Rattle.model.specs.Requests.{request_size, mode_number, fields_of, pack, encode};
ghost use Rattle.model.specs.Buffers.{put};
ghost use Rattle.encoding.specs.Word.{without_level, word_of, word_bytes};

use buffers::put_bytes;
use model::{Creation, Fields, Mode, Request};

// The number of a mode in a request.
// Kept: model declares Mode, and only there a From for it can stand.
fn mode_number(x: Mode) -> u8
    ensures { result ≡ mode_number x }
{
    match x {
        Mode::Read => 1,
        Mode::Write => 2,
        Mode::Append => 3,
        Mode::Execute => 4,
    }
}

// The fields of a request without a level.
pub fn without_level(kind: u8, actor: u8, other: u8, object: u8, mode: u8) -> Fields
    ensures { result ≡ without_level kind actor other object mode }
{
    Fields {
        kind,
        actor,
        other,
        object,
        mode,
        class: 0,
        needs: 0,
        spare: 0,
    }
}

// A field that the kind does not use is 0; the parent of a create stands in its needs.
fn fields_of(q: Request) -> Fields
    ensures { result ≡ fields_of q }
{
    match q {
        Request::Get(s, o, x) => without_level(1, s, 0, o, mode_number(x)),
        Request::Release(s, o, x) => without_level(2, s, 0, o, mode_number(x)),
        Request::Give(s, t, o, x) => without_level(3, s, t, o, mode_number(x)),
        Request::Rescind(s, t, o, x) => without_level(4, s, t, o, mode_number(x)),
        Request::Create(s, o, how) => Fields {
            needs: how.parent,
            ..without_level(5, s, 0, o, if how.execute { 4 } else { 0 })
        },
        Request::Delete(s, o) => without_level(6, s, 0, o, 0),
        Request::ChangeLevel(s, o, l) => Fields {
            class: l.class,
            needs: l.needs,
            ..without_level(7, s, 0, o, 0)
        },
        Request::SetCompanies(s, o, n) => Fields {
            needs: n,
            ..without_level(8, s, 0, o, 0)
        },
    }
}

// The 48 bits as one number: kind 4 bits, actor 5, other subject 5, object 7, mode 3, class 4, needs 16, spare 4.
#[tactic(auto, unfolding(crate::specs::Word::word_of))]
fn word_of(f: Fields) -> u64
    ensures { result ≡ word_of f }
{
    let kind = u64::from(f.kind) % 16;
    let actor = kind * 32 + u64::from(f.actor) % 32;
    let other = actor * 32 + u64::from(f.other) % 32;
    let object = other * 128 + u64::from(f.object) % 128;
    let mode = object * 8 + u64::from(f.mode) % 8;
    let class = mode * 16 + u64::from(f.class) % 16;
    let needs = class * 65536 + u64::from(f.needs) % 65536;
    needs * 16 + u64::from(f.spare) % 16
}

// The low 48 bits of the number, in six bytes.
#[tactic(auto, unfolding(crate::specs::Word::word_bytes))]
fn bytes_of(word: u64) -> [u8; 6]
    ensures { result ≡ word_bytes 6 word }
{
    let [_, _, a, b, c, d, e, f] = word.to_be_bytes();
    [a, b, c, d, e, f]
}

// The bytes of the fields, also of such as no request has; each field keeps as many of its low bits as it has room for.
pub fn pack(f: Fields) -> [u8; 6]
    ensures { result ≡ pack f }
{
    bytes_of(word_of(f))
}

// The bytes that say the request.
pub fn encode(q: Request) -> [u8; 6]
    ensures { result ≡ encode q }
{
    pack(fields_of(q))
}

// These bytes into a lent buffer, from at on.
pub fn put_request(out: &mut [u8], at: usize, q: Request)
    requires { at + request_size ≤ length out.old }
    ensures { out.new ≡ put out.old at (encode q) }
{
    put_bytes(out, at, &encode(q));
}
