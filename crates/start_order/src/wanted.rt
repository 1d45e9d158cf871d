// What a piece of the requests asks for.
ghost use Rattle.std.specs.Prelude.{◌≡◌, [], ◌<◌, length, get_or, Some};
ghost use Rattle.model.specs.State.{object_count};
ghost use Rattle.model.specs.Requests.{decode_fields};
ghost use Rattle.model.specs.Program.{pieces, piece_count};
ghost use Rattle.unit.specs.Rows.{state_in};
ghost use Rattle.start_order.specs.Answers.{wanted_by, wanted, breaks};

use bits::read_word;
use decoding::{fields_of, mode_of, well_formed};
use mode_pairs::labels_keep;
use model::{Fields, Mode, Profile};
use turns::piece;
use unit::{Rows, companies_of, label_of};
use wall::companies_keep;

// The access that a get asks for.
#[derive(Clone, Copy)]
pub struct Access {
    pub subject: u8,
    pub object: u8,
    pub mode: Mode,
}

// None where the fields say no get.
fn access_of(p: Profile, f: Fields) -> Option<Access>
    ensures { result ≡ wanted_by (decode_fields p f) }
{
    if well_formed(p, f) & (f.kind == 1) {
        Some(Access {
            subject: f.actor,
            object: f.object,
            mode: mode_of(f.mode),
        })
    } else {
        None
    }
}

// What a piece asks for, of a monitor of a profile. The fields are looked at here and not by `decoding::decode`, which is made for its one caller, `ask`: called from
// here too, it is compiled apart from that, and every request takes longer.
pub fn access_in(p: Profile, b: &[u8]) -> Option<Access>
    ensures { result ≡ wanted p b.now }
{
    if b.len() != 6 {
        return None;
    }
    access_of(p, fields_of(read_word(b)))
}

// What the piece at place i asks for.
pub fn wanted_at(p: Profile, requests: &[u8], i: usize) -> Option<Access>
    requires { i < piece_count (length requests.now) }
    ensures { result ≡ wanted p (get_or (pieces requests.now) i []) }
{
    access_in(p, piece(requests, i))
}

// Whether two accesses would together break star or the wall: they are of one subject, and the labels do not keep what the table of mode
// pairs asks, or the company numbers what the wall does.
pub fn breaks(unit: &Rows, v: Access, w: Access) -> bool
    requires objects { (v.object < object_count) × (w.object < object_count) }
    ensures { result ≡ breaks (state_in unit.now) (Some v) (Some w) }
{
    let labels = labels_keep(
        v.mode,
        label_of(unit, v.object),
        w.mode,
        label_of(unit, w.object),
    );
    let numbers = companies_keep(
        v.mode,
        companies_of(unit, v.object),
        w.mode,
        companies_of(unit, w.object),
    );
    (v.subject == w.subject) & !(labels & numbers)
}
