// The edges of a request: subjects, objects, modes, lengths, kinds, fields that are not used, labels beside that of an
// object, and company numbers. The comment behind each request has the reply that the scope gives it, and why.
ghost use Rattle.std.specs.Prelude.{◌≤◌, ◌≡◌, length};
ghost use Rattle.edges.specs.Trials.{left, change_to};

use encoding::without_level;
use model::Fields;
use saying::{Output, ask, create, end, get, give, release, say_bytes};
use unit::Rows;

// Subjects 15 and 16 as the actor and as the other subject, on a unit without a live object. Subjects 0, 1, 2 and 15 are enrolled.
// Handed back: the unit in which subject 0 owns object 0, unlabelled, and has r, w, a and e on it.
pub fn subjects(out: &mut Output, fresh: Rows) -> Rows
    ensures { result ≡ left 5 0 0 0 4 fresh }
{
    ask(out, fresh, create(15, 0, 0)); // 0: enrolled, and the object is not live
    ask(out, fresh, create(16, 0, 0)); // 2: an actor above 15
    ask(out, fresh, create(14, 0, 0)); // 3: well formed, but not enrolled
    let one = ask(out, fresh, create(0, 0, 4)); // 0: a create may have mode 4
    ask(out, one, give(0, 15, 0, 1)); // 0: subject 0 is the owner and has r, subject 15 has it not yet
    ask(out, one, give(0, 16, 0, 1)); // 2: another subject above 15
    ask(out, one, give(0, 14, 0, 1)); // 3: well formed, but the other subject is not enrolled
    one
}

// Objects 63 and 64, on a unit without a live object.
pub fn objects(out: &mut Output, fresh: Rows) {
    ask(out, fresh, create(15, 63, 0)); // 0: the last object, not live
    ask(out, fresh, create(15, 64, 0)); // 2: an object above 63
}

// Modes 4, 5 and 0, where subject 0 has e on object 0, which has no label. Checks 7, 8 and 9 are not made for e.
pub fn modes(out: &mut Output, one: Rows) {
    let running = ask(out, one, get(0, 0, 4)); // 0: the right is there, the access was not held
    let done = ask(out, running, release(0, 0, 4)); // 0: it was held
    ask(out, done, release(0, 0, 4)); // 1: it was not held any more
    ask(out, running, release(0, 0, 5)); // 2: no such mode
    ask(out, one, get(0, 0, 5)); // 2: no such mode
    ask(out, one, get(0, 0, 0)); // 2: a get has mode 1 to 4
    ask(out, one, create(0, 1, 5)); // 2: a create has mode 0 or 4
}

// The first bytes of 50 00 00 00 00 00 00. Six of them are kind 5 with all other fields 0.
fn cut(out: &mut Output, fresh: Rows, length: usize)
    requires { length ≤ 7 }
{
    let bytes = [0x50u8, 0, 0, 0, 0, 0, 0];
    say_bytes(out, "create, by subject 0, object 0, in ", length);
    let mut unit = fresh;
    let reply = asking::ask(&mut unit, &bytes[0..length]);
    end(out, u8::from(reply));
}

// Requests of 0, 5, 6 and 7 bytes, on a unit without a live object.
pub fn lengths(out: &mut Output, fresh: Rows) {
    cut(out, fresh, 0); // 2: not six bytes
    cut(out, fresh, 5); // 2: not six bytes
    cut(out, fresh, 6); // 0: subject 0 is enrolled, and the object is not live
    cut(out, fresh, 7); // 2: not six bytes
}

// Kinds 0 and 8 beside the first and the last kind, where subject 0 owns object 0, which has no label. The numbers of a request are
// kind, actor, other subject, object, mode.
// Handed back: the unit in which object 0 has class 0 and no needs.
pub fn kinds(out: &mut Output, one: Rows) -> Rows
    ensures { result ≡ left 7 0 0 0 0 one }
{
    ask(out, one, without_level(0, 0, 0, 0, 1)); // 2: no such kind; the mode is one of a get
    ask(out, one, without_level(1, 0, 0, 0, 1)); // 7: the right r is there, and no label
    let labelled = ask(out, one, without_level(7, 0, 0, 0, 0)); // 0: no label differs from class 0 without needs; nothing is held
    ask(out, one, without_level(8, 0, 0, 0, 0)); // 1: the company numbers of object 0 are 0 already
    ask(out, one, without_level(9, 0, 0, 0, 0)); // 2: no such kind; the mode is that of a change of level
    labelled
}

// Each field that a get does not use with its lowest bit set, and then the same get without them. Subject 0, cleared for class 1 and
// need 0, has r on object 0, which has class 0 and no needs.
pub fn unused(out: &mut Output, labelled: Rows) {
    ask(out, labelled, without_level(1, 0, 1, 0, 1)); // 2: the other subject
    let f = get(0, 0, 1);
    ask(out, labelled, Fields { class: 1, ..f }); // 2: the class
    ask(out, labelled, Fields { needs: 1, ..f }); // 2: the needs
    ask(out, labelled, Fields { spare: 1, ..f }); // 2: spare
    ask(out, labelled, f); // 0: right and label are there, the clearance dominates, nothing else is held
}

// The fields of a change of level by subject 0, on object 0.
fn level(class: u8, needs: u16) -> Fields
    ensures { result ≡ change_to class needs }
{
    Fields {
        class,
        needs,
        ..without_level(7, 0, 0, 0, 0)
    }
}

// Labels beside class 1 with need 0, which object 0 gets first; nobody holds an access on it.
pub fn levels(out: &mut Output, labelled: Rows) {
    let raised = ask(out, labelled, level(1, 1)); // 0: it dominates class 0 without needs
    ask(out, raised, level(1, 1)); // 1: the same label
    ask(out, raised, level(0, 1)); // 14: one class less
    ask(out, raised, level(1, 0)); // 14: one need less
    ask(out, raised, level(2, 2)); // 14: apart, a class more and another need
    ask(out, raised, level(2, 1)); // 0: one class more
    ask(out, raised, level(1, 3)); // 0: one need more
}
