// The edges of company numbers (change request §10): who sets them, the fields of kind 8, and the wall between two objects of one subject. The
// comment behind each request has the reply that the request's text gives it, and why.
use encoding::without_level;
use model::Fields;
use saying::{Output, ask, create, get};
use unit::Rows;

// Company numbers set by an actor.
fn numbers(actor: u8, object: u8, needs: u16) -> Fields {
    Fields {
        needs,
        ..without_level(8, actor, 0, object, 0)
    }
}

// Object 0 belongs to subject 0, and subjects 0, 1, 2 and 15 are enrolled.
pub fn setting(out: &mut Output, one: Rows) {
    ask(out, one, numbers(0, 0, 65535)); // 0: any four numbers
    ask(out, one, numbers(15, 0, 65535)); // 6: enrolled, but not the owner
    ask(out, one, numbers(0, 1, 65535)); // 4: not live
    ask(out, one, numbers(14, 1, 65535)); // 3: not enrolled
    let f = numbers(0, 0, 1);
    ask(out, one, Fields { class: 1, ..f }); // 2: the class
    ask(out, one, Fields { other: 1, ..f }); // 2: the other subject
    ask(out, one, Fields { mode: 4, ..f }); // 2: a mode
    ask(out, one, Fields { spare: 1, ..f }); // 2: spare
}

// Subject 0 owns both objects, neither of which has a label, and has e on both; object 0 is of company 1 of the first class, 4096.
pub fn wall(out: &mut Output, one: Rows) {
    let first = ask(out, one, numbers(0, 0, 4096)); // 0
    ask(out, first, numbers(0, 0, 4096)); // 1: the same numbers
    let two = ask(out, first, create(0, 1, 4)); // 0
    let held = ask(out, two, get(0, 0, 4)); // 0: it holds nothing else
    let competing = ask(out, held, numbers(0, 1, 8192)); // 0: company 2 of that class, and it holds nothing on object 1
    ask(out, competing, get(0, 1, 4)); // 18: e on company 1 and on company 2 of one class
    let other_class = ask(out, held, numbers(0, 1, 512)); // 0: company 2 of the second class
    let both = ask(out, other_class, get(0, 1, 4)); // 0: in each class one of the two is 0
    ask(out, both, numbers(0, 1, 8192)); // 18: it holds e on both
    ask(out, both, numbers(0, 1, 4096)); // 0: the same company
}
