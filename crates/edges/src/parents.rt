// The edges of objects under objects (change request §11): the parent of a create, the labels of parent and child, and what a delete takes. The
// comment behind each request has the reply that the request's text gives it, and why.
use encoding::without_level;
use model::Fields;
use saying::{Output, ask, create};
use unit::Rows;

// A create by subject 0, with the needs field.
fn create_under(object: u8, needs: u16) -> Fields {
    Fields {
        needs,
        ..create(0, object, 0)
    }
}

// A change of level by subject 0.
fn label(object: u8, class: u8) -> Fields {
    Fields {
        class,
        ..without_level(7, 0, 0, object, 0)
    }
}

// Object 0 belongs to subject 0, and no other object is live.
pub fn creating(out: &mut Output, one: Rows) {
    ask(out, one, create_under(1, 1)); // 0: under object 0
    ask(out, one, create_under(1, 64)); // 19: object 63 is not live
    ask(out, one, create_under(1, 65)); // 2: there is no object 64
    ask(out, one, create_under(1, 65535)); // 2: the same
    ask(out, one, create_under(1, 2)); // 19: under itself
    ask(out, one, create_under(0, 1)); // 5: it is live, and that comes before its parent
    ask(out, one, create_under(0, 64)); // 5: the same
    let f = create_under(1, 1);
    ask(out, one, Fields { class: 1, ..f }); // 2: the class
}

// Object 1 is under object 0, and object 2 under object 1.
pub fn labelling(out: &mut Output, one: Rows) {
    let flat = ask(out, one, create_under(1, 1)); // 0
    let meter = ask(out, flat, create_under(2, 2)); // 0
    ask(out, meter, label(1, 0)); // 20: object 0 has no label
    let riser = ask(out, meter, label(0, 1)); // 0: nothing is above it, and what is under it has no label
    ask(out, riser, label(2, 1)); // 20: object 1 has no label
    ask(out, riser, label(1, 0)); // 20: it does not dominate that of object 0
    let both = ask(out, riser, label(1, 1)); // 0: the same dominates
    ask(out, both, label(0, 2)); // 20: object 1 would not dominate it
    ask(out, both, label(1, 2)); // 0: higher
    ask(out, both, label(0, 1)); // 1: the same label
    let gone = ask(out, both, without_level(6, 0, 0, 1, 0)); // 0: object 1 goes, and object 2 with it
    ask(out, gone, create_under(2, 0)); // 0: it is not live any more
    ask(out, gone, create_under(0, 0)); // 5: object 0 is
}
