// Requests under a profile of 4 subjects, 10 objects, class 3 and the needs 0 and 1: the last that is inside and the first that is not.
// Subjects 0 and 3 are enrolled. The comment behind each request has the reply that the text gives it, and why.
use encoding::without_level;
use model::Fields;
use saying::{Output, ask, create, give};
use unit::Rows;

// The actor and the object, on a unit without a live object.
pub fn creates(out: &mut Output, fresh: Rows) {
    ask(out, fresh, create(3, 0, 0)); // 0: the last of 4 subjects, and enrolled
    ask(out, fresh, create(4, 0, 0)); // 2: a subject outside the profile; that it is not enrolled would be 3, later
    ask(out, fresh, create(2, 0, 0)); // 3: inside the profile, but not enrolled
    ask(out, fresh, create(0, 9, 0)); // 0: the last of 10 objects
    ask(out, fresh, create(0, 10, 0)); // 2: an object outside the profile
    ask(out, fresh, create(2, 10, 0)); // 2: the same, before 3
}

// The other subject of a give by subject 0, who owns object 0 and has r on it.
pub fn others(out: &mut Output, one: Rows) {
    ask(out, one, give(0, 3, 0, 1)); // 0: the last of 4 subjects, and enrolled
    ask(out, one, give(0, 4, 0, 1)); // 2: a subject outside the profile
    ask(out, one, give(0, 2, 0, 1)); // 3: inside the profile, but not enrolled
}

// A change of level by an actor, on object 0.
fn change(out: &mut Output, one: Rows, actor: u8, class: u8, needs: u16) {
    let f = without_level(7, actor, 0, 0, 0);
    ask(out, one, Fields { class, needs, ..f });
}

// Labels of object 0, which subject 0 owns; it has none yet, and nobody holds an access on it. A change that is well formed is granted.
pub fn levels(out: &mut Output, one: Rows) {
    change(out, one, 0, 3, 0); // 0: the highest class
    change(out, one, 0, 4, 0); // 2: a class outside the profile
    change(out, one, 0, 0, 2); // 0: need 1, which is in use
    change(out, one, 0, 0, 4); // 2: need 2, which is not
    change(out, one, 0, 3, 3); // 0: the highest class and every need in use
    change(out, one, 2, 4, 0); // 2: a class outside the profile, before 3
    change(out, one, 2, 3, 3); // 3: inside the profile, but not enrolled
}

// Company numbers of object 0, which no profile bounds.
pub fn companies(out: &mut Output, one: Rows) {
    let f = Fields {
        needs: 65535,
        ..without_level(8, 0, 0, 0, 0)
    };
    ask(out, one, f); // 0: the owner sets the highest numbers
    ask(out, one, Fields { actor: 4, ..f }); // 2: a subject outside the profile
    ask(out, one, Fields { object: 10, ..f }); // 2: an object outside the profile
}

// The parent of object 1, number plus one, which the needs in use, 0 and 1, do not bound; object 0 is live.
pub fn parents(out: &mut Output, one: Rows) {
    let f = create(0, 1, 0);
    ask(out, one, Fields { needs: 1, ..f }); // 0: object 0
    ask(out, one, Fields { needs: 10, ..f }); // 19: object 9, the last in use, is not live
    ask(out, one, Fields { needs: 11, ..f }); // 2: object 10 is beyond the profile
}

// After a refusal nobody is enrolled, and the profile is the widest.
pub fn refused(out: &mut Output, empty: Rows) {
    ask(out, empty, create(4, 0, 0)); // 3: inside the widest profile, but not enrolled
    ask(out, empty, create(15, 63, 0)); // 3: the same, the last subject and the last object
    ask(out, empty, create(16, 63, 0)); // 2: an actor above 15
}
