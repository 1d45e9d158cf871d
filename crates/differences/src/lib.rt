// What tells two states apart, part by part: who is enrolled, what is live and who owns it, parents, the rest of the objects, the
// clearances. The first difference gives the requests.
// Kept: two units are two parameters, since a function reads each by its own name and hands both on unchanged.

#![tactic(auto)]

mod objects;
mod parents;
mod sequence;
mod subjects;

pub use objects::{objects_apart, standings_apart};
pub use parents::parents_apart;
pub use sequence::{Place, Sequence, Slot};
pub use subjects::{clearances_apart, enrolments_apart, free_place};
