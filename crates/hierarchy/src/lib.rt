// Objects under objects (change request §11), on the rows of a unit: the chain of parents, the checks 19 and 20, and deletion.

#![tactic(auto)]

mod chains;
mod labelling;
mod removal;

pub use chains::{chain_ends, is_below, parent_live, parents_hold};
pub use labelling::labels_rise;
pub use removal::{has_child, remove};
