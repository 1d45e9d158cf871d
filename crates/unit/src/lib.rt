// The monitor of a unit: 209 rows of sixteen bytes in memory that the caller owns, without its journal. Every content of that memory is a state.

#![tactic(auto)]

mod parts;
mod rows;
mod whole;

pub use parts::{
    clearance_of, companies_of, held_by, held_row, is_enrolled, is_live, is_owner, label_of,
    owner_of, parent_of, profile_of, rest_of, rights_of, set_companies, set_held, set_label,
    set_rest, set_rights, set_rows,
};
pub use rows::{HELD, REST, ROWS, Rows, row_of};
pub use whole::{fill, object_in, object_of, set_object};
