// The lines of an access page: one for each subject, and the last one.

#![tactic(auto)]

mod last;
mod lines;

pub use last::{LAST_BYTES, last_line};
pub use lines::{LINE_BYTES, put_lines};
