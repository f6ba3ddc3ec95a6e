//! How a run of the command ends: its status, the transcript on `out` and the line on `err`, and what that says of the words and of
//! what lies outside.
#![tactic(auto)]

mod laws;
mod status;

pub use laws::{a_line_tells_the_least_value, completeness_follows, statuses_have_their_lines};
pub use status::Status;
