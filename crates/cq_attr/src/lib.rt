//! What is known of variables beside their bindings: which are numeric, and what waits for which.
#![tactic(auto)]

mod attrs;
mod notes;
mod susp;

pub use attrs::Attrs;
pub use susp::{Susp, SuspNo};
