//! Resolution of a goal with a stored clause.
#![tactic(auto)]

mod joining;
mod matching;
pub mod program;
mod resolution;
pub mod stored;

pub use resolution::{resolve, resolve_unmarked};
