//! Clauses that are compared with one that is asked for, by `clause` and `retract`.
#![tactic(auto)]

mod asking;
mod laws;
mod matching;

pub use asking::ask;
pub use laws::choices_outlast_changes;
pub use matching::try_matches;
