//! How a branch of the search begins: pairs of terms are made equal and constraints told, the world is settled, and goals
//! that woke go in front.
#![tactic(auto)]

mod beginning;
mod clauses;
mod entering;
mod equal;
mod laws;
mod rows;
mod waking;

pub use beginning::{Begun, begin};
pub use clauses::begin_clause;
pub use laws::{rows_stop, settlings_stop};
pub use rows::{tell, unify, unify_constant};
