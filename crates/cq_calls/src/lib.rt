//! How a call of a user predicate begins, and how its clauses are tried one after another.
#![tactic(auto)]

mod calling;
mod laws;
mod matching;
mod trying;

pub use calling::{Called, call_procedure};
pub use laws::called_goals_come_on;
pub use trying::{leave_untried, try_clauses};
