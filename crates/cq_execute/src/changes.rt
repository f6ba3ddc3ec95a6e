//! The rows of goals that change or read the clauses of a program: clauses that are added, removed or asked for, and procedures that
//! are made dynamic. Choices that stand go on to try what they had left.
#![tactic(auto)]

mod asking;
mod asserting;
mod declaring;

pub use asking::{clause, retract};
pub use asserting::assert;
pub use declaring::declare_dynamic;
