//! Clauses that are added to a program or read from it by goals and files: what is refused, how a clause is stored, and that choices
//! that stand go on to show the same clauses.
#![tactic(auto)]

mod adding;
mod declaring;
mod laws;
mod permissions;

pub use adding::add;
pub use declaring::{check_declared, declare_dynamic};
pub use laws::walks_outlast_changes;
pub use permissions::{check_change, check_readable, is_built_in};
