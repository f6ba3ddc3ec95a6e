//! Calls over whole terms of a heap: unification, and lists of variables.
#![tactic(auto)]

mod occurs;
pub mod order;
mod pairs;
mod unification;
mod variables;

pub use unification::{unify, unify_unmarked};
pub use variables::vars_of;
