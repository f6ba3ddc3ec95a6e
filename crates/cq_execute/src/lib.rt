//! How an engine executes a goal: what it calls is found by its name and number of arguments, and its row is done.
#![tactic(auto)]

pub mod changes;
mod common;
mod executed;
mod execution;
pub mod optima;
mod printing;
mod rows;
mod small;
mod steps;

pub use executed::Executed;
pub use execution::{execute, execute_call};
pub use small::{Went, execute_small};
