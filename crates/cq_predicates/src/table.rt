//! The built-in predicates by name and number of arguments, as an engine looks for what a goal calls.
#![tactic(auto)]

mod builtins;
mod listed;
mod numbered;

pub use builtins::{Builtin, Common};
pub use numbered::Builtins;
