//! The steps of an engine: what a selected goal comes to, by the row of what it calls.
#![tactic(auto)]

mod building;
mod catching;
mod control;
mod derived;
mod machine;
mod names;
pub mod offer;
mod output;
pub mod selected;
mod step;

pub use building::{build, put};
pub use catching::{catch, findall, throw};
pub use control::{call, conjunction, cut, disjunction, if_then, negation};
pub use derived::{initialization, not_unify, once};
pub use machine::Machine;
pub use names::Names;
pub use output::{declare, newline, write};
pub use step::Step;
