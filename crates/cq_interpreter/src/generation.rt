//! The query of `gen` for a number, built on a heap of unbound variables.
#![tactic(auto)]

mod bounds;
mod building;
mod terms;

pub use building::query;
