//! Calls that compare two whole terms of a heap: the standard order, and whether terms are variants.
#![tactic(auto)]

mod order;
mod pairs;
mod variants;

pub use order::compare;
pub use variants::variant;
