//! How an engine calls a predicate on terms or texts.
#![tactic(auto)]

mod laws;
mod offering;

pub use laws::rows_are_replies;
pub use offering::offer;
