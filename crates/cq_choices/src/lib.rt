//! How a search calls a predicate on terms or texts, and tries its alternatives one at a time.
#![tactic(auto)]

mod calls;
mod laws;
mod marks;
mod taking;
mod trying;

pub use calls::call_predicate;
pub use laws::{calls_lead, names_are_of_terms, names_may_be_added};
pub use trying::try_ways;
