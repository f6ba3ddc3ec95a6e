//! The built-in predicates on terms and texts as one call: found by name and number of arguments, and called with terms of a
//! heap, which gives their alternatives one at a time.
#![tactic(auto)]

mod calls;
pub mod codes;
mod laws;
mod predicates;
mod solutions;
pub mod table;
mod terms;
pub mod text;
mod texts;

pub use calls::call;
pub use laws::alternatives_stay_the_same;
pub use predicates::Predicate;
pub use solutions::Solutions;
