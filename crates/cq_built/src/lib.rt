//! Terms built by the texts of their names, the errors of built-in predicates and their terms, and what a predicate
//! offers.
#![tactic(auto)]

mod alternatives;
mod balls;
pub mod bodies;
mod building;
mod errors;
pub mod kinds;
pub mod sides;

pub use alternatives::Alternative;
pub use balls::ball;
pub use building::{atom, compound, list, whole};
pub use errors::{
    BuiltinError, BuiltinFault, Culprit, Permission, Representation, ValidDomain, ValidType,
};
