//! Terms and clauses that are kept apart from any heap, and put on a heap under new variables.
#![tactic(auto)]

mod building;
mod clause;
mod first;
mod marks;
mod part;
mod pattern;
mod term;

pub use building::{build, new_variables};
pub use clause::Clause;
pub use first::{first_argument, first_arguments_tell_apart};
pub use part::Part;
pub use term::StoredTerm;
