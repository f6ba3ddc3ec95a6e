//! What a clause of a text is for, and clauses of files that are added to the program of a machine without a query.
#![tactic(auto)]

mod adding;
mod consulting;
mod purposes;

pub use adding::add_clause;
pub use consulting::consult;
pub use purposes::{Purpose, purpose_of};
