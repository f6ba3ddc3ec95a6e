//! Clauses read from texts: what stands at a place, with a clause's term on the heap, and the same of input that comes in
//! pieces.
#![tactic(auto)]

mod clause;
mod feed;
pub mod lex;
pub mod names;
pub mod parse;
mod reading;
mod resuming;
mod tokens;
mod variables;

pub use crate::names::VariableName;
pub use feed::{Fed, Feed};
pub use reading::{Read, read_clause};
