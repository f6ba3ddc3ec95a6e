//! The texts of an answer's rows, with names of variables.
#![tactic(auto)]

mod names;
mod numbers;
mod rows;
mod sums;

pub use names::name_of;
pub use rows::push_rows;
