//! Rows that are to be zero: the column by which an equation is solved, and the search for one.
#![tactic(auto)]

pub mod choosing;
pub mod levelling;
mod nearing;
