//! The check of a log of lists of linear constraints that have no solution. It uses numbers and linear forms alone.
#![tactic(auto)]

mod check;
mod lines;
mod sums;
mod words;

pub use crate::check::check_log;
