//! Walks over terms of a heap: the arguments that are left to visit, the compounds that were visited, and pairs of terms
//! side by side.
#![tactic(auto)]

mod pairs;
mod visits;

pub use pairs::{Pair, push_pairs};
pub use visits::{Visited, push_arguments};
