//! The rational numbers and lists: definitions and laws.
#![tactic(auto)]

pub mod lists;
pub mod rational;
