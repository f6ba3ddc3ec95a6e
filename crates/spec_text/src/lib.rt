//! Texts read as terms, and terms written as texts: definitions and laws.
#![tactic(auto)]

pub mod reading;
pub mod renumbered;
pub mod writing;
