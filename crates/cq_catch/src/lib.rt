//! Balls and where they are caught, solutions that are gathered, and clauses that are found.
#![tactic(auto)]

pub mod balls;
pub mod find;
pub mod gather;
pub mod matching;
pub mod revise;
pub mod saved;
