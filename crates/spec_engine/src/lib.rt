//! What a machine of the search is, and a session over it: definitions and laws.
#![tactic(auto)]

pub mod machine;
pub mod session;
