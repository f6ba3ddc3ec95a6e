//! What the command `gen` writes, and how a run of the command ends: definitions and laws.
#![tactic(auto)]

pub mod endings;
pub mod generating;
