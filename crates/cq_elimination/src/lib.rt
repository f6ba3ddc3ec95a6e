//! The elimination of Fourier and Motzkin, and rows as an answer has them.
#![tactic(auto)]

pub mod answered;
pub mod apart;
pub mod arrange;
pub mod fourier;
pub mod rows;
