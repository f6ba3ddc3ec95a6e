//! An interpreter of texts: an engine, the names of its query's variables, and the goals that wait for the end of a file.
#![tactic(auto)]

mod answering;
pub mod consult;
mod examining;
mod generated;
pub mod generation;
mod goals;
mod interpreter;
mod lines;
mod queries;
mod reading;
mod toplevel;

pub use toplevel::{Toplevel, Waiting};
