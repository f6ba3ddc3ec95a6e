//! The command: the words of the command line, files, the input and two sinks in, a status out. It runs any interpreter.
#![tactic(auto)]

mod ending;
pub mod generating;
mod running;
pub mod transcript;

pub use running::{run, run_without_words};
