//! The transcript of files and of the input, written as an interpreter tells it: each text of the input before more is read.
#![tactic(auto)]

mod files;
mod halt;
mod input;
mod interpreter;
mod reading;
mod searching;
mod texts;

pub use halt::{Halt, Lines};
pub use interpreter::{Answered, Event, Interpreter, Sentence};
pub use texts::write_transcript;
