//! The words of the command line: what they ask for, or that they are not in the command's language.
#![tactic(auto)]

mod run;
mod words;

pub use run::{ANSWERS, GREATEST, MOST, PIVOTS, Run, STEPS, Task};
pub use words::{WordsFault, read_words};
