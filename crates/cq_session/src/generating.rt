//! The command `gen`: any interpreter is asked the query of a number, and one line says what its search came to.
#![tactic(auto)]

mod course;
mod interpreter;
mod line;
mod writing;

pub use interpreter::Examined;
pub use writing::write_gen;
