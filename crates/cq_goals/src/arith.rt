//! Arithmetic over terms of a heap: the values of expressions.
#![tactic(auto)]

mod evaluation;
mod faults;
mod operations;

pub use evaluation::eval;
pub use faults::{EvalError, EvalFault};
