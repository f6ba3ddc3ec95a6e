//! Goals that are checked: what arithmetic comes to, and constraints that are told or asked about, each with its errors
//! as the definitions of the goals look for them.
#![tactic(auto)]

pub mod arith;
mod arithmetic;
mod checks;
pub mod declarations;
mod faults;
mod halves;
mod members;
mod tellings;

pub use arithmetic::{compare_values, is_value};
pub use faults::GoalFault;
pub use tellings::{Telling, check_expression, check_question, check_telling};
