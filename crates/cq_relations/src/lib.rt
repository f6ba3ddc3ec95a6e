//! The rows of goals that relate terms to numbers: arithmetic, constraints that are told, and goals that sleep until a
//! variable is bound.
#![tactic(auto)]

mod arithmetic;
mod constraints;
mod faults;
mod sleeping;

pub use arithmetic::{compare, evaluate_to};
pub use constraints::constrain;
pub use faults::RelationFault;
pub use sleeping::freeze;
