//! The rows of goals that ask the linear constraints, by the arguments of the selected goal: whether constraints are entailed,
//! how far an expression reaches, and what is told of that.
#![tactic(auto)]

mod entailment;
mod extents;
mod laws;
mod telling;
mod values;

pub use entailment::entailed;
pub use extents::{extent, optimum};
pub use laws::goals_stop;
