//! Questions to the linear constraints of a world: whether they entail the members of a constraint, and how far an expression
//! reaches. The world stays as it is.
#![tactic(auto)]

mod entailment;
mod extents;
mod laws;
mod members;
mod terms;
mod values;

pub use entailment::{Entailment, entailed};
pub use extents::{Reach, Side, reach_of};
pub use laws::{answers_are_steps, questions_stop};
