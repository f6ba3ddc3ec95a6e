//! Expressions and relations of constraints as linear forms and linear constraints, over terms of a heap: the variables
//! that are bound to numbers are these numbers.
#![tactic(auto)]

mod evaluation;
mod names;
mod operations;
mod relations;
mod slots;
mod sums;

pub use evaluation::{LinExpression, linearise_expression};
pub use relations::{Lin, linearise};
