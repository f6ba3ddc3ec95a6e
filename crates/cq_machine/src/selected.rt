//! The rows of goals that a machine hands to lower layers, by the arguments of the selected goal: terms made equal, constraints
//! told, values compared, goals put to sleep, goals and user predicates called, modules and declarations checked.
#![tactic(auto)]

mod calls;
mod checks;
mod constraints;
mod relations;

pub use calls::{call_procedure, call_with_more};
pub use checks::{discontiguous, use_module};
pub use constraints::constrain;
pub use relations::{compare, evaluate_to, freeze, unify};
