//! What kind of term stands on a heap, and the elements of lists, as the definitions of the built-in predicates ask for
//! them.
#![tactic(auto)]

mod kinds;
mod lists;

pub use kinds::{
    is_below_zero, is_callable, is_compound, is_integer, is_name, is_number, is_variable,
    natural_of,
};
pub use lists::{Parts, is_nil, list_parts};
