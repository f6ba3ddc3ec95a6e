//! The built-in predicates of one or two terms as they stand: the tests of a type (`var`, `nonvar`, `atom`, `number`,
//! `rational`, `integer`, `atomic`, `compound`, `callable`, `is_list`), the comparisons in the standard order (`==`,
//! `\==`, `@<`, `@=<`, `@>`, `@>=`), `functor`, `arg`, `=..` and `copy_term`.
#![tactic(auto)]

mod arguments;
mod comparisons;
mod copies;
mod functors;
mod lists;
mod types;

pub use arguments::arg;
pub use comparisons::{Comparison, is_allowed, order};
pub use copies::copy_term;
pub use functors::functor;
pub use lists::univ;
pub use types::{TypeTest, test};
