//! The steps of a search that look at no constraint: control, marks, and choices that are come back to.
#![tactic(auto)]

mod alternatives;
pub mod begin;
mod calls;
mod catching;
mod cells;
mod disjunction;
mod gathering;
mod laws;
mod marks;
mod rows;

pub use alternatives::{Alternatives, Gathered, Searching, Untried};
pub use calls::call;
pub use catching::catch;
pub use disjunction::or;
pub use gathering::findall;
pub use laws::{
    arguments_read_as_themselves, goals_succeed_or_fail, more_may_be_built,
    queries_begin_where_nothing_is_known, selected_goals_lead,
};
pub use marks::find_front;
pub use rows::{and, cut, if_then, not, once};
