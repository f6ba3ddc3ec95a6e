//! How an engine stands for a search: cells of what is still to be done, choices that hold branches that are not made yet, and
//! a world that is the state of a branch. No code: each function has an empty body, and its contract is a law of the
//! definitions.
#![tactic(auto)]

mod cell;
mod laws;

pub use cell::Cell;
pub use laws::{
    StateWorlds, balls_are_handed, children_are_settled, choices_are_come_back_to,
    copies_are_gathered, copies_are_landed, goals_are_selected, marks_are_passed, queries_begin,
    searches_end, standing_stays,
};
