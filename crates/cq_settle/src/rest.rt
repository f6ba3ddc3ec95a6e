//! When a world is at rest, so that it may be settled: at the beginning, where terms are made equal and constraints
//! told, and after a settling.
#![tactic(auto)]

mod equating;
mod laws;
mod telling;

pub use equating::equate;
pub use laws::{
    constraints_may_be_told, equated_worlds_may_be_settled, goals_may_be_put_to_sleep,
    kept_worlds_are_ready, new_worlds_are_ready,
};
pub use telling::{look_at, look_at_pairs, look_at_told};
