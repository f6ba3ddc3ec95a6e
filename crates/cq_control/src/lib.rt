//! What a search keeps to go on and to come back: continuations that share their rest, and the choices that are open, each
//! with a mark of the world that it goes back to.
#![tactic(auto)]

mod choices;
mod continuations;
mod laws;

pub use choices::Choices;
pub use continuations::{Cell, Continuation, Continuations};
pub use laws::{
    a_cut_of_choices_is_a_cut_of_branches, continuations_stay, other_contents_change_one_choice,
};
