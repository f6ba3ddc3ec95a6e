//! The machine that reads clauses, a token at a time, over terms of a heap.
//!
//! `step` does what the definition's machine does at a token (`spec_syntax/specs/Machine.antt`). The caller keeps the two
//! parts of where it stands: the frames, what the term being read is for, and the state, where the machine is in the
//! innermost of them. A clause begins with no frames before a term of priority at most 1200, and is whole at
//! `State::Whole`. `specs/Views.antt` says what tokens, frames and state mean by the texts of the names and the terms of
//! the heap; `specs/Known.antt` says which names must have a text for that.
#![tactic(auto)]

mod building;
mod folding;
mod frames;
mod names;
mod operators;
mod steps;
mod tokens;

pub use frames::{Frame, State};
pub use names::{Grammar, GrammarNames};
pub use steps::step;
pub use tokens::Token;
