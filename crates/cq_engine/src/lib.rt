//! What an engine comes to before a goal is selected: it goes on to a goal in front, answers, fails, or its query stops.
//!
//! The engine is a machine for the derivation that the definitions tell (`spec_search`): a list of branches, of which the first is worked on. The
//! machine keeps that list in four parts:
//!
//! - **the world** of the branch that is worked on: terms, attributes, constraints (`cq_settle`);
//! - **its continuation**: cells of goals still to be done, of which many branches share the ends (`cq_control`). A cell is a goal with the height to
//!   which a cut in it goes back, a cut to be made, or the end of a catch or of a findall;
//! - **the choices**, newest last: each is a mark of the world and what is to be tried there, clauses that are left, another side of `;`, a ball's catch.
//!   A choice stands for the branches that begin with it, and is gone once its last is begun;
//! - **the clauses** (`cq_clauses`), which a running call sees as they were when it began.
//!
//! A turn takes the goal in front (`events`): a control construct changes the continuation, a built-in predicate gives equations or constraints to be
//! settled, and a user's predicate renames a clause and unifies its head (`cq_calls`, `cq_resolve`). A branch that is kept goes on with its body. One that is
//! pruned is given up: the newest choice's mark is undone and its next way is tried (`seeking`). A ball goes back over the choices to one of a catch
//! that unifies with it. With no goal left the branch answers; with no choice left the query has failed.
//!
//! The budgets count selected goals and exchanges, and a number past 128 bits is told where it comes up: such a stop ends the query with its cause.
#![tactic(auto)]

pub mod events;
mod front;
mod seeking;

pub use front::{Cause, Front, halt, look};
pub use seeking::seek;
