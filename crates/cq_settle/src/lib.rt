//! Settling of a world: told constraints, constraints that wait to become linear, fixed values, and goals that wake.
//!
//! A world is a heap of terms, the attributes of its variables, and a store of linear constraints. Once variables were bound, or constraints told, the three
//! have to agree again before the next goal is selected. Settling takes these steps until nothing changes:
//!
//! 1. `beginning`: each numeric variable that was bound becomes an equation of the store, `X = 3` or `X = Y`, in the order of binding; a binding to
//!    an atom or a compound prunes the branch. Linear rows that were told with it follow, and the values that all these fix are bound.
//! 2. `joining`: each constraint that was told as a term is made linear by `cq_cexpr` and joins the store. One with a product of two unknowns, or a division by
//!    one, waits, and is noted at its variables.
//! 3. `closing`: where a variable is bound that a constraint waits for, the constraint is looked at again, the oldest first; what it fixes is bound
//!    before the next one, pass after pass, until one in which none joins.
//! 4. The goals that wait for a variable that is none any more wake, in the order in which they were suspended; `cq_branch` puts them in front.
//!
//! The branch is pruned where the store refuses a constraint, by its certificate. The order of these steps shows only where two stops are due: any order
//! comes to the same answers (`any_order_gives_the_same` of `spec_branch`). Where the branch is pruned, and where a stop is due, the world is as at the
//! call; with nothing numeric bound and nothing told a settling takes no memory.
#![tactic(auto)]

mod beginning;
mod closing;
mod joining;
pub mod rest;
mod settling;
pub mod world;

pub use settling::{Settled, Work, settle};
