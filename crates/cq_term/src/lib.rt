//! Terms in cells: a heap of finite terms by number, with variables that are bound and unbound again.
#![tactic(auto)]

pub mod atoms;
mod heap;
mod laws;
mod lists;
mod names;
mod view;
pub mod walk;

pub use crate::atoms::Atom;
pub use heap::Heap;
pub use laws::names_stay_below;
pub use names::{Newly, Pred, TermId};
pub use view::View;
