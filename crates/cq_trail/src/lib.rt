//! Values that go back to what they were: the trait `Undo`, a list with a trail of its older values, a list that
//! only grows, and pairs.
#![tactic(auto)]

mod both;
pub mod counted;
mod stack;
mod trail;
mod undo;

pub use both::Both;
pub use stack::Stack;
pub use trail::Trail;
pub use undo::{Mark, Undo};
