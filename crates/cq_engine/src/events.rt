//! The events of a query on a machine, one after another: texts that it writes, answers, a ball that nothing catches, and its
//! end. `Engine::start` begins a query, `Engine::next` gives what the query tells next.
#![tactic(auto)]

mod balls;
mod cells;
mod engine;
mod event;
mod raiser;
mod running;
mod turning;

pub use crate::Cause;
pub use engine::Engine;
pub use event::Event;
