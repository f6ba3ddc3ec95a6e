//! The outside of the program: where bytes come from and go to, as traits whose objects may tell what
//! they hold and count their faults, with objects in memory that meet them.
#![tactic(auto)]

mod calls;
mod memory_shelf;
mod memory_sink;
mod memory_source;
pub mod real;
mod shelf;
mod sink;
mod source;
mod whole;

pub use memory_shelf::{MemShelf, SteadyShelf};
pub use memory_sink::MemSink;
pub use memory_source::{MemSource, SteadySource};
pub use shelf::{SIZE_LIMIT, Shelf, ShelfFault};
pub use sink::{Sink, SinkFailed};
pub use source::{Source, SourceFailed};
pub use whole::{ReadFault, read_whole, write_whole};
