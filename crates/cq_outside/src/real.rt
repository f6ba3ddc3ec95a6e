//! The real outside: readers and writers of the system, such as the standard streams, as a source and a sink, and its files as a
//! shelf. They tell no content, since no contract can say what a stream or a file holds, and they keep the counts. This is the
//! trusted edge: what the system does is not proved.
#![tactic(auto)]

mod file_shelf;
mod reader_source;
mod writer_sink;

pub use file_shelf::FileShelf;
pub use reader_source::ReaderSource;
pub use writer_sink::WriterSink;
