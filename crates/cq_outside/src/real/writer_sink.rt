// A writer as a sink.
ghost use Rattle.std.specs.Prelude.{◌≡◌, None};

use crate::{Sink, SinkFailed};
use std::io::{ErrorKind, Write};

/// A writer of the system, such as the standard output. What is written is flushed at once, so that a fault shows at the
/// call that meets it. Its count stops at the last value of a u64.
#[derive(Drop)]
pub struct WriterSink<W: Write> {
    writer: W,
    faults: u64,
}

impl<W: Write> WriterSink<W> {
    ghost use Rattle.cq_outside.specs.Counted.{write_faults};

    /// A sink to which nothing was written yet.
    pub fn new(writer: W) -> Self
        ensures faults { write_faults result ≡ 0 }
    {
        WriterSink { writer, faults: 0 }
    }
}

impl<W: Write> Sink for WriterSink<W> {
    ghost held = { λ _. None };

    ghost faults = { λ s. s.faults };

    fn write(&mut self, piece: &[u8]) -> Result<usize, SinkFailed> {
        for _ in 0..u64::MAX {
            match self.writer.write(piece) {
                // A writer that takes nothing of some bytes has failed.
                Ok(0) if !piece.is_empty() => break,
                Ok(n) => match self.writer.flush() {
                    Ok(()) => return Ok(n),
                    Err(_) => break,
                },
                // A signal interrupted the write: it is made again.
                Err(e) if e.kind() == ErrorKind::Interrupted => {}
                Err(_) => break,
            }
        }
        self.faults = self.faults.saturating_add(1);
        Err(SinkFailed)
    }
}
