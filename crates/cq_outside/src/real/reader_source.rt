// A reader as a source.
ghost use Rattle.std.specs.Prelude.{◌≡◌, None};

use crate::{Source, SourceFailed};
use std::io::{ErrorKind, Read};

/// A reader of the system, such as the standard input. Its counts stop at the last value of a u64.
#[derive(Drop)]
pub struct ReaderSource<R: Read> {
    reader: R,
    faults: u64,
    taken: u64,
}

impl<R: Read> ReaderSource<R> {
    ghost use Rattle.cq_outside.specs.Counted.{read_faults, bytes_taken};

    /// A source of which nothing was read yet.
    pub fn new(reader: R) -> Self
        ensures faults { read_faults result ≡ 0 }
        ensures taken { bytes_taken result ≡ 0 }
    {
        ReaderSource {
            reader,
            faults: 0,
            taken: 0,
        }
    }
}

impl<R: Read> Source for ReaderSource<R> {
    ghost left = { λ _. None };

    ghost faults = { λ s. s.faults };

    ghost taken = { λ s. s.taken };

    fn read(&mut self, buf: &mut [u8]) -> Result<usize, SourceFailed> {
        for _ in 0..u64::MAX {
            match self.reader.read(buf) {
                Ok(n) => {
                    self.taken = self.taken.saturating_add(n as u64);
                    return Ok(n);
                }
                // A signal interrupted the read: it is made again.
                Err(e) if e.kind() == ErrorKind::Interrupted => {}
                Err(_) => break,
            }
        }
        self.faults = self.faults.saturating_add(1);
        Err(SourceFailed)
    }
}
