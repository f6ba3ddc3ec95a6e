// What the adapters do with what a reader and a writer answer, which no clause says.
ghost use Rattle.std.specs.Prelude.{◌≤◌, IfOk};

use cq_outside::real::{ReaderSource, WriterSink};
use cq_outside::{Sink, SinkFailed, Source, SourceFailed};
use std::io::{self, ErrorKind, Read, Write};
use std::test::Fail;

// A stream that is interrupted a few times, and then fails or takes and gives a byte a call.
#[derive(Drop)]
struct Flaky {
    interrupts: u32,
    fails: bool,
}

impl Flaky {
    fn answer(&mut self, len: usize) -> io::Result<usize>
        ensures { IfOk result (λ n. n ≤ len) }
    {
        if self.interrupts > 0 {
            self.interrupts -= 1;
            return Err(io::Error::from(ErrorKind::Interrupted));
        }
        if self.fails {
            return Err(io::Error::from(ErrorKind::BrokenPipe));
        }
        Ok(len.min(1))
    }
}

impl Read for Flaky {
    fn read(&mut self, buf: &mut [u8]) -> io::Result<usize> {
        self.answer(buf.len())
    }
}

impl Write for Flaky {
    fn write(&mut self, buf: &[u8]) -> io::Result<usize> {
        self.answer(buf.len())
    }

    fn flush(&mut self) -> io::Result<()> {
        Ok(())
    }
}

#[test]
fn an_interrupted_read_or_write_is_made_again(rt: HostRuntime) -> Result<(), Fail> {
    for interrupts in [0, 1, 3] {
        let mut source = ReaderSource::new(Flaky {
            interrupts,
            fails: false,
        });
        assert_eq!(rt; source.read(&mut [0; 4]), Ok(1), "{interrupts} times");
        let mut sink = WriterSink::new(Flaky {
            interrupts,
            fails: false,
        });
        assert_eq!(rt; sink.write(b"abcd"), Ok(1), "{interrupts} times");
    }
    Ok(())
}

#[test]
fn a_failed_read_or_write_is_a_fault(rt: HostRuntime) -> Result<(), Fail> {
    let mut source = ReaderSource::new(Flaky {
        interrupts: 1,
        fails: true,
    });
    assert_eq!(rt; source.read(&mut [0; 4]), Err(SourceFailed));
    let mut sink = WriterSink::new(Flaky {
        interrupts: 1,
        fails: true,
    });
    assert_eq!(rt; sink.write(b"abcd"), Err(SinkFailed));
    Ok(())
}
