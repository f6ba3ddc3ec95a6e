// Why a transcript breaks off, and what kinds of lines it has.

ghost use Rattle.std.specs.Prelude.{◌≡◌};

use cq_outside::{SinkFailed, SourceFailed};
use std::alloc::AllocError;

/// Why a transcript ends before its end.
#[derive(Clone, Copy, PartialEq, Eq)]
pub enum Halt<'a> {
    /// There is no file of this name.
    Absent(&'a str),
    /// The file of this name is too large.
    TooLarge(&'a str),
    /// The input is too large.
    TooMuchInput,
    /// A read or a load failed.
    Read,
    /// A write failed.
    Write,
    /// Memory was wanting.
    Memory,
}

impl<'a> From<SinkFailed> for Halt<'a> {
    ghost use Rattle.cq_session.specs.declared.transcript.halt.Halt.TheVariants.{Write};

    ghost from_gives = { λ _ e. e ≡ Write };

    fn from(_: SinkFailed) -> Self {
        Halt::Write
    }
}

impl<'a> From<SourceFailed> for Halt<'a> {
    ghost use Rattle.cq_session.specs.declared.transcript.halt.Halt.TheVariants.{Read};

    ghost from_gives = { λ _ e. e ≡ Read };

    fn from(_: SourceFailed) -> Self {
        Halt::Read
    }
}

impl<'a> From<AllocError> for Halt<'a> {
    ghost use Rattle.cq_session.specs.declared.transcript.halt.Halt.TheVariants.{Memory};

    ghost from_gives = { λ _ e. e ≡ Memory };

    fn from(_: AllocError) -> Self {
        Halt::Memory
    }
}

/// Whether a transcript has an error line, and whether it has a stop.
#[derive(Clone, Copy, PartialEq, Eq)]
pub struct Lines {
    pub faulty: bool,
    pub stopped: bool,
}

impl Lines {
    ghost use Rattle.spec_engine.specs.Parts.{both, an_error, a_stop};
    ghost use Rattle.spec_transcript.specs.Session.{unmarked};
    ghost use Rattle.cq_session.specs.Progress.{marks_of};

    /// No such line.
    pub fn none() -> Lines
        ensures { marks_of result ≡ unmarked }
    {
        Lines {
            faulty: false,
            stopped: false,
        }
    }

    /// An error line.
    pub fn error() -> Lines
        ensures { marks_of result ≡ an_error }
    {
        Lines {
            faulty: true,
            stopped: false,
        }
    }

    /// A stop.
    pub fn stop() -> Lines
        ensures { marks_of result ≡ a_stop }
    {
        Lines {
            faulty: false,
            stopped: true,
        }
    }

    /// Those of two texts, one behind the other.
    pub fn and(self, other: Lines) -> Lines
        ensures { marks_of result ≡ both (marks_of self) (marks_of other) }
    {
        Lines {
            faulty: other.faulty || self.faulty,
            stopped: other.stopped || self.stopped,
        }
    }
}
