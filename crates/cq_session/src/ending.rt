// How a run of the command ended, and the line that it tells.

ghost use Rattle.std.specs.Prelude.{◌≡◌, ◌++◌, OnOk, OnErr, codes};
ghost use Rattle.cq_outside.specs.Bytes.{Adds, Appends, Begins};
ghost use Rattle.cq_outside.specs.Counts.{HasCause};
ghost use Rattle.spec_command.specs.Endings.{IsTold, sinks};
ghost use Rattle.cq_session.specs.Outcomes.{fault_ending, line_of, status_of, whole_status};

use crate::transcript::{Halt, Lines};
use cq_outside::{Sink, SinkFailed, write_whole};
use cq_words::WordsFault;
use spec_command::endings::Status;

/// How a run ended.
#[derive(Clone, Copy)]
pub(crate) enum Ending<'a> {
    /// The whole transcript was written; the kinds of its lines.
    Whole(Lines),
    /// The words are not in the command's language.
    BadWords,
    /// The transcript broke off.
    Broken(Halt<'a>),
}

/// How a run ended that found no words.
pub(crate) fn without_words<'a>(fault: WordsFault) -> Ending<'a>
    ensures { result ≡ fault_ending fault }
{
    match fault {
        WordsFault::BadWords => Ending::BadWords,
        WordsFault::NoMemory => Ending::Broken(Halt::Memory),
    }
}

/// The status of a whole transcript.
fn whole_status(lines: Lines) -> Status
    ensures { result ≡ whole_status lines.faulty lines.stopped }
{
    match (lines.faulty, lines.stopped) {
        (_, true) => Status::Stopped,
        (true, false) => Status::Faulty,
        (false, false) => Status::Done,
    }
}

/// The status of an ending.
pub(crate) fn status_of(how: Ending<'_>) -> Status
    ensures { result ≡ status_of how.entry }
{
    match how {
        Ending::Whole(lines) => whole_status(lines),
        Ending::BadWords => Status::BadWords,
        Ending::Broken(halt) => match halt {
            Halt::Absent(_) | Halt::TooLarge(_) | Halt::TooMuchInput => Status::NoFile,
            Halt::Read => Status::ReadFault,
            Halt::Write => Status::WriteFault,
            Halt::Memory => Status::NoMemory,
        },
    }
}

/// Writes a line about a file, up to its name and from there on.
fn write_named<E: Sink>(err: &mut E, before: &[u8], name: &str) -> Result<(), SinkFailed>
    ensures whole { OnOk result (Appends (E.held err.old) (E.held err.new) (before.now ++ name.now ++ codes "\n")) }
    ensures part { OnErr result (Adds (E.held err.old) (E.held err.new) (λ part. Begins part (before.now ++ name.now ++ codes "\n"))) }
    ensures cause { HasCause (E.faults err.old) (E.faults err.new) result }
{
    write_whole(err, before)?;
    write_whole(err, name.as_bytes())?;
    write_whole(err, b"\n")
}

/// Writes the line of an ending, which is empty where the transcript is whole.
fn write_line<E: Sink>(err: &mut E, how: Ending<'_>) -> Result<(), SinkFailed>
    ensures whole { OnOk result (Appends (E.held err.old) (E.held err.new) (line_of how.entry)) }
    ensures part { OnErr result (Adds (E.held err.old) (E.held err.new) (λ part. Begins part (line_of how.entry))) }
    ensures cause { HasCause (E.faults err.old) (E.faults err.new) result }
{
    match how {
        Ending::Whole(_) => write_whole(err, b""),
        Ending::BadWords => write_whole(err, b"clpq: bad command line\n"),
        Ending::Broken(halt) => match halt {
            Halt::Absent(name) => write_named(err, b"clpq: no file ", name),
            Halt::TooLarge(name) => write_named(err, b"clpq: too large ", name),
            Halt::TooMuchInput => write_whole(err, b"clpq: too large input\n"),
            Halt::Read => write_whole(err, b"clpq: read failed\n"),
            Halt::Write => write_whole(err, b"clpq: write failed\n"),
            Halt::Memory => write_whole(err, b"clpq: out of memory\n"),
        },
    }
}

/// Tells the line of an ending. A fault is passed over.
pub(crate) fn tell<E: Sink>(err: &mut E, how: Ending<'_>)
    ensures { IsTold (sinks (E.held err.old) (E.held err.new) (E.faults err.old) (E.faults err.new)) (line_of how.entry) }
{
    let _ = write_line(err, how);
}
