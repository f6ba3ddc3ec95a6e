// A run of the program.

ghost use Rattle.std.specs.Prelude.{◌≡◌, ◌++◌, codes, map, string_bytes, IfOk, IfErr, OnErr, OnOk, Some};
ghost use Rattle.cq_outside.specs.Bytes.{Adds, Appends, Begins};
ghost use Rattle.cq_outside.specs.Counts.{HasCause};
ghost use Rattle.lint.specs.Causes.{IfBroken, RunDue};
ghost use Rattle.lint.specs.Endings.{Breaks, Ended, Ends, IsTold, IsWhole, line_of, number_of, status_of};
ghost use Rattle.lint.specs.Language.{named_by};

use crate::command::names_of;
use crate::pages::{Halt, read_pages, report};
use cq_outside::{Shelf, Sink, SinkFailed, write_whole};
use std::alloc::Global;

/// How a run ended.
#[derive(Clone, Copy)]
pub enum Ending<'a> {
    /// Nothing was found.
    Clean,
    /// All that was found was written.
    Found,
    /// The words are not in the command's language.
    BadWords,
    /// The run broke off.
    Broken(Halt<'a>),
}

/// The exit statuses.
#[derive(Clone, Copy, PartialEq, Eq)]
pub enum Status {
    Clean,
    Found,
    BadWords,
    NoFile,
    ReadFault,
    WriteFault,
    NoMemory,
}

impl Status {
    /// The number that the program ends with.
    pub fn number(self) -> u8
        ensures { result ≡ number_of self }
    {
        match self {
            Status::Clean => 0,
            Status::Found => 1,
            Status::BadWords => 2,
            Status::NoFile => 3,
            Status::ReadFault => 4,
            Status::WriteFault => 5,
            Status::NoMemory => 7,
        }
    }
}

/// Writes what is found in the files of these names, once all of them are read.
fn find<'a, F: Shelf, O: Sink>(
    alloc: Global,
    names: &'a [String],
    shelf: &mut F,
    out: &mut O,
) -> Result<Ending<'a>, Halt<'a>>
    ensures whole { IfOk result (λ e. IsWhole (F.files shelf.old) (map string_bytes names.now) e (O.held out.old) (O.held out.new)) }
    ensures part { IfErr result (λ halt. Breaks (F.files shelf.old) (map string_bytes names.now) halt (O.held out.old) (O.held out.new)) }
    ensures cause { IfErr result (RunDue (F.faults shelf.old) (F.refused shelf.old) (O.faults out.old) (F.faults shelf.new) (F.refused shelf.new) (O.faults out.new)) }
{
    let pages = read_pages(alloc, shelf, names)?;
    let lines = report(alloc, &pages)?;
    if write_whole(out, &lines).is_err() {
        return Err(Halt::Write);
    }
    if lines.is_empty() {
        Ok(Ending::Clean)
    } else {
        Ok(Ending::Found)
    }
}

/// How the run of these words ends.
fn ending_of<'a, F: Shelf, O: Sink>(
    alloc: Global,
    words: &'a [String],
    shelf: &mut F,
    out: &mut O,
) -> Ending<'a>
    ensures ends { Ends (F.files shelf.old) (named_by (map string_bytes words.now)) result (O.held out.old) (O.held out.new) }
    ensures cause { IfBroken (RunDue (F.faults shelf.old) (F.refused shelf.old) (O.faults out.old) (F.faults shelf.new) (F.refused shelf.new) (O.faults out.new)) result }
{
    let Some(names) = names_of(words) else {
        return Ending::BadWords;
    };
    match find(alloc, names, shelf, out) {
        Ok(ending) => ending,
        Err(halt) => Ending::Broken(halt),
    }
}

/// The status of an ending.
fn status_of(how: Ending<'_>) -> Status
    ensures { result ≡ status_of how.entry }
{
    match how {
        Ending::Clean => Status::Clean,
        Ending::Found => Status::Found,
        Ending::BadWords => Status::BadWords,
        Ending::Broken(halt) => match halt {
            Halt::Absent(_) | Halt::TooLarge(_) => Status::NoFile,
            Halt::Read => Status::ReadFault,
            Halt::Write => Status::WriteFault,
            Halt::Memory => Status::NoMemory,
        },
    }
}

/// Writes a line about a file, up to its name and from there on.
fn write_named<E: Sink>(err: &mut E, before: &[u8], name: &str) -> Result<(), SinkFailed>
    ensures whole { OnOk result (Appends (E.held err.old) (E.held err.new) (before.now ++ name.now ++ codes "\n")) }
    ensures part { OnErr result (Adds (E.held err.old) (E.held err.new) (λ part. Begins part (before.now ++ name.now ++ codes "\n"))) }
    ensures cause { HasCause (E.faults err.old) (E.faults err.new) result }
{
    write_whole(err, before)?;
    write_whole(err, name.as_bytes())?;
    write_whole(err, b"\n")
}

/// Writes the line of an ending, which is empty where the run came to its end.
fn write_line<E: Sink>(err: &mut E, how: Ending<'_>) -> Result<(), SinkFailed>
    ensures whole { OnOk result (Appends (E.held err.old) (E.held err.new) (line_of how.entry)) }
    ensures part { OnErr result (Adds (E.held err.old) (E.held err.new) (λ part. Begins part (line_of how.entry))) }
    ensures cause { HasCause (E.faults err.old) (E.faults err.new) result }
{
    match how {
        Ending::Clean | Ending::Found => write_whole(err, b""),
        Ending::BadWords => write_whole(err, b"clpq-lint: bad command line\n"),
        Ending::Broken(halt) => match halt {
            Halt::Absent(name) => write_named(err, b"clpq-lint: no file ", name),
            Halt::TooLarge(name) => write_named(err, b"clpq-lint: too large ", name),
            Halt::Read => write_whole(err, b"clpq-lint: read failed\n"),
            Halt::Write => write_whole(err, b"clpq-lint: write failed\n"),
            Halt::Memory => write_whole(err, b"clpq-lint: out of memory\n"),
        },
    }
}

/// Tells the line of an ending. A fault is passed over.
fn tell<E: Sink>(err: &mut E, how: Ending<'_>)
    ensures { IsTold (E.held err.old) (E.held err.new) (E.faults err.old) (E.faults err.new) (line_of how.entry) }
{
    let _ = write_line(err, how);
}

/// Ends a run: the line of how it ended is told, and its status given.
pub fn end<E: Sink>(how: Ending<'_>, err: &mut E) -> Status
    ensures status { result ≡ status_of how.entry }
    ensures told { IsTold (E.held err.old) (E.held err.new) (E.faults err.old) (E.faults err.new) (line_of how.entry) }
{
    tell(err, how);
    status_of(how)
}

/// Runs the program on its words, the program's name first: what is found in the files that they name is written to `out`, and the
/// line of a cause for which nothing more is written to `err`.
pub fn run<F: Shelf, O: Sink, E: Sink>(
    alloc: Global,
    words: &[String],
    shelf: &mut F,
    out: &mut O,
    err: &mut E,
) -> Status
    ensures { Ended (F.files shelf.old) (named_by (map string_bytes words.now)) result (O.held out.old) (O.held out.new)
        (E.held err.old) (E.held err.new) (E.faults err.old) (E.faults err.new)
        (RunDue (F.faults shelf.old) (F.refused shelf.old) (O.faults out.old) (F.faults shelf.new) (F.refused shelf.new) (O.faults out.new)) }
{
    let how = ending_of(alloc, words, shelf, out);
    end(how, err)
}
