// What a run is given, and what it is to do.

ghost use Rattle.std.specs.Prelude.{◌<◌};

use cq_interpreter::Toplevel;
use cq_outside::{MemShelf, MemSink, MemSource};
use cq_session::run;
use spec_command::endings::Status;
use std::alloc::{AllocError, Global};

/// How much is read and written at once.
#[derive(Clone, Copy)]
pub(crate) enum Pieces {
    /// As much as there is and as the reader asks for.
    Whole,
    /// One byte.
    Bytes,
}

impl Pieces {
    /// The greatest length of a piece.
    fn length(self) -> usize
        ensures { 0 < result }
    {
        match self {
            Pieces::Whole => 65_536,
            Pieces::Bytes => 1,
        }
    }
}

/// What a run is given: the words behind the program's name, files by name, and the input; the numbers of the loads, of the reads
/// and of the writes that fail, and how much is read and written at once.
#[derive(Clone, Copy)]
pub(crate) struct Given<'a> {
    pub(crate) words: &'a [&'a str],
    pub(crate) files: &'a [(&'a str, &'a str)],
    pub(crate) input: &'a [u8],
    pub(crate) load_fails: &'a [u64],
    pub(crate) read_fails: &'a [u64],
    pub(crate) write_fails: &'a [u64],
    pub(crate) pieces: Pieces,
}

/// What a run writes, how it ends, and the line on `err`.
#[derive(Clone, Copy)]
pub(crate) struct Wanted<'a> {
    pub(crate) out: &'a str,
    pub(crate) status: Status,
    pub(crate) line: &'a str,
}

/// Words and an input alone. Nothing fails.
pub(crate) fn input_of<'a>(words: &'a [&'a str], input: &'a [u8]) -> Given<'a> {
    Given {
        words,
        files: &[],
        input,
        load_fails: &[],
        read_fails: &[],
        write_fails: &[],
        pieces: Pieces::Whole,
    }
}

/// A run with nothing to tell on `err`.
pub(crate) fn written(out: &str, status: Status) -> Wanted<'_> {
    Wanted {
        out,
        status,
        line: "",
    }
}

/// The command's words, the program's name first.
fn words_of(alloc: Global, behind: &[&str]) -> Result<Vec<String>, AllocError> {
    let mut words = Vec::new(alloc);
    words.push(String::from_str(alloc, "clpq")?)?;
    for word in behind {
        words.push(String::from_str(alloc, word)?)?;
    }
    Ok(words)
}

/// The files on a shelf.
fn shelf_of(alloc: Global, files: &[(&str, &str)], fails: &[u64]) -> Result<MemShelf, AllocError> {
    let mut shelf = MemShelf::new(alloc, fails)?;
    for (name, text) in files {
        shelf.add(name, text.as_bytes())?;
    }
    Ok(shelf)
}

/// The status of a run between these objects.
fn status_of(
    alloc: Global,
    words: &[String],
    shelf: &mut MemShelf,
    input: &mut MemSource,
    out: &mut MemSink,
    err: &mut MemSink,
) -> Status {
    run::<Toplevel, _, _, _, _>(alloc, words, shelf, input, out, err)
}

/// Whether a run of what is given does what is wanted.
pub(crate) fn does(
    alloc: Global,
    given: Given<'_>,
    wanted: Wanted<'_>,
) -> Result<bool, AllocError> {
    let piece = given.pieces.length();
    let words = words_of(alloc, given.words)?;
    let mut shelf = shelf_of(alloc, given.files, given.load_fails)?;
    let mut input = MemSource::new(alloc, given.input, given.read_fails, piece)?;
    let mut out = MemSink::new(alloc, given.write_fails, piece)?;
    let mut err = MemSink::new(alloc, &[], piece)?;
    let status = status_of(alloc, &words, &mut shelf, &mut input, &mut out, &mut err);
    Ok(
        status == wanted.status
            && out.bytes() == wanted.out.as_bytes()
            && err.bytes() == wanted.line.as_bytes(),
    )
}
