//! The program `clpq`: runs the command of its words over the system's files and the standard streams.
#![tactic(auto)]

use cq_interpreter::Toplevel;
use cq_outside::real::{FileShelf, ReaderSource, WriterSink};
use cq_session::{run, run_without_words};
use cq_words::WordsFault;
use std::io::ErrorKind;
use std::process::ExitCode;
use std::{env, io};

/// The words of the command line, the program's name first.
fn words(rt: &HostRuntime) -> io::Result<Vec<String>> {
    let mut words = Vec::new(rt.alloc());
    for word in env::args(rt)? {
        words.push(word)?;
    }
    Ok(words)
}

/// Why there are no words, from the system's error: a word that is no text is none of the command's language.
fn words_fault(error: &io::Error) -> WordsFault {
    match error.kind() {
        ErrorKind::OutOfMemory => WordsFault::NoMemory,
        _ => WordsFault::BadWords,
    }
}

fn main(rt: HostRuntime) -> ExitCode {
    let mut err = WriterSink::new(rt.stderr());
    let status = match words(&rt) {
        Ok(words) => run::<Toplevel, _, _, _, _>(
            rt.alloc(),
            &words,
            &mut FileShelf::new(&rt),
            &mut ReaderSource::new(rt.stdin()),
            &mut WriterSink::new(rt.stdout()),
            &mut err,
        ),
        Err(error) => run_without_words(words_fault(&error), &mut err),
    };
    ExitCode::from(status.number())
}
