//! The program `clpq-lint`: says what it finds in the files that its words name.
#![tactic(auto)]

mod command;
mod pages;
mod running;

use crate::pages::Halt;
use crate::running::{Ending, end, run};
use cq_outside::real::{FileShelf, WriterSink};
use std::io::ErrorKind;
use std::process::ExitCode;
use std::{env, io};

/// The words of the command line, the program's name first.
fn words(rt: &HostRuntime) -> io::Result<Vec<String>> {
    let mut words = Vec::new(rt.alloc());
    for word in env::args(rt)? {
        words.push(word)?;
    }
    Ok(words)
}

/// How a run ends that found no words, from the system's error: a word that is no text names no file.
fn without_words(error: &io::Error) -> Ending<'static> {
    match error.kind() {
        ErrorKind::OutOfMemory => Ending::Broken(Halt::Memory),
        _ => Ending::BadWords,
    }
}

fn main(rt: HostRuntime) -> ExitCode {
    let mut err = WriterSink::new(rt.stderr());
    let status = match words(&rt) {
        Ok(words) => run(
            rt.alloc(),
            &words,
            &mut FileShelf::new(&rt),
            &mut WriterSink::new(rt.stdout()),
            &mut err,
        ),
        Err(error) => end(without_words(&error), &mut err),
    };
    ExitCode::from(status.number())
}
