//! What is still to be written, as a stack of jobs with the next on top. So a term's depth costs memory alone.

ghost use Rattle.std.specs.Prelude.{◌≡◌, ◌++◌, OnOk, IsAscii, reverse};
ghost use Rattle.cq_write.specs.Work.{mark_text};

use cq_frac::{Frac, VarId};
use cq_term::TermId;
use cq_term::atoms::Atom;
use std::alloc::AllocError;

/// Punctuation, and the sign of a number below zero.
#[derive(Clone, Copy, PartialEq, Eq)]
pub(crate) enum Mark {
    Open,
    Close,
    OpenList,
    CloseList,
    OpenCurly,
    CloseCurly,
    Comma,
    Bar,
    Minus,
}

impl Mark {
    pub(crate) fn text(self) -> &'static str
        ensures text { result.now ≡ mark_text self }
        ensures ascii { IsAscii result.now }
    {
        match self {
            Mark::Open => "(",
            Mark::Close => ")",
            Mark::OpenList => "[",
            Mark::CloseList => "]",
            Mark::OpenCurly => "{",
            Mark::CloseCurly => "}",
            Mark::Comma => ",",
            Mark::Bar => "|",
            Mark::Minus => "-",
        }
    }
}

/// A piece of the text.
#[derive(Clone, Copy)]
pub(crate) enum Word {
    Mark(Mark),
    Name(Atom),
    /// A prefix operator in front of its operand.
    Prefix(Atom),
    Infix(Atom),
    Variable(VarId),
    /// A number that is not below zero.
    Numeral(Frac),
}

/// A part of a term that is still to be taken apart.
#[derive(Clone, Copy)]
pub(crate) enum Part {
    /// A term by itself.
    Term(TermId),
    /// A term in parentheses.
    Enclosed(TermId),
    /// The rest of a list behind its first elements, with the closing bracket.
    Rest(TermId),
    /// The arguments of a compound from this one on, with commas between them.
    Arguments(TermId, usize),
}

#[derive(Clone, Copy)]
pub(crate) enum Job {
    Word(Word),
    Part(Part),
}

/// Puts jobs on the stack, the first on top.
pub(crate) fn push_all(jobs: &mut Vec<Job>, parts: &[Job]) -> Result<(), AllocError>
    ensures { OnOk result (jobs.new.items ≡ jobs.old.items ++ reverse parts.now) }
{
    let mut rest = parts;
    while let Some((&last, front)) = rest.split_last() {
        jobs.push(last)?;
        rest = front;
    }
    Ok(())
}
