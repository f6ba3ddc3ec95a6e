// The transcript of a text, as far as its bytes decide it.

ghost use Rattle.std.specs.Prelude.{◌≡◌, ◌≤◌, ◌<◌, length, string_bytes, IfOk, IfErr};
ghost use Rattle.spec_command.specs.Outside.{Outside};
ghost use Rattle.spec_transcript.specs.Purposes.{syntax_line};
ghost use Rattle.spec_transcript.specs.Session.{Reader, Reading};
ghost use Rattle.cq_session.specs.Progress.{Broken, CountsWrites, marks_of};
ghost use Rattle.cq_session.specs.Texts.{IsAt, IsPause, IsTurn, StandsAt, StopsShort, marks_in};

use crate::transcript::halt::{Halt, Lines};
use crate::transcript::interpreter::{Interpreter, Sentence};
use crate::transcript::searching::{write_directive, write_query};
use cq_outside::{Sink, write_whole};
use cq_read::Feed;
use spec_transcript::Source;
use std::alloc::{AllocError, Global};
use std::fmt::Write;

/// Why no more of a text was read.
#[derive(Clone, Copy, PartialEq, Eq)]
pub(crate) enum Pause {
    /// Its bytes don't decide what stands next.
    Needs,
    /// Nothing more stands there.
    End,
}

/// What one clause or error of a text came to.
#[derive(Clone, Copy, PartialEq, Eq)]
enum Turn {
    /// It was written, with these lines.
    Goes(Lines),
    /// No more is read.
    Pauses(Pause),
}

/// The line of a syntax error.
fn syntax_line(alloc: Global, at: usize) -> Result<String, AllocError>
    ensures { IfOk result (λ line. string_bytes line ≡ syntax_line at) }
{
    format!(in alloc; "error: syntax {at}\n")
}

/// Writes what the next clause or error of a text writes.
fn write_next<'a, P: Interpreter, O: Sink>(
    alloc: Global,
    program: &mut P,
    text: &mut Feed,
    source: Source,
    answers: u64,
    out: &mut O,
) -> Result<Turn, Halt<'a>>
    requires kept { P.kept program.old }
    requires some { 0 < answers }
    requires answers { (P.budgets program.old).answers ≡ answers }
    requires place { text.old.place ≤ length text.old.bytes }
    ensures whole { IfOk result (λ turn. (o : Outside) (r : Reader) → IsAt r source text.old (P.program program.old)
        → StandsAt (P.budgets program.old) o r source (marks_in turn) (P.program program.old) (P.program program.new) text.new (O.held out.old) (O.held out.new)) }
    ensures part { IfErr result (λ halt. (o : Outside) (r : Reader) → IsAt r source text.old (P.program program.old)
        → Broken (P.budgets program.old) o (Reading (P.program program.old).database r) halt (O.held out.old) (O.held out.new)) }
    ensures turn { IfOk result (λ turn. IsTurn turn (P.program program.new) text.old text.new) }
    ensures place { IfOk result (λ turn. text.new.place ≤ length text.new.bytes) }
    ensures short { IfOk result (λ turn. StopsShort text.old → StopsShort text.new) }
    ensures bytes { text.new.bytes ≡ text.old.bytes }
    ensures finished { text.new.finished ≡ text.old.finished }
    ensures budgets { P.budgets program.new ≡ P.budgets program.old }
    ensures kept { P.kept program.new }
    ensures cause { CountsWrites (O.faults out.old) (O.faults out.new) result }
{
    match program.read(text, source)? {
        Sentence::Needs => Ok(Turn::Pauses(Pause::Needs)),
        Sentence::End => Ok(Turn::Pauses(Pause::End)),
        Sentence::Added => Ok(Turn::Goes(Lines::none())),
        Sentence::Waits => Ok(Turn::Goes(Lines::none())),
        Sentence::Syntax(at) => {
            let line = syntax_line(alloc, at)?;
            write_whole(out, line.as_bytes())?;
            Ok(Turn::Goes(Lines::error()))
        }
        Sentence::Refused(line) => {
            write_whole(out, &line)?;
            Ok(Turn::Goes(Lines::error()))
        }
        Sentence::Directive => Ok(Turn::Goes(write_directive(program, out)?)),
        Sentence::Query => Ok(Turn::Goes(write_query(program, answers, out)?)),
    }
}

/// Writes the transcript of a text up to its end, or as far as its bytes decide it.
pub(crate) fn write_text<'a, P: Interpreter, O: Sink>(
    alloc: Global,
    program: &mut P,
    text: &mut Feed,
    source: Source,
    answers: u64,
    out: &mut O,
) -> Result<(Pause, Lines), Halt<'a>>
    requires kept { P.kept program.old }
    requires some { 0 < answers }
    requires answers { (P.budgets program.old).answers ≡ answers }
    requires place { text.old.place ≤ length text.old.bytes }
    ensures whole { IfOk result (λ p. (o : Outside) (r : Reader) → IsAt r source text.old (P.program program.old)
        → StandsAt (P.budgets program.old) o r source (marks_of p.1) (P.program program.old) (P.program program.new) text.new (O.held out.old) (O.held out.new)) }
    ensures part { IfErr result (λ halt. (o : Outside) (r : Reader) → IsAt r source text.old (P.program program.old)
        → Broken (P.budgets program.old) o (Reading (P.program program.old).database r) halt (O.held out.old) (O.held out.new)) }
    ensures pause { IfOk result (λ p. IsPause p.0 (P.program program.new) text.new) }
    ensures place { IfOk result (λ p. text.new.place ≤ length text.new.bytes) }
    ensures short { IfOk result (λ p. StopsShort text.old → StopsShort text.new) }
    ensures bytes { text.new.bytes ≡ text.old.bytes }
    ensures finished { text.new.finished ≡ text.old.finished }
    ensures budgets { P.budgets program.new ≡ P.budgets program.old }
    ensures kept { P.kept program.new }
    ensures cause { CountsWrites (O.faults out.old) (O.faults out.new) result }
{
    let mut lines = Lines::none();
    'clauses: loop {
        match write_next(alloc, program, text, source, answers, out)? {
            Turn::Pauses(pause) => return Ok((pause, lines)),
            Turn::Goes(more) => lines = lines.and(more),
        }
    }
}
