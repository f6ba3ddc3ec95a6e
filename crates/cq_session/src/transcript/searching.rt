// The transcript of a query or a directive that was begun.

ghost use Rattle.std.specs.Prelude.{◌≡◌, ◌<◌, None, IfOk, IfErr, OnOk};
ghost use Rattle.spec_command.specs.Outside.{Outside};
ghost use Rattle.spec_syntax.specs.Operators.{Ops};
ghost use Rattle.spec_branch.specs.Branch.{State};
ghost use Rattle.spec_search.specs.Search.{Search};
ghost use Rattle.spec_transcript.specs.Session.{ADirective, AQuery, Reader, Reading, Searching};
ghost use Rattle.cq_outside.specs.Bytes.{Adds, Appends, Begins};
ghost use Rattle.cq_session.specs.Progress.{Advanced, Broken, CountsWrites, marks_of};
ghost use Rattle.cq_session.specs.Searches.{Answers, behind_answer, marks_behind};
ghost use Rattle.cq_session.specs.declared.transcript.halt.Halt.TheVariants.{Write};

use crate::transcript::halt::{Halt, Lines};
use crate::transcript::interpreter::{Answered, Event, Interpreter};
use cq_outside::{Sink, write_whole};

/// Writes the last line of a query or a directive.
fn finish<'a, O: Sink>(line: &[u8], lines: Lines, out: &mut O) -> Result<Lines, Halt<'a>>
    ensures lines { IfOk result (λ l. l ≡ lines) }
    ensures whole { OnOk result (Appends (O.held out.old) (O.held out.new) line.now) }
    ensures part { IfErr result (λ halt. (halt ≡ Write) × Adds (O.held out.old) (O.held out.new) (λ part. Begins part line.now)) }
    ensures cause { CountsWrites (O.faults out.old) (O.faults out.new) result }
{
    write_whole(out, line)?;
    Ok(lines)
}

/// Writes what a directive that was begun writes. Its success writes nothing.
pub(crate) fn write_directive<'a, P: Interpreter, O: Sink>(
    program: &mut P,
    out: &mut O,
) -> Result<Lines, Halt<'a>>
    requires kept { P.kept program.old }
    requires runs { (s : Search) × P.stands program.old s }
    ensures whole { IfOk result (λ lines. (s : Search) → P.stands program.old s → (o : Outside) (r : Reader) → Advanced (P.budgets program.old) o
        (Searching s ADirective r) (marks_of lines) (Reading (P.program program.new).database r) (O.held out.old) (O.held out.new)) }
    ensures part { IfErr result (λ halt. (s : Search) → P.stands program.old s → (o : Outside) (r : Reader)
        → Broken (P.budgets program.old) o (Searching s ADirective r) halt (O.held out.old) (O.held out.new)) }
    ensures later { OnOk result ((P.program program.new).later ≡ (P.program program.old).later) }
    ensures budgets { P.budgets program.new ≡ P.budgets program.old }
    ensures kept { P.kept program.new }
    ensures cause { CountsWrites (O.faults out.old) (O.faults out.new) result }
{
    'events: loop {
        match program.next()? {
            Event::Wrote(text) => write_whole(out, &text)?,
            Event::Answer => return Ok(Lines::none()),
            Event::Fail => return finish(b"no\n", Lines::none(), out),
            Event::Ball(line) => return finish(&line, Lines::error(), out),
            Event::Stop(line) => return finish(line, Lines::stop(), out),
        }
    }
}

/// Writes the answer that was told last, where so many more may be written. None where the query goes on behind it.
fn write_answer<'a, P: Interpreter, O: Sink>(
    program: &mut P,
    left: u64,
    out: &mut O,
) -> Result<Option<Lines>, Halt<'a>>
    requires kept { P.kept program.old }
    requires told { (st : State) × (ops : Ops) × P.is_answer program.old st ops }
    requires some { 0 < left }
    ensures whole { IfOk result (λ end. (s t : Search) → Answers (P.budgets program.old) (P.is_answer program.old) s t → (o : Outside) (r : Reader)
        → Advanced (P.budgets program.old) o (Searching s (AQuery (P.names program.old) left) r) (marks_behind end)
        (behind_answer end t (P.names program.old) left r) (O.held out.old) (O.held out.new)) }
    ensures part { IfErr result (λ halt. (s t : Search) → Answers (P.budgets program.old) (P.is_answer program.old) s t → (o : Outside) (r : Reader)
        → Broken (P.budgets program.old) o (Searching s (AQuery (P.names program.old) left) r) halt (O.held out.old) (O.held out.new)) }
    ensures more { IfOk result (λ end. end ≡ None → 1 < left) }
    ensures less { P.left program.new ≡ P.left program.old }
    ensures stands { (s : Search) → P.stands program.old s → P.stands program.new s }
    ensures program { P.program program.new ≡ P.program program.old }
    ensures names { P.names program.new ≡ P.names program.old }
    ensures budgets { P.budgets program.new ≡ P.budgets program.old }
    ensures kept { P.kept program.new }
    ensures cause { CountsWrites (O.faults out.old) (O.faults out.new) result }
{
    match program.answer()? {
        Answered::Stop(line) => Ok(Some(finish(line, Lines::stop(), out)?)),
        Answered::Lines(mut text) => {
            text.extend_from_slice(b";\n")?;
            if left > 1 {
                write_whole(out, &text)?;
                return Ok(None);
            }
            text.extend_from_slice(b"more\n")?;
            Ok(Some(finish(&text, Lines::none(), out)?))
        }
    }
}

/// Writes what a query that was begun writes, of which so many answers may be written.
pub(crate) fn write_query<'a, P: Interpreter, O: Sink>(
    program: &mut P,
    answers: u64,
    out: &mut O,
) -> Result<Lines, Halt<'a>>
    requires kept { P.kept program.old }
    requires runs { (s : Search) × P.stands program.old s }
    requires some { 0 < answers }
    ensures whole { IfOk result (λ lines. (s : Search) → P.stands program.old s → (o : Outside) (r : Reader) → Advanced (P.budgets program.old) o
        (Searching s (AQuery (P.names program.old) answers) r) (marks_of lines) (Reading (P.program program.new).database r) (O.held out.old) (O.held out.new)) }
    ensures part { IfErr result (λ halt. (s : Search) → P.stands program.old s → (o : Outside) (r : Reader)
        → Broken (P.budgets program.old) o (Searching s (AQuery (P.names program.old) answers) r) halt (O.held out.old) (O.held out.new)) }
    ensures later { OnOk result ((P.program program.new).later ≡ (P.program program.old).later) }
    ensures budgets { P.budgets program.new ≡ P.budgets program.old }
    ensures kept { P.kept program.new }
    ensures cause { CountsWrites (O.faults out.old) (O.faults out.new) result }
{
    let mut left = answers;
    'events: loop {
        match program.next()? {
            Event::Wrote(text) => write_whole(out, &text)?,
            Event::Answer => match write_answer(program, left, out)? {
                Some(lines) => return Ok(lines),
                None => left -= 1,
            },
            Event::Fail => return finish(b"no\n", Lines::none(), out),
            Event::Ball(line) => return finish(&line, Lines::error(), out),
            Event::Stop(line) => return finish(line, Lines::stop(), out),
        }
    }
}
