// The transcript of a file.

ghost use Rattle.std.specs.Prelude.{◌≡◌, ◌<◌, ◌∷◌, ℕ, List, [], Option, Some, true, IfOk, IfErr, OnOk};
ghost use Rattle.spec_numbers.specs.Texts.{Text};
ghost use Rattle.spec_syntax.specs.Operators.{Ops};
ghost use Rattle.spec_text.specs.Readings.{Reads, Ended};
ghost use Rattle.spec_transcript.specs.Session.{Opening, Reader, Reading};
ghost use Rattle.spec_command.specs.Causes.{counted};
ghost use Rattle.spec_command.specs.Outside.{Outside};
ghost use Rattle.cq_session.specs.Breaks.{Breaks, CountedBy, IsLoaded, IsMissing};
ghost use Rattle.cq_session.specs.Progress.{Advanced, Broken, CountsWrites, marks_of};

use crate::transcript::halt::{Halt, Lines};
use crate::transcript::interpreter::Interpreter;
use crate::transcript::reading::write_text;
use crate::transcript::searching::write_directive;
use cq_outside::{Shelf, ShelfFault, Sink};
use cq_read::Feed;
use spec_transcript::Source;
use std::alloc::Global;

/// Loads a file as a text to be read.
fn load<'a, F: Shelf>(alloc: Global, shelf: &mut F, name: &'a str) -> Result<Feed, Halt<'a>>
    ensures text { IfOk result (IsLoaded (F.files shelf.old) name.now) }
    ensures missing { IfErr result (IsMissing (F.files shelf.old) name.now) }
    ensures same { F.files shelf.new ≡ F.files shelf.old }
    ensures cause { (failed taken unwritten : ℕ) → CountedBy (counted (F.faults shelf.old) (F.refused shelf.old) failed taken unwritten)
        (counted (F.faults shelf.new) (F.refused shelf.new) failed taken unwritten) result }
{
    let bytes = match shelf.load(alloc, name) {
        Ok(bytes) => bytes,
        Err(ShelfFault::Absent) => return Err(Halt::Absent(name)),
        Err(ShelfFault::TooLarge) => return Err(Halt::TooLarge(name)),
        Err(ShelfFault::Failed) => return Err(Halt::Read),
        Err(ShelfFault::NoMemory) => return Err(Halt::Memory),
    };
    let mut text = Feed::new(alloc);
    text.push(&bytes)?;
    text.finish();
    Ok(text)
}

/// Writes what the goals that wait for the end of a file write, in order.
fn write_waiting<'a, P: Interpreter, O: Sink>(
    program: &mut P,
    out: &mut O,
) -> Result<Lines, Halt<'a>>
    requires kept { P.kept program.old }
    ensures whole { IfOk result (λ lines. (o : Outside) (r : Reader) (ops : Ops) → r.later ≡ (P.program program.old).later → Reads ops r.bytes r.at Ended
        → Advanced (P.budgets program.old) o (Reading (P.program program.old).database r) (marks_of lines)
        (Reading (P.program program.new).database (record r { later = [] })) (O.held out.old) (O.held out.new)) }
    ensures part { IfErr result (λ halt. (o : Outside) (r : Reader) (ops : Ops) → r.later ≡ (P.program program.old).later → Reads ops r.bytes r.at Ended
        → Broken (P.budgets program.old) o (Reading (P.program program.old).database r) halt (O.held out.old) (O.held out.new)) }
    ensures none_waits { OnOk result ((P.program program.new).later ≡ []) }
    ensures budgets { P.budgets program.new ≡ P.budgets program.old }
    ensures kept { P.kept program.new }
    ensures cause { CountsWrites (O.faults out.old) (O.faults out.new) result }
{
    let mut lines = Lines::none();
    'goals: loop {
        if !program.begin_later()? {
            return Ok(lines);
        }
        let more = write_directive(program, out)?;
        lines = lines.and(more);
    }
}

/// Writes the transcript of a file: its clauses are added, and the goals that wait run after it.
pub(crate) fn write_file<'a, P: Interpreter, F: Shelf, O: Sink>(
    alloc: Global,
    program: &mut P,
    name: &'a str,
    answers: u64,
    shelf: &mut F,
    out: &mut O,
) -> Result<Lines, Halt<'a>>
    requires kept { P.kept program.old }
    requires some { 0 < answers }
    requires answers { (P.budgets program.old).answers ≡ answers }
    requires none_waits { (P.program program.old).later ≡ [] }
    ensures whole { IfOk result (λ lines. (o : Outside) (names : List Text) → F.files shelf.old ≡ Some o.files
        → Advanced (P.budgets program.old) o (Opening (P.program program.old).database (name.now ∷ names)) (marks_of lines)
        (Opening (P.program program.new).database names) (O.held out.old) (O.held out.new)) }
    ensures part { IfErr result (λ halt. (o : Outside) (left : Option (List ℕ)) (names : List Text) → F.files shelf.old ≡ Some o.files
        → Breaks (P.budgets program.old) o left (Opening (P.program program.old).database (name.now ∷ names)) halt (O.held out.old) (O.held out.new)) }
    ensures none_waits { OnOk result ((P.program program.new).later ≡ []) }
    ensures budgets { P.budgets program.new ≡ P.budgets program.old }
    ensures kept { P.kept program.new }
    ensures files { F.files shelf.new ≡ F.files shelf.old }
    ensures cause { (failed taken : ℕ) → CountedBy (counted (F.faults shelf.old) (F.refused shelf.old) failed taken (O.faults out.old))
        (counted (F.faults shelf.new) (F.refused shelf.new) failed taken (O.faults out.new)) result }
{
    let mut text = load(alloc, shelf, name)?;
    let (_, lines) = write_text(alloc, program, &mut text, Source::File, answers, out)?;
    let more = write_waiting(program, out)?;
    Ok(lines.and(more))
}
