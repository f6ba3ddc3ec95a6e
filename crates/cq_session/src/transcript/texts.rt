// The transcript of some files and of the input.

ghost use Rattle.std.specs.Prelude.{◌≡◌, ◌<◌, ◌∷◌, ℕ, List, [], Option, Some, IfOk, IfErr, OnOk, map};
ghost use Rattle.cq_words.specs.Asked.{Asked};
ghost use Rattle.spec_numbers.specs.Texts.{Text};
ghost use Rattle.spec_command.specs.Causes.{counted};
ghost use Rattle.spec_command.specs.Outside.{Outside, budgets_of, outside};
ghost use Rattle.spec_search.specs.Database.{initial};
ghost use Rattle.spec_transcript.specs.Session.{Opening};
ghost use Rattle.cq_session.specs.Breaks.{Breaks, CountedBy, FaultsCountedBy};
ghost use Rattle.cq_session.specs.Halts.{Halts, IsWhole};
ghost use Rattle.cq_session.specs.Progress.{Advanced, marks_of};

use crate::transcript::files::write_file;
use crate::transcript::halt::{Halt, Lines};
use crate::transcript::input::write_input;
use crate::transcript::interpreter::Interpreter;
use cq_outside::{Shelf, Sink, Source};
use std::alloc::Global;

/// Writes the transcript of files, each when its turn comes.
fn write_files<'a, P: Interpreter, F: Shelf, O: Sink>(
    alloc: Global,
    program: &mut P,
    files: &[&'a str],
    answers: u64,
    shelf: &mut F,
    out: &mut O,
) -> Result<Lines, Halt<'a>>
    requires kept { P.kept program.old }
    requires some { 0 < answers }
    requires answers { (P.budgets program.old).answers ≡ answers }
    requires none_waits { (P.program program.old).later ≡ [] }
    ensures whole { IfOk result (λ lines. (o : Outside) → F.files shelf.old ≡ Some o.files
        → Advanced (P.budgets program.old) o (Opening (P.program program.old).database (map (λ s. s.now) files.now)) (marks_of lines)
        (Opening (P.program program.new).database []) (O.held out.old) (O.held out.new)) }
    ensures part { IfErr result (λ halt. (o : Outside) (left : Option (List ℕ)) → F.files shelf.old ≡ Some o.files
        → Breaks (P.budgets program.old) o left (Opening (P.program program.old).database (map (λ s. s.now) files.now)) halt (O.held out.old) (O.held out.new)) }
    ensures none_waits { OnOk result ((P.program program.new).later ≡ []) }
    ensures budgets { P.budgets program.new ≡ P.budgets program.old }
    ensures kept { P.kept program.new }
    ensures unread { files.now ≡ [] → shelf.new ≡ shelf.old }
    ensures cause { (failed taken : ℕ) → CountedBy (counted (F.faults shelf.old) (F.refused shelf.old) failed taken (O.faults out.old))
        (counted (F.faults shelf.new) (F.refused shelf.new) failed taken (O.faults out.new)) result }
{
    let mut lines = Lines::none();
    for name in files {
        let more = write_file(alloc, program, *name, answers, shelf, out)?;
        lines = lines.and(more);
    }
    Ok(lines)
}

/// Writes the transcript of files and of the input: the files in order, each when its turn comes, and then the queries of the
/// input, each before more of the input is read.
pub fn write_transcript<'a, P: Interpreter, F: Shelf, I: Source, O: Sink>(
    alloc: Global,
    program: &mut P,
    files: &[&'a str],
    answers: u64,
    shelf: &mut F,
    input: &mut I,
    out: &mut O,
) -> Result<Lines, Halt<'a>>
    requires kept { P.kept program.old }
    requires some { 0 < answers }
    requires new { P.program program.old ≡ record { database = initial; later = [] } }
    requires answers { (P.budgets program.old).answers ≡ answers }
    ensures whole { IfOk result (λ lines. (o : Outside) (a : Asked) → outside (F.files shelf.old) (I.left input.old) ≡ Some o
        → P.budgets program.old ≡ budgets_of a → a.files ≡ map (λ s. s.now) files.now
        → IsWhole o a (I.left input.new) (marks_of lines) (O.held out.old) (O.held out.new)) }
    ensures part { IfErr result (λ halt. (o : Outside) (a : Asked) → outside (F.files shelf.old) (I.left input.old) ≡ Some o
        → P.budgets program.old ≡ budgets_of a → a.files ≡ map (λ s. s.now) files.now
        → Halts o a (I.left input.new) halt (O.held out.old) (O.held out.new)) }
    ensures cause { FaultsCountedBy
        (counted (F.faults shelf.old) (F.refused shelf.old) (I.faults input.old) (I.taken input.old) (O.faults out.old))
        (counted (F.faults shelf.new) (F.refused shelf.new) (I.faults input.new) (I.taken input.new) (O.faults out.new)) result }
    ensures unread { files.now ≡ [] → shelf.new ≡ shelf.old }
{
    let before = write_files(alloc, program, files, answers, shelf, out)?;
    let behind = write_input(alloc, program, answers, input, out)?;
    Ok(before.and(behind))
}
