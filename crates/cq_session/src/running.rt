// A run of the command.

ghost use Rattle.std.specs.Prelude.{◌≡◌, ◌<◌, ◌≤◌, ℕ, [], None, Some, IfOk, IfErr, IfSome};
ghost use Rattle.cq_words.specs.Asked.{ToGen, as_asked};
ghost use Rattle.cq_words.specs.Language.{asked_by};
ghost use Rattle.cq_session.specs.Breaks.{FaultsCountedBy};
ghost use Rattle.cq_session.specs.Halts.{Halts, IsWhole as IsWholeTranscript};
ghost use Rattle.cq_session.specs.Progress.{marks_of};
ghost use Rattle.spec_command.specs.Causes.{Caused, IsClear, IsWhole, counted};
ghost use Rattle.spec_command.specs.Endings.{Ended, GenEnded, Tells, sinks};
ghost use Rattle.spec_command.specs.Generated.{IsGenClear};
ghost use Rattle.spec_command.specs.Limits.{AreLimits};
ghost use Rattle.spec_command.specs.Outside.{outside};
ghost use Rattle.cq_session.specs.Outcomes.{GenShows, IfRun, NamesNoFile, Shows, fault_ending, status_of};

use crate::ending::{Ending, status_of, tell, without_words};
use crate::generating::{Examined, write_gen};
use crate::transcript::{Halt, Interpreter, Lines, write_transcript};
use cq_outside::{Shelf, Sink, Source};
use cq_words::{Run, Task, WordsFault, read_words};
use spec_command::endings::{Status, completeness_follows};
use std::alloc::Global;

/// Writes the transcript that is asked for.
fn transcribe<'a, P: Interpreter + Drop, F: Shelf, I: Source, O: Sink>(
    alloc: Global,
    asked: &Run<'a>,
    shelf: &mut F,
    input: &mut I,
    out: &mut O,
) -> Result<Lines, Halt<'a>>
    requires { 0 < asked.now.answers }
    ensures whole { IfOk result (λ lines. IfSome (outside (F.files shelf.old) (I.left input.old)) (λ o.
        IsWholeTranscript o (as_asked asked.now) (I.left input.new) (marks_of lines) (O.held out.old) (O.held out.new))) }
    ensures part { IfErr result (λ halt. IfSome (outside (F.files shelf.old) (I.left input.old)) (λ o.
        Halts o (as_asked asked.now) (I.left input.new) halt (O.held out.old) (O.held out.new))) }
    ensures cause { FaultsCountedBy
        (counted (F.faults shelf.old) (F.refused shelf.old) (I.faults input.old) (I.taken input.old) (O.faults out.old))
        (counted (F.faults shelf.new) (F.refused shelf.new) (I.faults input.new) (I.taken input.new) (O.faults out.new)) result }
    ensures unasked { (as_asked asked.now).files ≡ [] → shelf.new ≡ shelf.old }
{
    let mut program = match P::new(alloc, asked.steps, asked.pivots, asked.answers) {
        Ok(program) => program,
        Err(_) => return Err(Halt::Memory),
    };
    write_transcript(
        alloc,
        &mut program,
        &asked.files,
        asked.answers,
        shelf,
        input,
        out,
    )
}

/// Writes the line of a number's query.
fn generate<'a, P: Examined + Drop, O: Sink>(alloc: Global, number: u64, out: &mut O) -> Ending<'a>
    requires some { 0 < number }
    requires few { number ≤ 200 }
    ensures shows { GenShows number result (O.held out.old) (O.held out.new) }
    ensures cause { (absent refused failed taken : ℕ) → Caused (status_of result) (Some (ToGen number))
        (counted absent refused failed taken (O.faults out.old)) (counted absent refused failed taken (O.faults out.new)) }
{
    match write_gen::<P, O>(alloc, number, out) {
        Ok(lines) => Ending::Whole(lines),
        Err(halt) => Ending::Broken(halt),
    }
}

/// Does what the words ask for.
fn answer<'a, P: Examined + Drop, F: Shelf, I: Source, O: Sink>(
    alloc: Global,
    words: &'a [String],
    shelf: &mut F,
    input: &mut I,
    out: &mut O,
) -> Ending<'a>
    ensures shows { IfSome (outside (F.files shelf.old) (I.left input.old))
        (λ o. Shows o (I.left input.new) (asked_by words.now) result (O.held out.old) (O.held out.new)) }
    ensures cause { Caused (status_of result) (asked_by words.now)
        (counted (F.faults shelf.old) (F.refused shelf.old) (I.faults input.old) (I.taken input.old) (O.faults out.old))
        (counted (F.faults shelf.new) (F.refused shelf.new) (I.faults input.new) (I.taken input.new) (O.faults out.new)) }
    ensures unread { asked_by words.now ≡ None → (shelf.new ≡ shelf.old) × (input.new ≡ input.old) × (out.new ≡ out.old) }
    ensures unasked { IfSome (asked_by words.now) (λ t. NamesNoFile t → shelf.new ≡ shelf.old) }
    ensures generates { (n : ℕ) → asked_by words.now ≡ Some (ToGen n) → GenShows n result (O.held out.old) (O.held out.new) }
    ensures alone { (n : ℕ) → asked_by words.now ≡ Some (ToGen n) → (shelf.new ≡ shelf.old) × (input.new ≡ input.old) }
{
    let task = match read_words(alloc, words) {
        Ok(task) => task,
        Err(fault) => return without_words(fault),
    };
    match task {
        Task::Run(asked) => match transcribe::<P, F, I, O>(alloc, &asked, shelf, input, out) {
            Ok(lines) => Ending::Whole(lines),
            Err(halt) => Ending::Broken(halt),
        },
        Task::Gen(number) => generate::<P, O>(alloc, number, out),
    }
}

/// Runs the command that the words ask for, the program's name first: `run` consults files and answers the queries of the input, by
/// an interpreter of this type, and writes their transcript to `out`; `gen` asks an interpreter of this type the query of a number, and
/// writes its line. A status that has a line writes it to `err`; a fault of `err` is passed over.
pub fn run<P: Examined + Drop, F: Shelf, I: Source, O: Sink, E: Sink>(
    alloc: Global,
    words: &[String],
    shelf: &mut F,
    input: &mut I,
    out: &mut O,
    err: &mut E,
) -> Status
    // Where files and input are told, one transcript of them shows the status, what was written to `out`, and the line on `err`.
    ensures text { IfSome (outside (F.files shelf.old) (I.left input.old))
        (λ o. Ended o (I.left input.new) (asked_by words.now) result (O.held out.old) (O.held out.new)
        (sinks (E.held err.old) (E.held err.new) (E.faults err.old) (E.faults err.new))) }

    // What the status says of the words and of the counts, whatever is told.
    ensures cause { Caused result (asked_by words.now)
        (counted (F.faults shelf.old) (F.refused shelf.old) (I.faults input.old) (I.taken input.old) (O.faults out.old))
        (counted (F.faults shelf.new) (F.refused shelf.new) (I.faults input.new) (I.taken input.new) (O.faults out.new)) }

    ensures line { Tells result (sinks (E.held err.old) (E.held err.new) (E.faults err.old) (E.faults err.new)) }

    // Words outside the command's language read and write nothing, and without a file's name the shelf is not asked.
    ensures unread { asked_by words.now ≡ None → (shelf.new ≡ shelf.old) × (input.new ≡ input.old) × (out.new ≡ out.old) }
    ensures unasked { IfSome (asked_by words.now) (λ t. NamesNoFile t → shelf.new ≡ shelf.old) }

    // Where nothing stands in the way, the transcript is whole, unless memory is wanting.
    ensures complete { IfSome (outside (F.files shelf.old) (I.left input.old)) (λ o. IfSome (asked_by words.now) (λ t. IfRun t (λ a. IsClear o a
        (counted (F.faults shelf.old) (F.refused shelf.old) (I.faults input.old) (I.taken input.old) (O.faults out.old))
        (counted (F.faults shelf.new) (F.refused shelf.new) (I.faults input.new) (I.taken input.new) (O.faults out.new))
        → IsWhole result))) }

    // What `gen` writes is its one line, or a beginning of it; it reads nothing; and its line is whole where nothing stands in its way.
    ensures generates { (n : ℕ) → asked_by words.now ≡ Some (ToGen n) → GenEnded n result (O.held out.old) (O.held out.new)
        (sinks (E.held err.old) (E.held err.new) (E.faults err.old) (E.faults err.new)) }
    ensures alone { (n : ℕ) → asked_by words.now ≡ Some (ToGen n) → (shelf.new ≡ shelf.old) × (input.new ≡ input.old) }
    ensures generates_whole { (n : ℕ) → asked_by words.now ≡ Some (ToGen n) → IsGenClear n (O.faults out.old) (O.faults out.new) → IsWhole result }

    // The numbers that the clauses above take from the code.
    ensures limits { AreLimits }
{
    completeness_follows();
    let how = answer::<P, F, I, O>(alloc, words, shelf, input, out);
    tell(err, how);
    status_of(how)
}

/// Ends a run whose words could not be read: writes the line of its status to `err`.
pub fn run_without_words<E: Sink>(fault: WordsFault, err: &mut E) -> Status
    ensures status { result ≡ status_of (fault_ending fault) }
    ensures line { Tells result (sinks (E.held err.old) (E.held err.new) (E.faults err.old) (E.faults err.new)) }
{
    let how = without_words(fault);
    tell(err, how);
    status_of(how)
}
