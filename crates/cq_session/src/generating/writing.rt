// The line of `gen`, written.

ghost use Rattle.std.specs.Prelude.{◌≡◌, ◌<◌, ◌≤◌, false, IfOk, IfErr};
ghost use Rattle.spec_command.specs.Outcome.{GenWrites, gen_budgets, gen_search};
ghost use Rattle.cq_session.specs.Progress.{CountsWrites};
ghost use Rattle.cq_session.specs.Counting.{gen_names};
ghost use Rattle.cq_session.specs.Writing.{HasWritten, IsBroken};

use crate::generating::course::{ANSWERS, Course, run_query};
use crate::generating::interpreter::Examined;
use crate::transcript::{Halt, Lines};
use cq_outside::{Sink, write_whole};
use std::alloc::{AllocError, Global};

/// How many goals the query may select, and how many exchanges one maximisation may make.
const BUDGET: u64 = 1_000_000_000;

/// An interpreter that has begun the query of a number.
fn asked<P: Examined + Drop>(alloc: Global, number: u64) -> Result<P, AllocError>
    requires some { 0 < number }
    requires few { number ≤ 200 }
    ensures stands { IfOk result (λ p. P.stands p (gen_search number)) }
    ensures names { IfOk result (λ p. P.names p ≡ gen_names number) }
    ensures budgets { IfOk result (λ p. P.budgets p ≡ gen_budgets) }
    ensures kept { IfOk result (λ p. P.kept p) }
{
    let mut program = P::new(alloc, BUDGET, BUDGET, ANSWERS)?;
    program.examine(number)?;
    Ok(program)
}

/// What is written for a number.
fn course_of<P: Examined + Drop>(alloc: Global, number: u64) -> Result<Course, AllocError>
    requires some { 0 < number }
    requires few { number ≤ 200 }
    ensures { IfOk result (λ c. GenWrites number c.line.items c.stopped) }
{
    let mut program = asked::<P>(alloc, number)?;
    run_query(alloc, &mut program, number)
}

/// The kinds of the line.
fn lines_of(stopped: bool) -> Lines
    ensures { result ≡ record { faulty = false; stopped = stopped } }
{
    Lines {
        faulty: false,
        stopped,
    }
}

/// Writes what `gen` writes for a number: a line that is made whole before its first byte is written.
pub fn write_gen<'a, P: Examined + Drop, O: Sink>(
    alloc: Global,
    number: u64,
    out: &mut O,
) -> Result<Lines, Halt<'a>>
    requires some { 0 < number }
    requires few { number ≤ 200 }
    ensures whole { IfOk result (HasWritten number (O.held out.old) (O.held out.new)) }
    ensures part { IfErr result (IsBroken number (O.held out.old) (O.held out.new)) }
    ensures cause { CountsWrites (O.faults out.old) (O.faults out.new) result }
{
    let course = course_of::<P>(alloc, number)?;
    write_whole(out, &course.line)?;
    Ok(lines_of(course.stopped))
}
