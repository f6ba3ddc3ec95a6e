// The course of a query: how many answers come, and the value in the last of them.

ghost use Rattle.std.specs.Prelude.{◌≡◌, [], true, false, IfOk};
ghost use Rattle.spec_search.specs.Search.{Search};
ghost use Rattle.spec_command.specs.Outcome.{GenFrom, gen_budgets, gen_line};
ghost use Rattle.cq_session.specs.Counting.{gen_names};

use crate::generating::interpreter::Examined;
use crate::generating::line::line_of;
use crate::transcript::Event;
use std::alloc::{AllocError, Global};

/// How many answers may come.
pub(crate) const ANSWERS: u64 = 10;

/// What is written of a query.
#[derive(Drop)]
pub(crate) struct Course {
    pub line: Vec<u8>,
    pub stopped: bool,
}

/// The line of a query that is over.
fn over(alloc: Global, number: u64, value: &[u8], answers: u64) -> Result<Course, AllocError>
    ensures line { IfOk result (λ c. c.line.items ≡ gen_line number value.now answers) }
    ensures stopped { IfOk result (λ c. c.stopped ≡ false) }
{
    let line = line_of(alloc, number, value, answers)?;
    Ok(Course {
        line,
        stopped: false,
    })
}

/// The line of a query that stops.
fn stopping(alloc: Global, text: &[u8]) -> Result<Course, AllocError>
    ensures line { IfOk result (λ c. c.line.items ≡ text.now) }
    ensures stopped { IfOk result (λ c. c.stopped ≡ true) }
{
    let mut line = Vec::new(alloc);
    line.extend_from_slice(text)?;
    Ok(Course {
        line,
        stopped: true,
    })
}

/// Runs the query that was begun to its end, or to the last answer that is allowed. What its goals write is not shown.
pub(crate) fn run_query<P: Examined>(
    alloc: Global,
    program: &mut P,
    number: u64,
) -> Result<Course, AllocError>
    requires kept { P.kept program.old }
    requires runs { (s : Search) × P.stands program.old s }
    requires named { P.names program.old ≡ gen_names number }
    requires budgets { P.budgets program.old ≡ gen_budgets }
    ensures { IfOk result (λ c. (s : Search) → P.stands program.old s → GenFrom gen_budgets number c.line.items c.stopped 0 [] s) }
{
    let mut answers = 0;
    let mut value = Vec::new(alloc);
    'events: loop {
        match program.next()? {
            Event::Wrote(_text) => {}
            Event::Answer => {
                value = program.value(number)?;
                answers += 1;
                if answers == ANSWERS {
                    return over(alloc, number, &value, answers);
                }
            }
            Event::Fail => return over(alloc, number, &value, answers),
            Event::Ball(_line) => return over(alloc, number, &value, answers),
            Event::Stop(line) => return stopping(alloc, line),
        }
    }
}
