// The goals that most goals of a program are, calls of user predicates, control and arithmetic, with a result of a few bytes.

ghost use Rattle.std.specs.Prelude.{◌≡◌, ◌<◌, length};
ghost use Rattle.cq_machine.specs.Machines.{terms, IsSound};
ghost use Rattle.cq_machine.specs.Stops.{IsSelectedFrom};
ghost use Rattle.cq_execute.specs.Callees.{CallsProcedure};
ghost use Rattle.cq_execute.specs.Rows.{IsAtGoal, IsCallOf, as_step, as_stop};
ghost use Rattle.cq_execute.specs.Small.{IsSmall, IsSmallDone, as_went};
ghost use Rattle.cq_term.specs.declared.names.Pred.{Pred as Predicate};

use crate::common::execute_common;
use crate::execution::{Callee, find_callee};
use cq_branch::selected_goals_lead;
use cq_calls::Called;
use cq_control::Continuation;
use cq_machine::selected::call_procedure;
use cq_machine::{Machine, Step};
use cq_predicates::table::Builtin;
use cq_store::store::StoreFault;
use cq_term::{Pred, TermId};
use std::alloc::AllocError;

/// What a goal came to, or that it is to be executed as any other.
#[derive(Clone, Copy)]
pub enum Went {
    /// The engine goes on with a continuation.
    Goes(Continuation),
    /// The engine comes back to its newest choice.
    Back,
    /// The goal raises an error, or its query stops: `execute` says which. The machine stands for what it stood for.
    Refused,
    /// The goal calls this built-in predicate, whose row is another, and nothing was done.
    Row(Builtin),
}

/// Executes the selected goal, as `execute` does, if it calls a user predicate, or is one of control or arithmetic that most
/// programs use. An error is want of memory.
#[inline(always)]
pub fn execute_small(
    m: &mut Machine,
    goal: TermId,
    height: usize,
    rest: Continuation,
) -> Result<Went, AllocError>
    requires sound { IsSound m.old }
    requires selected { IsSelectedFrom m.old goal height rest }
    ensures { IsSmallDone m.old m.new goal height rest result }
{
    selected_goals_lead();
    match find_callee(m, goal) {
        Callee::Builtin(builtin) => execute_row(m, builtin, goal, height, rest),
        Callee::Procedure(predicate) => execute_procedure(m, predicate, goal, height, rest),
        Callee::Nothing => Ok(Went::Refused),
    }
}

/// The same of a goal that calls a user predicate.
#[inline(always)]
fn execute_procedure(
    m: &mut Machine,
    predicate: Pred,
    goal: TermId,
    height: usize,
    rest: Continuation,
) -> Result<Went, AllocError>
    requires at { IsAtGoal m.old goal height rest }
    requires calls { CallsProcedure m.old goal predicate }
    ensures { IsSmallDone m.old m.new goal height rest result }
{
    called(call_procedure(m, predicate, goal, rest))
}

/// The same of a goal that calls a built-in predicate.
fn execute_row(
    m: &mut Machine,
    builtin: Builtin,
    goal: TermId,
    height: usize,
    rest: Continuation,
) -> Result<Went, AllocError>
    requires at { IsAtGoal m.old goal height rest }
    requires calls { IsCallOf m.old goal builtin }
    ensures { IsSmallDone m.old m.new goal height rest result }
{
    match builtin {
        Builtin::Common(common) => small(execute_common(m, common, goal, height, rest)),
        _ => Ok(Went::Row(builtin)),
    }
}

/// What the call of a user predicate came to: it is an error that there is no such procedure.
#[inline(always)]
fn called(found: Result<Called, AllocError>) -> Result<Went, AllocError>
    ensures { (predicate : Predicate) → IsSmall (as_stop (as_step predicate found)) result }
{
    match found {
        Ok(found) => match found {
            Called::Goes(k) => Ok(Went::Goes(k)),
            Called::Back => Ok(Went::Back),
            Called::Unknown => Ok(Went::Refused),
        },
        Err(fault) => Err(fault),
    }
}

/// What a step came to that shows nothing.
#[inline(always)]
fn outcome_of(step: Step) -> Went
    ensures { result ≡ as_went step }
{
    match step {
        Step::Goes(k) => Went::Goes(k),
        Step::Back => Went::Back,
        Step::Raises(_) => Went::Refused,
        Step::Throws(_) => Went::Refused,
        Step::Refuses(_) => Went::Refused,
    }
}

/// The same, where a query may stop.
#[inline(always)]
fn small(step: Result<Step, StoreFault>) -> Result<Went, AllocError>
    ensures { IsSmall step result }
{
    match step {
        Ok(step) => Ok(outcome_of(step)),
        Err(StoreFault::Overflow(_)) => Ok(Went::Refused),
        Err(StoreFault::Pivots(_)) => Ok(Went::Refused),
        Err(StoreFault::NoMemory) => Err(AllocError),
    }
}
