// The row of each built-in predicate.

ghost use Rattle.cq_execute.specs.Rows.{IsAtGoal, IsCallOf, IsDone};

use crate::changes::{assert, clause, declare_dynamic, retract};
use crate::common::execute_common;
use crate::executed::Executed;
use crate::optima::{entailed, extent, optimum};
use crate::printing::{declare, newline, write};
use crate::steps::{quiet, quiet_or_stop};
use cq_clauses::End;
use cq_control::Continuation;
use cq_machine::offer::{offer, rows_are_replies};
use cq_machine::selected::{call_with_more, constrain, discontiguous, freeze, use_module};
use cq_machine::{
    Machine, Step, catch, findall, if_then, initialization, negation, not_unify, once, throw,
};
use cq_predicates::Predicate;
use cq_predicates::table::Builtin;
use cq_questions::Side;
use cq_store::store::StoreFault;
use cq_term::TermId;
use spec_search::predicates::predicates_are_found_by_name_and_arity;

/// Does the row of the built-in predicate that the selected goal calls.
pub(crate) fn execute_builtin(
    m: &mut Machine,
    builtin: Builtin,
    goal: TermId,
    height: usize,
    rest: Continuation,
) -> Result<Executed, StoreFault>
    requires at { IsAtGoal m.old goal height rest }
    requires calls { IsCallOf m.old goal builtin }
    ensures { IsDone m.old m.new goal height rest result }
{
    let alloc = m.world.first.heap.alloc();
    match builtin {
        Builtin::Common(common) => {
            quiet_or_stop(alloc, execute_common(m, common, goal, height, rest))
        }
        Builtin::Fail => quiet(alloc, Ok(Step::succeed_if(false, rest))),
        Builtin::IfThen => quiet(alloc, if_then(m, goal, height, rest)),
        Builtin::Not => quiet(alloc, negation(m, goal, height, rest)),
        Builtin::Call => call(m, goal, height, rest),
        Builtin::Once => quiet(alloc, once(m, goal, height, rest)),
        Builtin::Catch => quiet(alloc, catch(m, goal, height, rest)),
        Builtin::Throw => quiet(alloc, Ok(throw(m, goal))),
        Builtin::Findall => quiet(alloc, findall(m, goal, height, rest)),
        Builtin::NotUnify => quiet(alloc, not_unify(m, goal, height, rest)),
        Builtin::Predicate(predicate) => offered(m, predicate, goal, height, rest),
        Builtin::Asserta => quiet(alloc, assert(m, End::First, goal, rest)),
        Builtin::Assertz => quiet(alloc, assert(m, End::Last, goal, rest)),
        Builtin::Retract => quiet(alloc, retract(m, goal, rest)),
        Builtin::Clause => quiet(alloc, clause(m, goal, rest)),
        Builtin::Dynamic => quiet(alloc, declare_dynamic(m, goal, rest)),
        Builtin::Discontiguous => quiet(alloc, discontiguous(m, goal, rest)),
        Builtin::Initialization => quiet(alloc, initialization(m, goal, height, rest)),
        Builtin::UseModule => quiet(alloc, Ok(use_module(m, goal, rest))),
        Builtin::Op => declare(m, goal, height, rest),
        Builtin::Write(style) => write(m, style, goal, height, rest),
        Builtin::Newline => newline(m, goal, height, rest),
        Builtin::Curly => quiet_or_stop(alloc, constrain(m, goal, height, rest)),
        Builtin::Freeze => quiet(alloc, freeze(m, goal, rest)),
        Builtin::Entailed => quiet_or_stop(alloc, entailed(m, goal, rest)),
        Builtin::Sup => quiet_or_stop(alloc, extent(m, Side::Greatest, goal, rest)),
        Builtin::Inf => quiet_or_stop(alloc, extent(m, Side::Least, goal, rest)),
        Builtin::Maximize => quiet_or_stop(alloc, optimum(m, Side::Greatest, goal, rest)),
        Builtin::Minimize => quiet_or_stop(alloc, optimum(m, Side::Least, goal, rest)),
    }
}

/// `call/1` calls its argument as it is; where there are more, they are put behind its own.
fn call(
    m: &mut Machine,
    goal: TermId,
    height: usize,
    rest: Continuation,
) -> Result<Executed, StoreFault>
    requires at { IsAtGoal m.old goal height rest }
    requires calls { IsCallOf m.old goal Builtin.Call }
    ensures { IsDone m.old m.new goal height rest result }
{
    let alloc = m.world.first.heap.alloc();
    let given = m.world.first.heap.args(goal);
    if given.len() == 1 {
        quiet(alloc, cq_machine::call(m, goal, height, rest))
    } else {
        quiet(alloc, call_with_more(m, goal, rest))
    }
}

/// A predicate on terms or texts.
fn offered(
    m: &mut Machine,
    predicate: Predicate,
    goal: TermId,
    height: usize,
    rest: Continuation,
) -> Result<Executed, StoreFault>
    requires at { IsAtGoal m.old goal height rest }
    requires calls { IsCallOf m.old goal (Builtin.Predicate predicate) }
    ensures { IsDone m.old m.new goal height rest result }
{
    rows_are_replies();
    predicates_are_found_by_name_and_arity();
    let alloc = m.world.first.heap.alloc();
    quiet(alloc, offer(m, predicate, goal, rest))
}
