// The rows of control, unification and arithmetic that most goals of programs call.

ghost use Rattle.std.specs.Prelude.{◌≡◌, IfOk};
ghost use Rattle.cq_machine.specs.Machines.{StillStands};
ghost use Rattle.cq_machine.specs.Refusals.{OnRefuses};
ghost use Rattle.cq_execute.specs.Rows.{IsAtGoal, IsCallOf, IsRowDone, as_stop};
ghost use Rattle.cq_predicates.specs.declared.table.builtins.Builtin.TheVariants as table;

use cq_control::Continuation;
use cq_machine::selected::{compare, evaluate_to, unify};
use cq_machine::{Machine, Step, conjunction, cut, disjunction};
use cq_predicates::table::Common;
use cq_store::store::StoreFault;
use cq_term::TermId;
use std::alloc::AllocError;

/// Does the row of the built-in predicate that the selected goal calls.
#[inline(always)]
pub(crate) fn execute_common(
    m: &mut Machine,
    common: Common,
    goal: TermId,
    height: usize,
    rest: Continuation,
) -> Result<Step, StoreFault>
    requires at { IsAtGoal m.old goal height rest }
    requires calls { IsCallOf m.old goal (table.Common common) }
    ensures done { IsRowDone m.old m.new goal height rest result }
    ensures refuses { IfOk result (λ s. OnRefuses s (StillStands m.old m.new)) }
{
    match common {
        Common::True => Ok(Step::succeed_if(true, rest)),
        Common::And => or_stop(conjunction(m, goal, height, rest)),
        Common::Or => or_stop(disjunction(m, goal, height, rest)),
        Common::Cut => Ok(cut(m, height, rest)),
        Common::Unify => unify(m, goal, rest),
        Common::Is => evaluate_to(m, goal, rest),
        Common::Compare(comparison) => or_stop(compare(m, comparison, goal, rest)),
    }
}

/// A step that wants memory at most, as one of a query that may stop.
#[inline(always)]
fn or_stop(step: Result<Step, AllocError>) -> Result<Step, StoreFault>
    ensures { result ≡ as_stop step }
{
    match step {
        Ok(step) => Ok(step),
        Err(_) => Err(StoreFault::NoMemory),
    }
}
