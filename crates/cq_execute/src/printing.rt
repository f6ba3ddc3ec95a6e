// Rows of output and of operators: the goal goes on behind itself.

ghost use Rattle.cq_execute.specs.Rows.{IsAtGoal, IsCallOf, IsDone};
ghost use Rattle.cq_predicates.specs.declared.table.builtins.Builtin.TheVariants as table;

use crate::executed::Executed;
use crate::steps::silent;
use cq_built::BuiltinFault;
use cq_control::Continuation;
use cq_machine::{Machine, Step};
use cq_store::store::StoreFault;
use cq_term::TermId;
use cq_write::Style;

/// `write(T)` and `writeq(T)`.
pub(crate) fn write(
    m: &mut Machine,
    style: Style,
    goal: TermId,
    height: usize,
    rest: Continuation,
) -> Result<Executed, StoreFault>
    requires at { IsAtGoal m.old goal height rest }
    requires calls { IsCallOf m.old goal (table.Write style) }
    ensures { IsDone m.old m.new goal height rest result }
{
    match cq_machine::write(m, style, goal) {
        Ok(output) => Ok(Executed {
            step: Step::Goes(rest),
            output,
        }),
        Err(_) => Err(StoreFault::NoMemory),
    }
}

/// `nl`.
pub(crate) fn newline(
    m: &mut Machine,
    goal: TermId,
    height: usize,
    rest: Continuation,
) -> Result<Executed, StoreFault>
    requires at { IsAtGoal m.old goal height rest }
    requires calls { IsCallOf m.old goal table.Newline }
    ensures { IsDone m.old m.new goal height rest result }
{
    match cq_machine::newline(m) {
        Ok(output) => Ok(Executed {
            step: Step::Goes(rest),
            output,
        }),
        Err(_) => Err(StoreFault::NoMemory),
    }
}

/// `op(P,K,N)`.
pub(crate) fn declare(
    m: &mut Machine,
    goal: TermId,
    height: usize,
    rest: Continuation,
) -> Result<Executed, StoreFault>
    requires at { IsAtGoal m.old goal height rest }
    requires calls { IsCallOf m.old goal table.Op }
    ensures { IsDone m.old m.new goal height rest result }
{
    let alloc = m.world.first.heap.alloc();
    match cq_machine::declare(m, goal) {
        Ok(()) => Ok(silent(alloc, Step::Goes(rest))),
        Err(fault) => match fault {
            BuiltinFault::Error(error) => Ok(silent(alloc, Step::Raises(error))),
            BuiltinFault::NoMemory => Err(StoreFault::NoMemory),
        },
    }
}
