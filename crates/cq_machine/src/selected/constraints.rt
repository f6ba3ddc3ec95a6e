// The row of a goal that tells constraints.

ghost use Rattle.std.specs.Prelude.{◌≡◌, ◌<◌, length, IfOk, IfErr, OnErr};
ghost use Rattle.spec_search.specs.Builtins.{Curly};
ghost use Rattle.cq_term.specs.Meaning.{at};
ghost use Rattle.cq_term.specs.Shown.{arguments};
ghost use Rattle.cq_machine.specs.Machines.{terms, IsSound, HasSameProgram, StillStands};
ghost use Rattle.cq_machine.specs.Stepping.{row_of, LeadsTo, CanGo, OnRaises};
ghost use Rattle.cq_machine.specs.Stops.{IsSelectedFrom, StopsAt};

use crate::{Machine, Step};
use cq_branch::begin::Begun;
use cq_control::Continuation;
use cq_goals::GoalFault;
use cq_relations::RelationFault;
use cq_store::store::StoreFault;
use cq_term::TermId;

/// `{C}`.
pub fn constrain(
    m: &mut Machine,
    goal: TermId,
    height: usize,
    rest: Continuation,
) -> Result<Step, StoreFault>
    requires sound { IsSound m.old }
    requires selected { IsSelectedFrom m.old goal height rest }
    requires goal { goal < length (terms m.old) }
    requires one { length (arguments (at (terms m.old) goal)) ≡ 1 }
    requires rest { rest < length m.old.world.second.now }
    ensures row { IfOk result (LeadsTo m.old m.new goal height rest (row_of Curly)) }
    ensures stop { IfErr result (StopsAt m.old goal height rest (row_of Curly)) }
    ensures goes { IfOk result (CanGo m.new) }
    ensures raises { IfOk result (λ s. OnRaises s (StillStands m.old m.new)) }
    ensures sound { IsSound m.new }
    ensures program { HasSameProgram m.old m.new }
    ensures err { OnErr result (StillStands m.old m.new) }
{
    let constraint = m.world.first.heap.arg(goal, 0);
    let curly = m.names.curly;
    match cq_relations::constrain(
        &mut m.world,
        &mut m.choices,
        &m.atoms,
        curly,
        constraint,
        height,
        rest,
    ) {
        Ok(begun) => match begun {
            Begun::Goes(first) => Ok(Step::Goes(first)),
            Begun::Pruned => Ok(Step::Back),
        },
        Err(fault) => match fault {
            RelationFault::Goal(refusal) => match refusal {
                GoalFault::Error(error) => Ok(Step::Raises(error)),
                GoalFault::Overflow(pair) => Ok(Step::Refuses(pair)),
                GoalFault::NoMemory => Err(StoreFault::NoMemory),
            },
            RelationFault::Settling(stop) => Err(stop),
        },
    }
}
