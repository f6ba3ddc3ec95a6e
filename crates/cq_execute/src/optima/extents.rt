// The rows of goals that ask how far an expression reaches, and of those that tell that it has its least or greatest value.

ghost use Rattle.std.specs.Prelude.{◌≡◌, ◌<◌, length, IfOk, IfErr, OnErr};
ghost use Rattle.spec_search.specs.Builtins.{Extent, Optimum};
ghost use Rattle.cq_questions.specs.Extents.{side_of};
ghost use Rattle.cq_term.specs.Meaning.{at};
ghost use Rattle.cq_term.specs.Shown.{arguments};
ghost use Rattle.cq_machine.specs.Machines.{terms, IsSound, HasSameProgram, StillStands};
ghost use Rattle.cq_machine.specs.Stepping.{row_of, IsSelectedSomewhere, CanGo, OnRaises};
ghost use Rattle.cq_execute.specs.Asked.{TakesStep, StopsStep};

use crate::optima::telling::{equal_to, tell_value};
use crate::optima::values::{Valued, value_at};
use cq_branch::goals_succeed_or_fail;
use cq_control::Continuation;
use cq_machine::{Machine, Step};
use cq_questions::Side;
use cq_store::store::StoreFault;
use cq_term::TermId;

/// `sup(E,S)` and `inf(E,I)`: the value of E at the side is made equal to the other argument.
pub fn extent(
    m: &mut Machine,
    side: Side,
    goal: TermId,
    rest: Continuation,
) -> Result<Step, StoreFault>
    requires sound { IsSound m.old }
    requires selected { IsSelectedSomewhere m.old goal rest }
    requires goal { goal < length (terms m.old) }
    requires two { length (arguments (at (terms m.old) goal)) ≡ 2 }
    requires rest { rest < length m.old.world.second.now }
    ensures row { IfOk result (TakesStep m.old m.new goal rest (row_of (Extent (side_of side)))) }
    ensures stop { IfErr result (StopsStep m.old goal rest (row_of (Extent (side_of side)))) }
    ensures goes { IfOk result (CanGo m.new) }
    ensures raises { IfOk result (λ s. OnRaises s (StillStands m.old m.new)) }
    ensures sound { IsSound m.new }
    ensures program { HasSameProgram m.old m.new }
    ensures err { OnErr result (StillStands m.old m.new) }
{
    goals_succeed_or_fail();
    let expression = m.world.first.heap.arg(goal, 0);
    let value = m.world.first.heap.arg(goal, 1);
    match value_at(m, side, expression) {
        Ok(found) => match found {
            Valued::Value(number) => equal_to(m, value, number, rest),
            Valued::Nothing => Ok(Step::Back),
            Valued::Raises(error) => Ok(Step::Raises(error)),
        },
        Err(fault) => Err(fault),
    }
}

/// `minimize(E)` and `maximize(E)`: that E has its value at the side is told.
pub fn optimum(
    m: &mut Machine,
    side: Side,
    goal: TermId,
    rest: Continuation,
) -> Result<Step, StoreFault>
    requires sound { IsSound m.old }
    requires selected { IsSelectedSomewhere m.old goal rest }
    requires goal { goal < length (terms m.old) }
    requires one { length (arguments (at (terms m.old) goal)) ≡ 1 }
    requires rest { rest < length m.old.world.second.now }
    ensures row { IfOk result (TakesStep m.old m.new goal rest (row_of (Optimum (side_of side)))) }
    ensures stop { IfErr result (StopsStep m.old goal rest (row_of (Optimum (side_of side)))) }
    ensures goes { IfOk result (CanGo m.new) }
    ensures raises { IfOk result (λ s. OnRaises s (StillStands m.old m.new)) }
    ensures sound { IsSound m.new }
    ensures program { HasSameProgram m.old m.new }
    ensures err { OnErr result (StillStands m.old m.new) }
{
    goals_succeed_or_fail();
    let expression = m.world.first.heap.arg(goal, 0);
    match value_at(m, side, expression) {
        Ok(found) => match found {
            Valued::Value(number) => tell_value(m, expression, number, rest),
            Valued::Nothing => Ok(Step::Back),
            Valued::Raises(error) => Ok(Step::Raises(error)),
        },
        Err(fault) => Err(fault),
    }
}
