// The rows of goals that make terms equal, compare values and put goals to sleep.

ghost use Rattle.std.specs.Prelude.{◌≡◌, ◌<◌, ℕ, length, IfOk, IfErr, OnErr};
ghost use Rattle.spec_search.specs.Builtins.{Unify, Is, Compare, Freeze};
ghost use Rattle.cq_builtin.specs.Rows.{comparison_of};
ghost use Rattle.cq_term.specs.Meaning.{at};
ghost use Rattle.cq_term.specs.Shown.{arguments};
ghost use Rattle.cq_machine.specs.Machines.{terms, IsSound, HasSameProgram, StillStands};
ghost use Rattle.cq_machine.specs.Stepping.{row_of, IsSelectedSomewhere, LeadsTo, CanGo, OnRaises};
ghost use Rattle.cq_machine.specs.Refusals.{OnRefuses};
ghost use Rattle.cq_machine.specs.Stops.{StopsAt};

use crate::{Machine, Step};
use cq_branch::begin::Begun;
use cq_builtin::Comparison;
use cq_control::Continuation;
use cq_goals::GoalFault;
use cq_relations::RelationFault;
use cq_store::store::StoreFault;
use cq_term::TermId;
use cq_term::walk::Pair;
use std::alloc::AllocError;

/// `A = B`.
pub fn unify(m: &mut Machine, goal: TermId, rest: Continuation) -> Result<Step, StoreFault>
    requires sound { IsSound m.old }
    requires selected { IsSelectedSomewhere m.old goal rest }
    requires goal { goal < length (terms m.old) }
    requires two { length (arguments (at (terms m.old) goal)) ≡ 2 }
    requires rest { rest < length m.old.world.second.now }
    ensures row { IfOk result (λ s. (height : ℕ) → LeadsTo m.old m.new goal height rest (row_of Unify) s) }
    ensures stop { IfErr result (λ f. (height : ℕ) → StopsAt m.old goal height rest (row_of Unify) f) }
    ensures goes { IfOk result (CanGo m.new) }
    ensures sound { IsSound m.new }
    ensures program { HasSameProgram m.old m.new }
    ensures err { OnErr result (StillStands m.old m.new) }
{
    let left = m.world.first.heap.arg(goal, 0);
    let right = m.world.first.heap.arg(goal, 1);
    let pairs = [Pair { left, right }];
    let world = &mut m.world;
    match cq_branch::begin::unify(&mut world.first, &mut world.second, &m.atoms, &pairs, rest) {
        Ok(begun) => match begun {
            Begun::Goes(first) => Ok(Step::Goes(first)),
            Begun::Pruned => Ok(Step::Back),
        },
        Err(fault) => Err(fault),
    }
}

/// `X is E`.
#[inline(always)]
pub fn evaluate_to(m: &mut Machine, goal: TermId, rest: Continuation) -> Result<Step, StoreFault>
    requires sound { IsSound m.old }
    requires selected { IsSelectedSomewhere m.old goal rest }
    requires goal { goal < length (terms m.old) }
    requires two { length (arguments (at (terms m.old) goal)) ≡ 2 }
    requires rest { rest < length m.old.world.second.now }
    ensures row { IfOk result (λ s. (height : ℕ) → LeadsTo m.old m.new goal height rest (row_of Is) s) }
    ensures stop { IfErr result (λ f. (height : ℕ) → StopsAt m.old goal height rest (row_of Is) f) }
    ensures goes { IfOk result (CanGo m.new) }
    ensures raises { IfOk result (λ s. OnRaises s (StillStands m.old m.new)) }
    ensures refuses { IfOk result (λ s. OnRefuses s (StillStands m.old m.new)) }
    ensures sound { IsSound m.new }
    ensures program { HasSameProgram m.old m.new }
    ensures err { OnErr result (StillStands m.old m.new) }
{
    let left = m.world.first.heap.arg(goal, 0);
    let right = m.world.first.heap.arg(goal, 1);
    let world = &mut m.world;
    match cq_relations::evaluate_to(
        &mut world.first,
        &mut world.second,
        &m.atoms,
        left,
        right,
        rest,
    ) {
        Ok(begun) => match begun {
            Begun::Goes(first) => Ok(Step::Goes(first)),
            Begun::Pruned => Ok(Step::Back),
        },
        Err(fault) => match fault {
            RelationFault::Goal(refusal) => match refusal {
                GoalFault::Error(error) => Ok(Step::Raises(error)),
                GoalFault::Overflow(pair) => Ok(Step::Refuses(pair)),
                GoalFault::NoMemory => Err(StoreFault::NoMemory),
            },
            RelationFault::Settling(stop) => Err(stop),
        },
    }
}

/// A comparison of the values of two expressions.
#[inline(always)]
pub fn compare(
    m: &Machine,
    comparison: Comparison,
    goal: TermId,
    rest: Continuation,
) -> Result<Step, AllocError>
    requires sound { IsSound m.now }
    requires goal { goal < length (terms m.now) }
    requires two { length (arguments (at (terms m.now) goal)) ≡ 2 }
    requires rest { rest < length m.now.world.second.now }
    ensures row { IfOk result (λ s. (height : ℕ) → LeadsTo m.now m.now goal height rest (row_of (Compare (comparison_of comparison))) s) }
    ensures goes { IfOk result (CanGo m.now) }
{
    let left = m.world.first.heap.arg(goal, 0);
    let right = m.world.first.heap.arg(goal, 1);
    match cq_relations::compare(&m.world.first, &m.atoms, comparison, left, right) {
        Ok(holds) => Ok(Step::succeed_if(holds, rest)),
        Err(fault) => match fault {
            GoalFault::Error(error) => Ok(Step::Raises(error)),
            GoalFault::Overflow(pair) => Ok(Step::Refuses(pair)),
            GoalFault::NoMemory => Err(AllocError),
        },
    }
}

/// `freeze(X,G)`.
pub fn freeze(m: &mut Machine, goal: TermId, rest: Continuation) -> Result<Step, AllocError>
    requires sound { IsSound m.old }
    requires selected { IsSelectedSomewhere m.old goal rest }
    requires goal { goal < length (terms m.old) }
    requires two { length (arguments (at (terms m.old) goal)) ≡ 2 }
    requires rest { rest < length m.old.world.second.now }
    ensures row { IfOk result (λ s. (height : ℕ) → LeadsTo m.old m.new goal height rest (row_of Freeze) s) }
    ensures goes { IfOk result (CanGo m.new) }
    ensures sound { IsSound m.new }
    ensures program { HasSameProgram m.old m.new }
    ensures err { OnErr result (StillStands m.old m.new) }
{
    let variable = m.world.first.heap.arg(goal, 0);
    let asleep = m.world.first.heap.arg(goal, 1);
    let world = &mut m.world;
    let k = cq_relations::freeze(&mut world.first, &mut world.second, variable, asleep, rest)?;
    Ok(Step::Goes(k))
}
