// The rows of control, by the arguments of the selected goal.

ghost use Rattle.std.specs.Prelude.{◌≡◌, ◌<◌, [], ℕ, List, length, IfOk, OnErr};
ghost use Rattle.spec_syntax.specs.Trees.{Tree};
ghost use Rattle.spec_branch.specs.Branch.{Branch};
ghost use Rattle.spec_builtins.specs.Terms as builtins;
ghost use Rattle.spec_search.specs.Control.{and_row, or_row, if_then_row, cut_row, not_row, call_row};
ghost use Rattle.spec_search.specs.Replies.{Place};
ghost use Rattle.spec_search.specs.Rows.{nth};
ghost use Rattle.cq_term.specs.Meaning.{at};
ghost use Rattle.cq_term.specs.Shown.{arguments};
ghost use Rattle.cq_machine.specs.Machines.{terms, IsSound, HasSameProgram, StillStands};
ghost use Rattle.cq_machine.specs.Stepping.{IsSelectedAt, IsStep, CanGo, OnRaises};

use crate::machine::Machine;
use crate::step::Step;
use cq_built::BuiltinFault;
use cq_control::Continuation;
use cq_term::TermId;
use std::alloc::AllocError;

/// `A,B`.
#[inline(always)]
pub fn conjunction(
    m: &mut Machine,
    goal: TermId,
    height: usize,
    rest: Continuation,
) -> Result<Step, AllocError>
    requires sound { IsSound m.old }
    requires goal { goal < length (terms m.old) }
    requires two { length (arguments (at (terms m.old) goal)) ≡ 2 }
    requires rest { rest < length m.old.world.second.now }
    ensures row { IfOk result (λ s. (p : Place) (behind : List Branch) (g : Tree) → IsSelectedAt m.old goal height rest p behind g
        → IsStep m.new s p behind (and_row p (nth (builtins.arguments g) 0) (nth (builtins.arguments g) 1))) }
    ensures goes { IfOk result (CanGo m.new) }
    ensures sound { IsSound m.new }
    ensures program { HasSameProgram m.old m.new }
    ensures err { OnErr result (StillStands m.old m.new) }
{
    let left = m.world.first.heap.arg(goal, 0);
    let right = m.world.first.heap.arg(goal, 1);
    let k = cq_branch::and(&mut m.world, left, right, height, rest)?;
    Ok(Step::Goes(k))
}

/// `A;B`, also where A is `C->T`.
pub fn disjunction(
    m: &mut Machine,
    goal: TermId,
    height: usize,
    rest: Continuation,
) -> Result<Step, AllocError>
    requires sound { IsSound m.old }
    requires goal { goal < length (terms m.old) }
    requires two { length (arguments (at (terms m.old) goal)) ≡ 2 }
    requires rest { rest < length m.old.world.second.now }
    ensures row { IfOk result (λ s. (p : Place) (behind : List Branch) (g : Tree) → IsSelectedAt m.old goal height rest p behind g
        → IsStep m.new s p behind (or_row p (nth (builtins.arguments g) 0) (nth (builtins.arguments g) 1))) }
    ensures goes { IfOk result (CanGo m.new) }
    ensures sound { IsSound m.new }
    ensures program { HasSameProgram m.old m.new }
    ensures err { OnErr result (StillStands m.old m.new) }
{
    let left = m.world.first.heap.arg(goal, 0);
    let right = m.world.first.heap.arg(goal, 1);
    let k = cq_branch::or(
        &mut m.world,
        &mut m.choices,
        &m.atoms,
        left,
        right,
        height,
        rest,
    )?;
    Ok(Step::Goes(k))
}

/// `C->T` that is no left side of a disjunction.
pub fn if_then(
    m: &mut Machine,
    goal: TermId,
    height: usize,
    rest: Continuation,
) -> Result<Step, AllocError>
    requires sound { IsSound m.old }
    requires goal { goal < length (terms m.old) }
    requires two { length (arguments (at (terms m.old) goal)) ≡ 2 }
    requires rest { rest < length m.old.world.second.now }
    ensures row { IfOk result (λ s. (p : Place) (behind : List Branch) (g : Tree) → IsSelectedAt m.old goal height rest p behind g
        → IsStep m.new s p behind (if_then_row p (nth (builtins.arguments g) 0) (nth (builtins.arguments g) 1))) }
    ensures goes { IfOk result (CanGo m.new) }
    ensures sound { IsSound m.new }
    ensures program { HasSameProgram m.old m.new }
    ensures err { OnErr result (StillStands m.old m.new) }
{
    let condition = m.world.first.heap.arg(goal, 0);
    let then = m.world.first.heap.arg(goal, 1);
    let k = cq_branch::if_then(&mut m.world, &m.choices, condition, then, height, rest)?;
    Ok(Step::Goes(k))
}

/// `!`.
#[inline(always)]
pub fn cut(m: &mut Machine, height: usize, rest: Continuation) -> Step
    requires sound { IsSound m.old }
    requires rest { rest < length m.old.world.second.now }
    ensures row { (p : Place) (behind : List Branch) (goal : ℕ) (g : Tree) → IsSelectedAt m.old goal height rest p behind g
        → IsStep m.new result p behind (cut_row p) }
    ensures goes { CanGo m.new result }
    ensures sound { IsSound m.new }
    ensures program { HasSameProgram m.old m.new }
{
    cq_branch::cut(&mut m.world, &mut m.choices, height);
    Step::Goes(rest)
}

/// `\+ G`.
pub fn negation(
    m: &mut Machine,
    goal: TermId,
    height: usize,
    rest: Continuation,
) -> Result<Step, AllocError>
    requires sound { IsSound m.old }
    requires goal { goal < length (terms m.old) }
    requires one { length (arguments (at (terms m.old) goal)) ≡ 1 }
    requires rest { rest < length m.old.world.second.now }
    ensures row { IfOk result (λ s. (p : Place) (behind : List Branch) (g : Tree) → IsSelectedAt m.old goal height rest p behind g
        → IsStep m.new s p behind (not_row p (nth (builtins.arguments g) 0))) }
    ensures goes { IfOk result (CanGo m.new) }
    ensures sound { IsSound m.new }
    ensures program { HasSameProgram m.old m.new }
    ensures err { OnErr result (StillStands m.old m.new) }
{
    let negated = m.world.first.heap.arg(goal, 0);
    let k = cq_branch::not(&mut m.world, &mut m.choices, negated, rest)?;
    Ok(Step::Goes(k))
}

/// `call(G)`.
pub fn call(
    m: &mut Machine,
    goal: TermId,
    height: usize,
    rest: Continuation,
) -> Result<Step, AllocError>
    requires sound { IsSound m.old }
    requires goal { goal < length (terms m.old) }
    requires one { length (arguments (at (terms m.old) goal)) ≡ 1 }
    requires rest { rest < length m.old.world.second.now }
    ensures row { IfOk result (λ s. (p : Place) (behind : List Branch) (g : Tree) → IsSelectedAt m.old goal height rest p behind g
        → IsStep m.new s p behind (call_row p (nth (builtins.arguments g) 0) [])) }
    ensures goes { IfOk result (CanGo m.new) }
    ensures raises { IfOk result (λ s. OnRaises s (StillStands m.old m.new)) }
    ensures sound { IsSound m.new }
    ensures program { HasSameProgram m.old m.new }
    ensures err { OnErr result (StillStands m.old m.new) }
{
    let called = m.world.first.heap.arg(goal, 0);
    match cq_branch::call(&mut m.world, &m.choices, &m.atoms, called, rest) {
        Ok(k) => Ok(Step::Goes(k)),
        Err(BuiltinFault::Error(error)) => Ok(Step::Raises(error)),
        Err(BuiltinFault::NoMemory) => Err(AllocError),
    }
}
