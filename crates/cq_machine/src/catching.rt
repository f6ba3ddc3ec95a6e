// The rows of catch, throw and findall, by the arguments of the selected goal.

ghost use Rattle.std.specs.Prelude.{◌≡◌, ◌<◌, ℕ, List, length, IfOk, OnErr};
ghost use Rattle.spec_syntax.specs.Trees.{Tree};
ghost use Rattle.spec_branch.specs.Branch.{Branch};
ghost use Rattle.spec_builtins.specs.Terms as builtins;
ghost use Rattle.spec_search.specs.Control.{catch_row, throw_row, findall_row};
ghost use Rattle.spec_search.specs.Replies.{Place};
ghost use Rattle.spec_search.specs.Rows.{nth};
ghost use Rattle.cq_term.specs.Meaning.{at};
ghost use Rattle.cq_term.specs.Shown.{arguments};
ghost use Rattle.cq_machine.specs.Machines.{terms, IsSound, HasSameProgram, StillStands};
ghost use Rattle.cq_machine.specs.Stepping.{IsSelectedAt, IsStep, CanGo, OnRaises};

use crate::machine::Machine;
use crate::step::Step;
use cq_built::kinds::is_variable;
use cq_built::{BuiltinError, BuiltinFault};
use cq_control::Continuation;
use cq_term::TermId;
use std::alloc::AllocError;

/// `catch(G,C,R)`.
pub fn catch(
    m: &mut Machine,
    goal: TermId,
    height: usize,
    rest: Continuation,
) -> Result<Step, AllocError>
    requires sound { IsSound m.old }
    requires goal { goal < length (terms m.old) }
    requires three { length (arguments (at (terms m.old) goal)) ≡ 3 }
    requires rest { rest < length m.old.world.second.now }
    ensures row { IfOk result (λ s. (p : Place) (behind : List Branch) (g : Tree) → IsSelectedAt m.old goal height rest p behind g
        → IsStep m.new s p behind (catch_row p (nth (builtins.arguments g) 0) (nth (builtins.arguments g) 1) (nth (builtins.arguments g) 2))) }
    ensures goes { IfOk result (CanGo m.new) }
    ensures sound { IsSound m.new }
    ensures program { HasSameProgram m.old m.new }
    ensures err { OnErr result (StillStands m.old m.new) }
{
    let called = m.world.first.heap.arg(goal, 0);
    let catcher = m.world.first.heap.arg(goal, 1);
    let recovery = m.world.first.heap.arg(goal, 2);
    let k = cq_branch::catch(
        &mut m.world,
        &mut m.choices,
        called,
        catcher,
        recovery,
        rest,
    )?;
    Ok(Step::Goes(k))
}

/// `throw(B)`.
pub fn throw(m: &Machine, goal: TermId) -> Step
    requires goal { goal < length (terms m.now) }
    requires one { length (arguments (at (terms m.now) goal)) ≡ 1 }
    ensures row { (height rest : ℕ) (p : Place) (behind : List Branch) (g : Tree) → IsSelectedAt m.now goal height rest p behind g
        → IsStep m.now result p behind (throw_row p (nth (builtins.arguments g) 0)) }
    ensures goes { CanGo m.now result }
{
    let world = &m.world;
    let ball = world.first.heap.arg(goal, 0);
    if is_variable(&world.first.heap, ball) {
        Step::Raises(BuiltinError::Instantiation)
    } else {
        Step::Throws(ball)
    }
}

/// `findall(T,G,L)`.
pub fn findall(
    m: &mut Machine,
    goal: TermId,
    height: usize,
    rest: Continuation,
) -> Result<Step, AllocError>
    requires sound { IsSound m.old }
    requires goal { goal < length (terms m.old) }
    requires three { length (arguments (at (terms m.old) goal)) ≡ 3 }
    requires rest { rest < length m.old.world.second.now }
    ensures row { IfOk result (λ s. (p : Place) (behind : List Branch) (g : Tree) → IsSelectedAt m.old goal height rest p behind g
        → IsStep m.new s p behind (findall_row p (nth (builtins.arguments g) 0) (nth (builtins.arguments g) 1) (nth (builtins.arguments g) 2))) }
    ensures goes { IfOk result (CanGo m.new) }
    ensures raises { IfOk result (λ s. OnRaises s (StillStands m.old m.new)) }
    ensures sound { IsSound m.new }
    ensures program { HasSameProgram m.old m.new }
    ensures err { OnErr result (StillStands m.old m.new) }
{
    let template = m.world.first.heap.arg(goal, 0);
    let called = m.world.first.heap.arg(goal, 1);
    let list = m.world.first.heap.arg(goal, 2);
    match cq_branch::findall(
        &mut m.world,
        &mut m.choices,
        &m.atoms,
        template,
        called,
        list,
        rest,
    ) {
        Ok(k) => Ok(Step::Goes(k)),
        Err(BuiltinFault::Error(error)) => Ok(Step::Raises(error)),
        Err(BuiltinFault::NoMemory) => Err(AllocError),
    }
}
