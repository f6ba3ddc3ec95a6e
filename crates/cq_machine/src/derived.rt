// Goals that become others: what they stand for is built and put in front.

ghost use Rattle.std.specs.Prelude.{◌≡◌, ◌<◌, List, length, IfOk, OnErr};
ghost use Rattle.spec_syntax.specs.Trees.{Tree};
ghost use Rattle.spec_branch.specs.Branch.{Branch};
ghost use Rattle.spec_builtins.specs.Terms as builtins;
ghost use Rattle.spec_search.specs.Changes.{initialization_row};
ghost use Rattle.spec_search.specs.Control.{not_unify_row, once_row};
ghost use Rattle.spec_search.specs.Replies.{Place};
ghost use Rattle.spec_search.specs.Rows.{nth};
ghost use Rattle.cq_term.specs.Meaning.{at};
ghost use Rattle.cq_term.specs.Shown.{arguments};
ghost use Rattle.cq_machine.specs.Machines.{terms, IsSound, HasSameProgram, StillStands};
ghost use Rattle.cq_machine.specs.Stepping.{IsSelectedAt, IsStep, CanGo};

use crate::building::{build, put};
use crate::machine::Machine;
use crate::step::Step;
use cq_control::Continuation;
use cq_term::TermId;
use std::alloc::AllocError;

/// `A \= B` becomes `\+ A = B`.
pub fn not_unify(
    m: &mut Machine,
    goal: TermId,
    height: usize,
    rest: Continuation,
) -> Result<Step, AllocError>
    requires sound { IsSound m.old }
    requires goal { goal < length (terms m.old) }
    requires two { length (arguments (at (terms m.old) goal)) ≡ 2 }
    requires rest { rest < length m.old.world.second.now }
    ensures row { IfOk result (λ s. (p : Place) (behind : List Branch) (g : Tree) → IsSelectedAt m.old goal height rest p behind g
        → IsStep m.new s p behind (not_unify_row p (nth (builtins.arguments g) 0) (nth (builtins.arguments g) 1))) }
    ensures goes { IfOk result (CanGo m.new) }
    ensures sound { IsSound m.new }
    ensures program { HasSameProgram m.old m.new }
    ensures err { OnErr result (StillStands m.old m.new) }
{
    let left = m.world.first.heap.arg(goal, 0);
    let right = m.world.first.heap.arg(goal, 1);
    let equality = m.names.equal;
    let negation = m.names.not;
    let equal = build(m, equality, &[left, right])?;
    let negated = build(m, negation, &[equal])?;
    let step = put(m, negated, height, rest)?;
    Ok(step)
}

/// `initialization(G)` inside a query or a larger directive becomes `once(G)`.
pub fn initialization(
    m: &mut Machine,
    goal: TermId,
    height: usize,
    rest: Continuation,
) -> Result<Step, AllocError>
    requires sound { IsSound m.old }
    requires goal { goal < length (terms m.old) }
    requires one { length (arguments (at (terms m.old) goal)) ≡ 1 }
    requires rest { rest < length m.old.world.second.now }
    ensures row { IfOk result (λ s. (p : Place) (behind : List Branch) (g : Tree) → IsSelectedAt m.old goal height rest p behind g
        → IsStep m.new s p behind (initialization_row p (nth (builtins.arguments g) 0))) }
    ensures goes { IfOk result (CanGo m.new) }
    ensures sound { IsSound m.new }
    ensures program { HasSameProgram m.old m.new }
    ensures err { OnErr result (StillStands m.old m.new) }
{
    let inside = m.world.first.heap.arg(goal, 0);
    let name = m.names.once;
    let once = build(m, name, &[inside])?;
    let step = put(m, once, height, rest)?;
    Ok(step)
}

/// `once(G)` becomes what `G->true` becomes.
pub fn once(
    m: &mut Machine,
    goal: TermId,
    height: usize,
    rest: Continuation,
) -> Result<Step, AllocError>
    requires sound { IsSound m.old }
    requires goal { goal < length (terms m.old) }
    requires one { length (arguments (at (terms m.old) goal)) ≡ 1 }
    requires rest { rest < length m.old.world.second.now }
    ensures row { IfOk result (λ s. (p : Place) (behind : List Branch) (g : Tree) → IsSelectedAt m.old goal height rest p behind g
        → IsStep m.new s p behind (once_row p (nth (builtins.arguments g) 0))) }
    ensures goes { IfOk result (CanGo m.new) }
    ensures sound { IsSound m.new }
    ensures program { HasSameProgram m.old m.new }
    ensures err { OnErr result (StillStands m.old m.new) }
{
    let inside = m.world.first.heap.arg(goal, 0);
    let name = m.names.truth;
    let truth = build(m, name, &[])?;
    let k = cq_branch::once(&mut m.world, &m.choices, inside, truth, height, rest)?;
    Ok(Step::Goes(k))
}
