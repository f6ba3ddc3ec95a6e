// What `call` of a term becomes.

ghost use Rattle.std.specs.Prelude.{◌≡◌, ◌<◌, [], List, length, Some, IfOk, IfErr, OnOk};
ghost use Rattle.spec_syntax.specs.Trees.{Tree};
ghost use Rattle.spec_branch.specs.Branch.{Branch};
ghost use Rattle.spec_search.specs.Control.{call_row};
ghost use Rattle.spec_search.specs.Replies.{Place};
ghost use Rattle.spec_engine.specs.Cells.{Stack};
ghost use Rattle.cq_built.specs.Errors.{CanBeRaised};
ghost use Rattle.cq_term.specs.Trees.{tree, KnowsTerms};
ghost use Rattle.cq_settle.specs.Contents.{Contents};
ghost use Rattle.cq_settle.specs.Worlds.{now_of};
ghost use Rattle.cq_branch.specs.Calls.{IsLawful, IsRaised};
ghost use Rattle.cq_branch.specs.Lists.{KeepsLists};
ghost use Rattle.cq_branch.specs.Worlds.{value, saved_values, ReadsAs, Placed, Leads};

use crate::alternatives::{Alternatives, Searching};
use crate::cells::cell_before;
use cq_built::kinds::{is_callable, is_variable};
use cq_built::{BuiltinError, BuiltinFault, Culprit, ValidType};
use cq_control::{Choices, Continuation};
use cq_goals::declarations::is_body;
use cq_term::atoms::Atoms;
use cq_term::{Heap, TermId};
use spec_engine::machine::Cell;

/// `call(G)` becomes G, in which a cut sees no choice that is there now. A fault is the error of G, or want of memory.
pub fn call(
    world: &mut Searching,
    choices: &Choices<Alternatives>,
    atoms: &Atoms,
    goal: TermId,
    rest: Continuation,
) -> Result<Continuation, BuiltinFault>
    requires goal { goal < length world.old.first.heap.now.terms }
    requires names { KnowsTerms atoms.now world.old.first.heap.now.terms }
    requires rest { rest < length world.old.second.now }
    ensures row { IfOk result (λ k. (stack : Stack Contents) (p : Place) (behind : List Branch) (g : Tree) → length stack ≡ length choices.now
        → Placed atoms.now stack (value world.old.first world.old.second.now) rest p behind → ReadsAs atoms.now (now_of world.old.first) p.state goal g
        → Leads atoms.now stack (value world.new.first world.new.second.now) (Some k) p behind (call_row p g [])) }
    ensures fault { IfErr result (λ f. (p : Place) (g : Tree) → ReadsAs atoms.now (now_of world.old.first) p.state goal g
        → IsRaised atoms.now world.old.first.heap.now.terms f (call_row p g [])) }
    ensures culprit { IfErr result (CanBeRaised atoms.now world.old.first.heap.now.terms) }
    ensures world { now_of world.new.first ≡ now_of world.old.first }
    ensures there { IfOk result (λ k. k < length world.new.second.now) }
    ensures keeps { KeepsLists world.old.second.now world.new.second.now }
    ensures saved { saved_values world.new.first world.new.second.saved ≡ saved_values world.old.first world.old.second.saved }
{
    match check_goal(&world.first.heap, atoms, goal) {
        Ok(()) => {
            let k = cell_before(&mut world.second, Cell::Goal(goal, choices.height()), rest)?;
            Ok(k)
        }
        Err(fault) => Err(fault),
    }
}

/// The error of a goal that is to be called, if it has one.
fn check_goal(heap: &Heap, atoms: &Atoms, goal: TermId) -> Result<(), BuiltinFault>
    requires goal { goal < length heap.now.now.terms }
    requires names { KnowsTerms atoms.now heap.now.now.terms }
    ensures lawful { OnOk result (IsLawful (tree atoms.now heap.now.now.terms goal)) }
    ensures fault { IfErr result (λ f. (p : Place)
        → IsRaised atoms.now heap.now.now.terms f (call_row p (tree atoms.now heap.now.now.terms goal) [])) }
    ensures culprit { IfErr result (CanBeRaised atoms.now heap.now.now.terms) }
{
    if is_variable(heap, goal) {
        return Err(BuiltinFault::Error(BuiltinError::Instantiation));
    }
    if !is_callable(heap, goal) {
        return Err(BuiltinFault::Error(not_callable(goal)));
    }
    if is_body(heap, atoms, goal)? {
        Ok(())
    } else {
        Err(BuiltinFault::Error(not_callable(goal)))
    }
}

/// The error of a term that is neither an atom nor a compound, or has a number among its conjuncts and branches.
fn not_callable(goal: TermId) -> BuiltinError
    ensures { result ≡ BuiltinError.Type ValidType.Callable (Culprit.Term goal) }
{
    BuiltinError::Type(ValidType::Callable, Culprit::Term(goal))
}
