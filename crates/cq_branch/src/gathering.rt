// What `findall` becomes.

ghost use Rattle.std.specs.Prelude.{◌≡◌, ◌<◌, ◌||◌, ℕ, List, [], length, Some, IfOk, IfErr, OnOk, OnErr};
ghost use Rattle.spec_syntax.specs.Trees.{Tree};
ghost use Rattle.spec_builtins.specs.Kinds.{is_list, is_partial};
ghost use Rattle.spec_branch.specs.Branch.{Branch};
ghost use Rattle.spec_search.specs.Control.{findall_row};
ghost use Rattle.spec_search.specs.Replies.{Place};
ghost use Rattle.cq_built.specs.Errors.{CanBeRaised};
ghost use Rattle.cq_control.specs.Open.{AreMarked};
ghost use Rattle.cq_resolve.specs.Database.{Program};
ghost use Rattle.cq_term.specs.Trees.{tree, KnowsTerms};
ghost use Rattle.cq_settle.specs.Worlds.{now_of};
ghost use Rattle.cq_branch.specs.Calls.{IsRaised};
ghost use Rattle.cq_branch.specs.Choices.{LeavesAlso};
ghost use Rattle.cq_branch.specs.Lists.{KeepsLists};
ghost use Rattle.cq_branch.specs.Worlds.{value, saved_values, stack, ReadsAs, Selected, Leads};
ghost use Rattle.cq_branch.specs.declared.alternatives.Alternatives.TheVariants.{Gathers};

use crate::alternatives::{Alternatives, Gathered, Searching};
use crate::cells::cell_before;
use cq_built::kinds::{is_nil, is_variable, list_parts};
use cq_built::{BuiltinError, BuiltinFault, Culprit, ValidType};
use cq_control::{Choices, Continuation};
use cq_term::atoms::Atoms;
use cq_term::{Heap, TermId};
use spec_engine::machine::Cell;
use std::alloc::AllocError;

/// Whether a term is a list or a partial one: a list may become equal to it.
fn may_be_list(heap: &Heap, atoms: &Atoms, list: TermId) -> Result<bool, AllocError>
    requires list { list < length heap.now.now.terms }
    requires names { KnowsTerms atoms.now heap.now.now.terms }
    ensures { IfOk result (λ may. may ≡ (is_partial (tree atoms.now heap.now.now.terms list) || is_list (tree atoms.now heap.now.now.terms list))) }
{
    let parts = list_parts(heap, atoms, list)?;
    if is_variable(heap, parts.tail) {
        return Ok(true);
    }
    Ok(is_nil(heap, atoms, parts.tail))
}

/// `findall(T,G,L)`: first `call(G)` before its mark, second its own saved branch, in which L is unified with the list. A fault is
/// the error of L, or want of memory; then the choices are as they were.
pub fn findall(
    world: &mut Searching,
    choices: &mut Choices<Alternatives>,
    atoms: &Atoms,
    template: TermId,
    goal: TermId,
    list: TermId,
    rest: Continuation,
) -> Result<Continuation, BuiltinFault>
    requires list { list < length world.old.first.heap.now.terms }
    requires names { KnowsTerms atoms.now world.old.first.heap.now.terms }
    requires rest { rest < length world.old.second.now }
    requires marked { AreMarked (saved_values world.old.first world.old.second.saved) choices.old }
    ensures row { IfOk result (λ k. (v : Program) (height : ℕ) (p : Place) (behind : List Branch) (t g l : Tree)
        → Selected atoms.now (stack atoms.now v (saved_values world.old.first world.old.second.saved) choices.old)
        (value world.old.first world.old.second.now) height rest p behind
        → ReadsAs atoms.now (now_of world.old.first) p.state template t → ReadsAs atoms.now (now_of world.old.first) p.state goal g
        → ReadsAs atoms.now (now_of world.old.first) p.state list l
        → Leads atoms.now (stack atoms.now v (saved_values world.new.first world.new.second.saved) choices.new)
        (value world.new.first world.new.second.now) (Some k) p behind (findall_row p t g l)) }
    ensures fault { IfErr result (λ f. (p : Place) (t g l : Tree) → ReadsAs atoms.now (now_of world.old.first) p.state list l
        → IsRaised atoms.now world.old.first.heap.now.terms f (findall_row p t g l)) }
    ensures culprit { IfErr result (CanBeRaised atoms.now world.old.first.heap.now.terms) }
    ensures world { now_of world.new.first ≡ now_of world.old.first }
    ensures there { IfOk result (λ k. k < length world.new.second.now) }
    ensures keeps { KeepsLists world.old.second.now world.new.second.now }
    ensures choices { OnOk result (LeavesAlso (saved_values world.old.first world.old.second.saved) choices.old
        (value world.new.first world.new.second.now) (Gathers list [] rest) (saved_values world.new.first world.new.second.saved) choices.new) }
    ensures marked { AreMarked (saved_values world.new.first world.new.second.saved) choices.new }
    ensures err { OnErr result (choices.new ≡ choices.old) }
    ensures err_saved { OnErr result (saved_values world.new.first world.new.second.saved ≡ saved_values world.old.first world.old.second.saved) }
{
    if !may_be_list(&world.first.heap, atoms, list)? {
        return Err(BuiltinFault::Error(BuiltinError::Type(ValidType::List, Culprit::Term(list))));
    }
    let top = choices.height();
    let end = cell_before(&mut world.second, Cell::Collect(top, template), rest)?;
    let all = cell_before(&mut world.second, Cell::Call(goal), end)?;
    let none = Gathered::new(world.first.heap.alloc());
    choices.push(world, Alternatives::Gathers(list, none, rest))?;
    Ok(all)
}
