// The row of constraints that are told.

ghost use Rattle.std.specs.Prelude.{◌≡◌, ◌<◌, List, Option, Some, length, slice_get, codes, IfOk, IfErr, OnOk, OnErr};
ghost use Rattle.spec_builtins.specs.Built.{compound1};
ghost use Rattle.spec_numbers.specs.Texts.{Text};
ghost use Rattle.spec_syntax.specs.Trees.{Tree};
ghost use Rattle.spec_search.specs.Constraints.{curly_row};
ghost use Rattle.spec_search.specs.Replies.{Reply, unless_error};
ghost use Rattle.cq_term.specs.Texts.{AreDifferent};
ghost use Rattle.cq_built.specs.Errors.{CanBeRaised};
ghost use Rattle.cq_built.specs.Growing.{Grows};
ghost use Rattle.cq_control.specs.Open.{AreMarked};
ghost use Rattle.cq_goals.specs.Faults.{HasItsCulprit};
ghost use Rattle.cq_resolve.specs.Database.{Program};
ghost use Rattle.cq_built.specs.Faults.{IsFound};
ghost use Rattle.cq_term.specs.Meaning.{HeapTerm};
ghost use Rattle.cq_term.specs.Trees.{tree, KnowsTerms};
ghost use Rattle.cq_settle.specs.Rest.{IsReady};
ghost use Rattle.cq_settle.specs.Worlds.{now_of};
ghost use Rattle.cq_branch.specs.Lists.{KeepsLists};
ghost use Rattle.cq_branch.specs.Worlds.{value, saved_values, stack, Leads, Grown};
ghost use Rattle.cq_branch.specs.Begun.{IfGoes, IfPruned, goes_to};
ghost use Rattle.cq_relations.specs.Faults.{IsRefused, Explains, HasCulpritOf};
ghost use Rattle.cq_relations.specs.Goals.{AtGoals, OverChoices, LeavesOneAtMost, AreGoals};

use crate::faults::RelationFault;
use cq_branch::begin::{Begun, tell};
use cq_branch::{Alternatives, Searching, or};
use cq_built::BuiltinFault;
use cq_control::{Choices, Continuation};
use cq_goals::{GoalFault, Telling, check_telling};
use cq_settle::rest::{equated_worlds_may_be_settled, look_at};
use cq_term::atoms::{Atom, Atoms};
use cq_term::{Heap, TermId};
use std::alloc::AllocError;

/// `{C}`: C is checked whole, and is then told, or split at its first disjunction: the left half goes on, and the right one is left
/// as a choice, each a goal `{C}` again. The name `{}` is the caller's. Where the goal has no child, and after an error, the world
/// is as at the call, but for terms that were built.
pub fn constrain(
    world: &mut Searching,
    choices: &mut Choices<Alternatives>,
    atoms: &Atoms,
    curly: Atom,
    constraint: TermId,
    height: usize,
    rest: Continuation,
) -> Result<Begun, RelationFault>
    requires ready { IsReady atoms.now (now_of world.old.first) }
    requires different { AreDifferent atoms.now }
    requires curly { slice_get atoms.now curly ≡ Some (codes "{}") }
    requires constraint { constraint < length world.old.first.heap.now.terms }
    requires rest { rest < length world.old.second.now }
    requires marked { AreMarked (saved_values world.old.first world.old.second.saved) choices.old }
    ensures row { IfOk result (λ b. (v : Program) → OverChoices atoms.now (stack atoms.now v (saved_values world.old.first world.old.second.saved) choices.old)
        (value world.old.first world.old.second.now) constraint height rest
        (λ p behind c. Leads atoms.now (stack atoms.now v (saved_values world.new.first world.new.second.saved) choices.new)
        (value world.new.first world.new.second.now) (goes_to b) p behind (curly_row p c))) }
    ensures fault { IfErr result (λ f. AtGoals atoms.now (value world.old.first world.old.second.now) constraint rest
        (λ stack p behind c. Explains atoms.now world.old.first.heap.now.terms world.old.first.store.pivots f p (curly_row p c))) }
    ensures culprit { IfErr result (HasCulpritOf atoms.now world.old.first.heap.now.terms) }

    // Where it has no child, and after an error, more was built at most.
    ensures unchanged { IfOk result (λ b. IfPruned b
        (Grown atoms.now (value world.old.first world.old.second.now) (value world.new.first world.new.second.now))) }
    ensures err { OnErr result (Grown atoms.now (value world.old.first world.old.second.now) (value world.new.first world.new.second.now)) }
    ensures err_choices { OnErr result (choices.new ≡ choices.old) }
    ensures err_saved { OnErr result (saved_values world.new.first world.new.second.saved ≡ saved_values world.old.first world.old.second.saved) }
    ensures there { IfOk result (λ b. IfGoes b (λ k. k < length world.new.second.now)) }
    ensures keeps { KeepsLists world.old.second.now world.new.second.now }
    ensures choices { OnOk result (LeavesOneAtMost (saved_values world.old.first world.old.second.saved) choices.old
        (value world.new.first world.new.second.now) (saved_values world.new.first world.new.second.saved) choices.new) }
    ensures marked { AreMarked (saved_values world.new.first world.new.second.saved) choices.new }
    ensures budget { world.new.first.store.pivots ≡ world.old.first.store.pivots }
{
    equated_worlds_may_be_settled();
    match check_telling(&mut world.first.heap, atoms, constraint) {
        Ok(telling) => match telling {
            Telling::Members(members) => {
                match tell(&mut world.first, &mut world.second, atoms, members, rest) {
                    Ok(begun) => Ok(begun),
                    Err(fault) => Err(RelationFault::Settling(fault)),
                }
            }
            Telling::Halves(left, right) => {
                let (first, second) = goals_of(&mut world.first.heap, atoms, curly, left, right)?;
                let k = or(world, choices, atoms, first, second, height, rest)?;
                Ok(Begun::Goes(k))
            }
        },
        Err(fault) => Err(RelationFault::Goal(goal_fault(fault))),
    }
}

/// The fault of a check as that of a goal.
fn goal_fault(fault: BuiltinFault) -> GoalFault
    ensures refused { (texts : List Text) (ts : List HeapTerm) (error : Option Tree) (reply : Reply) → IsFound texts ts error fault
        → IsRefused texts ts result (unless_error error reply) }
    ensures culprit { (texts : List Text) (ts : List HeapTerm) → CanBeRaised texts ts fault → HasItsCulprit texts ts result }
{
    match fault {
        BuiltinFault::Error(error) => GoalFault::Error(error),
        BuiltinFault::NoMemory => GoalFault::NoMemory,
    }
}

/// `{C}` of two constraints.
fn goals_of(
    heap: &mut Heap,
    atoms: &Atoms,
    curly: Atom,
    left: TermId,
    right: TermId,
) -> Result<(TermId, TermId), AllocError>
    requires curly { slice_get atoms.now curly ≡ Some (codes "{}") }
    requires left { left < length heap.old.now.terms }
    requires right { right < length heap.old.now.terms }
    requires names { KnowsTerms atoms.now heap.old.now.terms }
    ensures goals { IfOk result (AreGoals atoms.now heap.old.now heap.new.now left right) }
    ensures grows { Grows atoms.now heap.old atoms.now heap.new }
{
    let first = in_braces(heap, atoms, curly, left)?;
    let second = in_braces(heap, atoms, curly, right)?;
    look_at(heap, first);
    look_at(heap, second);
    Ok((first, second))
}

/// `{C}` of a constraint.
fn in_braces(
    heap: &mut Heap,
    atoms: &Atoms,
    curly: Atom,
    constraint: TermId,
) -> Result<TermId, AllocError>
    requires curly { slice_get atoms.now curly ≡ Some (codes "{}") }
    requires constraint { constraint < length heap.old.now.terms }
    requires names { KnowsTerms atoms.now heap.old.now.terms }
    ensures live { IfOk result (λ id. id < length heap.new.now.terms) }
    ensures built { IfOk result (λ id. tree atoms.now heap.new.now.terms id ≡ compound1 "{}" (tree atoms.now heap.old.now.terms constraint)) }
    ensures grows { Grows atoms.now heap.old atoms.now heap.new }
{
    let id = heap.compound(curly, &[constraint])?;
    Ok(id)
}
