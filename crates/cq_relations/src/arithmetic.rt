// The rows of arithmetic.

ghost use Rattle.std.specs.Prelude.{◌≡◌, ◌<◌, ◌≤◌, length, IfOk, IfErr, OnErr};
ghost use Rattle.spec_syntax.specs.Trees.{Tree};
ghost use Rattle.spec_search.specs.Changes.{is_row, compare_row};
ghost use Rattle.spec_search.specs.Replies.{Place, succeeds_if};
ghost use Rattle.cq_term.specs.Texts.{AreDifferent};
ghost use Rattle.cq_builtin.specs.Rows.{comparison_of};
ghost use Rattle.cq_goals.specs.Faults.{HasItsCulprit};
ghost use Rattle.cq_term.specs.Trees.{KnowsTerms};
ghost use Rattle.cq_settle.specs.Rest.{IsReady};
ghost use Rattle.cq_settle.specs.Worlds.{now_of, saved_of, room_of};
ghost use Rattle.cq_branch.specs.Lists.{KeepsLists};
ghost use Rattle.cq_branch.specs.Worlds.{value, ReadsAs, Leads};
ghost use Rattle.cq_branch.specs.Begun.{IfGoes, IfPruned, goes_to};
ghost use Rattle.cq_relations.specs.Faults.{IsRefused, Explains, HasCulpritOf};
ghost use Rattle.cq_relations.specs.Goals.{AtBoth};

use crate::faults::RelationFault;
use cq_branch::begin::{Begun, unify, unify_constant};
use cq_builtin::Comparison;
use cq_control::{Continuation, Continuations};
use cq_goals::{GoalFault, compare_values, is_value};
use cq_settle::world::World;
use cq_term::TermId;
use cq_term::atoms::Atoms;
use cq_trail::Undo;
use spec_engine::machine::Cell;

/// Whether the goal that compares the values of two expressions goes on, or has no child. The left one is evaluated first.
pub fn compare(
    world: &World,
    atoms: &Atoms,
    comparison: Comparison,
    left: TermId,
    right: TermId,
) -> Result<bool, GoalFault>
    requires left { left < length world.now.heap.now.terms }
    requires right { right < length world.now.heap.now.terms }
    requires names { KnowsTerms atoms.now world.now.heap.now.terms }
    ensures row { IfOk result (λ holds. (p : Place) (a b : Tree) → ReadsAs atoms.now (now_of world.now) p.state left a
        → ReadsAs atoms.now (now_of world.now) p.state right b → compare_row p (comparison_of comparison) a b ≡ succeeds_if holds p) }
    ensures fault { IfErr result (λ f. (p : Place) (a b : Tree) → ReadsAs atoms.now (now_of world.now) p.state left a
        → ReadsAs atoms.now (now_of world.now) p.state right b
        → IsRefused atoms.now world.now.heap.now.terms f (compare_row p (comparison_of comparison) a b)) }
    ensures culprit { IfErr result (HasItsCulprit atoms.now world.now.heap.now.terms) }
{
    compare_values(&world.heap, atoms, comparison, left, right)
}

/// `X is E`: X is made equal to the value of E. Where the goal has no child, and after an error, the world is as at the call.
#[inline(always)]
pub fn evaluate_to(
    world: &mut World,
    lists: &mut Continuations<Cell>,
    atoms: &Atoms,
    left: TermId,
    expression: TermId,
    rest: Continuation,
) -> Result<Begun, RelationFault>
    requires ready { IsReady atoms.now (now_of world.old) }
    requires different { AreDifferent atoms.now }
    requires left { left < length world.old.heap.now.terms }
    requires expression { expression < length world.old.heap.now.terms }
    requires rest { rest < length lists.old.now }
    ensures row { IfOk result (λ b. AtBoth atoms.now (value world.old lists.old.now) left expression rest
        (λ choices p behind x e. Leads atoms.now choices (value world.new lists.new.now) (goes_to b) p behind (is_row p x e))) }
    ensures fault { IfErr result (λ f. AtBoth atoms.now (value world.old lists.old.now) left expression rest
        (λ choices p behind x e. Explains atoms.now world.old.heap.now.terms world.old.store.pivots f p (is_row p x e))) }
    ensures culprit { IfErr result (HasCulpritOf atoms.now world.old.heap.now.terms) }

    // Where it has no child, and after an error, the world is as it was.
    ensures unchanged { IfOk result (λ b. IfPruned b (now_of world.new ≡ now_of world.old)) }
    ensures err { OnErr result (now_of world.new ≡ now_of world.old) }
    ensures there { IfOk result (λ b. IfGoes b (λ k. k < length lists.new.now)) }
    ensures keeps { KeepsLists lists.old.now lists.new.now }
    ensures lists { lists.new.saved ≡ lists.old.saved }
    ensures saved { saved_of world.new ≡ saved_of world.old }
    ensures budget { world.new.store.pivots ≡ world.old.store.pivots }
    ensures room { room_of world.old ≤ room_of world.new }
{
    let start = world.mark()?;
    match evaluated(world, lists, atoms, left, expression, rest) {
        Ok(begun) => match begun {
            Begun::Goes(first) => {
                world.forget(start);
                Ok(Begun::Goes(first))
            }
            Begun::Pruned => {
                world.undo(start);
                Ok(Begun::Pruned)
            }
        },
        Err(fault) => {
            world.undo(start);
            Err(fault)
        }
    }
}

/// The same, but for the number that stays on the heap where the branch is pruned, or after an error.
fn evaluated(
    world: &mut World,
    lists: &mut Continuations<Cell>,
    atoms: &Atoms,
    left: TermId,
    expression: TermId,
    rest: Continuation,
) -> Result<Begun, RelationFault>
    requires ready { IsReady atoms.now (now_of world.old) }
    requires different { AreDifferent atoms.now }
    requires left { left < length world.old.heap.now.terms }
    requires expression { expression < length world.old.heap.now.terms }
    requires rest { rest < length lists.old.now }
    ensures row { IfOk result (λ b. AtBoth atoms.now (value world.old lists.old.now) left expression rest
        (λ choices p behind x e. Leads atoms.now choices (value world.new lists.new.now) (goes_to b) p behind (is_row p x e))) }
    ensures fault { IfErr result (λ f. AtBoth atoms.now (value world.old lists.old.now) left expression rest
        (λ choices p behind x e. Explains atoms.now world.old.heap.now.terms world.old.store.pivots f p (is_row p x e))) }
    ensures culprit { IfErr result (HasCulpritOf atoms.now world.old.heap.now.terms) }
    ensures there { IfOk result (λ b. IfGoes b (λ k. k < length lists.new.now)) }
    ensures keeps { KeepsLists lists.old.now lists.new.now }
    ensures lists { lists.new.saved ≡ lists.old.saved }
    ensures saved { saved_of world.new ≡ saved_of world.old }
    ensures budget { world.new.store.pivots ≡ world.old.store.pivots }
    ensures room { room_of world.old ≤ room_of world.new }
{
    match is_value(&mut world.heap, atoms, expression) {
        Ok(right) => {
            let pairs = [cq_term::walk::Pair { left, right }];
            if unify_constant(world, lists, atoms, &pairs, rest) {
                return Ok(Begun::Goes(rest));
            }
            match unify(world, lists, atoms, &pairs, rest) {
                Ok(begun) => Ok(begun),
                Err(fault) => Err(RelationFault::Settling(fault)),
            }
        }
        Err(fault) => Err(RelationFault::Goal(fault)),
    }
}
