// The list of what a findall gathered.

ghost use Rattle.std.specs.Prelude.{◌≡◌, ◌<◌, ◌≤◌, ◌++◌, ℕ, List, All, length, None, IfOk, IfErr, OnOk, OnErr};
ghost use Rattle.spec_numbers.specs.Prefixes.{IsPrefix};
ghost use Rattle.spec_numbers.specs.Texts.{Text};
ghost use Rattle.spec_syntax.specs.Trees.{list_tree};
ghost use Rattle.spec_branch.specs.Branch.{State};
ghost use Rattle.cq_term.specs.Texts.{AreDifferent};
ghost use Rattle.cq_built.specs.Growing.{Grows};
ghost use Rattle.cq_frac.specs.declared.Pair.{Pair};
ghost use Rattle.cq_store.specs.declared.store.StoreFault.TheVariants.{Overflow, Pivots};
ghost use Rattle.cq_settle.specs.Settled.{MayRefuse, MayTake};
ghost use Rattle.cq_term.specs.Names.{KeepsNames};
ghost use Rattle.cq_term.specs.Trees.{tree, trees, KnowsTerms};
ghost use Rattle.cq_unify.specs.Copied.{unbound_from};
ghost use Rattle.cq_settle.specs.Worlds.{now_of, saved_of};
ghost use Rattle.spec_engine.specs.Trying.{placed, variables_of};
ghost use Rattle.cq_branch.specs.Lists.{KeepsLists};
ghost use Rattle.cq_branch.specs.Stored.{IsCountedTerm, stored_trees};
ghost use Rattle.cq_branch.specs.Worlds.{value, IsBranch};
ghost use Rattle.cq_branch.specs.Begun.{IfGoes, IfPruned, Prunes};
ghost use Rattle.cq_choices.specs.Held.{held, HasMarks, StaysOver};
ghost use Rattle.cq_choices.specs.Trying.{IsSearching, ComesOver, StopsOver};
ghost use Rattle.cq_catch.specs.Listing.{HasGathered, ListGoes, OfList};

use cq_branch::begin::{Begun, begin};
use cq_branch::{Alternatives, Searching};
use cq_built::list;
use cq_choices::names_are_of_terms;
use cq_control::{Choices, Continuation, Continuations};
use cq_resolve::stored::StoredTerm;
use cq_settle::rest::{equated_worlds_may_be_settled, look_at_pairs};
use cq_settle::world::World;
use cq_store::store::StoreFault;
use cq_term::atoms::Atoms;
use cq_term::{Heap, TermId};
use spec_engine::machine::Cell;
use std::alloc::AllocError;

/// Comes back to the newest choice, which gathered: the list of its copies is unified with the third argument of the findall. The
/// choice is gone then; None where its branch is pruned. After an error the choice still has the copies.
pub fn try_gathered(
    world: &mut Searching,
    choices: &mut Choices<Alternatives>,
    atoms: &mut Atoms,
) -> Result<Option<Continuation>, StoreFault>
    requires different { AreDifferent atoms.old }
    requires marked { HasMarks (held atoms.old world.old.first world.old.second choices.old) }
    requires newest { HasGathered choices.old }
    requires works { IsSearching (held atoms.old world.old.first world.old.second choices.old) }
    ensures comes { IfOk result (ComesOver (held atoms.old world.old.first world.old.second choices.old)
        (held atoms.new world.new.first world.new.second choices.new)) }
    ensures err { OnErr result (ComesOver (held atoms.old world.old.first world.old.second choices.old)
        (held atoms.new world.new.first world.new.second choices.new) None) }
    ensures stops { IfErr result (StopsOver (held atoms.old world.old.first world.old.second choices.old) world.old.first.store.pivots) }
    ensures gone { OnOk result (length choices.new < length choices.old) }
    ensures over { StaysOver (held atoms.old world.old.first world.old.second choices.old)
        (held atoms.new world.new.first world.new.second choices.new) }
    ensures different { AreDifferent atoms.new }
    ensures longer { IsPrefix atoms.old atoms.new }
    ensures budget { world.new.first.store.pivots ≡ world.old.first.store.pivots }
    ensures marked { HasMarks (held atoms.new world.new.first world.new.second choices.new) }
{
    names_are_of_terms(world, choices);
    let Alternatives::Gathers(third, gathered, rest) = choices.retry(world, Alternatives::Barrier)
    else {
        unreachable!();
    };
    match begin_list(
        &mut world.first,
        &mut world.second,
        atoms,
        third,
        gathered.copies(),
        rest,
    ) {
        Ok(begun) => {
            let newest = choices.height() - 1;
            choices.cut(world, newest);
            match begun {
                Begun::Goes(first) => Ok(Some(first)),
                Begun::Pruned => Ok(None),
            }
        }
        Err(fault) => {
            let newest = choices.height() - 1;
            choices.replace_at(newest, Alternatives::Gathers(third, gathered, rest));
            Err(fault)
        }
    }
}

/// Begins the branch of the list.
fn begin_list(
    world: &mut World,
    lists: &mut Continuations<Cell>,
    atoms: &mut Atoms,
    third: TermId,
    copies: &[StoredTerm],
    rest: Continuation,
) -> Result<Begun, StoreFault>
    requires branch { (st : State) × IsBranch atoms.old (now_of world.old) st }
    requires different { AreDifferent atoms.old }
    requires third { third < length world.old.heap.now.terms }
    requires copies { All (IsCountedTerm (length atoms.old)) copies.now }
    requires rest { rest < length lists.old.now }
    ensures goes { IfOk result (λ b. IfGoes b (ListGoes atoms.new (value world.old lists.old.now) (value world.new lists.new.now) third copies.now rest)) }
    ensures pruned { IfOk result (λ b. IfPruned b (OfList atoms.new (now_of world.old) third copies.now Prunes)) }

    // A stop is due while the branch is settled.
    ensures overflow { (pair : Pair) → result ≡ Err (Overflow pair) → OfList atoms.new (now_of world.old) third copies.now (λ st p. MayRefuse st p pair) }
    ensures pivots { (n : ℕ) → result ≡ Err (Pivots n)
        → (n ≡ world.old.store.pivots) × OfList atoms.new (now_of world.old) third copies.now (λ st p. MayTake st p n) }
    ensures there { IfOk result (λ b. IfGoes b (λ k. k < length lists.new.now)) }
    ensures keeps { KeepsLists lists.old.now lists.new.now }
    ensures lists { lists.new.saved ≡ lists.old.saved }
    ensures saved { saved_of world.new ≡ saved_of world.old }
    ensures different { AreDifferent atoms.new }
    ensures longer { IsPrefix atoms.old atoms.new }
    ensures budget { world.new.store.pivots ≡ world.old.store.pivots }
{
    equated_worlds_may_be_settled();
    world.heap.names_are_of_terms();
    let elements = restored(&mut world.heap, copies)?;
    let all = list_of(&mut world.heap, atoms, &elements)?;
    let pairs = [cq_term::walk::Pair {
        left: third,
        right: all,
    }];
    look_at_pairs(&world.heap, &pairs);
    let told = Vec::new(world.heap.alloc());
    begin(world, lists, atoms, &pairs, told, rest)
}

/// The list of these terms. The text of a name that is known shows that names have different texts.
fn list_of(heap: &mut Heap, atoms: &mut Atoms, elements: &[TermId]) -> Result<TermId, AllocError>
    requires live { All (λ id. id < length heap.old.now.terms) elements.now }
    requires names { KnowsTerms atoms.old heap.old.now.terms }
    ensures live { IfOk result (λ id. id < length heap.new.now.terms) }
    ensures built { IfOk result (λ id. tree atoms.new heap.new.now.terms id ≡ list_tree (trees atoms.new heap.old.now.terms elements.now)) }
    ensures grows { Grows atoms.old heap.old atoms.new heap.new }
    ensures different { AreDifferent atoms.new }
{
    let known = atoms.intern("[]")?;
    let built = list(heap, atoms, elements);
    let _text = atoms.text(known);
    built
}

/// The copies under new variables, one after another.
fn restored(heap: &mut Heap, copies: &[StoredTerm]) -> Result<Vec<TermId>, AllocError>
    ensures live { IfOk result (λ ids. All (λ id. id < length heap.new.now.terms) ids.items) }
    ensures placed { IfOk result (λ ids. (texts : List Text)
        → All (IsCountedTerm (length texts)) copies.now
        → trees texts heap.new.now.terms ids.items ≡ placed (length heap.old.now.images) (stored_trees texts copies.now)) }
    ensures terms { OnOk result (IsPrefix heap.old.now.terms heap.new.now.terms) }
    ensures images { OnOk result ((texts : List Text) → All (IsCountedTerm (length texts)) copies.now → heap.new.now.images
        ≡ heap.old.now.images ++ unbound_from (length heap.old.now.images) (variables_of (stored_trees texts copies.now))) }
    ensures names { (n : ℕ) → All (IsCountedTerm n) copies.now → KeepsNames n heap.old.now heap.new.now }
    ensures saved { heap.new.saved ≡ heap.old.saved }
    ensures room { heap.old.room ≤ heap.new.room }
{
    let mut elements = Vec::new(heap.alloc());
    for copy in copies {
        elements.push(copy.restore(heap)?)?;
    }
    Ok(elements)
}
