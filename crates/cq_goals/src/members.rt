// The members of conjunctions.

ghost use Rattle.std.specs.Prelude.{◌≡◌, ◌<◌, ◌∷◌, [], length, IfOk, IfSome, IsNone, OnOk};
ghost use Rattle.spec_branch.specs.Checks.{members};
ghost use Rattle.cq_term.specs.Trees.{tree, trees, KnowsTerms};
ghost use Rattle.cq_built.specs.Splitting.{AreLive, TakesApart};
ghost use Rattle.cq_goals.specs.Splitting.{AreConjuncts};

use cq_built::sides::{Sides, sides_of};
use cq_term::atoms::Atoms;
use cq_term::{Heap, TermId};
use std::alloc::AllocError;

/// The members of a constraint, in order.
pub(crate) fn members(
    heap: &Heap,
    atoms: &Atoms,
    constraint: TermId,
) -> Result<Vec<TermId>, AllocError>
    requires live { constraint < length heap.now.now.terms }
    requires names { KnowsTerms atoms.now heap.now.now.terms }
    ensures live { IfOk result (λ ids. AreLive heap.now.now.terms ids.items) }
    ensures members { IfOk result (λ ids. trees atoms.now heap.now.now.terms ids.items ≡ members (tree atoms.now heap.now.now.terms constraint)) }
{
    let mut found = Vec::new(heap.alloc());
    let mut waiting = vec![in heap.alloc(); constraint]?;
    while let Some(id) = waiting.pop() {
        take_apart(heap, atoms, id, &mut found, &mut waiting)?;
    }
    Ok(found)
}

/// Finds a member, or puts the sides of a conjunction at the end of the terms that wait.
fn take_apart(
    heap: &Heap,
    atoms: &Atoms,
    id: TermId,
    found: &mut Vec<TermId>,
    waiting: &mut Vec<TermId>,
) -> Result<(), AllocError>
    requires live { id < length heap.now.now.terms }
    requires names { KnowsTerms atoms.now heap.now.now.terms }
    ensures { OnOk result (TakesApart members atoms.now heap.now.now.terms found.old.items waiting.old.items id found.new.items waiting.new.items) }
{
    match conjuncts(heap, atoms, id) {
        Some(sides) => {
            let left = sides.left;
            waiting.push(sides.right)?;
            waiting.push(left)?;
            Ok(())
        }
        None => {
            found.push(id)?;
            Ok(())
        }
    }
}

/// The sides of a conjunction.
fn conjuncts(heap: &Heap, atoms: &Atoms, id: TermId) -> Option<Sides>
    requires live { id < length heap.now.now.terms }
    requires names { KnowsTerms atoms.now heap.now.now.terms }
    ensures some { IfSome result (AreConjuncts atoms.now heap.now.now.terms id) }
    ensures none { IsNone result → members (tree atoms.now heap.now.now.terms id) ≡ tree atoms.now heap.now.now.terms id ∷ [] }
{
    let sides = sides_of(heap, id)?;
    if atoms.text(sides.name) == "," {
        Some(sides)
    } else {
        None
    }
}
