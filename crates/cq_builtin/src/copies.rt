// copy_term: a term under new variables.

ghost use Rattle.std.specs.Prelude.{◌≡◌, ◌<◌, [], ◌∷◌, length, IfOk, OnErr};
ghost use Rattle.cq_term.specs.Trees.{KnowsTerms};
ghost use Rattle.cq_term.specs.Pairs.{IsLive};
ghost use Rattle.cq_builtin.specs.Over.{OffersOver, GrowsWithVariables, copied_of};

use cq_resolve::stored::StoredTerm;
use cq_term::atoms::Atoms;
use cq_term::walk::Pair;
use cq_term::{Heap, TermId};
use std::alloc::AllocError;

/// copy_term(ORIGINAL,COPY): the copy with the term to which it is to be unified, which is the original with a new variable
/// in the place of each of its own. `atoms` has to know the names in the heap's terms. An error is want of memory.
pub fn copy_term(
    heap: &mut Heap,
    atoms: &Atoms,
    original: TermId,
    copy: TermId,
) -> Result<Pair, AllocError>
    requires original { original < length heap.old.now.terms }
    requires copy { copy < length heap.old.now.terms }
    requires names { KnowsTerms atoms.now heap.old.now.terms }
    ensures offered { IfOk result (λ p. OffersOver atoms.now heap.old.now heap.new.now (copied_of atoms.now heap.old.now original copy) (p ∷ [])) }
    ensures live { IfOk result (IsLive heap.new.now.terms) }
    ensures grows { GrowsWithVariables atoms.now heap.old heap.new }
    ensures err { OnErr result (heap.new.now ≡ heap.old.now) }
{
    let stored = StoredTerm::of(heap, original)?;
    let right = stored.restore(heap)?;
    Ok(Pair { left: copy, right })
}
