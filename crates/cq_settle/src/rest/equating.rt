// Several pairs of terms that are made equal.

ghost use Rattle.std.specs.Prelude.{◌≡◌, ◌≤◌, ℕ, None, All, length, IfOk, IfSome, Ok};
ghost use Rattle.spec_terms.specs.Unifier.{HasNoUnifier};
ghost use Rattle.cq_term.specs.Names.{KeepsNames};
ghost use Rattle.cq_term.specs.Pairs.{equations};
ghost use Rattle.cq_settle.specs.Equal.{MayBeEqual, AllEqual};

use cq_term::walk::Pair;
use cq_term::{Heap, Newly};
use cq_unify::unify_unmarked;
use std::alloc::AllocError;

/// Makes pairs of terms equal, one after another, and gives the variables that were bound, in a list that the heap lends; None
/// where nothing makes all of them equal. Then, and after want of memory, some may be equal: the caller undoes.
pub fn equate(heap: &mut Heap, pairs: &[Pair]) -> Result<Option<Newly>, AllocError>
    requires { All (MayBeEqual heap.old.now) pairs.now }
    ensures equal { IfOk result (λ r. IfSome r (AllEqual heap.old.now heap.new.now pairs.now)) }
    ensures none { result ≡ Ok None → HasNoUnifier (equations heap.old.now.terms pairs.now) }
    ensures names { (n : ℕ) → KeepsNames n heap.old.now heap.new.now }
    ensures saved { heap.new.saved ≡ heap.old.saved }
    ensures room { heap.old.room ≤ heap.new.room }
{
    let mut newly = heap.spare_newly();
    for pair in pairs {
        if !unify_unmarked(heap, &mut newly, pair.left, pair.right)? {
            return Ok(None);
        }
    }
    Ok(Some(newly))
}
