// Terms that are to be told, or to be made equal.

ghost use Rattle.std.specs.Prelude.{◌<◌, All, length};
ghost use Rattle.cq_term.specs.Pairs.{IsLive};
ghost use Rattle.cq_settle.specs.Equal.{MayBeEqual};
ghost use Rattle.cq_settle.specs.Ready.{MayBeTold};

use cq_term::walk::Pair;
use cq_term::{Heap, TermId};

/// A term of a heap is read through its bindings: it may be told.
#[inline(always)]
pub fn look_at(heap: &Heap, id: TermId)
    requires live { id < length heap.now.now.terms }
    ensures told { MayBeTold heap.now.now id }
{
    let _ = heap.view(id);
}

/// The same of several terms.
pub fn look_at_told(heap: &Heap, told: &[TermId])
    requires live { All (λ id. id < length heap.now.now.terms) told.now }
    ensures told { All (MayBeTold heap.now.now) told.now }
{
    for &id in told {
        look_at(heap, id);
    }
}

/// Terms of a heap may be made equal.
#[inline(always)]
pub fn look_at_pairs(heap: &Heap, pairs: &[Pair])
    requires live { All (IsLive heap.now.now.terms) pairs.now }
    ensures equal { All (MayBeEqual heap.now.now) pairs.now }
{
    for pair in pairs {
        look_at(heap, pair.left);
        look_at(heap, pair.right);
    }
}
