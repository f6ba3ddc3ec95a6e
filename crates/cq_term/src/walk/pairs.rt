// Pairs of terms that are still to be looked at side by side.

ghost use Rattle.std.specs.Prelude.{◌≡◌, ◌<◌, length, OnOk};
ghost use Rattle.cq_term.specs.Meaning.{at};
ghost use Rattle.cq_term.specs.Shown.{arguments};
ghost use Rattle.cq_term.specs.Pairs.{PushesPairs};

use crate::{Heap, TermId};
use std::alloc::AllocError;

/// Two terms of a heap.
#[derive(Clone, Copy)]
pub struct Pair {
    pub left: TermId,
    pub right: TermId,
}

/// Adds the pairs of the arguments of two compounds to the work, the last one first, so that the first is taken first.
pub fn push_pairs(
    heap: &Heap,
    left: TermId,
    right: TermId,
    arity: usize,
    work: &mut Vec<Pair>,
) -> Result<(), AllocError>
    requires left { left < length heap.now.now.terms }
    requires right { right < length heap.now.now.terms }
    requires left_arity { length (arguments (at heap.now.now.terms left)) ≡ arity }
    requires right_arity { length (arguments (at heap.now.now.terms right)) ≡ arity }
    ensures { OnOk result (PushesPairs heap.now.now.terms left right 0 work.old.items work.new.items) }
{
    let lefts = heap.args(left);
    let rights = heap.args(right);
    for i in (0..arity).rev() {
        let pair = Pair {
            left: lefts[i],
            right: rights[i],
        };
        work.push(pair)?;
    }
    Ok(())
}
