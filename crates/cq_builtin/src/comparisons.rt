// The comparisons of terms in the standard order.

ghost use Rattle.std.specs.Prelude.{◌≡◌, ◌<◌, length, IfOk};
ghost use Rattle.spec_builtins.specs.Alternatives.{allows, holds_if};
ghost use Rattle.cq_term.specs.Trees.{KnowsTerms};
ghost use Rattle.cq_builtin.specs.Rows.{comparison_of};
ghost use Rattle.cq_builtin.specs.Terms.{order_of};

use cq_term::atoms::Atoms;
use cq_term::{Heap, TermId};
use cq_unify::order::compare;
use std::alloc::AllocError;
use std::cmp::Ordering;

/// How one term is to stand to another: `==`, `\==`, `@<`, `@=<`, `@>` and `@>=`.
#[derive(Clone, Copy, PartialEq, Eq)]
pub enum Comparison {
    Same,
    NotSame,
    Before,
    BeforeOrSame,
    After,
    AfterOrSame,
}

/// Whether the comparison holds of two terms. An error is want of memory.
pub fn order(
    heap: &Heap,
    atoms: &Atoms,
    comparison: Comparison,
    left: TermId,
    right: TermId,
) -> Result<bool, AllocError>
    requires left { left < length heap.now.now.terms }
    requires right { right < length heap.now.now.terms }
    requires names { KnowsTerms atoms.now heap.now.now.terms }
    ensures { IfOk result (λ holds. holds_if holds ≡ order_of atoms.now heap.now.now.terms comparison left right) }
{
    let order = compare(heap, atoms, left, right)?;
    Ok(is_allowed(comparison, order))
}

/// Whether two things that stand in this order stand as the comparison asks.
pub fn is_allowed(comparison: Comparison, order: Ordering) -> bool
    ensures { result ≡ allows (comparison_of comparison) order }
{
    match comparison {
        Comparison::Same => order == Ordering::Equal,
        Comparison::NotSame => order != Ordering::Equal,
        Comparison::Before => order == Ordering::Less,
        Comparison::BeforeOrSame => order != Ordering::Greater,
        Comparison::After => order == Ordering::Greater,
        Comparison::AfterOrSame => order != Ordering::Less,
    }
}
