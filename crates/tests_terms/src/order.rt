// Terms that are variants, small ones and one that is deeper than any stack.

ghost use Rattle.std.specs.Prelude.{◌<◌, ◌≤◌, length, IfOk};

use crate::names::f_named;
use cq_term::{Atom, Heap, TermId};
use cq_unify::order::variant;
use std::alloc::{AllocError, Global};
use std::test::Fail;

const DEPTH: usize = 200_000;

fn variable(heap: &mut Heap) -> Result<TermId, AllocError>
    ensures live { IfOk result (λ id. id < length heap.new.now.terms) }
    ensures more { length heap.old.now.terms ≤ length heap.new.now.terms }
{
    heap.new_var()
}

/// A name over two terms.
fn pair(heap: &mut Heap, name: Atom, first: TermId, second: TermId) -> Result<TermId, AllocError>
    requires first { first < length heap.old.now.terms }
    requires second { second < length heap.old.now.terms }
    ensures live { IfOk result (λ id. id < length heap.new.now.terms) }
    ensures more { length heap.old.now.terms ≤ length heap.new.now.terms }
{
    heap.compound(name, &[first, second])
}

/// Whether the name over the first two terms and the name over the others are variants.
fn are_variants(
    heap: &mut Heap,
    name: Atom,
    left: (TermId, TermId),
    right: (TermId, TermId),
) -> Result<bool, AllocError>
    requires left_first { left.0 < length heap.old.now.terms }
    requires left_second { left.1 < length heap.old.now.terms }
    requires right_first { right.0 < length heap.old.now.terms }
    requires right_second { right.1 < length heap.old.now.terms }
    ensures more { length heap.old.now.terms ≤ length heap.new.now.terms }
{
    let first = pair(heap, name, left.0, left.1)?;
    let second = pair(heap, name, right.0, right.1)?;
    variant(heap, first, second)
}

/// f(X, Y) and f(Y, X) are variants, and f(X, Y) and f(X, X) are not.
fn small_variants(heap: &mut Heap, f: Atom) -> Result<bool, AllocError> {
    let x = variable(heap)?;
    let y = variable(heap)?;
    let turned = are_variants(heap, f, (x, y), (y, x))?;
    let single = are_variants(heap, f, (x, y), (x, x))?;
    Ok(turned && !single)
}

/// A variable under so many names.
fn nested(heap: &mut Heap, name: Atom) -> Result<TermId, AllocError>
    ensures live { IfOk result (λ id. id < length heap.new.now.terms) }
    ensures more { length heap.old.now.terms ≤ length heap.new.now.terms }
{
    let inner = variable(heap)?;
    let mut whole = inner;
    for _level in 0..DEPTH {
        whole = pair(heap, name, whole, inner)?;
    }
    Ok(whole)
}

/// Two deep terms, each over a variable of its own.
fn deep_variants(heap: &mut Heap, f: Atom) -> Result<bool, AllocError> {
    let first = nested(heap, f)?;
    let second = nested(heap, f)?;
    variant(heap, first, second)
}

fn hold(alloc: Global, f: Atom) -> Result<bool, AllocError> {
    let mut heap = Heap::new(alloc);
    let small = small_variants(&mut heap, f)?;
    let deep = deep_variants(&mut heap, f)?;
    Ok(small && deep)
}

#[test]
fn variants_have_other_variables_but_as_many(rt: HostRuntime) -> Result<(), Fail> {
    let f = f_named(rt.alloc())?;
    assert!(rt; hold(rt.alloc(), f)?);
    Ok(())
}
