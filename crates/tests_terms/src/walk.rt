// How often a compound is gone into.

ghost use Rattle.std.specs.Prelude.{◌<◌, length, IfOk};

use crate::names::f_named;
use cq_term::walk::Visited;
use cq_term::{Atom, Heap, TermId, View};
use std::alloc::{AllocError, Global};
use std::test::Fail;

/// A name over a variable and an atom.
fn sample(heap: &mut Heap, name: Atom) -> Result<TermId, AllocError>
    ensures live { IfOk result (λ id. id < length heap.new.now.terms) }
{
    let first = heap.new_var()?;
    let second = heap.atom(name)?;
    heap.compound(name, &[first, second])
}

/// How many arguments come to the work where one compound is visited so many times.
fn visited(heap: &Heap, id: TermId, times: usize) -> Result<usize, AllocError>
    requires { id < length heap.now.now.terms }
{
    let mut visited = Visited::new(heap.alloc());
    let mut work = Vec::new(heap.alloc());
    for _time in 0..times {
        if let View::Compound(_, arity) = heap.view(id) {
            visited.visit(heap, id, arity, &mut work)?;
        }
    }
    Ok(work.len())
}

fn added(alloc: Global, name: Atom, times: usize) -> Result<usize, AllocError> {
    let mut heap = Heap::new(alloc);
    let whole = sample(&mut heap, name)?;
    visited(&heap, whole, times)
}

#[test]
fn a_compound_is_gone_into_sixty_five_times(rt: HostRuntime) -> Result<(), Fail> {
    let f = f_named(rt.alloc())?;
    assert_eq!(rt; added(rt.alloc(), f, 1)?, 2);
    assert_eq!(rt; added(rt.alloc(), f, 65)?, 130);
    assert_eq!(rt; added(rt.alloc(), f, 66)?, 130);
    Ok(())
}
