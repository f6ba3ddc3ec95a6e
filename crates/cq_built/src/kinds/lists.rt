// The elements of lists on a heap.

ghost use Rattle.std.specs.Prelude.{◌≡◌, ◌<◌, All, length, IfOk, IfSome, IsNone};
ghost use Rattle.spec_builtins.specs.Built.{is_atom};
ghost use Rattle.spec_builtins.specs.Kinds.{parts, no_cell};
ghost use Rattle.cq_term.specs.Trees.{tree, KnowsTerms};
ghost use Rattle.cq_built.specs.Cells.{IsCell, parts_of};

use cq_term::atoms::Atoms;
use cq_term::{Heap, TermId, View};
use std::alloc::AllocError;

/// The elements of a list's cells, and what stands behind the last cell.
#[derive(Drop)]
pub struct Parts {
    pub elements: Vec<TermId>,
    pub tail: TermId,
}

/// A cell of a list.
#[derive(Clone, Copy)]
struct Cell {
    head: TermId,
    tail: TermId,
}

/// The parts of a term, read through bindings: one that is no cell has no elements, and is its own tail. `atoms` has
/// to know the names in the heap's terms. An error is want of memory.
pub fn list_parts(heap: &Heap, atoms: &Atoms, term: TermId) -> Result<Parts, AllocError>
    requires live { term < length heap.now.now.terms }
    requires names { KnowsTerms atoms.now heap.now.now.terms }
    ensures live_elements { IfOk result (λ p. All (λ id. id < length heap.now.now.terms) p.elements.items) }
    ensures live_tail { IfOk result (λ p. p.tail < length heap.now.now.terms) }
    ensures parts { IfOk result (λ p. parts_of atoms.now heap.now.now.terms p ≡ parts (tree atoms.now heap.now.now.terms term)) }
{
    let mut elements = Vec::new(heap.alloc());
    let mut tail = term;
    while let Some(cell) = cell_of(heap, atoms, tail) {
        elements.push(cell.head)?;
        tail = cell.tail;
    }
    Ok(Parts { elements, tail })
}

/// The head and the tail of a cell.
fn cell_of(heap: &Heap, atoms: &Atoms, id: TermId) -> Option<Cell>
    requires live { id < length heap.now.now.terms }
    requires names { KnowsTerms atoms.now heap.now.now.terms }
    ensures cell { IfSome result (IsCell atoms.now heap.now.now.terms id) }
    ensures none { IsNone result → parts (tree atoms.now heap.now.now.terms id) ≡ no_cell (tree atoms.now heap.now.now.terms id) }
{
    match heap.view(id) {
        View::Compound(name, arity) => {
            if arity != 2 {
                return None;
            }
            if atoms.text(name) == "." {
                let head = heap.arg(id, 0);
                let tail = heap.arg(id, 1);
                Some(Cell { head, tail })
            } else {
                None
            }
        }
        _ => None,
    }
}

/// Whether a term is the empty list.
pub fn is_nil(heap: &Heap, atoms: &Atoms, id: TermId) -> bool
    requires live { id < length heap.now.now.terms }
    requires names { KnowsTerms atoms.now heap.now.now.terms }
    ensures { result ≡ is_atom "[]" (tree atoms.now heap.now.now.terms id) }
{
    match heap.view(id) {
        View::Name(name) => atoms.text(name) == "[]",
        _ => false,
    }
}
