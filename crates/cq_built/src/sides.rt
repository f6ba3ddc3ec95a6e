//! The two arguments of a compound on a heap, and the parts of a term that are looked for through such compounds.
#![tactic(auto)]

// The two arguments of compounds.

ghost use Rattle.std.specs.Prelude.{◌≡◌, ◌<◌, false, length, IfSome, IsNone};
ghost use Rattle.cq_term.specs.Meaning.{at};
ghost use Rattle.cq_built.specs.Sides.{HasSides, is_binary};

use cq_term::{Atom, Heap, TermId, View};

/// The name and the arguments of a compound that has two.
#[derive(Clone, Copy)]
pub struct Sides {
    pub name: Atom,
    pub left: TermId,
    pub right: TermId,
}

/// The sides of a term; None where it is no compound of two arguments.
pub fn sides_of(heap: &Heap, id: TermId) -> Option<Sides>
    requires { id < length heap.now.now.terms }
    ensures some { IfSome result (HasSides heap.now.now.terms id) }
    ensures none { IsNone result → is_binary (at heap.now.now.terms id) ≡ false }
{
    match heap.view(id) {
        View::Compound(name, arity) => {
            if arity != 2 {
                return None;
            }
            let left = heap.arg(id, 0);
            let right = heap.arg(id, 1);
            Some(Sides { name, left, right })
        }
        _ => None,
    }
}
