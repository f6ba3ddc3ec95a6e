// Whether two terms are variants of each other.

ghost use Rattle.std.specs.Prelude.{◌≡◌, ◌<◌, ◌↔◌, length, IsTrue, IfOk, OnOk};
ghost use Rattle.spec_terms.specs.Variables.{with_variable};
ghost use Rattle.spec_terms.specs.Variants.{AreVariants};
ghost use Rattle.cq_term.specs.Meaning.{at};
ghost use Rattle.cq_term.specs.Places.{numbers_of, place_of};

use crate::order::pairs::{Heads, compare_heads, is_one_ground_term};
use cq_frac::VarId;
use cq_term::walk::{Pair, push_pairs};
use cq_term::{Heap, TermId};
use indexmap::IndexSet;
use std::alloc::AllocError;

/// The variables that were met in each of two terms, in the order in which they were met.
#[derive(Drop)]
struct Met {
    left: IndexSet<VarId>,
    right: IndexSet<VarId>,
}

/// Whether each of two terms, read through bindings, is an instance of the other. Terms that share an id are not looked
/// into, and only two compounds take memory, of which an error is the want.
pub fn variant(heap: &Heap, a: TermId, b: TermId) -> Result<bool, AllocError>
    requires a { a < length heap.now.now.terms }
    requires b { b < length heap.now.now.terms }
    ensures { IfOk result (λ variant. IsTrue variant ↔ AreVariants (at heap.now.now.terms a) (at heap.now.now.terms b)) }
{
    if a == b {
        return Ok(true);
    }
    match compare_heads(heap, a, b) {
        Heads::Same => Ok(true),
        Heads::Different => Ok(false),
        Heads::Variables(_, _) => Ok(true),
        Heads::Arguments(_) => variant_throughout(heap, a, b),
    }
}

/// The same by a walk.
fn variant_throughout(heap: &Heap, a: TermId, b: TermId) -> Result<bool, AllocError>
    requires a { a < length heap.now.now.terms }
    requires b { b < length heap.now.now.terms }
    ensures { IfOk result (λ variant. IsTrue variant ↔ AreVariants (at heap.now.now.terms a) (at heap.now.now.terms b)) }
{
    let mut met = Met {
        left: IndexSet::new(heap.alloc()),
        right: IndexSet::new(heap.alloc()),
    };
    let mut work = vec![in heap.alloc(); Pair { left: a, right: b }]?;
    while let Some(pair) = work.pop() {
        if is_one_ground_term(heap, pair.left, pair.right) {
            continue;
        }
        match compare_heads(heap, pair.left, pair.right) {
            Heads::Same => {}
            Heads::Different => return Ok(false),
            Heads::Variables(v, w) => {
                if !met.have_one_place(v, w)? {
                    return Ok(false);
                }
            }
            Heads::Arguments(arity) => push_pairs(heap, pair.left, pair.right, arity, &mut work)?,
        }
    }
    Ok(true)
}

impl Met {
    /// Whether the variables, which are now met, were first met at the same time, or both now.
    fn have_one_place(&mut self, v: VarId, w: VarId) -> Result<bool, AllocError>
        ensures left { OnOk result (numbers_of self.new.left.keys ≡ with_variable (numbers_of self.old.left.keys) v.0) }
        ensures right { OnOk result (numbers_of self.new.right.keys ≡ with_variable (numbers_of self.old.right.keys) w.0) }
        ensures place { IfOk result (λ one. IsTrue one ↔ (place_of self.old.left.keys v.0 ≡ place_of self.old.right.keys w.0)) }
    {
        let (left, _) = self.left.insert_full(v)?;
        let (right, _) = self.right.insert_full(w)?;
        Ok(left == right)
    }
}
