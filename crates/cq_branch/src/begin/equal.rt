// Pairs of terms that are made equal, where nothing is to be settled then.

ghost use Rattle.std.specs.Prelude.{◌≡◌, ◌≢◌, ◌<◌, ◌≤◌, ◌∷◌, [], All, Ok, IfOk, IsTrue, length, true};
ghost use Rattle.spec_terms.specs.Unifier.{HasNoUnifier};
ghost use Rattle.cq_settle.specs.Equal.{MayBeEqual};
ghost use Rattle.cq_term.specs.Meaning.{at};
ghost use Rattle.cq_term.specs.Shown.{view_of};
ghost use Rattle.cq_term.specs.Pairs.{equations};
ghost use Rattle.cq_branch.specs.Entries.{AreFree, IfApart, IfEqual, IsConstant};
ghost use Rattle.cq_branch.specs.declared.begin.equal.Equated.TheVariants.{Equal};

use crate::begin::entering::is_free;
use cq_attr::Attrs;
use cq_settle::rest::equate;
use cq_term::walk::Pair;
use cq_term::{Heap, TermId, View};
use cq_trail::Undo;
use std::alloc::AllocError;

/// What pairs of terms come to.
#[derive(Clone, Copy)]
pub(crate) enum Equated {
    /// They were made equal, with nothing to be settled.
    Equal,
    /// Nothing makes them equal.
    Apart,
    /// Something is to be settled once they are equal.
    Unsettled,
}

/// Makes pairs of terms equal, where nothing is to be settled then. The heap alone is marked, and not even that for a variable
/// that is to become a number or a name: after any other answer, and after want of memory, it is as at the call.
pub(crate) fn equate_free(
    heap: &mut Heap,
    attrs: &Attrs,
    pairs: &[Pair],
) -> Result<Equated, AllocError>
    requires { All (MayBeEqual heap.old.now) pairs.now }
    ensures equal { IfOk result (λ e. IfEqual e (AreFree heap.old.now heap.new.now attrs.now.now pairs.now)) }
    ensures apart { IfOk result (λ e. IfApart e (HasNoUnifier (equations heap.old.now.terms pairs.now))) }
    ensures unchanged { result ≢ Ok Equal → heap.new.now ≡ heap.old.now }
    ensures saved { heap.new.saved ≡ heap.old.saved }
    ensures room { heap.old.room ≤ heap.new.room }
{
    if pairs.len() == 1 {
        if bind_constant(heap, attrs, pairs[0])? {
            return Ok(Equated::Equal);
        }
    }
    heap.reserve(1)?;
    let start = heap.mark().unwrap();
    let equated = equate_unmarked(heap, attrs, pairs);
    if let Ok(Equated::Equal) = equated {
        heap.forget(start);
    } else {
        heap.undo(start);
    }
    equated
}

/// The same, but for what was bound before any other answer, or before memory ran out.
fn equate_unmarked(heap: &mut Heap, attrs: &Attrs, pairs: &[Pair]) -> Result<Equated, AllocError>
    requires { All (MayBeEqual heap.old.now) pairs.now }
    ensures equal { IfOk result (λ e. IfEqual e (AreFree heap.old.now heap.new.now attrs.now.now pairs.now)) }
    ensures apart { IfOk result (λ e. IfApart e (HasNoUnifier (equations heap.old.now.terms pairs.now))) }
    ensures saved { heap.new.saved ≡ heap.old.saved }
    ensures room { heap.old.room ≤ heap.new.room }
{
    let Some(newly) = equate(heap, pairs)? else {
        return Ok(Equated::Apart);
    };
    let free = is_free(attrs, newly.as_slice());
    heap.keep_newly(newly);
    if free {
        Ok(Equated::Equal)
    } else {
        Ok(Equated::Unsettled)
    }
}

/// Binds an unbound variable that nothing waits for to a number or a name. False, with nothing changed, where the terms are others.
pub(crate) fn bind_constant(heap: &mut Heap, attrs: &Attrs, pair: Pair) -> Result<bool, AllocError>
    requires { MayBeEqual heap.old.now pair }
    ensures bound { result ≡ Ok true → AreFree heap.old.now heap.new.now attrs.now.now (pair ∷ []) }
    ensures unchanged { result ≢ Ok true → heap.new.now ≡ heap.old.now }
    ensures saved { heap.new.saved ≡ heap.old.saved }
    ensures room { heap.old.room ≤ heap.new.room }
{
    let View::Var(variable) = heap.view(pair.left) else {
        return Ok(false);
    };
    if is_constant(heap, pair.right) && is_free(attrs, &[variable]) {
        heap.bind(variable, pair.right)?;
        Ok(true)
    } else {
        Ok(false)
    }
}

/// Whether a term is a number or a name.
fn is_constant(heap: &Heap, id: TermId) -> bool
    requires { id < length heap.now.now.terms }
    ensures { IsTrue result → IsConstant (view_of (at heap.now.now.terms id)) }
{
    match heap.view(id) {
        View::Number(_) | View::Name(_) => true,
        View::Var(_) | View::Compound(_, _) => false,
    }
}
