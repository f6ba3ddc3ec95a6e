// Goals on the heap of a machine without a query.

ghost use Rattle.std.specs.Prelude.{◌≡◌, ◌<◌, ◌≤◌, ℕ, All, length, map, IfOk, OnOk};
ghost use Rattle.spec_numbers.specs.Prefixes.{IsPrefix};
ghost use Rattle.spec_terms.specs.Term.{with_arguments};
ghost use Rattle.spec_terms.specs.Variables.{counted_from};
ghost use Rattle.spec_transcript.specs.Purposes as purposes;
ghost use Rattle.cq_unify.specs.Copied.{unbound_from};
ghost use Rattle.cq_resolve.specs.StoredValue.{HaveNamesBelow};
ghost use Rattle.cq_term.specs.Meaning.{at};
ghost use Rattle.cq_term.specs.Trees.{tree, KnowsTerms};
ghost use Rattle.cq_interpreter.specs.Variables.{AreUnbound};

use cq_frac::VarId;
use cq_resolve::stored::{Clause, new_variables};
use cq_term::{Atom, Heap, TermId};
use std::alloc::AllocError;

/// The terms of the first so many variables.
fn variable_terms(heap: &Heap, count: usize) -> Result<Vec<TermId>, AllocError>
    requires { count ≤ length heap.now.now.images }
    ensures live { IfOk result (λ ids. All (λ id. id < length heap.now.now.terms) ids.items) }
    ensures terms { IfOk result (λ ids. map (at heap.now.now.terms) ids.items ≡ map (at heap.now.now.images) (counted_from 0 count)) }
{
    let mut ids = Vec::new(heap.alloc());
    for number in 0..count {
        ids.push(heap.var_term(VarId(number)))?;
    }
    Ok(ids)
}

/// A name over all variables of the heap, in their order. A variable more is then on the heap.
fn over_variables(heap: &mut Heap, name: Atom) -> Result<TermId, AllocError>
    requires { AreUnbound heap.old.now.images }
    ensures live { IfOk result (λ id. id < length heap.new.now.terms) }
    ensures over { IfOk result (λ id. at heap.new.now.terms id ≡ with_arguments name (unbound_from 0 (length heap.old.now.images))) }
    ensures terms { OnOk result (IsPrefix heap.old.now.terms heap.new.now.terms) }
    ensures saved { heap.new.saved ≡ heap.old.saved }
{
    let count = new_variables(heap, 1)?;
    let ids = variable_terms(heap, count)?;
    if ids.is_empty() {
        let id = heap.atom(name)?;
        return Ok(id);
    }
    let id = heap.compound(name, &ids)?;
    Ok(id)
}

/// Keeps a goal with all variables of the heap: they are the arguments of the clause's head, so that the body has them in their
/// order.
pub(crate) fn kept(heap: &mut Heap, name: Atom, goal: TermId) -> Result<Clause, AllocError>
    requires unbound { AreUnbound heap.old.now.images }
    requires live { goal < length heap.old.now.terms }
    ensures body { IfOk result (λ c. c.body ≡ at heap.old.now.terms goal) }
    ensures variables { IfOk result (λ c. c.variables ≡ length heap.old.now.images) }
    ensures names { (texts : _) → KnowsTerms texts heap.old.now.terms → name < length texts → IfOk result (HaveNamesBelow (length texts)) }
    ensures saved { heap.new.saved ≡ heap.old.saved }
{
    heap.view(goal);
    let head = over_variables(heap, name)?;
    let clause = Clause::of(heap, head, goal)?;
    Ok(clause)
}
