// Told terms and expressions as linear ones, under the values that the linear constraints fix.

ghost use Rattle.std.specs.Prelude.{◌≡◌, ◌<◌, ◌≤◌, length, IfOk};
ghost use Rattle.spec_branch.specs.Relations.{lin, lin_expression};
ghost use Rattle.spec_transcript.specs.Operands.{relation_operands, expression_operands};
ghost use Rattle.cq_cexpr.specs.Found.{constraint_of, expression_of};
ghost use Rattle.cq_cexpr.specs.Overflows.{ComesFrom};
ghost use Rattle.cq_frac.specs.declared.Pair.{Pair};
ghost use Rattle.cq_term.specs.Trees.{tree, KnowsTerms};
ghost use Rattle.cq_questions.specs.Values.{AtValues};

use crate::values::bind_values;
use cq_cexpr::{Lin, LinExpression, linearise, linearise_expression};
use cq_frac::Refusal;
use cq_store::store::Store;
use cq_term::atoms::Atoms;
use cq_term::{Heap, TermId};
use cq_trail::Undo;

/// What a relation is under the values that the told list fixes. The heap is as at the call.
pub(crate) fn relation_now(
    heap: &mut Heap,
    store: &Store,
    atoms: &Atoms,
    term: TermId,
) -> Result<Lin, Refusal>
    requires live { term < length heap.old.now.terms }
    requires names { KnowsTerms atoms.now heap.old.now.terms }
    ensures lin { IfOk result (λ r. AtValues store.now.told (λ fixed. constraint_of r ≡ lin fixed (tree atoms.now heap.old.now.terms term))) }
    ensures overflow { (pair : Pair) → result ≡ Err (Refusal.Overflow pair)
        → AtValues store.now.told (λ fixed. ComesFrom (relation_operands fixed (tree atoms.now heap.old.now.terms term)) pair) }
    ensures heap { heap.new.now ≡ heap.old.now }
    ensures saved { heap.new.saved ≡ heap.old.saved }
    ensures room { heap.old.room ≤ heap.new.room }
{
    let start = heap.mark()?;
    let relation = relation_with_values(heap, store, atoms, term);
    heap.undo(start);
    relation
}

/// The same, but for variables that stay bound.
fn relation_with_values(
    heap: &mut Heap,
    store: &Store,
    atoms: &Atoms,
    term: TermId,
) -> Result<Lin, Refusal>
    requires live { term < length heap.old.now.terms }
    requires names { KnowsTerms atoms.now heap.old.now.terms }
    ensures lin { IfOk result (λ r. AtValues store.now.told (λ fixed. constraint_of r ≡ lin fixed (tree atoms.now heap.old.now.terms term))) }
    ensures overflow { (pair : Pair) → result ≡ Err (Refusal.Overflow pair)
        → AtValues store.now.told (λ fixed. ComesFrom (relation_operands fixed (tree atoms.now heap.old.now.terms term)) pair) }
    ensures saved { heap.new.saved ≡ heap.old.saved }
    ensures room { heap.old.room ≤ heap.new.room }
{
    bind_values(heap, store, term)?;
    match linearise(heap, atoms, term) {
        Ok(relation) => Ok(relation),
        Err(refusal) => Err(refusal),
    }
}

/// What an expression is under the values that the told list fixes. The heap is as at the call.
pub(crate) fn expression_now(
    heap: &mut Heap,
    store: &Store,
    atoms: &Atoms,
    term: TermId,
) -> Result<LinExpression, Refusal>
    requires live { term < length heap.old.now.terms }
    requires names { KnowsTerms atoms.now heap.old.now.terms }
    ensures lin { IfOk result (λ r. AtValues store.now.told (λ fixed. expression_of r ≡ lin_expression fixed (tree atoms.now heap.old.now.terms term))) }
    ensures overflow { (pair : Pair) → result ≡ Err (Refusal.Overflow pair)
        → AtValues store.now.told (λ fixed. ComesFrom (expression_operands fixed (tree atoms.now heap.old.now.terms term)) pair) }
    ensures heap { heap.new.now ≡ heap.old.now }
    ensures saved { heap.new.saved ≡ heap.old.saved }
    ensures room { heap.old.room ≤ heap.new.room }
{
    let start = heap.mark()?;
    let expression = expression_with_values(heap, store, atoms, term);
    heap.undo(start);
    expression
}

/// The same, but for variables that stay bound.
fn expression_with_values(
    heap: &mut Heap,
    store: &Store,
    atoms: &Atoms,
    term: TermId,
) -> Result<LinExpression, Refusal>
    requires live { term < length heap.old.now.terms }
    requires names { KnowsTerms atoms.now heap.old.now.terms }
    ensures lin { IfOk result (λ r. AtValues store.now.told (λ fixed. expression_of r ≡ lin_expression fixed (tree atoms.now heap.old.now.terms term))) }
    ensures overflow { (pair : Pair) → result ≡ Err (Refusal.Overflow pair)
        → AtValues store.now.told (λ fixed. ComesFrom (expression_operands fixed (tree atoms.now heap.old.now.terms term)) pair) }
    ensures saved { heap.new.saved ≡ heap.old.saved }
    ensures room { heap.old.room ≤ heap.new.room }
{
    bind_values(heap, store, term)?;
    match linearise_expression(heap, atoms, term) {
        Ok(expression) => Ok(expression),
        Err(refusal) => Err(refusal),
    }
}
