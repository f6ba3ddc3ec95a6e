// Variables of a term that are bound to the values that the linear constraints fix.

ghost use Rattle.std.specs.Prelude.{◌≡◌, ◌<◌, ◌≤◌, ℕ, List, All, Contains, Option, length, OnOk, MatchBool};
ghost use Rattle.spec_numbers.specs.Rational.{ℚ};
ghost use Rattle.spec_linear.specs.Solution.{Fixes};
ghost use Rattle.spec_numbers.specs.Texts.{Text};
ghost use Rattle.spec_terms.specs.Term.{Var, Occurs, apply};
ghost use Rattle.cq_settle.specs.Underway.{valued};
ghost use Rattle.cq_term.specs.Meaning.{at};
ghost use Rattle.cq_term.specs.Names.{HasNamesBelow};
ghost use Rattle.cq_term.specs.Trees.{tree};
ghost use Rattle.cq_term.specs.Places.{numbers_of};
ghost use Rattle.cq_questions.specs.Values.{AtValues, IsValued, IsFree};

use cq_frac::VarId;
use cq_store::store::Store;
use cq_term::{Heap, TermId, View};
use cq_unify::vars_of;
use std::alloc::AllocError;

/// The told list fixes values. This does nothing but prove it.
pub(crate) fn values_are_fixed(store: &Store)
    ensures { (fixed : ℕ → Option ℚ) × Fixes store.now.told fixed }
{
    let _ = store.told();
}

/// Binds the variables of a term to the values that the told list fixes.
pub(crate) fn bind_values(heap: &mut Heap, store: &Store, term: TermId) -> Result<(), AllocError>
    requires { term < length heap.old.now.terms }
    ensures live { OnOk result (term < length heap.new.now.terms) }
    ensures values { OnOk result ((texts : List Text) → AtValues store.now.told (λ fixed. tree texts heap.new.now.terms term
        ≡ apply (valued fixed) (tree texts heap.old.now.terms term))) }
    ensures names { OnOk result ((n : ℕ) → HasNamesBelow n (at heap.old.now.terms term) → HasNamesBelow n (at heap.new.now.terms term)) }
    ensures saved { heap.new.saved ≡ heap.old.saved }
    ensures room { heap.old.room ≤ heap.new.room }
{
    let variables = vars_of(heap, term)?;
    bind_each(heap, store, &variables, term)?;
    Ok(())
}

/// Binds each of the variables to the value that the told list fixes, if there is one and the variable is unbound.
fn bind_each(
    heap: &mut Heap,
    store: &Store,
    variables: &[VarId],
    term: TermId,
) -> Result<(), AllocError>
    requires live { term < length heap.old.now.terms }
    requires there { All (λ v. v.0 < length heap.old.now.images) variables.now }
    ensures valued { OnOk result (IsValued store.now.told heap.old.now heap.new.now term) }
    ensures free { OnOk result ((v : ℕ) → Contains (numbers_of variables.now) v → IsFree store.now.told heap.new.now term v) }
    ensures names { OnOk result ((n : ℕ) → HasNamesBelow n (at heap.old.now.terms term) → HasNamesBelow n (at heap.new.now.terms term)) }
    ensures saved { heap.new.saved ≡ heap.old.saved }
    ensures room { heap.old.room ≤ heap.new.room }
{
    for &variable in variables {
        bind_value(heap, store, variable, term)?;
    }
    Ok(())
}

/// Binds a variable to the value that the told list fixes, if there is one and the variable is unbound.
fn bind_value(
    heap: &mut Heap,
    store: &Store,
    variable: VarId,
    term: TermId,
) -> Result<(), AllocError>
    requires live { term < length heap.old.now.terms }
    requires there { variable.0 < length heap.old.now.images }
    ensures valued { OnOk result (IsValued store.now.told heap.old.now heap.new.now term) }
    ensures free { OnOk result (IsFree store.now.told heap.new.now term variable.0) }
    ensures names { OnOk result ((n : ℕ) → HasNamesBelow n (at heap.old.now.terms term) → HasNamesBelow n (at heap.new.now.terms term)) }
    ensures saved { heap.new.saved ≡ heap.old.saved }
    ensures room { heap.old.room ≤ heap.new.room }
{
    let Some(value) = store.value(variable) else {
        return Ok(());
    };
    let _ = heap.view(term);
    if !is_unbound(heap, variable) {
        return Ok(());
    }
    let number = heap.number(value)?;
    heap.bind(variable, number)?;
    Ok(())
}

/// Whether a variable is unbound.
fn is_unbound(heap: &Heap, variable: VarId) -> bool
    requires { variable.0 < length heap.now.now.images }
    ensures { MatchBool result (at heap.now.now.images variable.0 ≡ Var variable.0) (at heap.now.now.images variable.0 ≡ Var variable.0 → ⊥) }
{
    match heap.view(heap.var_term(variable)) {
        View::Var(image) => image == variable,
        View::Number(_) | View::Name(_) | View::Compound(_, _) => false,
    }
}
