//! The equations that a list of constraints entails: its own, and the weak rows that are zero in every solution.
#![tactic(auto)]

pub mod telling;

ghost use Rattle.std.specs.Prelude.{◌≡◌, ℕ, List, [], ◌∷◌, ◌++◌, IfOk, OnOk};
ghost use Rattle.spec_linear.specs.Form.{Linear};
ghost use Rattle.spec_linear.specs.Solution.{Solvable, Entails, Equivalent, equal_zero};
ghost use Rattle.spec_projection.specs.Interior.{equations_of};
ghost use Rattle.cq_frac.specs.declared.Pair.{Pair};
ghost use Rattle.cq_store.specs.declared.store.StoreFault.TheVariants.{Overflow, Pivots};
ghost use Rattle.cq_project.specs.Answering.{IsRefusedAnswering, IsSpentAnswering};
ghost use Rattle.cq_project.specs.Disclosing.{IsDisclosed, Discloses, RefusesDisclosing, SpendsDisclosing, RefusesSome, SpendsSome};

use crate::reduce::telling::holding;
use cq_form::Constraint;
use cq_store::store::{Store, StoreFault};
use spec_linear::Relation;
use std::alloc::{AllocError, Global};

/// The row, or its equation where it is weak and zero in every solution of the told list.
fn disclosed_row(store: &mut Store, row: &Constraint) -> Result<Constraint, StoreFault>
    ensures disclosed { IfOk result (IsDisclosed store.old.told row.now) }
    ensures overflow { (pair : Pair) → result ≡ Err (Overflow pair) → RefusesDisclosing store.old.told row.now pair }
    ensures pivots { (n : ℕ) → result ≡ Err (Pivots n) → (n ≡ store.old.pivots) × SpendsDisclosing store.old.told row.now n }
    ensures told { store.new.told ≡ store.old.told }
    ensures budget { store.new.pivots ≡ store.old.pivots }
{
    let equation = match row.relation {
        Relation::Ge => Constraint {
            relation: Relation::Eq,
            form: row.form.clone()?,
        },
        _ => return Ok(row.clone()?),
    };
    if store.entailed(&equation)? {
        Ok(equation)
    } else {
        Ok(row.clone()?)
    }
}

/// Appends the row.
fn append(rows: &mut Vec<Constraint>, row: Constraint) -> Result<(), AllocError>
    ensures { OnOk result (rows.new.items ≡ rows.old.items ++ row ∷ []) }
{
    rows.push(row)?;
    Ok(())
}

/// The rows, which the store was told, each weak row that is zero in every solution made an equation.
fn disclosed_rows(
    alloc: Global,
    store: &mut Store,
    rows: &[Constraint],
) -> Result<Vec<Constraint>, StoreFault>
    requires told { store.old.told ≡ rows.now }
    ensures disclosed { IfOk result (λ all. Discloses rows.now rows.now all.items) }
    ensures overflow { (pair : Pair) → result ≡ Err (Overflow pair) → RefusesSome rows.now pair }
    ensures pivots { (n : ℕ) → result ≡ Err (Pivots n) → (n ≡ store.old.pivots) × SpendsSome rows.now n }
{
    let mut all = Vec::new(alloc);
    'rows: for row in rows {
        let disclosed = disclosed_row(store, row)?;
        append(&mut all, disclosed)?;
    }
    Ok(all)
}

/// The list with each weak row that is zero in every solution made an equation. Then every equation that the list entails
/// follows from those that stand there. No call of a store makes more than `pivots` exchanges.
pub fn disclosed(
    alloc: Global,
    told: &[Constraint],
    pivots: u64,
) -> Result<Vec<Constraint>, StoreFault>
    requires solvable { Solvable told.now }
    ensures disclosed { IfOk result (λ all. Discloses told.now told.now all.items) }
    ensures same { IfOk result (λ all. Equivalent all.items told.now) }
    ensures complete { IfOk result (λ all. (f : Linear) → Entails told.now (equal_zero f) → Entails (equations_of all.items) (equal_zero f)) }
    ensures overflow { (targets : List ℕ) (pair : Pair) → result ≡ Err (Overflow pair) → IsRefusedAnswering targets told.now pair }
    ensures pivots { (targets : List ℕ) (n : ℕ) → result ≡ Err (Pivots n) → (n ≡ pivots) × IsSpentAnswering targets told.now n }
{
    let mut store = holding(alloc, told, pivots)?;
    disclosed_rows(alloc, &mut store, told)
}
