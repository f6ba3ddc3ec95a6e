//! The reduced echelon form of what a list of constraints entails, and rows into which it is put.
#![tactic(auto)]

pub mod putting;

ghost use Rattle.std.specs.Prelude.{◌≡◌, ℕ, List, IfOk};
ghost use Rattle.spec_linear.specs.Solution.{Constraint as Member, Solvable, MentionsOnly, Has};
ghost use Rattle.spec_linear.specs.Echelon.{AreDistinct, IsEchelon};
ghost use Rattle.spec_projection.specs.Interior.{is_equation as is_equality, equations_of as equations_among};
ghost use Rattle.cq_frac.specs.declared.Pair.{Pair};
ghost use Rattle.cq_store.specs.declared.store.StoreFault.TheVariants.{Overflow, Pivots};
ghost use Rattle.cq_equations.specs.Told.{numbers_of};
ghost use Rattle.cq_equations.specs.Rows.{equations_of};
ghost use Rattle.cq_project.specs.Answering.{IsRefusedAnswering, IsSpentAnswering};
ghost use Rattle.cq_project.specs.EchelonFaults.{IsFaultOf};
ghost use Rattle.cq_project.specs.Putting.{PutsInSome};

use crate::reduce::disclosed;
use cq_equations::project::{Equation, ProjectFault, project};
use cq_form::Constraint;
use cq_frac::VarId;
use cq_store::store::StoreFault;
use spec_linear::Relation;
use std::alloc::{AllocError, Global};

/// Whether the row is an equation.
fn is_equation(row: &Constraint) -> bool
    ensures { result ≡ is_equality row.now.relation }
{
    match row.relation {
        Relation::Eq => true,
        Relation::Gt | Relation::Ge | Relation::Ne => false,
    }
}

/// The equations of the list, in their order.
fn equations_in(alloc: Global, rows: &[Constraint]) -> Result<Vec<Constraint>, AllocError>
    ensures { IfOk result (λ es. es.items ≡ equations_among rows.now) }
{
    let mut equations = Vec::new(alloc);
    'rows: for row in rows {
        if !is_equation(row) {
            continue;
        }
        equations.push(row.clone()?)?;
    }
    Ok(equations)
}

/// The fault as one of a store of constraints.
fn store_fault(fault: ProjectFault) -> StoreFault
    ensures { IsFaultOf fault result }
{
    match fault {
        ProjectFault::Overflow(pair) => StoreFault::Overflow(pair),
        ProjectFault::Pivots(n) => StoreFault::Pivots(n),
        ProjectFault::NoMemory => StoreFault::NoMemory,
    }
}

/// The equations that the list entails in reduced echelon form, each solved for its first variable in the order. No call of
/// a store makes more than `pivots` exchanges.
pub fn solved(
    alloc: Global,
    told: &[Constraint],
    order: &[VarId],
    pivots: u64,
) -> Result<Vec<Equation>, StoreFault>
    requires solvable { Solvable told.now }
    requires distinct { AreDistinct (numbers_of order.now) }
    requires all { MentionsOnly (numbers_of order.now) told.now }
    ensures echelon { IfOk result (λ es. IsEchelon (numbers_of order.now) told.now (equations_of es.items)) }
    ensures overflow { (targets : List ℕ) (pair : Pair) → result ≡ Err (Overflow pair) → IsRefusedAnswering targets told.now pair }
    ensures pivots { (targets : List ℕ) (n : ℕ) → result ≡ Err (Pivots n) → (n ≡ pivots) × IsSpentAnswering targets told.now n }
    // What is refused while these equations are put into members of the list, is refused while an answer is made of it.
    ensures putting { IfOk result (λ es. (targets : List ℕ) (rows : List Member) → ((c : Member) → Has c rows → Has c told.now)
        → (pair : Pair) → PutsInSome (equations_of es.items) rows pair → IsRefusedAnswering targets told.now pair) }
{
    let all = disclosed(alloc, told, pivots)?;
    let equations = equations_in(alloc, &all)?;
    match project(alloc, &equations, order, pivots) {
        Ok(rows) => Ok(rows.equations),
        Err(fault) => Err(store_fault(fault)),
    }
}
