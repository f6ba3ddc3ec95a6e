//! The last rows of a projection: what is left of inequalities once variables are eliminated, and of the disequations beside
//! them, without rows that follow from the others.
#![tactic(auto)]

ghost use Rattle.std.specs.Prelude.{◌≡◌, ℕ, List, ◌++◌, IfOk, IfErr};
ghost use Rattle.spec_linear.specs.Solution.{Constraint as Member};
ghost use Rattle.spec_simplex.specs.Answers.{IsProjectionDue};
ghost use Rattle.cq_frac.specs.declared.Pair.{Pair};
ghost use Rattle.cq_equations.specs.Told.{numbers_of};
ghost use Rattle.cq_project.specs.Answering.{IsRefusedAnswering, IsSpentAnswering};
ghost use Rattle.cq_project.specs.declared.eliminate.ProjectFault.TheVariants.{Overflow, Pivots};
ghost use Rattle.cq_project.specs.EliminateFaults.{IfRows};
ghost use Rattle.cq_project.specs.Lasting.{Stands, AreLeft, AreLast};

use crate::eliminate::{ProjectFault, eliminate, see_forms};
use crate::pass::passed;
use cq_elimination::rows::strengthened;
use cq_form::Constraint;
use cq_frac::VarId;
use std::alloc::Global;

/// Inequalities and disequations, of which none follows from the others together.
#[derive(Drop)]
pub struct LastRows {
    pub inequalities: Vec<Constraint>,
    pub disequations: Vec<Constraint>,
}

/// What is left of the rows without the variables `rest`, which stand in inequalities alone. `Rows` before the elimination
/// that would leave more rows than the limit. No call of a store makes more than `pivots` exchanges.
pub fn last_rows(
    alloc: Global,
    inequalities: &[Constraint],
    disequations: &[Constraint],
    rest: &[VarId],
    pivots: u64,
    limit: u64,
) -> Result<LastRows, ProjectFault>
    requires stand { Stands (numbers_of rest.now) inequalities.now disequations.now }
    ensures rows { (targets kept : List ℕ) (l : List Member) → AreLeft targets kept (numbers_of rest.now) l inequalities.now disequations.now
        → IfOk result (AreLast (targets ++ kept) inequalities.now disequations.now) }
    ensures overflow { (targets kept : List ℕ) (l : List Member) → AreLeft targets kept (numbers_of rest.now) l inequalities.now disequations.now
        → (pair : Pair) → result ≡ Err (Overflow pair) → IsRefusedAnswering targets l pair }
    ensures pivots { (targets kept : List ℕ) (l : List Member) → AreLeft targets kept (numbers_of rest.now) l inequalities.now disequations.now
        → (n : ℕ) → result ≡ Err (Pivots n) → (n ≡ pivots) × IsSpentAnswering targets l n }
    ensures limit { (targets kept : List ℕ) (l : List Member) → AreLeft targets kept (numbers_of rest.now) l inequalities.now disequations.now
        → IfErr result (λ fault. IfRows fault (IsProjectionDue targets l limit)) }
{
    see_forms(inequalities);
    let remaining = match eliminate(alloc, inequalities, rest, pivots, limit) {
        Ok(remaining) => remaining,
        Err(fault) => return Err(fault),
    };
    let again = strengthened(alloc, disequations, &remaining)?;
    let unequal = passed(alloc, &again, disequations, pivots)?;
    let rows = passed(alloc, &unequal, &again, pivots)?;
    Ok(LastRows {
        inequalities: rows,
        disequations: unequal,
    })
}
