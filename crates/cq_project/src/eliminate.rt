//! Variables eliminated one after the other from a list of linear inequalities (Fourier 1826), without redundant rows
//! between: the next is always the one with the fewest pairs of a lower and an upper row.
#![tactic(auto)]

ghost use Rattle.std.specs.Prelude.{◌≡◌, ℕ, List, [], ◌++◌, IfOk, IfErr, OnOk};
ghost use Rattle.spec_linear.specs.Solution.{Solvable, MentionsOnly};
ghost use Rattle.spec_projection.specs.Lists.{AreForms};
ghost use Rattle.spec_projection.specs.Elimination.{eliminated as eliminated_from};
ghost use Rattle.spec_projection.specs.Irredundant.{IsIrredundant, IsIrredundantSublist};
ghost use Rattle.spec_projection.specs.Partial.{AreInequalities, IsPartial};
ghost use Rattle.cq_frac.specs.declared.Pair.{Pair};
ghost use Rattle.cq_equations.specs.Told.{numbers_of};
ghost use Rattle.cq_elimination.specs.Next.{Counts};
ghost use Rattle.cq_project.specs.Sifting.{RefusesSifting, SpendsSifting};
ghost use Rattle.cq_project.specs.Passing.{RefusesPass, SpendsPass};
ghost use Rattle.cq_project.specs.declared.eliminate.ProjectFault.TheVariants.{Overflow, Pivots, NoMemory};
ghost use Rattle.cq_project.specs.EliminateFaults.{IsFaultOf, fault_of, IfRows};
ghost use Rattle.cq_project.specs.Eliminating.{AreOver, IsLeftBeside, RefusesStep, SpendsStep, RefusesEliminating, SpendsEliminating, IsLimitPassed, IsRowsDue};

use crate::pass::passed;
use crate::sift::sift;
use cq_elimination::apart::stand_apart;
use cq_elimination::fourier::eliminated;
use cq_elimination::fourier::next::{Elimination, next_of};
use cq_form::Constraint;
use cq_frac::{Pair, Refusal, VarId};
use cq_store::store::{Store, StoreFault};
use std::alloc::{AllocError, Global};
use thiserror::Error;

/// Why there is no projection.
#[derive(Debug, Drop, Error)]
pub enum ProjectFault {
    #[error("a number past 128 bits")]
    Overflow(Pair),
    #[error("more than {0} exchanges")]
    Pivots(u64),
    /// How many lower, upper and other rows the next variable has, and these rows: without it there would be too many.
    #[error("{0} times {1} rows and {2} others are too many")]
    Rows(usize, usize, usize, Vec<Constraint>),
    #[error("out of memory")]
    NoMemory,
}

impl From<AllocError> for ProjectFault {
    ghost from_gives = { λ _ fault. fault ≡ NoMemory };

    fn from(_: AllocError) -> ProjectFault {
        ProjectFault::NoMemory
    }
}

impl From<Refusal> for ProjectFault {
    ghost from_gives = { IsFaultOf };

    fn from(refusal: Refusal) -> ProjectFault {
        match refusal {
            Refusal::Overflow(pair) => ProjectFault::Overflow(pair),
            Refusal::NoMemory => ProjectFault::NoMemory,
        }
    }
}

impl From<StoreFault> for ProjectFault {
    ghost from_gives = { λ fault e. e ≡ fault_of fault };

    fn from(fault: StoreFault) -> ProjectFault {
        match fault {
            StoreFault::Overflow(pair) => ProjectFault::Overflow(pair),
            StoreFault::Pivots(n) => ProjectFault::Pivots(n),
            StoreFault::NoMemory => ProjectFault::NoMemory,
        }
    }
}

/// Each row's form lists its products in order, as every form does.
pub fn see_forms(rows: &[Constraint])
    ensures { AreForms rows.now }
{
    'rows: for row in rows {
        let _products = row.form.entries();
    }
}

/// The rows of which none follows from the others, in their order, as a store of their own tells.
fn irredundant(
    alloc: Global,
    rows: &[Constraint],
    pivots: u64,
) -> Result<Vec<Constraint>, StoreFault>
    requires solvable { Solvable rows.now }
    ensures sublist { IfOk result (λ left. IsIrredundantSublist left.items rows.now) }
    ensures overflow { (pair : Pair) → result ≡ Err (StoreFault.Overflow pair) → RefusesSifting [] rows.now pair }
    ensures pivots { (n : ℕ) → result ≡ Err (StoreFault.Pivots n) → (n ≡ pivots) × SpendsSifting [] rows.now n }
{
    let mut store = Store::new(alloc, pivots);
    sift(alloc, &mut store, rows)
}

/// What is left of new rows beside others, so that none follows from the rest and those beside. No store is made where each
/// bounds a variable from a side from which no other row does.
fn left_beside(
    alloc: Global,
    beside: &[Constraint],
    new: Vec<Constraint>,
    pivots: u64,
) -> Result<Vec<Constraint>, StoreFault>
    requires solvable { Solvable (beside.now ++ new.items) }
    requires inequalities { AreInequalities new.items }
    requires inequalities_beside { AreInequalities beside.now }
    ensures left { IfOk result (λ left. IsLeftBeside beside.now new.items left.items) }
    ensures overflow { (pair : Pair) → result ≡ Err (StoreFault.Overflow pair) → RefusesPass beside.now new.items pair }
    ensures pivots { (n : ℕ) → result ≡ Err (StoreFault.Pivots n) → (n ≡ pivots) × SpendsPass beside.now new.items n }
{
    if stand_apart(&new, beside) {
        return Ok(new);
    }
    passed(alloc, beside, &new, pivots)
}

/// Appends the rows.
fn append(rows: &mut Vec<Constraint>, more: Vec<Constraint>) -> Result<(), AllocError>
    ensures { OnOk result (rows.new.items ≡ rows.old.items ++ more.items) }
{
    'more: for row in more {
        rows.push(row)?;
    }
    Ok(())
}

/// The rows without the variable, none of them redundant; `Rows` where there would be more than the limit before
/// redundant ones are dropped. The rows in which it does not stand are irredundant still, beside combinations of the others,
/// and only these are gone through.
fn step(
    alloc: Global,
    rows: Vec<Constraint>,
    next: Elimination,
    pivots: u64,
    limit: u64,
) -> Result<Vec<Constraint>, ProjectFault>
    requires counts { Counts rows.items next }
    requires solvable { Solvable rows.items }
    requires inequalities { AreInequalities rows.items }
    requires irredundant { IsIrredundant rows.items }
    ensures sublist { IfOk result (λ left. IsIrredundantSublist left.items (eliminated_from next.variable.0 rows.items)) }
    ensures overflow { (pair : Pair) → result ≡ Err (Overflow pair) → RefusesStep next.variable.0 rows.items pair }
    ensures pivots { (n : ℕ) → result ≡ Err (Pivots n) → (n ≡ pivots) × SpendsStep next.variable.0 rows.items n }
    ensures limit { IfErr result (λ fault. IfRows fault (IsLimitPassed next.variable.0 rows.items limit)) }
{
    if next.rows() > u128::from(limit) {
        return Err(ProjectFault::Rows(next.lower, next.upper, next.others, rows));
    }
    let mut fewer = eliminated(alloc, &rows, next.variable)?;
    let new = fewer.split_off(next.others)?;
    let left = match left_beside(alloc, &fewer, new, pivots) {
        Ok(left) => left,
        Err(fault) => return Err(ProjectFault::from(fault)),
    };
    append(&mut fewer, left)?;
    Ok(fewer)
}

/// The rows without these variables: the next of them is eliminated and redundant rows are dropped, until none is left.
/// `Rows` before the elimination that would leave more rows than the limit. No call of a store makes more than `pivots`
/// exchanges.
pub fn eliminate(
    alloc: Global,
    rows: &[Constraint],
    variables: &[VarId],
    pivots: u64,
    limit: u64,
) -> Result<Vec<Constraint>, ProjectFault>
    requires solvable { Solvable rows.now }
    requires inequalities { AreInequalities rows.now }
    ensures partial { (targets : List ℕ) → AreOver targets (numbers_of variables.now) rows.now
        → IfOk result (λ left. IsPartial targets rows.now left.items × MentionsOnly targets left.items) }
    ensures overflow { (targets : List ℕ) → AreOver targets (numbers_of variables.now) rows.now
        → (pair : Pair) → result ≡ Err (Overflow pair) → RefusesEliminating targets rows.now pair }
    ensures pivots { (targets : List ℕ) → AreOver targets (numbers_of variables.now) rows.now
        → (n : ℕ) → result ≡ Err (Pivots n) → (n ≡ pivots) × SpendsEliminating targets rows.now n }
    ensures limit { (targets : List ℕ) → AreOver targets (numbers_of variables.now) rows.now
        → IfErr result (λ fault. IfRows fault (IsRowsDue targets rows.now limit)) }
{
    see_forms(rows);
    let mut left = match irredundant(alloc, rows, pivots) {
        Ok(left) => left,
        Err(fault) => return Err(ProjectFault::from(fault)),
    };
    'variables: while let Some(next) = next_of(&left, variables) {
        left = match step(alloc, left, next, pivots, limit) {
            Ok(fewer) => fewer,
            Err(fault) => return Err(fault),
        };
    }
    Ok(left)
}
