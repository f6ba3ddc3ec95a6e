//! The projection of a list of linear constraints on some of its variables: the rows of an answer.
//!
//! A query's answer speaks of the query's variables alone, and its rows have just the solutions on them that the branch's list leaves. The way there:
//!
//! 1. `reduce`: weak rows that are zero in every solution are made equations, which a store tells (`X >= 1, X =< 1` is `X = 1`).
//! 2. `echelon`, `keep`: the equations are solved by elimination (Gauss, Jordan), for variables that are not wanted first, and put into the other rows. What
//!    is solved for such a variable is left out: some value of it always serves.
//! 3. `keep`: a weak row that has a disequation's form is strict, and disequations that follow are dropped. A variable that stands in one that is
//!    left can't be eliminated, as solutions without a point are no rows: it is kept, and is printed under a name of its own.
//! 4. `eliminate`: each other variable goes by adding each row that bounds it from below to each that bounds it from above (Fourier 1826, Motzkin
//!    1936), next the one with the fewest pairs. Rows that follow from the others are dropped after each step (`sift`, `pass`), so that they don't square
//!    each time; before a step that would leave more than the limit the projection stops with the numbers of rows.
//! 5. `last`: of what is left no row follows from the others, and it is put in the order of an answer.
#![tactic(auto)]

pub mod echelon;
pub mod eliminate;
pub mod keep;
pub mod last;
pub mod pass;
pub mod reduce;
pub mod sift;

ghost use Rattle.std.specs.Prelude.{◌≡◌, ℕ, [], true, IfOk, IfErr};
ghost use Rattle.spec_linear.specs.Solution.{Solvable};
ghost use Rattle.spec_linear.specs.Echelon.{AreDistinct};
ghost use Rattle.spec_projection.specs.Projection.{disequations_of};
ghost use Rattle.spec_simplex.specs.Answers.{IsProjectionDue};
ghost use Rattle.cq_frac.specs.declared.Pair.{Pair};
ghost use Rattle.cq_equations.specs.Told.{numbers_of};
ghost use Rattle.cq_project.specs.Answering.{IsRefusedAnswering, IsSpentAnswering};
ghost use Rattle.cq_project.specs.declared.eliminate.ProjectFault.TheVariants.{Overflow, Pivots};
ghost use Rattle.cq_project.specs.EliminateFaults.{IfRows};
ghost use Rattle.cq_project.specs.Projecting.{IsProjection};

use crate::eliminate::{ProjectFault, see_forms};
use crate::keep::kept_of;
use crate::keep::variables::joined;
use crate::last::last_rows;
use cq_elimination::arrange::{PrintedRow, arranged};
use cq_equations::project::Equation;
use cq_form::Constraint;
use cq_frac::VarId;
use spec_linear::Relation;
use std::alloc::Global;

/// How many rows there may be at most while variables are eliminated.
const ROWS: u64 = 4096;

/// The rows of an answer over some variables, the targets, and those that are kept beside them.
#[derive(Drop)]
pub struct Rows {
    pub equations: Vec<Equation>,
    pub inequalities: Vec<PrintedRow>,
    pub disequations: Vec<PrintedRow>,
    /// The variables that are no targets and stand in a disequation that doesn't follow, the oldest first.
    pub kept: Vec<VarId>,
}

/// The rows over `keep` and the variables that are kept beside them: what of the list is kept, its last rows, and these in
/// order.
fn rows_by_steps(
    alloc: Global,
    told: &[Constraint],
    keep: &[VarId],
    pivots: u64,
    limit: u64,
) -> Result<Rows, ProjectFault>
    requires solvable { Solvable told.now }
    requires distinct { AreDistinct (numbers_of keep.now) }
    ensures rows { IfOk result (IsProjection (numbers_of keep.now) told.now) }
    ensures overflow { (pair : Pair) → result ≡ Err (Overflow pair) → IsRefusedAnswering (numbers_of keep.now) told.now pair }
    ensures pivots { (n : ℕ) → result ≡ Err (Pivots n) → (n ≡ pivots) × IsSpentAnswering (numbers_of keep.now) told.now n }
    ensures limit { IfErr result (λ fault. IfRows fault (IsProjectionDue (numbers_of keep.now) told.now limit)) }
{
    let kept = kept_of(alloc, told, keep, pivots)?;
    let last = match last_rows(
        alloc,
        &kept.inequalities,
        &kept.disequations,
        &kept.rest,
        pivots,
        limit,
    ) {
        Ok(last) => last,
        Err(fault) => return Err(fault),
    };
    let order = joined(alloc, keep, &kept.variables)?;
    let inequalities = arranged(alloc, &last.inequalities, &order)?;
    let disequations = arranged(alloc, &last.disequations, &order)?;
    Ok(Rows {
        equations: kept.equations,
        inequalities,
        disequations,
        kept: kept.variables,
    })
}

/// Whether the list has no disequation.
fn has_no_disequation(told: &[Constraint]) -> bool
    ensures { result ≡ true → disequations_of told.now ≡ [] }
{
    'told: for row in told {
        if let Relation::Ne = row.relation {
            return false;
        }
    }
    true
}

/// The rows over no variable, where no disequation keeps one: none, since the list has a solution.
fn no_rows(alloc: Global, told: &[Constraint]) -> Rows
    requires solvable { Solvable told.now }
    requires equal { disequations_of told.now ≡ [] }
    ensures { IsProjection [] told.now result }
{
    see_forms(told);
    Rows {
        equations: Vec::new(alloc),
        inequalities: Vec::new(alloc),
        disequations: Vec::new(alloc),
        kept: Vec::new(alloc),
    }
}

/// The rows over `keep`, and over variables that are kept for disequations, that leave these variables just the solutions of
/// the constraints. `Rows` before an elimination that would leave more rows than the limit. No call of a store makes more
/// than `pivots` exchanges.
pub fn project_rows(
    alloc: Global,
    told: &[Constraint],
    keep: &[VarId],
    pivots: u64,
    limit: u64,
) -> Result<Rows, ProjectFault>
    requires solvable { Solvable told.now }
    requires distinct { AreDistinct (numbers_of keep.now) }
    ensures rows { IfOk result (IsProjection (numbers_of keep.now) told.now) }
    ensures overflow { (pair : Pair) → result ≡ Err (Overflow pair) → IsRefusedAnswering (numbers_of keep.now) told.now pair }
    ensures pivots { (n : ℕ) → result ≡ Err (Pivots n) → (n ≡ pivots) × IsSpentAnswering (numbers_of keep.now) told.now n }
    ensures limit { IfErr result (λ fault. IfRows fault (IsProjectionDue (numbers_of keep.now) told.now limit)) }
{
    if keep.is_empty() && has_no_disequation(told) {
        return Ok(no_rows(alloc, told));
    }
    rows_by_steps(alloc, told, keep, pivots, limit)
}

/// The rows over `keep`, with at most 4096 rows while variables are eliminated.
pub fn project(
    alloc: Global,
    told: &[Constraint],
    keep: &[VarId],
    pivots: u64,
) -> Result<Rows, ProjectFault>
    requires solvable { Solvable told.now }
    requires distinct { AreDistinct (numbers_of keep.now) }
    ensures rows { IfOk result (IsProjection (numbers_of keep.now) told.now) }
    ensures overflow { (pair : Pair) → result ≡ Err (Overflow pair) → IsRefusedAnswering (numbers_of keep.now) told.now pair }
    ensures pivots { (n : ℕ) → result ≡ Err (Pivots n) → (n ≡ pivots) × IsSpentAnswering (numbers_of keep.now) told.now n }
    ensures limit { IfErr result (λ fault. IfRows fault (IsProjectionDue (numbers_of keep.now) told.now ROWS)) }
{
    project_rows(alloc, told, keep, pivots, ROWS)
}
