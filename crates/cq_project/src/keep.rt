//! What of a list of constraints is kept for its rows over some variables, the targets: its equations, and with these put
//! in the inequalities and the disequations that don't follow. Variables that stand in such a disequation are kept too.
#![tactic(auto)]

mod rows;
pub mod variables;

ghost use Rattle.std.specs.Prelude.{◌≡◌, ℕ, List, [], ◌++◌, IfOk};
ghost use Rattle.spec_linear.specs.Solution.{Constraint as Member, Solvable, MentionsOnly};
ghost use Rattle.spec_linear.specs.Echelon.{AreDistinct};
ghost use Rattle.cq_frac.specs.declared.Pair.{Pair};
ghost use Rattle.cq_store.specs.declared.store.StoreFault.TheVariants.{Overflow, Pivots};
ghost use Rattle.cq_equations.specs.Told.{numbers_of};
ghost use Rattle.cq_equations.specs.Rows.{equations_of};
ghost use Rattle.cq_elimination.specs.Scaling.{AreDisequations};
ghost use Rattle.cq_project.specs.Answering.{IsRefusedAnswering, IsSpentAnswering};
ghost use Rattle.cq_project.specs.Variables.{solved_for};
ghost use Rattle.cq_project.specs.Keeping.{IsKept, IsSubstituted, AreSubstituted, AreLeft};

use crate::echelon::putting::put_into;
use crate::echelon::solved;
use crate::eliminate::see_forms;
use crate::keep::rows::{disequations_in, inequalities_in};
use crate::keep::variables::{is_one_of, joined, others, others_of, unwanted};
use crate::pass::passed;
use cq_elimination::rows::strengthened;
use cq_equations::project::Equation;
use cq_form::Constraint;
use cq_frac::VarId;
use cq_store::store::StoreFault;
use std::alloc::{AllocError, Global};

/// The equations that a list entails, and its inequalities and disequations with these put in.
#[derive(Drop)]
struct Substituted {
    equations: Vec<Equation>,
    inequalities: Vec<Constraint>,
    disequations: Vec<Constraint>,
}

/// Inequalities, of which no weak one has the form of a disequation, and disequations that don't follow.
#[derive(Drop)]
struct Left {
    inequalities: Vec<Constraint>,
    disequations: Vec<Constraint>,
}

/// What of a list of constraints is kept for its rows over the targets.
#[derive(Drop)]
pub struct Kept {
    /// The equations that are solved for targets.
    pub equations: Vec<Equation>,
    /// The inequalities. A weak one that has the form of a disequation, up to a factor, is strict.
    pub inequalities: Vec<Constraint>,
    /// The disequations that don't follow from the others and the inequalities.
    pub disequations: Vec<Constraint>,
    /// The variables that stand in these and are no targets, the oldest first.
    pub variables: Vec<VarId>,
    /// The other variables of the list that are no targets, the youngest first.
    pub rest: Vec<VarId>,
}

/// The equations that the list entails, each solved for its first variable in the order, and the other members with these
/// put in.
fn put_in(
    alloc: Global,
    told: &[Constraint],
    order: &[VarId],
    pivots: u64,
) -> Result<Substituted, StoreFault>
    requires solvable { Solvable told.now }
    requires distinct { AreDistinct (numbers_of order.now) }
    requires all { MentionsOnly (numbers_of order.now) told.now }
    ensures substituted { IfOk result (IsSubstituted (numbers_of order.now) told.now) }
    ensures overflow { (targets : List ℕ) (pair : Pair) → result ≡ Err (Overflow pair) → IsRefusedAnswering targets told.now pair }
    ensures pivots { (targets : List ℕ) (n : ℕ) → result ≡ Err (Pivots n) → (n ≡ pivots) × IsSpentAnswering targets told.now n }
{
    let equations = solved(alloc, told, order, pivots)?;
    let ordered = inequalities_in(alloc, told)?;
    let inequalities = put_into(alloc, &equations, &ordered)?;
    let unequal = disequations_in(alloc, told)?;
    let disequations = put_into(alloc, &equations, &unequal)?;
    Ok(Substituted {
        equations,
        inequalities,
        disequations,
    })
}

/// The inequalities, weak ones that have the form of a disequation made strict, and the disequations that don't follow from
/// them and each other.
fn left_of(alloc: Global, rows: &Substituted, pivots: u64) -> Result<Left, StoreFault>
    requires disequations { AreDisequations rows.now.disequations.items }
    requires solvable { Solvable (rows.now.inequalities.items ++ rows.now.disequations.items) }
    ensures left { IfOk result (AreLeft rows.now) }
    ensures overflow { (targets : List ℕ) (l : List Member) → AreSubstituted targets l rows.now
        → (pair : Pair) → result ≡ Err (Overflow pair) → IsRefusedAnswering targets l pair }
    ensures pivots { (targets : List ℕ) (l : List Member) → AreSubstituted targets l rows.now
        → (n : ℕ) → result ≡ Err (Pivots n) → (n ≡ pivots) × IsSpentAnswering targets l n }
{
    let inequalities = strengthened(alloc, &rows.disequations, &rows.inequalities)?;
    let disequations = passed(alloc, &inequalities, &rows.disequations, pivots)?;
    Ok(Left {
        inequalities,
        disequations,
    })
}

/// The equations that are solved for one of the variables, in their order.
fn of_variables(
    alloc: Global,
    equations: Vec<Equation>,
    variables: &[VarId],
) -> Result<Vec<Equation>, AllocError>
    ensures { IfOk result (λ es. equations_of es.items ≡ solved_for (numbers_of variables.now) (equations_of equations.items)) }
{
    let mut chosen = Vec::new(alloc);
    'equations: for equation in equations {
        if is_one_of(equation.variable, variables) {
            chosen.push(equation)?;
        }
    }
    Ok(chosen)
}

/// What of the list is kept for its rows over `keep`. No call of a store makes more than `pivots` exchanges.
pub fn kept_of(
    alloc: Global,
    told: &[Constraint],
    keep: &[VarId],
    pivots: u64,
) -> Result<Kept, StoreFault>
    requires solvable { Solvable told.now }
    requires distinct { AreDistinct (numbers_of keep.now) }
    ensures kept { IfOk result (IsKept (numbers_of keep.now) told.now) }
    ensures overflow { (pair : Pair) → result ≡ Err (Overflow pair) → IsRefusedAnswering (numbers_of keep.now) told.now pair }
    ensures pivots { (n : ℕ) → result ≡ Err (Pivots n) → (n ≡ pivots) × IsSpentAnswering (numbers_of keep.now) told.now n }
{
    see_forms(told);
    let front = others_of(alloc, told, keep)?;
    let order = joined(alloc, &front, keep)?;
    let rows = put_in(alloc, told, &order, pivots)?;
    let left = left_of(alloc, &rows, pivots)?;
    let variables = unwanted(alloc, &left.disequations, keep)?;
    let rest = others(alloc, &front, &variables)?;
    let equations = of_variables(alloc, rows.equations, keep)?;
    Ok(Kept {
        equations,
        inequalities: left.inequalities,
        disequations: left.disequations,
        variables,
        rest,
    })
}
