//! The rows of an answer: what a branch's linear constraints leave its wanted variables. For equations they are the
//! reduced echelon form over these variables, by exchanges of a dictionary in which the other variables come first.
#![tactic(auto)]

ghost use Rattle.std.specs.Prelude.{◌≡◌, ℕ, [], ◌∷◌, ◌++◌, IfOk, OnOk, OnErr, MatchBool};
ghost use Rattle.spec_linear.specs.Solution.{Solvable, Unsolvable, AreEquations, MentionsOnly, Same};
ghost use Rattle.spec_linear.specs.Echelon.{AreDistinct, IsEchelon, equations};
ghost use Rattle.spec_linear.specs.SolvedForm.{rows_of, IsSolvedForm};
ghost use Rattle.cq_equations.specs.Contents.{told_of, order_of, solved_of as solution_of};
ghost use Rattle.cq_frac.specs.declared.Pair.{Pair};
ghost use Rattle.cq_equations.specs.Told.{numbers_of};
ghost use Rattle.cq_equations.specs.Rows.{equations_of, solved_of, Knows, IsOrdered, ProjectionMakes};

use crate::store::{Store, StoreFault, Told};
use crate::table::SolvedRow;
use cq_form::Constraint;
use cq_frac::{Frac, Pair, VarId};
use indexmap::IndexSet;
use std::alloc::{AllocError, AllocFailed, Global};
use thiserror::Error;

/// An equation of an answer: the variable that it is solved for, and what that is.
#[derive(Drop)]
pub struct Equation {
    pub variable: VarId,
    pub products: Vec<(VarId, Frac)>,
    pub constant: Frac,
}

/// The rows of an answer. (Equations alone: inequalities and disequations come later.)
#[derive(Drop)]
pub struct Rows {
    pub equations: Vec<Equation>,
}

/// Why no rows are given.
#[derive(Clone, Copy, Debug, Error)]
pub enum ProjectFault {
    #[error("a number past 128 bits")]
    Overflow(Pair),
    #[error("more than {0} exchanges")]
    Pivots(u64),
    #[error("out of memory")]
    NoMemory,
}

impl From<AllocError> for ProjectFault {
    ghost use Rattle.cq_equations.specs.declared.project.ProjectFault.TheVariants.{NoMemory};

    ghost from_gives = { λ _ fault. fault ≡ NoMemory };

    fn from(_: AllocError) -> Self {
        ProjectFault::NoMemory
    }
}

impl From<StoreFault> for ProjectFault {
    ghost use Rattle.cq_equations.specs.ProjectFaults.{fault_of};

    ghost from_gives = { λ fault e. e ≡ fault_of fault };

    fn from(fault: StoreFault) -> Self {
        match fault {
            StoreFault::Overflow(pair) => ProjectFault::Overflow(pair),
            StoreFault::Pivots(n) => ProjectFault::Pivots(n),
            StoreFault::NoMemory => ProjectFault::NoMemory,
        }
    }
}

/// The wanted variables, and behind them the others that the constraints mention, each once.
fn known_variables(
    alloc: Global,
    told: &[Constraint],
    keep: &[VarId],
) -> Result<IndexSet<VarId>, AllocError>
    requires { AreDistinct (numbers_of keep.now) }
    ensures { IfOk result (λ known. Knows keep.now told.now known.keys) }
{
    let mut known = IndexSet::new(alloc);
    'wanted: for &x in keep {
        known.insert(x)?;
    }
    'members: for c in told {
        'entries: for entry in c.form.entries() {
            known.insert(VarId(entry.quantity))?;
        }
    }
    Ok(known)
}

/// Makes the variables known to the store, in their order.
fn add_all(store: &mut Store, variables: &[VarId]) -> Result<(), AllocError>
    requires { AreDistinct (order_of store.old ++ numbers_of variables.now) }
    ensures order { OnOk result (order_of store.new ≡ order_of store.old ++ numbers_of variables.now) }
    ensures told { OnOk result (told_of store.new ≡ told_of store.old) }
{
    'variables: for &x in variables {
        store.add_variable(x)?;
    }
    Ok(())
}

/// A store that has been told nothing, in which the wanted variables stand behind the others that the constraints
/// mention: a row is solved for its first variable, so that the rows of wanted variables are over wanted ones.
fn ordered(
    alloc: Global,
    told: &[Constraint],
    keep: &[VarId],
    pivots: u64,
) -> Result<Store, AllocError>
    requires { AreDistinct (numbers_of keep.now) }
    ensures order { IfOk result (λ store. IsOrdered keep.now told.now (order_of store)) }
    ensures told { IfOk result (λ store. told_of store ≡ []) }
{
    let known = known_variables(alloc, told, keep)?;
    let mut store = Store::new(alloc, pivots);
    add_all(&mut store, &known.as_slice()[keep.len()..])?;
    add_all(&mut store, keep)?;
    Ok(store)
}

/// Tells the equations, in their order, to a store that has been told nothing. Where they have no solution, just those in
/// front of the one that shows it are told.
pub fn tell_all(store: &mut Store, told: &[Constraint]) -> Result<bool, StoreFault>
    requires new { told_of store.old ≡ [] }
    requires equations { AreEquations told.now }
    ensures kept { IfOk result (λ kept. MatchBool kept (told_of store.new ≡ told.now) (Unsolvable told.now)) }
    ensures order { MentionsOnly (order_of store.old) told.now → OnOk result (order_of store.new ≡ order_of store.old) }
    ensures overflow { (pair : Pair) → result ≡ Err (StoreFault.Overflow pair) → ProjectionMakes (order_of store.old) told.now pair }
    // Equations are eliminated by exchanges that no budget counts.
    ensures pivots { (n : ℕ) → result ≡ Err (StoreFault.Pivots n) → ⊥ }
{
    'members: for c in told {
        let c = c.clone()?;
        match store.tell(c) {
            Ok(Told::Kept(_)) => continue,
            Ok(Told::Unsolvable(_)) => return Ok(false),
            Err(fault) => return Err(fault),
        }
    }
    Ok(true)
}

/// The store that has been told the constraints.
fn solved(
    alloc: Global,
    told: &[Constraint],
    keep: &[VarId],
    pivots: u64,
) -> Result<Store, ProjectFault>
    requires equations { AreEquations told.now }
    requires solvable { Solvable told.now }
    requires distinct { AreDistinct (numbers_of keep.now) }
    ensures order { IfOk result (λ store. IsOrdered keep.now told.now (order_of store)) }
    ensures told { IfOk result (λ store. told_of store ≡ told.now) }
    ensures overflow { (pair : Pair) → result ≡ Err (ProjectFault.Overflow pair) → ProjectionMakes (numbers_of keep.now) told.now pair }
    ensures pivots { (n : ℕ) → result ≡ Err (ProjectFault.Pivots n) → ⊥ }
{
    let mut store = ordered(alloc, told, keep, pivots)?;
    match tell_all(&mut store, told) {
        Ok(true) => Ok(store),
        // A list that has a solution is kept whole.
        Ok(false) => unreachable!(),
        Err(fault) => Err(ProjectFault::from(fault)),
    }
}

/// The equation that a variable is solved for.
fn solved_for(alloc: Global, variable: VarId, form: &SolvedRow<'_>) -> Result<Equation, AllocError>
    ensures { IfOk result (λ e. solved_of e ≡ record { variable = variable.0; form = form.now }) }
{
    let mut products = Vec::new(alloc);
    'places: for i in 0..form.len() {
        products.push(form.get(i))?;
    }
    Ok(Equation {
        variable,
        products,
        constant: form.constant(),
    })
}

/// The equations of the wanted variables that are solved for, in their order.
fn equations_in(alloc: Global, store: &Store, keep: &[VarId]) -> Result<Vec<Equation>, AllocError>
    ensures rows { IfOk result (λ es. equations_of es.items ≡ rows_of (solution_of store.now) (numbers_of keep.now)) }
    ensures solved { OnOk result (IsSolvedForm (order_of store.now) (told_of store.now) (solution_of store.now)) }
{
    let _order = store.order();
    let mut equations = Vec::new(alloc);
    'wanted: for &x in keep {
        let Some(form) = store.row(x) else {
            continue;
        };
        equations.push(solved_for(alloc, x, &form)?)?;
    }
    Ok(equations)
}

/// The rows over `keep` that leave these variables just the solutions of the constraints, which are equations. A row is
/// solved for the first of its variables in the order of `keep`. No call makes more than `pivots` exchanges.
pub fn project(
    alloc: Global,
    told: &[Constraint],
    keep: &[VarId],
    pivots: u64,
) -> Result<Rows, ProjectFault>
    requires equations { AreEquations told.now }
    requires solvable { Solvable told.now }
    requires distinct { AreDistinct (numbers_of keep.now) }
    ensures echelon { IfOk result (λ rows. IsEchelon (numbers_of keep.now) told.now (equations_of rows.equations.items)) }
    ensures same { IfOk result (λ rows. Same (numbers_of keep.now) (equations (equations_of rows.equations.items)) told.now) }
    ensures overflow { (pair : Pair) → result ≡ Err (ProjectFault.Overflow pair) → ProjectionMakes (numbers_of keep.now) told.now pair }
    // Equations are eliminated by exchanges that no budget counts.
    ensures pivots { (n : ℕ) → result ≡ Err (ProjectFault.Pivots n) → ⊥ }
{
    let store = solved(alloc, told, keep, pivots)?;
    let equations = equations_in(alloc, &store, keep)?;
    Ok(Rows { equations })
}
