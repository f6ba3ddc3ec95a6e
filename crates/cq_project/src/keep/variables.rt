//! The variables of rows, and those of some variables that are not taken yet.

ghost use Rattle.std.specs.Prelude.{◌≡◌, ◌↔◌, ◌++◌, ℕ, IfOk, OnOk};
ghost use Rattle.spec_linear.specs.Form.{variables};
ghost use Rattle.spec_linear.specs.Solution.{Has, SomeMentions};
ghost use Rattle.spec_projection.specs.Others.{AreAscending, AreOthers};
ghost use Rattle.cq_equations.specs.Told.{numbers_of};
ghost use Rattle.cq_project.specs.Variables.{is_among, others_than, AreUnwanted};

use cq_form::{Constraint, Form};
use cq_frac::VarId;
use std::alloc::{AllocError, Global};

/// Adds the numbers of the form's variables.
fn note(numbers: &mut Vec<usize>, form: &Form) -> Result<(), AllocError>
    ensures { OnOk result (numbers.new.items ≡ numbers.old.items ++ variables form.now.products) }
{
    'entries: for entry in form.entries() {
        numbers.push(entry.quantity)?;
    }
    Ok(())
}

/// The numbers of the variables that the rows mention, as often as they stand there.
fn mentioned(alloc: Global, rows: &[Constraint]) -> Result<Vec<usize>, AllocError>
    ensures { IfOk result (λ xs. (x : ℕ) → Has x xs.items ↔ SomeMentions x rows.now) }
{
    let mut numbers = Vec::new(alloc);
    'rows: for row in rows {
        note(&mut numbers, &row.form)?;
    }
    Ok(numbers)
}

/// The variables of these numbers.
fn numbered(alloc: Global, numbers: &[usize]) -> Result<Vec<VarId>, AllocError>
    ensures { IfOk result (λ xs. numbers_of xs.items ≡ numbers.now) }
{
    let mut all = Vec::new(alloc);
    'numbers: for &number in numbers {
        all.push(VarId(number))?;
    }
    Ok(all)
}

/// The variables that the rows mention, each once, the oldest first.
pub fn variables_of(alloc: Global, rows: &[Constraint]) -> Result<Vec<VarId>, AllocError>
    ensures oldest_first { IfOk result (λ xs. AreAscending (numbers_of xs.items)) }
    ensures mentioned { IfOk result (λ xs. (x : ℕ) → Has x (numbers_of xs.items) ↔ SomeMentions x rows.now) }
{
    let mut numbers = mentioned(alloc, rows)?;
    numbers.sort_unstable();
    numbers.dedup();
    numbered(alloc, &numbers)
}

/// Whether the variable is one of these.
pub fn is_one_of(variable: VarId, variables: &[VarId]) -> bool
    ensures { result ≡ is_among (numbers_of variables.now) variable.0 }
{
    'variables: for other in variables {
        if variable == *other {
            return true;
        }
    }
    false
}

/// The variables that are none of those that are taken, in their order.
pub fn others(alloc: Global, variables: &[VarId], taken: &[VarId]) -> Result<Vec<VarId>, AllocError>
    ensures { IfOk result (λ xs. numbers_of xs.items ≡ others_than (numbers_of taken.now) (numbers_of variables.now)) }
{
    let mut others = Vec::new(alloc);
    'variables: for &variable in variables {
        if !is_one_of(variable, taken) {
            others.push(variable)?;
        }
    }
    Ok(others)
}

/// The variables that the rows mention and that are no targets, the oldest first.
pub fn unwanted(
    alloc: Global,
    rows: &[Constraint],
    targets: &[VarId],
) -> Result<Vec<VarId>, AllocError>
    ensures { IfOk result (λ xs. AreUnwanted (numbers_of targets.now) rows.now (numbers_of xs.items)) }
{
    let variables = variables_of(alloc, rows)?;
    others(alloc, &variables, targets)
}

/// The variables of the list that are no targets, the youngest first.
pub fn others_of(
    alloc: Global,
    told: &[Constraint],
    targets: &[VarId],
) -> Result<Vec<VarId>, AllocError>
    ensures { IfOk result (λ front. AreOthers (numbers_of targets.now) told.now (numbers_of front.items)) }
{
    let mut front = unwanted(alloc, told, targets)?;
    front.reverse();
    Ok(front)
}

/// The first variables, and behind them the second.
pub fn joined(alloc: Global, front: &[VarId], back: &[VarId]) -> Result<Vec<VarId>, AllocError>
    ensures { IfOk result (λ all. all.items ≡ front.now ++ back.now) }
{
    let mut all = Vec::new(alloc);
    all.extend_from_slice(front)?;
    all.extend_from_slice(back)?;
    Ok(all)
}
