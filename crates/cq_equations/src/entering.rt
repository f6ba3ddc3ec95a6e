//! The steps of telling an equation. Where one of them is refused, the table is left between marks, to be undone.

ghost use Rattle.std.specs.Prelude.{◌≡◌, ◌≤◌, ◌+◌, ℕ, [], length, filter, is_none, is_some, vec_len, vec_capacity, IfOk, OnOk};
ghost use Rattle.spec_linear.specs.Form.{IsForm};
ghost use Rattle.cq_frac.specs.declared.Pair.{Pair};
ghost use Rattle.cq_equations.specs.Contents.{variables_of, solved_in, number_in};
ghost use Rattle.cq_equations.specs.Told.{numbers_of, new_variables};
ghost use Rattle.cq_equations.specs.Entered.{IfJoined, IfContradiction};
ghost use Rattle.cq_equations.specs.Entering.{AddsVariables, TakesEquation, IsRefused, RefusesEntering};

use crate::store::StoreFault;
use crate::table::Table;
use cq_form::Form;
use cq_frac::VarId;
use std::alloc::{AllocError, Global};

/// What entering an equation came to.
#[derive(Drop)]
pub enum Entered {
    /// It joined, and these variables have got a number by it.
    Joined(Vec<VarId>),
    /// It contradicts the others.
    Contradiction,
}

/// Makes the form's new variables known, in ascending order.
fn add_variables(table: &mut Table, form: &Form) -> Result<(), AllocError>
    ensures added { OnOk result (AddsVariables table.old.now (new_variables (variables_of table.old.now.names) form.now) table.new.now) }
    ensures saved { table.new.saved ≡ table.old.saved }
    ensures in_order { IsForm form.now }
{
    for entry in form.entries() {
        let x = VarId(entry.quantity);
        if table.number(x).is_none() {
            table.add_variable(x)?;
        }
    }
    Ok(())
}

/// The variables that have no number.
fn unfixed(alloc: Global, table: &Table) -> Result<Vec<VarId>, AllocError>
    ensures { IfOk result (λ xs. numbers_of xs.items ≡ filter (λ x. is_none (number_in (solved_in table.now.now x))) (variables_of table.now.now.names)) }
{
    let mut rest = Vec::new(alloc);
    for x in table.order() {
        if !table.has_value(*x) {
            rest.push(*x)?;
        }
    }
    Ok(rest)
}

/// Puts those of the variables that have a number into the empty vector, which has room for all.
fn gather(table: &Table, rest: &[VarId], fixed: &mut Vec<VarId>)
    requires empty { fixed.old.items ≡ [] }
    requires room { vec_len fixed.old + length rest.now ≤ vec_capacity fixed.old }
    ensures { fixed.new.items ≡ filter (λ x. is_some (number_in (solved_in table.now.now x.0))) rest.now }
{
    for x in rest {
        if table.has_value(*x) {
            fixed.push(*x).unwrap();
        }
    }
}

/// Enters the equation that the form is zero.
pub fn enter(alloc: Global, table: &mut Table, form: &Form) -> Result<Entered, StoreFault>
    ensures joined { IfOk result (λ e. IfJoined e (λ fixed. TakesEquation table.old.now form.now (numbers_of fixed) table.new.now)) }
    ensures contradiction { IfOk result (λ e. IfContradiction e (IsRefused table.old.now form.now)) }
    ensures overflow { (pair : Pair) → result ≡ Err (StoreFault.Overflow pair) → RefusesEntering table.old.now form.now pair }
    ensures pivots { (n : ℕ) → result ≡ Err (StoreFault.Pivots n) → ⊥ }
    ensures saved { table.new.saved ≡ table.old.saved }
    ensures in_order { IsForm form.now }
{
    add_variables(table, form)?;
    let row = table.count();
    table.add_member(form)?;
    let (constant, first) = table.lead(row);
    match first {
        Some(first) => {
            let rest = unfixed(alloc, table)?;
            let mut fixed = Vec::with_capacity(alloc, rest.len())?;
            table.eliminate(row, first.quantity)?;
            gather(table, &rest, &mut fixed);
            Ok(Entered::Joined(fixed))
        }
        // An equation that follows keeps its row, which is zero wherever the dropped columns are: these are forms of
        // told equations alone. (Where columns of inequalities are dropped too, such a row has to become a dropped
        // column itself, since it is no longer zero once they are restored.)
        None => {
            if constant.is_zero() {
                Ok(Entered::Joined(Vec::new(alloc)))
            } else {
                Ok(Entered::Contradiction)
            }
        }
    }
}
