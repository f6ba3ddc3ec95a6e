// Small dictionaries, made of columns and rows, and whether they are feasible.
ghost use Rattle.std.specs.Prelude.{◌≡◌, ◌<◌, ℕ, length};
ghost use Rattle.std.specs.Bool.{OnTrue};
ghost use Rattle.spec_simplex.specs.Dictionary.{IsFeasible};
ghost use Rattle.cq_frac.specs.declared.row.Entry.{Entry};
ghost use Rattle.cq_frac.specs.Rows.{Has};
ghost use Rattle.cq_dict.specs.Roles.{AreOverColumns, is_restricted};
ghost use Rattle.cq_simplex.specs.Checked.{IsRowFeasible};
ghost use Rattle.cq_simplex.specs.Dictionary.{dictionary};

use cq_dict::dict::Dict;
use cq_frac::row::Entry;
use cq_frac::{Frac, Refusal};
use cq_simplex::rising::free_column;
use std::alloc::Global;
use std::test::Fail;

fn within(form: &[Entry], count: usize) -> bool
    ensures { OnTrue result ((m : Entry) → Has m form.now → m.quantity < count) }
{
    for m in form {
        if m.quantity >= count {
            return false;
        }
    }
    true
}

/// Adds a row over quantities that are there.
fn add(dict: &mut Dict, form: &[Entry], constant: i64, restricted: bool) -> Result<usize, Refusal> {
    if within(form, dict.count()) {
        return dict.add_row(form, Frac::from(constant), restricted);
    }
    Err(Refusal::NoMemory)
}

fn row_is_feasible(dict: &Dict, q: usize) -> bool
    requires table { AreOverColumns dict.now.roles }
    requires there { q < length dict.now.roles }
    ensures { OnTrue result ((asked : ℕ) → IsRowFeasible (is_restricted dict.now.restricted) (dictionary dict.now.roles asked) q) }
{
    if !dict.is_row(q) || !dict.is_restricted(q) {
        return true;
    }
    if dict.constant(q).is_negative() {
        return false;
    }
    match free_column(dict, q) {
        Some(_) => false,
        None => true,
    }
}

/// Whether no restricted row is below zero, or over a column that is free.
pub(crate) fn is_feasible(dict: &Dict) -> bool
    ensures { OnTrue result ((asked : ℕ) → IsFeasible (is_restricted dict.now.restricted) (dictionary dict.now.roles asked)) }
{
    for q in 0..dict.count() {
        if !row_is_feasible(dict, q) {
            return false;
        }
    }
    true
}

/// A row: quantities, each with a numerator and a denominator, and a constant.
pub(crate) type Form<'a> = (&'a [(usize, i128, i128)], i64);

/// A row that is asked, over columns and restricted rows, which are numbered after the columns.
pub(crate) struct Problem<'a> {
    pub restricted_columns: usize,
    pub free_columns: usize,
    pub rows: &'a [Form<'a>],
    pub asked: Form<'a>,
}

fn entries(alloc: Global, form: &[(usize, i128, i128)]) -> Result<Vec<Entry>, Fail> {
    let mut entries = Vec::new(alloc);
    for (quantity, n, d) in form {
        let factor = Frac::new(*n, *d)?;
        entries.push(Entry {
            quantity: *quantity,
            factor,
        })?;
    }
    Ok(entries)
}

fn add_columns(dict: &mut Dict, count: usize, restricted: bool) -> Result<(), Fail> {
    for _ in 0..count {
        dict.add_column(restricted)?;
    }
    Ok(())
}

fn add_form(alloc: Global, dict: &mut Dict, form: &Form, restricted: bool) -> Result<usize, Fail> {
    let entries = entries(alloc, form.0)?;
    Ok(add(dict, &entries, form.1, restricted)?)
}

/// The dictionary of a problem, with the number of the row that is asked.
pub(crate) fn made(alloc: Global, problem: &Problem) -> Result<(Dict, usize), Fail> {
    let mut dict = Dict::new(alloc);
    add_columns(&mut dict, problem.restricted_columns, true)?;
    add_columns(&mut dict, problem.free_columns, false)?;
    for form in problem.rows {
        add_form(alloc, &mut dict, form, true)?;
    }
    let asked = add_form(alloc, &mut dict, &problem.asked, false)?;
    Ok((dict, asked))
}
