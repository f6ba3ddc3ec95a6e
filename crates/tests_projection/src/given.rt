// Rows by their numbers.

ghost use Rattle.std.specs.Prelude.{◌≡◌, ◌++◌, IfOk, IsTrue};
ghost use Rattle.spec_linear.specs.Solution.{Solvable};

use cq_form::{Constraint, Form};
use cq_frac::{Frac, Refusal, VarId};
use cq_store::store::{Store, StoreFault, Told};
use spec_linear::Relation;
use std::alloc::{AllocError, Global};

// A relation, variables with numerator and denominator of their coefficients, and those of the constant.
pub(crate) type Given<'a> = (Relation, &'a [(usize, i128, i128)], i128, i128);

pub(crate) fn number(n: i128, d: i128) -> Frac {
    Frac::new(n, d).unwrap_or(Frac::zero())
}

fn variable(alloc: Global, x: usize) -> Result<Form, AllocError> {
    Form::new(alloc, Frac::zero(), &[(VarId(x), Frac::one())])
}

fn row(alloc: Global, given: &Given) -> Result<Constraint, Refusal> {
    let mut form = Form::new(alloc, number(given.2, given.3), &[])?;
    for (x, n, d) in given.1 {
        form = form.add(&variable(alloc, *x)?.scale(number(*n, *d))?)?;
    }
    Ok(Constraint {
        relation: given.0,
        form,
    })
}

pub(crate) fn rows(alloc: Global, given: &[Given]) -> Result<Vec<Constraint>, Refusal> {
    let mut rows = Vec::new(alloc);
    for one in given {
        rows.push(row(alloc, one)?)?;
    }
    Ok(rows)
}

fn is_given(row: &Constraint, given: &Given) -> bool {
    let mut same = row.relation == given.0
        && row.form.entries().len() == given.1.len()
        && row.form.constant().parts() == (given.2, given.3);
    for (entry, want) in row.form.entries().iter().zip(given.1) {
        same = same && entry.quantity == want.0 && entry.factor.parts() == (want.1, want.2);
    }
    same
}

pub(crate) fn are_given(rows: &[Constraint], given: &[Given]) -> bool {
    let mut same = rows.len() == given.len();
    for (row, want) in rows.iter().zip(given) {
        same = same && is_given(row, want);
    }
    same
}

/// Tells the rows, as long as they can hold.
pub(crate) fn tells(store: &mut Store, rows: &[Constraint]) -> Result<bool, StoreFault>
    ensures told { IfOk result (λ all. IsTrue all → store.new.told ≡ store.old.told ++ rows.now) }
    ensures solvable { IfOk result (λ all. IsTrue all → Solvable store.new.told) }
{
    'rows: for row in rows {
        let copy = row.clone()?;
        match store.tell(copy) {
            Ok(Told::Kept(_)) => continue,
            Ok(Told::Unsolvable(_)) => return Ok(false),
            Err(fault) => return Err(fault),
        }
    }
    let _told = store.told();
    Ok(true)
}
