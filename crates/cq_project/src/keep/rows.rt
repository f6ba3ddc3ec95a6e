//! The members of a list by their relation.

ghost use Rattle.std.specs.Prelude.{◌≡◌, IfOk};
ghost use Rattle.spec_projection.specs.Projection.{is_inequality as is_inequality_relation, is_disequation as is_disequation_relation, inequalities_of, disequations_of};

use cq_form::Constraint;
use spec_linear::Relation;
use std::alloc::{AllocError, Global};

/// Whether the row is an inequality.
fn is_inequality(row: &Constraint) -> bool
    ensures { result ≡ is_inequality_relation row.now.relation }
{
    match row.relation {
        Relation::Gt | Relation::Ge => true,
        Relation::Eq | Relation::Ne => false,
    }
}

/// Whether the row is a disequation.
fn is_disequation(row: &Constraint) -> bool
    ensures { result ≡ is_disequation_relation row.now.relation }
{
    match row.relation {
        Relation::Ne => true,
        Relation::Eq | Relation::Gt | Relation::Ge => false,
    }
}

/// The inequalities of the list, in their order.
pub(crate) fn inequalities_in(
    alloc: Global,
    rows: &[Constraint],
) -> Result<Vec<Constraint>, AllocError>
    ensures { IfOk result (λ all. all.items ≡ inequalities_of rows.now) }
{
    let mut inequalities = Vec::new(alloc);
    'rows: for row in rows {
        if !is_inequality(row) {
            continue;
        }
        inequalities.push(row.clone()?)?;
    }
    Ok(inequalities)
}

/// The disequations of the list, in their order.
pub(crate) fn disequations_in(
    alloc: Global,
    rows: &[Constraint],
) -> Result<Vec<Constraint>, AllocError>
    ensures { IfOk result (λ all. all.items ≡ disequations_of rows.now) }
{
    let mut disequations = Vec::new(alloc);
    'rows: for row in rows {
        if !is_disequation(row) {
            continue;
        }
        disequations.push(row.clone()?)?;
    }
    Ok(disequations)
}
