//! The negative of a form, and the opposite of a constraint.

ghost use Rattle.std.specs.Prelude.{◌≡◌, IfOk};
ghost use Rattle.spec_linear.specs.Form.{negated_form};
ghost use Rattle.spec_linear.specs.Opposite as of_constraint;

use cq_form::{Constraint, Form};
use cq_frac::row::opposed;
use spec_linear::Relation;
use std::alloc::{AllocError, Global};

/// The form with the other sign. It is as wide as the form, so that no number of it is refused.
pub fn negated(alloc: Global, form: &Form) -> Result<Form, AllocError>
    ensures { IfOk result (λ f. f ≡ negated_form form.now) }
{
    let opposite = opposed(alloc, form.entries())?;
    Ok(Form::of_entries(form.constant().neg(), opposite))
}

/// The constraint that holds just where the given one does not.
pub fn opposite(alloc: Global, c: &Constraint) -> Result<Constraint, AllocError>
    ensures { IfOk result (λ d. d ≡ of_constraint.opposite c.now) }
{
    match c.relation {
        Relation::Eq => Ok(Constraint {
            relation: Relation::Ne,
            form: c.form.clone()?,
        }),
        Relation::Gt => Ok(Constraint {
            relation: Relation::Ge,
            form: negated(alloc, &c.form)?,
        }),
        Relation::Ge => Ok(Constraint {
            relation: Relation::Gt,
            form: negated(alloc, &c.form)?,
        }),
        Relation::Ne => Ok(Constraint {
            relation: Relation::Eq,
            form: c.form.clone()?,
        }),
    }
}
