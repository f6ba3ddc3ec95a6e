//! One row as it is printed: its products in the order of the variables, each by the first coefficient.

ghost use Rattle.std.specs.Prelude.{◌≡◌, ◌≢◌, ◌∷◌, [], map, IfOk};
ghost use Rattle.spec_numbers.specs.Rational.{0ℚ};
ghost use Rattle.spec_linear.specs.declared.Relation.TheVariants.{Eq};
ghost use Rattle.spec_linear.specs.Form.{IsForm};
ghost use Rattle.spec_linear.specs.Solution.{MentionsOnly};
ghost use Rattle.spec_linear.specs.Echelon.{AreDistinct};
ghost use Rattle.cq_frac.specs.declared.Pair.{Pair};
ghost use Rattle.cq_equations.specs.Told.{numbers_of};
ghost use Rattle.cq_elimination.specs.Scaling.{ScalesForm};
ghost use Rattle.cq_elimination.specs.Lines.{monomials_of, line_of, comparison_by};
ghost use Rattle.cq_elimination.specs.Arranging.{picked, over_lead, DividesProduct, Prints};

use crate::arrange::{Comparison, PrintedRow};
use cq_form::{Constraint, Form};
use cq_frac::row::entry_at;
use cq_frac::{Frac, Refusal, VarId, quotient};
use spec_linear::Relation;
use std::alloc::{AllocError, Global};

/// The products of the form, in the order of the variables.
fn products_in(
    alloc: Global,
    order: &[VarId],
    form: &Form,
) -> Result<Vec<(VarId, Frac)>, AllocError>
    ensures value { IfOk result (λ r. monomials_of r.items ≡ picked (numbers_of order.now) form.now.products) }
    ensures in_order { IsForm form.now }
{
    let entries = form.entries();
    let mut products = Vec::new(alloc);
    'variables: for &x in order {
        if let Some(factor) = entry_at(entries, x.0) {
            products.push((x, factor))?;
        }
    }
    Ok(products)
}

/// Each product by the divisor.
fn quotients(
    alloc: Global,
    products: &[(VarId, Frac)],
    divisor: Frac,
) -> Result<Vec<(VarId, Frac)>, Refusal>
    requires nonzero { divisor ≢ 0ℚ }
    ensures value { IfOk result (λ r. monomials_of r.items ≡ map (over_lead divisor) (monomials_of products.now)) }
    ensures overflow { (pair : Pair) → result ≡ Err (Refusal.Overflow pair)
        → DividesProduct (monomials_of products.now) divisor pair }
{
    let mut quotients = Vec::new(alloc);
    'products: for &(x, factor) in products {
        quotients.push((x, quotient(factor, divisor)?))?;
    }
    Ok(quotients)
}

/// How the products stand to a number, once a row of the relation is by a coefficient that is positive, or negative.
fn comparison(relation: Relation, is_positive: bool) -> Comparison
    requires { relation ≢ Eq }
    ensures { result ≡ comparison_by relation is_positive }
{
    match (relation, is_positive) {
        (Relation::Ge, true) => Comparison::AtLeast,
        (Relation::Gt, true) => Comparison::Above,
        (Relation::Ge, false) => Comparison::AtMost,
        (Relation::Gt, false) => Comparison::Below,
        (Relation::Ne, _) => Comparison::Unequal,
        (Relation::Eq, _) => unreachable!(),
    }
}

/// The row over these variables, by its first coefficient.
pub(crate) fn printed(
    alloc: Global,
    order: &[VarId],
    row: &Constraint,
) -> Result<PrintedRow, Refusal>
    requires distinct { AreDistinct (numbers_of order.now) }
    requires over { MentionsOnly (numbers_of order.now) (row.now ∷ []) }
    requires unequal { row.now.relation ≢ Eq }
    requires mentions { row.now.form.products ≢ [] }
    ensures value { IfOk result (λ r. Prints (numbers_of order.now) row.now (line_of r)) }
    ensures overflow { (pair : Pair) → result ≡ Err (Refusal.Overflow pair) → ScalesForm row.now.form pair }
{
    let products = products_in(alloc, order, &row.form)?;
    let lead = products[0].1;
    let comparison = comparison(row.relation, lead.is_positive());
    let quotients = quotients(alloc, &products, lead)?;
    let bound = quotient(row.form.constant(), lead)?.neg();
    Ok(PrintedRow {
        products: quotients,
        comparison,
        bound,
    })
}
