//! One variable eliminated from a list of linear inequalities: each row that bounds it from below with each row that
//! bounds it from above (Fourier 1826), and which variable comes next.
#![tactic(auto)]

pub mod next;

ghost use Rattle.std.specs.Prelude.{◌≡◌, ◌≢◌, [], ◌∷◌, ◌++◌, map, IfOk, OnOk};
ghost use Rattle.spec_numbers.specs.Rational.{0ℚ, inv_ℚ};
ghost use Rattle.spec_linear.specs.Form.{scaled_form};
ghost use Rattle.spec_projection.specs.Elimination.{coefficient, lower_rows, upper_rows, other_rows, eliminated as eliminated_from};
ghost use Rattle.spec_simplex.specs.Overflow.{Moment, OverflowDue};
ghost use Rattle.cq_frac.specs.declared.Pair.{Pair};
ghost use Rattle.cq_elimination.specs.FourierSides.{IsSide, over_number, over_coefficient, between, crossed};
ghost use Rattle.cq_elimination.specs.Steps.{IsQuotientOf, DividesIn, CombinesWith, CombinesIn, AreRowsOf};

use cq_form::{Constraint, Form};
use cq_frac::row::entry_at;
use cq_frac::{Frac, Refusal, VarId, quotient};
use spec_linear::Relation;
use std::alloc::Global;

/// How a row stands to a variable: it bounds the variable from below or from above, by this coefficient, or the
/// variable does not stand in it.
#[derive(Clone, Copy)]
pub(crate) enum Side {
    Lower(Frac),
    Upper(Frac),
    Other,
}

/// The rows in which a variable does not stand, and its lower and its upper rows, each divided by its coefficient.
#[derive(Drop)]
struct Sides {
    others: Vec<Constraint>,
    lower: Vec<Constraint>,
    upper: Vec<Constraint>,
}

/// The side on which the row is.
pub(crate) fn side_of(row: &Constraint, variable: VarId) -> Side
    ensures { IsSide variable.0 row.now result }
{
    let Some(factor) = entry_at(row.form.entries(), variable.0) else {
        return Side::Other;
    };
    if factor.is_positive() {
        Side::Lower(factor)
    } else {
        Side::Upper(factor)
    }
}

/// Each number of the form by the divisor.
pub fn divided(alloc: Global, form: &Form, divisor: Frac) -> Result<Form, Refusal>
    requires nonzero { divisor ≢ 0ℚ }
    ensures value { IfOk result (λ f. f ≡ scaled_form (inv_ℚ divisor) form.now) }
    ensures overflow { (pair : Pair) → result ≡ Err (Refusal.Overflow pair) → IsQuotientOf form.now divisor pair }
{
    let constant = quotient(form.constant(), divisor)?;
    let entries = cq_frac::row::divided(alloc, form.entries(), divisor)?;
    Ok(Form::of_entries(constant, entries))
}

/// The row with each number of its form by the divisor.
fn divided_row(alloc: Global, row: &Constraint, divisor: Frac) -> Result<Constraint, Refusal>
    requires nonzero { divisor ≢ 0ℚ }
    ensures value { IfOk result (λ c. c ≡ over_number divisor row.now) }
    ensures overflow { (pair : Pair) → result ≡ Err (Refusal.Overflow pair) → IsQuotientOf row.now.form divisor pair }
{
    Ok(Constraint {
        relation: row.relation,
        form: divided(alloc, &row.form, divisor)?,
    })
}

impl Sides {
    /// One more row.
    fn push(&mut self, alloc: Global, row: &Constraint, variable: VarId) -> Result<(), Refusal>
        ensures others { OnOk result (self.new.others.items ≡ self.old.others.items ++ other_rows variable.0 (row.now ∷ [])) }
        ensures lower { OnOk result (self.new.lower.items
            ≡ self.old.lower.items ++ map (over_coefficient variable.0) (lower_rows variable.0 (row.now ∷ []))) }
        ensures upper { OnOk result (self.new.upper.items
            ≡ self.old.upper.items ++ map (over_coefficient variable.0) (upper_rows variable.0 (row.now ∷ []))) }
        ensures overflow { (pair : Pair) → result ≡ Err (Refusal.Overflow pair) → DividesIn variable.0 (row.now ∷ []) pair }
    {
        match side_of(row, variable) {
            Side::Other => {
                let copy = row.clone()?;
                self.others.push(copy)?;
            }
            Side::Lower(factor) => {
                let bound = divided_row(alloc, row, factor)?;
                self.lower.push(bound)?;
            }
            Side::Upper(factor) => {
                let bound = divided_row(alloc, row, factor)?;
                self.upper.push(bound)?;
            }
        }
        Ok(())
    }
}

/// The rows by their sides.
fn sides_of(alloc: Global, rows: &[Constraint], variable: VarId) -> Result<Sides, Refusal>
    ensures others { IfOk result (λ s. s.others.items ≡ other_rows variable.0 rows.now) }
    ensures lower { IfOk result (λ s. s.lower.items ≡ map (over_coefficient variable.0) (lower_rows variable.0 rows.now)) }
    ensures upper { IfOk result (λ s. s.upper.items ≡ map (over_coefficient variable.0) (upper_rows variable.0 rows.now)) }
    ensures overflow { (pair : Pair) → result ≡ Err (Refusal.Overflow pair) → DividesIn variable.0 rows.now pair }
{
    let mut sides = Sides {
        others: Vec::new(alloc),
        lower: Vec::new(alloc),
        upper: Vec::new(alloc),
    };
    'rows: for row in rows {
        sides.push(alloc, row, variable)?;
    }
    Ok(sides)
}

/// A lower and an upper row together, which were divided by their coefficients of one variable: what is above the one
/// and below the other leaves room between them.
fn combined(lower: &Constraint, upper: &Constraint) -> Result<Constraint, Refusal>
    ensures value { IfOk result (λ c. c ≡ between lower.now upper.now) }
    ensures overflow { (pair : Pair) → result ≡ Err (Refusal.Overflow pair) → CombinesWith lower.now (upper.now ∷ []) pair }
{
    let (_lower, _upper) = (lower.form.entries(), upper.form.entries());
    let form = lower.form.clone()?.sub(&upper.form)?;
    let relation = match lower.relation {
        Relation::Ge => upper.relation,
        _ => Relation::Gt,
    };
    Ok(Constraint { relation, form })
}

/// Appends the lower row together with each of the upper ones.
fn push_combined(
    rows: &mut Vec<Constraint>,
    lower: &Constraint,
    upper: &[Constraint],
) -> Result<(), Refusal>
    ensures value { OnOk result (rows.new.items ≡ rows.old.items ++ map (between lower.now) upper.now) }
    ensures overflow { (pair : Pair) → result ≡ Err (Refusal.Overflow pair) → CombinesWith lower.now upper.now pair }
{
    'upper: for bound in upper {
        rows.push(combined(lower, bound)?)?;
    }
    Ok(())
}

/// Appends each lower row together with each upper one.
fn push_crossed(
    rows: &mut Vec<Constraint>,
    lower: &[Constraint],
    upper: &[Constraint],
) -> Result<(), Refusal>
    ensures value { OnOk result (rows.new.items ≡ rows.old.items ++ crossed lower.now upper.now) }
    ensures overflow { (pair : Pair) → result ≡ Err (Refusal.Overflow pair) → CombinesIn lower.now upper.now pair }
{
    'lower: for bound in lower {
        push_combined(rows, bound, upper)?;
    }
    Ok(())
}

/// The rows without the variable: those in which it does not stand, and each lower row together with each upper one.
/// Overflow where a number of a row by its coefficient is refused, or the difference of two such quotients at one place
/// of a lower and an upper row.
pub fn eliminated(
    alloc: Global,
    rows: &[Constraint],
    variable: VarId,
) -> Result<Vec<Constraint>, Refusal>
    ensures value { IfOk result (λ left. left.items ≡ eliminated_from variable.0 rows.now) }
    ensures overflow { (pair : Pair) (m : Moment) → AreRowsOf m rows.now → result ≡ Err (Refusal.Overflow pair) → OverflowDue m pair }
{
    let sides = sides_of(alloc, rows, variable)?;
    let mut left = sides.others;
    push_crossed(&mut left, &sides.lower, &sides.upper)?;
    Ok(left)
}
