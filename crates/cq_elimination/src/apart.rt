//! Rows that bound a variable from a side from which no other row does: none of them follows from the others. No search is
//! needed to see that.
#![tactic(auto)]

ghost use Rattle.std.specs.Prelude.{◌≢◌, ◌++◌};
ghost use Rattle.std.specs.Bool.{OnTrue, OnFalse};
ghost use Rattle.spec_numbers.specs.Rational.{0ℚ};
ghost use Rattle.spec_linear.specs.Solution.{Solvable};
ghost use Rattle.spec_projection.specs.Elimination.{coefficient};
ghost use Rattle.spec_projection.specs.Irredundant.{NoneFollows};
ghost use Rattle.spec_projection.specs.Partial.{AreInequalities};
ghost use Rattle.cq_elimination.specs.ApartSides.{IsOn, NoneBounds, StandsApart};

use cq_form::Constraint;
use cq_frac::Frac;
use cq_frac::row::entry_at;

/// A side from which a row bounds a variable.
#[derive(Clone, Copy)]
enum Side {
    Below,
    Above,
}

/// The side from which a row bounds a variable that it has this often.
fn side_of(factor: Frac) -> Side
    requires nonzero { factor ≢ 0ℚ }
    ensures { IsOn result factor }
{
    if factor.is_positive() {
        Side::Below
    } else {
        Side::Above
    }
}

/// Whether the row bounds the variable from this side.
fn bounds(row: &Constraint, variable: usize, side: Side) -> bool
    ensures { OnFalse result (IsOn side (coefficient variable row.now) → ⊥) }
{
    let Some(factor) = entry_at(row.form.entries(), variable) else {
        return false;
    };
    match side {
        Side::Below => factor.is_positive(),
        Side::Above => !factor.is_positive(),
    }
}

/// Whether some of the rows bounds the variable from this side.
fn is_bounded(rows: &[Constraint], variable: usize, side: Side) -> bool
    ensures { OnFalse result (NoneBounds side variable rows.now) }
{
    'rows: for row in rows {
        if bounds(row, variable, side) {
            return true;
        }
    }
    false
}

/// Whether none of the others bounds the variable from this side.
fn is_free(
    front: &[Constraint],
    back: &[Constraint],
    beside: &[Constraint],
    variable: usize,
    side: Side,
) -> bool
    ensures { OnTrue result (NoneBounds side variable (front.now ++ back.now ++ beside.now)) }
{
    if is_bounded(front, variable, side) {
        return false;
    }
    if is_bounded(back, variable, side) {
        return false;
    }
    !is_bounded(beside, variable, side)
}

/// Whether the row bounds some variable from a side from which none of the others does.
fn stands_apart(
    row: &Constraint,
    front: &[Constraint],
    back: &[Constraint],
    beside: &[Constraint],
) -> bool
    ensures { OnTrue result (StandsApart row.now (front.now ++ back.now ++ beside.now)) }
{
    'entries: for entry in row.form.entries() {
        let side = side_of(entry.factor);
        if is_free(front, back, beside, entry.quantity, side) {
            return true;
        }
    }
    false
}

/// Whether each of the rows bounds some variable from a side from which no other row does, nor any beside them. Then none
/// follows from the others and those beside; where one does not, it may follow or not.
pub fn stand_apart(rows: &[Constraint], beside: &[Constraint]) -> bool
    requires inequalities { AreInequalities rows.now }
    requires beside { AreInequalities beside.now }
    requires solvable { Solvable (rows.now ++ beside.now) }
    ensures { OnTrue result (NoneFollows rows.now beside.now) }
{
    'rows: for at in 0..rows.len() {
        let (front, back) = (&rows[..at], &rows[at + 1..]);
        if !stands_apart(&rows[at], front, back, beside) {
            return false;
        }
    }
    true
}
