//! Rows of an answer as they are printed: scaled, turned where the first coefficient is negative, and sorted.
#![tactic(auto)]

pub mod order;
pub mod scaling;

ghost use Rattle.std.specs.Prelude.{◌≡◌, ◌++◌, ◌∷◌, [], map, IfOk, OnOk};
ghost use Rattle.spec_linear.specs.Solution.{Has, Solvable, MentionsOnly};
ghost use Rattle.spec_linear.specs.Echelon.{AreDistinct};
ghost use Rattle.spec_projection.specs.Irredundant.{IsIrredundant};
ghost use Rattle.spec_projection.specs.Partial.{AreInequalities};
ghost use Rattle.spec_simplex.specs.Overflow.{Moment, OverflowDue};
ghost use Rattle.cq_frac.specs.declared.Pair.{Pair};
ghost use Rattle.cq_equations.specs.Told.{numbers_of};
ghost use Rattle.cq_elimination.specs.Steps.{AreRowsOf};
ghost use Rattle.cq_elimination.specs.Scaling.{AreDisequations};
ghost use Rattle.cq_elimination.specs.Lines.{line_of, lines_of, inequality_of, disequation_of, rank_of};
ghost use Rattle.cq_elimination.specs.Arranging.{HasNoEquation, AreInequalityRows, AreDisequationRows, AreLines, IsLine, JoinsAt};

use crate::arrange::order::place_of;
use crate::arrange::scaling::printed;
use cq_form::Constraint;
use cq_frac::{Frac, Refusal, VarId};
use std::alloc::{AllocError, Global};

/// How products stand to a number: `>=`, `>`, `=<`, `<` or `=\=`.
#[derive(Clone, Copy)]
pub enum Comparison {
    AtLeast,
    Above,
    AtMost,
    Below,
    Unequal,
}

impl Comparison {
    /// Its place among rows with the same products.
    pub(crate) fn rank(self) -> usize
        ensures { result ≡ rank_of self }
    {
        match self {
            Comparison::AtLeast => 0,
            Comparison::Above => 1,
            Comparison::AtMost => 2,
            Comparison::Below => 3,
            Comparison::Unequal => 4,
        }
    }
}

/// An inequality or a disequation as it is printed: products in the order of the variables, and how they stand to a
/// number.
#[derive(Drop)]
pub struct PrintedRow {
    pub products: Vec<(VarId, Frac)>,
    pub comparison: Comparison,
    pub bound: Frac,
}

/// Puts the row in its place.
fn insert(order: &[VarId], rows: &mut Vec<PrintedRow>, row: PrintedRow) -> Result<(), AllocError>
    requires distinct { AreDistinct (numbers_of order.now) }
    requires placed { AreLines (numbers_of order.now) (lines_of rows.old.items) }
    requires row_placed { IsLine (numbers_of order.now) (line_of row) }
    requires new { (Has (line_of row) (lines_of rows.old.items)) → ⊥ }
    ensures { OnOk result (JoinsAt (numbers_of order.now) (lines_of rows.old.items) (line_of row) (lines_of rows.new.items)) }
{
    let place = place_of(order, rows, &row);
    rows.insert(place, row)?;
    Ok(())
}

/// The rows as they are printed, over these variables in their order: each by its first coefficient, so that this is 1,
/// with an inequality turned where the coefficient is negative, and sorted by the coefficients, the greater first, then by
/// the comparison, and then by the number. Overflow where a number of a row by one of its coefficients is refused.
pub fn arranged(
    alloc: Global,
    rows: &[Constraint],
    order: &[VarId],
) -> Result<Vec<PrintedRow>, Refusal>
    requires distinct { AreDistinct (numbers_of order.now) }
    requires over { MentionsOnly (numbers_of order.now) rows.now }
    requires unequal { HasNoEquation rows.now }
    requires solvable { Solvable rows.now }
    requires irredundant { IsIrredundant rows.now }
    ensures inequalities { AreInequalities rows.now → IfOk result
        (λ r. AreInequalityRows (numbers_of order.now) rows.now (map inequality_of (lines_of r.items))) }
    ensures disequations { AreDisequations rows.now → IfOk result
        (λ r. AreDisequationRows (numbers_of order.now) rows.now (map disequation_of (lines_of r.items))) }
    ensures overflow { (pair : Pair) (m : Moment) → AreRowsOf m rows.now
        → result ≡ Err (Refusal.Overflow pair) → OverflowDue m pair }
{
    let mut arranged = Vec::new(alloc);
    'rows: for row in rows {
        let printed = printed(alloc, order, row)?;
        insert(order, &mut arranged, printed)?;
    }
    Ok(arranged)
}
