//! Which of two printed rows comes first, and the place of a row among others.

ghost use Rattle.std.specs.Prelude.{◌≡◌, drop};
ghost use Rattle.std.specs.Ordering.{MatchOrdering, ordering_then, nat_cmp};
ghost use Rattle.spec_numbers.specs.Order.{cmp_ℚ};
ghost use Rattle.spec_linear.specs.Solution.{Has};
ghost use Rattle.spec_linear.specs.Echelon.{AreDistinct};
ghost use Rattle.spec_answers.specs.Forms.{Before};
ghost use Rattle.cq_equations.specs.Told.{numbers_of};
ghost use Rattle.cq_elimination.specs.Lines.{monomials_of, line_of, lines_of, rank_of};
ghost use Rattle.cq_elimination.specs.Arranging.{IsPlaced, IsLine, AreLines, first_factor, LineBefore, IsPlace};

use crate::arrange::PrintedRow;
use cq_frac::{Frac, VarId};
use std::cmp::Ordering;

/// The factor of the product at the place, if it is one of the variable, and else zero.
fn factor_at(products: &[(VarId, Frac)], i: usize, variable: VarId) -> Frac
    ensures { result ≡ first_factor variable.0 (monomials_of (drop i products.now)) }
{
    match products.get(i) {
        Some(product) if product.0.0 == variable.0 => product.1,
        _ => Frac::zero(),
    }
}

/// By coefficients in the order of the variables, the greater first.
fn compare_products(order: &[VarId], s: &[(VarId, Frac)], t: &[(VarId, Frac)]) -> Ordering
    requires distinct { AreDistinct (numbers_of order.now) }
    requires placed { IsPlaced (numbers_of order.now) (monomials_of s.now) }
    requires other_placed { IsPlaced (numbers_of order.now) (monomials_of t.now) }
    ensures { MatchOrdering result (Before (numbers_of order.now) (monomials_of s.now) (monomials_of t.now) ⊥)
        (monomials_of s.now ≡ monomials_of t.now)
        (Before (numbers_of order.now) (monomials_of t.now) (monomials_of s.now) ⊥) }
{
    let mut i = 0;
    'variables: for &x in order {
        let factor = factor_at(s, i, x);
        match factor.cmp(factor_at(t, i, x)) {
            Ordering::Less => return Ordering::Greater,
            Ordering::Greater => return Ordering::Less,
            Ordering::Equal => {
                if !factor.is_zero() {
                    i += 1;
                }
            }
        }
    }
    Ordering::Equal
}

/// By comparison and then by the number, the lesser first.
fn compare_bounds(a: &PrintedRow, b: &PrintedRow) -> Ordering
    ensures { result ≡ ordering_then (nat_cmp (rank_of a.now.comparison) (rank_of b.now.comparison)) (cmp_ℚ a.now.bound b.now.bound) }
{
    let rank = a.comparison.rank();
    rank.cmp(&b.comparison.rank()).then(a.bound.cmp(b.bound))
}

/// Which of the two comes first.
fn compare(order: &[VarId], a: &PrintedRow, b: &PrintedRow) -> Ordering
    requires distinct { AreDistinct (numbers_of order.now) }
    requires placed { IsLine (numbers_of order.now) (line_of a.now) }
    requires other_placed { IsLine (numbers_of order.now) (line_of b.now) }
    ensures { MatchOrdering result (LineBefore (numbers_of order.now) (line_of a.now) (line_of b.now))
        (line_of a.now ≡ line_of b.now)
        (LineBefore (numbers_of order.now) (line_of b.now) (line_of a.now)) }
{
    compare_products(order, &a.products, &b.products).then(compare_bounds(a, b))
}

/// How many of the rows, which are sorted, come before this one.
pub(crate) fn place_of(order: &[VarId], rows: &[PrintedRow], row: &PrintedRow) -> usize
    requires distinct { AreDistinct (numbers_of order.now) }
    requires placed { AreLines (numbers_of order.now) (lines_of rows.now) }
    requires row_placed { IsLine (numbers_of order.now) (line_of row.now) }
    requires new { Has (line_of row.now) (lines_of rows.now) → ⊥ }
    ensures { IsPlace (numbers_of order.now) rows.now row.now result }
{
    let mut low = 0;
    let mut high = rows.len();
    'halves: while low < high {
        let middle = low + (high - low) / 2;
        match compare(order, &rows[middle], row) {
            Ordering::Less => low = middle + 1,
            _ => high = middle,
        }
    }
    low
}
