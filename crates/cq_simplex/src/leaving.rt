//! The ratio test: which row limits a column first. Only the rows on the column's list are looked at.

ghost use Rattle.std.specs.Prelude.{◌≡◌, ℕ, true, IfOk};
ghost use Rattle.cq_frac.specs.declared.Pair.{Pair};
ghost use Rattle.cq_dict.specs.Roles.{AreOverColumns, is_live};
ghost use Rattle.cq_simplex.specs.Turns.{IsRatio, IsLeaving, IsFirstOf, IsRefusedRatio, IsRefusedSome};

use cq_dict::dict::{Col, Dict};
use cq_frac::row::entry_at;
use cq_frac::{Frac, Pair, quotient};
use std::cmp::Ordering;

/// A row that limits the column, and the column's value there.
#[derive(Clone, Copy)]
struct Limit {
    row: usize,
    ratio: Frac,
}

/// How far the column may rise until the row is zero; None where the row does not limit it.
///
/// A quantity without an entry in the column is not looked at further.
fn ratio_of(dict: &Dict, row: usize, column: Col) -> Result<Option<Frac>, Pair>
    requires table { AreOverColumns dict.now.roles }
    requires column { is_live dict.now.roles column ≡ true }
    ensures value { (asked : ℕ) → IfOk result (IsRatio dict.now.roles dict.now.restricted asked column row) }
    ensures overflow { (pair : Pair) → result ≡ Err pair → (asked : ℕ) → IsRefusedRatio dict.now.roles dict.now.restricted asked column row pair }
{
    if row >= dict.count() {
        return Ok(None);
    }
    if !dict.is_row(row) || !dict.is_restricted(row) {
        return Ok(None);
    }
    let Some(entry) = entry_at(dict.row(row), column) else {
        return Ok(None);
    };
    if !entry.is_negative() {
        return Ok(None);
    }
    let opposite = quotient(dict.constant(row), entry)?;
    Ok(Some(opposite.neg()))
}

/// The limit that the column meets first, of two at once that of the lesser number: the one found before, or the next.
fn first_of(before: Option<Limit>, next: Limit) -> Limit
    ensures { IsFirstOf before next result }
{
    match before {
        Some(limit) => match limit.ratio.cmp(next.ratio) {
            Ordering::Less => limit,
            Ordering::Greater => next,
            Ordering::Equal => {
                if limit.row <= next.row {
                    return limit;
                }
                next
            }
        },
        None => next,
    }
}

/// Of the restricted rows with the least ratio in the column the one of the least number; None where no row limits it.
pub fn leaving(dict: &Dict, column: Col) -> Result<Option<usize>, Pair>
    requires column { is_live dict.now.roles column ≡ true }
    ensures value { (asked : ℕ) → IfOk result (IsLeaving dict.now.roles dict.now.restricted asked column) }
    ensures overflow { (pair : Pair) → result ≡ Err pair → (asked : ℕ) → IsRefusedSome dict.now.roles dict.now.restricted asked column pair }
{
    // the count's contract is also what tells that the roles are a table
    prove!(column < dict.count());
    let lists = dict.lists();
    let mut list = lists.heads[column];
    let mut first: Option<Limit> = None;
    while list > 0 {
        let cell = lists.cells[list - 1];
        let row = cell.row;
        if let Some(ratio) = ratio_of(dict, row, column)? {
            first = Some(first_of(first, Limit { row, ratio }));
        }
        list = cell.older;
    }
    match first {
        Some(limit) => Ok(Some(limit.row)),
        None => Ok(None),
    }
}
