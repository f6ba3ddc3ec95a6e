//! The column by which an equation is solved: one that stands in as few rows as can be, so that few are written again.

ghost use Rattle.std.specs.Prelude.{◌≡◌, ◌<◌, [], ◌∷◌, length, MatchBool, IfOk, IfSome};
ghost use Rattle.cq_dict.specs.Holders.{AreTouched};
ghost use Rattle.cq_dict.specs.Roles.{AreOverColumns, IsRow, role_at};
ghost use Rattle.cq_tableau.specs.Lightest.{stands, rows_with, IsLighter, IsLightest};

use cq_dict::dict::{Col, Dict};
use cq_frac::row::{Entry, entry_at};
use std::alloc::AllocError;

/// An unrestricted column, and in how many rows it stands.
#[derive(Clone, Copy)]
struct Candidate {
    column: Col,
    rows: usize,
}

/// Whether the quantity is a row with an entry in the column.
fn stands_in(dict: &Dict, q: usize, c: Col) -> bool
    requires table { AreOverColumns dict.now.roles }
    requires there { q < length dict.now.roles }
    ensures { MatchBool result (stands c (role_at dict.now.roles q) ≡ 1) (stands c (role_at dict.now.roles q) ≡ 0) }
{
    if !dict.is_row(q) {
        return false;
    }
    entry_at(dict.row(q), c).is_some()
}

/// In how many of the touched rows the column stands: it stands in no other.
fn count_among(dict: &Dict, c: Col, touched: &[usize]) -> usize
    requires table { AreOverColumns dict.now.roles }
    requires touched { AreTouched dict.now.roles c touched.now }
    ensures { result ≡ rows_with c dict.now.roles }
{
    let mut rows = 0;
    for q in touched {
        if stands_in(dict, *q, c) {
            rows += 1;
        }
    }
    rows
}

/// In how many rows the column stands. Only the rows on its list are looked at.
fn count_rows(dict: &Dict, c: Col) -> Result<usize, AllocError>
    requires table { AreOverColumns dict.now.roles }
    requires there { c < length dict.now.roles }
    ensures { IfOk result (λ n. n ≡ rows_with c dict.now.roles) }
{
    let touched = dict.touched(c)?;
    let rows = count_among(dict, c, &touched);
    Ok(rows)
}

/// The candidate that was found before, unless the next one stands in fewer rows.
fn lighter(before: Option<Candidate>, next: Candidate) -> Candidate
    ensures { IsLighter before next result }
{
    match before {
        Some(candidate) => {
            if next.rows < candidate.rows {
                return next;
            }
            candidate
        }
        None => next,
    }
}

/// The entry of a row that has no other.
fn only_entry(row: &[Entry]) -> Option<Entry>
    ensures { IfSome result (λ m. row.now ≡ m ∷ []) }
{
    if row.len() == 1 {
        return Some(row[0]);
    }
    None
}

/// Of the unrestricted columns of the row one that stands in the fewest rows: a new variable's stands in no other row.
///
/// Of a row with one column no rows are counted.
pub fn lightest_column(dict: &Dict, q: usize) -> Result<Option<Col>, AllocError>
    requires table { AreOverColumns dict.now.roles }
    requires row { IsRow dict.now.roles q }
    ensures { IfOk result (IsLightest dict.now.roles dict.now.restricted q) }
{
    if let Some(m) = only_entry(dict.row(q)) {
        if dict.is_restricted(m.quantity) {
            return Ok(None);
        }
        return Ok(Some(m.quantity));
    }
    let mut found: Option<Candidate> = None;
    for m in dict.row(q) {
        if !dict.is_restricted(m.quantity) {
            let column = m.quantity;
            let rows = count_rows(dict, column)?;
            found = Some(lighter(found, Candidate { column, rows }));
        }
    }
    match found {
        Some(candidate) => Ok(Some(candidate.column)),
        None => Ok(None),
    }
}
