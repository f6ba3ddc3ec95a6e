//! The new roles of an exchange: those of the row, of the column, and of the rows with an entry in the column; and where
//! the row's quantity is dropped at once.

ghost use Rattle.std.specs.Prelude.{◌≡◌, ◌≢◌, ◌<◌, ℕ, List, length, unwrap_or, IfOk, OnOk};
ghost use Rattle.spec_numbers.specs.Rational.{ℚ, 0ℚ, 1ℚ};
ghost use Rattle.cq_frac.specs.declared.Pair.{Pair};
ghost use Rattle.cq_frac.specs.Row.{Row};
ghost use Rattle.cq_frac.specs.Rows.{everywhere, sum_at, unit, Lacks};
ghost use Rattle.cq_frac.specs.Numbers.{IsOver};
ghost use Rattle.cq_dict.specs.declared.table.Change.{Change};
ghost use Rattle.cq_dict.specs.declared.table.Role.{Role};
ghost use Rattle.cq_dict.specs.declared.table.Role.TheVariants.{Basic};
ghost use Rattle.cq_dict.specs.Roles.{AreOverColumns, HasEntry};
ghost use Rattle.cq_dict.specs.Changes.{Changes, Covers, IsWritten, IsMoved, RefusesShift, NoShiftPair, Moved, IsSolved, AreMoved, Exchanges, Eliminates};
ghost use Rattle.cq_dict.specs.Holders.{AreTouched};
ghost use Rattle.cq_dict.specs.Dict.{RefusesPivot, NoPivotPair};

use crate::columns::Turn;
use crate::table::{Change, Role};
use cq_frac::row::entry_at;
use cq_frac::row::rows::Row;
use cq_frac::{Frac, Refusal, quotient};
use std::alloc::Global;

/// What another row becomes; None where it has no entry in the column, and stays.
fn moved(
    alloc: Global,
    other: &Row,
    column: usize,
    q: &Row,
    leaving: usize,
    rate: Frac,
) -> Result<Option<Role>, Refusal>
    requires other_row { IsOver everywhere everywhere other.now }
    requires q_row { IsOver everywhere everywhere q.now }
    requires own { sum_at (unit column) q.now.live ≡ 1ℚ }
    requires new { Lacks leaving other.now.live × Lacks leaving q.now.live }
    requires apart { leaving ≢ column }
    requires nonzero { rate ≢ 0ℚ }
    ensures value { IfOk result (λ next. (r : Row) × (unwrap_or next (Basic other.now) ≡ Basic r) × IsMoved other.now column q.now leaving rate r) }
    ensures overflow { (pair : Pair) → result ≡ Err (Refusal.Overflow pair) → RefusesShift other.now column q.now rate pair }
    ensures accepted { OnOk result (NoShiftPair other.now column q.now rate) }
{
    match entry_at(other.live(), column) {
        Some(e) => {
            let row = other.shifted(alloc, e, q, leaving, rate)?;
            Ok(Some(Role::Basic(row)))
        }
        None => Ok(None),
    }
}

/// The new roles of the exchange, where `q` is the leaving quantity's row by its entry in the column, and `rate` is 1 by
/// that entry.
fn all_moved(
    alloc: Global,
    roles: &[Role],
    rows: &[usize],
    leaving: usize,
    column: usize,
    q: &Row,
    rate: Frac,
) -> Result<Vec<Change>, Refusal>
    requires table { AreOverColumns roles.now }
    requires rows { AreTouched roles.now column rows.now }
    requires solved { IsSolved roles.now leaving column q.now rate }
    ensures covers { IfOk result (λ changes. Covers (Moved leaving column q.now rate) roles.now (length roles.now) changes.items) }
    ensures overflow { (pair : Pair) → result ≡ Err (Refusal.Overflow pair) → RefusesPivot roles.now leaving column pair }
{
    let mut changes = Vec::new(alloc);
    for row in rows {
        let i = *row;
        prove!(i < roles.len());
        let role = &roles[i];
        let next = if i == leaving {
            Some(Role::Live)
        } else if i == column {
            let entering = q.entered(alloc, column, leaving, rate)?;
            Some(Role::Basic(entering))
        } else if let Role::Basic(other) = role {
            moved(alloc, other, column, q, leaving, rate)?
        } else {
            None
        };
        if let Some(role) = next {
            changes.push(Change { at: i, role })?;
        }
    }
    Ok(changes)
}

/// The new roles where the row `leaving` and the column are exchanged.
pub fn exchange(
    alloc: Global,
    roles: &[Role],
    rows: &[usize],
    leaving: usize,
    column: usize,
) -> Result<Vec<Change>, Refusal>
    requires table { AreOverColumns roles.now }
    requires rows { AreTouched roles.now column rows.now }
    requires there { leaving < length roles.now }
    requires entry { HasEntry roles.now leaving column }
    ensures within { IfOk result (λ changes. (c : Change) → Changes c changes.items → c.at < length roles.now) }
    ensures exchanges { IfOk result (λ changes. (new : List Role) → IsWritten roles.now changes.items new → Exchanges roles.now leaving column new) }
    ensures moved { IfOk result (λ changes. AreMoved roles.now leaving column changes.items) }
    ensures accepted { OnOk result (NoPivotPair roles.now leaving column) }
    ensures overflow { (pair : Pair) → result ≡ Err (Refusal.Overflow pair) → RefusesPivot roles.now leaving column pair }
{
    let Role::Basic(row) = &roles[leaving] else {
        unreachable!()
    };
    let Some(p) = entry_at(row.live(), column) else {
        unreachable!()
    };
    let rate = quotient(Frac::one(), p)?;
    let q = row.divided(alloc, p)?;
    all_moved(alloc, roles, rows, leaving, column, &q, rate)
}

/// The new roles where the two are exchanged and the leaving quantity, a column then, is dropped.
pub fn eliminate(
    alloc: Global,
    roles: &[Role],
    rows: &[usize],
    leaving: usize,
    column: usize,
) -> Result<Vec<Change>, Refusal>
    requires table { AreOverColumns roles.now }
    requires rows { AreTouched roles.now column rows.now }
    requires there { leaving < length roles.now }
    requires entry { HasEntry roles.now leaving column }
    ensures within { IfOk result (λ changes. (c : Change) → Changes c changes.items → c.at < length roles.now) }
    ensures eliminates { IfOk result (λ changes. (new : List Role) → IsWritten roles.now changes.items new → Eliminates roles.now leaving column new) }
    ensures accepted { OnOk result (NoPivotPair roles.now leaving column) }
    ensures overflow { (pair : Pair) → result ≡ Err (Refusal.Overflow pair) → RefusesPivot roles.now leaving column pair }
{
    let changes = exchange(alloc, roles, rows, leaving, column)?;
    let turned = Turn::Dropping.after(alloc, changes, leaving)?;
    Ok(turned)
}
