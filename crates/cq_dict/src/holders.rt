//! For each column a list of the rows that hold it. Lists grow at their front alone: a row that has lost its entry may
//! stand on one, and one that holds the column always does.

ghost use Rattle.std.specs.Prelude.{◌≡◌, ◌<◌, ℕ, length, slice_get, Some, IfOk, OnOk};
ghost use Rattle.std.specs.Bool.{OnTrue};
ghost use Rattle.std.specs.List.{Contains};
ghost use Rattle.std.specs.List.Sorted.{IsStrictlyIncreasing};
ghost use Rattle.cq_frac.specs.declared.row.Entry.{Entry};
ghost use Rattle.cq_frac.specs.Row.{Row};
ghost use Rattle.cq_frac.specs.Rows.{everywhere, Has};
ghost use Rattle.cq_frac.specs.Numbers.{IsOver};
ghost use Rattle.cq_dict.specs.declared.table.Change.{Change};
ghost use Rattle.cq_dict.specs.declared.table.Role.TheVariants.{Basic};
ghost use Rattle.cq_dict.specs.Changes.{Changes};
ghost use Rattle.cq_dict.specs.Holders.{Holds, IsOn, IsListed, AreLists, Grows, AreHeld};
ghost use Rattle.cq_dict.specs.Roles.{AreOverColumns};

use crate::table::{Change, Role};
use cq_frac::row::Entry;
use cq_frac::row::rows::Row;
use cq_trail::{Stack, Trail};
use std::alloc::{AllocError, Global};

/// A row on a column's list, and the list that it was put in front of: the number of its newest cell, counted from 1,
/// or 0 where it was empty.
#[derive(Clone, Copy, Drop)]
pub struct Cell {
    pub row: usize,
    pub older: usize,
}

/// For each quantity the list of the rows that hold it as a column, and the cells of all lists.
#[derive(Clone, Copy)]
pub struct Lists<'a> {
    pub heads: &'a [usize],
    pub cells: &'a [Cell],
}

/// The column's own number and the rows below `count` on its list, in ascending order.
pub fn listed(
    alloc: Global,
    heads: &[usize],
    cells: &[Cell],
    column: usize,
    count: usize,
) -> Result<Vec<usize>, AllocError>
    requires lists { AreLists heads.now cells.now }
    requires there { column < length heads.now }
    requires column { column < count }
    ensures within { IfOk result (λ rows. (r : ℕ) → Contains rows.items r → r < count) }
    ensures ascending { IfOk result (λ rows. IsStrictlyIncreasing rows.items) }
    ensures own { IfOk result (λ rows. Contains rows.items column) }
    ensures all { IfOk result (λ rows. (r : ℕ) → r < count → IsListed heads.now cells.now column r → Contains rows.items r) }
{
    let mut rows = Vec::new(alloc);
    rows.push(column)?;
    let mut list = heads[column];
    while list > 0 {
        let cell = cells[list - 1];
        if cell.row < count {
            rows.push(cell.row)?;
        }
        list = cell.older;
    }
    rows.sort_unstable();
    rows.dedup();
    Ok(rows)
}

/// Puts the row on the column's list.
fn add(
    heads: &mut Trail<usize>,
    cells: &mut Stack<Cell>,
    column: usize,
    row: usize,
) -> Result<(), AllocError>
    requires { column < length heads.old.now }
    ensures grows { Grows heads.old cells.old heads.new cells.new }
    ensures listed { OnOk result (IsListed heads.new.now cells.new.now column row) }
{
    let older = *heads.get(column);
    cells.push(Cell { row, older })?;
    heads.set(column, cells.len())?;
    Ok(())
}

/// Whether an entry of the quantity stands at this place.
fn stands_at(row: &[Entry], at: usize, quantity: usize) -> bool
    ensures { OnTrue result ((o : Entry) × Has o row.now × (o.quantity ≡ quantity)) }
{
    at < row.len() && row[at].quantity == quantity
}

/// Puts the row of this number on the lists of the entries, but for those that stand in `held`, on whose lists it is.
/// Where both ascend, one walk along `held` finds all of these.
fn hold_entries(
    heads: &mut Trail<usize>,
    cells: &mut Stack<Cell>,
    held: &[Entry],
    entries: &[Entry],
    number: usize,
) -> Result<(), AllocError>
    requires held { (o : Entry) → Has o held.now → IsListed heads.old.now cells.old.now o.quantity number }
    requires columns { (m : Entry) → Has m entries.now → m.quantity < length heads.old.now }
    ensures grows { Grows heads.old cells.old heads.new cells.new }
    ensures listed { OnOk result ((m : Entry) → Has m entries.now → IsListed heads.new.now cells.new.now m.quantity number) }
{
    let mut at = 0;
    for m in entries {
        while at < held.len() && held[at].quantity < m.quantity {
            at += 1;
        }
        if !stands_at(held, at, m.quantity) {
            add(heads, cells, m.quantity, number)?;
        }
    }
    Ok(())
}

/// Puts the row of this number on the lists of its columns, where it was this role before.
fn hold_row(
    heads: &mut Trail<usize>,
    cells: &mut Stack<Cell>,
    role: &Role,
    row: &Row,
    number: usize,
) -> Result<(), AllocError>
    requires role { (own : Row) → role.now ≡ Basic own → IsOver everywhere everywhere own }
    requires before { (own : Row) (c : ℕ) → role.now ≡ Basic own → Holds own c → IsListed heads.old.now cells.old.now c number }
    requires columns { (c : ℕ) → Holds row.now c → c < length heads.old.now }
    ensures grows { Grows heads.old cells.old heads.new cells.new }
    ensures listed { OnOk result ((c : ℕ) → Holds row.now c → IsListed heads.new.now cells.new.now c number) }
{
    let held: (&[Entry], &[Entry]) = match role {
        Role::Basic(own) => (own.live(), own.dropped()),
        _ => (&[], &[]),
    };
    hold_entries(heads, cells, held.0, row.live(), number)?;
    hold_entries(heads, cells, held.1, row.dropped(), number)?;
    Ok(())
}

/// Puts a new quantity of this number, where it is a row, on the lists of its columns.
pub fn hold_new(
    heads: &mut Trail<usize>,
    cells: &mut Stack<Cell>,
    role: &Role,
    number: usize,
) -> Result<(), AllocError>
    requires { (own : Row) (c : ℕ) → role.now ≡ Basic own → Holds own c → c < length heads.old.now }
    ensures grows { Grows heads.old cells.old heads.new cells.new }
    ensures listed { OnOk result ((own : Row) (c : ℕ) → role.now ≡ Basic own → Holds own c → IsListed heads.new.now cells.new.now c number) }
{
    match role {
        Role::Basic(row) => hold_row(heads, cells, &Role::Live, row, number),
        _ => Ok(()),
    }
}

/// Puts each row among the new roles on the lists of its columns.
pub fn hold_changes(
    heads: &mut Trail<usize>,
    cells: &mut Stack<Cell>,
    roles: &[Role],
    changes: &[Change],
) -> Result<(), AllocError>
    requires table { AreOverColumns roles.now }
    requires held { AreHeld roles.now heads.old.now cells.old.now }
    requires within { (d : Change) → Changes d changes.now → d.at < length roles.now }
    requires columns { (d : Change) (own : Row) (c : ℕ) → Changes d changes.now → d.role ≡ Basic own → Holds own c → c < length roles.now }
    ensures grows { Grows heads.old cells.old heads.new cells.new }
    ensures listed { OnOk result ((d : Change) (own : Row) (c : ℕ) → Changes d changes.now → d.role ≡ Basic own → Holds own c
        → IsListed heads.new.now cells.new.now c d.at) }
{
    for change in changes {
        if let Role::Basic(row) = &change.role {
            prove!(change.at < roles.len());
            hold_row(heads, cells, &roles[change.at], row, change.at)?;
        }
    }
    Ok(())
}
