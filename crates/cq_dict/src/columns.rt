//! The new roles where a column is dropped or restored: its own, and those of the rows with an entry there.

ghost use Rattle.std.specs.Prelude.{◌≡◌, ◌<◌, ℕ, List, length, true, unwrap_or, IfOk};
ghost use Rattle.cq_frac.specs.Row.{Row};
ghost use Rattle.cq_frac.specs.Rows.{everywhere, Lacks};
ghost use Rattle.cq_frac.specs.Numbers.{IsOver, IsDropped, IsRestored};
ghost use Rattle.cq_dict.specs.declared.table.Change.{Change};
ghost use Rattle.cq_dict.specs.declared.table.Role.{Role};
ghost use Rattle.cq_dict.specs.declared.table.Role.TheVariants.{Basic};
ghost use Rattle.cq_dict.specs.Holders.{AreTouched, HoldsNoMore};
ghost use Rattle.cq_dict.specs.Roles.{AreOverColumns};
ghost use Rattle.cq_dict.specs.Changes.{Changes, IsWritten, had, kind_of, IsTurnedRow, LacksOther, Turned, AreTurned, Turns};

use crate::table::{Change, Role};
use cq_frac::row::entry_at;
use cq_frac::row::rows::Row;
use std::alloc::{AllocError, Global};

/// Which way a column goes.
#[derive(Clone, Copy, PartialEq, Eq)]
pub enum Turn {
    Dropping,
    Restoring,
}

fn dropped(alloc: Global, row: &Row, column: usize) -> Result<Option<Role>, AllocError>
    requires row { IsOver everywhere everywhere row.now }
    requires new { Lacks column row.now.dropped }
    ensures { IfOk result (λ next. (r : Row) × (unwrap_or next (Basic row.now) ≡ Basic r) × IsDropped row.now column r) }
{
    match entry_at(row.live(), column) {
        Some(factor) => {
            let turned = row.with_dropped(alloc, column, factor)?;
            Ok(Some(Role::Basic(turned)))
        }
        None => Ok(None),
    }
}

fn restored(alloc: Global, row: &Row, column: usize) -> Result<Option<Role>, AllocError>
    requires row { IsOver everywhere everywhere row.now }
    requires new { Lacks column row.now.live }
    ensures { IfOk result (λ next. (r : Row) × (unwrap_or next (Basic row.now) ≡ Basic r) × IsRestored row.now column r) }
{
    match entry_at(row.dropped(), column) {
        Some(factor) => {
            let turned = row.with_restored(alloc, column, factor)?;
            Ok(Some(Role::Basic(turned)))
        }
        None => Ok(None),
    }
}

impl Turn {
    fn kind(self) -> Role
        ensures { result ≡ kind_of self }
    {
        match self {
            Turn::Dropping => Role::Dropped,
            Turn::Restoring => Role::Live,
        }
    }

    /// What a row becomes; None where it has no entry in the column, and stays.
    fn row(self, alloc: Global, row: &Row, column: usize) -> Result<Option<Role>, AllocError>
        requires row { IsOver everywhere everywhere row.now }
        requires new { LacksOther self column row.now }
        ensures { IfOk result (λ next. (r : Row) × (unwrap_or next (Basic row.now) ≡ Basic r) × IsTurnedRow self column row.now r) }
    {
        match self {
            Turn::Dropping => dropped(alloc, row, column),
            Turn::Restoring => restored(alloc, row, column),
        }
    }

    /// What the role of a number becomes; None where it stays.
    fn next(
        self,
        alloc: Global,
        number: usize,
        role: &Role,
        column: usize,
    ) -> Result<Option<Role>, AllocError>
        requires row { (o : Row) → role.now ≡ Basic o → IsOver everywhere everywhere o }
        requires new { (o : Row) → role.now ≡ Basic o → LacksOther self column o }
        ensures { IfOk result (λ next. Turned self column number role.now (unwrap_or next role.now)) }
    {
        if number == column {
            return Ok(Some(self.kind()));
        }
        match role {
            Role::Basic(row) => self.row(alloc, row, column),
            _ => Ok(None),
        }
    }

    /// The new roles where the column goes this way.
    pub fn changes(
        self,
        alloc: Global,
        roles: &[Role],
        rows: &[usize],
        column: usize,
    ) -> Result<Vec<Change>, AllocError>
        requires table { AreOverColumns roles.now }
        requires rows { AreTouched roles.now column rows.now }
        requires column { had self roles.now column ≡ true }
        ensures within { IfOk result (λ changes. (c : Change) → Changes c changes.items → c.at < length roles.now) }
        ensures turns { IfOk result (λ changes. (new : List Role) → IsWritten roles.now changes.items new → Turns self roles.now column new) }
        ensures held { IfOk result (λ changes. HoldsNoMore roles.now changes.items) }
    {
        let mut changes = Vec::new(alloc);
        for row in rows {
            let i = *row;
            prove!(i < roles.len());
            let next = self.next(alloc, i, &roles[i], column)?;
            if let Some(role) = next {
                changes.push(Change { at: i, role })?;
            }
        }
        Ok(changes)
    }

    /// The changes where the column goes this way after them.
    pub fn after(
        self,
        alloc: Global,
        mut changes: Vec<Change>,
        column: usize,
    ) -> Result<Vec<Change>, AllocError>
        requires rows { (c : Change) (o : Row) → Changes c changes.items → c.role ≡ Basic o → IsOver everywhere everywhere o }
        requires new { (c : Change) (o : Row) → Changes c changes.items → c.role ≡ Basic o → LacksOther self column o }
        ensures { IfOk result (λ turned. AreTurned self column changes.items turned.items) }
    {
        let mut turned = Vec::new(alloc);
        while let Some(change) = changes.pop() {
            let at = change.at;
            let next = self.next(alloc, at, &change.role, column)?;
            let role = next.unwrap_or(change.role);
            turned.push(Change { at, role })?;
        }
        Ok(turned)
    }
}
