//! The dictionary: the quantities by their numbers, and the calls that make and change them.

ghost use Rattle.std.specs.Prelude.{◌≡◌, ◌<◌, ◌≤◌, ◌⊎◌, ◌↔◌, ℕ, List, [], ◌∷◌, ◌++◌, length, true, slice_set, IfOk, OnOk, OnErr, MatchBool};
ghost use Rattle.spec_numbers.specs.Rational.{ℚ};
ghost use Rattle.cq_frac.specs.declared.Pair.{Pair};
ghost use Rattle.cq_frac.specs.declared.row.Entry.{Entry};
ghost use Rattle.cq_frac.specs.Row.{Row};
ghost use Rattle.cq_frac.specs.Numbers.{IsOver};
ghost use Rattle.cq_frac.specs.Rows.{Has, IsRowFrom};
ghost use Rattle.cq_dict.specs.declared.table.Change.{Change};
ghost use Rattle.cq_dict.specs.declared.table.Role.{Role};
ghost use Rattle.cq_dict.specs.declared.table.Role.TheVariants.{Live, Dropped, Basic};
ghost use Rattle.cq_dict.specs.Changes.{Changes, IsWritten};
ghost use Rattle.cq_dict.specs.Roles.{IsAt, IsRow, AreOverColumns, is_live, is_dropped as has_dropped, is_restricted as flag_of, HasEntry, IsExchanged, IsEliminated, ChangesKind};
ghost use Rattle.cq_dict.specs.Holders.{AreHeld, AreTouched, HoldsNoMore};
ghost use Rattle.cq_dict.specs.Dict.{SameMeaning, AddsRow, DefinesLast, RefusesPivot, RefusesForm, NoPivotPair, NoFormPair};

use crate::columns::Turn;
use crate::exchange::{eliminate, exchange};
use crate::form::expressed;
use crate::holders::{Cell, Lists, hold_changes, hold_new, listed};
use crate::table::{Change, Role, write};
use cq_frac::row::Entry;
use cq_frac::row::rows::Row;
use cq_frac::{Frac, Refusal};
use cq_trail::{Mark, Stack, Trail, Undo};
use std::alloc::{AllocError, Global};
use std::marker::Model;

/// The number of a quantity that is a column.
pub type Col = usize;

/// Quantities, numbered in the order of making: columns, which are free, and rows over them.
///
/// A quantity keeps its number as a row and as a column. Restricted quantities are those that may not be negative: the
/// dictionary keeps the flag and does nothing by it. Marks take constant time, and `undo` the time of what was made and
/// changed since: a row that is replaced is kept for the marks and not copied.
///
/// Each column has a linked list of the rows that may mention it, so an exchange visits these alone. A row's cells are put in
/// front when it comes to mention a column, and are taken off by `undo` alone.
#[derive(Drop)]
pub struct Dict {
    alloc: Global,
    roles: Trail<Role>,
    // apart from the roles, so that to restrict a row is not to write it
    restricted: Trail<bool>,
    // for each quantity the list of the rows that hold it as a column
    heads: Trail<usize>,
    cells: Stack<Cell>,
}

impl Model for Dict {
    ghost use Rattle.std.specs.Prelude.{min};
    ghost use Rattle.cq_dict.specs.DictValue.{DictValue, AreMarked, saved_quantities};
    ghost use Rattle.cq_dict.specs.Holders.{AreHeldAtMarks};

    ghost Value = { DictValue };

    ghost view = { λ d. record {
      roles = d.roles.now;
      restricted = d.restricted.now;
      saved = saved_quantities d.roles.saved d.restricted.saved;
      room = min d.roles.room (min d.restricted.room (min d.heads.room d.cells.room));
    } };

    ghost invariant = { λ d. AreMarked d.roles.now d.restricted.now d.roles.saved d.restricted.saved
        × AreHeldAtMarks d.roles.now d.heads.now d.cells.now d.roles.saved d.heads.saved d.cells.saved };
}

impl Dict {
    ghost use Rattle.cq_dict.specs.DictValue.{quantities_of};

    /// A dictionary without quantities. It takes no memory.
    pub fn new(alloc: Global) -> Dict
        ensures roles { result.roles ≡ [] }
        ensures flags { result.restricted ≡ [] }
        ensures saved { result.saved ≡ [] }
    {
        Dict {
            alloc,
            roles: Trail::new(alloc),
            restricted: Trail::new(alloc),
            heads: Trail::new(alloc),
            cells: Stack::new(alloc),
        }
    }

    fn roles(&self) -> &[Role]
        ensures value { result.now ≡ self.now.roles }
        ensures table { AreOverColumns self.now.roles }
    {
        self.roles.as_slice()
    }

    fn role(&self, q: usize) -> &Role
        requires { q < length self.now.roles }
        ensures role { IsAt self.now.roles q result.now }
        ensures table { AreOverColumns self.now.roles }
    {
        self.roles.get(q)
    }

    fn basic(&self, r: usize) -> &Row
        requires { IsRow self.now.roles r }
        ensures row { IsAt self.now.roles r (Basic result.now) }
        ensures columns { IsOver (is_live self.now.roles) (has_dropped self.now.roles) result.now }
    {
        match self.role(r) {
            Role::Basic(row) => row,
            _ => unreachable!(),
        }
    }

    /// The number of quantities made.
    pub fn count(&self) -> usize
        ensures value { result ≡ length self.now.roles }
        ensures table { AreOverColumns self.now.roles }
    {
        self.roles.len()
    }

    /// Whether the quantity is basic, so that a row gives its value.
    pub fn is_row(&self, q: usize) -> bool
        requires { q < length self.now.roles }
        ensures { MatchBool result (IsRow self.now.roles q) (IsAt self.now.roles q Live ⊎ IsAt self.now.roles q Dropped) }
    {
        matches!(self.role(q), Role::Basic(_))
    }

    /// Whether the quantity is a dropped column.
    pub fn is_dropped(&self, q: usize) -> bool
        requires { q < length self.now.roles }
        ensures { result ≡ has_dropped self.now.roles q }
    {
        matches!(self.role(q), Role::Dropped)
    }

    /// Whether the quantity may not be negative.
    pub fn is_restricted(&self, q: usize) -> bool
        requires { q < length self.now.roles }
        ensures { result ≡ flag_of self.now.restricted q }
    {
        *self.restricted.get(q)
    }

    /// The row's entries of live columns, in ascending order of the columns, none zero.
    pub fn row(&self, r: usize) -> &[Entry]
        requires { IsRow self.now.roles r }
        ensures entries { (own : Row) → IsAt self.now.roles r (Basic own) → result.now ≡ own.live }
        ensures columns { IsRowFrom (is_live self.now.roles) 0 result.now }
    {
        self.basic(r).live()
    }

    /// The row's entries of dropped columns, in ascending order of the columns, none zero.
    pub fn dropped(&self, r: usize) -> &[Entry]
        requires { IsRow self.now.roles r }
        ensures entries { (own : Row) → IsAt self.now.roles r (Basic own) → result.now ≡ own.dropped }
        ensures columns { IsRowFrom (has_dropped self.now.roles) 0 result.now }
    {
        self.basic(r).dropped()
    }

    /// The row's value where all columns are zero.
    pub fn constant(&self, r: usize) -> Frac
        requires { IsRow self.now.roles r }
        ensures { (own : Row) → IsAt self.now.roles r (Basic own) → result ≡ own.constant }
    {
        self.basic(r).constant()
    }

    /// For each column the list of the rows that hold it, and maybe of others: a row may stand on a list twice.
    pub fn lists(&self) -> Lists<'_>
        ensures { AreHeld self.now.roles result.heads.now result.cells.now }
    {
        Lists {
            heads: self.heads.as_slice(),
            cells: self.cells.as_slice(),
        }
    }

    /// The column's own number and those of the rows that hold it, and maybe of others, in ascending order.
    pub fn touched(&self, c: Col) -> Result<Vec<usize>, AllocError>
        requires { AreOverColumns self.now.roles → c < length self.now.roles }
        ensures { IfOk result (λ rows. AreTouched self.now.roles c rows.items) }
    {
        let count = self.roles.len();
        listed(
            self.alloc,
            self.heads.as_slice(),
            self.cells.as_slice(),
            c,
            count,
        )
    }

    /// Empties the list of a row, which none holds.
    fn clear_list(&mut self, r: usize) -> Result<(), AllocError>
        requires { IsRow self.old.roles r }
        ensures roles { self.new.roles ≡ self.old.roles }
        ensures flags { self.new.restricted ≡ self.old.restricted }
        ensures saved { self.new.saved ≡ self.old.saved }
        ensures room { self.old.room ≤ self.new.room }
    {
        self.heads.set(r, 0)?;
        Ok(())
    }

    /// Puts a role and its flag at the end.
    fn push(&mut self, role: Role, restricted: bool) -> Result<(), AllocError>
        requires { AreOverColumns (self.old.roles ++ role ∷ []) }
        ensures roles { OnOk result (self.new.roles ≡ self.old.roles ++ role ∷ []) }
        ensures flags { OnOk result (self.new.restricted ≡ self.old.restricted ++ restricted ∷ []) }
        ensures saved { self.new.saved ≡ self.old.saved }
        ensures room { self.old.room ≤ self.new.room }
        ensures err { OnErr result (quantities_of self.new ≡ quantities_of self.old) }
    {
        let number = self.roles.len();
        hold_new(&mut self.heads, &mut self.cells, &role, number)?;
        self.roles.reserve_places(1)?;
        self.heads.reserve_places(1)?;
        self.restricted.push(restricted)?;
        self.heads.push(0).unwrap();
        self.roles.push(role).unwrap();
        Ok(())
    }

    /// Writes the new roles, all or none.
    fn write(&mut self, changes: Vec<Change>) -> Result<(), AllocError>
        requires within { (c : Change) → Changes c changes.items → c.at < length self.old.roles }
        requires table { (new : List Role) → IsWritten self.old.roles changes.items new → AreOverColumns new }
        ensures written { OnOk result (IsWritten self.old.roles changes.items self.new.roles) }
        ensures flags { self.new.restricted ≡ self.old.restricted }
        ensures saved { self.new.saved ≡ self.old.saved }
        ensures room { self.old.room ≤ self.new.room }
        ensures err { OnErr result (self.new.roles ≡ self.old.roles) }
    {
        hold_changes(
            &mut self.heads,
            &mut self.cells,
            self.roles.as_slice(),
            &changes,
        )?;
        write(&mut self.roles, changes)?;
        Ok(())
    }

    /// Writes the new roles, all or none, where no row holds a column anew, so that the lists stay.
    fn rewrite(&mut self, changes: Vec<Change>) -> Result<(), AllocError>
        requires within { (c : Change) → Changes c changes.items → c.at < length self.old.roles }
        requires table { (new : List Role) → IsWritten self.old.roles changes.items new → AreOverColumns new }
        requires held { HoldsNoMore self.old.roles changes.items }
        ensures written { OnOk result (IsWritten self.old.roles changes.items self.new.roles) }
        ensures flags { self.new.restricted ≡ self.old.restricted }
        ensures saved { self.new.saved ≡ self.old.saved }
        ensures room { self.old.room ≤ self.new.room }
        ensures err { OnErr result (self.new.roles ≡ self.old.roles) }
    {
        write(&mut self.roles, changes)?;
        Ok(())
    }

    /// Makes a new quantity, which is a live column.
    pub fn add_column(&mut self, restricted: bool) -> Result<Col, AllocError>
        ensures number { IfOk result (λ c. c ≡ length self.old.roles) }
        ensures roles { OnOk result (self.new.roles ≡ self.old.roles ++ Live ∷ []) }
        ensures flags { OnOk result (self.new.restricted ≡ self.old.restricted ++ restricted ∷ []) }
        ensures same { OnOk result (SameMeaning self.old.roles self.new.roles) }
        ensures saved { self.new.saved ≡ self.old.saved }
        ensures room { self.old.room ≤ self.new.room }
        ensures err { OnErr result (quantities_of self.new ≡ quantities_of self.old) }
    {
        let number = self.count();
        self.push(Role::Live, restricted)?;
        Ok(number)
    }

    /// Makes a new quantity, which is a row: the constant and the form over quantities that are there.
    ///
    /// Each product is added in the form's order to what came before; a product with a factor of zero takes no operation.
    pub fn add_row(
        &mut self,
        form: &[Entry],
        constant: Frac,
        restricted: bool,
    ) -> Result<usize, Refusal>
        requires { (m : Entry) → Has m form.now → m.quantity < length self.old.roles }
        ensures number { IfOk result (λ r. r ≡ length self.old.roles) }
        ensures roles { OnOk result (AddsRow self.old.roles form.now constant self.new.roles) }
        ensures flags { OnOk result (self.new.restricted ≡ self.old.restricted ++ restricted ∷ []) }
        ensures value { OnOk result (DefinesLast self.old.roles form.now constant self.new.roles) }
        ensures table { AreOverColumns self.new.roles }

        ensures accepted { OnOk result (NoFormPair self.old.roles form.now constant) }
        ensures overflow { (pair : Pair) → result ≡ Err (Refusal.Overflow pair) → RefusesForm self.old.roles form.now constant pair }
        ensures saved { self.new.saved ≡ self.old.saved }
        ensures room { self.old.room ≤ self.new.room }
        ensures err { OnErr result (quantities_of self.new ≡ quantities_of self.old) }
    {
        let number = self.count();
        let row = expressed(self.alloc, self.roles(), form, constant)?;
        self.push(Role::Basic(row), restricted)?;
        Ok(number)
    }

    /// Makes the quantity a restricted one.
    pub fn restrict(&mut self, q: usize) -> Result<(), AllocError>
        requires { q < length self.old.roles }
        ensures roles { self.new.roles ≡ self.old.roles }
        ensures flags { OnOk result (self.new.restricted ≡ slice_set self.old.restricted q true) }
        ensures saved { self.new.saved ≡ self.old.saved }
        ensures room { self.old.room ≤ self.new.room }
        ensures err { OnErr result (quantities_of self.new ≡ quantities_of self.old) }
    {
        self.restricted.set(q, true)?;
        Ok(())
    }

    /// Exchanges the row and the live column, in which the row has an entry.
    pub fn pivot(&mut self, r: usize, c: Col) -> Result<(), Refusal>
        requires { HasEntry self.old.roles r c }
        ensures same { OnOk result (SameMeaning self.old.roles self.new.roles) }
        ensures kinds { OnOk result (IsExchanged self.old.roles r c self.new.roles) }
        ensures flags { self.new.restricted ≡ self.old.restricted }
        ensures table { AreOverColumns self.new.roles }

        ensures accepted { OnOk result (NoPivotPair self.old.roles r c) }
        ensures overflow { (pair : Pair) → result ≡ Err (Refusal.Overflow pair) → RefusesPivot self.old.roles r c pair }
        ensures saved { self.new.saved ≡ self.old.saved }
        ensures room { self.old.room ≤ self.new.room }
        ensures err { OnErr result (self.new.roles ≡ self.old.roles) }
    {
        let rows = self.touched(c)?;
        let changes = exchange(self.alloc, self.roles(), &rows, r, c)?;
        self.clear_list(r)?;
        self.write(changes)?;
        Ok(())
    }

    /// Exchanges the row and the live column, in which the row has an entry, and drops the row's quantity, which has
    /// become a column.
    pub fn eliminate(&mut self, r: usize, c: Col) -> Result<(), Refusal>
        requires { HasEntry self.old.roles r c }
        ensures same { OnOk result (SameMeaning self.old.roles self.new.roles) }
        ensures kinds { OnOk result (IsEliminated self.old.roles r c self.new.roles) }
        ensures flags { self.new.restricted ≡ self.old.restricted }
        ensures table { AreOverColumns self.new.roles }

        ensures accepted { OnOk result (NoPivotPair self.old.roles r c) }
        ensures overflow { (pair : Pair) → result ≡ Err (Refusal.Overflow pair) → RefusesPivot self.old.roles r c pair }
        ensures saved { self.new.saved ≡ self.old.saved }
        ensures room { self.old.room ≤ self.new.room }
        ensures err { OnErr result (self.new.roles ≡ self.old.roles) }
    {
        let rows = self.touched(c)?;
        let changes = eliminate(self.alloc, self.roles(), &rows, r, c)?;
        self.clear_list(r)?;
        self.write(changes)?;
        Ok(())
    }

    /// Makes the live column a dropped one: its entries stand among the dropped ones.
    pub fn drop_column(&mut self, c: Col) -> Result<(), AllocError>
        requires { is_live self.old.roles c ≡ true }
        ensures same { OnOk result (SameMeaning self.old.roles self.new.roles) }
        ensures kinds { OnOk result (ChangesKind self.old.roles c Dropped self.new.roles) }
        ensures flags { self.new.restricted ≡ self.old.restricted }
        ensures table { AreOverColumns self.new.roles }
        ensures saved { self.new.saved ≡ self.old.saved }
        ensures room { self.old.room ≤ self.new.room }
        ensures err { OnErr result (self.new.roles ≡ self.old.roles) }
    {
        let rows = self.touched(c)?;
        let changes = Turn::Dropping.changes(self.alloc, self.roles(), &rows, c)?;
        self.rewrite(changes)?;
        Ok(())
    }

    /// Makes the dropped column a live one again.
    pub fn restore_column(&mut self, c: Col) -> Result<(), AllocError>
        requires { has_dropped self.old.roles c ≡ true }
        ensures same { OnOk result (SameMeaning self.old.roles self.new.roles) }
        ensures kinds { OnOk result (ChangesKind self.old.roles c Live self.new.roles) }
        ensures flags { self.new.restricted ≡ self.old.restricted }
        ensures table { AreOverColumns self.new.roles }
        ensures saved { self.new.saved ≡ self.old.saved }
        ensures room { self.old.room ≤ self.new.room }
        ensures err { OnErr result (self.new.roles ≡ self.old.roles) }
    {
        let rows = self.touched(c)?;
        let changes = Turn::Restoring.changes(self.alloc, self.roles(), &rows, c)?;
        self.rewrite(changes)?;
        Ok(())
    }
}

impl Undo for Dict {
    ghost use Rattle.cq_dict.specs.Roles.{Quantities};
    ghost use Rattle.cq_dict.specs.DictValue.{quantities_of};

    ghost Value = { Quantities };

    ghost now = { quantities_of };

    ghost saved = { λ d. d.saved };

    ghost room = { λ d. d.room };

    fn mark(&mut self) -> Result<Mark, AllocError> {
        self.reserve(1)?;
        let m = self.roles.mark().unwrap();
        self.restricted.mark().unwrap();
        self.heads.mark().unwrap();
        self.cells.mark().unwrap();
        Ok(m)
    }

    fn undo(&mut self, m: Mark) {
        self.roles.undo(m);
        self.restricted.undo(m);
        self.heads.undo(m);
        self.cells.undo(m);
    }

    fn forget(&mut self, m: Mark) {
        self.roles.forget(m);
        self.restricted.forget(m);
        self.heads.forget(m);
        self.cells.forget(m);
    }

    fn reserve(&mut self, n: usize) -> Result<(), AllocError> {
        self.roles.reserve(n)?;
        self.restricted.reserve(n)?;
        self.heads.reserve(n)?;
        self.cells.reserve(n)?;
        Ok(())
    }

    fn spare(&self) -> usize {
        self.roles
            .spare()
            .min(self.restricted.spare())
            .min(self.heads.spare().min(self.cells.spare()))
    }
}
