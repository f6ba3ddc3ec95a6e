//! The table of a store: a dictionary whose quantities have names.

ghost use Rattle.std.specs.Prelude.{◌≡◌, ◌↔◌, ◌<◌, ◌≤◌, ◌⊎◌, ℕ, List, [], ◌∷◌, ◌++◌, length, take, true, IfOk, OnOk, OnErr, MatchOption, IsTrue, slice_get, Some, is_some};
ghost use Rattle.spec_linear.specs.Solution.{Has};
ghost use Rattle.spec_numbers.specs.Sums.{Mentions};
ghost use Rattle.spec_linear.specs.Echelon.{AreDistinct};
ghost use Rattle.cq_frac.specs.declared.Pair.{Pair};
ghost use Rattle.cq_frac.specs.Row.{Row};
ghost use Rattle.cq_dict.specs.declared.table.Role.TheVariants.{Live, Basic};
ghost use Rattle.cq_dict.specs.Roles.{IsAt, IsRow, AreOverColumns, HasEntry, IsEliminated};
ghost use Rattle.cq_dict.specs.Dict.{SameMeaning, RefusesPivot};
ghost use Rattle.cq_equations.specs.declared.table.Name.{Name};
ghost use Rattle.cq_equations.specs.declared.table.Name.TheVariants.{Variable, Member};
ghost use Rattle.cq_equations.specs.Numbered.{numbers_from};

use cq_dict::dict::Dict;
use cq_form::Form;
use cq_frac::row::Entry;
use cq_frac::{Frac, Refusal, VarId};
use cq_trail::{Mark, Undo};
use indexmap::IndexMap;
use std::alloc::{AllocError, Global};
use std::marker::Model;

/// What a quantity stands for: a variable, or the form of a told constraint, these in the order of telling.
#[derive(Clone, Copy)]
pub enum Name {
    Variable(VarId),
    Member,
}

/// The form of a variable that is solved for: a constant, and products of free variables in the store's order.
#[derive(Drop)]
pub struct SolvedRow<'a> {
    constant: Frac,
    entries: &'a [Entry],
    names: &'a [Name],
}

impl<'a> Model for SolvedRow<'a> {
    ghost use Rattle.spec_linear.specs.Form.{Linear};
    ghost use Rattle.cq_form.specs.Entries.{linear_code};
    ghost use Rattle.cq_equations.specs.Contents.{products_of};
    ghost use Rattle.cq_equations.specs.Numbered.{AreOfVariables};

    ghost Value = { Linear };

    ghost coded = { linear_code };

    ghost view = { λ s. record { products = products_of s.names.now s.entries.now; constant = s.constant } };

    ghost invariant = { λ s. AreOfVariables s.names.now s.entries.now };
}

impl SolvedRow<'_> {
    /// The value where the free variables are zero.
    pub fn constant(&self) -> Frac
        ensures { result ≡ self.now.constant }
    {
        self.constant
    }

    /// How many products there are.
    pub fn len(&self) -> usize
        ensures { result ≡ length self.now.products }
    {
        self.entries.len()
    }

    /// Whether the form is a constant.
    pub fn is_empty(&self) -> bool
        ensures { IsTrue result ↔ (self.now.products ≡ []) }
    {
        self.entries.is_empty()
    }

    /// The product at a place: a free variable, and its factor.
    pub fn get(&self, i: usize) -> (VarId, Frac)
        requires { i < length self.now.products }
        ensures { slice_get self.now.products i ≡ Some (record { variable = result.0.0; factor = result.1 }) }
    {
        let entries = self.entries;
        let entry = entries[i];
        let name = self.names[entry.quantity];
        match name {
            Name::Variable(x) => (x, entry.factor),
            Name::Member => unreachable!(),
        }
    }
}

/// A dictionary whose quantities have names.
#[derive(Drop)]
pub struct Table {
    dict: Dict,
    names: Vec<Name>,
    // the number of each variable, in the order of making
    numbers: IndexMap<VarId, usize>,
}

impl Model for Table {
    ghost use Rattle.std.specs.Prelude.{map};
    ghost use Rattle.cq_equations.specs.Marked.{TableValue, named_at};
    ghost use Rattle.cq_equations.specs.Numbered.{IsNumbered};

    ghost Value = { TableValue };

    ghost view = { λ t. record {
      now = record { names = t.names.items; roles = t.dict.roles };
      saved = map (named_at t.names.items) t.dict.saved;
      room = t.dict.room;
    } };

    ghost invariant = { λ t. IsNumbered (record { names = t.names.items; roles = t.dict.roles }) t.numbers.entries t.dict.saved };
}

impl Table {
    ghost use Rattle.cq_equations.specs.Contents.{Named, AreNamed, variables_of, place_of, IsNumberOf, solved_in, number_in};
    ghost use Rattle.cq_equations.specs.Describes.{placed};
    ghost use Rattle.cq_equations.specs.Entering.{AddsMember, RefusesMember};
    ghost use Rattle.cq_equations.specs.Told.{numbers_of};

    /// A table without quantities. It takes no memory.
    pub fn new(alloc: Global) -> Table
        ensures now { result.now ≡ record { names = []; roles = [] } }
        ensures saved { result.saved ≡ [] }
    {
        Table {
            dict: Dict::new(alloc),
            names: Vec::new(alloc),
            numbers: IndexMap::new(alloc),
        }
    }

    /// The number of quantities.
    pub fn count(&self) -> usize
        ensures count { result ≡ length self.now.now.roles }
        ensures named { AreNamed self.now.now }
    {
        self.names.len()
    }

    /// The variables, in the order of making.
    pub fn order(&self) -> &[VarId]
        ensures { numbers_of result.now ≡ variables_of self.now.now.names }
    {
        self.numbers.keys().as_slice()
    }

    /// The number of a variable.
    pub fn number(&self, x: VarId) -> Option<usize>
        ensures { MatchOption result (Has x.0 (variables_of self.now.now.names) → ⊥) (IsNumberOf self.now.now.names x.0) }
    {
        self.numbers.get(&x).copied()
    }

    /// The form of the variable, if it is solved for.
    pub fn solved_row(&self, x: VarId) -> Option<SolvedRow<'_>>
        ensures { result ≡ solved_in self.now.now x.0 }
    {
        let Table { dict, names, .. } = self;
        let q = self.number(x)?;
        if !dict.is_row(q) {
            return None;
        }
        Some(SolvedRow {
            constant: dict.constant(q),
            entries: dict.row(q),
            names,
        })
    }

    /// The number that the variable is, if its form is one.
    pub fn value(&self, x: VarId) -> Option<Frac>
        ensures { result ≡ number_in (solved_in self.now.now x.0) }
    {
        let row = self.solved_row(x)?;
        if row.is_empty() {
            Some(row.constant())
        } else {
            None
        }
    }

    /// Whether the variable's form is a number.
    pub fn has_value(&self, x: VarId) -> bool
        ensures { result ≡ is_some (number_in (solved_in self.now.now x.0)) }
    {
        self.value(x).is_some()
    }

    /// Makes a column for a new variable.
    pub fn add_variable(&mut self, x: VarId) -> Result<(), AllocError>
        requires { Has x.0 (variables_of self.old.now.names) → ⊥ }
        ensures names { OnOk result (self.new.now.names ≡ self.old.now.names ++ Variable x ∷ []) }
        ensures roles { OnOk result (self.new.now.roles ≡ self.old.now.roles ++ Live ∷ []) }
        ensures saved { self.new.saved ≡ self.old.saved }
        ensures err { OnErr result (self.new.now ≡ self.old.now) }
    {
        self.names.reserve(1)?;
        self.numbers.reserve(1)?;
        let number = self.dict.add_column(false)?;
        // There is room for both.
        self.names.push(Name::Variable(x)).unwrap();
        self.numbers.insert(x, number).unwrap();
        Ok(())
    }

    /// The form over the quantities.
    fn placed(&self, form: &Form) -> Result<Vec<Entry>, AllocError>
        requires { (x : ℕ) → Mentions x form.now.products → Has x (variables_of self.now.now.names) }
        ensures { IfOk result (λ s. s.items ≡ placed (place_of self.now.now.names) form.now.products) }
    {
        let mut entries = Vec::new(*self.names.allocator());
        for entry in form.entries() {
            let Some(quantity) = self.number(VarId(entry.quantity)) else {
                unreachable!()
            };
            entries.push(Entry {
                quantity,
                factor: entry.factor,
            })?;
        }
        Ok(entries)
    }

    /// Makes a row for the form of a constraint.
    pub fn add_member(&mut self, form: &Form) -> Result<(), Refusal>
        requires { (x : ℕ) → Mentions x form.now.products → Has x (variables_of self.old.now.names) }
        ensures added { OnOk result (AddsMember self.old.now form.now self.new.now) }
        ensures overflow { (pair : Pair) → result ≡ Err (Refusal.Overflow pair) → RefusesMember self.old.now form.now pair }
        ensures saved { self.new.saved ≡ self.old.saved }
        ensures err { OnErr result (self.new.now ≡ self.old.now) }
    {
        let entries = self.placed(form)?;
        self.names.reserve(1)?;
        self.dict.add_row(&entries, form.constant(), false)?;
        // There is room for it.
        self.names.push(Name::Member).unwrap();
        Ok(())
    }

    /// The row's constant, and its first live entry.
    pub fn lead(&self, r: usize) -> (Frac, Option<Entry>)
        requires { IsRow self.now.now.roles r }
        ensures { (own : Row) → IsAt self.now.now.roles r (Basic own) → (result.0 ≡ own.constant) × (result.1 ≡ slice_get own.live 0) }
    {
        let first = self.dict.row(r).first().copied();
        (self.dict.constant(r), first)
    }

    /// Exchanges the row and the live column, in which the row has an entry, and drops the row's quantity.
    pub fn eliminate(&mut self, r: usize, c: usize) -> Result<(), Refusal>
        requires { HasEntry self.old.now.roles r c }
        ensures names { self.new.now.names ≡ self.old.now.names }
        ensures same { OnOk result (SameMeaning self.old.now.roles self.new.now.roles) }
        ensures kinds { OnOk result (IsEliminated self.old.now.roles r c self.new.now.roles) }
        ensures table { AreOverColumns self.new.now.roles }
        ensures overflow { (pair : Pair) → result ≡ Err (Refusal.Overflow pair) → RefusesPivot self.old.now.roles r c pair }
        ensures saved { self.new.saved ≡ self.old.saved }
        ensures err { OnErr result (self.new.now ≡ self.old.now) }
    {
        self.dict.eliminate(r, c)?;
        Ok(())
    }
}

impl Undo for Table {
    ghost use Rattle.cq_equations.specs.Contents.{Named};

    ghost Value = { Named };

    ghost now = { λ t. t.now };

    ghost saved = { λ t. t.saved };

    ghost room = { λ t. t.room };

    fn mark(&mut self) -> Result<Mark, AllocError> {
        let m = self.dict.mark()?;
        Ok(m)
    }

    fn undo(&mut self, m: Mark) {
        self.dict.undo(m);
        // No name changes, so those of a mark are the first ones still.
        shorten(&mut self.names, &mut self.numbers, self.dict.count());
    }

    fn forget(&mut self, m: Mark) {
        self.dict.forget(m);
    }

    fn reserve(&mut self, n: usize) -> Result<(), AllocError> {
        self.dict.reserve(n)?;
        Ok(())
    }

    fn spare(&self) -> usize {
        self.dict.spare()
    }
}

/// Gives back the names from a number on, and with them the numbers of their variables.
fn shorten(names: &mut Vec<Name>, numbers: &mut IndexMap<VarId, usize>, count: usize)
    requires { numbers.old.entries ≡ numbers_from 0 names.old.items }
    ensures names { names.new.items ≡ take count names.old.items }
    ensures numbers { numbers.new.entries ≡ numbers_from 0 names.new.items }
{
    while names.len() > count {
        remove_last(names, numbers);
    }
}

fn remove_last(names: &mut Vec<Name>, numbers: &mut IndexMap<VarId, usize>)
    requires some { 0 < length names.old.items }
    requires numbers { numbers.old.entries ≡ numbers_from 0 names.old.items }
    ensures names { (last : Name) × (names.old.items ≡ names.new.items ++ last ∷ []) }
    ensures numbers { numbers.new.entries ≡ numbers_from 0 names.new.items }
{
    match names.pop() {
        Some(Name::Variable(_)) => {
            numbers.pop();
        }
        Some(Name::Member) => {}
        None => {}
    }
}
