//! Entries of certificates where columns of inequalities were dropped: the columns are restored, and the row is raised to its
//! greatest value again. The dictionary stays as it is.

ghost use Rattle.std.specs.Prelude.{◌≡◌, ◌≤◌, ◌<◌, ℕ, true, false, length, IfOk, OnOk};
ghost use Rattle.spec_numbers.specs.Sums.{Mentions};
ghost use Rattle.cq_frac.specs.declared.Pair.{Pair};
ghost use Rattle.cq_frac.specs.Row.{Row};
ghost use Rattle.cq_dict.specs.declared.table.Role.TheVariants.{Basic};
ghost use Rattle.cq_dict.specs.DictValue.{quantities_of};
ghost use Rattle.cq_dict.specs.Roles.{AreOverColumns, IsAt, IsRow, is_dropped, is_restricted};
ghost use Rattle.cq_simplex.specs.declared.SimplexFault.TheVariants.{Overflow, Pivots};
ghost use Rattle.cq_tableau.specs.Numbered.{AreNumbered};
ghost use Rattle.cq_tableau.specs.Restored.{Restores, NoneBelow, HasGreatest, AreHighest, members_of, RefusesRaised, SpendsRaised, AsksGreatest, AreFormEntries, RefusesFormEntries, SpendsFormEntries};

use crate::names::Name;
use crate::placing::place_known;
use crate::refuting::add_members;
use cq_dict::dict::Dict;
use cq_form::Form;
use cq_frac::{Frac, VarId};
use cq_simplex::climb::ascend;
use cq_simplex::{Aim, Max, SimplexFault};
use cq_trail::{Stack, Undo};
use indexmap::IndexMap;
use std::alloc::{AllocError, Global};

/// Makes the quantity live again if it is a restricted column that was dropped.
fn restore_restricted(dict: &mut Dict, q: usize) -> Result<(), AllocError>
    requires table { AreOverColumns dict.old.roles }
    requires there { q < length dict.old.roles }
    ensures restored { OnOk result (Restores dict.old.restricted dict.old.roles dict.new.roles) }
    ensures own { OnOk result (is_dropped dict.new.roles q ≡ true → is_restricted dict.old.restricted q ≡ false) }
    ensures flags { dict.new.restricted ≡ dict.old.restricted }
    ensures saved { dict.new.saved ≡ dict.old.saved }
    ensures room { dict.old.room ≤ dict.new.room }
{
    if !dict.is_dropped(q) {
        return Ok(());
    }
    if !dict.is_restricted(q) {
        return Ok(());
    }
    dict.restore_column(q)?;
    Ok(())
}

/// Makes all restricted columns live again that were dropped.
fn restore_all(dict: &mut Dict) -> Result<(), AllocError>
    ensures restored { OnOk result (Restores dict.old.restricted dict.old.roles dict.new.roles) }
    ensures none { OnOk result (NoneBelow dict.old.restricted (length dict.old.roles) dict.new.roles) }
    ensures flags { dict.new.restricted ≡ dict.old.restricted }
    ensures saved { dict.new.saved ≡ dict.old.saved }
    ensures room { dict.old.room ≤ dict.new.room }
{
    for q in 0..dict.count() {
        restore_restricted(dict, q)?;
    }
    Ok(())
}

/// The columns of the row, each as its constraint's number with the negative of the column's factor.
fn members(
    alloc: Global,
    names: &Stack<Name>,
    dict: &Dict,
    q: usize,
) -> Result<Vec<(usize, Frac)>, AllocError>
    requires { IsRow dict.now.roles q }
    ensures { IfOk result (λ s. (own : Row) → IsAt dict.now.roles q (Basic own) → s.items ≡ members_of names.now.now own) }
{
    let mut found = Vec::new(alloc);
    add_members(&mut found, names, dict.row(q))?;
    add_members(&mut found, names, dict.dropped(q))?;
    Ok(found)
}

/// Restores what is restricted, raises the row to its greatest value, and reads off its columns.
fn highest(
    alloc: Global,
    pivots: u64,
    names: &Stack<Name>,
    dict: &mut Dict,
    q: usize,
) -> Result<Vec<(usize, Frac)>, SimplexFault>
    requires row { IsRow dict.old.roles q }
    requires greatest { HasGreatest dict.old.roles dict.old.restricted q }
    ensures entries { IfOk result (λ s. AreHighest names.now.now q dict.old.roles dict.old.restricted s.items) }
    ensures saved { dict.new.saved ≡ dict.old.saved }
    ensures room { dict.old.room ≤ dict.new.room }
    ensures overflow { (pair : Pair) → result ≡ Err (Overflow pair) → RefusesRaised q dict.old.roles dict.old.restricted pair }
    ensures pivots { (n : ℕ) → result ≡ Err (Pivots n) → (n ≡ pivots) × SpendsRaised q dict.old.roles dict.old.restricted n }
{
    restore_all(dict)?;
    match ascend(dict, alloc, q, Aim::Best, pivots)? {
        Max::At(_, _) => {
            let found = members(alloc, names, dict, q)?;
            Ok(found)
        }
        // The aim is the greatest value.
        Max::Positive => unreachable!(),
        // There is one.
        Max::Unbounded(_) => unreachable!(),
    }
}

/// The entries by which the row is held to its greatest value, none of them by a column of an inequality that is dropped.
pub fn row_entries(
    alloc: Global,
    pivots: u64,
    names: &Stack<Name>,
    dict: &mut Dict,
    q: usize,
) -> Result<Vec<(usize, Frac)>, SimplexFault>
    requires row { IsRow dict.old.roles q }
    requires greatest { HasGreatest dict.old.roles dict.old.restricted q }
    ensures entries { IfOk result (λ s. AreHighest names.now.now q dict.old.roles dict.old.restricted s.items) }
    ensures stays { quantities_of dict.new ≡ quantities_of dict.old }
    ensures saved { dict.new.saved ≡ dict.old.saved }
    ensures room { dict.old.room ≤ dict.new.room }
    ensures overflow { (pair : Pair) → result ≡ Err (Overflow pair) → RefusesRaised q dict.old.roles dict.old.restricted pair }
    ensures pivots { (n : ℕ) → result ≡ Err (Pivots n) → (n ≡ pivots) × SpendsRaised q dict.old.roles dict.old.restricted n }
{
    let start = dict.mark()?;
    let found = highest(alloc, pivots, names, dict, q);
    dict.undo(start);
    found
}

/// Makes the form a row, and the same for it.
fn asked_highest(
    alloc: Global,
    pivots: u64,
    numbers: &IndexMap<VarId, usize>,
    names: &Stack<Name>,
    dict: &mut Dict,
    form: &Form,
) -> Result<Vec<(usize, Frac)>, SimplexFault>
    requires numbered { AreNumbered names.now.now numbers.now.entries }
    requires greatest { AsksGreatest names.now.now (quantities_of dict.old) form.now }
    ensures entries { IfOk result (λ s. AreFormEntries names.now.now (quantities_of dict.old) form.now s.items) }
    ensures saved { dict.new.saved ≡ dict.old.saved }
    ensures room { dict.old.room ≤ dict.new.room }
    ensures overflow { (pair : Pair) → result ≡ Err (Overflow pair) → RefusesFormEntries names.now.now (quantities_of dict.old) form.now pair }
    ensures pivots { (n : ℕ) → result ≡ Err (Pivots n) → (n ≡ pivots) × SpendsFormEntries names.now.now (quantities_of dict.old) form.now n }
{
    let entries = place_known(alloc, numbers, names, form)?;
    let q = dict.add_row(&entries, form.constant(), false)?;
    let found = highest(alloc, pivots, names, dict, q)?;
    Ok(found)
}

/// The entries by which the form is held to its greatest value, none of them by a column of an inequality that is dropped.
pub fn form_entries(
    alloc: Global,
    pivots: u64,
    numbers: &IndexMap<VarId, usize>,
    names: &Stack<Name>,
    dict: &mut Dict,
    form: &Form,
) -> Result<Vec<(usize, Frac)>, SimplexFault>
    requires numbered { AreNumbered names.now.now numbers.now.entries }
    requires greatest { AsksGreatest names.now.now (quantities_of dict.old) form.now }
    ensures entries { IfOk result (λ s. AreFormEntries names.now.now (quantities_of dict.old) form.now s.items) }
    ensures stays { quantities_of dict.new ≡ quantities_of dict.old }
    ensures saved { dict.new.saved ≡ dict.old.saved }
    ensures room { dict.old.room ≤ dict.new.room }
    ensures overflow { (pair : Pair) → result ≡ Err (Overflow pair) → RefusesFormEntries names.now.now (quantities_of dict.old) form.now pair }
    ensures pivots { (n : ℕ) → result ≡ Err (Pivots n) → (n ≡ pivots) × SpendsFormEntries names.now.now (quantities_of dict.old) form.now n }
{
    let start = dict.mark()?;
    let found = asked_highest(alloc, pivots, numbers, names, dict, form);
    dict.undo(start);
    found
}
