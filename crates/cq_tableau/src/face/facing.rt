//! The face where the form of a new inequality is zero, which is its greatest value there.

ghost use Rattle.std.specs.Prelude.{◌≡◌, ◌≤◌, ◌<◌, ℕ, length, IfOk, OnOk, MatchOption, MatchBool};
ghost use Rattle.std.specs.List.{Contains};
ghost use Rattle.spec_linear.specs.declared.Relation.TheVariants.{Ne};
ghost use Rattle.cq_frac.specs.declared.Pair.{Pair};
ghost use Rattle.cq_simplex.specs.declared.SimplexFault.TheVariants.{Overflow, Pivots};
ghost use Rattle.cq_tableau.specs.Looked.{IsApart};
ghost use Rattle.cq_tableau.specs.Stored.{IsMemberOf};
ghost use Rattle.cq_tableau.specs.Faced.{KeepsSome, IsFace, HoldsAtZero, AllApart, AllApartAmong, IsFallenApart, IsZeroNow, IsFaced, RefusesFace, SpendsFace};

use crate::dropping::drop_all;
use crate::looking::look_again;
use crate::names::Name;
use crate::refuting::relation_of;
use crate::values::fixed_number;
use cq_dict::dict::Dict;
use cq_form::Constraint;
use cq_frac::row::Entry;
use cq_simplex::SimplexFault;
use cq_trail::Stack;
use spec_linear::Relation;
use std::alloc::{AllocError, Global};

/// Restricts the quantity of the row, of which zero is the greatest value, and drops the columns that hold it there.
fn hold_at_zero(dict: &mut Dict, q: usize, columns: &[Entry]) -> Result<(), AllocError>
    requires keeps { KeepsSome dict.old.roles dict.old.restricted }
    requires face { IsFace dict.old.roles dict.old.restricted q columns.now }
    ensures holds { OnOk result (HoldsAtZero q dict.old.roles dict.old.restricted dict.new.roles dict.new.restricted) }
    ensures saved { dict.new.saved ≡ dict.old.saved }
    ensures room { dict.old.room ≤ dict.new.room }
{
    // the count's contract is what tells that the roles are a table
    prove!(q < dict.count());
    drop_all(dict, columns)?;
    dict.restrict(q)?;
    Ok(())
}

/// Whether the quantity is zero everywhere.
fn is_zero_now(dict: &Dict, n: usize) -> bool
    requires { n < length dict.now.roles }
    ensures { IsZeroNow dict.now.roles n result }
{
    match fixed_number(dict, n) {
        Some(number) => number.is_zero(),
        None => false,
    }
}

/// Whether the relation is that of a disequation.
fn is_apart(relation: Relation) -> bool
    ensures { MatchBool result (relation ≡ Ne) (relation ≡ Ne → ⊥) }
{
    match relation {
        Relation::Ne => true,
        _ => false,
    }
}

/// Whether the quantity is that of a disequation.
fn is_of_disequation(told: &[Constraint], names: &Stack<Name>, q: usize) -> bool
    ensures { MatchBool result (IsMemberOf IsApart told.now names.now.now q) (IsMemberOf IsApart told.now names.now.now q → ⊥) }
{
    match relation_of(told, names, q) {
        Some(relation) => is_apart(relation),
        None => false,
    }
}

/// A quantity that is zero everywhere, though it is that of a disequation.
pub fn fallen_disequation(told: &[Constraint], names: &Stack<Name>, dict: &Dict) -> Option<usize>
    ensures { MatchOption result (AllApart told.now names.now.now dict.now.roles) (IsFallenApart told.now names.now.now dict.now.roles) }
{
    for q in 0..dict.count() {
        if is_of_disequation(told, names, q) && is_zero_now(dict, q) {
            return Some(q);
        }
    }
    None
}

/// Such a quantity, of those of these numbers.
pub fn fallen_among(
    told: &[Constraint],
    names: &Stack<Name>,
    dict: &Dict,
    rows: &[usize],
) -> Option<usize>
    requires { (r : ℕ) → Contains rows.now r → r < length dict.now.roles }
    ensures { MatchOption result (AllApartAmong rows.now told.now names.now.now dict.now.roles) (IsFallenApart told.now names.now.now dict.now.roles) }
{
    for q in rows {
        if is_of_disequation(told, names, *q) && is_zero_now(dict, *q) {
            return Some(*q);
        }
    }
    None
}

/// Holds the quantity of the row to zero, its greatest value, and looks at the other members again. Finds the quantity of one
/// that can't hold there: a strict inequality or a disequation whose form is zero.
pub fn face(
    alloc: Global,
    pivots: u64,
    told: &[Constraint],
    names: &Stack<Name>,
    dict: &mut Dict,
    q: usize,
    columns: &[Entry],
) -> Result<Option<usize>, SimplexFault>
    requires keeps { KeepsSome dict.old.roles dict.old.restricted }
    requires face { IsFace dict.old.roles dict.old.restricted q columns.now }
    ensures holds { OnOk result (HoldsAtZero q dict.old.roles dict.old.restricted dict.new.roles dict.new.restricted) }
    ensures faced { IfOk result (λ o. IsFaced told.now names.now.now q dict.old.roles dict.old.restricted dict.new.roles dict.new.restricted o) }
    ensures saved { dict.new.saved ≡ dict.old.saved }
    ensures room { dict.old.room ≤ dict.new.room }
    ensures overflow { (pair : Pair) → result ≡ Err (Overflow pair) → RefusesFace q dict.old.roles dict.old.restricted pair }
    ensures pivots { (n : ℕ) → result ≡ Err (Pivots n) → (n ≡ pivots) × SpendsFace q dict.old.roles dict.old.restricted n }
{
    hold_at_zero(dict, q, columns)?;
    match look_again(alloc, pivots, told, names, dict)? {
        Some(fallen) => Ok(Some(fallen)),
        None => Ok(fallen_disequation(told, names, dict)),
    }
}
