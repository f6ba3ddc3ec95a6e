//! A second look at restricted quantities, where columns were dropped: each is above zero somewhere, or zero everywhere.

ghost use Rattle.std.specs.Prelude.{◌≡◌, ◌≤◌, ℕ, ◌<◌, length, true, IsTrue, IfOk, OnOk, MatchBool, MatchOption};
ghost use Rattle.cq_frac.specs.declared.Pair.{Pair};
ghost use Rattle.cq_dict.specs.Roles.{AreOverColumns, IsRow, is_live, is_restricted};
ghost use Rattle.cq_simplex.specs.declared.SimplexFault.TheVariants.{Overflow, Pivots};
ghost use Rattle.spec_linear.specs.declared.Relation.TheVariants.{Gt};
ghost use Rattle.cq_tableau.specs.Stored.{IsMemberOf};
ghost use Rattle.cq_tableau.specs.Looked.{SpeaksOfSome, LooksOn, Blocks, LeavesRoom, IsSeen, RefusesLook, SpendsLook, IsStrict, IsLooked};

use crate::dropping::drop_all;
use crate::names::Name;
use crate::refuting::relation_of;
use cq_dict::dict::{Col, Dict};
use cq_form::Constraint;
use cq_frac::row::entry_at;
use cq_simplex::climb::ascend;
use cq_simplex::{Aim, Max, SimplexFault};
use cq_trail::Stack;
use spec_linear::Relation;
use std::alloc::Global;

/// What is known of a restricted quantity.
#[derive(Clone, Copy)]
pub enum Seen {
    /// It is above zero somewhere.
    Rises,
    /// It is zero everywhere.
    Flat,
}

/// Whether the row has no constant above zero and falls along the column.
fn blocks(dict: &Dict, q: usize, c: Col) -> bool
    requires table { AreOverColumns dict.now.roles }
    requires there { q < length dict.now.roles }
    ensures { MatchBool result (Blocks dict.now.roles dict.now.restricted c q) (LeavesRoom dict.now.roles dict.now.restricted c q) }
{
    if !dict.is_row(q) {
        return false;
    }
    if !dict.is_restricted(q) {
        return false;
    }
    if dict.constant(q).is_positive() {
        return false;
    }
    match entry_at(dict.row(q), c) {
        Some(entry) => entry.is_negative(),
        None => false,
    }
}

/// The same of any number, of which there may be no quantity.
fn is_blocking(dict: &Dict, q: usize, c: Col) -> bool
    requires { AreOverColumns dict.now.roles }
    ensures { MatchBool result (Blocks dict.now.roles dict.now.restricted c q) (LeavesRoom dict.now.roles dict.now.restricted c q) }
{
    if q >= dict.count() {
        return false;
    }
    blocks(dict, q, c)
}

/// A restricted row that holds the column to zero. Only the rows on the column's list are looked at.
fn blocking_row(dict: &Dict, c: Col) -> Option<usize>
    requires table { AreOverColumns dict.now.roles }
    requires there { c < length dict.now.roles }
    ensures { MatchOption result ((q : ℕ) → LeavesRoom dict.now.roles dict.now.restricted c q) (λ q. Blocks dict.now.roles dict.now.restricted c q) }
{
    let lists = dict.lists();
    let mut list = lists.heads[c];
    while list > 0 {
        let cell = lists.cells[list - 1];
        if is_blocking(dict, cell.row, c) {
            return Some(cell.row);
        }
        list = cell.older;
    }
    None
}

/// Looks at a restricted row again: it is maximised, and where it stays zero the columns that hold it there are dropped.
fn look_at_row(dict: &mut Dict, alloc: Global, q: usize, pivots: u64) -> Result<Seen, SimplexFault>
    requires row { IsRow dict.old.roles q }
    requires flag { is_restricted dict.old.restricted q ≡ true }
    requires speaks { SpeaksOfSome dict.old.roles dict.old.restricted }
    ensures looks { OnOk result (LooksOn dict.old.roles dict.new.roles dict.old.restricted) }
    ensures seen { IfOk result (λ s. IsSeen dict.old.roles dict.new.roles dict.old.restricted q s) }
    ensures flags { dict.new.restricted ≡ dict.old.restricted }
    ensures saved { dict.new.saved ≡ dict.old.saved }
    ensures room { dict.old.room ≤ dict.new.room }
    ensures overflow { (pair : Pair) → result ≡ Err (Overflow pair) → RefusesLook dict.old.roles dict.old.restricted pair }
    ensures pivots { (n : ℕ) → result ≡ Err (Pivots n) → (n ≡ pivots) × SpendsLook dict.old.roles dict.old.restricted n }
{
    match ascend(dict, alloc, q, Aim::Positive, pivots)? {
        Max::Positive => Ok(Seen::Rises),
        Max::Unbounded(_) => Ok(Seen::Rises),
        Max::At(_, columns) => {
            drop_all(dict, &columns)?;
            Ok(Seen::Flat)
        }
    }
}

/// Looks at a restricted quantity again. A column that a row holds to zero is exchanged with it first.
fn look(dict: &mut Dict, alloc: Global, q: usize, pivots: u64) -> Result<Seen, SimplexFault>
    requires there { q < length dict.old.roles }
    requires flag { is_restricted dict.old.restricted q ≡ true }
    requires speaks { SpeaksOfSome dict.old.roles dict.old.restricted }
    ensures looks { OnOk result (LooksOn dict.old.roles dict.new.roles dict.old.restricted) }
    ensures seen { IfOk result (λ s. IsSeen dict.old.roles dict.new.roles dict.old.restricted q s) }
    ensures flags { dict.new.restricted ≡ dict.old.restricted }
    ensures saved { dict.new.saved ≡ dict.old.saved }
    ensures room { dict.old.room ≤ dict.new.room }
    ensures overflow { (pair : Pair) → result ≡ Err (Overflow pair) → RefusesLook dict.old.roles dict.old.restricted pair }
    ensures pivots { (n : ℕ) → result ≡ Err (Pivots n) → (n ≡ pivots) × SpendsLook dict.old.roles dict.old.restricted n }
{
    if dict.is_row(q) {
        return look_at_row(dict, alloc, q, pivots);
    }
    if dict.is_dropped(q) {
        return Ok(Seen::Flat);
    }
    match blocking_row(dict, q) {
        Some(r) => {
            dict.pivot(r, q)?;
            let seen = look_at_row(dict, alloc, q, pivots)?;
            Ok(seen)
        }
        None => Ok(Seen::Rises),
    }
}

fn is_above(relation: Relation) -> bool
    ensures { MatchBool result (relation ≡ Gt) (relation ≡ Gt → ⊥) }
{
    match relation {
        Relation::Gt => true,
        _ => false,
    }
}

/// Whether the quantity is that of a strict inequality.
fn is_strict(told: &[Constraint], names: &Stack<Name>, q: usize) -> bool
    ensures { MatchBool result (IsMemberOf IsStrict told.now names.now.now q) (IsMemberOf IsStrict told.now names.now.now q → ⊥) }
{
    match relation_of(told, names, q) {
        Some(relation) => is_above(relation),
        None => false,
    }
}

/// Looks at each restricted quantity again, and finds one that is zero everywhere though its constraint is strict.
pub fn look_again(
    alloc: Global,
    pivots: u64,
    told: &[Constraint],
    names: &Stack<Name>,
    dict: &mut Dict,
) -> Result<Option<usize>, SimplexFault>
    requires { SpeaksOfSome dict.old.roles dict.old.restricted }
    ensures looks { OnOk result (LooksOn dict.old.roles dict.new.roles dict.old.restricted) }
    ensures looked { IfOk result (λ o. IsLooked told.now names.now.now dict.old.roles dict.new.roles dict.old.restricted o) }
    ensures flags { dict.new.restricted ≡ dict.old.restricted }
    ensures saved { dict.new.saved ≡ dict.old.saved }
    ensures room { dict.old.room ≤ dict.new.room }
    ensures overflow { (pair : Pair) → result ≡ Err (Overflow pair) → RefusesLook dict.old.roles dict.old.restricted pair }
    ensures pivots { (n : ℕ) → result ≡ Err (Pivots n) → (n ≡ pivots) × SpendsLook dict.old.roles dict.old.restricted n }
{
    for q in 0..dict.count() {
        if dict.is_restricted(q) {
            match look(dict, alloc, q, pivots)? {
                Seen::Rises => {}
                Seen::Flat => {
                    if is_strict(told, names, q) {
                        return Ok(Some(q));
                    }
                }
            }
        }
    }
    Ok(None)
}
