//! A quantity that is to be at least zero: it is raised above zero, or its greatest value is found.

ghost use Rattle.std.specs.Prelude.{◌≡◌, ◌≤◌, ℕ, slice_set, true, IfOk, OnOk};
ghost use Rattle.spec_simplex.specs.Dictionary.{IsFeasible};
ghost use Rattle.cq_frac.specs.declared.Pair.{Pair};
ghost use Rattle.cq_simplex.specs.declared.SimplexFault.TheVariants.{Overflow, Pivots};
ghost use Rattle.cq_dict.specs.Roles.{IsRow, AreOverColumns, HasEntry, IsExchanged, is_restricted};
ghost use Rattle.cq_dict.specs.Dict.{SameMeaning, RefusesPivot};
ghost use Rattle.cq_simplex.specs.Dictionary.{dictionary};
ghost use Rattle.cq_tableau.specs.Raised.{IsRaised, HasNoFreeColumn, RefusesRaise, SpendsRaise};

use cq_dict::dict::{Col, Dict};
use cq_frac::Frac;
use cq_frac::row::Entry;
use cq_simplex::climb::ascend;
use cq_simplex::rising::free_column;
use cq_simplex::{Aim, Max, SimplexFault};
use std::alloc::Global;

/// What became of a quantity that is to be at least zero.
#[derive(Drop)]
pub enum Raised {
    /// It is above zero somewhere, and is restricted now.
    Rises,
    /// It is not: its greatest value, and the columns that hold it to that, each with its multiplier.
    Best(Frac, Vec<Entry>),
}

/// Exchanges the row and the column, and restricts the row's quantity, which is a column then.
fn swap(dict: &mut Dict, q: usize, c: Col) -> Result<(), SimplexFault>
    requires { HasEntry dict.old.roles q c }
    ensures same { OnOk result (SameMeaning dict.old.roles dict.new.roles) }
    ensures kinds { OnOk result (IsExchanged dict.old.roles q c dict.new.roles) }
    ensures table { OnOk result (AreOverColumns dict.new.roles) }
    ensures flags { OnOk result (dict.new.restricted ≡ slice_set dict.old.restricted q true) }
    ensures saved { dict.new.saved ≡ dict.old.saved }
    ensures room { dict.old.room ≤ dict.new.room }
    ensures overflow { (pair : Pair) → result ≡ Err (Overflow pair) → RefusesPivot dict.old.roles q c pair }
    ensures pivots { (n : ℕ) → result ≡ Err (Pivots n) → ⊥ }
{
    dict.pivot(q, c)?;
    dict.restrict(q)?;
    Ok(())
}

/// Restricts the quantity of a row if it is above zero somewhere, or finds its greatest value.
///
/// An unrestricted column of the row takes its place at once. Else the row climbs and is maximised until it is above zero, with
/// `pivots` exchanges at most of each.
pub fn raise(dict: &mut Dict, alloc: Global, q: usize, pivots: u64) -> Result<Raised, SimplexFault>
    requires row { IsRow dict.old.roles q }
    requires feasible { IsFeasible (is_restricted dict.old.restricted) (dictionary dict.old.roles q) }
    ensures raised { IfOk result (λ a. IsRaised q dict.old.roles dict.old.restricted dict.new.roles dict.new.restricted a) }
    ensures saved { dict.new.saved ≡ dict.old.saved }
    ensures room { dict.old.room ≤ dict.new.room }
    ensures overflow { (pair : Pair) → result ≡ Err (Overflow pair) → RefusesRaise q dict.old.roles dict.old.restricted pair }
    ensures pivots { (n : ℕ) → result ≡ Err (Pivots n) → (n ≡ pivots) × SpendsRaise q dict.old.roles dict.old.restricted n }
{
    // the count's contract is what tells that the roles are a table
    prove!(q < dict.count());
    match free_column(dict, q) {
        Some(c) => {
            swap(dict, q, c)?;
            Ok(Raised::Rises)
        }
        None => raise_restricted(dict, alloc, q, pivots),
    }
}

/// The same, of a row without an unrestricted column.
fn raise_restricted(
    dict: &mut Dict,
    alloc: Global,
    q: usize,
    pivots: u64,
) -> Result<Raised, SimplexFault>
    requires row { IsRow dict.old.roles q }
    requires columns { HasNoFreeColumn dict.old.roles dict.old.restricted q }
    requires feasible { IsFeasible (is_restricted dict.old.restricted) (dictionary dict.old.roles q) }
    ensures raised { IfOk result (λ a. IsRaised q dict.old.roles dict.old.restricted dict.new.roles dict.new.restricted a) }
    ensures saved { dict.new.saved ≡ dict.old.saved }
    ensures room { dict.old.room ≤ dict.new.room }
    ensures overflow { (pair : Pair) → result ≡ Err (Overflow pair) → RefusesRaise q dict.old.roles dict.old.restricted pair }
    ensures pivots { (n : ℕ) → result ≡ Err (Pivots n) → (n ≡ pivots) × SpendsRaise q dict.old.roles dict.old.restricted n }
{
    match ascend(dict, alloc, q, Aim::Positive, pivots)? {
        Max::Positive => {
            dict.restrict(q)?;
            Ok(Raised::Rises)
        }
        Max::Unbounded(c) => {
            if dict.constant(q).is_negative() {
                swap(dict, q, c)?;
                return Ok(Raised::Rises);
            }
            dict.restrict(q)?;
            Ok(Raised::Rises)
        }
        Max::At(value, multipliers) => Ok(Raised::Best(value, multipliers)),
    }
}
