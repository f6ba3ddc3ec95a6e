//! A climb before the search by the rule of the least numbers: exchanges by the greatest gain (Dantzig 1963), and where no column
//! raises the asked row at once by the first that raises it, which is the rule's. The search goes on from where the climb ends, and
//! its rule proves the end.
#![tactic(auto)]

ghost use Rattle.std.specs.Prelude.{◌≡◌, ◌≤◌, ◌^◌, ℕ, length, true, IsTrue, IfSome, IfOk};
ghost use Rattle.spec_numbers.specs.Rational.{IsPositive, ◌*ℚ◌, ◌≤ℚ◌};
ghost use Rattle.spec_simplex.specs.Dictionary.{IsFeasible};
ghost use Rattle.spec_simplex.specs.Rule.{Raises, Limits, ratio};
ghost use Rattle.cq_frac.specs.declared.Pair.{Pair};
ghost use Rattle.cq_dict.specs.Roles.{IsRow, AreOverColumns, is_restricted, is_live, constant_at, factor_at};
ghost use Rattle.cq_simplex.specs.declared.Aim.TheVariants.{Positive};
ghost use Rattle.cq_simplex.specs.declared.SimplexFault.TheVariants.{Overflow, Pivots};
ghost use Rattle.cq_simplex.specs.Dictionary.{dictionary};
ghost use Rattle.cq_simplex.specs.Answers.{IsAnswer, IsOverflow};
ghost use Rattle.cq_simplex.specs.Climbs.{IsCarried, IsSpentAfter, IsHigher, IsRise};

use crate::leaving::leaving;
use crate::rising::free_column;
use crate::{Aim, Max, SimplexFault, maximise};
use cq_dict::dict::{Col, Dict};
use cq_frac::row::{Entry, entry_at};
use cq_frac::{Frac, Refusal, product, quotient};
use std::alloc::{AllocError, Global};
use std::cmp::Ordering;

/// An exchange by which the asked row rises, and by how much.
#[derive(Clone, Copy)]
pub struct Rise {
    pub leaving: usize,
    pub entering: Col,
    pub gain: Frac,
}

/// By how much a row rises in which a column has the factor, where it enters and the other row leaves; None where a number is
/// refused.
pub fn gain_of(dict: &Dict, factor: Frac, column: Col, limit: usize) -> Option<Frac>
    requires table { AreOverColumns dict.now.roles }
    requires limits { Limits (is_restricted dict.now.restricted) (dictionary dict.now.roles 0) column limit }
    ensures { IfSome result (λ g. g ≡ factor *ℚ ratio (dictionary dict.now.roles 0) column limit) }
{
    let entry = entry_at(dict.row(limit), column)?;
    let Ok(opposite) = quotient(dict.constant(limit), entry) else {
        return None;
    };
    let Ok(gain) = product(factor, opposite.neg()) else {
        return None;
    };
    Some(gain)
}

/// The exchange by which the column of an entry enters, and by how much the row rises by it.
fn rise_of(dict: &Dict, row: usize, entry: Entry) -> Option<Rise>
    requires table { AreOverColumns dict.now.roles }
    requires raises { Raises (is_restricted dict.now.restricted) (dictionary dict.now.roles row) entry.quantity }
    requires factor { factor_at dict.now.roles row entry.quantity ≡ entry.factor }
    ensures { IfSome result (IsRise dict.now.roles dict.now.restricted row) }
{
    let Ok(Some(limit)) = leaving(dict, entry.quantity) else {
        return None;
    };
    let gain = gain_of(dict, entry.factor, entry.quantity, limit)?;
    Some(Rise {
        leaving: limit,
        entering: entry.quantity,
        gain,
    })
}

/// The exchange that was found before, unless the row rises more by the next one.
pub fn higher(before: Option<Rise>, next: Rise) -> Rise
    ensures { IsHigher before next result }
{
    match before {
        Some(rise) => {
            match rise.gain.cmp(next.gain) {
                Ordering::Less => next,
                _ => rise,
            }
        }
        None => next,
    }
}

/// The exchange by which the row rises most, of those whose numbers are not refused; the first of several.
fn best_rise(dict: &Dict, row: usize) -> Option<Rise>
    requires table { AreOverColumns dict.now.roles }
    requires row { IsRow dict.now.roles row }
    ensures { IfSome result (IsRise dict.now.roles dict.now.restricted row) }
{
    let mut best: Option<Rise> = None;
    for m in dict.row(row) {
        if m.factor.is_positive() && dict.is_restricted(m.quantity) {
            if let Some(rise) = rise_of(dict, row, *m) {
                best = Some(higher(best, rise));
            }
        }
    }
    best
}

/// Whether the value is enough for the aim.
fn is_enough(aim: Aim, value: Frac) -> bool
    ensures { IsTrue result → (aim ≡ Positive) × IsPositive value }
{
    match aim {
        Aim::Best => false,
        Aim::Positive => value.is_positive(),
    }
}

/// Raises the row of a feasible dictionary by `exchanges` exchanges at most, until the aim is reached or no column raises it. An exchange
/// may leave it as high as it is: a climb that ended there would leave most of a degenerate problem to the rule of the least numbers.
///
/// An exchange whose numbers are refused is not made, and ends the climb. A row with an unrestricted column rises without end by
/// that, and stays where it is.
pub fn climb(dict: &mut Dict, row: usize, aim: Aim, exchanges: u64) -> Result<(), AllocError>
    requires row { IsRow dict.old.roles row }
    requires feasible { IsFeasible (is_restricted dict.old.restricted) (dictionary dict.old.roles row) }
    ensures carried { IsCarried dict.old.roles dict.old.restricted row dict.new.roles }
    ensures higher { constant_at dict.old.roles row ≤ℚ constant_at dict.new.roles row }
    ensures flags { dict.new.restricted ≡ dict.old.restricted }
    ensures saved { dict.new.saved ≡ dict.old.saved }
    ensures room { dict.old.room ≤ dict.new.room }
{
    // the count's contract is also what tells that the roles are a table
    prove!(row < dict.count());
    if free_column(dict, row).is_some() {
        return Ok(());
    }
    for _ in 0..exchanges {
        if is_enough(aim, dict.constant(row)) {
            return Ok(());
        }
        let Some(rise) = best_rise(dict, row) else {
            return Ok(());
        };
        match dict.pivot(rise.leaving, rise.entering) {
            Ok(()) => {}
            Err(Refusal::Overflow(_)) => return Ok(()),
            Err(Refusal::NoMemory) => return Err(AllocError),
        }
    }
    Ok(())
}

/// Maximises a row as `maximise` does, after a climb of as many exchanges at most.
pub fn ascend(
    dict: &mut Dict,
    alloc: Global,
    row: usize,
    aim: Aim,
    budget: u64,
) -> Result<Max, SimplexFault>
    requires row { IsRow dict.old.roles row }
    requires feasible { IsFeasible (is_restricted dict.old.restricted) (dictionary dict.old.roles row) }
    ensures answer { IfOk result (λ max. IsAnswer dict.old.roles dict.old.restricted row aim dict.new.roles max) }
    ensures carried { IsCarried dict.old.roles dict.old.restricted row dict.new.roles }
    ensures flags { dict.new.restricted ≡ dict.old.restricted }
    ensures saved { dict.new.saved ≡ dict.old.saved }
    ensures room { dict.old.room ≤ dict.new.room }

    ensures overflow { (pair : Pair) → result ≡ Err (Overflow pair) → IsOverflow dict.old.restricted row dict.new.roles pair }
    ensures pivots { (n : ℕ) → result ≡ Err (Pivots n) → (n ≡ budget) × IsSpentAfter dict.old.roles dict.old.restricted row aim budget dict.new.roles }
    ensures enough { 2 ^ length dict.old.roles ≤ budget → (n : ℕ) → result ≡ Err (Pivots n) → ⊥ }
{
    climb(dict, row, aim, budget)?;
    let max = maximise(dict, alloc, row, aim, budget)?;
    Ok(max)
}
