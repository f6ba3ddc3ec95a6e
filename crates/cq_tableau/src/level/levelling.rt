//! The simplex method towards zero: exchanges raise a row that is below zero, and lower one that is above, until it is zero, or a
//! column is found by which it passes zero. The first exchanges are those of the greatest gain, and the rule of the least numbers
//! goes on from there, which proves the end.

ghost use Rattle.std.specs.Prelude.{◌≡◌, ◌≤◌, ℕ, false, IfOk, OnErr};
ghost use Rattle.spec_simplex.specs.Dictionary.{IsFeasible};
ghost use Rattle.cq_frac.specs.declared.Pair.{Pair};
ghost use Rattle.cq_dict.specs.Roles.{IsRow, AreOverColumns, is_restricted};
ghost use Rattle.cq_simplex.specs.declared.SimplexFault.TheVariants.{Overflow, Pivots};
ghost use Rattle.cq_simplex.specs.Dictionary.{dictionary};
ghost use Rattle.cq_tableau.specs.Turned.{towards};
ghost use Rattle.cq_tableau.specs.Levelled.{IsOff, IsSloping, IsNext, IsNearing, IsPassed, IsGone, IsClimbed, IsLevelled, RefusesSome, RefusesLevel, SpendsLevel};

use crate::level::choosing::lightest_column;
use crate::level::nearing::nearest;
use cq_dict::dict::{Col, Dict};
use cq_frac::Frac;
use cq_simplex::SimplexFault;
use cq_simplex::leaving::leaving;
use cq_simplex::rising::entering;
use cq_trail::Undo;
use std::alloc::AllocError;

/// What became of a row that is to be zero.
#[derive(Clone, Copy)]
pub enum Levelled {
    /// It is zero.
    Level,
    /// It is not, and has values on both sides of zero: where it is zero this column may take its place.
    Crossing(Col),
    /// It has no value on the other side, nor zero, as its columns show.
    Short,
}

/// What is to be done next: nothing more, or an exchange of the row and the column.
#[derive(Clone, Copy)]
enum Step {
    Ends(Levelled),
    Exchange(usize, Col),
}

/// The restricted column of the least number along which the row falls.
fn falling(dict: &Dict, q: usize) -> Option<Col>
    requires table { AreOverColumns dict.now.roles }
    requires row { IsRow dict.now.roles q }
    ensures { IsSloping dict.now.roles dict.now.restricted q false result }
{
    for m in dict.row(q) {
        if m.factor.is_negative() && dict.is_restricted(m.quantity) {
            return Some(m.quantity);
        }
    }
    None
}

/// The restricted column of the least number along which the row rises, or falls.
fn sloping(dict: &Dict, q: usize, up: bool) -> Option<Col>
    requires table { AreOverColumns dict.now.roles }
    requires row { IsRow dict.now.roles q }
    ensures { IsSloping dict.now.roles dict.now.restricted q up result }
{
    if up {
        return entering(dict, q);
    }
    falling(dict, q)
}

/// What is to be done next for the row, which is to rise, or to fall.
fn next_step(dict: &Dict, q: usize, up: bool) -> Result<Step, SimplexFault>
    requires table { AreOverColumns dict.now.roles }
    requires row { IsRow dict.now.roles q }
    requires free { is_restricted dict.now.restricted q ≡ false }
    ensures next { IfOk result (λ n. IsNext dict.now.roles dict.now.restricted q up n) }
    ensures overflow { (pair : Pair) → result ≡ Err (Overflow pair) → RefusesSome dict.now.roles pair }
    ensures pivots { (n : ℕ) → result ≡ Err (Pivots n) → ⊥ }
{
    if let Some(free) = lightest_column(dict, q)? {
        return Ok(Step::Ends(Levelled::Crossing(free)));
    }
    let Some(column) = sloping(dict, q, up) else {
        return Ok(Step::Ends(Levelled::Short));
    };
    match leaving(dict, column)? {
        Some(row) => Ok(Step::Exchange(row, column)),
        None => Ok(Step::Ends(Levelled::Crossing(column))),
    }
}

/// Whether a number is past zero, for a row that rises or falls.
fn has_passed(number: Frac, up: bool) -> bool
    ensures { IsPassed up number result }
{
    if up {
        return number.is_positive();
    }
    number.is_negative()
}

/// Exchanges the row and the column. Where the asked row passes zero by it, this is undone, and the column crosses.
///
/// None where the asked row is off zero still.
fn exchange(
    dict: &mut Dict,
    q: usize,
    up: bool,
    row: usize,
    column: Col,
) -> Result<Option<Levelled>, SimplexFault>
    requires asked { IsRow dict.old.roles q }
    requires free { is_restricted dict.old.restricted q ≡ false }
    requires off { IsOff up dict.old.roles q }
    requires feasible { IsFeasible (is_restricted dict.old.restricted) (dictionary (towards up dict.old.roles q) q) }
    requires table { AreOverColumns dict.old.roles }
    requires nearing { IsNearing dict.old.roles dict.old.restricted q up row column }
    ensures gone { IfOk result (λ o. IsGone q up dict.old.roles dict.old.restricted row column dict.new.roles o) }
    ensures err { OnErr result (dict.new.roles ≡ dict.old.roles) }
    ensures flags { dict.new.restricted ≡ dict.old.restricted }
    ensures saved { dict.new.saved ≡ dict.old.saved }
    ensures room { dict.old.room ≤ dict.new.room }
    ensures overflow { (pair : Pair) → result ≡ Err (Overflow pair) → RefusesSome dict.old.roles pair }
    ensures pivots { (n : ℕ) → result ≡ Err (Pivots n) → ⊥ }
{
    let start = dict.mark()?;
    match dict.pivot(row, column) {
        Ok(()) => {}
        Err(refusal) => {
            dict.undo(start);
            return Err(SimplexFault::from(refusal));
        }
    }
    if has_passed(dict.constant(q), up) {
        dict.undo(start);
        return Ok(Some(Levelled::Crossing(column)));
    }
    dict.forget(start);
    if dict.constant(q).is_zero() {
        return Ok(Some(Levelled::Level));
    }
    Ok(None)
}

/// Brings a row that is off zero nearer to it, each time by the greatest gain (Dantzig 1963), with so many exchanges at most.
///
/// None where it is off zero still. An exchange whose numbers are refused is not made, and ends the climb.
fn climb(
    dict: &mut Dict,
    q: usize,
    up: bool,
    exchanges: u64,
) -> Result<Option<Levelled>, AllocError>
    requires row { IsRow dict.old.roles q }
    requires free { is_restricted dict.old.restricted q ≡ false }
    requires off { IsOff up dict.old.roles q }
    requires feasible { IsFeasible (is_restricted dict.old.restricted) (dictionary dict.old.roles q) }
    requires table { AreOverColumns dict.old.roles }
    ensures climbed { IfOk result (λ o. IsClimbed q up dict.old.roles dict.old.restricted dict.new.roles o) }
    ensures flags { dict.new.restricted ≡ dict.old.restricted }
    ensures saved { dict.new.saved ≡ dict.old.saved }
    ensures room { dict.old.room ≤ dict.new.room }
{
    for _ in 0..exchanges {
        let Some(rise) = nearest(dict, q, up) else {
            return Ok(None);
        };
        match exchange(dict, q, up, rise.leaving, rise.entering) {
            Ok(Some(levelled)) => return Ok(Some(levelled)),
            Ok(None) => {}
            Err(SimplexFault::NoMemory) => return Err(AllocError),
            Err(_) => return Ok(None),
        }
    }
    Ok(None)
}

/// Brings a row that is off zero towards it, with `pivots` exchanges at most.
fn approach(dict: &mut Dict, q: usize, up: bool, pivots: u64) -> Result<Levelled, SimplexFault>
    requires row { IsRow dict.old.roles q }
    requires free { is_restricted dict.old.restricted q ≡ false }
    requires off { IsOff up dict.old.roles q }
    requires feasible { IsFeasible (is_restricted dict.old.restricted) (dictionary dict.old.roles q) }
    requires table { AreOverColumns dict.old.roles }
    ensures levelled { IfOk result (λ l. IsLevelled q dict.old.roles dict.old.restricted dict.new.roles l) }
    ensures flags { dict.new.restricted ≡ dict.old.restricted }
    ensures saved { dict.new.saved ≡ dict.old.saved }
    ensures room { dict.old.room ≤ dict.new.room }
    ensures overflow { (pair : Pair) → result ≡ Err (Overflow pair) → RefusesLevel q dict.old.roles dict.old.restricted pair }
    ensures pivots { (n : ℕ) → result ≡ Err (Pivots n) → (n ≡ pivots) × SpendsLevel q dict.old.roles dict.old.restricted n }
{
    for _ in 0..pivots {
        match next_step(dict, q, up)? {
            Step::Ends(levelled) => return Ok(levelled),
            Step::Exchange(row, column) => {
                if let Some(levelled) = exchange(dict, q, up, row, column)? {
                    return Ok(levelled);
                }
            }
        }
    }
    match next_step(dict, q, up)? {
        Step::Ends(levelled) => Ok(levelled),
        Step::Exchange(_, _) => Err(SimplexFault::Pivots(pivots)),
    }
}

/// Brings the row to zero, or to where it can cross zero: by a climb of `pivots` exchanges at most, and then by as many of the rule.
///
/// After a fault the exchanges that were made stay: the caller undoes them.
pub fn level(dict: &mut Dict, q: usize, pivots: u64) -> Result<Levelled, SimplexFault>
    requires row { IsRow dict.old.roles q }
    requires free { is_restricted dict.old.restricted q ≡ false }
    requires feasible { IsFeasible (is_restricted dict.old.restricted) (dictionary dict.old.roles q) }
    ensures levelled { IfOk result (λ l. IsLevelled q dict.old.roles dict.old.restricted dict.new.roles l) }
    ensures flags { dict.new.restricted ≡ dict.old.restricted }
    ensures saved { dict.new.saved ≡ dict.old.saved }
    ensures room { dict.old.room ≤ dict.new.room }
    ensures overflow { (pair : Pair) → result ≡ Err (Overflow pair) → RefusesLevel q dict.old.roles dict.old.restricted pair }
    ensures pivots { (n : ℕ) → result ≡ Err (Pivots n) → (n ≡ pivots) × SpendsLevel q dict.old.roles dict.old.restricted n }
{
    // the count's contract is what tells that the roles are a table
    prove!(q < dict.count());
    let number = dict.constant(q);
    if number.is_zero() {
        return Ok(Levelled::Level);
    }
    let up = number.is_negative();
    if let Some(levelled) = climb(dict, q, up, pivots)? {
        return Ok(levelled);
    }
    let found = approach(dict, q, up, pivots)?;
    Ok(found)
}
