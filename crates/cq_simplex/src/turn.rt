//! What is to be done in one dictionary: an answer is there, or an exchange is due.

ghost use Rattle.std.specs.Prelude.{◌≡◌, ℕ, IfOk, MatchBool};
ghost use Rattle.spec_numbers.specs.Rational.{IsPositive};
ghost use Rattle.cq_frac.specs.declared.Pair.{Pair};
ghost use Rattle.cq_dict.specs.Roles.{IsRow, AreOverColumns};
ghost use Rattle.cq_simplex.specs.declared.Aim.TheVariants.{Positive};
ghost use Rattle.cq_simplex.specs.declared.SimplexFault.TheVariants.{Overflow, Pivots};
ghost use Rattle.cq_simplex.specs.Answers.{IsOverflow, IsShort};
ghost use Rattle.cq_simplex.specs.Turns.{IsTurn};

use crate::leaving::leaving;
use crate::rising::{entering, free_column};
use crate::{Aim, Max, SimplexFault};
use cq_dict::dict::{Col, Dict};
use cq_frac::Frac;
use cq_frac::row::opposed;
use std::alloc::Global;

impl Aim {
    /// Whether a value is enough, before it is the greatest.
    fn is_reached(self, value: Frac) -> bool
        ensures { MatchBool result ((self ≡ Positive) × IsPositive value) (IsShort self value) }
    {
        match self {
            Aim::Best => false,
            Aim::Positive => value.is_positive(),
        }
    }
}

/// An answer, or the row that leaves and the column that enters.
#[derive(Drop)]
pub enum Turn {
    Ends(Max),
    Exchange(usize, Col),
}

/// What the dictionary says of the row.
pub fn next_turn(dict: &Dict, alloc: Global, row: usize, aim: Aim) -> Result<Turn, SimplexFault>
    requires table { AreOverColumns dict.now.roles }
    requires row { IsRow dict.now.roles row }
    ensures turn { IfOk result (λ next. IsTurn dict.now.roles dict.now.restricted row aim next) }
    ensures overflow { (pair : Pair) → result ≡ Err (Overflow pair) → IsOverflow dict.now.restricted row dict.now.roles pair }
    ensures pivots { (n : ℕ) → result ≡ Err (Pivots n) → ⊥ }
{
    let value = dict.constant(row);
    if aim.is_reached(value) {
        return Ok(Turn::Ends(Max::Positive));
    }
    if let Some(column) = free_column(dict, row) {
        return Ok(Turn::Ends(Max::Unbounded(column)));
    }
    let Some(column) = entering(dict, row) else {
        let multipliers = opposed(alloc, dict.row(row))?;
        return Ok(Turn::Ends(Max::At(value, multipliers)));
    };
    match leaving(dict, column)? {
        Some(row) => Ok(Turn::Exchange(row, column)),
        None => Ok(Turn::Ends(Max::Unbounded(column))),
    }
}
