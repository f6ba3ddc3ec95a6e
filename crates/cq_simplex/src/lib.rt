//! The greatest value of a row of a dictionary, where restricted quantities are not below zero: the simplex method of
//! Dantzig (1947) with Bland's rule (1977), by which it ends.
//!
//! A dictionary says of each row what it is over the columns: `z = c + a1*x1 + .. + an*xn`. Where every column is zero a row has its constant for
//! its value, and the dictionary is feasible where no restricted row is below zero there. The signs of the entries tell what is next:
//!
//! - an entry at a column that is not restricted: `z` rises without end, one way or the other along that column;
//! - no restricted column with an entry above zero: `c` is the greatest value, and the entries are the multipliers that prove it;
//! - else such a column enters. It rises until the first restricted row that falls by it is zero (the ratio test, `leaving`), and this row and
//!   the column are exchanged: the same solutions, seen from a point where `z` is at least as great. Where no row falls, `z` rises without end.
//!
//! An exchange may leave `z` where it is, and a choice at will could come round to the same dictionary for ever. Where of the columns the least
//! number enters, and of the rows that are zero first the least number leaves, no dictionary comes twice (Bland 1977), and there are finitely many.
//! That rule is slow, so a climb by the greatest gain comes first (`climb`); it promises nothing, and the rule goes on from where it ends.
//!
//! Numbers are exact. An exchange with a number past 128 bits is refused with the pair of numbers that made it, and the dictionary stays the last that
//! was reached.
#![tactic(auto)]

pub mod climb;
pub mod leaving;
pub mod rising;
mod turn;

ghost use Rattle.std.specs.Prelude.{◌≡◌, ℕ, ◌≤◌, ◌^◌, length, IfOk};
ghost use Rattle.spec_simplex.specs.Dictionary.{IsFeasible};
ghost use Rattle.cq_frac.specs.declared.Pair.{Pair};
ghost use Rattle.cq_dict.specs.Roles.{IsRow, is_restricted};
ghost use Rattle.cq_simplex.specs.declared.SimplexFault.TheVariants.{Overflow, Pivots, NoMemory};
ghost use Rattle.cq_simplex.specs.Dictionary.{dictionary};
ghost use Rattle.cq_simplex.specs.Answers.{IsAnswer, IsWithin, AreSpent, IsOverflow, IsFaultOf};

use crate::turn::{Turn, next_turn};
use cq_dict::dict::{Col, Dict};
use cq_frac::row::Entry;
use cq_frac::{Frac, Pair, Refusal};
use std::alloc::{AllocError, Global};
use thiserror::Error;

/// What is wanted of a row: its greatest value, or no more than a value above zero.
#[derive(Clone, Copy)]
pub enum Aim {
    Best,
    Positive,
}

/// What is known of a row's greatest value.
#[derive(Drop)]
pub enum Max {
    /// The greatest value, and the columns that hold the row to it, each with its multiplier.
    At(Frac, Vec<Entry>),
    /// A value above zero is reached, and was the aim.
    Positive,
    /// There is none: the row rises without end along the column.
    Unbounded(Col),
}

/// Why no greatest value is found.
#[derive(Clone, Copy, Debug, Error)]
pub enum SimplexFault {
    #[error("a number past 128 bits")]
    Overflow(Pair),
    #[error("{0} pivots and no end")]
    Pivots(u64),
    #[error("out of memory")]
    NoMemory,
}

impl From<AllocError> for SimplexFault {
    ghost from_gives = { λ _ fault. fault ≡ NoMemory };

    fn from(_: AllocError) -> SimplexFault {
        SimplexFault::NoMemory
    }
}

impl From<Refusal> for SimplexFault {
    ghost from_gives = { IsFaultOf };

    fn from(refusal: Refusal) -> SimplexFault {
        match refusal {
            Refusal::Overflow(pair) => SimplexFault::Overflow(pair),
            Refusal::NoMemory => SimplexFault::NoMemory,
        }
    }
}

impl From<Pair> for SimplexFault {
    ghost from_gives = { λ pair fault. fault ≡ Overflow pair };

    fn from(pair: Pair) -> SimplexFault {
        SimplexFault::Overflow(pair)
    }
}

/// Maximises a row of a feasible dictionary over the solutions of its rows in which dropped columns are zero and restricted
/// quantities are not below zero.
///
/// Makes `budget` exchanges at most. Of the restricted columns that raise the row the least-numbered enters; of the
/// restricted rows that limit it first the least-numbered leaves (Bland 1977). Whatever the answer, also a fault, the
/// dictionary is the last that was reached: it has the solutions that it had, and is feasible.
pub fn maximise(
    dict: &mut Dict,
    alloc: Global,
    row: usize,
    aim: Aim,
    budget: u64,
) -> Result<Max, SimplexFault>
    requires row { IsRow dict.old.roles row }
    requires feasible { IsFeasible (is_restricted dict.old.restricted) (dictionary dict.old.roles row) }
    ensures answer { IfOk result (λ max. IsAnswer dict.old.roles dict.old.restricted row aim dict.new.roles max) }
    ensures dictionary { IsWithin dict.old.roles dict.old.restricted row budget dict.new.roles }
    ensures flags { dict.new.restricted ≡ dict.old.restricted }
    ensures saved { dict.new.saved ≡ dict.old.saved }
    ensures room { dict.old.room ≤ dict.new.room }

    ensures overflow { (pair : Pair) → result ≡ Err (Overflow pair) → IsOverflow dict.old.restricted row dict.new.roles pair }
    ensures pivots { (n : ℕ) → result ≡ Err (Pivots n) → (n ≡ budget) × AreSpent dict.old.roles dict.old.restricted row aim budget dict.new.roles }
    ensures enough { 2 ^ length dict.old.roles ≤ budget → (n : ℕ) → result ≡ Err (Pivots n) → ⊥ }
{
    // the count's contract is also what tells that the roles are a table
    prove!(row < dict.count());
    for _ in 0..budget {
        match next_turn(dict, alloc, row, aim)? {
            Turn::Ends(max) => return Ok(max),
            Turn::Exchange(leaving, entering) => {
                dict.pivot(leaving, entering)?;
            }
        }
    }
    match next_turn(dict, alloc, row, aim)? {
        Turn::Ends(max) => Ok(max),
        Turn::Exchange(_, _) => Err(SimplexFault::Pivots(budget)),
    }
}
