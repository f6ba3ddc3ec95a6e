// Why an expression has no value.

ghost use Rattle.std.specs.Prelude.{◌≡◌};
ghost use Rattle.cq_goals.specs.declared.arith.faults.EvalFault.TheVariants.{NoMemory};

use cq_frac::{Frac, Pair};
use cq_term::atoms::Atom;
use std::alloc::AllocError;
use thiserror::Error;

/// What is wrong with an expression.
#[derive(Debug, Drop, Error)]
pub enum EvalError {
    #[error("a variable in an expression")]
    Instantiation,
    /// A name with so many arguments is no operation.
    #[error("not evaluable")]
    NotEvaluable(Atom, usize),
    /// The operation asks for a whole number.
    #[error("not an integer")]
    NotInteger(Frac),
    #[error("a division by zero")]
    ZeroDivisor,
}

/// Why an evaluation gives no number.
#[derive(Debug, Drop, Error)]
pub enum EvalFault {
    #[error("{0}")]
    Error(EvalError),
    /// The operation refuses these two numbers.
    #[error("a number past 128 bits")]
    Overflow(Pair),
    #[error("out of memory")]
    NoMemory,
}

impl From<AllocError> for EvalFault {
    ghost from_gives = { λ _ fault. fault ≡ NoMemory };

    fn from(_: AllocError) -> EvalFault {
        EvalFault::NoMemory
    }
}
