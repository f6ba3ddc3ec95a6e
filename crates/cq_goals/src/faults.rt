// Why a goal has no answer.

use cq_built::BuiltinError;
use cq_frac::Pair;
use thiserror::Error;

/// Why a goal of arithmetic has no answer.
#[derive(Clone, Copy, Debug, Error)]
pub enum GoalFault {
    #[error("an error of a goal")]
    Error(BuiltinError),
    /// The operation refuses these two numbers.
    #[error("a number past 128 bits")]
    Overflow(Pair),
    #[error("out of memory")]
    NoMemory,
}
