// Why a goal goes on in no branch.

ghost use Rattle.std.specs.Prelude.{◌≡◌};
ghost use Rattle.cq_goals.specs.declared.faults.GoalFault.TheVariants.{NoMemory};
ghost use Rattle.cq_relations.specs.declared.faults.RelationFault.TheVariants.{Goal};

use cq_goals::GoalFault;
use cq_store::store::StoreFault;
use std::alloc::AllocError;
use thiserror::Error;

/// Why a goal of arithmetic or of constraints goes on in no branch.
#[derive(Clone, Copy, Debug, Error)]
pub enum RelationFault {
    /// The goal has an error, its arithmetic refuses two numbers, or memory is wanting.
    #[error("a goal that is refused")]
    Goal(GoalFault),
    /// Its child is not settled.
    #[error("a branch that is not settled")]
    Settling(StoreFault),
}

impl From<AllocError> for RelationFault {
    ghost from_gives = { λ _ fault. fault ≡ Goal NoMemory };

    fn from(_: AllocError) -> RelationFault {
        RelationFault::Goal(GoalFault::NoMemory)
    }
}
