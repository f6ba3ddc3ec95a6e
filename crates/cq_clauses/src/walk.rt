// The clauses of a call, of which the next is known.

ghost use Rattle.cq_clauses.specs.Walks.{HasNoneLeft};

use crate::clauses::ClauseNo;
use crate::key::Key;
use crate::procedures::Snapshot;

/// The clauses that a call has still to try. The next is known ahead, so that a call leaves no choice behind at its last.
#[derive(Clone, Copy)]
pub struct Walk {
    pub(crate) key: Option<Key>,
    pub(crate) ahead: Option<(ClauseNo, Snapshot)>,
}

impl Walk {
    /// Whether no clause is left.
    pub fn is_empty(&self) -> bool
        ensures { HasNoneLeft result self.now }
    {
        self.ahead.is_none()
    }
}
