// What a query tells.

use crate::Cause;
use cq_resolve::stored::StoredTerm;

/// What a query tells next.
#[derive(Drop)]
pub enum Event {
    /// An answer: the world of the engine's machine is the answer's branch.
    Answer,
    /// A text that is written; it is not empty.
    Output(Vec<u8>),
    /// No branch is left.
    Fail,
    /// A ball that nothing catches, as it is stored; no branch is left.
    Ball(StoredTerm),
    /// The query stops, and no branch is left.
    Stop(Cause),
}
