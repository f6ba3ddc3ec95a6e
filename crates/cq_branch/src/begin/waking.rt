// Goals that woke.

ghost use Rattle.std.specs.Prelude.{◌≡◌, ◌<◌, ◌++◌, length, IfOk};
ghost use Rattle.cq_control.specs.Items.{items_at};
ghost use Rattle.cq_branch.specs.Lists.{HasCells, KeepsLists};
ghost use Rattle.cq_branch.specs.Begun.{calls};

use cq_control::{Continuation, Continuations};
use cq_term::TermId;
use spec_engine::machine::Cell;
use std::alloc::AllocError;

/// Goals that woke go in front of a continuation, in order, each as `call` of it.
pub(crate) fn wake(
    lists: &mut Continuations<Cell>,
    mut goals: Vec<TermId>,
    rest: Continuation,
) -> Result<Continuation, AllocError>
    requires { rest < length lists.old.now }
    ensures cells { IfOk result (λ k. HasCells lists.new.now k (calls goals.items ++ items_at lists.old.now rest)) }
    ensures keeps { KeepsLists lists.old.now lists.new.now }
    ensures saved { lists.new.saved ≡ lists.old.saved }
{
    let mut first = rest;
    while let Some(goal) = goals.pop() {
        first = lists.before(Cell::Call(goal), first)?;
    }
    Ok(first)
}
