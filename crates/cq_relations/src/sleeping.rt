// Goals that sleep until a variable is bound.

ghost use Rattle.std.specs.Prelude.{◌≡◌, ◌<◌, ◌≤◌, ◌∷◌, List, length, Some, IfOk, OnErr};
ghost use Rattle.spec_numbers.specs.Texts.{Text};
ghost use Rattle.spec_search.specs.Constraints.{freeze_row};
ghost use Rattle.cq_control.specs.Items.{items_at};
ghost use Rattle.spec_engine.specs.declared.machine.cell.Cell.TheVariants.{Call};
ghost use Rattle.cq_settle.specs.Worlds.{now_of, saved_of, room_of};
ghost use Rattle.cq_branch.specs.Lists.{HasCells, KeepsLists};
ghost use Rattle.cq_branch.specs.Worlds.{value, Leads};
ghost use Rattle.cq_relations.specs.Goals.{AtBoth};

use cq_attr::Susp;
use cq_control::{Continuation, Continuations};
use cq_settle::world::World;
use cq_term::{TermId, View};
use spec_engine::machine::Cell;
use std::alloc::AllocError;

/// `freeze(X,G)`: G sleeps where X is an unbound variable, and else becomes `call(G)`. After want of memory the world is as at
/// the call.
pub fn freeze(
    world: &mut World,
    lists: &mut Continuations<Cell>,
    variable: TermId,
    goal: TermId,
    rest: Continuation,
) -> Result<Continuation, AllocError>
    requires variable { variable < length world.old.heap.now.terms }
    requires goal { goal < length world.old.heap.now.terms }
    requires rest { rest < length lists.old.now }
    ensures row { IfOk result (λ k. (texts : List Text) → AtBoth texts (value world.old lists.old.now) variable goal rest
        (λ choices p behind x g. Leads texts choices (value world.new lists.new.now) (Some k) p behind (freeze_row p x g))) }
    ensures err { OnErr result (now_of world.new ≡ now_of world.old) }
    ensures there { IfOk result (λ k. k < length lists.new.now) }
    ensures keeps { KeepsLists lists.old.now lists.new.now }
    ensures lists { lists.new.saved ≡ lists.old.saved }
    ensures saved { saved_of world.new ≡ saved_of world.old }
    ensures budget { world.new.store.pivots ≡ world.old.store.pivots }
    ensures room { room_of world.old ≤ room_of world.new }
{
    match world.heap.view(variable) {
        View::Var(unbound) => {
            world.attrs.suspend(&[unbound], Susp::Goal(unbound, goal))?;
            Ok(rest)
        }
        _ => {
            let k = call_before(lists, goal, rest)?;
            Ok(k)
        }
    }
}

/// `call` of a goal, in front of a continuation.
fn call_before(
    lists: &mut Continuations<Cell>,
    goal: TermId,
    rest: Continuation,
) -> Result<Continuation, AllocError>
    requires rest { rest < length lists.old.now }
    ensures cells { IfOk result (λ k. HasCells lists.new.now k (Call goal ∷ items_at lists.old.now rest)) }
    ensures keeps { KeepsLists lists.old.now lists.new.now }
    ensures saved { lists.new.saved ≡ lists.old.saved }
{
    let k = lists.before(Cell::Call(goal), rest)?;
    Ok(k)
}
