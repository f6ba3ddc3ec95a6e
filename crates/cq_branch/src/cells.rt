// Continuations that are made of goals and marks, and choices that go on with one.

ghost use Rattle.std.specs.Prelude.{◌≡◌, ◌<◌, ◌+◌, ◌∷◌, List, length, IfOk, OnOk, OnErr};
ghost use Rattle.spec_numbers.specs.Texts.{Text};
ghost use Rattle.cq_control.specs.Items.{items_at};
ghost use Rattle.cq_control.specs.Open.{AreMarked};
ghost use Rattle.cq_resolve.specs.Database.{Program};
ghost use Rattle.cq_settle.specs.Worlds.{now_of};
ghost use Rattle.spec_engine.specs.Cells.{One};
ghost use Rattle.spec_engine.specs.declared.machine.cell.Cell.TheVariants.{CutTo};
ghost use Rattle.cq_branch.specs.Choices.{LeavesMore};
ghost use Rattle.cq_branch.specs.Lists.{HasCells, KeepsLists, goal_cell};
ghost use Rattle.cq_branch.specs.Worlds.{value, saved_values, stack};

use crate::alternatives::{Alternatives, Searching};
use cq_built::kinds::is_callable;
use cq_control::{Choices, Continuation, Continuations};
use cq_term::{Heap, TermId};
use spec_engine::machine::Cell;
use std::alloc::AllocError;

/// The cell of a goal that a construct puts in front.
fn cell_of(heap: &Heap, goal: TermId, height: usize) -> Cell
    requires { goal < length heap.now.now.terms }
    ensures { (texts : List Text) → result ≡ goal_cell texts heap.now.now.terms goal height }
{
    if is_callable(heap, goal) {
        Cell::Goal(goal, height)
    } else {
        Cell::Call(goal)
    }
}

/// One more to do, in front of another continuation.
pub(crate) fn cell_before(
    lists: &mut Continuations<Cell>,
    cell: Cell,
    rest: Continuation,
) -> Result<Continuation, AllocError>
    requires { rest < length lists.old.now }
    ensures there { IfOk result (λ k. k < length lists.new.now) }
    ensures cells { IfOk result (λ k. HasCells lists.new.now k (cell ∷ items_at lists.old.now rest)) }
    ensures keeps { KeepsLists lists.old.now lists.new.now }
    ensures saved { lists.new.saved ≡ lists.old.saved }
{
    let k = lists.before(cell, rest)?;
    Ok(k)
}

/// A goal in front of another continuation.
#[inline(always)]
pub(crate) fn goal_before(
    heap: &Heap,
    lists: &mut Continuations<Cell>,
    goal: TermId,
    height: usize,
    rest: Continuation,
) -> Result<Continuation, AllocError>
    requires goal { goal < length heap.now.now.terms }
    requires rest { rest < length lists.old.now }
    ensures there { IfOk result (λ k. k < length lists.new.now) }
    ensures cells { IfOk result (λ k. (texts : List Text)
        → HasCells lists.new.now k (goal_cell texts heap.now.now.terms goal height ∷ items_at lists.old.now rest)) }
    ensures keeps { KeepsLists lists.old.now lists.new.now }
    ensures saved { lists.new.saved ≡ lists.old.saved }
{
    let cell = cell_of(heap, goal, height);
    let k = cell_before(lists, cell, rest)?;
    Ok(k)
}

/// A cut to a height and then a goal, in front of another continuation.
pub(crate) fn then_before(
    heap: &Heap,
    lists: &mut Continuations<Cell>,
    top: usize,
    goal: TermId,
    height: usize,
    rest: Continuation,
) -> Result<Continuation, AllocError>
    requires goal { goal < length heap.now.now.terms }
    requires rest { rest < length lists.old.now }
    ensures there { IfOk result (λ k. k < length lists.new.now) }
    ensures cells { IfOk result (λ k. (texts : List Text)
        → HasCells lists.new.now k (CutTo top ∷ goal_cell texts heap.now.now.terms goal height ∷ items_at lists.old.now rest)) }
    ensures keeps { KeepsLists lists.old.now lists.new.now }
    ensures saved { lists.new.saved ≡ lists.old.saved }
{
    let last = goal_before(heap, lists, goal, height, rest)?;
    let k = cell_before(lists, Cell::CutTo(top), last)?;
    Ok(k)
}

/// Leaves a choice that goes on with a continuation.
pub(crate) fn leave(
    world: &mut Searching,
    choices: &mut Choices<Alternatives>,
    k: Continuation,
) -> Result<(), AllocError>
    requires marked { AreMarked (saved_values world.old.first world.old.second.saved) choices.old }
    ensures stack { OnOk result ((texts : List Text) (v : Program) → stack texts v (saved_values world.new.first world.new.second.saved) choices.new
        ≡ (value world.old.first world.old.second.now, One k) ∷ stack texts v (saved_values world.old.first world.old.second.saved) choices.old) }
    ensures first { now_of world.new.first ≡ now_of world.old.first }
    ensures lists { world.new.second.now ≡ world.old.second.now }
    ensures choices { OnOk result (LeavesMore (saved_values world.old.first world.old.second.saved) choices.old (value world.new.first world.new.second.now)
        (saved_values world.new.first world.new.second.saved) choices.new) }
    ensures marked { AreMarked (saved_values world.new.first world.new.second.saved) choices.new }
    ensures err { OnErr result (choices.new ≡ choices.old) }
    ensures err_saved { OnErr result (saved_values world.new.first world.new.second.saved ≡ saved_values world.old.first world.old.second.saved) }
{
    choices.push(world, Alternatives::One(k))?;
    Ok(())
}

/// The height above one more choice; an error is want of memory, which is never had for so many choices.
pub(crate) fn one_more(height: usize) -> Result<usize, AllocError>
    ensures { IfOk result (λ above. above ≡ height + 1) }
{
    match height.checked_add(1) {
        Some(above) => Ok(above),
        None => Err(AllocError),
    }
}
