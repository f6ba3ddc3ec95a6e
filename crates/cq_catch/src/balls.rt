//! Balls: how one is handed to the nearest catch.
#![tactic(auto)]

// A ball goes to the nearest catch outwards.

ghost use Rattle.std.specs.Prelude.{◌≡◌, ◌<◌, ◌≤◌, ◌∷◌, ℕ, List, None, Some, length, IfNone, IfSome};
ghost use Rattle.spec_numbers.specs.Texts.{Text};
ghost use Rattle.cq_control.specs.Items.{items_at};
ghost use Rattle.cq_control.specs.Open.{AreMarked, last};
ghost use Rattle.cq_resolve.specs.Database.{Program};
ghost use Rattle.cq_settle.specs.Contents.{Contents};
ghost use Rattle.cq_settle.specs.Worlds.{now_of};
ghost use Rattle.spec_engine.specs.declared.machine.cell.Cell.{Cell};
ghost use Rattle.spec_engine.specs.Cells.{Caught, Value, catch_at, nearest_catch};
ghost use Rattle.cq_branch.specs.Choices.{AreOpen};
ghost use Rattle.cq_branch.specs.Stored.{IsCountedTerm, stored_tree};
ghost use Rattle.cq_branch.specs.Worlds.{value, saved_values, stack};
ghost use Rattle.cq_catch.specs.Balls.{ComesUpSomewhere, HandsBall, Misses, HasBall, HasCatch, IsNearest};

use cq_branch::{Alternatives, Searching};
use cq_control::{Choices, Continuation, Continuations};
use cq_resolve::stored::StoredTerm;
use cq_term::TermId;
use spec_engine::machine::Cell;

/// Hands a ball to the nearest end of a catch behind a continuation: the newer choices are cut, and the choice of the catch has
/// the ball then; the search is to come back to it at once. Where there is no such end nothing changes, and the ball is given back.
pub fn hand(
    world: &mut Searching,
    choices: &mut Choices<Alternatives>,
    ball: StoredTerm,
    from: Continuation,
) -> Option<StoredTerm>
    requires marked { AreMarked (saved_values world.old.first world.old.second.saved) choices.old }
    requires comes_up { ComesUpSomewhere (saved_values world.old.first world.old.second.saved) choices.old
        (value world.old.first world.old.second.now) from }
    ensures caught { IfNone result (HandsBall (saved_values world.old.first world.old.second.saved) choices.old
        (value world.old.first world.old.second.now) from ball (saved_values world.new.first world.new.second.saved) choices.new) }
    ensures newest { IfNone result (HasBall choices.new) }
    ensures no_more { length choices.new ≤ length choices.old }
    ensures open { (texts : List Text) (v : Program) → IsCountedTerm (length texts) ball
        → AreOpen texts v (saved_values world.old.first world.old.second.saved) choices.old
        → AreOpen texts v (saved_values world.new.first world.new.second.saved) choices.new }
    ensures missed { IfSome result (λ b. Misses (saved_values world.old.first world.old.second.saved) choices.old
        (value world.old.first world.old.second.now) from) }
    ensures same { IfSome result (λ b. b ≡ ball) }
    ensures same_choices { IfSome result (λ b. choices.new ≡ choices.old) }
    ensures same_saved { IfSome result (λ b. saved_values world.new.first world.new.second.saved
        ≡ saved_values world.old.first world.old.second.saved) }
    ensures same_now { IfSome result (λ b. now_of world.new.first ≡ now_of world.old.first) }
    ensures marked { AreMarked (saved_values world.new.first world.new.second.saved) choices.new }
    ensures budget { world.new.first.store.pivots ≡ world.old.first.store.pivots }
{
    match nearest(&world.second, from) {
        Some(end) => {
            give(world, choices, ball, end);
            None
        }
        None => Some(ball),
    }
}

/// The end of a catch: the height of its choice, and its two other arguments.
#[derive(Clone, Copy)]
struct End {
    height: usize,
    catcher: TermId,
    recovery: TermId,
}

/// The end of a catch that a cell is.
fn end_of(cell: Cell) -> Option<End>
    ensures some { IfSome result (λ e. (cs : List Cell) → nearest_catch (cell ∷ cs) ≡ Some (e.height, e.catcher, e.recovery, cs)) }
    ensures none { IfNone result ((cs : List Cell) → nearest_catch (cell ∷ cs) ≡ nearest_catch cs) }
{
    match cell {
        Cell::CatchEnd(height, catcher, recovery) => Some(End {
            height,
            catcher,
            recovery,
        }),
        Cell::Goal(_, _) => None,
        Cell::Call(_) => None,
        Cell::CutTo(_) => None,
        Cell::CutFail(_) => None,
        Cell::Collect(_, _) => None,
    }
}

/// The nearest end of a catch in a continuation.
fn nearest(lists: &Continuations<Cell>, from: Continuation) -> Option<End>
    requires { from < length lists.now.now }
    ensures some { IfSome result (IsNearest (items_at lists.now.now from)) }
    ensures none { IfNone result (nearest_catch (items_at lists.now.now from) ≡ None) }
{
    let mut next = from;
    'cells: while let Some((cell, rest)) = lists.first(next) {
        if let Some(end) = end_of(cell) {
            return Some(end);
        }
        next = rest;
    }
    None
}

/// The catch of an end has a ball: the newer choices are cut, and the world goes back to the catch's call.
fn give(world: &mut Searching, choices: &mut Choices<Alternatives>, ball: StoredTerm, end: End)
    requires marked { AreMarked (saved_values world.old.first world.old.second.saved) choices.old }
    requires within { end.height < length choices.old }
    requires catch { HasCatch (saved_values world.old.first world.old.second.saved) choices.old end.height }
    ensures given { (texts : List Text) (v : Program) (call : Value Contents × ℕ)
        → catch_at (stack texts v (saved_values world.old.first world.old.second.saved) choices.old) end.height ≡ Some call
        → stack texts v (saved_values world.new.first world.new.second.saved) choices.new
        ≡ (call.0, Caught (stored_tree texts ball) end.catcher end.recovery call.1)
        ∷ last end.height (stack texts v (saved_values world.old.first world.old.second.saved) choices.old) }
    ensures newest { HasBall choices.new }
    ensures no_more { length choices.new ≤ length choices.old }
    ensures open { (texts : List Text) (v : Program) → IsCountedTerm (length texts) ball
        → AreOpen texts v (saved_values world.old.first world.old.second.saved) choices.old
        → AreOpen texts v (saved_values world.new.first world.new.second.saved) choices.new }
    ensures marked { AreMarked (saved_values world.new.first world.new.second.saved) choices.new }
    ensures budget { world.new.first.store.pivots ≡ world.old.first.store.pivots }
{
    let all = choices.height();
    if end.height >= all {
        unreachable!();
    }
    choices.cut(world, end.height + 1);
    let Some(newest) = choices.top() else {
        unreachable!();
    };
    let Alternatives::Catches(behind) = newest else {
        unreachable!();
    };
    let rest = *behind;
    let given = Alternatives::Caught(ball, end.catcher, end.recovery, rest);
    choices.retry(world, given);
}
