// Marks in front of a continuation, and choices that are come back to, up to a goal.

ghost use Rattle.std.specs.Prelude.{◌≡◌, ℕ, List, Option, Some, None, IfSome, IfNone};
ghost use Rattle.spec_numbers.specs.Texts.{Text};
ghost use Rattle.spec_search.specs.Database.{Database};
ghost use Rattle.spec_search.specs.Search.{Search};
ghost use Rattle.cq_control.specs.Items.{items_at};
ghost use Rattle.cq_control.specs.Open.{AreMarked};
ghost use Rattle.cq_resolve.specs.Database.{Program};
ghost use Rattle.cq_branch.specs.Choices.{KeepsOlder};
ghost use Rattle.cq_branch.specs.Marks.{IsFront, past, IsPast, IsCall, came_to, HasComeBack};
ghost use Rattle.cq_branch.specs.Worlds.{value, saved_values, Stands, IsWorking, Arrives};

use crate::alternatives::{Alternatives, Searching};
use cq_control::{Choices, Continuation};
use spec_engine::machine::Cell;

/// What is in front of a continuation.
#[derive(Clone, Copy)]
enum Front {
    /// A goal, or nothing.
    Clear,
    /// A mark that was passed, with what is behind it.
    Passed(Continuation),
    /// A mark that comes back.
    Back,
}

/// Where a search comes back to.
#[derive(Clone, Copy)]
enum Came {
    /// To a continuation, or past a choice of no branch.
    Back(Option<Continuation>),
    /// What the newest choice leaves is to be tried, or no choice is left.
    Call,
}

/// Passes a mark in front.
fn pass_mark(
    world: &mut Searching,
    choices: &mut Choices<Alternatives>,
    start: Continuation,
) -> Front
    requires marked { AreMarked (saved_values world.old.first world.old.second.saved) choices.old }
    requires works { IsWorking (saved_values world.old.first world.old.second.saved) choices.old (value world.old.first world.old.second.now) (Some start) }
    ensures marked { AreMarked (saved_values world.new.first world.new.second.saved) choices.new }
    ensures arrives { (steps : ℕ) (texts : List Text) (v : Program) (db : Database) (n : ℕ) (s : Search)
        → Stands texts v db n (saved_values world.old.first world.old.second.saved) choices.old (value world.old.first world.old.second.now) (Some start) s
        → Arrives steps texts v db n (saved_values world.new.first world.new.second.saved) choices.new (value world.new.first world.new.second.now)
        (past result start) s }
    ensures passes { IsPast result start (items_at world.new.second.now start) }
    ensures older { KeepsOlder (saved_values world.old.first world.old.second.saved) choices.old
        (saved_values world.new.first world.new.second.saved) choices.new }
    ensures budget { world.new.first.store.pivots ≡ world.old.first.store.pivots }
{
    let Some((cell, rest)) = world.second.first(start) else {
        return Front::Clear;
    };
    match cell {
        Cell::Goal(_, _) => Front::Clear,
        Cell::Call(_) => Front::Clear,
        Cell::Collect(_, _) => Front::Clear,
        Cell::CutTo(height) => {
            choices.cut(world, height);
            Front::Passed(rest)
        }
        Cell::CutFail(height) => {
            choices.cut(world, height);
            Front::Back
        }
        Cell::CatchEnd(_, _, _) => Front::Passed(rest),
    }
}

/// Passes the marks in front; None where the last of them comes back.
fn pass_marks(
    world: &mut Searching,
    choices: &mut Choices<Alternatives>,
    start: Continuation,
) -> Option<Continuation>
    requires marked { AreMarked (saved_values world.old.first world.old.second.saved) choices.old }
    requires works { IsWorking (saved_values world.old.first world.old.second.saved) choices.old (value world.old.first world.old.second.now) (Some start) }
    ensures marked { AreMarked (saved_values world.new.first world.new.second.saved) choices.new }
    ensures arrives { (steps : ℕ) (texts : List Text) (v : Program) (db : Database) (n : ℕ) (s : Search)
        → Stands texts v db n (saved_values world.old.first world.old.second.saved) choices.old (value world.old.first world.old.second.now) (Some start) s
        → Arrives steps texts v db n (saved_values world.new.first world.new.second.saved) choices.new (value world.new.first world.new.second.now) result s }
    ensures front { IfSome result (λ k. IsFront (items_at world.new.second.now k)) }
    ensures older { KeepsOlder (saved_values world.old.first world.old.second.saved) choices.old
        (saved_values world.new.first world.new.second.saved) choices.new }
    ensures budget { world.new.first.store.pivots ≡ world.old.first.store.pivots }
{
    let mut current = start;
    'marks: loop {
        match pass_mark(world, choices, current) {
            Front::Clear => return Some(current),
            Front::Passed(rest) => current = rest,
            Front::Back => return None,
        }
    }
}

/// The same from where an engine goes on, if it doesn't come back.
fn pass_from(
    world: &mut Searching,
    choices: &mut Choices<Alternatives>,
    start: Option<Continuation>,
) -> Option<Continuation>
    requires marked { AreMarked (saved_values world.old.first world.old.second.saved) choices.old }
    requires works { IsWorking (saved_values world.old.first world.old.second.saved) choices.old (value world.old.first world.old.second.now) start }
    ensures marked { AreMarked (saved_values world.new.first world.new.second.saved) choices.new }
    ensures arrives { (steps : ℕ) (texts : List Text) (v : Program) (db : Database) (n : ℕ) (s : Search)
        → Stands texts v db n (saved_values world.old.first world.old.second.saved) choices.old (value world.old.first world.old.second.now) start s
        → Arrives steps texts v db n (saved_values world.new.first world.new.second.saved) choices.new (value world.new.first world.new.second.now) result s }
    ensures front { IfSome result (λ k. IsFront (items_at world.new.second.now k)) }
    ensures older { KeepsOlder (saved_values world.old.first world.old.second.saved) choices.old
        (saved_values world.new.first world.new.second.saved) choices.new }
    ensures budget { world.new.first.store.pivots ≡ world.old.first.store.pivots }
{
    match start {
        Some(k) => pass_marks(world, choices, k),
        None => None,
    }
}

/// Comes back to the newest choice, unless what that leaves is to be tried.
fn come_back(world: &mut Searching, choices: &mut Choices<Alternatives>) -> Came
    requires marked { AreMarked (saved_values world.old.first world.old.second.saved) choices.old }
    ensures marked { AreMarked (saved_values world.new.first world.new.second.saved) choices.new }
    ensures arrives { (steps : ℕ) (texts : List Text) (v : Program) (db : Database) (n : ℕ) (s : Search)
        → Stands texts v db n (saved_values world.old.first world.old.second.saved) choices.old (value world.old.first world.old.second.now) None s
        → Arrives steps texts v db n (saved_values world.new.first world.new.second.saved) choices.new (value world.new.first world.new.second.now)
        (came_to result) s }
    ensures older { KeepsOlder (saved_values world.old.first world.old.second.saved) choices.old
        (saved_values world.new.first world.new.second.saved) choices.new }
    ensures budget { world.new.first.store.pivots ≡ world.old.first.store.pivots }
    ensures back { HasComeBack result choices.old choices.new }
{
    let Some(newest) = choices.top() else {
        return Came::Call;
    };
    match newest {
        Alternatives::One(next) => {
            let k = *next;
            choices.back(world);
            Came::Back(Some(k))
        }
        Alternatives::Barrier => {
            choices.back(world);
            Came::Back(None)
        }
        Alternatives::Catches(_) => {
            choices.back(world);
            Came::Back(None)
        }
        Alternatives::Clauses(_, _, _) => Came::Call,
        Alternatives::Ways(_, _) => Came::Call,
        Alternatives::Caught(_, _, _, _) => Came::Call,
        Alternatives::Gathers(_, _, _) => Came::Call,
        Alternatives::Matches(_, _, _, _) => Came::Call,
    }
}

/// Goes on to where a goal is in front, nothing is left to do, what a choice leaves is to be tried, or no choice is left.
pub fn find_front(
    world: &mut Searching,
    choices: &mut Choices<Alternatives>,
    start: Option<Continuation>,
) -> Option<Continuation>
    requires marked { AreMarked (saved_values world.old.first world.old.second.saved) choices.old }
    requires works { IsWorking (saved_values world.old.first world.old.second.saved) choices.old (value world.old.first world.old.second.now) start }
    ensures marked { AreMarked (saved_values world.new.first world.new.second.saved) choices.new }
    ensures arrives { (steps : ℕ) (texts : List Text) (v : Program) (db : Database) (n : ℕ) (s : Search)
        → Stands texts v db n (saved_values world.old.first world.old.second.saved) choices.old (value world.old.first world.old.second.now) start s
        → Arrives steps texts v db n (saved_values world.new.first world.new.second.saved) choices.new (value world.new.first world.new.second.now) result s }
    ensures front { IfSome result (λ k. IsFront (items_at world.new.second.now k)) }
    ensures call { IfNone result (IsCall choices.new) }
    ensures older { KeepsOlder (saved_values world.old.first world.old.second.saved) choices.old
        (saved_values world.new.first world.new.second.saved) choices.new }
    ensures budget { world.new.first.store.pivots ≡ world.old.first.store.pivots }
{
    let mut current = start;
    'choices: loop {
        if let Some(front) = pass_from(world, choices, current) {
            return Some(front);
        }
        match come_back(world, choices) {
            Came::Back(next) => current = next,
            Came::Call => return None,
        }
    }
}
