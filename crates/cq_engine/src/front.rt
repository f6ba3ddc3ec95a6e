// What an engine comes to before a goal is selected.

ghost use Rattle.std.specs.Prelude.{◌≡◌, ◌<◌, ◌≤◌, ◌∷◌, [], List, length, true, false, Some, None, IfOk, OnOk, OnErr};
ghost use Rattle.spec_engine.specs.declared.machine.cell.Cell.{Cell};
ghost use Rattle.spec_search.specs.Search.{Search};
ghost use Rattle.spec_transcript.specs.Causes.{Budgets};
ghost use Rattle.cq_control.specs.Items.{items_at};
ghost use Rattle.cq_catch.specs.Gathering.{IsMark};
ghost use Rattle.cq_machine.specs.Machines.{IsSound, holds, now};
ghost use Rattle.cq_branch.specs.Marks.{IsFront};
ghost use Rattle.cq_engine.specs.Fronts.{ComesNext, IsAhead, IsFrontOf, IsGoal, left_on};
ghost use Rattle.cq_engine.specs.Seeking.{IsKept, IsGoing, GoesTo, StandsFor, GainsNames, KeepsNames};

use crate::seeking::seek;
use cq_catch::find::Found;
use cq_catch::gather::collect;
use cq_control::Continuation;
use cq_frac::Pair;
use cq_machine::Machine;
use cq_resolve::stored::StoredTerm;
use cq_store::store::StoreFault;
use spec_engine::machine::Cell;
use std::alloc::AllocError;

/// Why a query stops.
#[derive(Clone, Copy)]
pub enum Cause {
    /// So many goals were selected, and one more would be.
    Resolutions(u64),
    /// One maximisation made so many exchanges, and one more would follow.
    Pivots(u64),
    /// An operation refuses two numbers.
    Overflow(Pair),
}

/// What an engine comes to before it selects a goal.
#[derive(Drop)]
pub enum Front {
    /// A goal that may be selected is in front of this continuation.
    Ahead(Continuation),
    /// Nothing is left to do: an answer.
    Answer,
    /// No branch is left.
    Fail,
    /// A ball that a catch doesn't take, and nothing else catches. No branch is left.
    Escapes(StoredTerm),
    /// The query stops.
    Stop(Cause),
}

/// What an engine comes to at once.
#[derive(Drop)]
enum Next {
    /// A goal that may be selected, or what the query tells.
    Told(Front),
    /// The mark of a findall is in front of this continuation.
    Mark(Continuation),
}

/// The query ends: the machine has no branch left.
pub fn halt(m: &mut Machine)
    requires { IsKept m.old }
    ensures none_left { holds m.new ≡ [] }
    ensures atoms { m.new.atoms ≡ m.old.atoms }
    ensures now { now m.new ≡ now m.old }
    ensures kept { IsKept m.new }
    ensures program { GainsNames m.old m.new }
    ensures budget { m.new.world.first.store.pivots ≡ m.old.world.first.store.pivots }
{
    m.choices.cut(&mut m.world, 0);
}

/// Whether a goal is in front.
fn is_goal(cell: Cell) -> bool
    ensures goal { result ≡ true → IsGoal cell }
    ensures mark { result ≡ false → (cells : List Cell) → IsFront (cell ∷ cells) → IsMark (cell ∷ cells) }
{
    match cell {
        Cell::Goal(_, _) => true,
        Cell::Call(_) => true,
        Cell::CutTo(_) => false,
        Cell::CutFail(_) => false,
        Cell::CatchEnd(_, _, _) => false,
        Cell::Collect(_, _) => false,
    }
}

/// Whether no goal may be selected any more.
fn is_spent(selected: u64, steps: u64) -> bool
    requires { selected ≤ steps }
    ensures spent { result ≡ true → selected ≡ steps }
    ensures few { result ≡ false → selected < steps }
{
    selected == steps
}

/// What the engine comes to where no mark is in front but that of a findall.
fn at_front(m: &mut Machine, selected: u64, steps: u64, k: Continuation) -> Next
    requires sound { IsSound m.old }
    requires works { IsGoing m.old (Some k) }
    requires front { IsFront (items_at m.old.world.second.now k) }
    requires within { selected ≤ steps }
    ensures next { ComesNext m.old (Some k) steps selected m.new result }
    ensures kept { IsKept m.new }
    ensures program { GainsNames m.old m.new }
    ensures budget { m.new.world.first.store.pivots ≡ m.old.world.first.store.pivots }
{
    let Some((cell, _rest)) = m.world.second.first(k) else {
        return Next::Told(Front::Answer);
    };
    if !is_goal(cell) {
        return Next::Mark(k);
    }
    if is_spent(selected, steps) {
        halt(m);
        return Next::Told(Front::Stop(Cause::Resolutions(steps)));
    }
    Next::Told(Front::Ahead(k))
}

/// Whether a goal is in front, or the mark of a findall.
fn is_clear(cell: Cell) -> bool
    ensures { result ≡ true → (cells : List Cell) → IsFront (cell ∷ cells) }
{
    match cell {
        Cell::Goal(_, _) => true,
        Cell::Call(_) => true,
        Cell::CutTo(_) => false,
        Cell::CutFail(_) => false,
        Cell::CatchEnd(_, _, _) => false,
        Cell::Collect(_, _) => true,
    }
}

/// Whether no mark but that of a findall is in front of a continuation.
fn is_at_front(m: &Machine, k: Continuation) -> bool
    requires { k < length m.now.world.second.now }
    ensures { result ≡ true → IsFront (items_at m.now.world.second.now k) }
{
    match m.world.second.first(k) {
        Some((cell, _rest)) => is_clear(cell),
        None => true,
    }
}

/// An engine that selected so many goals, of which it may select `steps`, goes on to the next one, to the mark of a findall, or to
/// what the query tells before. An error is want of memory: the engine then comes back to its newest choice.
fn look_once(
    m: &mut Machine,
    selected: u64,
    steps: u64,
    start: Option<Continuation>,
) -> Result<Next, AllocError>
    requires kept { IsKept m.old }
    requires works { IsGoing m.old start }
    requires within { selected ≤ steps }
    ensures next { IfOk result (ComesNext m.old start steps selected m.new) }
    ensures err { OnErr result (GoesTo m.old start m.new None) }
    ensures kept { IsKept m.new }
    ensures program { KeepsNames m.old m.new }
    ensures budget { m.new.world.first.store.pivots ≡ m.old.world.first.store.pivots }
{
    if let Some(k) = start {
        if is_at_front(m, k) {
            return Ok(at_front(m, selected, steps, k));
        }
    }
    look_behind(m, selected, steps, start)
}

/// The same past marks that are in front, and through choices.
fn look_behind(
    m: &mut Machine,
    selected: u64,
    steps: u64,
    start: Option<Continuation>,
) -> Result<Next, AllocError>
    requires kept { IsKept m.old }
    requires works { IsGoing m.old start }
    requires within { selected ≤ steps }
    ensures next { IfOk result (ComesNext m.old start steps selected m.new) }
    ensures err { OnErr result (GoesTo m.old start m.new None) }
    ensures kept { IsKept m.new }
    ensures program { KeepsNames m.old m.new }
    ensures budget { m.new.world.first.store.pivots ≡ m.old.world.first.store.pivots }
{
    match seek(m, start) {
        Ok(found) => match found {
            Found::Front(k) => Ok(at_front(m, selected, steps, k)),
            Found::Escaped(ball) => Ok(Next::Told(Front::Escapes(ball))),
            Found::Over => Ok(Next::Told(Front::Fail)),
        },
        Err(StoreFault::Overflow(pair)) => {
            halt(m);
            Ok(Next::Told(Front::Stop(Cause::Overflow(pair))))
        }
        Err(StoreFault::Pivots(exchanges)) => {
            halt(m);
            Ok(Next::Told(Front::Stop(Cause::Pivots(exchanges))))
        }
        Err(StoreFault::NoMemory) => Err(AllocError),
    }
}

/// The mark of a findall is in front: a copy of its template is gathered, and the engine comes back. After want of memory nothing has
/// changed.
fn gather(m: &mut Machine, k: Continuation) -> Result<(), AllocError>
    requires sound { IsSound m.old }
    requires works { IsGoing m.old (Some k) }
    requires mark { IsMark (items_at m.old.world.second.now k) }
    ensures comes { OnOk result (GoesTo m.old (Some k) m.new None) }
    ensures fewer { OnOk result (left_on m.new None < left_on m.old (Some k)) }
    ensures err { OnErr result (GoesTo m.old (Some k) m.new (Some k)) }
    ensures kept { IsKept m.new }
    ensures program { GainsNames m.old m.new }
    ensures budget { m.new.world.first.store.pivots ≡ m.old.world.first.store.pivots }
{
    let world = &m.world;
    collect(world, &mut m.choices, k)
}

/// An engine that selected so many goals, of which it may select `steps`, goes on to the next one, or to what the query tells
/// before; copies are gathered at the marks of findalls, and clauses that a goal removes are gone then. An error is want of memory:
/// another call goes on with what `current` is then.
pub fn look(
    m: &mut Machine,
    selected: u64,
    steps: u64,
    current: &mut Option<Continuation>,
) -> Result<Front, AllocError>
    requires kept { IsKept m.old }
    requires works { IsGoing m.old current.old }
    requires within { selected ≤ steps }
    ensures front { IfOk result (λ f. (budgets : Budgets) → budgets.steps ≡ steps → budgets.pivots ≡ m.old.world.first.store.pivots
        → (s : Search) → StandsFor m.old selected current.old s → IsFrontOf budgets m.new selected f s) }
    ensures ahead { IfOk result (IsAhead steps selected m.new) }
    ensures err { OnErr result (GoesTo m.old current.old m.new current.new) }
    ensures kept { IsKept m.new }
    ensures program { KeepsNames m.old m.new }
    ensures budget { m.new.world.first.store.pivots ≡ m.old.world.first.store.pivots }
{
    'marks: loop {
        let start = *current;
        *current = None;
        match look_once(m, selected, steps, start) {
            Ok(next) => match next {
                Next::Told(front) => return Ok(front),
                Next::Mark(k) => {
                    *current = Some(k);
                    gather(m, k)?;
                    *current = None;
                }
            },
            Err(fault) => return Err(fault),
        }
    }
}
