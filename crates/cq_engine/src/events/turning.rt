// A turn that selects a goal.

ghost use Rattle.std.specs.Prelude.{◌≡◌, ◌<◌, ◌≤◌, [], None, Some, length, IfOk, IfSome, OnErr};
ghost use Rattle.cq_built.specs.Errors.{HasCulprit};
ghost use Rattle.cq_term.specs.Trees.{tree};
ghost use Rattle.cq_machine.specs.Machines.{terms, now, IsSound, StillStands};
ghost use Rattle.spec_search.specs.Search.{Search};
ghost use Rattle.spec_transcript.specs.Causes.{Budgets};
ghost use Rattle.cq_engine.specs.Fronts.{HasWork, IsAhead, IsFrontOf};
ghost use Rattle.cq_engine.specs.Seeking.{IsKept, IsGoing, GoesTo, StandsFor, GainsNames, KeepsNames};
ghost use Rattle.cq_engine.specs.Raised.{IsNumbered, ball_by};
ghost use Rattle.cq_engine.specs.Events.{IsRunning, GoesOn, Keeps};
ghost use Rattle.cq_engine.specs.Turning.{CallsAt, CallsAtFront, CallsInFront, ComesUpOn, HasEnded, IsAsBefore, IsAt, IsRaised, IsThrown, IsTold, Turned};

use crate::events::balls::build_ball;
use crate::events::cells::{execute_cell, raiser_before};
use crate::events::engine::Engine;
use crate::events::event::Event;
use crate::events::raiser::Raiser;
use crate::events::running::go_on;
use crate::{Cause, Front, halt, look};
use cq_built::BuiltinError;
use cq_catch::balls::hand;
use cq_control::Continuation;
use cq_execute::Executed;
use cq_machine::{Machine, Step};
use cq_predicates::table::Builtin;
use cq_resolve::stored::StoredTerm;
use cq_store::store::StoreFault;
use cq_term::TermId;
use std::alloc::AllocError;

/// No branch is left.
fn leave(e: &mut Engine)
    requires { IsKept e.old.machine }
    ensures ended { HasEnded e.old.selected e.new }
    ensures program { GainsNames e.old.machine e.new.machine }
    ensures world { now e.new.machine ≡ now e.old.machine }
    ensures atoms { e.new.machine.atoms ≡ e.old.machine.atoms }
    ensures steps { e.new.steps ≡ e.old.steps }
    ensures budget { e.new.machine.world.first.store.pivots ≡ e.old.machine.world.first.store.pivots }
{
    halt(&mut e.machine);
    e.current = None;
}

/// One more goal was selected, and the engine goes on so; it tells the text, unless that is empty.
fn advance(e: &mut Engine, next: Option<Continuation>, output: Vec<u8>) -> Option<Event>
    requires { e.old.selected < e.old.steps }
    ensures at { IsAt e.old e.new next }
    ensures told { IsTold output.items result }
{
    go_on(e, next);
    if output.is_empty() {
        None
    } else {
        Some(Event::Output(output))
    }
}

/// A ball comes up in front of a continuation, where one more goal was selected. The nearest catch has it then, and the engine comes back
/// to that; where nothing catches it, it is told, and no branch is left. After want of memory nothing has changed.
fn throw(e: &mut Engine, ball: TermId, from: Continuation) -> Result<Option<Event>, AllocError>
    requires sound { IsSound e.old.machine }
    requires ball { ball < length (terms e.old.machine) }
    requires comes_up { ComesUpOn e.old.machine from }
    requires few { e.old.selected < e.old.steps }
    ensures thrown { IfOk result (IsThrown e.old e.new (tree e.old.machine.atoms (terms e.old.machine) ball) from) }
    ensures err { OnErr result (e.new ≡ e.old) }
    ensures kept { IsKept e.new.machine }
    ensures program { GainsNames e.old.machine e.new.machine }
    ensures steps { e.new.steps ≡ e.old.steps }
    ensures budget { e.new.machine.world.first.store.pivots ≡ e.old.machine.world.first.store.pivots }
{
    let m = &mut e.machine;
    let copy = StoredTerm::of(&m.world.first.heap, ball)?;
    let missed = hand(&mut m.world, &mut m.choices, copy, from);
    e.selected += 1;
    match missed {
        Some(ball) => {
            leave(e);
            Ok(Some(Event::Ball(ball)))
        }
        None => {
            e.current = None;
            Ok(None)
        }
    }
}

/// A goal raises an error, of which the ball comes up. After want of memory names and terms may stay.
fn raise(
    e: &mut Engine,
    error: BuiltinError,
    raiser: Raiser,
    from: Continuation,
) -> Result<Option<Event>, AllocError>
    requires sound { IsSound e.old.machine }
    requires culprit { HasCulprit e.old.machine.atoms (terms e.old.machine) error }
    requires numbered { IsNumbered e.old.machine.atoms raiser }
    requires comes_up { ComesUpOn e.old.machine from }
    requires few { e.old.selected < e.old.steps }
    ensures thrown { IfOk result (IsRaised e.old e.new (ball_by e.old.machine.atoms (terms e.old.machine) error raiser) from) }
    ensures err { OnErr result (StillStands e.old.machine e.new.machine) }
    ensures err_at { OnErr result (IsAsBefore e.old e.new) }
    ensures kept { IsKept e.new.machine }
    ensures program { GainsNames e.old.machine e.new.machine }
    ensures steps { e.new.steps ≡ e.old.steps }
    ensures budget { e.new.machine.world.first.store.pivots ≡ e.old.machine.world.first.store.pivots }
{
    let ball = build_ball(&mut e.machine, error, raiser)?;
    throw(e, ball, from)
}

/// Selects the goal in front of what the engine goes on with; `known` is the built-in predicate that it calls, where that was found
/// already.
fn select(
    e: &mut Engine,
    k: Continuation,
    known: Option<Builtin>,
) -> Result<Option<Event>, AllocError>
    requires running { IsRunning e.old }
    requires current { e.old.current ≡ Some k }
    requires work { HasWork e.old.steps e.old.selected e.old.machine k }
    requires known { IfSome known (CallsAt e.old.machine k) }
    ensures turned { IfOk result (Turned e.old e.new) }
    ensures err { OnErr result (GoesOn e.old e.new) }
    ensures running { IsRunning e.new }
    ensures keeps { Keeps e.old e.new }
{
    let Some((cell, rest)) = e.machine.world.second.first(k) else {
        unreachable!()
    };
    match execute_cell(&mut e.machine, k, cell, known, rest) {
        Ok(executed) => {
            let Executed { step, output } = executed;
            match step {
                Step::Goes(next) => Ok(advance(e, Some(next), output)),
                Step::Back => Ok(advance(e, None, output)),
                Step::Raises(error) => {
                    let raiser = raiser_before(&e.machine, k);
                    match raise(e, error, raiser, rest) {
                        Ok(told) => Ok(told),
                        Err(fault) => Err(fault),
                    }
                }
                Step::Throws(ball) => match throw(e, ball, rest) {
                    Ok(told) => Ok(told),
                    Err(fault) => Err(fault),
                },
                Step::Refuses(pair) => {
                    leave(e);
                    Ok(Some(Event::Stop(Cause::Overflow(pair))))
                }
            }
        }
        Err(StoreFault::Overflow(pair)) => {
            leave(e);
            Ok(Some(Event::Stop(Cause::Overflow(pair))))
        }
        Err(StoreFault::Pivots(exchanges)) => {
            leave(e);
            Ok(Some(Event::Stop(Cause::Pivots(exchanges))))
        }
        Err(StoreFault::NoMemory) => Err(AllocError),
    }
}

/// What the engine comes to before it selects a goal, as `look` finds it. Where the built-in predicate is known that the goal in front
/// calls, nothing has to be looked for.
fn ahead(
    m: &mut Machine,
    selected: u64,
    steps: u64,
    current: &mut Option<Continuation>,
    known: Option<Builtin>,
) -> Result<Front, AllocError>
    requires kept { IsKept m.old }
    requires works { IsGoing m.old current.old }
    requires within { selected ≤ steps }
    requires known { IfSome known (CallsInFront m.old selected steps current.old) }
    ensures front { IfOk result (λ f. (budgets : Budgets) → budgets.steps ≡ steps → budgets.pivots ≡ m.old.world.first.store.pivots
        → (s : Search) → StandsFor m.old selected current.old s → IsFrontOf budgets m.new selected f s) }
    ensures ahead { IfOk result (IsAhead steps selected m.new) }
    ensures known { IfOk result (λ f. IfSome known (CallsAtFront m.new f)) }
    ensures err { OnErr result (GoesTo m.old current.old m.new current.new) }
    ensures kept { IsKept m.new }
    ensures program { KeepsNames m.old m.new }
    ensures budget { m.new.world.first.store.pivots ≡ m.old.world.first.store.pivots }
{
    match known {
        Some(_) => match *current {
            Some(k) => Ok(Front::Ahead(k)),
            None => unreachable!(),
        },
        None => look(m, selected, steps, current),
    }
}

/// Goes on to what the query tells next, or past one more selected goal. `known` is the built-in predicate that a goal calls which
/// was found in front.
pub(crate) fn turn(e: &mut Engine, known: Option<Builtin>) -> Result<Option<Event>, AllocError>
    requires running { IsRunning e.old }
    requires known { IfSome known (CallsInFront e.old.machine e.old.selected e.old.steps e.old.current) }
    ensures turned { IfOk result (Turned e.old e.new) }
    ensures err { OnErr result (GoesOn e.old e.new) }
    ensures running { IsRunning e.new }
    ensures keeps { Keeps e.old e.new }
{
    let mut current = e.current;
    e.current = None;
    match ahead(&mut e.machine, e.selected, e.steps, &mut current, known) {
        Ok(front) => match front {
            Front::Ahead(k) => {
                e.current = Some(k);
                match select(e, k, known) {
                    Ok(told) => Ok(told),
                    Err(fault) => Err(fault),
                }
            }
            Front::Answer => Ok(Some(Event::Answer)),
            Front::Fail => Ok(Some(Event::Fail)),
            Front::Escapes(ball) => Ok(Some(Event::Ball(ball))),
            Front::Stop(cause) => Ok(Some(Event::Stop(cause))),
        },
        Err(fault) => {
            e.current = current;
            Err(fault)
        }
    }
}
