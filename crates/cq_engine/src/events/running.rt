// Goals in front that call user predicates, control or arithmetic: most goals of a program, for which no event has to be made.

ghost use Rattle.std.specs.Prelude.{◌<◌, ◌≤◌, IfOk, IfSome};
ghost use Rattle.cq_engine.specs.Events.{IsRunning, GoesOn, Keeps};
ghost use Rattle.cq_engine.specs.Turning.{CallsInFront, HasGoalInFront, HasRun, IsAt};

use crate::events::engine::Engine;
use cq_control::Continuation;
use cq_execute::{Went, execute_small};
use cq_predicates::table::Builtin;
use cq_term::TermId;
use spec_engine::machine::Cell;
use std::alloc::AllocError;

/// What became of the goal in front.
#[derive(Clone, Copy)]
pub(crate) enum Ran {
    /// It was selected, and shows nothing.
    On,
    /// It calls this built-in predicate, and is to be selected.
    Row(Builtin),
    /// No goal is in front that may be selected, or it is an error.
    Look,
}

/// One more goal was selected, and the engine goes on so.
pub(crate) fn go_on(e: &mut Engine, next: Option<Continuation>)
    requires { e.old.selected < e.old.steps }
    ensures { IsAt e.old e.new next }
{
    e.current = next;
    e.selected += 1;
}

/// Selects the goals in front that show nothing, one after the other. Says which built-in predicate the goal calls that is
/// in front then, if there is one. After want of memory the engine stands behind some of the goals.
pub(crate) fn run(e: &mut Engine) -> Result<Option<Builtin>, AllocError>
    requires { IsRunning e.old }
    ensures known { IfOk result (λ o. IfSome o (CallsInFront e.new.machine e.new.selected e.new.steps e.new.current)) }
    ensures goes { GoesOn e.old e.new }
    ensures counted { e.old.selected ≤ e.new.selected }
    ensures running { IsRunning e.new }
    ensures keeps { Keeps e.old e.new }
{
    'calls: loop {
        match run_once(e) {
            Ok(ran) => match ran {
                Ran::On => {}
                Ran::Row(builtin) => return Ok(Some(builtin)),
                Ran::Look => return Ok(None),
            },
            Err(fault) => return Err(fault),
        }
    }
}

/// Selects the goal in front, if it calls a user predicate that is there, or is of control or arithmetic.
fn run_once(e: &mut Engine) -> Result<Ran, AllocError>
    requires { IsRunning e.old }
    ensures ran { IfOk result (HasRun e.old e.new) }
    ensures goes { GoesOn e.old e.new }
    ensures counted { e.old.selected ≤ e.new.selected }
    ensures running { IsRunning e.new }
    ensures keeps { Keeps e.old e.new }
{
    let Some(k) = e.current else {
        return Ok(Ran::Look);
    };
    let Some((cell, rest)) = e.machine.world.second.first(k) else {
        return Ok(Ran::Look);
    };
    if e.selected == e.steps {
        return Ok(Ran::Look);
    }
    match cell {
        Cell::Goal(goal, height) => run_goal(e, goal, height, rest),
        _ => Ok(Ran::Look),
    }
}

/// The same of a goal that may be selected.
fn run_goal(
    e: &mut Engine,
    goal: TermId,
    height: usize,
    rest: Continuation,
) -> Result<Ran, AllocError>
    requires running { IsRunning e.old }
    requires few { e.old.selected < e.old.steps }
    requires front { HasGoalInFront e.old goal height rest }
    ensures ran { IfOk result (HasRun e.old e.new) }
    ensures goes { GoesOn e.old e.new }
    ensures counted { e.old.selected ≤ e.new.selected }
    ensures running { IsRunning e.new }
    ensures keeps { Keeps e.old e.new }
{
    match execute_small(&mut e.machine, goal, height, rest) {
        Ok(went) => match went {
            Went::Goes(next) => {
                go_on(e, Some(next));
                Ok(Ran::On)
            }
            Went::Back => {
                go_on(e, None);
                Ok(Ran::On)
            }
            Went::Refused => Ok(Ran::Look),
            Went::Row(builtin) => Ok(Ran::Row(builtin)),
        },
        Err(fault) => Err(fault),
    }
}
