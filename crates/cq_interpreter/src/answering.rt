// What a query tells, with the lines that are written beside answers.

ghost use Rattle.std.specs.Prelude.{IfOk};
ghost use Rattle.cq_interpreter.specs.Told.{HasBall, IsTold, IsWritten};

use crate::lines::{stop_line, stored_line};
use cq_engine::events::Event as Told;
use cq_machine::Machine;
use cq_project::eliminate::ProjectFault;
use cq_session::transcript::{Answered, Event};
use std::alloc::AllocError;

/// What an engine told, with its line.
pub(crate) fn told(machine: &Machine, event: Told) -> Result<Event, AllocError>
    requires { HasBall machine.now event }
    ensures { IfOk result (IsTold machine.now event) }
{
    match event {
        Told::Output(text) => Ok(Event::Wrote(text)),
        Told::Answer => Ok(Event::Answer),
        Told::Fail => Ok(Event::Fail),
        Told::Ball(ball) => Ok(Event::Ball(stored_line(machine, &ball)?)),
        Told::Stop(cause) => Ok(Event::Stop(stop_line(cause))),
    }
}

/// What an answer is written as, where its lines were made or a fault came.
pub(crate) fn answered(made: Result<Vec<u8>, ProjectFault>) -> Result<Answered, AllocError>
    ensures { IfOk result (IsWritten made) }
{
    match made {
        Ok(lines) => Ok(Answered::Lines(lines)),
        Err(ProjectFault::Overflow(_)) => Ok(Answered::Stop(b"stop: overflow\n")),
        Err(ProjectFault::Pivots(_)) => Ok(Answered::Stop(b"stop: pivots\n")),
        Err(ProjectFault::Rows(..)) => Ok(Answered::Stop(b"stop: projection\n")),
        Err(ProjectFault::NoMemory) => Err(AllocError),
    }
}
