// What an interpreter does.

use crate::answering::{answered, told};
use crate::queries::restored;
use crate::toplevel::Toplevel;
use cq_answer::answer_lines;
use cq_engine::events::Engine;
use cq_ops::more_names_keep_the_table;
use cq_read::{Fed, Feed};
use cq_session::transcript::{Answered, Event, Interpreter, Sentence};
use spec_transcript::Source;
use std::alloc::{AllocError, Global};

impl Interpreter for Toplevel {
    ghost use Rattle.cq_interpreter.specs.Toplevels.{IsWhole, IsAsking, HasAnswered, program_of, budgets_of, left_of, names_of};

    ghost kept = { IsWhole };

    ghost program = { program_of };

    ghost budgets = { budgets_of };

    ghost stands = { IsAsking };

    ghost is_answer = { HasAnswered };

    ghost left = { left_of };

    ghost names = { names_of };

    fn new(alloc: Global, steps: u64, pivots: u64, answers: u64) -> Result<Toplevel, AllocError> {
        let engine = Engine::new(alloc, pivots)?;
        Toplevel::over(alloc, engine, steps, answers)
    }

    fn read(&mut self, text: &mut Feed, source: Source) -> Result<Sentence, AllocError> {
        more_names_keep_the_table();
        self.engine.end();
        self.names.clear();
        let fed = self.engine.read_fed(text)?;
        match fed {
            Fed::Needs => Ok(Sentence::Needs),
            Fed::Read(read) => {
                let sentence = self.take_read(source, read)?;
                Ok(sentence)
            }
        }
    }

    fn begin_later(&mut self) -> Result<bool, AllocError> {
        self.engine.end();
        let first = self.later.pop_front();
        match first {
            None => Ok(false),
            Some(waiting) => {
                let goal = restored(&mut self.engine, &waiting)?;
                self.direct(goal)?;
                Ok(true)
            }
        }
    }

    fn next(&mut self) -> Result<Event, AllocError> {
        let event = self.engine.next()?;
        let line = told(&self.engine.machine, event)?;
        Ok(line)
    }

    fn answer(&mut self) -> Result<Answered, AllocError> {
        let machine = &mut self.engine.machine;
        let world = &mut machine.world.first;
        let made = answer_lines(
            world,
            &machine.atoms,
            &machine.ops,
            self.freeze,
            &self.names,
        );
        let written = answered(made)?;
        Ok(written)
    }
}
