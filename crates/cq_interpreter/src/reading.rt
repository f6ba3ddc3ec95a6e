// What is done with a clause that was read.

ghost use Rattle.std.specs.Prelude.{◌≡◌, ◌<◌, length, IfOk, OnOk};
ghost use Rattle.spec_transcript.specs.Purposes.{purpose};
ghost use Rattle.cq_read.specs.Names.{variables};
ghost use Rattle.cq_read.specs.Shown.{read_of, IsLiveRead};
ghost use Rattle.cq_machine.specs.Machines.{terms};
ghost use Rattle.cq_engine.specs.Events.{IsIdle};
ghost use Rattle.cq_interpreter.specs.Numbered.{AreNumbered, IsNumbered};
ghost use Rattle.cq_interpreter.specs.Taken.{IsAdded, IsKeptFor, IsTaken, IsDone};
ghost use Rattle.cq_interpreter.specs.Toplevels.{IsWhole, IsAsking, images, texts, names_of, program_of, budgets_of, term_in};

use crate::consult::{Purpose, consult, purpose_of};
use crate::goals::kept;
use crate::lines::ball_line;
use crate::toplevel::{Toplevel, Waiting};
use cq_read::Read;
use cq_read::names::VariableName;
use cq_session::transcript::Sentence;
use cq_term::TermId;
use spec_transcript::Source;
use std::alloc::AllocError;

impl Toplevel {
    /// Adds a clause of a file, or gives the line of its refusal.
    fn add(&mut self, clause: TermId) -> Result<Sentence, AllocError>
        requires whole { IsWhole self.old }
        requires idle { IsIdle self.old.engine }
        requires live { clause < length (terms self.old.engine.machine) }
        ensures added { IfOk result (IsAdded (program_of self.old) (program_of self.new) (term_in self.old clause)) }
        ensures budgets { budgets_of self.new ≡ budgets_of self.old }
        ensures whole { IsWhole self.new }
    {
        let refused = consult(&mut self.engine.machine, clause)?;
        match refused {
            None => Ok(Sentence::Added),
            Some(ball) => {
                let line = ball_line(&self.engine.machine, ball)?;
                Ok(Sentence::Refused(line))
            }
        }
    }

    /// Keeps a goal for later.
    fn wait(&mut self, goal: TermId, names: Vec<VariableName>) -> Result<(), AllocError>
        requires whole { IsWhole self.old }
        requires idle { IsIdle self.old.engine }
        requires live { goal < length (terms self.old.engine.machine) }
        ensures kept { OnOk result (IsKeptFor (program_of self.old) (program_of self.new) (term_in self.old goal) (variables names.items (images self.old))) }
        ensures budgets { budgets_of self.new ≡ budgets_of self.old }
        ensures whole { IsWhole self.new }
    {
        let name = self.engine.machine.names.once;
        let clause = kept(&mut self.engine.machine.world.first.heap, name, goal)?;
        let Ok(()) = self.later.push_back(Waiting { clause, names }) else {
            return Err(AllocError);
        };
        Ok(())
    }

    /// Does what a clause is for.
    pub(crate) fn take(
        &mut self,
        source: Source,
        clause: TermId,
        names: Vec<VariableName>,
    ) -> Result<Sentence, AllocError>
        requires whole { IsWhole self.old }
        requires idle { IsIdle self.old.engine }
        requires live { clause < length (terms self.old.engine.machine) }
        requires names { AreNumbered 0 names.items (length (images self.old)) }
        ensures taken { IfOk result (IsTaken (IsAsking self.new) (names_of self.new) (program_of self.old) (program_of self.new)
            (variables names.items (images self.old)) (purpose source (term_in self.old clause))) }
        ensures budgets { budgets_of self.new ≡ budgets_of self.old }
        ensures whole { IsWhole self.new }
    {
        let machine = &self.engine.machine;
        let heap = &machine.world.first.heap;
        match purpose_of(heap, &machine.atoms, source, clause) {
            Purpose::Fact(clause) => self.add(clause),
            Purpose::Initialization(goal) => {
                self.wait(goal, names)?;
                Ok(Sentence::Waits)
            }
            Purpose::Directive(goal) => {
                self.direct(goal)?;
                Ok(Sentence::Directive)
            }
            Purpose::Query(goal) => {
                self.ask(goal, names)?;
                Ok(Sentence::Query)
            }
        }
    }

    /// Does what is asked for by what stands at the place of a text.
    pub(crate) fn take_read(&mut self, source: Source, read: Read) -> Result<Sentence, AllocError>
        requires whole { IsWhole self.old }
        requires idle { IsIdle self.old.engine }
        requires live { IsLiveRead self.old.engine.machine.world.first.heap.now read }
        requires names { IsNumbered (length (images self.old)) read }
        ensures done { IfOk result (IsDone (IsAsking self.new) (names_of self.new) source (program_of self.old) (program_of self.new)
            (read_of (texts self.old) self.old.engine.machine.world.first.heap.now read)) }
        ensures budgets { budgets_of self.new ≡ budgets_of self.old }
        ensures whole { IsWhole self.new }
    {
        match read {
            Read::End => Ok(Sentence::End),
            Read::Syntax { at, resume: _ } => Ok(Sentence::Syntax(at)),
            Read::Clause {
                term,
                names,
                next: _,
            } => self.take(source, term, names),
        }
    }
}
