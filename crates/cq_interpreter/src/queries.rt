// Queries and directives that begin.

ghost use Rattle.std.specs.Prelude.{◌≡◌, ◌<◌, ◌+◌, length, IfOk, OnOk};
ghost use Rattle.spec_text.specs.Later.{tree_later};
ghost use Rattle.spec_search.specs.Search.{start};
ghost use Rattle.spec_transcript.specs.Purposes.{once};
ghost use Rattle.cq_resolve.specs.StoredValue.{HaveNamesBelow};
ghost use Rattle.cq_machine.specs.Machines.{HasSameProgram, terms, database_of};
ghost use Rattle.cq_engine.specs.Seeking.{IsKept};
ghost use Rattle.cq_engine.specs.Events.{IsIdle};
ghost use Rattle.cq_interpreter.specs.Numbered.{AreNumbered};
ghost use Rattle.cq_interpreter.specs.Toplevels.{IsWhole, IsAsking, asked, images, images_of, program_of, budgets_of, read_in, term_in};

use crate::toplevel::{Toplevel, Waiting};
use cq_engine::events::Engine;
use cq_read::names::VariableName;
use cq_term::TermId;
use std::alloc::AllocError;

/// A goal as it runs once.
fn once(engine: &mut Engine, goal: TermId) -> Result<TermId, AllocError>
    requires idle { IsIdle engine.old }
    requires live { goal < length (terms engine.old.machine) }
    ensures live { IfOk result (λ id. id < length (terms engine.new.machine)) }
    ensures once { IfOk result (λ id. read_in engine.new id ≡ once (read_in engine.old goal)) }
    ensures idle { OnOk result (IsIdle engine.new) }
    ensures images { OnOk result (images_of engine.new ≡ images_of engine.old) }
    ensures same { HasSameProgram engine.old.machine engine.new.machine }
    ensures kept { IsKept engine.new.machine }
{
    let name = engine.machine.names.once;
    let id = engine.machine.world.first.heap.compound(name, &[goal])?;
    Ok(id)
}

/// The goal that waits, under the next variables of a heap.
pub(crate) fn restored(engine: &mut Engine, waiting: &Waiting) -> Result<TermId, AllocError>
    requires idle { IsIdle engine.old }
    requires names { HaveNamesBelow (length engine.old.machine.atoms) waiting.now.clause }
    ensures live { IfOk result (λ id. id < length (terms engine.new.machine)) }
    ensures restored { IfOk result (λ id. read_in engine.new id
        ≡ tree_later (length (images_of engine.old)) (asked engine.old.machine.atoms waiting.now).goal) }
    ensures idle { OnOk result (IsIdle engine.new) }
    ensures images { OnOk result (length (images_of engine.new) ≡ length (images_of engine.old) + waiting.now.clause.variables) }
    ensures same { HasSameProgram engine.old.machine engine.new.machine }
    ensures kept { IsKept engine.new.machine }
{
    let heap = &mut engine.machine.world.first.heap;
    let ids = waiting.clause.rename(heap)?;
    Ok(ids.1)
}

impl Toplevel {
    /// Begins a goal of which all answers are asked for, with these names of variables.
    pub(crate) fn ask(&mut self, goal: TermId, names: Vec<VariableName>) -> Result<(), AllocError>
        requires whole { IsWhole self.old }
        requires idle { IsIdle self.old.engine }
        requires live { goal < length (terms self.old.engine.machine) }
        requires names { AreNumbered 0 names.items (length (images self.old)) }
        ensures asking { OnOk result
            (IsAsking self.new (start (database_of self.old.engine.machine) (term_in self.old goal) (length (images self.old)))) }
        ensures names { OnOk result (self.new.names.items ≡ names.items) }
        ensures program { program_of self.new ≡ program_of self.old }
        ensures budgets { budgets_of self.new ≡ budgets_of self.old }
        ensures whole { IsWhole self.new }
    {
        self.engine.start(goal, self.steps)?;
        self.names = names;
        Ok(())
    }

    /// Begins a goal that runs once.
    pub(crate) fn direct(&mut self, goal: TermId) -> Result<(), AllocError>
        requires whole { IsWhole self.old }
        requires idle { IsIdle self.old.engine }
        requires live { goal < length (terms self.old.engine.machine) }
        ensures asking { OnOk result
            (IsAsking self.new (start (database_of self.old.engine.machine) (once (term_in self.old goal)) (length (images self.old)))) }
        ensures program { program_of self.new ≡ program_of self.old }
        ensures budgets { budgets_of self.new ≡ budgets_of self.old }
        ensures whole { IsWhole self.new }
    {
        let alloc = self.engine.machine.world.first.heap.alloc();
        let goal = once(&mut self.engine, goal)?;
        self.ask(goal, Vec::new(alloc))
    }
}
