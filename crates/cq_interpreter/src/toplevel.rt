// An engine with what an interpreter keeps beside it.

ghost use Rattle.std.specs.Prelude.{◌≡◌, Some, slice_get, IfOk, OnOk};
ghost use Rattle.cq_machine.specs.Machines.{IsSound, database_of};
ghost use Rattle.cq_engine.specs.Seeking.{IsKept};

use cq_choices::names_may_be_added;
use cq_engine::events::Engine;
use cq_machine::Machine;
use cq_ops::more_names_keep_the_table;
use cq_read::names::VariableName;
use cq_resolve::program::{changes_are_those_of_the_database, programs_stay_programs};
use cq_resolve::stored::Clause;
use cq_term::atoms::{Atom, numbers_keep_their_texts};
use std::alloc::{AllocError, Global};
use std::collections::VecDeque;

/// A goal that waits for the end of the file, and the names of its variables: the goal is the body of a clause whose head has all of
/// them in their order.
#[derive(Drop)]
pub struct Waiting {
    pub clause: Clause,
    pub names: Vec<VariableName>,
}

/// An engine; how many goals each query may select and how many answers it may write; the names of the variables of the query that
/// runs; the goals that wait; and the atom `freeze`.
#[derive(Drop)]
pub struct Toplevel {
    pub engine: Engine,
    pub steps: u64,
    pub answers: u64,
    pub names: Vec<VariableName>,
    pub later: VecDeque<Waiting>,
    pub freeze: Atom,
}

/// The number of a text among the names of a machine.
fn intern(machine: &mut Machine, text: &str) -> Result<Atom, AllocError>
    requires { IsSound machine.old }
    ensures name { IfOk result (λ name. slice_get machine.new.atoms name ≡ Some text.now) }
    ensures kept { OnOk result (IsKept machine.new) }
    ensures program { OnOk result (database_of machine.new ≡ database_of machine.old) }
    ensures pivots { machine.new.world.first.store.pivots ≡ machine.old.world.first.store.pivots }
{
    numbers_keep_their_texts();
    changes_are_those_of_the_database();
    programs_stay_programs();
    more_names_keep_the_table();
    names_may_be_added();
    let name = machine.atoms.intern(text)?;
    Ok(name)
}

impl Toplevel {
    ghost use Rattle.std.specs.Prelude.{◌≡◌, [], IfOk};
    ghost use Rattle.cq_machine.specs.Machines.{database_of};
    ghost use Rattle.cq_engine.specs.Events.{IsIdle};
    ghost use Rattle.cq_session.specs.Sentences.{budgets_within};
    ghost use Rattle.cq_interpreter.specs.Toplevels.{IsWhole, program_of, budgets_of};

    /// An interpreter over an engine without a query.
    pub(crate) fn over(
        alloc: Global,
        engine: Engine,
        steps: u64,
        answers: u64,
    ) -> Result<Toplevel, AllocError>
        requires { IsIdle engine }
        ensures program { IfOk result (λ t. program_of t ≡ record { database = database_of engine.machine; later = [] }) }
        ensures budgets { IfOk result (λ t. budgets_of t ≡ budgets_within steps engine.machine.world.first.store.pivots answers) }
        ensures whole { IfOk result IsWhole }
    {
        let mut engine = engine;
        let freeze = intern(&mut engine.machine, "freeze")?;
        Ok(Toplevel {
            engine,
            steps,
            answers,
            names: Vec::new(alloc),
            later: VecDeque::new(alloc),
            freeze,
        })
    }
}
