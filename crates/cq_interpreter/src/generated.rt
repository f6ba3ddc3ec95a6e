// The query of a number on an engine without a query.

ghost use Rattle.std.specs.Prelude.{◌≡◌, ◌<◌, ◌≤◌, [], length, IfOk, OnOk};
ghost use Rattle.spec_numbers.specs.Prefixes.{IsPrefix};
ghost use Rattle.spec_command.specs.Query.{query, variables};
ghost use Rattle.cq_machine.specs.Machines.{terms, database_of};
ghost use Rattle.cq_engine.specs.Seeking.{IsKept};
ghost use Rattle.cq_engine.specs.Events.{IsIdle};
ghost use Rattle.cq_interpreter.specs.Toplevels.{images_of, read_in};

use crate::generation::query;
use cq_engine::events::Engine;
use cq_ops::more_names_keep_the_table;
use cq_resolve::program::{changes_are_those_of_the_database, programs_stay_programs};
use cq_resolve::stored::new_variables;
use cq_term::TermId;
use std::alloc::AllocError;

/// The query of a number, whose variables are then all that there are. Names stay also where memory was wanting.
pub(crate) fn query_on(engine: &mut Engine, number: usize) -> Result<TermId, AllocError>
    requires idle { IsIdle engine.old }
    requires empty { images_of engine.old ≡ [] }
    requires some { 0 < number }
    requires few { number ≤ 200 }
    ensures live { IfOk result (λ id. id < length (terms engine.new.machine)) }
    ensures built { IfOk result (λ id. read_in engine.new id ≡ query number) }
    ensures images { OnOk result (length (images_of engine.new) ≡ variables number) }
    ensures idle { OnOk result (IsIdle engine.new) }
    ensures atoms { IsPrefix engine.old.machine.atoms engine.new.machine.atoms }
    ensures program { database_of engine.new.machine ≡ database_of engine.old.machine }
    ensures pivots { engine.new.machine.world.first.store.pivots ≡ engine.old.machine.world.first.store.pivots }
    ensures kept { IsKept engine.new.machine }
{
    changes_are_those_of_the_database();
    programs_stay_programs();
    more_names_keep_the_table();
    let m = &mut engine.machine;
    new_variables(&mut m.world.first.heap, number + 1)?;
    let built = query(&mut m.world.first.heap, &mut m.atoms, number);
    m.atoms.text(m.names.truth);
    built
}
