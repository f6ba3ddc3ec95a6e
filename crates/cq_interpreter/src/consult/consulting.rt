// Clauses of files that are added to the program of a machine.

ghost use Rattle.std.specs.Prelude.{◌≡◌, ◌<◌, [], length, IfOk, OnErr};
ghost use Rattle.cq_machine.specs.Machines.{IsSound, terms, database_of};
ghost use Rattle.cq_interpreter.specs.Consulted.{Consults, KeepsRest};

use crate::consult::adding::add_clause;
use cq_machine::Machine;
use cq_ops::more_names_keep_the_table;
use cq_resolve::program::{changes_are_those_of_the_database, programs_stay_programs};
use cq_term::TermId;
use std::alloc::AllocError;

/// Adds a file's clause behind the others of its predicate, while nothing is left to try; a procedure that it makes is static. The
/// term of the ball, where the clause is refused. An error is want of memory; names and terms may then stay.
pub fn consult(m: &mut Machine, clause: TermId) -> Result<Option<TermId>, AllocError>
    requires sound { IsSound m.old }
    requires choices { m.old.choices ≡ [] }
    requires live { clause < length (terms m.old) }
    ensures consults { IfOk result (Consults m.old clause m.new) }
    ensures err { OnErr result (database_of m.new ≡ database_of m.old) }
    ensures sound { IsSound m.new }
    ensures rest { KeepsRest m.old m.new }
{
    changes_are_those_of_the_database();
    programs_stay_programs();
    more_names_keep_the_table();
    let done = add_clause(
        &mut m.world.first.heap,
        &mut m.atoms,
        &mut m.clauses,
        clause,
    );
    m.atoms.text(m.names.truth);
    done
}
