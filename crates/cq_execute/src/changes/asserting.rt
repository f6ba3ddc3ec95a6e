// The row of goals that add a clause.

ghost use Rattle.std.specs.Prelude.{◌≡◌, ◌<◌, length, IfOk, IfSome, OnOk, OnErr};
ghost use Rattle.spec_search.specs.Builtins.{Assert};
ghost use Rattle.spec_search.specs.Database.{Dynamic, clause_added};
ghost use Rattle.cq_goals.specs.Clauses.{IsOf};
ghost use Rattle.cq_resolve.specs.Database.{as_end};
ghost use Rattle.cq_term.specs.Meaning.{at};
ghost use Rattle.cq_term.specs.Shown.{arguments};
ghost use Rattle.cq_term.specs.Trees.{tree};
ghost use Rattle.cq_machine.specs.Machines.{terms, database_of, IsSound, StillStands};
ghost use Rattle.cq_machine.specs.Stepping.{row_of, CanGo, OnRaises};
ghost use Rattle.cq_catch.specs.Revised.{head_body_of};
ghost use Rattle.cq_execute.specs.Changing.{ChangesTo, KeepsAllButClauses};

use cq_branch::more_may_be_built;
use cq_built::BuiltinFault;
use cq_catch::matching::choices_outlast_changes;
use cq_catch::revise::check_change;
use cq_choices::{names_are_of_terms, names_may_be_added};
use cq_clauses::{End, Kind};
use cq_control::Continuation;
use cq_goals::declarations::CheckedClause;
use cq_machine::{Machine, Step};
use cq_ops::more_names_keep_the_table;
use cq_resolve::program::{changes_are_those_of_the_database, programs_stay_programs};
use cq_term::TermId;
use std::alloc::AllocError;

/// `asserta(C)` and `assertz(C)`: the clause is added at an end of those of its predicate, and a procedure that it makes is dynamic.
/// Calls that have begun do not see it. An error is want of memory; names and terms may then stay.
pub fn assert(
    m: &mut Machine,
    end: End,
    goal: TermId,
    rest: Continuation,
) -> Result<Step, AllocError>
    requires sound { IsSound m.old }
    requires goal { goal < length (terms m.old) }
    requires one { length (arguments (at (terms m.old) goal)) ≡ 1 }
    requires rest { rest < length m.old.world.second.now }
    ensures row { IfOk result (ChangesTo m.old m.new goal rest (row_of (Assert (as_end end)))) }
    ensures goes { IfOk result (CanGo m.new) }
    ensures raises { IfOk result (λ s. OnRaises s (m.new ≡ m.old)) }
    ensures stands { StillStands m.old m.new }
    ensures sound { IsSound m.new }
    ensures keeps { KeepsAllButClauses m.old m.new }
    ensures err { OnErr result (database_of m.new ≡ database_of m.old) }
{
    let clause = m.world.first.heap.arg(goal, 0);
    let world = &m.world;
    match check_change(&world.first.heap, &m.atoms, &m.clauses, clause) {
        Ok(checked) => {
            add_checked(m, checked, end)?;
            Ok(Step::Goes(rest))
        }
        Err(fault) => match fault {
            BuiltinFault::Error(error) => Ok(Step::Raises(error)),
            BuiltinFault::NoMemory => Err(AllocError),
        },
    }
}

/// Adds a clause that may be added.
fn add_checked(m: &mut Machine, checked: CheckedClause, end: End) -> Result<(), AllocError>
    requires sound { IsSound m.old }
    requires head { checked.parts.head < length (terms m.old) }
    requires body { IfSome checked.parts.body (λ b. b < length (terms m.old)) }
    requires predicate { IsOf m.old.atoms checked.predicate (tree m.old.atoms (terms m.old) checked.parts.head) }
    ensures added { OnOk result (database_of m.new
        ≡ clause_added (as_end end) Dynamic (head_body_of m.old.atoms (terms m.old) checked.parts) (database_of m.old)) }
    ensures stands { StillStands m.old m.new }
    ensures sound { IsSound m.new }
    ensures keeps { KeepsAllButClauses m.old m.new }
    ensures lists { m.new.world.second ≡ m.old.world.second }
    ensures err { OnErr result (database_of m.new ≡ database_of m.old) }
{
    changes_are_those_of_the_database();
    programs_stay_programs();
    more_names_keep_the_table();
    names_may_be_added();
    more_may_be_built();
    choices_outlast_changes();
    names_are_of_terms(&m.world, &m.choices);
    let added = cq_catch::revise::add(
        &mut m.world.first.heap,
        &mut m.atoms,
        &mut m.clauses,
        checked,
        end,
        Kind::Dynamic,
    );
    m.atoms.text(m.names.truth);
    added
}
