// The row of goals that make procedures dynamic.

ghost use Rattle.std.specs.Prelude.{◌≡◌, ◌<◌, All, length, map, IfOk, OnOk, OnErr};
ghost use Rattle.spec_search.specs.Builtins.{DynamicGoal};
ghost use Rattle.spec_search.specs.Database.{all_declared};
ghost use Rattle.cq_built.specs.Errors.{indicator_of};
ghost use Rattle.cq_term.specs.Meaning.{at};
ghost use Rattle.cq_term.specs.Shown.{arguments};
ghost use Rattle.cq_machine.specs.Machines.{terms, database_of, IsSound, StillStands};
ghost use Rattle.cq_machine.specs.Stepping.{row_of, CanGo, OnRaises};
ghost use Rattle.cq_execute.specs.Changing.{ChangesTo, KeepsAllButClauses};

use cq_built::BuiltinFault;
use cq_catch::matching::choices_outlast_changes;
use cq_catch::revise::check_declared;
use cq_control::Continuation;
use cq_machine::{Machine, Step};
use cq_term::{Pred, TermId};
use std::alloc::AllocError;

/// `dynamic(P)`: the procedures of the predicates are made dynamic, and keep their clauses. An error is want of memory; none of them
/// was then changed.
pub fn declare_dynamic(
    m: &mut Machine,
    goal: TermId,
    rest: Continuation,
) -> Result<Step, AllocError>
    requires sound { IsSound m.old }
    requires goal { goal < length (terms m.old) }
    requires one { length (arguments (at (terms m.old) goal)) ≡ 1 }
    requires rest { rest < length m.old.world.second.now }
    ensures row { IfOk result (ChangesTo m.old m.new goal rest (row_of DynamicGoal)) }
    ensures goes { IfOk result (CanGo m.new) }
    ensures raises { IfOk result (λ s. OnRaises s (m.new ≡ m.old)) }
    ensures stands { StillStands m.old m.new }
    ensures sound { IsSound m.new }
    ensures keeps { KeepsAllButClauses m.old m.new }
    ensures err { OnErr result (database_of m.new ≡ database_of m.old) }
{
    let declared = m.world.first.heap.arg(goal, 0);
    let world = &m.world;
    match check_declared(&world.first.heap, &m.atoms, declared) {
        Ok(predicates) => {
            declare_all(m, &predicates)?;
            Ok(Step::Goes(rest))
        }
        Err(fault) => match fault {
            BuiltinFault::Error(error) => Ok(Step::Raises(error)),
            BuiltinFault::NoMemory => Err(AllocError),
        },
    }
}

/// Makes the procedures of these predicates dynamic.
fn declare_all(m: &mut Machine, predicates: &[Pred]) -> Result<(), AllocError>
    requires sound { IsSound m.old }
    requires known { All (λ p. p.name < length m.old.atoms) predicates.now }
    ensures declared { OnOk result (database_of m.new ≡ all_declared (map (indicator_of m.old.atoms) predicates.now) (database_of m.old)) }
    ensures stands { StillStands m.old m.new }
    ensures sound { IsSound m.new }
    ensures keeps { KeepsAllButClauses m.old m.new }
    ensures lists { m.new.world.second ≡ m.old.world.second }
    ensures err { OnErr result (database_of m.new ≡ database_of m.old) }
{
    choices_outlast_changes();
    cq_catch::revise::declare_dynamic(&mut m.clauses, predicates)
}
