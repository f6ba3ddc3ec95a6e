// The goal in front is executed, and named where it raises an error.

ghost use Rattle.std.specs.Prelude.{◌≡◌, ◌<◌, ℕ, Some, length, IfOk, IfErr, IfSome, OnErr};
ghost use Rattle.spec_search.specs.Search.{Search};
ghost use Rattle.cq_machine.specs.Machines.{IsSound, StillStands};
ghost use Rattle.cq_machine.specs.Stepping.{CanGo, OnRaises};
ghost use Rattle.cq_engine.specs.Seeking.{IsGoing, StandsFor};
ghost use Rattle.cq_execute.specs.Executions.{KeepsWalks, HasSameDatabase};
ghost use Rattle.cq_engine.specs.Raised.{IsNumbered};
ghost use Rattle.cq_engine.specs.Fronts.{IsGoal};
ghost use Rattle.cq_engine.specs.Turning.{CallsAt, HasGoal, HasInFront, NamesNext, Reached, MayStop};

use crate::events::raiser::{Raiser, raiser_of};
use cq_control::Continuation;
use cq_execute::{Executed, execute, execute_call};
use cq_machine::Machine;
use cq_predicates::table::Builtin;
use cq_store::store::StoreFault;
use spec_engine::machine::Cell;

/// Executes the goal in front, which calls a built-in predicate that may be known. An error is the stop of the query, or want of
/// memory.
pub(crate) fn execute_cell(
    m: &mut Machine,
    k: Continuation,
    cell: Cell,
    known: Option<Builtin>,
    rest: Continuation,
) -> Result<Executed, StoreFault>
    requires sound { IsSound m.old }
    requires going { IsGoing m.old (Some k) }
    requires front { HasInFront m.old k cell rest }
    requires goal { IsGoal cell }
    requires known { IfSome known (CallsAt m.old k) }
    ensures row { IfOk result (λ x. (n : ℕ) (s : Search) → StandsFor m.old n (Some k) s → Reached m.old m.new n rest x s) }
    ensures stop { IfErr result (λ f. (n : ℕ) (s : Search) → StandsFor m.old n (Some k) s → MayStop m.old n rest f s) }
    ensures goes { IfOk result (λ x. CanGo m.new x.step) }
    ensures raises { IfOk result (λ x. OnRaises x.step (StillStands m.old m.new)) }
    ensures sound { IsSound m.new }
    ensures program { KeepsWalks m.old m.new }
    ensures err { OnErr result (StillStands m.old m.new) }
    ensures err_database { OnErr result (HasSameDatabase m.old m.new) }
{
    match cell {
        Cell::Goal(goal, height) => match execute(m, known, goal, height, rest) {
            Ok(executed) => Ok(executed),
            Err(fault) => Err(fault),
        },
        Cell::Call(called) => match execute_call(m, called, rest) {
            Ok(executed) => Ok(executed),
            Err(_) => Err(StoreFault::NoMemory),
        },
        _ => unreachable!(),
    }
}

/// How an error names the goal in front. A goal that raised one is there still.
pub(crate) fn raiser_before(m: &Machine, k: Continuation) -> Raiser
    requires sound { IsSound m.now }
    requires going { IsGoing m.now (Some k) }
    requires goal { HasGoal m.now k }
    ensures names { NamesNext m.now k result }
    ensures numbered { IsNumbered m.now.atoms result }
{
    let Some((cell, rest)) = m.world.second.first(k) else {
        unreachable!()
    };
    raiser_in(m, k, cell, rest)
}

/// How an error names the goal of a cell, which is in front of a continuation.
fn raiser_in(m: &Machine, k: Continuation, cell: Cell, rest: Continuation) -> Raiser
    requires sound { IsSound m.now }
    requires going { IsGoing m.now (Some k) }
    requires front { HasInFront m.now k cell rest }
    requires goal { IsGoal cell }
    ensures names { NamesNext m.now k result }
    ensures numbered { IsNumbered m.now.atoms result }
{
    match cell {
        Cell::Goal(goal, _) => raiser_of(&m.world.first.heap, &m.atoms, goal),
        Cell::Call(_) => Raiser::Caller,
        _ => unreachable!(),
    }
}
