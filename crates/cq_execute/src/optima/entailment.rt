// The row of a goal that asks whether constraints are entailed.

ghost use Rattle.std.specs.Prelude.{◌≡◌, ◌<◌, length, IfOk, IfErr, OnErr};
ghost use Rattle.spec_search.specs.Builtins.{Entailed};
ghost use Rattle.cq_questions.specs.Members.{IsAnswer};
ghost use Rattle.cq_questions.specs.Stops.{AtStates, MembersStop};
ghost use Rattle.cq_questions.specs.Values.{AtValues};
ghost use Rattle.cq_built.specs.Splitting.{AreLive};
ghost use Rattle.cq_term.specs.Meaning.{at};
ghost use Rattle.cq_term.specs.Shown.{arguments};
ghost use Rattle.cq_term.specs.Trees.{trees};
ghost use Rattle.cq_machine.specs.Machines.{terms, IsSound, HasSameProgram, StillStands};
ghost use Rattle.cq_machine.specs.Stepping.{row_of, IsSelectedSomewhere, CanGo, OnRaises};
ghost use Rattle.cq_execute.specs.Asked.{TakesStep, StopsStep};
ghost use Rattle.cq_execute.specs.Machines.{IsUnchanged};

use crate::optima::values::not_linear;
use cq_branch::goals_succeed_or_fail;
use cq_built::BuiltinFault;
use cq_control::Continuation;
use cq_goals::check_question;
use cq_machine::{Machine, Step};
use cq_questions::Entailment;
use cq_store::store::StoreFault;
use cq_term::TermId;

/// `entailed(C)`.
pub fn entailed(m: &mut Machine, goal: TermId, rest: Continuation) -> Result<Step, StoreFault>
    requires sound { IsSound m.old }
    requires selected { IsSelectedSomewhere m.old goal rest }
    requires goal { goal < length (terms m.old) }
    requires one { length (arguments (at (terms m.old) goal)) ≡ 1 }
    requires rest { rest < length m.old.world.second.now }
    ensures row { IfOk result (TakesStep m.old m.new goal rest (row_of Entailed)) }
    ensures stop { IfErr result (StopsStep m.old goal rest (row_of Entailed)) }
    ensures goes { IfOk result (CanGo m.new) }
    ensures raises { IfOk result (λ s. OnRaises s (StillStands m.old m.new)) }
    ensures sound { IsSound m.new }
    ensures program { HasSameProgram m.old m.new }
    ensures err { OnErr result (StillStands m.old m.new) }
{
    goals_succeed_or_fail();
    let constraint = m.world.first.heap.arg(goal, 0);
    let world = &m.world;
    match check_question(&world.first.heap, &m.atoms, constraint) {
        Ok(members) => match ask_members(m, &members) {
            Ok(answer) => match answer {
                Entailment::Entailed => Ok(Step::Goes(rest)),
                Entailment::Broken => Ok(Step::Back),
                Entailment::Waits(member) => Ok(Step::Raises(not_linear(member))),
            },
            Err(fault) => Err(fault),
        },
        Err(fault) => match fault {
            BuiltinFault::Error(error) => Ok(Step::Raises(error)),
            BuiltinFault::NoMemory => Err(StoreFault::NoMemory),
        },
    }
}

/// Whether the linear constraints of the machine's world entail the members.
fn ask_members(m: &mut Machine, members: &[TermId]) -> Result<Entailment, StoreFault>
    requires sound { IsSound m.old }
    requires live { AreLive (terms m.old) members.now }
    ensures answer { IfOk result (λ r. AtValues m.old.world.first.store.told (λ fixed. IsAnswer m.old.atoms (terms m.old) m.old.world.first.store.told fixed
        (trees m.old.atoms (terms m.old) members.now) r)) }
    ensures stop { IfErr result (λ f. AtStates m.old.world.first.store.told
        (λ st. MembersStop m.old.world.first.store.pivots st (trees m.old.atoms (terms m.old) members.now) f)) }
    ensures unchanged { IsUnchanged m.old m.new }
    ensures sound { IsSound m.new }
{
    cq_questions::entailed(&mut m.world.first, &m.atoms, members)
}
