// What a selected goal comes to.

ghost use Rattle.std.specs.Prelude.{◌≡◌, ◌<◌, ℕ, List, length};
ghost use Rattle.spec_syntax.specs.Trees.{Tree};
ghost use Rattle.spec_branch.specs.Branch.{Branch};
ghost use Rattle.spec_search.specs.Replies.{Place, succeeds_if};
ghost use Rattle.cq_machine.specs.Stepping.{IsSelectedAt, IsStep, CanGo};
ghost use Rattle.cq_machine.specs.declared.machine.Machine.{Machine};

use cq_branch::goals_succeed_or_fail;
use cq_built::BuiltinError;
use cq_control::Continuation;
use cq_frac::Pair;
use cq_term::TermId;

/// What a selected goal comes to.
#[derive(Clone, Copy)]
pub enum Step {
    /// The engine goes on with a continuation.
    Goes(Continuation),
    /// The engine comes back to its newest choice.
    Back,
    /// The goal raises an error.
    Raises(BuiltinError),
    /// The goal throws a copy of the term.
    Throws(TermId),
    /// The arithmetic of the goal refuses two numbers.
    Refuses(Pair),
}

impl Step {
    /// A goal that has nothing more to do goes on behind it, as `true`, or it fails, as `fail`.
    pub fn succeed_if(holds: bool, rest: Continuation) -> Step
        ensures row { (m : Machine) (goal height : ℕ) (p : Place) (behind : List Branch) (g : Tree)
            → IsSelectedAt m goal height rest p behind g → IsStep m result p behind (succeeds_if holds p) }
        ensures goes { (m : Machine) → rest < length m.world.second.now → CanGo m result }
    {
        goals_succeed_or_fail();
        if holds { Step::Goes(rest) } else { Step::Back }
    }
}
