// How a goal asks for clauses.

ghost use Rattle.std.specs.Prelude.{◌≡◌, ◌<◌, List, None, OnOk, OnErr, length};
ghost use Rattle.spec_numbers.specs.Texts.{Text};
ghost use Rattle.spec_branch.specs.Branch.{Branch};
ghost use Rattle.spec_builtins.specs.Clauses.{HeadBody};
ghost use Rattle.spec_search.specs.Replies.{Place};
ghost use Rattle.cq_control.specs.Open.{AreMarked};
ghost use Rattle.cq_settle.specs.Worlds.{now_of};
ghost use Rattle.cq_branch.specs.Choices.{AreOpen};
ghost use Rattle.cq_branch.specs.Worlds.{value, saved_values, stack, Leads};
ghost use Rattle.cq_catch.specs.Asking.{IsAskedAt, answers};

use cq_branch::{Alternatives, Searching, Untried};
use cq_clauses::Clauses;
use cq_control::{Choices, Continuation};
use cq_resolve::program::{ProgramClause, calls_read_the_database};
use cq_term::{Pred, TermId};
use std::alloc::AllocError;

/// A goal asks for the clauses of a predicate that are a clause, whose term `H:-B` is in the world: they wait as one choice, and the
/// engine comes back to it at once. After want of memory the choices are as they were.
pub fn ask(
    world: &mut Searching,
    choices: &mut Choices<Alternatives>,
    clauses: &mut Clauses<ProgramClause>,
    pred: Pred,
    asked: TermId,
    removes: bool,
    rest: Continuation,
) -> Result<(), AllocError>
    requires marked { AreMarked (saved_values world.old.first world.old.second.saved) choices.old }
    ensures row { OnOk result ((texts : List Text) (p : Place) (behind : List Branch) (c : HeadBody)
        → IsAskedAt texts clauses.old (stack texts clauses.old (saved_values world.old.first world.old.second.saved) choices.old)
        (value world.old.first world.old.second.now) pred asked rest p behind c
        → Leads texts (stack texts clauses.new (saved_values world.new.first world.new.second.saved) choices.new)
        (value world.new.first world.new.second.now) None p behind (answers p removes c)) }
    ensures world { now_of world.new.first ≡ now_of world.old.first }
    ensures lists { world.new.second.now ≡ world.old.second.now }
    ensures clauses { clauses.new ≡ clauses.old }
    ensures marked { AreMarked (saved_values world.new.first world.new.second.saved) choices.new }
    ensures open { (texts : List Text) → AreOpen texts clauses.old (saved_values world.old.first world.old.second.saved) choices.old
        → AreOpen texts clauses.new (saved_values world.new.first world.new.second.saved) choices.new }
    ensures err { OnErr result (choices.new ≡ choices.old) }
    ensures err_saved { OnErr result (saved_values world.new.first world.new.second.saved ≡ saved_values world.old.first world.old.second.saved) }
{
    calls_read_the_database();
    let walk = clauses.walk(pred, None);
    let untried = Untried::new(walk);
    choices.push(world, Alternatives::Matches(asked, untried, removes, rest))?;
    Ok(())
}
