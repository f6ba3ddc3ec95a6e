// What `catch` becomes.

ghost use Rattle.std.specs.Prelude.{◌≡◌, ◌<◌, ℕ, List, length, Some, IfOk, OnOk, OnErr};
ghost use Rattle.spec_numbers.specs.Texts.{Text};
ghost use Rattle.spec_syntax.specs.Trees.{Tree};
ghost use Rattle.spec_branch.specs.Branch.{Branch};
ghost use Rattle.spec_search.specs.Control.{catch_row};
ghost use Rattle.spec_search.specs.Replies.{Place};
ghost use Rattle.cq_control.specs.Open.{AreMarked};
ghost use Rattle.cq_resolve.specs.Database.{Program};
ghost use Rattle.cq_settle.specs.Worlds.{now_of};
ghost use Rattle.cq_branch.specs.Choices.{LeavesAlso};
ghost use Rattle.cq_branch.specs.Lists.{KeepsLists};
ghost use Rattle.cq_branch.specs.Worlds.{value, saved_values, stack, ReadsAs, Selected, Leads};
ghost use Rattle.cq_branch.specs.declared.alternatives.Alternatives.TheVariants.{Catches};

use crate::alternatives::{Alternatives, Searching};
use crate::cells::cell_before;
use cq_control::{Choices, Continuation};
use cq_term::TermId;
use spec_engine::machine::Cell;
use std::alloc::AllocError;

/// `catch(G,C,R)` becomes `call(G)`, before the end of the catch. It leaves a choice of no branch, which keeps the world of the
/// call for a ball. After want of memory the choices are as they were.
pub fn catch(
    world: &mut Searching,
    choices: &mut Choices<Alternatives>,
    goal: TermId,
    catcher: TermId,
    recovery: TermId,
    rest: Continuation,
) -> Result<Continuation, AllocError>
    requires rest { rest < length world.old.second.now }
    requires marked { AreMarked (saved_values world.old.first world.old.second.saved) choices.old }
    ensures row { IfOk result (λ k. (texts : List Text) (v : Program) (height : ℕ) (p : Place) (behind : List Branch) (g c r : Tree)
        → Selected texts (stack texts v (saved_values world.old.first world.old.second.saved) choices.old)
        (value world.old.first world.old.second.now) height rest p behind
        → ReadsAs texts (now_of world.old.first) p.state goal g → ReadsAs texts (now_of world.old.first) p.state catcher c
        → ReadsAs texts (now_of world.old.first) p.state recovery r
        → Leads texts (stack texts v (saved_values world.new.first world.new.second.saved) choices.new)
        (value world.new.first world.new.second.now) (Some k) p behind (catch_row p g c r)) }
    ensures world { now_of world.new.first ≡ now_of world.old.first }
    ensures there { IfOk result (λ k. k < length world.new.second.now) }
    ensures keeps { KeepsLists world.old.second.now world.new.second.now }
    ensures choices { OnOk result (LeavesAlso (saved_values world.old.first world.old.second.saved) choices.old
        (value world.new.first world.new.second.now) (Catches rest) (saved_values world.new.first world.new.second.saved) choices.new) }
    ensures marked { AreMarked (saved_values world.new.first world.new.second.saved) choices.new }
    ensures err { OnErr result (choices.new ≡ choices.old) }
    ensures err_saved { OnErr result (saved_values world.new.first world.new.second.saved ≡ saved_values world.old.first world.old.second.saved) }
{
    let top = choices.height();
    let end = cell_before(
        &mut world.second,
        Cell::CatchEnd(top, catcher, recovery),
        rest,
    )?;
    let all = cell_before(&mut world.second, Cell::Call(goal), end)?;
    choices.push(world, Alternatives::Catches(rest))?;
    Ok(all)
}
