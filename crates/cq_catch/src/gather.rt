//! Copies that a findall gathers.
#![tactic(auto)]

// The mark of a findall.

ghost use Rattle.std.specs.Prelude.{◌≡◌, ℕ, List, None, Some, OnOk, OnErr, length};
ghost use Rattle.spec_numbers.specs.Texts.{Text};
ghost use Rattle.spec_search.specs.Database.{Database};
ghost use Rattle.spec_search.specs.Search.{Search};
ghost use Rattle.cq_control.specs.Heights.{total};
ghost use Rattle.cq_control.specs.Items.{items_at};
ghost use Rattle.cq_control.specs.Open.{AreMarked};
ghost use Rattle.spec_engine.specs.Cells.{size};
ghost use Rattle.cq_resolve.specs.Database.{Program};
ghost use Rattle.cq_term.specs.Trees.{KnowsTerms};
ghost use Rattle.cq_branch.specs.Choices.{AreOpen};
ghost use Rattle.cq_branch.specs.Worlds.{value, saved_values, stack, Stands, IsWorking, Arrives};
ghost use Rattle.cq_catch.specs.Gathering.{IsMark, GathersThere, GathersMore};

use cq_branch::{Alternatives, Searching};
use cq_control::{Choices, Continuation};
use cq_resolve::stored::StoredTerm;
use spec_engine::machine::Cell;
use std::alloc::AllocError;

/// The mark of a findall is in front: a copy of its template is gathered in the choice at its height, and the engine comes back.
/// After want of memory nothing has changed.
pub fn collect(
    world: &Searching,
    choices: &mut Choices<Alternatives>,
    front: Continuation,
) -> Result<(), AllocError>
    requires marked { AreMarked (saved_values world.now.first world.now.second.saved) choices.old }
    requires works { IsWorking (saved_values world.now.first world.now.second.saved) choices.old (value world.now.first world.now.second.now) (Some front) }
    requires mark { IsMark (items_at world.now.second.now front) }
    ensures comes { OnOk result ((steps : ℕ) (texts : List Text) (v : Program) (db : Database) (n : ℕ) (s : Search)
        → Stands texts v db n (saved_values world.now.first world.now.second.saved) choices.old (value world.now.first world.now.second.now) (Some front) s
        → Arrives steps texts v db n (saved_values world.now.first world.now.second.saved) choices.new (value world.now.first world.now.second.now) None s) }
    ensures as_many { OnOk result ((texts : List Text) (v : Program)
        → total size (stack texts v (saved_values world.now.first world.now.second.saved) choices.new)
        ≡ total size (stack texts v (saved_values world.now.first world.now.second.saved) choices.old)) }
    ensures err { OnErr result (choices.new ≡ choices.old) }
    ensures open { (texts : List Text) (v : Program) → KnowsTerms texts world.now.first.heap.now.terms
        → AreOpen texts v (saved_values world.now.first world.now.second.saved) choices.old
        → AreOpen texts v (saved_values world.now.first world.now.second.saved) choices.new }
    ensures marked { AreMarked (saved_values world.now.first world.now.second.saved) choices.new }
{
    let Some((cell, _rest)) = world.second.first(front) else {
        unreachable!();
    };
    let Cell::Collect(height, template) = cell else {
        unreachable!();
    };
    let copy = StoredTerm::of(&world.first.heap, template)?;
    gather_at(choices, height, copy)
}

/// One more copy is gathered in the choice with so many older ones.
fn gather_at(
    choices: &mut Choices<Alternatives>,
    height: usize,
    copy: StoredTerm,
) -> Result<(), AllocError>
    requires { GathersThere choices.old height }
    ensures ok { OnOk result (GathersMore choices.old height copy choices.new) }
    ensures err { OnErr result (choices.new ≡ choices.old) }
{
    let Alternatives::Gathers(list, mut copies, rest) = choices.replace_at(
        height,
        Alternatives::Barrier,
    ) else {
        unreachable!();
    };
    let pushed = copies.push(copy);
    choices.replace_at(height, Alternatives::Gathers(list, copies, rest));
    pushed
}
