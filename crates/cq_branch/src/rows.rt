// What conjunction, if-then, negation, once and cut become.

ghost use Rattle.std.specs.Prelude.{◌≡◌, ◌<◌, ℕ, List, length, Some, IfOk, OnOk, OnErr};
ghost use Rattle.spec_numbers.specs.Texts.{Text};
ghost use Rattle.spec_builtins.specs.Built.{atom};
ghost use Rattle.spec_syntax.specs.Trees.{Tree};
ghost use Rattle.spec_branch.specs.Branch.{Branch};
ghost use Rattle.spec_search.specs.Control.{and_row, if_then_row, not_row, once_row, cut_row};
ghost use Rattle.spec_search.specs.Replies.{Place};
ghost use Rattle.spec_engine.specs.Cells.{Stack};
ghost use Rattle.cq_control.specs.Open.{AreMarked, last};
ghost use Rattle.cq_resolve.specs.Database.{Program};
ghost use Rattle.cq_settle.specs.Contents.{Contents};
ghost use Rattle.cq_settle.specs.Worlds.{now_of};
ghost use Rattle.cq_branch.specs.Choices.{LeavesMore, KeepsOlder};
ghost use Rattle.cq_branch.specs.Lists.{KeepsLists};
ghost use Rattle.cq_branch.specs.Worlds.{value, saved_values, stack, ReadsAs, Selected, Leads};

use crate::alternatives::{Alternatives, Searching};
use crate::cells::{cell_before, goal_before, leave, one_more, then_before};
use cq_control::{Choices, Continuation};
use cq_term::TermId;
use spec_engine::machine::Cell;
use std::alloc::AllocError;

/// `A,B` becomes A, then B.
pub fn and(
    world: &mut Searching,
    left: TermId,
    right: TermId,
    height: usize,
    rest: Continuation,
) -> Result<Continuation, AllocError>
    requires left { left < length world.old.first.heap.now.terms }
    requires right { right < length world.old.first.heap.now.terms }
    requires rest { rest < length world.old.second.now }
    ensures row { IfOk result (λ k. (texts : List Text) (choices : Stack Contents) (p : Place) (behind : List Branch) (a b : Tree)
        → Selected texts choices (value world.old.first world.old.second.now) height rest p behind
        → ReadsAs texts (now_of world.old.first) p.state left a → ReadsAs texts (now_of world.old.first) p.state right b
        → Leads texts choices (value world.new.first world.new.second.now) (Some k) p behind (and_row p a b)) }
    ensures world { now_of world.new.first ≡ now_of world.old.first }
    ensures there { IfOk result (λ k. k < length world.new.second.now) }
    ensures keeps { KeepsLists world.old.second.now world.new.second.now }
    ensures saved { saved_values world.new.first world.new.second.saved ≡ saved_values world.old.first world.old.second.saved }
{
    let known = &world.first;
    let behind = goal_before(&known.heap, &mut world.second, right, height, rest)?;
    let both = goal_before(&known.heap, &mut world.second, left, height, behind)?;
    Ok(both)
}

/// `C->T` with one child: C, a cut of the choices since, and T.
pub fn if_then(
    world: &mut Searching,
    choices: &Choices<Alternatives>,
    condition: TermId,
    goal: TermId,
    height: usize,
    rest: Continuation,
) -> Result<Continuation, AllocError>
    requires condition { condition < length world.old.first.heap.now.terms }
    requires goal { goal < length world.old.first.heap.now.terms }
    requires rest { rest < length world.old.second.now }
    ensures row { IfOk result (λ k. (texts : List Text) (stack : Stack Contents) (p : Place) (behind : List Branch) (c t : Tree)
        → length stack ≡ length choices.now → Selected texts stack (value world.old.first world.old.second.now) height rest p behind
        → ReadsAs texts (now_of world.old.first) p.state condition c → ReadsAs texts (now_of world.old.first) p.state goal t
        → Leads texts stack (value world.new.first world.new.second.now) (Some k) p behind (if_then_row p c t)) }
    ensures world { now_of world.new.first ≡ now_of world.old.first }
    ensures there { IfOk result (λ k. k < length world.new.second.now) }
    ensures keeps { KeepsLists world.old.second.now world.new.second.now }
    ensures saved { saved_values world.new.first world.new.second.saved ≡ saved_values world.old.first world.old.second.saved }
{
    let top = choices.height();
    let known = &world.first;
    let mark = then_before(&known.heap, &mut world.second, top, goal, height, rest)?;
    let all = goal_before(&known.heap, &mut world.second, condition, top, mark)?;
    Ok(all)
}

/// `once(G)` becomes the child of `G->true`. The term of `true` is the caller's.
pub fn once(
    world: &mut Searching,
    choices: &Choices<Alternatives>,
    goal: TermId,
    truth: TermId,
    height: usize,
    rest: Continuation,
) -> Result<Continuation, AllocError>
    requires goal { goal < length world.old.first.heap.now.terms }
    requires truth { truth < length world.old.first.heap.now.terms }
    requires rest { rest < length world.old.second.now }
    ensures row { IfOk result (λ k. (texts : List Text) (stack : Stack Contents) (p : Place) (behind : List Branch) (g : Tree)
        → length stack ≡ length choices.now → Selected texts stack (value world.old.first world.old.second.now) height rest p behind
        → ReadsAs texts (now_of world.old.first) p.state goal g → ReadsAs texts (now_of world.old.first) p.state truth (atom "true")
        → Leads texts stack (value world.new.first world.new.second.now) (Some k) p behind (once_row p g)) }
    ensures world { now_of world.new.first ≡ now_of world.old.first }
    ensures there { IfOk result (λ k. k < length world.new.second.now) }
    ensures keeps { KeepsLists world.old.second.now world.new.second.now }
    ensures saved { saved_values world.new.first world.new.second.saved ≡ saved_values world.old.first world.old.second.saved }
{
    let all = if_then(world, choices, goal, truth, height, rest)?;
    Ok(all)
}

/// `\+ G`: first G, a cut and no child; second it goes on. After want of memory the choices are as they were.
pub fn not(
    world: &mut Searching,
    choices: &mut Choices<Alternatives>,
    goal: TermId,
    rest: Continuation,
) -> Result<Continuation, AllocError>
    requires goal { goal < length world.old.first.heap.now.terms }
    requires rest { rest < length world.old.second.now }
    requires marked { AreMarked (saved_values world.old.first world.old.second.saved) choices.old }
    ensures row { IfOk result (λ k. (texts : List Text) (v : Program) (height : ℕ) (p : Place) (behind : List Branch) (g : Tree)
        → Selected texts (stack texts v (saved_values world.old.first world.old.second.saved) choices.old)
        (value world.old.first world.old.second.now) height rest p behind
        → ReadsAs texts (now_of world.old.first) p.state goal g
        → Leads texts (stack texts v (saved_values world.new.first world.new.second.saved) choices.new)
        (value world.new.first world.new.second.now) (Some k) p behind (not_row p g)) }
    ensures world { now_of world.new.first ≡ now_of world.old.first }
    ensures there { IfOk result (λ k. k < length world.new.second.now) }
    ensures keeps { KeepsLists world.old.second.now world.new.second.now }
    ensures choices { OnOk result (LeavesMore (saved_values world.old.first world.old.second.saved) choices.old (value world.new.first world.new.second.now)
        (saved_values world.new.first world.new.second.saved) choices.new) }
    ensures marked { AreMarked (saved_values world.new.first world.new.second.saved) choices.new }
    ensures err { OnErr result (choices.new ≡ choices.old) }
    ensures err_saved { OnErr result (saved_values world.new.first world.new.second.saved ≡ saved_values world.old.first world.old.second.saved) }
{
    let top = choices.height();
    let above = one_more(top)?;
    let mark = cell_before(&mut world.second, Cell::CutFail(top), rest)?;
    let known = &world.first;
    let both = goal_before(&known.heap, &mut world.second, goal, above, mark)?;
    leave(world, choices, rest)?;
    Ok(both)
}

/// `!` keeps the choices below its height, and goes on.
pub fn cut(world: &mut Searching, choices: &mut Choices<Alternatives>, height: usize)
    requires marked { AreMarked (saved_values world.old.first world.old.second.saved) choices.old }
    ensures row { (texts : List Text) (v : Program) (rest : ℕ) (p : Place) (behind : List Branch)
        → Selected texts (stack texts v (saved_values world.old.first world.old.second.saved) choices.old)
        (value world.old.first world.old.second.now) height rest p behind
        → Leads texts (stack texts v (saved_values world.new.first world.new.second.saved) choices.new)
        (value world.new.first world.new.second.now) (Some rest) p behind (cut_row p) }
    ensures world { now_of world.new.first ≡ now_of world.old.first }
    ensures lists { world.new.second.now ≡ world.old.second.now }
    ensures choices { choices.new ≡ last height choices.old }
    ensures older { KeepsOlder (saved_values world.old.first world.old.second.saved) choices.old
        (saved_values world.new.first world.new.second.saved) choices.new }
    ensures marked { AreMarked (saved_values world.new.first world.new.second.saved) choices.new }
{
    choices.cut(world, height);
}
