// What a disjunction becomes, with an if-then on its left or without.

ghost use Rattle.std.specs.Prelude.{◌≡◌, ◌<◌, ℕ, List, length, codes, Some, IfOk, IfSome, IsNone, OnOk, OnErr};
ghost use Rattle.spec_numbers.specs.Texts.{Text};
ghost use Rattle.spec_syntax.specs.Trees.{Tree, binary};
ghost use Rattle.spec_branch.specs.Branch.{Branch};
ghost use Rattle.spec_search.specs.Control.{or_row};
ghost use Rattle.spec_search.specs.Replies.{Place};
ghost use Rattle.cq_control.specs.Open.{AreMarked};
ghost use Rattle.cq_resolve.specs.Database.{Program};
ghost use Rattle.cq_term.specs.Trees.{tree, KnowsTerms};
ghost use Rattle.cq_settle.specs.Worlds.{now_of};
ghost use Rattle.cq_branch.specs.Choices.{LeavesMore};
ghost use Rattle.cq_branch.specs.Lists.{KeepsLists};
ghost use Rattle.cq_branch.specs.Sides.{IsIfThen, IsPlain};
ghost use Rattle.cq_branch.specs.Worlds.{value, saved_values, stack, ReadsAs, Selected, Leads};

use crate::alternatives::{Alternatives, Searching};
use crate::cells::{goal_before, leave, one_more, then_before};
use cq_built::sides::{Sides, sides_of};
use cq_control::{Choices, Continuation};
use cq_term::atoms::Atoms;
use cq_term::{Heap, TermId};
use std::alloc::AllocError;

/// The sides of an if-then; None where the term is none.
fn if_then_of(heap: &Heap, atoms: &Atoms, id: TermId) -> Option<Sides>
    requires live { id < length heap.now.now.terms }
    requires names { KnowsTerms atoms.now heap.now.now.terms }
    ensures some { IfSome result (IsIfThen atoms.now heap.now.now.terms id) }
    ensures none { IsNone result → IsPlain (tree atoms.now heap.now.now.terms id) }
{
    let sides = sides_of(heap, id)?;
    if atoms.text(sides.name) == "->" {
        Some(sides)
    } else {
        None
    }
}

/// `A;B` where A is no if-then: first A, second B.
fn either(
    world: &mut Searching,
    choices: &mut Choices<Alternatives>,
    left: TermId,
    right: TermId,
    height: usize,
    rest: Continuation,
) -> Result<Continuation, AllocError>
    requires left { left < length world.old.first.heap.now.terms }
    requires right { right < length world.old.first.heap.now.terms }
    requires rest { rest < length world.old.second.now }
    requires marked { AreMarked (saved_values world.old.first world.old.second.saved) choices.old }
    ensures row { IfOk result (λ k. (texts : List Text) (v : Program) (p : Place) (behind : List Branch) (a b : Tree)
        → Selected texts (stack texts v (saved_values world.old.first world.old.second.saved) choices.old)
        (value world.old.first world.old.second.now) height rest p behind
        → ReadsAs texts (now_of world.old.first) p.state left a → ReadsAs texts (now_of world.old.first) p.state right b → IsPlain a
        → Leads texts (stack texts v (saved_values world.new.first world.new.second.saved) choices.new)
        (value world.new.first world.new.second.now) (Some k) p behind (or_row p a b)) }
    ensures world { now_of world.new.first ≡ now_of world.old.first }
    ensures there { IfOk result (λ k. k < length world.new.second.now) }
    ensures keeps { KeepsLists world.old.second.now world.new.second.now }
    ensures choices { OnOk result (LeavesMore (saved_values world.old.first world.old.second.saved) choices.old (value world.new.first world.new.second.now)
        (saved_values world.new.first world.new.second.saved) choices.new) }
    ensures marked { AreMarked (saved_values world.new.first world.new.second.saved) choices.new }
    ensures err { OnErr result (choices.new ≡ choices.old) }
    ensures err_saved { OnErr result (saved_values world.new.first world.new.second.saved ≡ saved_values world.old.first world.old.second.saved) }
{
    let known = &world.first;
    let second = goal_before(&known.heap, &mut world.second, right, height, rest)?;
    let first = goal_before(&known.heap, &mut world.second, left, height, rest)?;
    leave(world, choices, second)?;
    Ok(first)
}

/// `C->T;B`: first C, a cut of the choices since, B among them, and T; second B.
fn if_then_else(
    world: &mut Searching,
    choices: &mut Choices<Alternatives>,
    left: &Sides,
    right: TermId,
    height: usize,
    rest: Continuation,
) -> Result<Continuation, AllocError>
    requires condition { left.now.left < length world.old.first.heap.now.terms }
    requires goal { left.now.right < length world.old.first.heap.now.terms }
    requires right { right < length world.old.first.heap.now.terms }
    requires rest { rest < length world.old.second.now }
    requires marked { AreMarked (saved_values world.old.first world.old.second.saved) choices.old }
    ensures row { IfOk result (λ k. (texts : List Text) (v : Program) (p : Place) (behind : List Branch) (c t b : Tree)
        → Selected texts (stack texts v (saved_values world.old.first world.old.second.saved) choices.old)
        (value world.old.first world.old.second.now) height rest p behind
        → ReadsAs texts (now_of world.old.first) p.state left.now.left c → ReadsAs texts (now_of world.old.first) p.state left.now.right t
        → ReadsAs texts (now_of world.old.first) p.state right b
        → Leads texts (stack texts v (saved_values world.new.first world.new.second.saved) choices.new)
        (value world.new.first world.new.second.now) (Some k) p behind (or_row p (binary (codes "->") c t) b)) }
    ensures world { now_of world.new.first ≡ now_of world.old.first }
    ensures there { IfOk result (λ k. k < length world.new.second.now) }
    ensures keeps { KeepsLists world.old.second.now world.new.second.now }
    ensures choices { OnOk result (LeavesMore (saved_values world.old.first world.old.second.saved) choices.old (value world.new.first world.new.second.now)
        (saved_values world.new.first world.new.second.saved) choices.new) }
    ensures marked { AreMarked (saved_values world.new.first world.new.second.saved) choices.new }
    ensures err { OnErr result (choices.new ≡ choices.old) }
    ensures err_saved { OnErr result (saved_values world.new.first world.new.second.saved ≡ saved_values world.old.first world.old.second.saved) }
{
    let top = choices.height();
    let above = one_more(top)?;
    let known = &world.first;
    let other = goal_before(&known.heap, &mut world.second, right, height, rest)?;
    let mark = then_before(
        &known.heap,
        &mut world.second,
        top,
        left.right,
        height,
        rest,
    )?;
    let all = goal_before(&known.heap, &mut world.second, left.left, above, mark)?;
    leave(world, choices, other)?;
    Ok(all)
}

/// `A;B`: first A, second B. Where A is `C->T`, C is cut before T, and B with it. After want of memory the choices are as they
/// were.
pub fn or(
    world: &mut Searching,
    choices: &mut Choices<Alternatives>,
    atoms: &Atoms,
    left: TermId,
    right: TermId,
    height: usize,
    rest: Continuation,
) -> Result<Continuation, AllocError>
    requires left { left < length world.old.first.heap.now.terms }
    requires right { right < length world.old.first.heap.now.terms }
    requires names { KnowsTerms atoms.now world.old.first.heap.now.terms }
    requires rest { rest < length world.old.second.now }
    requires marked { AreMarked (saved_values world.old.first world.old.second.saved) choices.old }
    ensures row { IfOk result (λ k. (v : Program) (p : Place) (behind : List Branch) (a b : Tree)
        → Selected atoms.now (stack atoms.now v (saved_values world.old.first world.old.second.saved) choices.old)
        (value world.old.first world.old.second.now) height rest p behind
        → ReadsAs atoms.now (now_of world.old.first) p.state left a → ReadsAs atoms.now (now_of world.old.first) p.state right b
        → Leads atoms.now (stack atoms.now v (saved_values world.new.first world.new.second.saved) choices.new)
        (value world.new.first world.new.second.now) (Some k) p behind (or_row p a b)) }
    ensures world { now_of world.new.first ≡ now_of world.old.first }
    ensures there { IfOk result (λ k. k < length world.new.second.now) }
    ensures keeps { KeepsLists world.old.second.now world.new.second.now }
    ensures choices { OnOk result (LeavesMore (saved_values world.old.first world.old.second.saved) choices.old (value world.new.first world.new.second.now)
        (saved_values world.new.first world.new.second.saved) choices.new) }
    ensures marked { AreMarked (saved_values world.new.first world.new.second.saved) choices.new }
    ensures err { OnErr result (choices.new ≡ choices.old) }
    ensures err_saved { OnErr result (saved_values world.new.first world.new.second.saved ≡ saved_values world.old.first world.old.second.saved) }
{
    match if_then_of(&world.first.heap, atoms, left) {
        Some(sides) => {
            let k = if_then_else(world, choices, &sides, right, height, rest)?;
            Ok(k)
        }
        None => {
            let k = either(world, choices, left, right, height, rest)?;
            Ok(k)
        }
    }
}
