// How a call of a user predicate begins.

ghost use Rattle.std.specs.Prelude.{◌≡◌, ◌<◌, [], ◌∷◌, List, length, false, Ok, IfOk, IfSome, IfNone, OnOk, OnErr};
ghost use Rattle.spec_numbers.specs.Texts.{Text};
ghost use Rattle.spec_syntax.specs.Trees.{Tree};
ghost use Rattle.spec_branch.specs.Branch.{Branch};
ghost use Rattle.spec_search.specs.Replies.{Place};
ghost use Rattle.cq_term.specs.Meaning.{at};
ghost use Rattle.cq_term.specs.Texts.{AreDifferent};
ghost use Rattle.cq_clauses.specs.Walks.{IsWalk};
ghost use Rattle.cq_control.specs.Open.{AreMarked};
ghost use Rattle.cq_resolve.specs.Database.{IsProgram};
ghost use Rattle.cq_settle.specs.Rest.{IsReady};
ghost use Rattle.cq_settle.specs.Worlds.{now_of};
ghost use Rattle.cq_branch.specs.Choices.{AreOpen, LeavesAlso};
ghost use Rattle.cq_branch.specs.Worlds.{value, saved_values, stack};
ghost use Rattle.cq_branch.specs.declared.alternatives.Alternatives.TheVariants as alternatives;
ghost use Rattle.cq_calls.specs.Calling.{IsCalledAt, HasCalled, IfCalledGoes, IsStill, LeavesFirst, WalkComes, numbers_left};
ghost use Rattle.cq_calls.specs.Matching.{Narrows};

use crate::matching::may_match;
use crate::trying::try_from;
use cq_branch::begin::{Begun, begin_clause};
use cq_branch::{Alternatives, Searching, Untried};
use cq_clauses::{ClauseNo, Clauses, Walk};
use cq_control::{Choices, Continuation};
use cq_resolve::program::{ProgramClause, calls_read_the_database, goal_key, walks_select_clauses};
use cq_term::atoms::Atoms;
use cq_term::{Heap, Pred, TermId};
use std::alloc::AllocError;

/// What a goal that calls a predicate came to.
#[derive(Clone, Copy)]
pub enum Called {
    /// The branch of a clause is kept, and the engine goes on with this continuation.
    Goes(Continuation),
    /// The engine comes back to its newest choice.
    Back,
    /// There is no such procedure.
    Unknown,
}

/// A goal calls the procedure of its indicator. The clauses that may match it are tried at once, in order, up to one whose
/// branch is kept: one alone with no choice and no mark of the world, several as one choice. After want of memory, and where there is
/// no such procedure, the choices are as they were.
pub fn call_procedure(
    world: &mut Searching,
    choices: &mut Choices<Alternatives>,
    atoms: &Atoms,
    clauses: &mut Clauses<ProgramClause>,
    pred: Pred,
    goal: TermId,
    rest: Continuation,
) -> Result<Called, AllocError>
    requires ready { IsReady atoms.now (now_of world.old.first) }
    requires different { AreDifferent atoms.now }
    requires program { IsProgram atoms.now clauses.old }
    requires goal { goal < length world.old.first.heap.now.terms }
    requires rest { rest < length world.old.second.now }
    requires marked { AreMarked (saved_values world.old.first world.old.second.saved) choices.old }
    ensures row { IfOk result (λ called. (p : Place) (behind : List Branch) (g : Tree) → IsCalledAt atoms.now clauses.old
        (stack atoms.now clauses.old (saved_values world.old.first world.old.second.saved) choices.old)
        (value world.old.first world.old.second.now) pred goal rest p behind g
        → HasCalled called atoms.now (stack atoms.now clauses.new (saved_values world.new.first world.new.second.saved) choices.new)
        (value world.new.first world.new.second.now) p behind g) }
    ensures there { IfOk result (λ called. IfCalledGoes called (λ k. k < length world.new.second.now)) }
    ensures clauses { clauses.new ≡ clauses.old }
    ensures marked { AreMarked (saved_values world.new.first world.new.second.saved) choices.new }
    ensures open { AreOpen atoms.now clauses.old (saved_values world.old.first world.old.second.saved) choices.old
        → AreOpen atoms.now clauses.new (saved_values world.new.first world.new.second.saved) choices.new }
    ensures budget { world.new.first.store.pivots ≡ world.old.first.store.pivots }

    // But where it goes on at once the world is as it was.
    ensures back { result ≡ Ok Called.Back → now_of world.new.first ≡ now_of world.old.first }
    ensures unknown { result ≡ Ok Called.Unknown
        → IsStill world.old.first world.new.first world.old.second world.new.second choices.old choices.new }
    ensures err { OnErr result (IsStill world.old.first world.new.first world.old.second world.new.second choices.old choices.new) }
{
    calls_read_the_database();
    walks_select_clauses();
    let called = pred;
    let walk = clauses.walk(pred, goal_key(&world.first.heap, goal));
    if walk.is_empty() {
        if clauses.status_of(called).is_none() {
            return Ok(Called::Unknown);
        }
        return Ok(Called::Back);
    }
    let next = call_clauses(world, choices, atoms, clauses, goal, &walk, rest)?;
    match next {
        Some(first) => Ok(Called::Goes(first)),
        None => Ok(Called::Back),
    }
}

/// The clauses of a call are tried. What the engine goes on with; None where it comes back to its newest choice. After want of memory
/// the choices are as they were.
fn call_clauses(
    world: &mut Searching,
    choices: &mut Choices<Alternatives>,
    atoms: &Atoms,
    clauses: &Clauses<ProgramClause>,
    goal: TermId,
    walk: &Walk,
    rest: Continuation,
) -> Result<Option<Continuation>, AllocError>
    requires ready { IsReady atoms.now (now_of world.old.first) }
    requires different { AreDifferent atoms.now }
    requires program { IsProgram atoms.now clauses.now }
    requires goal { goal < length world.old.first.heap.now.terms }
    requires walk { IsWalk walk.now clauses.now }
    requires rest { rest < length world.old.second.now }
    requires marked { AreMarked (saved_values world.old.first world.old.second.saved) choices.old }
    ensures comes { IfOk result (WalkComes atoms.now clauses.now (saved_values world.old.first world.old.second.saved) choices.old
        (value world.old.first world.old.second.now) goal walk.now rest
        (saved_values world.new.first world.new.second.saved) choices.new (value world.new.first world.new.second.now)) }
    ensures there { IfOk result (λ o. IfSome o (λ k. k < length world.new.second.now)) }
    ensures marked { AreMarked (saved_values world.new.first world.new.second.saved) choices.new }
    ensures open { AreOpen atoms.now clauses.now (saved_values world.old.first world.old.second.saved) choices.old
        → AreOpen atoms.now clauses.now (saved_values world.new.first world.new.second.saved) choices.new }
    ensures budget { world.new.first.store.pivots ≡ world.old.first.store.pivots }
    ensures back { IfOk result (λ o. IfNone o (now_of world.new.first ≡ now_of world.old.first)) }
    ensures err { OnErr result (IsStill world.old.first world.new.first world.old.second world.new.second choices.old choices.new) }
{
    let mut left = *walk;
    let Some(number) = clauses.step(&mut left) else {
        return Ok(None);
    };
    if left.is_empty() {
        begin_only(world, choices, atoms, clauses, number, goal, walk, rest)
    } else {
        let first = Next {
            number,
            behind: left,
        };
        begin_first(world, choices, atoms, clauses, goal, walk, first, rest)
    }
}

/// The same of several clauses: those that can't match the goal are passed over up to the first that may, and where none that may
/// match is behind it, it is begun with no choice.
fn begin_first(
    world: &mut Searching,
    choices: &mut Choices<Alternatives>,
    atoms: &Atoms,
    clauses: &Clauses<ProgramClause>,
    goal: TermId,
    walk: &Walk,
    first: Next,
    rest: Continuation,
) -> Result<Option<Continuation>, AllocError>
    requires ready { IsReady atoms.now (now_of world.old.first) }
    requires different { AreDifferent atoms.now }
    requires program { IsProgram atoms.now clauses.now }
    requires goal { goal < length world.old.first.heap.now.terms }
    requires walk { IsWalk walk.now clauses.now }
    requires behind { IsWalk first.behind clauses.now }
    requires known { first.number < length clauses.now.contents }
    requires next { LeavesFirst clauses.now walk.now first.number first.behind }
    requires rest { rest < length world.old.second.now }
    requires marked { AreMarked (saved_values world.old.first world.old.second.saved) choices.old }
    ensures comes { IfOk result (WalkComes atoms.now clauses.now (saved_values world.old.first world.old.second.saved) choices.old
        (value world.old.first world.old.second.now) goal walk.now rest
        (saved_values world.new.first world.new.second.saved) choices.new (value world.new.first world.new.second.now)) }
    ensures there { IfOk result (λ o. IfSome o (λ k. k < length world.new.second.now)) }
    ensures marked { AreMarked (saved_values world.new.first world.new.second.saved) choices.new }
    ensures open { AreOpen atoms.now clauses.now (saved_values world.old.first world.old.second.saved) choices.old
        → AreOpen atoms.now clauses.now (saved_values world.new.first world.new.second.saved) choices.new }
    ensures budget { world.new.first.store.pivots ≡ world.old.first.store.pivots }
    ensures back { IfOk result (λ o. IfNone o (now_of world.new.first ≡ now_of world.old.first)) }
    ensures err { OnErr result (IsStill world.old.first world.new.first world.old.second world.new.second choices.old choices.new) }
{
    let mut front = *walk;
    let Some(next) = next_clause(&world.first.heap, clauses, goal, first, &mut front) else {
        return Ok(None);
    };
    if may_follow(&world.first.heap, clauses, goal, next.behind) {
        begin_several(
            world,
            choices,
            atoms,
            clauses,
            next.number,
            goal,
            &front,
            next.behind,
            rest,
        )
    } else {
        begin_only(
            world,
            choices,
            atoms,
            clauses,
            next.number,
            goal,
            &front,
            rest,
        )
    }
}

/// A clause of a walk, and the walk behind it.
#[derive(Clone, Copy)]
struct Next {
    number: ClauseNo,
    behind: Walk,
}

/// Passes over clauses of a walk that can't match the goal, beginning with its first. The walk is left in front of the first that may.
/// None where none may.
fn next_clause(
    heap: &Heap,
    clauses: &Clauses<ProgramClause>,
    goal: TermId,
    first: Next,
    walk: &mut Walk,
) -> Option<Next>
    requires goal { goal < length heap.now.now.terms }
    requires walk { IsWalk walk.old clauses.now }
    requires behind { IsWalk first.behind clauses.now }
    requires known { first.number < length clauses.now.contents }
    requires next { LeavesFirst clauses.now walk.old first.number first.behind }
    ensures passed { Narrows clauses.now (at heap.now.now.terms goal) (numbers_left clauses.now walk.old) (numbers_left clauses.now walk.new) }
    ensures none { IfNone result (numbers_left clauses.now walk.new ≡ []) }
    ensures some { IfSome result (λ r. LeavesFirst clauses.now walk.new r.number r.behind) }
    ensures known { IfSome result (λ r. r.number < length clauses.now.contents) }
    ensures opened { IsWalk walk.new clauses.now }
    ensures behind { IfSome result (λ r. IsWalk r.behind clauses.now) }
{
    let mut number = first.number;
    let mut behind = first.behind;
    'clauses: loop {
        if may_match(heap, clauses.content(number).clause(), goal) {
            return Some(Next { number, behind });
        }
        *walk = behind;
        let Some(later) = clauses.step(&mut behind) else {
            return None;
        };
        number = later;
    }
}

/// Whether one of a walk's clauses may match the goal.
fn may_follow(heap: &Heap, clauses: &Clauses<ProgramClause>, goal: TermId, walk: Walk) -> bool
    requires goal { goal < length heap.now.now.terms }
    requires walk { IsWalk walk clauses.now }
    ensures { result ≡ false → Narrows clauses.now (at heap.now.now.terms goal) (numbers_left clauses.now walk) [] }
{
    let mut left = walk;
    'clauses: loop {
        let Some(number) = clauses.first(&left) else {
            return false;
        };
        if may_match(heap, clauses.content(number).clause(), goal) {
            return true;
        }
        clauses.step(&mut left);
    }
}

/// The clauses of a call wait, and are tried from the first one on, up to one whose branch is kept. At a fault the engine comes to
/// the fault again as it comes back.
fn begin_several(
    world: &mut Searching,
    choices: &mut Choices<Alternatives>,
    atoms: &Atoms,
    clauses: &Clauses<ProgramClause>,
    first: ClauseNo,
    goal: TermId,
    walk: &Walk,
    behind: Walk,
    rest: Continuation,
) -> Result<Option<Continuation>, AllocError>
    requires ready { IsReady atoms.now (now_of world.old.first) }
    requires different { AreDifferent atoms.now }
    requires program { IsProgram atoms.now clauses.now }
    requires goal { goal < length world.old.first.heap.now.terms }
    requires walk { IsWalk walk.now clauses.now }
    requires behind { IsWalk behind clauses.now }
    requires known { first < length clauses.now.contents }
    requires next { LeavesFirst clauses.now walk.now first behind }
    requires rest { rest < length world.old.second.now }
    requires marked { AreMarked (saved_values world.old.first world.old.second.saved) choices.old }
    ensures comes { IfOk result (WalkComes atoms.now clauses.now (saved_values world.old.first world.old.second.saved) choices.old
        (value world.old.first world.old.second.now) goal walk.now rest
        (saved_values world.new.first world.new.second.saved) choices.new (value world.new.first world.new.second.now)) }
    ensures there { IfOk result (λ o. IfSome o (λ k. k < length world.new.second.now)) }
    ensures marked { AreMarked (saved_values world.new.first world.new.second.saved) choices.new }
    ensures open { AreOpen atoms.now clauses.now (saved_values world.old.first world.old.second.saved) choices.old
        → AreOpen atoms.now clauses.now (saved_values world.new.first world.new.second.saved) choices.new }
    ensures budget { world.new.first.store.pivots ≡ world.old.first.store.pivots }
    ensures back { IfOk result (λ o. IfNone o (now_of world.new.first ≡ now_of world.old.first)) }
    ensures err { OnErr result (IsStill world.old.first world.new.first world.old.second world.new.second choices.old choices.new) }
{
    wait(world, choices, goal, walk, rest)?;
    match try_from(world, choices, atoms, clauses, first, goal, behind, rest) {
        Ok(next) => Ok(next),
        Err(_) => Ok(None),
    }
}

/// The branch of a call's only clause begins, with no choice. At a fault the clause waits, and the engine comes to the fault again as
/// it comes back.
fn begin_only(
    world: &mut Searching,
    choices: &mut Choices<Alternatives>,
    atoms: &Atoms,
    clauses: &Clauses<ProgramClause>,
    number: ClauseNo,
    goal: TermId,
    walk: &Walk,
    rest: Continuation,
) -> Result<Option<Continuation>, AllocError>
    requires ready { IsReady atoms.now (now_of world.old.first) }
    requires different { AreDifferent atoms.now }
    requires program { IsProgram atoms.now clauses.now }
    requires goal { goal < length world.old.first.heap.now.terms }
    requires walk { IsWalk walk.now clauses.now }
    requires known { number < length clauses.now.contents }
    requires only { Narrows clauses.now (at world.old.first.heap.now.terms goal) (numbers_left clauses.now walk.now) (number ∷ []) }
    requires rest { rest < length world.old.second.now }
    requires marked { AreMarked (saved_values world.old.first world.old.second.saved) choices.old }
    ensures comes { IfOk result (WalkComes atoms.now clauses.now (saved_values world.old.first world.old.second.saved) choices.old
        (value world.old.first world.old.second.now) goal walk.now rest
        (saved_values world.new.first world.new.second.saved) choices.new (value world.new.first world.new.second.now)) }
    ensures there { IfOk result (λ o. IfSome o (λ k. k < length world.new.second.now)) }
    ensures marked { AreMarked (saved_values world.new.first world.new.second.saved) choices.new }
    ensures open { AreOpen atoms.now clauses.now (saved_values world.old.first world.old.second.saved) choices.old
        → AreOpen atoms.now clauses.now (saved_values world.new.first world.new.second.saved) choices.new }
    ensures budget { world.new.first.store.pivots ≡ world.old.first.store.pivots }
    ensures back { IfOk result (λ o. IfNone o (now_of world.new.first ≡ now_of world.old.first)) }
    ensures err { OnErr result (IsStill world.old.first world.new.first world.old.second world.new.second choices.old choices.new) }
{
    let clause = clauses.content(number).clause();
    let height = choices.height();
    match begin_clause(
        &mut world.first,
        &mut world.second,
        atoms,
        clause,
        goal,
        height,
        rest,
    ) {
        Ok(begun) => match begun {
            Begun::Goes(first) => Ok(Some(first)),
            Begun::Pruned => Ok(None),
        },
        Err(_) => {
            wait(world, choices, goal, walk, rest)?;
            Ok(None)
        }
    }
}

/// The clauses that a walk leaves of a call wait as the newest choice. After an error nothing has changed.
#[inline(always)]
fn wait(
    world: &mut Searching,
    choices: &mut Choices<Alternatives>,
    goal: TermId,
    walk: &Walk,
    rest: Continuation,
) -> Result<(), AllocError>
    requires marked { AreMarked (saved_values world.old.first world.old.second.saved) choices.old }
    ensures waits { OnOk result (LeavesAlso (saved_values world.old.first world.old.second.saved) choices.old
        (value world.old.first world.old.second.now) (alternatives.Clauses goal walk.now rest)
        (saved_values world.new.first world.new.second.saved) choices.new) }
    ensures contents { OnOk result (choices.new ≡ alternatives.Clauses goal walk.now rest ∷ choices.old) }
    ensures world { now_of world.new.first ≡ now_of world.old.first }
    ensures lists { world.new.second.now ≡ world.old.second.now }
    ensures marked { AreMarked (saved_values world.new.first world.new.second.saved) choices.new }
    ensures err { OnErr result (choices.new ≡ choices.old) }
    ensures err_saved { OnErr result (saved_values world.new.first world.new.second.saved ≡ saved_values world.old.first world.old.second.saved) }
{
    choices.push(
        world,
        Alternatives::Clauses(goal, Untried::new(*walk), rest),
    )
}
