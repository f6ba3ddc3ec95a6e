// The head of a clause along a goal, from left to right.

ghost use Rattle.std.specs.Prelude.{◌≡◌, ◌<◌, ◌≤◌, ◌++◌, ◌∷◌, [], ℕ, List, ◌^◌, max, length, map, drop, All, OnOk, Ok, true, false};
ghost use Rattle.spec_terms.specs.Unifier.{HasNoUnifier};
ghost use Rattle.cq_frac.specs.declared.VarId.{VarId};
ghost use Rattle.cq_term.specs.Names.{KeepsNames};
ghost use Rattle.cq_resolve.specs.Pattern.{AreHeads, IsNamedBelow, term_of};
ghost use Rattle.cq_resolve.specs.Parts.{Parts};
ghost use Rattle.cq_resolve.specs.Marks.{shown, top, AreMarked, AreMet, AreSized};
ghost use Rattle.cq_resolve.specs.Matching.{Call, Walked, IsAt, IsNext};

use crate::joining::{join_built, join_name, join_new, join_number, join_variable};
use crate::stored::{Part, new_variables};
use cq_frac::{Frac, VarId};
use cq_term::walk::push_arguments;
use cq_term::{Heap, Newly, TermId, View};
use std::alloc::AllocError;

/// How far the match is: a place of the head, how many of its variables were met and so made, and the terms of the goal that belong
/// to the parts from the place on, the last one first.
#[derive(Drop)]
pub(crate) struct Walk {
    place: usize,
    met: usize,
    goals: Vec<TermId>,
}

/// Makes the goal and the head equal, or says that nothing does.
pub(crate) fn match_head(
    heap: &mut Heap,
    newly: &mut Newly,
    head: &[Part],
    first: usize,
    goal: TermId,
) -> Result<bool, AllocError>
    requires walk { (c : Call) × Walked c (map shown head.now) first heap.old.now newly.old 0 0 (goal ∷ []) }
    requires marks { AreMarked head.now }
    ensures matched { result ≡ Ok true → (c : Call) → Walked c (map shown head.now) first heap.old.now newly.old 0 0 (goal ∷ [])
        → (place : ℕ) × (met : ℕ) × Walked c (map shown head.now) first heap.new.now newly.new place met [] }
    ensures none { result ≡ Ok false → (c : Call) → Walked c (map shown head.now) first heap.old.now newly.old 0 0 (goal ∷ []) → HasNoUnifier c.goal }
    ensures told { (more : List VarId) × (newly.new ≡ newly.old ++ more) }
    ensures names { OnOk result ((n : ℕ) → All (IsNamedBelow n) (map shown head.now) → KeepsNames n heap.old.now heap.new.now) }
    ensures saved { heap.new.saved ≡ heap.old.saved }
    ensures room { heap.old.room ≤ heap.new.room }
{
    let mut goals = heap.spare_list();
    goals.push(goal)?;
    let mut walk = Walk {
        place: 0,
        met: 0,
        goals,
    };
    let matched = match_from(heap, newly, head, first, &mut walk)?;
    let Walk { goals, .. } = walk;
    heap.keep_list(goals);
    Ok(matched)
}

/// The same from a place of the head on.
fn match_from(
    heap: &mut Heap,
    newly: &mut Newly,
    head: &[Part],
    first: usize,
    walk: &mut Walk,
) -> Result<bool, AllocError>
    requires walk { (c : Call) × IsAt c (map shown head.now) first heap.old.now newly.old walk.old }
    requires within { walk.old.place ≤ length head.now }
    requires met { AreMet walk.old.met (drop walk.old.place head.now) }
    requires sized { AreSized head.now }
    ensures matched { result ≡ Ok true → (c : Call) → IsAt c (map shown head.now) first heap.old.now newly.old walk.old
        → (place : ℕ) × (met : ℕ) × Walked c (map shown head.now) first heap.new.now newly.new place met [] }
    ensures none { result ≡ Ok false → (c : Call) → IsAt c (map shown head.now) first heap.old.now newly.old walk.old → HasNoUnifier c.goal }
    ensures told { (more : List VarId) × (newly.new ≡ newly.old ++ more) }
    ensures names { OnOk result ((n : ℕ) → All (IsNamedBelow n) (map shown head.now) → KeepsNames n heap.old.now heap.new.now) }
    ensures saved { heap.new.saved ≡ heap.old.saved }
    ensures room { heap.old.room ≤ heap.new.room }
{
    while let Some(goal) = walk.goals.pop() {
        if !step(heap, newly, head, first, goal, walk)? {
            return Ok(false);
        }
    }
    Ok(true)
}

/// Goes on behind the next part of the head, or behind its name where a compound meets a compound.
fn step(
    heap: &mut Heap,
    newly: &mut Newly,
    head: &[Part],
    first: usize,
    goal: TermId,
    walk: &mut Walk,
) -> Result<bool, AllocError>
    requires walk { (c : Call) × IsNext c (map shown head.now) first heap.old.now newly.old walk.old goal }
    requires met { AreMet walk.old.met (drop walk.old.place head.now) }
    requires sized { AreSized head.now }
    ensures matched { result ≡ Ok true → (c : Call) → IsNext c (map shown head.now) first heap.old.now newly.old walk.old goal
        → IsAt c (map shown head.now) first heap.new.now newly.new walk.new }
    ensures none { result ≡ Ok false → (c : Call) → IsNext c (map shown head.now) first heap.old.now newly.old walk.old goal → HasNoUnifier c.goal }
    ensures further { result ≡ Ok true → walk.old.place < walk.new.place }
    ensures within { result ≡ Ok true → walk.new.place ≤ length head.now }
    ensures met { result ≡ Ok true → AreMet walk.new.met (drop walk.new.place head.now) }
    ensures told { (more : List VarId) × (newly.new ≡ newly.old ++ more) }
    ensures names { OnOk result ((n : ℕ) → All (IsNamedBelow n) (map shown head.now) → KeepsNames n heap.old.now heap.new.now) }
    ensures saved { heap.new.saved ≡ heap.old.saved }
    ensures room { heap.old.room ≤ heap.new.room }
{
    match &head[walk.place] {
        Part::New(_) => {
            walk.place += 1;
            walk.met += 1;
            join_new(heap, newly, goal)?;
            Ok(true)
        }
        Part::Again(variable) => {
            walk.place += 1;
            join_variable(heap, newly, VarId(first + *variable), goal)
        }
        Part::Whole(number) => {
            walk.place += 1;
            join_number(heap, newly, Frac::from(*number), goal)
        }
        Part::Wide(number) => {
            walk.place += 1;
            join_number(heap, newly, **number, goal)
        }
        Part::Name(name) => {
            walk.place += 1;
            join_name(heap, newly, *name, goal)
        }
        Part::Compound { arity, name, .. } => match heap.view(goal) {
            View::Var(_) => step_built(heap, newly, head, first, goal, walk),
            View::Compound(shown, count) => {
                let arity = *arity as usize;
                if shown == *name && count == arity {
                    walk.place += 1;
                    push_arguments(heap, goal, count, &mut walk.goals)?;
                    Ok(true)
                } else {
                    Ok(false)
                }
            }
            View::Number(_) | View::Name(_) => Ok(false),
        },
    }
}

/// The same where the next part of the head is built as a whole.
fn step_built(
    heap: &mut Heap,
    newly: &mut Newly,
    head: &[Part],
    first: usize,
    goal: TermId,
    walk: &mut Walk,
) -> Result<bool, AllocError>
    requires walk { (c : Call) × IsNext c (map shown head.now) first heap.old.now newly.old walk.old goal }
    requires met { AreMet walk.old.met (drop walk.old.place head.now) }
    requires sized { AreSized head.now }
    ensures matched { result ≡ Ok true → (c : Call) → IsNext c (map shown head.now) first heap.old.now newly.old walk.old goal
        → IsAt c (map shown head.now) first heap.new.now newly.new walk.new }
    ensures none { result ≡ Ok false → (c : Call) → IsNext c (map shown head.now) first heap.old.now newly.old walk.old goal → HasNoUnifier c.goal }
    ensures further { result ≡ Ok true → walk.old.place < walk.new.place }
    ensures within { result ≡ Ok true → walk.new.place ≤ length head.now }
    ensures met { result ≡ Ok true → AreMet walk.new.met (drop walk.new.place head.now) }
    ensures told { (more : List VarId) × (newly.new ≡ newly.old ++ more) }
    ensures names { OnOk result ((n : ℕ) → All (IsNamedBelow n) (map shown head.now) → KeepsNames n heap.old.now heap.new.now) }
    ensures saved { heap.new.saved ≡ heap.old.saved }
    ensures room { heap.old.room ≤ heap.new.room }
{
    let (end, met) = part_at(head, walk.place, walk.met);
    let part = &head[walk.place..end];
    new_variables(heap, met - walk.met)?;
    walk.met = met;
    walk.place = end;
    join_built(heap, newly, part, first, goal)
}

/// Where the part ends that begins at a place, and how many variables were met behind it.
fn part_at(head: &[Part], place: usize, met: usize) -> (usize, usize)
    requires fits { (count : ℕ) × (count < 2 ^ 64) × AreHeads count (map shown head.now) }
    requires within { place < length head.now }
    requires sized { AreSized head.now }
    ensures ends { Parts (map shown head.now) place result.0 }
    ensures met { result.1 ≡ max met (top (term_of (drop place (map shown head.now)))) }
{
    let part = &head[place];
    (place + part.size(), part.top().max(met))
}
