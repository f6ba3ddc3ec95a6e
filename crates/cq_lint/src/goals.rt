// The predicates that a goal calls.

ghost use Rattle.std.specs.Prelude.{◌≡◌, ◌<◌, ℕ, List, false, length, bytes_eq, codes, IfOk, OnOk};
ghost use Rattle.spec_builtins.specs.Bodies.{is_control};
ghost use Rattle.cq_term.specs.Meaning.{HeapTerm, at};
ghost use Rattle.cq_term.specs.Trees.{tree, trees, KnowsTerms};
ghost use Rattle.cq_built.specs.Splitting.{AreLive, TakesApart};
ghost use Rattle.cq_built.specs.Sides.{HasSides, is_binary};
ghost use Rattle.cq_lint.specs.Shapes.{HasOnly, HasThree, is_unary};
ghost use Rattle.cq_lint.specs.Goals.{AreInner, adds_arguments, called, calls_of, goals_of, is_wrapper, predicate_of, predicate_with, with_called};

use crate::predicates::{Predicate, put};
use crate::shapes::{Only, Three, many_of, only_of, pred_of, three_of};
use cq_built::sides::{Sides, sides_of};
use cq_term::atoms::Atoms;
use cq_term::{Heap, TermId};
use std::alloc::AllocError;

/// The parts of a goal that are goals.
#[derive(Clone, Copy)]
pub enum Inner {
    /// It is taken apart no further.
    Alone,
    /// One part.
    One(TermId),
    /// Two parts, the left one first.
    Two(TermId, TermId),
}

/// The predicates that a goal calls, each once.
pub fn calls(heap: &Heap, atoms: &Atoms, goal: TermId) -> Result<Vec<Predicate>, AllocError>
    requires live { goal < length heap.now.now.terms }
    requires names { KnowsTerms atoms.now heap.now.now.terms }
    ensures { IfOk result (λ called. called.items ≡ calls_of (tree atoms.now heap.now.now.terms goal)) }
{
    let goals = goals(heap, atoms, goal)?;
    let mut called = Vec::new(heap.alloc());
    for part in &goals {
        add_called(heap, atoms, *part, &mut called)?;
    }
    Ok(called)
}

/// Adds the predicate that a goal calls.
fn add_called(
    heap: &Heap,
    atoms: &Atoms,
    goal: TermId,
    called: &mut Vec<Predicate>,
) -> Result<(), AllocError>
    requires live { goal < length heap.now.now.terms }
    requires names { KnowsTerms atoms.now heap.now.now.terms }
    ensures { OnOk result (called.new.items ≡ with_called called.old.items (tree atoms.now heap.now.now.terms goal)) }
{
    match called_by(heap, atoms, goal)? {
        Some(predicate) => put(called, predicate),
        None => Ok(()),
    }
}

/// The goals that a goal is made of.
fn goals(heap: &Heap, atoms: &Atoms, goal: TermId) -> Result<Vec<TermId>, AllocError>
    requires live { goal < length heap.now.now.terms }
    requires names { KnowsTerms atoms.now heap.now.now.terms }
    ensures live { IfOk result (λ ids. AreLive heap.now.now.terms ids.items) }
    ensures goals { IfOk result (λ ids. trees atoms.now heap.now.now.terms ids.items ≡ goals_of (tree atoms.now heap.now.now.terms goal)) }
{
    let mut found = Vec::new(heap.alloc());
    let mut waiting = vec![in heap.alloc(); goal]?;
    while let Some(id) = waiting.pop() {
        take_goal(heap, atoms, id, &mut found, &mut waiting)?;
    }
    Ok(found)
}

/// Finds a goal, or puts its parts that are goals at the end of those that wait.
fn take_goal(
    heap: &Heap,
    atoms: &Atoms,
    id: TermId,
    found: &mut Vec<TermId>,
    waiting: &mut Vec<TermId>,
) -> Result<(), AllocError>
    requires live { id < length heap.now.now.terms }
    requires names { KnowsTerms atoms.now heap.now.now.terms }
    ensures { OnOk result (TakesApart goals_of atoms.now heap.now.now.terms found.old.items waiting.old.items id found.new.items waiting.new.items) }
{
    match inner_goals(heap, atoms, id) {
        Inner::Alone => {
            found.push(id)?;
            Ok(())
        }
        Inner::One(part) => {
            waiting.push(part)?;
            Ok(())
        }
        Inner::Two(left, right) => {
            waiting.push(right)?;
            waiting.push(left)?;
            Ok(())
        }
    }
}

/// The parts of a goal that are goals.
fn inner_goals(heap: &Heap, atoms: &Atoms, id: TermId) -> Inner
    requires live { id < length heap.now.now.terms }
    requires names { KnowsTerms atoms.now heap.now.now.terms }
    ensures { AreInner atoms.now heap.now.now.terms id result }
{
    match only_of(heap, id) {
        Some(only) => below_one(atoms, only),
        None => parts_of_more(heap, atoms, id),
    }
}

/// The same where it has not one argument.
fn parts_of_more(heap: &Heap, atoms: &Atoms, id: TermId) -> Inner
    requires live { id < length heap.now.now.terms }
    requires names { KnowsTerms atoms.now heap.now.now.terms }
    requires one { is_unary (at heap.now.now.terms id) ≡ false }
    ensures { AreInner atoms.now heap.now.now.terms id result }
{
    match sides_of(heap, id) {
        Some(sides) => below_two(atoms, sides),
        None => parts_of_many(heap, atoms, id),
    }
}

/// The same where it has not two either.
fn parts_of_many(heap: &Heap, atoms: &Atoms, id: TermId) -> Inner
    requires live { id < length heap.now.now.terms }
    requires names { KnowsTerms atoms.now heap.now.now.terms }
    requires one { is_unary (at heap.now.now.terms id) ≡ false }
    requires two { is_binary (at heap.now.now.terms id) ≡ false }
    ensures { AreInner atoms.now heap.now.now.terms id result }
{
    match three_of(heap, id) {
        Some(three) => below_three(atoms, three),
        None => Inner::Alone,
    }
}

/// The part of a goal with one argument that is a goal.
fn below_one(atoms: &Atoms, only: Only) -> Inner
    requires { only.name < length atoms.now }
    ensures { (ts : List HeapTerm) (id : ℕ) → HasOnly ts id only → AreInner atoms.now ts id result }
{
    if is_wrapper(atoms.text(only.name)) {
        return Inner::One(only.argument);
    }
    Inner::Alone
}

/// The parts of a goal with two arguments that are goals.
fn below_two(atoms: &Atoms, sides: Sides) -> Inner
    requires { sides.name < length atoms.now }
    ensures { (ts : List HeapTerm) (id : ℕ) → HasSides ts id sides → AreInner atoms.now ts id result }
{
    let name = atoms.text(sides.name);
    if is_control(name) {
        return Inner::Two(sides.left, sides.right);
    }
    if name == "freeze" {
        return Inner::One(sides.right);
    }
    Inner::Alone
}

/// The parts of a goal with three arguments that are goals.
fn below_three(atoms: &Atoms, three: Three) -> Inner
    requires { three.name < length atoms.now }
    ensures { (ts : List HeapTerm) (id : ℕ) → HasThree ts id three → AreInner atoms.now ts id result }
{
    let name = atoms.text(three.name);
    if is_catch(name) {
        return Inner::Two(three.first, three.third);
    }
    if name == "findall" {
        return Inner::One(three.second);
    }
    Inner::Alone
}

/// Whether a name is `catch`.
fn is_catch(name: &str) -> bool
    ensures { result ≡ bytes_eq name.now (codes "catch") }
{
    name == "catch"
}

/// Whether the only argument of a name is a goal.
fn is_wrapper(name: &str) -> bool
    ensures { result ≡ is_wrapper name.now }
{
    name == "\\+" || name == "call" || name == "once" || name == "initialization"
}

/// Whether a name is that of a conjunction, a disjunction or an if-then.
fn is_control(name: &str) -> bool
    ensures { result ≡ is_control name.now }
{
    name == "," || name == ";" || name == "->"
}

/// The predicate that a goal calls which is taken apart no further.
fn called_by(heap: &Heap, atoms: &Atoms, goal: TermId) -> Result<Option<Predicate>, AllocError>
    requires live { goal < length heap.now.now.terms }
    requires names { KnowsTerms atoms.now heap.now.now.terms }
    ensures { IfOk result (λ p. p ≡ called (tree atoms.now heap.now.now.terms goal)) }
{
    let Some(many) = many_of(heap, goal) else {
        return predicate_of(heap, atoms, goal);
    };
    if adds_arguments(atoms.text(many.name), many.more) {
        return predicate_with(heap, atoms, many.first, many.more);
    }
    predicate_of(heap, atoms, goal)
}

/// Whether a name over a goal and so many arguments more calls the goal with these.
fn adds_arguments(name: &str, more: usize) -> bool
    ensures { result ≡ adds_arguments name.now more }
{
    name == "call" && more <= 7
}

/// The predicate of a goal or a head; a variable and a number have none.
pub fn predicate_of(
    heap: &Heap,
    atoms: &Atoms,
    term: TermId,
) -> Result<Option<Predicate>, AllocError>
    requires live { term < length heap.now.now.terms }
    requires names { KnowsTerms atoms.now heap.now.now.terms }
    ensures { IfOk result (λ p. p ≡ predicate_of (tree atoms.now heap.now.now.terms term)) }
{
    predicate_with(heap, atoms, term, 0)
}

/// The predicate of a goal to which so many arguments are added. No memory holds more of them than can be counted.
fn predicate_with(
    heap: &Heap,
    atoms: &Atoms,
    term: TermId,
    more: usize,
) -> Result<Option<Predicate>, AllocError>
    requires live { term < length heap.now.now.terms }
    requires names { KnowsTerms atoms.now heap.now.now.terms }
    ensures { IfOk result (λ p. p ≡ predicate_with more (tree atoms.now heap.now.now.terms term)) }
{
    let Some(pred) = pred_of(heap, term) else {
        return Ok(None);
    };
    let Some(arity) = pred.arity.checked_add(more) else {
        return Err(AllocError);
    };
    let predicate = Predicate::new(heap.alloc(), atoms.text(pred.name), arity)?;
    Ok(Some(predicate))
}
