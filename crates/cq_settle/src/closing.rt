// The closure: terms join as they become linear, until none can; and the goals that wake.

ghost use Rattle.std.specs.Prelude.{◌≡◌, ◌≢◌, ℕ, ◌<◌, ◌≤◌, List, [], ◌∷◌, ◌++◌, length, drop, All, Contains, Option, ⊤, IfOk, OnOk, MatchBool};
ghost use Rattle.spec_numbers.specs.Rational.{ℚ};
ghost use Rattle.spec_linear.specs.Solution.{Solvable, Fixes};
ghost use Rattle.cq_frac.specs.declared.Pair.{Pair};
ghost use Rattle.cq_term.specs.Meaning.{at};
ghost use Rattle.cq_term.specs.Places.{numbers_of};
ghost use Rattle.cq_attr.specs.Attributes.{numbers, Ascends};
ghost use Rattle.cq_store.specs.declared.store.StoreFault.TheVariants.{Overflow, Pivots};
ghost use Rattle.cq_settle.specs.Worlds.{now_of};
ghost use Rattle.cq_settle.specs.Settled.{KeepsMarks, IsPruned, MayRefuse, MayTake};
ghost use Rattle.cq_settle.specs.Underway.{IsLive, SomeIsUnderway, GoesOn, OfEach, to_do};
ghost use Rattle.cq_settle.specs.Steps.{CannotJoin, Refuses, Takes, JoinsAndBinds, HasFewer, WakesOne, WakesAll, is_unbound_term};

use crate::joining::bind_fixed;
use crate::world::World;
use cq_attr::{Attrs, Susp, SuspNo};
use cq_cexpr::{Lin, linearise};
use cq_form::Constraint;
use cq_frac::VarId;
use cq_store::store::{StoreFault, Told};
use cq_term::atoms::Atoms;
use cq_term::{Heap, Newly, TermId, View};
use std::alloc::AllocError;

/// The told list has a solution and fixes values, and the numbers of what waits ascend. This does nothing but prove it.
pub(crate) fn store_and_numbers(world: &World)
    ensures solvable { Solvable world.now.store.told }
    ensures fixes { (fixed : ℕ → Option ℚ) × Fixes world.now.store.told fixed }
    ensures ascending { Ascends (numbers world.now.attrs.now.waiting) }
{
    world.attrs.numbers_ascend();
    let _ = world.store.told();
}

/// A constraint joins, and the variables that it fixes are bound. False where the list has no solution.
fn tell(world: &mut World, constraint: Constraint, newly: &mut Newly) -> Result<bool, StoreFault>
    requires { All (λ v. v < length world.old.heap.now.images) world.old.attrs.now.numeric }
    ensures joined { IfOk result (λ yes. MatchBool yes
        (JoinsAndBinds (now_of world.old) constraint (now_of world.new) newly.old newly.new)
        (CannotJoin world.old.store.told constraint)) }
    ensures overflow { (pair : Pair) → result ≡ Err (Overflow pair) → Refuses pair world.old.store.told constraint }
    ensures pivots { (n : ℕ) → result ≡ Err (Pivots n) → (n ≡ world.old.store.pivots) × Takes n world.old.store.told constraint }
    ensures marks { KeepsMarks world.old world.new }
{
    match world.store.tell(constraint)? {
        Told::Unsolvable(_) => Ok(false),
        Told::Kept(fixed) => {
            bind_fixed(world, &fixed, newly)?;
            Ok(true)
        }
    }
}

/// Each told term joins, or waits behind those that wait. False where one is false, or the list has no solution.
pub(crate) fn join_told(
    world: &mut World,
    atoms: &Atoms,
    told: &[TermId],
    newly: &mut Newly,
) -> Result<bool, StoreFault>
    requires { SomeIsUnderway atoms.now (now_of world.old) (to_do told.now [] (numbers_of newly.old) (numbers_of newly.old)) }
    ensures joined { IfOk result (λ yes. MatchBool yes
        (GoesOn atoms.now (now_of world.old) (now_of world.new) (to_do told.now [] (numbers_of newly.old) (numbers_of newly.old))
        (to_do [] [] (numbers_of newly.new) (numbers_of newly.new)))
        (OfEach atoms.now (now_of world.old) (to_do told.now [] (numbers_of newly.old) (numbers_of newly.old)) IsPruned)) }
    ensures overflow { (pair : Pair) → result ≡ Err (Overflow pair)
        → OfEach atoms.now (now_of world.old) (to_do told.now [] (numbers_of newly.old) (numbers_of newly.old)) (λ st p u. MayRefuse st p pair) }
    ensures pivots { (n : ℕ) → result ≡ Err (Pivots n) → (n ≡ world.old.store.pivots)
        × OfEach atoms.now (now_of world.old) (to_do told.now [] (numbers_of newly.old) (numbers_of newly.old)) (λ st p u. MayTake st p n) }
    ensures marks { KeepsMarks world.old world.new }
{
    for &term in told {
        if !join_term(world, atoms, term, newly)? {
            return Ok(false);
        }
    }
    Ok(true)
}

/// A told term joins, or waits behind those that wait.
fn join_term(
    world: &mut World,
    atoms: &Atoms,
    term: TermId,
    newly: &mut Newly,
) -> Result<bool, StoreFault>
    requires { (rest : List ℕ) × SomeIsUnderway atoms.now (now_of world.old) (to_do (term ∷ rest) [] (numbers_of newly.old) (numbers_of newly.old)) }
    ensures joined { IfOk result (λ yes. MatchBool yes
        ((rest : List ℕ) → GoesOn atoms.now (now_of world.old) (now_of world.new) (to_do (term ∷ rest) [] (numbers_of newly.old) (numbers_of newly.old))
        (to_do rest [] (numbers_of newly.new) (numbers_of newly.new)))
        ((rest : List ℕ) → OfEach atoms.now (now_of world.old) (to_do (term ∷ rest) [] (numbers_of newly.old) (numbers_of newly.old)) IsPruned)) }
    ensures overflow { (pair : Pair) → result ≡ Err (Overflow pair)
        → (rest : List ℕ) → OfEach atoms.now (now_of world.old) (to_do (term ∷ rest) [] (numbers_of newly.old) (numbers_of newly.old))
        (λ st p u. MayRefuse st p pair) }
    ensures pivots { (n : ℕ) → result ≡ Err (Pivots n) → (n ≡ world.old.store.pivots)
        × ((rest : List ℕ) → OfEach atoms.now (now_of world.old) (to_do (term ∷ rest) [] (numbers_of newly.old) (numbers_of newly.old))
        (λ st p u. MayTake st p n)) }
    ensures marks { KeepsMarks world.old world.new }
{
    store_and_numbers(world);
    match linearise(&world.heap, atoms, term)? {
        Lin::False => Ok(false),
        Lin::Linear(constraint) => tell(world, constraint, newly),
        Lin::Waits(variables) => {
            world.attrs.suspend(&variables, Susp::Delayed(term))?;
            Ok(true)
        }
    }
}

/// Terms that wait for variables that were bound are looked at again, until none is left. False where one is false, or the
/// list has no solution.
pub(crate) fn close(world: &mut World, atoms: &Atoms, newly: &mut Newly) -> Result<bool, StoreFault>
    requires { SomeIsUnderway atoms.now (now_of world.old) (to_do [] [] (numbers_of newly.old) (numbers_of newly.old)) }
    ensures closed { IfOk result (λ yes. MatchBool yes
        (GoesOn atoms.now (now_of world.old) (now_of world.new) (to_do [] [] (numbers_of newly.old) (numbers_of newly.old))
        (to_do [] [] [] (numbers_of newly.new)))
        (OfEach atoms.now (now_of world.old) (to_do [] [] (numbers_of newly.old) (numbers_of newly.old)) IsPruned)) }
    ensures overflow { (pair : Pair) → result ≡ Err (Overflow pair)
        → OfEach atoms.now (now_of world.old) (to_do [] [] (numbers_of newly.old) (numbers_of newly.old)) (λ st p u. MayRefuse st p pair) }
    ensures pivots { (n : ℕ) → result ≡ Err (Pivots n) → (n ≡ world.old.store.pivots)
        × OfEach atoms.now (now_of world.old) (to_do [] [] (numbers_of newly.old) (numbers_of newly.old)) (λ st p u. MayTake st p n) }
    ensures marks { KeepsMarks world.old world.new }
{
    let mut seen = 0;
    while seen < newly.as_slice().len() {
        let numbers = world.attrs.woken(&newly.as_slice()[seen..])?;
        seen = newly.as_slice().len();
        if !look_again(world, atoms, &numbers, newly)? {
            return Ok(false);
        }
    }
    Ok(true)
}

/// Those of the numbers that are of terms are looked at again.
fn look_again(
    world: &mut World,
    atoms: &Atoms,
    woken: &[SuspNo],
    newly: &mut Newly,
) -> Result<bool, StoreFault>
    requires underway { SomeIsUnderway atoms.now (now_of world.old) (to_do [] woken.now [] (numbers_of newly.old)) }
    requires ascending { Ascends woken.now }
    requires waits { All (λ n. Contains (numbers world.old.attrs.now.waiting) n) woken.now }
    ensures looked { IfOk result (λ yes. MatchBool yes
        (GoesOn atoms.now (now_of world.old) (now_of world.new) (to_do [] woken.now [] (numbers_of newly.old))
        (to_do [] [] (numbers_of (drop (length newly.old) newly.new)) (numbers_of newly.new)))
        (OfEach atoms.now (now_of world.old) (to_do [] woken.now [] (numbers_of newly.old)) IsPruned)) }
    ensures fewer { IfOk result (λ yes. MatchBool yes (HasFewer (now_of world.old) (now_of world.new) newly.old newly.new) ⊤) }
    ensures overflow { (pair : Pair) → result ≡ Err (Overflow pair)
        → OfEach atoms.now (now_of world.old) (to_do [] woken.now [] (numbers_of newly.old)) (λ st p u. MayRefuse st p pair) }
    ensures pivots { (n : ℕ) → result ≡ Err (Pivots n) → (n ≡ world.old.store.pivots)
        × OfEach atoms.now (now_of world.old) (to_do [] woken.now [] (numbers_of newly.old)) (λ st p u. MayTake st p n) }
    ensures marks { KeepsMarks world.old world.new }
{
    for &number in woken {
        if !rejoin(world, atoms, number, newly)? {
            return Ok(false);
        }
    }
    Ok(true)
}

/// A term that waits under the number joins, or goes on waiting; a goal sleeps on.
fn rejoin(
    world: &mut World,
    atoms: &Atoms,
    number: SuspNo,
    newly: &mut Newly,
) -> Result<bool, StoreFault>
    requires underway { (ns bound : List ℕ) × SomeIsUnderway atoms.now (now_of world.old) (to_do [] (number ∷ ns) bound (numbers_of newly.old)) }
    requires waits { Contains (numbers world.old.attrs.now.waiting) number }
    ensures joined { IfOk result (λ yes. MatchBool yes
        ((ns bound : List ℕ) → GoesOn atoms.now (now_of world.old) (now_of world.new) (to_do [] (number ∷ ns) bound (numbers_of newly.old))
        (to_do [] ns (bound ++ numbers_of (drop (length newly.old) newly.new)) (numbers_of newly.new)))
        ((ns bound : List ℕ) → OfEach atoms.now (now_of world.old) (to_do [] (number ∷ ns) bound (numbers_of newly.old)) IsPruned)) }
    ensures fewer { IfOk result (λ yes. MatchBool yes (HasFewer (now_of world.old) (now_of world.new) newly.old newly.new) ⊤) }
    ensures others { IfOk result (λ yes. MatchBool yes
        ((n : ℕ) → n ≢ number → Contains (numbers world.old.attrs.now.waiting) n → Contains (numbers world.new.attrs.now.waiting) n) ⊤) }
    ensures overflow { (pair : Pair) → result ≡ Err (Overflow pair)
        → (ns bound : List ℕ) → OfEach atoms.now (now_of world.old) (to_do [] (number ∷ ns) bound (numbers_of newly.old)) (λ st p u. MayRefuse st p pair) }
    ensures pivots { (n : ℕ) → result ≡ Err (Pivots n) → (n ≡ world.old.store.pivots)
        × ((ns bound : List ℕ) → OfEach atoms.now (now_of world.old) (to_do [] (number ∷ ns) bound (numbers_of newly.old)) (λ st p u. MayTake st p n)) }
    ensures marks { KeepsMarks world.old world.new }
{
    store_and_numbers(world);
    match *world.attrs.susp(number) {
        Susp::Goal(_, _) => Ok(true),
        Susp::Delayed(term) => match linearise(&world.heap, atoms, term)? {
            Lin::False => Ok(false),
            Lin::Linear(constraint) => {
                world.attrs.take(number)?;
                tell(world, constraint, newly)
            }
            Lin::Waits(_) => Ok(true),
        },
    }
}

/// The goals whose variable is none any more wait no more, and are given, the oldest first.
pub(crate) fn wake(world: &mut World, newly: &[VarId]) -> Result<Vec<TermId>, AllocError>
    requires { All (λ k. IsLive world.old.heap.now k.susp) world.old.attrs.now.waiting }
    ensures woken { IfOk result (λ goals. WakesAll (now_of world.old) (numbers_of newly.now) world.new.attrs.now goals.items) }
    ensures heap { world.new.heap.now ≡ world.old.heap.now }
    ensures store { world.new.store.told ≡ world.old.store.told }
    ensures marks { KeepsMarks world.old world.new }
{
    store_and_numbers(world);
    let woken = world.attrs.woken(newly)?;
    let mut goals = Vec::new(world.heap.alloc());
    for &number in &woken {
        wake_one(&world.heap, &mut world.attrs, number, &mut goals)?;
    }
    Ok(goals)
}

/// A goal that waits under the number, and whose variable is none any more, waits no more and is told.
fn wake_one(
    heap: &Heap,
    attrs: &mut Attrs,
    number: SuspNo,
    goals: &mut Vec<TermId>,
) -> Result<(), AllocError>
    requires waits { Contains (numbers attrs.old.now.waiting) number }
    requires live { All (λ k. IsLive heap.now.now k.susp) attrs.old.now.waiting }
    ensures wakes { OnOk result (WakesOne heap.now.now.images number attrs.old.now attrs.new.now goals.old.items goals.new.items) }
    ensures saved { attrs.new.saved ≡ attrs.old.saved }
    ensures room { attrs.old.room ≤ attrs.new.room }
{
    match *attrs.susp(number) {
        Susp::Delayed(_) => Ok(()),
        Susp::Goal(variable, goal) => {
            if is_variable(heap, variable) {
                return Ok(());
            }
            attrs.take(number)?;
            goals.push(goal)?;
            Ok(())
        }
    }
}

/// Whether the variable is unbound, or became another one.
fn is_variable(heap: &Heap, variable: VarId) -> bool
    requires { variable.0 < length heap.now.now.images }
    ensures { result ≡ is_unbound_term (at heap.now.now.images variable.0) }
{
    matches!(heap.view(heap.var_term(variable)), View::Var(_))
}
