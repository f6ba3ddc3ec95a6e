// Settling: from a world whose variables were bound, with constraints to be told, to a world that is settled again.

ghost use Rattle.std.specs.Prelude.{◌≡◌, ℕ, [], IfOk, IsOk, OnErr, IsTrue, true};
ghost use Rattle.cq_frac.specs.declared.Pair.{Pair};
ghost use Rattle.cq_store.specs.declared.store.StoreFault.TheVariants.{Overflow, Pivots};
ghost use Rattle.cq_settle.specs.Worlds.{now_of};
ghost use Rattle.cq_settle.specs.Called.{SomeIsCalled, OfCalls};
ghost use Rattle.cq_settle.specs.Steps.{IsIdle};
ghost use Rattle.cq_settle.specs.Settled.{IfWoken, IfPruned, IsKept, IsPruned, MayRefuse, MayTake, KeepsMarks};

use crate::beginning::begin;
use crate::closing::{close, join_told, store_and_numbers, wake};
use crate::world::World;
use cq_form::Constraint;
use cq_store::store::StoreFault;
use cq_term::atoms::Atoms;
use cq_term::{Newly, TermId};
use cq_trail::Undo;
use std::alloc::AllocError;

/// What is still to be done: variables that were bound, constraints as terms, and linear ones.
#[derive(Drop)]
pub struct Work {
    pub newly: Newly,
    pub told: Vec<TermId>,
    pub rows: Vec<Constraint>,
}

/// What became of a branch.
#[derive(Drop)]
pub enum Settled {
    /// It is kept, and these goals woke, the oldest first.
    Woken(Vec<TermId>),
    Pruned,
}

/// Settles the world: the equation of each numeric variable that was bound, the rows and the told terms join the linear
/// constraints, terms that wait join as they become linear, and each numeric variable that is fixed is bound to its value,
/// until nothing changes; then the goals wake whose variable is none any more. Where the branch is pruned, and after an error,
/// the world is as at the call. With nothing numeric bound, nothing told and nothing that waits for what was bound, no memory
/// is taken and no mark is made.
pub fn settle(world: &mut World, atoms: &Atoms, work: Work) -> Result<Settled, StoreFault>
    requires { SomeIsCalled atoms.now (now_of world.old) work.newly work.told.items work.rows.items }
    ensures woken { IfOk result (λ r. IfWoken r (λ goals. OfCalls atoms.now (now_of world.old) work.newly work.told.items work.rows.items
        (λ st p u. IsKept atoms.now (now_of world.old) (now_of world.new) goals st p u))) }
    ensures pruned { IfOk result (λ r. IfPruned r (OfCalls atoms.now (now_of world.old) work.newly work.told.items work.rows.items IsPruned)) }

    // Where the branch is pruned, and after an error, nothing has changed.
    ensures unchanged { IfOk result (λ r. IfPruned r (now_of world.new ≡ now_of world.old)) }
    ensures err { OnErr result (now_of world.new ≡ now_of world.old) }

    // With nothing to do, no memory is taken and no mark is made.
    ensures idle { IsIdle (now_of world.old) work.newly work.told.items work.rows.items → IsOk result × (world.new ≡ world.old) }

    ensures overflow { (pair : Pair) → result ≡ Err (Overflow pair)
        → OfCalls atoms.now (now_of world.old) work.newly work.told.items work.rows.items (λ st p u. MayRefuse st p pair) }
    ensures pivots { (n : ℕ) → result ≡ Err (Pivots n)
        → (n ≡ world.old.store.pivots) × OfCalls atoms.now (now_of world.old) work.newly work.told.items work.rows.items (λ st p u. MayTake st p n) }
    ensures marks { KeepsMarks world.old world.new }
{
    store_and_numbers(world);
    if is_idle(world, &work)? {
        return Ok(Settled::Woken(Vec::new(world.heap.alloc())));
    }
    let start = world.mark()?;
    match run(world, atoms, work) {
        Ok(Settled::Woken(goals)) => {
            world.forget(start);
            Ok(Settled::Woken(goals))
        }
        Ok(Settled::Pruned) => {
            world.undo(start);
            Ok(Settled::Pruned)
        }
        Err(fault) => {
            world.undo(start);
            Err(fault)
        }
    }
}

/// Whether there is nothing to do: nothing was told, no numeric variable was bound, and nothing waits for those that were.
fn is_idle(world: &World, work: &Work) -> Result<bool, AllocError>
    ensures idle { IfOk result (λ yes. IsTrue yes → IsIdle (now_of world.now) work.now.newly work.now.told.items work.now.rows.items) }
    ensures seen { IsIdle (now_of world.now) work.now.newly work.now.told.items work.now.rows.items → result ≡ Ok true }
{
    if !work.told.is_empty() {
        return Ok(false);
    }
    if !work.rows.is_empty() {
        return Ok(false);
    }
    let newly = work.newly.as_slice();
    if newly.is_empty() {
        return Ok(true);
    }
    for &variable in newly {
        if world.attrs.is_numeric(variable) {
            return Ok(false);
        }
    }
    let woken = world.attrs.woken(newly)?;
    Ok(woken.is_empty())
}

/// The same, but for what was done before the branch was pruned, or before an error.
fn run(world: &mut World, atoms: &Atoms, work: Work) -> Result<Settled, StoreFault>
    requires { SomeIsCalled atoms.now (now_of world.old) work.newly work.told.items work.rows.items }
    ensures woken { IfOk result (λ r. IfWoken r (λ goals. OfCalls atoms.now (now_of world.old) work.newly work.told.items work.rows.items
        (λ st p u. IsKept atoms.now (now_of world.old) (now_of world.new) goals st p u))) }
    ensures pruned { IfOk result (λ r. IfPruned r (OfCalls atoms.now (now_of world.old) work.newly work.told.items work.rows.items IsPruned)) }
    ensures overflow { (pair : Pair) → result ≡ Err (Overflow pair)
        → OfCalls atoms.now (now_of world.old) work.newly work.told.items work.rows.items (λ st p u. MayRefuse st p pair) }
    ensures pivots { (n : ℕ) → result ≡ Err (Pivots n)
        → (n ≡ world.old.store.pivots) × OfCalls atoms.now (now_of world.old) work.newly work.told.items work.rows.items (λ st p u. MayTake st p n) }
    ensures marks { KeepsMarks world.old world.new }
{
    let Work {
        mut newly,
        told,
        rows,
    } = work;
    if !begin(world, &mut newly, &told, &rows)? {
        return Ok(Settled::Pruned);
    }
    if !join_told(world, atoms, &told, &mut newly)? {
        return Ok(Settled::Pruned);
    }
    if !close(world, atoms, &mut newly)? {
        return Ok(Settled::Pruned);
    }
    store_and_numbers(world);
    Ok(Settled::Woken(wake(world, newly.as_slice())?))
}
