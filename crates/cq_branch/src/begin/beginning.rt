// The beginning of a branch.

ghost use Rattle.std.specs.Prelude.{◌≡◌, ◌<◌, ◌≤◌, ℕ, [], All, length, IfOk, OnErr};
ghost use Rattle.cq_term.specs.Texts.{AreDifferent};
ghost use Rattle.cq_frac.specs.declared.Pair.{Pair};
ghost use Rattle.cq_store.specs.declared.store.StoreFault.TheVariants.{Overflow, Pivots};
ghost use Rattle.cq_settle.specs.Rest.{IsReady};
ghost use Rattle.cq_settle.specs.Worlds.{now_of, saved_of, room_of};
ghost use Rattle.cq_settle.specs.Called.{SomeIsCalled, OfCalls};
ghost use Rattle.cq_settle.specs.Settled.{IsPruned, MayRefuse, MayTake, KeepsMarks};
ghost use Rattle.cq_settle.specs.Ready.{MayBeTold};
ghost use Rattle.cq_settle.specs.Equal.{MayBeEqual};
ghost use Rattle.cq_branch.specs.Lists.{KeepsLists};
ghost use Rattle.cq_branch.specs.Worlds.{value};
ghost use Rattle.cq_branch.specs.Begun.{IfGoes, IfPruned, HasWoken, GoesOn, OfWork, Prunes};

use crate::begin::equal::{Equated, equate_free};
use crate::begin::waking::wake;
use cq_control::{Continuation, Continuations};
use cq_settle::rest::{equate, equated_worlds_may_be_settled};
use cq_settle::world::World;
use cq_settle::{Settled, Work, settle};
use cq_store::store::StoreFault;
use cq_term::TermId;
use cq_term::atoms::Atoms;
use cq_trail::Undo;
use spec_engine::machine::Cell;

/// What became of a branch that was begun.
#[derive(Clone, Copy)]
pub enum Begun {
    /// It is kept, and goes on with this continuation.
    Goes(Continuation),
    /// It is pruned.
    Pruned,
}

/// Begins a branch of a continuation: pairs of terms are made equal and terms told, the world is settled, and the goals that
/// woke go in front. Where the branch is pruned, and after an error, the world is as at the call.
pub fn begin(
    world: &mut World,
    lists: &mut Continuations<Cell>,
    atoms: &Atoms,
    pairs: &[cq_term::walk::Pair],
    told: Vec<TermId>,
    rest: Continuation,
) -> Result<Begun, StoreFault>
    requires ready { IsReady atoms.now (now_of world.old) }
    requires different { AreDifferent atoms.now }
    requires pairs { All (MayBeEqual world.old.heap.now) pairs.now }
    requires told { All (MayBeTold world.old.heap.now) told.items }
    requires rest { rest < length lists.old.now }
    ensures goes { IfOk result (λ b. IfGoes b (GoesOn atoms.now (value world.old lists.old.now) (value world.new lists.new.now)
        pairs.now told.items rest)) }
    ensures pruned { IfOk result (λ b. IfPruned b (OfWork atoms.now (now_of world.old) pairs.now told.items Prunes)) }

    // Where the branch is pruned, and after an error, the world is as it was.
    ensures unchanged { IfOk result (λ b. IfPruned b (now_of world.new ≡ now_of world.old)) }
    ensures err { OnErr result (now_of world.new ≡ now_of world.old) }

    ensures overflow { (pair : Pair) → result ≡ Err (Overflow pair)
        → OfWork atoms.now (now_of world.old) pairs.now told.items (λ st p. MayRefuse st p pair) }
    ensures pivots { (n : ℕ) → result ≡ Err (Pivots n)
        → (n ≡ world.old.store.pivots) × OfWork atoms.now (now_of world.old) pairs.now told.items (λ st p. MayTake st p n) }
    ensures there { IfOk result (λ b. IfGoes b (λ k. k < length lists.new.now)) }
    ensures keeps { KeepsLists lists.old.now lists.new.now }
    ensures lists { lists.new.saved ≡ lists.old.saved }
    ensures saved { saved_of world.new ≡ saved_of world.old }
    ensures budget { world.new.store.pivots ≡ world.old.store.pivots }
    ensures room { room_of world.old ≤ room_of world.new }
{
    if told.is_empty() {
        begin_untold(world, lists, atoms, pairs, told, rest)
    } else {
        begin_marked(world, lists, atoms, pairs, told, rest)
    }
}

/// The same where nothing is told. Where nothing is to be settled once the pairs are equal, nothing can fail any more, and the heap
/// alone is marked.
fn begin_untold(
    world: &mut World,
    lists: &mut Continuations<Cell>,
    atoms: &Atoms,
    pairs: &[cq_term::walk::Pair],
    told: Vec<TermId>,
    rest: Continuation,
) -> Result<Begun, StoreFault>
    requires ready { IsReady atoms.now (now_of world.old) }
    requires different { AreDifferent atoms.now }
    requires pairs { All (MayBeEqual world.old.heap.now) pairs.now }
    requires told { All (MayBeTold world.old.heap.now) told.items }
    requires none { told.items ≡ [] }
    requires rest { rest < length lists.old.now }
    ensures goes { IfOk result (λ b. IfGoes b (GoesOn atoms.now (value world.old lists.old.now) (value world.new lists.new.now)
        pairs.now told.items rest)) }
    ensures pruned { IfOk result (λ b. IfPruned b (OfWork atoms.now (now_of world.old) pairs.now told.items Prunes)) }
    ensures unchanged { IfOk result (λ b. IfPruned b (now_of world.new ≡ now_of world.old)) }
    ensures err { OnErr result (now_of world.new ≡ now_of world.old) }
    ensures overflow { (pair : Pair) → result ≡ Err (Overflow pair)
        → OfWork atoms.now (now_of world.old) pairs.now told.items (λ st p. MayRefuse st p pair) }
    ensures pivots { (n : ℕ) → result ≡ Err (Pivots n)
        → (n ≡ world.old.store.pivots) × OfWork atoms.now (now_of world.old) pairs.now told.items (λ st p. MayTake st p n) }
    ensures there { IfOk result (λ b. IfGoes b (λ k. k < length lists.new.now)) }
    ensures keeps { KeepsLists lists.old.now lists.new.now }
    ensures lists { lists.new.saved ≡ lists.old.saved }
    ensures saved { saved_of world.new ≡ saved_of world.old }
    ensures budget { world.new.store.pivots ≡ world.old.store.pivots }
    ensures room { room_of world.old ≤ room_of world.new }
{
    equated_worlds_may_be_settled();
    let _told = world.store.told();
    let equated = equate_free(&mut world.heap, &world.attrs, pairs)?;
    match equated {
        Equated::Equal => Ok(Begun::Goes(rest)),
        Equated::Apart => Ok(Begun::Pruned),
        Equated::Unsettled => begin_marked(world, lists, atoms, pairs, told, rest),
    }
}

/// The same behind a mark of the whole world, whatever is to be settled.
fn begin_marked(
    world: &mut World,
    lists: &mut Continuations<Cell>,
    atoms: &Atoms,
    pairs: &[cq_term::walk::Pair],
    told: Vec<TermId>,
    rest: Continuation,
) -> Result<Begun, StoreFault>
    requires ready { IsReady atoms.now (now_of world.old) }
    requires different { AreDifferent atoms.now }
    requires pairs { All (MayBeEqual world.old.heap.now) pairs.now }
    requires told { All (MayBeTold world.old.heap.now) told.items }
    requires rest { rest < length lists.old.now }
    ensures goes { IfOk result (λ b. IfGoes b (GoesOn atoms.now (value world.old lists.old.now) (value world.new lists.new.now)
        pairs.now told.items rest)) }
    ensures pruned { IfOk result (λ b. IfPruned b (OfWork atoms.now (now_of world.old) pairs.now told.items Prunes)) }
    ensures unchanged { IfOk result (λ b. IfPruned b (now_of world.new ≡ now_of world.old)) }
    ensures err { OnErr result (now_of world.new ≡ now_of world.old) }
    ensures overflow { (pair : Pair) → result ≡ Err (Overflow pair)
        → OfWork atoms.now (now_of world.old) pairs.now told.items (λ st p. MayRefuse st p pair) }
    ensures pivots { (n : ℕ) → result ≡ Err (Pivots n)
        → (n ≡ world.old.store.pivots) × OfWork atoms.now (now_of world.old) pairs.now told.items (λ st p. MayTake st p n) }
    ensures there { IfOk result (λ b. IfGoes b (λ k. k < length lists.new.now)) }
    ensures keeps { KeepsLists lists.old.now lists.new.now }
    ensures lists { lists.new.saved ≡ lists.old.saved }
    ensures saved { saved_of world.new ≡ saved_of world.old }
    ensures budget { world.new.store.pivots ≡ world.old.store.pivots }
    ensures room { room_of world.old ≤ room_of world.new }
{
    let start = world.mark()?;
    match run(world, lists, atoms, pairs, told, rest) {
        Ok(begun) => match begun {
            Begun::Goes(first) => {
                world.forget(start);
                Ok(Begun::Goes(first))
            }
            Begun::Pruned => {
                world.undo(start);
                Ok(Begun::Pruned)
            }
        },
        Err(fault) => {
            world.undo(start);
            Err(fault)
        }
    }
}

/// The same, but for what was done before the branch was pruned, or before an error.
fn run(
    world: &mut World,
    lists: &mut Continuations<Cell>,
    atoms: &Atoms,
    pairs: &[cq_term::walk::Pair],
    told: Vec<TermId>,
    rest: Continuation,
) -> Result<Begun, StoreFault>
    requires ready { IsReady atoms.now (now_of world.old) }
    requires different { AreDifferent atoms.now }
    requires pairs { All (MayBeEqual world.old.heap.now) pairs.now }
    requires told { All (MayBeTold world.old.heap.now) told.items }
    requires rest { rest < length lists.old.now }
    ensures goes { IfOk result (λ b. IfGoes b (GoesOn atoms.now (value world.old lists.old.now) (value world.new lists.new.now)
        pairs.now told.items rest)) }
    ensures pruned { IfOk result (λ b. IfPruned b (OfWork atoms.now (now_of world.old) pairs.now told.items Prunes)) }
    ensures overflow { (pair : Pair) → result ≡ Err (Overflow pair)
        → OfWork atoms.now (now_of world.old) pairs.now told.items (λ st p. MayRefuse st p pair) }
    ensures pivots { (n : ℕ) → result ≡ Err (Pivots n)
        → (n ≡ world.old.store.pivots) × OfWork atoms.now (now_of world.old) pairs.now told.items (λ st p. MayTake st p n) }
    ensures there { IfOk result (λ b. IfGoes b (λ k. k < length lists.new.now)) }
    ensures keeps { KeepsLists lists.old.now lists.new.now }
    ensures lists { lists.new.saved ≡ lists.old.saved }
    ensures marks { KeepsMarks world.old world.new }
{
    equated_worlds_may_be_settled();
    let Some(newly) = equate(&mut world.heap, pairs)? else {
        return Ok(Begun::Pruned);
    };
    let rows = Vec::new(world.heap.alloc());
    proceed(world, lists, atoms, Work { newly, told, rows }, rest)
}

/// Settles a world in which terms were made equal, and puts the goals that woke in front of a continuation.
pub(crate) fn proceed(
    world: &mut World,
    lists: &mut Continuations<Cell>,
    atoms: &Atoms,
    work: Work,
    rest: Continuation,
) -> Result<Begun, StoreFault>
    requires called { SomeIsCalled atoms.now (now_of world.old) work.newly work.told.items work.rows.items }
    requires rest { rest < length lists.old.now }
    ensures goes { IfOk result (λ b. IfGoes b (λ k. OfCalls atoms.now (now_of world.old) work.newly work.told.items work.rows.items
        (HasWoken atoms.now (now_of world.old) (now_of world.new) lists.old.now lists.new.now rest k))) }
    ensures pruned { IfOk result (λ b. IfPruned b (OfCalls atoms.now (now_of world.old) work.newly work.told.items work.rows.items IsPruned)) }
    ensures overflow { (pair : Pair) → result ≡ Err (Overflow pair)
        → OfCalls atoms.now (now_of world.old) work.newly work.told.items work.rows.items (λ st p u. MayRefuse st p pair) }
    ensures pivots { (n : ℕ) → result ≡ Err (Pivots n)
        → (n ≡ world.old.store.pivots) × OfCalls atoms.now (now_of world.old) work.newly work.told.items work.rows.items (λ st p u. MayTake st p n) }
    ensures there { IfOk result (λ b. IfGoes b (λ k. k < length lists.new.now)) }
    ensures keeps { KeepsLists lists.old.now lists.new.now }
    ensures lists { lists.new.saved ≡ lists.old.saved }
    ensures marks { KeepsMarks world.old world.new }
{
    match settle(world, atoms, work) {
        Ok(Settled::Woken(goals)) => {
            let first = wake(lists, goals, rest)?;
            Ok(Begun::Goes(first))
        }
        Ok(Settled::Pruned) => Ok(Begun::Pruned),
        Err(fault) => Err(fault),
    }
}
