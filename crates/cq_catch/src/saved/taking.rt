// A catch that has a ball.

ghost use Rattle.std.specs.Prelude.{◌≡◌, ◌≢◌, ◌<◌, ◌≤◌, ◌∷◌, [], ℕ, List, length, None, IfOk, IfErr, OnOk, OnErr};
ghost use Rattle.spec_numbers.specs.Texts.{Text};
ghost use Rattle.cq_term.specs.Texts.{AreDifferent};
ghost use Rattle.cq_control.specs.Items.{items_at};
ghost use Rattle.cq_control.specs.Open.{AreMarked};
ghost use Rattle.cq_frac.specs.declared.Pair.{Pair};
ghost use Rattle.cq_store.specs.declared.store.StoreFault.TheVariants.{Overflow, Pivots};
ghost use Rattle.cq_resolve.specs.Database.{Program};
ghost use Rattle.cq_settle.specs.Settled.{MayRefuse, MayTake};
ghost use Rattle.cq_resolve.specs.StoredValue.{StoredValue};
ghost use Rattle.cq_settle.specs.Rest.{IsReady};
ghost use Rattle.cq_settle.specs.Worlds.{now_of, saved_of};
ghost use Rattle.spec_engine.specs.declared.machine.cell.Cell.TheVariants.{Call};
ghost use Rattle.cq_branch.specs.Choices.{AreOpen};
ghost use Rattle.cq_branch.specs.Lists.{HasCells, KeepsLists};
ghost use Rattle.cq_branch.specs.Stored.{IsCountedTerm};
ghost use Rattle.cq_branch.specs.Worlds.{value, saved_values};
ghost use Rattle.cq_branch.specs.Begun.{IfGoes, IfPruned, Prunes};
ghost use Rattle.cq_choices.specs.Held.{held, HasMarks, StaysOver};
ghost use Rattle.cq_choices.specs.Trying.{IsSearching, ComesOver, StopsOver};
ghost use Rattle.cq_catch.specs.Balls.{ComesUpSomewhere, HandsBall, Misses, HasBall};
ghost use Rattle.cq_catch.specs.Taking.{TakesTo, IsGone, BallGoes, OfBall, CarriesBall};
ghost use Rattle.cq_catch.specs.declared.saved.taking.Taken.TheVariants.{Goes, HandedOn, Escaped};

use crate::balls::hand;
use cq_branch::begin::{Begun, begin};
use cq_branch::{Alternatives, Searching};
use cq_control::{Choices, Continuation, Continuations};
use cq_resolve::stored::StoredTerm;
use cq_settle::rest::{equated_worlds_may_be_settled, look_at_pairs};
use cq_settle::world::World;
use cq_store::store::StoreFault;
use cq_term::TermId;
use cq_term::atoms::Atoms;
use spec_engine::machine::Cell;
use std::alloc::AllocError;

/// What became of a ball that a catch has.
#[derive(Drop)]
pub enum Taken {
    /// The catch took it: its recovery is called in front of this continuation.
    Goes(Continuation),
    /// Another catch has it.
    HandedOn,
    /// Nothing catches it. No choice is left.
    Escaped(StoredTerm),
}

/// Comes back to the newest choice, which is a catch that has a ball: the branch that it saved is settled with the ball and the
/// catcher. Where it is kept, the choice is gone; where it is pruned, the ball goes on outwards. After an error the choice still has
/// the ball.
pub fn try_caught(
    world: &mut Searching,
    choices: &mut Choices<Alternatives>,
    atoms: &Atoms,
) -> Result<Taken, StoreFault>
    requires different { AreDifferent atoms.now }
    requires marked { HasMarks (held atoms.now world.old.first world.old.second choices.old) }
    requires newest { HasBall choices.old }
    requires works { IsSearching (held atoms.now world.old.first world.old.second choices.old) }
    ensures comes { IfOk result (TakesTo (held atoms.now world.old.first world.old.second choices.old)
        (held atoms.now world.new.first world.new.second choices.new)) }
    ensures gone { IfOk result (IsGone (held atoms.now world.new.first world.new.second choices.new)) }
    ensures fewer { OnOk result (length choices.new < length choices.old) }
    ensures err { OnErr result (ComesOver (held atoms.now world.old.first world.old.second choices.old)
        (held atoms.now world.new.first world.new.second choices.new) None) }
    ensures stops { IfErr result (StopsOver (held atoms.now world.old.first world.old.second choices.old) world.old.first.store.pivots) }
    ensures over { StaysOver (held atoms.now world.old.first world.old.second choices.old)
        (held atoms.now world.new.first world.new.second choices.new) }
    ensures budget { world.new.first.store.pivots ≡ world.old.first.store.pivots }
    ensures marked { HasMarks (held atoms.now world.new.first world.new.second choices.new) }
{
    let Alternatives::Caught(ball, catcher, recovery, rest) = choices.retry(
        world,
        Alternatives::Barrier,
    ) else {
        unreachable!();
    };
    match begin_caught(
        &mut world.first,
        &mut world.second,
        atoms,
        &ball,
        catcher,
        recovery,
        rest,
    ) {
        Ok(begun) => {
            let newest = choices.height() - 1;
            choices.cut(world, newest);
            match begun {
                Begun::Goes(first) => Ok(Taken::Goes(first)),
                Begun::Pruned => Ok(hand_on(world, choices, ball, rest)),
            }
        }
        Err(fault) => {
            let newest = choices.height() - 1;
            choices.replace_at(newest, Alternatives::Caught(ball, catcher, recovery, rest));
            Err(fault)
        }
    }
}

/// The ball goes on outwards. Where nothing catches it, no choice is left.
fn hand_on(
    world: &mut Searching,
    choices: &mut Choices<Alternatives>,
    ball: StoredTerm,
    from: Continuation,
) -> Taken
    requires marked { AreMarked (saved_values world.old.first world.old.second.saved) choices.old }
    requires comes_up { ComesUpSomewhere (saved_values world.old.first world.old.second.saved) choices.old
        (value world.old.first world.old.second.now) from }
    ensures caught { result ≡ HandedOn → HandsBall (saved_values world.old.first world.old.second.saved) choices.old
        (value world.old.first world.old.second.now) from ball (saved_values world.new.first world.new.second.saved) choices.new }
    ensures escaped { (b : StoredValue) → result ≡ Escaped b → (b ≡ ball) × (choices.new ≡ [])
        × Misses (saved_values world.old.first world.old.second.saved) choices.old (value world.old.first world.old.second.now) from }
    ensures goes { (k : ℕ) → result ≢ Goes k }
    ensures no_more { length choices.new ≤ length choices.old }
    ensures open { (texts : List Text) (v : Program) → IsCountedTerm (length texts) ball
        → AreOpen texts v (saved_values world.old.first world.old.second.saved) choices.old
        → AreOpen texts v (saved_values world.new.first world.new.second.saved) choices.new }
    ensures marked { AreMarked (saved_values world.new.first world.new.second.saved) choices.new }
    ensures budget { world.new.first.store.pivots ≡ world.old.first.store.pivots }
{
    match hand(world, choices, ball, from) {
        None => Taken::HandedOn,
        Some(ball) => {
            choices.cut(world, 0);
            Taken::Escaped(ball)
        }
    }
}

/// Begins the branch of a catch that has a ball.
fn begin_caught(
    world: &mut World,
    lists: &mut Continuations<Cell>,
    atoms: &Atoms,
    ball: &StoredTerm,
    catcher: TermId,
    recovery: TermId,
    rest: Continuation,
) -> Result<Begun, StoreFault>
    requires ready { IsReady atoms.now (now_of world.old) }
    requires different { AreDifferent atoms.now }
    requires ball { IsCountedTerm (length atoms.now) ball.now }
    requires catcher { catcher < length world.old.heap.now.terms }
    requires rest { rest < length lists.old.now }
    ensures goes { IfOk result (λ b. IfGoes b (BallGoes atoms.now (value world.old lists.old.now) (value world.new lists.new.now)
        ball.now catcher recovery rest)) }
    ensures pruned { IfOk result (λ b. IfPruned b (OfBall atoms.now (now_of world.old) ball.now catcher Prunes)) }
    ensures carries { IfOk result (λ b. IfPruned b (CarriesBall atoms.now (value world.old lists.old.now) (value world.new lists.new.now)
        ball.now rest)) }

    // A stop is due while the branch is settled.
    ensures overflow { (pair : Pair) → result ≡ Err (Overflow pair)
        → OfBall atoms.now (now_of world.old) ball.now catcher (λ st p. MayRefuse st p pair) }
    ensures pivots { (n : ℕ) → result ≡ Err (Pivots n) → (n ≡ world.old.store.pivots)
        × OfBall atoms.now (now_of world.old) ball.now catcher (λ st p. MayTake st p n) }
    ensures there { IfOk result (λ b. IfGoes b (λ k. k < length lists.new.now)) }
    ensures keeps { KeepsLists lists.old.now lists.new.now }
    ensures lists { lists.new.saved ≡ lists.old.saved }
    ensures saved { saved_of world.new ≡ saved_of world.old }
    ensures budget { world.new.store.pivots ≡ world.old.store.pivots }
{
    equated_worlds_may_be_settled();
    let recovered = call_before(lists, recovery, rest)?;
    let copy = ball.restore(&mut world.heap)?;
    let pairs = [cq_term::walk::Pair {
        left: catcher,
        right: copy,
    }];
    look_at_pairs(&world.heap, &pairs);
    let told = Vec::new(world.heap.alloc());
    begin(world, lists, atoms, &pairs, told, recovered)
}

/// `call` of a term in front of a continuation.
fn call_before(
    lists: &mut Continuations<Cell>,
    goal: TermId,
    rest: Continuation,
) -> Result<Continuation, AllocError>
    requires { rest < length lists.old.now }
    ensures cells { IfOk result (λ k. HasCells lists.new.now k (Call goal ∷ items_at lists.old.now rest)) }
    ensures keeps { KeepsLists lists.old.now lists.new.now }
    ensures saved { lists.new.saved ≡ lists.old.saved }
{
    let k = lists.before(Cell::Call(goal), rest)?;
    Ok(k)
}
