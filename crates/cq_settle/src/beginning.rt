// The begin of a settling: equations and rows join, and the variables that they fix are bound.

ghost use Rattle.std.specs.Prelude.{◌≡◌, ℕ, List, [], IfOk, MatchBool};
ghost use Rattle.spec_numbers.specs.Texts.{Text};
ghost use Rattle.cq_frac.specs.declared.Pair.{Pair};
ghost use Rattle.cq_term.specs.Places.{numbers_of};
ghost use Rattle.cq_store.specs.declared.store.StoreFault.TheVariants.{Overflow, Pivots};
ghost use Rattle.cq_settle.specs.Worlds.{now_of};
ghost use Rattle.cq_settle.specs.Called.{SomeIsCalled, OfCalls};
ghost use Rattle.cq_settle.specs.Settled.{IsPruned, MayRefuse, MayTake, KeepsMarks};
ghost use Rattle.cq_settle.specs.Underway.{HasStarted};

use crate::closing::store_and_numbers;
use crate::joining::{bind_fixed, clashes, follow, join_equations, join_rows, make_numeric};
use crate::world::World;
use cq_form::Constraint;
use cq_store::store::StoreFault;
use cq_term::{Newly, TermId};

/// The equations of variables that were bound and the rows join, and the numeric variables that are fixed are bound. False
/// where a numeric variable is to be an atom or a compound, or where the list has no solution.
pub(crate) fn begin(
    world: &mut World,
    newly: &mut Newly,
    told: &[TermId],
    rows: &[Constraint],
) -> Result<bool, StoreFault>
    requires { (texts : List Text) × SomeIsCalled texts (now_of world.old) newly.old told.now rows.now }
    ensures begun { IfOk result (λ yes. MatchBool yes
        ((texts : List Text) → OfCalls texts (now_of world.old) newly.old told.now rows.now
        (HasStarted texts world.old.heap.now.terms (now_of world.new) told.now (numbers_of newly.new)))
        ((texts : List Text) → OfCalls texts (now_of world.old) newly.old told.now rows.now IsPruned)) }
    ensures overflow { (pair : Pair) → result ≡ Err (Overflow pair)
        → (texts : List Text) → OfCalls texts (now_of world.old) newly.old told.now rows.now (λ st p u. MayRefuse st p pair) }
    ensures pivots { (n : ℕ) → result ≡ Err (Pivots n) → (n ≡ world.old.store.pivots)
        × ((texts : List Text) → OfCalls texts (now_of world.old) newly.old told.now rows.now (λ st p u. MayTake st p n)) }
    ensures marks { KeepsMarks world.old world.new }
{
    store_and_numbers(world);
    if clashes(world, newly.as_slice()) {
        return Ok(false);
    }
    follow(world, newly.as_slice())?;
    let mut fixed = Vec::new(world.heap.alloc());
    if !join_equations(world, newly.as_slice(), &mut fixed)? {
        return Ok(false);
    }
    if !join_rows(&mut world.store, rows, &mut fixed)? {
        return Ok(false);
    }
    make_numeric(world, told, &mut fixed)?;
    bind_fixed(world, &fixed, newly)?;
    Ok(true)
}
