// How far an expression reaches on the solutions of a world's linear constraints.

ghost use Rattle.std.specs.Prelude.{◌≡◌, ◌<◌, ◌≤◌, ℕ, length, IfOk, IfErr};
ghost use Rattle.spec_linear.specs.Weak.{at_least_zero};
ghost use Rattle.spec_simplex.specs.Asked.{NoQuestion};
ghost use Rattle.cq_frac.specs.declared.Pair.{Pair};
ghost use Rattle.cq_store.specs.StoreValue.{MayRefuse, MayTake, Only};
ghost use Rattle.cq_store.specs.declared.store.StoreFault.TheVariants.{Overflow, Pivots};
ghost use Rattle.cq_term.specs.Trees.{tree, KnowsTerms};
ghost use Rattle.cq_settle.specs.Worlds.{now_of, saved_of, room_of};
ghost use Rattle.cq_questions.specs.Extents.{side_of, IsExtentAt, IsReach};
ghost use Rattle.cq_questions.specs.Stops.{AtStates, ExtentStops};
ghost use Rattle.cq_questions.specs.Values.{AtValues};

use crate::terms::expression_now;
use crate::values::values_are_fixed;
use cq_cexpr::LinExpression;
use cq_form::Form;
use cq_settle::world::World;
use cq_store::store::{Extent, Store, StoreFault};
use cq_term::TermId;
use cq_term::atoms::Atoms;

/// An end of the values of an expression.
#[derive(Clone, Copy)]
pub enum Side {
    Least,
    Greatest,
}

/// How far an expression reaches.
#[derive(Clone, Copy)]
pub enum Reach {
    /// It is linear, with this extent.
    Linear(Extent),
    /// It waits for its variables.
    Waits,
    /// A divisor in it is zero.
    False,
}

/// How far an expression reaches at a side on the solutions of a world's linear constraints, where the variables that they fix
/// have their values. The world is as at the call.
pub fn reach_of(
    world: &mut World,
    atoms: &Atoms,
    side: Side,
    expression: TermId,
) -> Result<Reach, StoreFault>
    requires live { expression < length world.old.heap.now.terms }
    requires names { KnowsTerms atoms.now world.old.heap.now.terms }
    ensures reach { IfOk result (λ r. AtValues world.old.store.told (λ fixed. IsReach (side_of side) world.old.store.told fixed
        (tree atoms.now world.old.heap.now.terms expression) r)) }
    ensures stop { IfErr result (λ f. AtStates world.old.store.told
        (λ st. ExtentStops world.old.store.pivots st (side_of side) (tree atoms.now world.old.heap.now.terms expression) f)) }
    ensures unchanged { now_of world.new ≡ now_of world.old }
    ensures saved { saved_of world.new ≡ saved_of world.old }
    ensures room { room_of world.old ≤ room_of world.new }
{
    values_are_fixed(&world.store);
    match expression_now(&mut world.heap, &world.store, atoms, expression) {
        Ok(found) => match found {
            LinExpression::Waits => Ok(Reach::Waits),
            LinExpression::False => Ok(Reach::False),
            LinExpression::Linear(form) => match extent_of(&mut world.store, side, &form) {
                Ok(extent) => Ok(Reach::Linear(extent)),
                Err(fault) => Err(fault),
            },
        },
        Err(refusal) => Err(StoreFault::from(refusal)),
    }
}

/// How far a form reaches at a side on the solutions of the told list, which stays.
fn extent_of(store: &mut Store, side: Side, form: &Form) -> Result<Extent, StoreFault>
    ensures extent { IfOk result (λ e. IsExtentAt (side_of side) store.old.told form.now e) }
    ensures overflow { (pair : Pair) → result ≡ Err (Overflow pair) → MayRefuse store.old.told NoQuestion (Only (at_least_zero form.now)) pair }
    ensures pivots { (n : ℕ) → result ≡ Err (Pivots n) → (n ≡ store.old.pivots) × MayTake store.old.told NoQuestion (Only (at_least_zero form.now)) n }
    ensures told { store.new.told ≡ store.old.told }
    ensures saved { store.new.saved ≡ store.old.saved }
    ensures room { store.old.room ≤ store.new.room }
    ensures budget { store.new.pivots ≡ store.old.pivots }
{
    match side {
        Side::Least => store.inf(form),
        Side::Greatest => store.sup(form),
    }
}
