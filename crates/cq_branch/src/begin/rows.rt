// The rows of goals that make terms equal, or tell constraints.

ghost use Rattle.std.specs.Prelude.{◌≡◌, ◌<◌, ◌≤◌, [], ◌∷◌, ℕ, List, All, Some, true, false, length, IfOk, OnErr};
ghost use Rattle.spec_branch.specs.Branch.{Branch};
ghost use Rattle.spec_search.specs.Constraints.{told_child};
ghost use Rattle.spec_search.specs.Replies.{Place, makes, unifies, with_equations};
ghost use Rattle.cq_term.specs.Texts.{AreDifferent};
ghost use Rattle.cq_frac.specs.declared.Pair.{Pair};
ghost use Rattle.cq_store.specs.declared.store.StoreFault.TheVariants.{Overflow, Pivots};
ghost use Rattle.spec_engine.specs.Cells.{Stack};
ghost use Rattle.cq_term.specs.Trees.{trees};
ghost use Rattle.cq_term.specs.Pairs.{IsLive};
ghost use Rattle.cq_settle.specs.Contents.{Contents};
ghost use Rattle.cq_settle.specs.Rest.{IsReady};
ghost use Rattle.cq_settle.specs.Worlds.{now_of, saved_of, room_of};
ghost use Rattle.cq_settle.specs.Settled.{MayRefuse, MayTake};
ghost use Rattle.cq_branch.specs.Lists.{KeepsLists};
ghost use Rattle.cq_branch.specs.Worlds.{value, with_heap, Placed, Leads};
ghost use Rattle.cq_branch.specs.Begun.{IfGoes, IfPruned, goes_to, trees_of_pairs, told_work, AtPlaces};

use crate::begin::beginning::{Begun, begin};
use crate::begin::equal::bind_constant;
use cq_control::{Continuation, Continuations};
use cq_settle::rest::{equated_worlds_may_be_settled, look_at_pairs, look_at_told};
use cq_settle::world::World;
use cq_store::store::StoreFault;
use cq_term::TermId;
use cq_term::atoms::Atoms;
use spec_engine::machine::Cell;

/// A goal that makes pairs of terms equal goes on where something makes them so, and has no child where nothing does, or
/// where the constraints have no solution then. `A = B` has one pair. Where it has no child, and after an error, the world is
/// as at the call.
pub fn unify(
    world: &mut World,
    lists: &mut Continuations<Cell>,
    atoms: &Atoms,
    pairs: &[cq_term::walk::Pair],
    rest: Continuation,
) -> Result<Begun, StoreFault>
    requires ready { IsReady atoms.now (now_of world.old) }
    requires different { AreDifferent atoms.now }
    requires pairs { All (IsLive world.old.heap.now.terms) pairs.now }
    requires rest { rest < length lists.old.now }
    ensures row { IfOk result (λ b. (choices : Stack Contents) (p : Place) (behind : List Branch)
        → Placed atoms.now choices (value world.old lists.old.now) rest p behind
        → Leads atoms.now choices (value world.new lists.new.now) (goes_to b) p behind
        (unifies p (trees_of_pairs atoms.now world.old.heap.now.terms pairs.now))) }

    // Where it has no child, and after an error, the world is as it was.
    ensures unchanged { IfOk result (λ b. IfPruned b (now_of world.new ≡ now_of world.old)) }
    ensures err { OnErr result (now_of world.new ≡ now_of world.old) }

    // A stop is due while the child is settled.
    ensures overflow { (pair : Pair) → result ≡ Err (Overflow pair) → AtPlaces atoms.now (value world.old lists.old.now) rest
        (λ st. MayRefuse st (with_equations (trees_of_pairs atoms.now world.old.heap.now.terms pairs.now)) pair) }
    ensures pivots { (n : ℕ) → result ≡ Err (Pivots n)
        → (n ≡ world.old.store.pivots) × AtPlaces atoms.now (value world.old lists.old.now) rest
        (λ st. MayTake st (with_equations (trees_of_pairs atoms.now world.old.heap.now.terms pairs.now)) n) }
    ensures there { IfOk result (λ b. IfGoes b (λ k. k < length lists.new.now)) }
    ensures keeps { KeepsLists lists.old.now lists.new.now }
    ensures lists { lists.new.saved ≡ lists.old.saved }
    ensures saved { saved_of world.new ≡ saved_of world.old }
    ensures budget { world.new.store.pivots ≡ world.old.store.pivots }
    ensures room { room_of world.old ≤ room_of world.new }
{
    equated_worlds_may_be_settled();
    look_at_pairs(&world.heap, pairs);
    let told = Vec::new(world.heap.alloc());
    begin(world, lists, atoms, pairs, told, rest)
}

/// The same of one pair, a variable that nothing waits for and a number or a name: the variable is bound, with no mark, and nothing
/// is to be settled. False, with nothing changed, where the pairs are others, and where memory is wanting.
pub fn unify_constant(
    world: &mut World,
    lists: &Continuations<Cell>,
    atoms: &Atoms,
    pairs: &[cq_term::walk::Pair],
    rest: Continuation,
) -> bool
    requires ready { IsReady atoms.now (now_of world.old) }
    requires different { AreDifferent atoms.now }
    requires pairs { All (IsLive world.old.heap.now.terms) pairs.now }
    requires rest { rest < length lists.now.now }
    ensures row { result ≡ true → (choices : Stack Contents) (p : Place) (behind : List Branch)
        → Placed atoms.now choices (value world.old lists.now.now) rest p behind
        → Leads atoms.now choices (value world.new lists.now.now) (Some rest) p behind
        (unifies p (trees_of_pairs atoms.now world.old.heap.now.terms pairs.now)) }
    ensures unchanged { result ≡ false → now_of world.new ≡ now_of world.old }
    ensures others { now_of world.new ≡ with_heap world.new.heap.now (now_of world.old) }
    ensures saved { saved_of world.new ≡ saved_of world.old }
    ensures budget { world.new.store.pivots ≡ world.old.store.pivots }
    ensures room { room_of world.old ≤ room_of world.new }
{
    equated_worlds_may_be_settled();
    look_at_pairs(&world.heap, pairs);
    let _told = world.store.told();
    if pairs.len() != 1 {
        return false;
    }
    match bind_constant(&mut world.heap, &world.attrs, pairs[0]) {
        Ok(bound) => bound,
        Err(_) => false,
    }
}

/// A goal that tells relations, as the members of `{C}`, goes on, and has no child where the constraints have no solution then.
/// Where it has no child, and after an error, the world is as at the call.
pub fn tell(
    world: &mut World,
    lists: &mut Continuations<Cell>,
    atoms: &Atoms,
    told: Vec<TermId>,
    rest: Continuation,
) -> Result<Begun, StoreFault>
    requires ready { IsReady atoms.now (now_of world.old) }
    requires different { AreDifferent atoms.now }
    requires told { All (λ id. id < length world.old.heap.now.terms) told.items }
    requires rest { rest < length lists.old.now }
    ensures row { IfOk result (λ b. (choices : Stack Contents) (p : Place) (behind : List Branch)
        → Placed atoms.now choices (value world.old lists.old.now) rest p behind
        → Leads atoms.now choices (value world.new lists.new.now) (goes_to b) p behind
        (makes p (told_child p (trees atoms.now world.old.heap.now.terms told.items) ∷ []))) }

    // Where it has no child, and after an error, the world is as it was.
    ensures unchanged { IfOk result (λ b. IfPruned b (now_of world.new ≡ now_of world.old)) }
    ensures err { OnErr result (now_of world.new ≡ now_of world.old) }

    // A stop is due while the child is settled.
    ensures overflow { (pair : Pair) → result ≡ Err (Overflow pair) → AtPlaces atoms.now (value world.old lists.old.now) rest
        (λ st. MayRefuse st (told_work (trees atoms.now world.old.heap.now.terms told.items)) pair) }
    ensures pivots { (n : ℕ) → result ≡ Err (Pivots n)
        → (n ≡ world.old.store.pivots) × AtPlaces atoms.now (value world.old lists.old.now) rest
        (λ st. MayTake st (told_work (trees atoms.now world.old.heap.now.terms told.items)) n) }
    ensures there { IfOk result (λ b. IfGoes b (λ k. k < length lists.new.now)) }
    ensures keeps { KeepsLists lists.old.now lists.new.now }
    ensures lists { lists.new.saved ≡ lists.old.saved }
    ensures saved { saved_of world.new ≡ saved_of world.old }
    ensures budget { world.new.store.pivots ≡ world.old.store.pivots }
    ensures room { room_of world.old ≤ room_of world.new }
{
    equated_worlds_may_be_settled();
    look_at_told(&world.heap, &told);
    begin(world, lists, atoms, &[], told, rest)
}
