// Whether the linear constraints of a world entail the members of a constraint.

ghost use Rattle.std.specs.Prelude.{◌≡◌, ◌≤◌, ◌∷◌, [], ℕ, Any, All, IfOk, IfErr, MatchBool};
ghost use Rattle.spec_simplex.specs.Asked.{NoQuestion};
ghost use Rattle.spec_search.specs.Steps.{IsEntailed, IsBroken};
ghost use Rattle.cq_frac.specs.declared.Pair.{Pair};
ghost use Rattle.cq_store.specs.StoreValue.{MayRefuse, MayTake, Only};
ghost use Rattle.cq_store.specs.declared.store.StoreFault.TheVariants.{Overflow, Pivots};
ghost use Rattle.cq_built.specs.Splitting.{AreLive};
ghost use Rattle.cq_term.specs.Trees.{trees, KnowsTerms};
ghost use Rattle.cq_settle.specs.Worlds.{now_of, saved_of, room_of};
ghost use Rattle.cq_questions.specs.Members.{lin_of, IsAnswer, AsksOne};
ghost use Rattle.cq_questions.specs.Stops.{AtStates, MembersStop};
ghost use Rattle.cq_questions.specs.Values.{AtValues};

use crate::members::{Found, Member, members_now};
use crate::values::values_are_fixed;
use cq_settle::world::World;
use cq_store::store::{Store, StoreFault};
use cq_term::TermId;
use cq_term::atoms::Atoms;

/// Whether the linear constraints entail several relations.
#[derive(Clone, Copy)]
pub enum Entailment {
    /// They entail each.
    Entailed,
    /// Some solution breaks one, or it is false: a divisor in it is zero.
    Broken,
    /// This is the first relation that waits for its variables.
    Waits(TermId),
}

/// Whether the linear constraints of a world entail the members of a constraint, of which the variables that they fix have
/// their values. The world is as at the call.
pub fn entailed(
    world: &mut World,
    atoms: &Atoms,
    members: &[TermId],
) -> Result<Entailment, StoreFault>
    requires live { AreLive world.old.heap.now.terms members.now }
    requires names { KnowsTerms atoms.now world.old.heap.now.terms }
    ensures answer { IfOk result (λ r. AtValues world.old.store.told (λ fixed. IsAnswer atoms.now world.old.heap.now.terms world.old.store.told fixed
        (trees atoms.now world.old.heap.now.terms members.now) r)) }
    ensures stop { IfErr result (λ f. AtStates world.old.store.told
        (λ st. MembersStop world.old.store.pivots st (trees atoms.now world.old.heap.now.terms members.now) f)) }
    ensures unchanged { now_of world.new ≡ now_of world.old }
    ensures saved { saved_of world.new ≡ saved_of world.old }
    ensures room { room_of world.old ≤ room_of world.new }
{
    values_are_fixed(&world.store);
    match members_now(&mut world.heap, &world.store, atoms, members) {
        Ok(found) => match found {
            Found::Waits(member) => Ok(Entailment::Waits(member)),
            Found::All(all) => match all_entailed(&mut world.store, &all) {
                Ok(yes) => Ok(if_all(yes)),
                Err(fault) => Err(fault),
            },
        },
        Err(refusal) => Err(StoreFault::from(refusal)),
    }
}

/// The answer where no member waits.
fn if_all(entailed: bool) -> Entailment
    ensures { MatchBool entailed (result ≡ Entailment.Entailed) (result ≡ Entailment.Broken) }
{
    if entailed {
        Entailment::Entailed
    } else {
        Entailment::Broken
    }
}

/// Whether the told list entails each member; where it doesn't, one is broken or false. The told list stays.
fn all_entailed(store: &mut Store, members: &[Member]) -> Result<bool, StoreFault>
    ensures entailed { IfOk result (λ yes. MatchBool yes
        (All (λ m. IsEntailed store.old.told (lin_of m)) members.now)
        (Any (λ m. IsBroken store.old.told (lin_of m)) members.now)) }
    ensures overflow { (pair : Pair) → result ≡ Err (Overflow pair)
        → AsksOne members.now (λ c. MayRefuse store.old.told NoQuestion (Only c) pair) }
    ensures pivots { (n : ℕ) → result ≡ Err (Pivots n)
        → (n ≡ store.old.pivots) × AsksOne members.now (λ c. MayTake store.old.told NoQuestion (Only c) n) }
    ensures told { store.new.told ≡ store.old.told }
    ensures saved { store.new.saved ≡ store.old.saved }
    ensures room { store.old.room ≤ store.new.room }
    ensures budget { store.new.pivots ≡ store.old.pivots }
{
    for member in members {
        if !is_entailed(store, member)? {
            return Ok(false);
        }
    }
    Ok(true)
}

/// Whether the told list entails the member.
fn is_entailed(store: &mut Store, member: &Member) -> Result<bool, StoreFault>
    ensures entailed { IfOk result (λ yes. MatchBool yes (IsEntailed store.old.told (lin_of member.now)) (IsBroken store.old.told (lin_of member.now))) }
    ensures overflow { (pair : Pair) → result ≡ Err (Overflow pair)
        → AsksOne (member.now ∷ []) (λ c. MayRefuse store.old.told NoQuestion (Only c) pair) }
    ensures pivots { (n : ℕ) → result ≡ Err (Pivots n)
        → (n ≡ store.old.pivots) × AsksOne (member.now ∷ []) (λ c. MayTake store.old.told NoQuestion (Only c) n) }
    ensures told { store.new.told ≡ store.old.told }
    ensures saved { store.new.saved ≡ store.old.saved }
    ensures room { store.old.room ≤ store.new.room }
    ensures budget { store.new.pivots ≡ store.old.pivots }
{
    match member {
        Member::False => Ok(false),
        Member::Linear(constraint) => store.entailed(constraint),
    }
}
