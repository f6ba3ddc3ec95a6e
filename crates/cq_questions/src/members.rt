// The members of a constraint that is asked about, as linear constraints.

ghost use Rattle.std.specs.Prelude.{◌≡◌, ◌≤◌, IfOk, IfSome, IfNone};
ghost use Rattle.spec_linear.specs.Solution.{Has};
ghost use Rattle.spec_syntax.specs.Trees.{Tree};
ghost use Rattle.spec_branch.specs.Relations.{Waits};
ghost use Rattle.spec_transcript.specs.Operands.{relation_operands};
ghost use Rattle.cq_cexpr.specs.Found.{constraint_of};
ghost use Rattle.cq_cexpr.specs.Overflows.{ComesFrom};
ghost use Rattle.cq_frac.specs.declared.Pair.{Pair};
ghost use Rattle.cq_built.specs.Splitting.{AreLive};
ghost use Rattle.cq_term.specs.Trees.{trees, KnowsTerms};
ghost use Rattle.cq_questions.specs.Members.{lin_of, IsFound};
ghost use Rattle.cq_questions.specs.Values.{AtValues};

use crate::terms::relation_now;
use cq_cexpr::Lin;
use cq_form::Constraint;
use cq_frac::Refusal;
use cq_store::store::Store;
use cq_term::atoms::Atoms;
use cq_term::{Heap, TermId};

/// A member that doesn't wait.
#[derive(Drop)]
pub(crate) enum Member {
    Linear(Constraint),
    /// A divisor in it is zero.
    False,
}

/// What the members of a constraint are.
#[derive(Drop)]
pub(crate) enum Found {
    /// None of them waits.
    All(Vec<Member>),
    /// The first one that waits.
    Waits(TermId),
}

/// What the members are under the values that the told list fixes. The heap is as at the call.
pub(crate) fn members_now(
    heap: &mut Heap,
    store: &Store,
    atoms: &Atoms,
    members: &[TermId],
) -> Result<Found, Refusal>
    requires live { AreLive heap.old.now.terms members.now }
    requires names { KnowsTerms atoms.now heap.old.now.terms }
    ensures found { IfOk result (λ r. AtValues store.now.told (λ fixed. IsFound atoms.now heap.old.now.terms fixed members.now r)) }
    ensures overflow { (pair : Pair) → result ≡ Err (Refusal.Overflow pair) → AtValues store.now.told
        (λ fixed. (m : Tree) × Has m (trees atoms.now heap.old.now.terms members.now) × ComesFrom (relation_operands fixed m) pair) }
    ensures heap { heap.new.now ≡ heap.old.now }
    ensures saved { heap.new.saved ≡ heap.old.saved }
    ensures room { heap.old.room ≤ heap.new.room }
{
    let mut found = Vec::new(heap.alloc());
    for &member in members {
        match relation_now(heap, store, atoms, member) {
            Ok(relation) => match member_of(relation) {
                Some(next) => found.push(next)?,
                None => return Ok(Found::Waits(member)),
            },
            Err(refusal) => return Err(refusal),
        }
    }
    Ok(Found::All(found))
}

/// The relation as a member, unless it waits.
fn member_of(relation: Lin) -> Option<Member>
    ensures some { IfSome result (λ m. constraint_of relation ≡ lin_of m) }
    ensures none { IfNone result (constraint_of relation ≡ Waits) }
{
    match relation {
        Lin::Linear(constraint) => Some(Member::Linear(constraint)),
        Lin::False => Some(Member::False),
        Lin::Waits(_) => None,
    }
}
