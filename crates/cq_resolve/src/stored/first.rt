// First arguments, by which clauses are passed over whose heads can't be made equal to a goal.

ghost use Rattle.std.specs.Prelude.{◌≡◌, ◌≢◌, ◌<◌, [], ◌∷◌, ℕ, length, Some};
ghost use Rattle.spec_terms.specs.Term.{Subst, apply};
ghost use Rattle.spec_terms.specs.Unifier.{HasNoUnifier};
ghost use Rattle.cq_term.specs.Meaning.{HeapTerm, at};
ghost use Rattle.cq_term.specs.declared.view.View.{View};
ghost use Rattle.cq_resolve.specs.FirstArgument.{first_shown, IsRigid};

use cq_term::{Heap, TermId, View};

/// The head of a goal's first argument, if it has one.
pub fn first_argument(heap: &Heap, goal: TermId) -> Option<View>
    requires { goal < length heap.now.now.terms }
    ensures { result ≡ first_shown (at heap.now.now.terms goal) }
{
    match heap.view(goal) {
        View::Compound(_, _) => Some(heap.view(heap.arg(goal, 0))),
        View::Var(_) | View::Number(_) | View::Name(_) => None,
    }
}

/// Where the first arguments of a goal and of a clause's head show two different heads, neither of a variable, nothing
/// makes the goal and the head equal, under whatever variables the head is put.
pub fn first_arguments_tell_apart()
    ensures { (t u : HeapTerm) (r : Subst ℕ) (g h : View) → first_shown t ≡ Some g → first_shown u ≡ Some h → IsRigid g → IsRigid h
        → g ≢ h → HasNoUnifier (record { left = t; right = apply r u } ∷ []) }
{}
