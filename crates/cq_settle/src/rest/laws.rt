// What holds of worlds in which nothing is left to settle.

ghost use Rattle.std.specs.Prelude.{◌≡◌, ◌≤◌, ◌<◌, ℕ, List, [], ◌∷◌, All, length};
ghost use Rattle.spec_linear.specs.Solution.{Constraint};
ghost use Rattle.spec_numbers.specs.Texts.{Text};
ghost use Rattle.spec_terms.specs.Unifier.{HasNoUnifier, read_under};
ghost use Rattle.spec_branch.specs.Branch.{State, Pending};
ghost use Rattle.cq_term.specs.Texts.{AreDifferent};
ghost use Rattle.cq_attr.specs.Attributes.{suspended};
ghost use Rattle.cq_attr.specs.declared.susp.Susp.TheVariants.{Goal};
ghost use Rattle.cq_frac.specs.declared.VarId.{VarId};
ghost use Rattle.cq_term.specs.HeapValue.{Terms};
ghost use Rattle.cq_term.specs.Shown.{IsUnbound};
ghost use Rattle.cq_term.specs.Trees.{KnowsTerms};
ghost use Rattle.cq_term.specs.Pairs.{IsLive, equations};
ghost use Rattle.cq_term.specs.declared.walk.pairs.Pair.{Pair};
ghost use Rattle.cq_settle.specs.Contents.{Contents};
ghost use Rattle.cq_settle.specs.Rest.{IsReady, IsReadyAs};
ghost use Rattle.cq_settle.specs.Called.{SomeIsCalled, OfCalls};
ghost use Rattle.cq_settle.specs.Settled.{IsKept};
ghost use Rattle.cq_settle.specs.Equal.{MayBeEqual, AllEqual, IsWork, work_of, CallsFor};
ghost use Rattle.cq_settle.specs.Ready.{KnowsNothing, MayBeTold, with_terms, with_attributes};

/// A world in which nothing was told or bound has nothing left to settle.
pub fn new_worlds_are_ready()
    ensures ready { (texts : List Text) (c : Contents) → KnowsNothing texts c → IsReady texts c }
{}

/// Where nothing is left to settle, constraints may be told: settling is called for.
pub fn constraints_may_be_told()
    ensures called { (texts : List Text) (c : Contents) (told : List ℕ) (rows : List Constraint) → IsReady texts c
        → All (MayBeTold c.heap) told → SomeIsCalled texts c [] told rows }
{}

/// Where the branch is kept, nothing is left to settle, and the terms and the variables stay. Then each name has a text.
pub fn kept_worlds_are_ready()
    ensures ready { (texts : List Text) (old new : Contents) (newly : List VarId) (told : List ℕ) (rows : List Constraint) (goals : List ℕ)
        → SomeIsCalled texts old newly told rows → OfCalls texts old newly told rows (λ st p u. IsKept texts old new goals st p u)
        → IsReady texts new }
    ensures live { (texts : List Text) (old new : Contents) (newly : List VarId) (told : List ℕ) (rows : List Constraint) (goals : List ℕ)
        → SomeIsCalled texts old newly told rows → OfCalls texts old newly told rows (λ st p u. IsKept texts old new goals st p u)
        → (length old.heap.terms ≤ length new.heap.terms) × (length new.heap.images ≡ length old.heap.images) }
    ensures goals { (texts : List Text) (old new : Contents) (newly : List VarId) (told : List ℕ) (rows : List Constraint) (goals : List ℕ)
        → SomeIsCalled texts old newly told rows → OfCalls texts old newly told rows (λ st p u. IsKept texts old new goals st p u)
        → All (λ id. id < length new.heap.terms) goals }
    ensures names { (texts : List Text) (c : Contents) → IsReady texts c → KnowsTerms texts c.heap.terms }
{}

/// Where nothing was left to settle and pairs of terms were made equal, settling is called for: of each work of a branch that
/// these pairs and the told terms are, in each state of the world. The terms as they read are such work. Where nothing makes
/// the pairs equal, nothing makes those of the work equal.
pub fn equated_worlds_may_be_settled()
    ensures called { (texts : List Text) (c : Contents) (h : Terms) (pairs : List Pair) (newly : List VarId) (told : List ℕ) (rows : List Constraint)
        → AreDifferent texts → IsReady texts c → AllEqual c.heap h pairs newly → KnowsTerms texts h.terms → All (MayBeTold c.heap) told
        → SomeIsCalled texts (with_terms c h) newly told rows }
    ensures each { (texts : List Text) (c : Contents) (h : Terms) (pairs : List Pair) (newly : List VarId) (told : List ℕ) (rows : List Constraint)
        (st : State) (p : Pending) → AreDifferent texts → IsReadyAs texts c st → AllEqual c.heap h pairs newly → KnowsTerms texts h.terms
        → All (λ id. id < length c.heap.terms) told → IsWork texts c st pairs told rows p → CallsFor texts c h newly told rows st p }
    ensures work { (texts : List Text) (c : Contents) (pairs : List Pair) (told : List ℕ) (rows : List Constraint) (st : State)
        → IsReadyAs texts c st → All (MayBeEqual c.heap) pairs → All (MayBeTold c.heap) told
        → IsWork texts c st pairs told rows (work_of texts c pairs told rows) }
    ensures none { (texts : List Text) (c : Contents) (pairs : List Pair) (told : List ℕ) (rows : List Constraint) (st : State) (p : Pending)
        → AreDifferent texts → KnowsTerms texts c.heap.terms → All (IsLive c.heap.terms) pairs → HasNoUnifier (equations c.heap.terms pairs)
        → IsWork texts c st pairs told rows p → HasNoUnifier (read_under st.bindings p.equations) }
{}

/// Where nothing is left to settle, a goal may be put to sleep on a variable that is unbound.
pub fn goals_may_be_put_to_sleep()
    ensures ready { (texts : List Text) (c : Contents) (v : VarId) (goal : ℕ) → IsReady texts c → IsUnbound c.heap.images v.0
        → MayBeTold c.heap goal → IsReady texts (with_attributes c (suspended c.attrs (v.0 ∷ []) (Goal v goal))) }
{}
