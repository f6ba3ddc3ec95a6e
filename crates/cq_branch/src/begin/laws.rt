// Why a search stops while a branch is settled.

ghost use Rattle.std.specs.Prelude.{◌≡◌, ◌<◌, ◌∷◌, [], ℕ, List, None};
ghost use Rattle.spec_syntax.specs.Trees.{Tree};
ghost use Rattle.spec_branch.specs.Branch.{State, Item, Branch, Pending, read};
ghost use Rattle.spec_search.specs.Replies.{child, makes, made};
ghost use Rattle.spec_search.specs.Rows.{reply_of};
ghost use Rattle.spec_search.specs.Search.{Search, look_at, Selecting, Settling};
ghost use Rattle.spec_search.specs.Turns.{place_of, after_step, with_branches};
ghost use Rattle.spec_transcript.specs.Causes.{Budgets, Overflow, Pivots};
ghost use Rattle.spec_transcript.specs.Due.{Due};
ghost use Rattle.spec_engine.specs.Coming.{Tells, Stops};
ghost use Rattle.cq_frac.specs.declared.Pair.{Pair};
ghost use Rattle.cq_settle.specs.Settled.{MayRefuse, MayTake};

/// Where the first branch of a search is settled, an operation that is due then and refuses its pair may stop the query, and so
/// may exchanges past the budget.
pub fn settlings_stop()
    ensures overflow { (budgets : Budgets) (s : Search) (items : List Item) (st : State) (p : Pending) (behind : List Branch) (pair : Pair)
        → look_at s.branches ≡ Settling items st p behind → MayRefuse st p pair → Due budgets None s (Overflow pair) }
    ensures pivots { (budgets : Budgets) (s : Search) (items : List Item) (st : State) (p : Pending) (behind : List Branch)
        → look_at s.branches ≡ Settling items st p behind → MayTake st p budgets.pivots → Due budgets None s (Pivots budgets.pivots) }
{}

/// Where the row of a selected goal makes one child, the query stops while that is settled.
pub fn rows_stop()
    ensures overflow { (budgets : Budgets) (s : Search) (goal : Tree) (cut : ℕ) (items : List Item) (st : State) (behind : List Branch)
        (work : Pending) (pair : Pair) → look_at s.branches ≡ Selecting goal cut items st behind → s.selected < budgets.steps
        → reply_of (place_of s st items cut behind) (read st goal) ≡ makes (place_of s st items cut behind) (child items st work ∷ [])
        → MayRefuse st work pair → Tells budgets s (Stops (Overflow pair))
        (with_branches [] (after_step s (made (place_of s st items cut behind) (child items st work ∷ [])) behind)) }
    ensures pivots { (budgets : Budgets) (s : Search) (goal : Tree) (cut : ℕ) (items : List Item) (st : State) (behind : List Branch) (work : Pending)
        → look_at s.branches ≡ Selecting goal cut items st behind → s.selected < budgets.steps
        → reply_of (place_of s st items cut behind) (read st goal) ≡ makes (place_of s st items cut behind) (child items st work ∷ [])
        → MayTake st work budgets.pivots → Tells budgets s (Stops (Pivots budgets.pivots))
        (with_branches [] (after_step s (made (place_of s st items cut behind) (child items st work ∷ [])) behind)) }
{}
