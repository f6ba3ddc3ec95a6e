// Why a query stops at a goal.

ghost use Rattle.std.specs.Prelude.{◌≡◌, ◌<◌, ℕ, List};
ghost use Rattle.spec_syntax.specs.Trees.{Tree};
ghost use Rattle.spec_branch.specs.Branch.{State, Item, Branch, read};
ghost use Rattle.spec_search.specs.Search.{Search, look_at, Selecting};
ghost use Rattle.spec_search.specs.Turns.{place_of};
ghost use Rattle.spec_transcript.specs.Causes as cause;
ghost use Rattle.spec_transcript.specs.Causes.{Budgets};
ghost use Rattle.cq_branch.specs.Stops.{ComesToStop};
ghost use Rattle.cq_frac.specs.declared.Pair.{Pair};
ghost use Rattle.cq_store.specs.declared.store.StoreFault.TheVariants.{Overflow, Pivots};
ghost use Rattle.cq_execute.specs.Asked.{IsStoppedAt};

/// Where a query stops at a selected goal, it stops in the goal's own turn, while the linear constraints are asked, or while the
/// goal's one child is settled.
pub fn goals_stop()
    ensures overflow { (budgets : Budgets) (s : Search) (goal : Tree) (cut : ℕ) (items : List Item) (st : State) (behind : List Branch) (pair : Pair)
        → look_at s.branches ≡ Selecting goal cut items st behind → s.selected < budgets.steps
        → IsStoppedAt budgets.pivots (Overflow pair) (place_of s st items cut behind) (read st goal)
        → ComesToStop budgets (cause.Overflow pair) s }
    ensures pivots { (budgets : Budgets) (s : Search) (goal : Tree) (cut : ℕ) (items : List Item) (st : State) (behind : List Branch) (n : ℕ)
        → look_at s.branches ≡ Selecting goal cut items st behind → s.selected < budgets.steps
        → IsStoppedAt budgets.pivots (Pivots n) (place_of s st items cut behind) (read st goal)
        → ComesToStop budgets (cause.Pivots n) s }
{}
