//! Runs of a search: whatever clauses their calls leave out, and whatever form their linear constraints have, they show
//! the same. No code: each function has an empty body, and its contract is a law of the definitions.
#![tactic(auto)]

ghost use Rattle.std.specs.Prelude.{◌≡◌, ℕ, ◌<◌, ◌≤◌, List, [], ◌∷◌, length};
ghost use Rattle.spec_syntax.specs.Trees.{Tree};
ghost use Rattle.spec_search.specs.Database.{Database};
ghost use Rattle.spec_search.specs.Search.{Search, start};
ghost use Rattle.spec_search.specs.Turns.{Turn, Event};
ghost use Rattle.spec_search.specs.Runs.{Mark, marks, Run, SameAsFar, CatchesUp};
ghost use Rattle.spec_search.specs.Example.{one_clause, asked, only_child, once_selected, selected_once};
ghost use Rattle.spec_search.specs.Weight.{weight};

/// From each search that a query reaches, all runs leave the same marks as far as they go: the same output, answers, balls
/// and end, each after as many selected goals, whatever clauses the calls of user predicates leave out. And no run gets
/// stuck where another goes on.
pub fn runs_show_the_same()
    ensures same { (db : Database) (query : Tree) (n : ℕ) (ls ms ns : List Mark) (s t u : Search) → Run (start db query n) ls s
        → Run s ms t → Run s ns u → SameAsFar ms ns }
    ensures goes_on { (db : Database) (query : Tree) (n : ℕ) (ls ms ns : List Mark) (s t u : Search) → Run (start db query n) ls s
        → Run s ms t → Run s ns u → length ms ≤ length ns → CatchesUp ms t ns }
{}

/// A turn that leaves no mark takes from the weight of its search, so only so many of them follow one another.
pub fn unmarked_turns_end()
    ensures { (s t : Search) (e : Event) → Turn s e t → marks s.selected e t.selected ≡ [] → weight t.branches < weight s.branches }
{}

/// Two runs of a query that its one clause doesn't match: one leaves the clause out, and the other prunes its child.
pub fn two_runs()
    ensures left_out { Run (start one_clause asked 0) (selected_once ∷ []) (once_selected []) }
    ensures taken { Run (start one_clause asked 0) (selected_once ∷ []) (once_selected (only_child ∷ [])) }
    ensures pruned { Run (once_selected (only_child ∷ [])) [] (once_selected []) }
{}
