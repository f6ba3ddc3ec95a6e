// What a search comes to where a goal calls clauses.

ghost use Rattle.std.specs.Prelude.{◌≡◌, ◌<◌, ℕ, suc, List, Option};
ghost use Rattle.spec_numbers.specs.Texts.{Text};
ghost use Rattle.spec_syntax.specs.Trees.{Tree};
ghost use Rattle.spec_builtins.specs.Built.{indicator_of};
ghost use Rattle.spec_branch.specs.Branch.{State, Item, Branch, read};
ghost use Rattle.spec_search.specs.Control.{user_row};
ghost use Rattle.spec_search.specs.Rows.{reply_of};
ghost use Rattle.spec_search.specs.Search.{Search, look_at, Selecting};
ghost use Rattle.spec_search.specs.Turns.{place_of};
ghost use Rattle.spec_engine.specs.Cells.{Value, Stack};
ghost use Rattle.spec_engine.specs.Coming.{Comes};
ghost use Rattle.spec_engine.specs.Standing.{engine};
ghost use Rattle.cq_settle.specs.Contents.{Contents};
ghost use Rattle.cq_branch.specs.Worlds.{IsBranch, term_in};
ghost use Rattle.cq_calls.specs.Calling.{CallBecomes};

/// Where the selected goal calls a user predicate, the search comes quietly to where the engine is then.
pub fn called_goals_come_on()
    ensures { (texts : List Text) (steps : ℕ) (s : Search) (goal : Tree) (cut : ℕ) (items : List Item) (st : State) (behind : List Branch)
        → look_at s.branches ≡ Selecting goal cut items st behind → s.selected < steps
        → reply_of (place_of s st items cut behind) (read st goal) ≡ user_row (place_of s st items cut behind) (indicator_of (read st goal))
        → (choices : Stack Contents) (now : Value Contents) (current : Option ℕ)
        → CallBecomes texts choices now current (place_of s st items cut behind) behind (read st goal)
        → Comes (IsBranch texts) (term_in texts) steps (engine s.database (suc s.selected) choices now current) s }
{}
