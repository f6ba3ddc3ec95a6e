//! Each search that a query reaches goes on: it has a next turn, or stops for a pair that arithmetic refuses. No code: each
//! function has an empty body, and its contract is a law of the definitions.
#![tactic(auto)]

ghost use Rattle.std.specs.Prelude.{◌⊎◌, ℕ};
ghost use Rattle.cq_frac.specs.declared.Pair.{Pair};
ghost use Rattle.spec_syntax.specs.Trees.{Tree};
ghost use Rattle.spec_search.specs.Database.{Database};
ghost use Rattle.spec_search.specs.Search.{Search, start};
ghost use Rattle.spec_search.specs.Turns.{Turn, Event, Refuses};
ghost use Rattle.spec_existence.specs.Sound.{AreSound};

/// At the start of a query its branches are sound, and each turn leads from sound branches to sound ones; so are those of
/// each search that a query reaches.
pub fn soundness_is_kept()
    ensures start { (db : Database) (query : Tree) (n : ℕ) → AreSound (start db query n).branches }
    ensures turn { (s t : Search) (e : Event) → Turn s e t → AreSound s.branches → AreSound t.branches }
{}

/// A search whose branches are sound has a next turn, or the arithmetic of the goal that it selects refuses two numbers.
pub fn searches_go_on()
    ensures { (s : Search) → AreSound s.branches
        → ((e : Event) × (t : Search) × Turn s e t) ⊎ ((pair : Pair) × Refuses s pair) }
{}
