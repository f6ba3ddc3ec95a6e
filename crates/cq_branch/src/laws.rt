// What an engine may do where a goal is in front, by the goal's row.

ghost use Rattle.std.specs.Prelude.{◌≡◌, ◌<◌, ◌∷◌, ℕ, suc, List, Option, None, Some, length, slice_get, false, true};
ghost use Rattle.spec_numbers.specs.Prefixes.{IsPrefix};
ghost use Rattle.spec_numbers.specs.Texts.{Text};
ghost use Rattle.spec_syntax.specs.Trees.{Tree};
ghost use Rattle.spec_builtins.specs.Terms as builtins;
ghost use Rattle.spec_branch.specs.Branch.{State, Item, Branch, read};
ghost use Rattle.spec_search.specs.Database.{Database};
ghost use Rattle.spec_search.specs.Replies.{Place, succeeds_if};
ghost use Rattle.spec_search.specs.Rows.{nth, reply_of};
ghost use Rattle.spec_search.specs.Search.{Search, empty_state, look_at, Selecting};
ghost use Rattle.spec_search.specs.Turns.{place_of};
ghost use Rattle.spec_engine.specs.declared.machine.cell.Cell.{Cell};
ghost use Rattle.spec_engine.specs.declared.machine.cell.Cell.TheVariants.{Goal, Call};
ghost use Rattle.spec_engine.specs.Cells.{Value, Stack};
ghost use Rattle.spec_engine.specs.Coming.{Comes};
ghost use Rattle.spec_engine.specs.Standing.{engine, IsStanding};
ghost use Rattle.cq_control.specs.Items.{items_at};
ghost use Rattle.cq_term.specs.HeapValue.{Terms};
ghost use Rattle.cq_term.specs.Meaning.{at};
ghost use Rattle.cq_term.specs.Shown.{arguments};
ghost use Rattle.cq_term.specs.Trees.{KnowsTerms};
ghost use Rattle.cq_settle.specs.Contents.{Contents};
ghost use Rattle.cq_branch.specs.Selecting.{Selects, SelectsCall};
ghost use Rattle.cq_branch.specs.Lists.{KeepsLists};
ghost use Rattle.cq_branch.specs.Worlds.{IsBranch, term_in, KnowsNothing, ReadsAs, Selected, Leads, Grown, with_heap};

/// A goal in front is the one that the search selects, and one that is put as `call` of it is selected so. Where the engine
/// leads to what the goal's row makes, the search comes to it.
pub fn selected_goals_lead()
    ensures goal { (texts : List Text) (db : Database) (n : ℕ) (choices : Stack Contents) (now : Value Contents) (k rest : ℕ) (s : Search)
        → IsStanding (IsBranch texts) (term_in texts) (engine db n choices now (Some k)) s → rest < k
        → (t height : ℕ) → items_at now.1 k ≡ Goal t height ∷ items_at now.1 rest
        → (c : Selects (IsBranch texts) (term_in texts) choices now height rest s) × (term_in texts now.0 t ≡ Some (read c.state c.goal)) }
    ensures call { (texts : List Text) (db : Database) (n : ℕ) (choices : Stack Contents) (now : Value Contents) (k rest : ℕ) (s : Search)
        → IsStanding (IsBranch texts) (term_in texts) (engine db n choices now (Some k)) s → rest < k
        → (t : ℕ) → items_at now.1 k ≡ Call t ∷ items_at now.1 rest
        → (c : SelectsCall (IsBranch texts) (term_in texts) choices now rest s) × (term_in texts now.0 t ≡ Some (read c.state c.goal)) }
    ensures comes { (texts : List Text) (steps : ℕ) (s : Search) (goal : Tree) (cut : ℕ) (items : List Item) (st : State) (behind : List Branch)
        → look_at s.branches ≡ Selecting goal cut items st behind → s.selected < steps
        → (choices : Stack Contents) (now : Value Contents) (current : Option ℕ)
        → Leads texts choices now current (place_of s st items cut behind) behind (reply_of (place_of s st items cut behind) (read st goal))
        → Comes (IsBranch texts) (term_in texts) steps (engine s.database (suc s.selected) choices now current) s }
    ensures reads { (texts : List Text) (c : Contents) (st : State) (id : ℕ) (t : Tree) → IsBranch texts c st
        → term_in texts c id ≡ Some (read st t) → ReadsAs texts c st id (read st t) }
    ensures there { (texts : List Text) (c : Contents) (id : ℕ) (t : Tree) → term_in texts c id ≡ Some t → id < length c.heap.terms }
{}

/// The arguments of a term that reads as itself read as themselves.
pub fn arguments_read_as_themselves()
    ensures { (texts : List Text) (c : Contents) (st : State) (id i k : ℕ) (t : Tree) → ReadsAs texts c st id t → k < length c.heap.terms
        → slice_get (arguments (at c.heap.terms id)) i ≡ Some (at c.heap.terms k) → ReadsAs texts c st k (nth (builtins.arguments t) i) }
{}

/// A goal that has nothing more to do goes on behind it, and one that fails comes back.
pub fn goals_succeed_or_fail()
    ensures on { (texts : List Text) (choices : Stack Contents) (now : Value Contents) (height rest : ℕ) (p : Place) (behind : List Branch)
        → Selected texts choices now height rest p behind → Leads texts choices now (Some rest) p behind (succeeds_if true p) }
    ensures back { (texts : List Text) (choices : Stack Contents) (now : Value Contents) (height rest : ℕ) (p : Place) (behind : List Branch)
        → Selected texts choices now height rest p behind → Leads texts choices now None p behind (succeeds_if false p) }
{}

/// More that is built, terms without variables of their own and continuations, changes nothing of what an engine stands for.
pub fn more_may_be_built()
    ensures terms { (texts : List Text) (c : Contents) (h : Terms) → IsPrefix c.heap.terms h.terms → h.images ≡ c.heap.images → KnowsTerms texts h.terms
        → (old new : List (List Cell)) → KeepsLists old new → Grown texts (c, old) (with_heap h c, new) }
    ensures stands { (texts : List Text) (db : Database) (n : ℕ) (choices : Stack Contents) (old new : Value Contents) → Grown texts old new
        → (current : Option ℕ) (s : Search) → IsStanding (IsBranch texts) (term_in texts) (engine db n choices old current) s
        → IsStanding (IsBranch texts) (term_in texts) (engine db n choices new current) s }
{}

/// A world of which nothing is known is the state of a query before its first goal.
pub fn queries_begin_where_nothing_is_known()
    ensures { (texts : List Text) (c : Contents) → KnowsNothing texts c → IsBranch texts c (empty_state (length c.heap.images)) }
{}
