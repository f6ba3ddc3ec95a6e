// What an engine stands for where names are added, and what it comes to where a predicate is called.

ghost use Rattle.std.specs.Prelude.{◌≡◌, ◌<◌, ℕ, suc, List, Option, None, Some};
ghost use Rattle.spec_numbers.specs.Prefixes.{IsPrefix};
ghost use Rattle.spec_numbers.specs.Texts.{Text};
ghost use Rattle.spec_builtins.specs.Built.{indicator_of};
ghost use Rattle.spec_builtins.specs.Terms.{arguments};
ghost use Rattle.spec_branch.specs.Branch.{State, Item, Branch, read};
ghost use Rattle.spec_search.specs.Predicates.{Predicate, predicate_named};
ghost use Rattle.spec_search.specs.Database.{Database};
ghost use Rattle.spec_search.specs.Search.{Search, look_at, Selecting};
ghost use Rattle.spec_search.specs.Turns.{place_of};
ghost use Rattle.spec_syntax.specs.Operators.{Ops};
ghost use Rattle.spec_syntax.specs.Trees.{Tree};
ghost use Rattle.spec_engine.specs.Cells.{Value, Stack};
ghost use Rattle.spec_engine.specs.Coming.{Comes};
ghost use Rattle.spec_engine.specs.Standing.{engine, AreWaiting};
ghost use Rattle.cq_resolve.specs.Database.{Program, IsProgram, as_database};
ghost use Rattle.cq_control.specs.Open.{open_choices};
ghost use Rattle.cq_term.specs.Names.{HasNamesOfTerms};
ghost use Rattle.cq_settle.specs.Contents.{Contents};
ghost use Rattle.cq_branch.specs.declared.alternatives.Alternatives.{Alternatives};
ghost use Rattle.cq_branch.specs.Choices.{AreOpen};
ghost use Rattle.cq_branch.specs.Worlds.{IsBranch, term_in, saved_values, stack, Leads, Stands};
ghost use Rattle.cq_choices.specs.Calls.{row_of};
ghost use Rattle.cq_choices.specs.Held.{Held, AreNamedByTerms, IsOver, open_of};

use cq_branch::{Alternatives, Searching};
use cq_control::Choices;

/// The variables of a world have no names but those of its terms, now and where its choices go back to.
pub fn names_are_of_terms(world: &Searching, choices: &Choices<Alternatives>)
    ensures now { HasNamesOfTerms world.now.first.heap.now }
    ensures choices { AreNamedByTerms (open_choices (saved_values world.now.first world.now.second.saved) choices.now) }
{
    world.first.heap.names_are_of_terms();
    let _height = choices.height();
}

/// Names that are added change nothing of a program and of what an engine stands for. Choices leave the same to try, and a world whose variables
/// have no names but those of its terms goes on to be the state of its branches and to read its terms.
pub fn names_may_be_added()
    ensures database { (texts more : List Text) → IsPrefix texts more → (v : Program) → IsProgram texts v → (ops : Ops)
        → as_database more ops v ≡ as_database texts ops v }
    ensures branch { (texts more : List Text) → IsPrefix texts more → (c : Contents) (st : State) → HasNamesOfTerms c.heap → IsBranch texts c st
        → IsBranch more c st }
    ensures term { (texts more : List Text) → IsPrefix texts more → (c : Contents) (st : State) → IsBranch texts c st
        → (id : ℕ) (t : Tree) → term_in texts c id ≡ Some t → term_in more c id ≡ Some t }
    ensures choices { (texts more : List Text) → IsPrefix texts more → (v : Program) → IsProgram texts v
        → (saved : List (Value Contents)) (choices : List Alternatives) → AreOpen texts v saved choices
        → (behind : List Branch) → AreWaiting (IsBranch texts) (term_in texts) (stack texts v saved choices) behind
        → stack more v saved choices ≡ stack texts v saved choices }
    ensures stands { (more : List Text) (v : Program) (h : Held) → IsPrefix h.texts more → IsOver v h
        → AreNamedByTerms (open_of h) → HasNamesOfTerms h.now.0.heap → (db : Database) (n : ℕ) (current : Option ℕ) (s : Search)
        → Stands h.texts v db n h.saved h.choices h.now current s → Stands more v db n h.saved h.choices h.now current s }
    ensures back { (more : List Text) (v : Program) (h : Held) → IsPrefix h.texts more → IsOver v h → AreNamedByTerms (open_of h)
        → (db : Database) (n : ℕ) (s : Search)
        → Stands h.texts v db n h.saved h.choices h.now None s → Stands more v db n h.saved h.choices h.now None s }
    ensures over { (more : List Text) (v : Program) (h : Held) → IsPrefix h.texts more → IsOver v h → IsOver v (record h { texts = more }) }
{}

/// Where an engine leads to what the row of a selected goal's predicate makes, the search comes to it.
pub fn calls_lead()
    ensures { (texts : List Text) (steps : ℕ) (s : Search) (goal : Tree) (cut : ℕ) (items : List Item) (st : State) (behind : List Branch)
        → look_at s.branches ≡ Selecting goal cut items st behind → s.selected < steps
        → (q : Predicate) → predicate_named (indicator_of (read st goal)) ≡ Some q → read st (read st goal) ≡ read st goal
        → (choices : Stack Contents) (now : Value Contents) (current : Option ℕ)
        → Leads texts choices now current (place_of s st items cut behind) behind (row_of q (place_of s st items cut behind) (arguments (read st goal)))
        → Comes (IsBranch texts) (term_in texts) steps (engine s.database (suc s.selected) choices now current) s }
{}
