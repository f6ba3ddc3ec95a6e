//! What stands at a place of a text: a clause, nothing more, or an error of syntax, with the place where reading goes on.
//! Definitions with no code; the functions here have empty bodies: each contract is a law or an example.
#![tactic(auto)]

ghost use Rattle.std.specs.Prelude.{◌≡◌, ◌<◌, ◌≤◌, ◌↔◌, ℕ, List, [], ◌∷◌, ◌++◌, length, codes};
ghost use Rattle.spec_syntax.specs.Operators.{Ops};
ghost use Rattle.spec_syntax.specs.Standard.{standard};
ghost use Rattle.spec_terms.specs.Term.{Name, Var};
ghost use Rattle.spec_syntax.specs.Trees.{binary};
ghost use Rattle.spec_syntax.specs.TextTokens.{no_variables};
ghost use Rattle.spec_text.specs.Readings.{Read, Clause, Ended, Syntax, Reads};
ghost use Rattle.spec_text.specs.Runs.{ReadsOn, IsBefore, MachineReads};
ghost use Rattle.spec_text.specs.Later.{variables_from, read_later};
ghost use Rattle.spec_syntax.specs.Machine.{start};
ghost use Rattle.spec_text.specs.Laws.{MovesOn};
ghost use Rattle.spec_text.specs.Decided.{Decided, IsClosed, IsFullStop, MayGoOn};

/// A place has one reading at most, and each place of a text has one.
pub fn one_reading()
    ensures one { (ops : Ops) (text : List ℕ) (at : ℕ) (r s : Read) → Reads ops text at r → Reads ops text at s → r ≡ s }
    ensures some { (ops : Ops) (text : List ℕ) (at : ℕ) → at ≤ length text → (r : Read) × Reads ops text at r }
{}

/// The machine reads, token by token, just what stands at a place.
pub fn the_machine_reads_texts()
    ensures { (ops : Ops) (text : List ℕ) (at : ℕ) (r : Read) → Reads ops text at r ↔ MachineReads ops text at r }
{}

/// Reading moves on, so it comes to the text's end.
pub fn readings_move_on()
    ensures { (ops : Ops) (text : List ℕ) (at : ℕ) (r : Read) → at ≤ length text → Reads ops text at r → MovesOn text at r }
{}

/// Where the variables of a clause are counted on from a number, as a heap's youngest, the reading is the same but for that.
pub fn variables_may_be_counted_on()
    ensures on { (ops : Ops) (text : List ℕ) (at n : ℕ) (r : Read) → ReadsOn ops text start at no_variables r
        → ReadsOn ops text start at (variables_from n) (read_later n r) }
    ensures back { (ops : Ops) (text : List ℕ) (at n : ℕ) (r : Read) → at ≤ length text → IsBefore text at
        → ReadsOn ops text start at (variables_from n) r → (q : Read) × Reads ops text at q × (r ≡ read_later n q) }
{}

/// The bytes of a text decide what is read at a place just where reading goes on before their end. Then a full stop that ends
/// a clause stands behind the place, with one more byte behind it, and, whatever the operators are, reading goes on where it
/// does from the place or from the first fault behind it. What no text decides no shorter one does.
pub fn readings_that_are_decided()
    ensures decided { (ops : Ops) (text : List ℕ) (at : ℕ) (r : Read) → at ≤ length text → Reads ops text at r
        → Decided ops text at ↔ IsClosed r (length text) }
    ensures stop { (ops : Ops) (text : List ℕ) (at : ℕ) (r : Read) → at ≤ length text → Reads ops text at r
        → IsClosed r (length text) → (stop : ℕ) × (at ≤ stop) × IsFullStop text stop }
    ensures anyway { (ops : Ops) (text : List ℕ) (at : ℕ) (r : Read) → at ≤ length text → Reads ops text at r
        → IsClosed r (length text) → (to : ℕ) × (to < length text) × MayGoOn text at to }
    ensures earlier { (ops : Ops) (text more : List ℕ) (at : ℕ) (r : Read) → at ≤ length text → Reads ops (text ++ more) at r
        → IsClosed r (length text) → Reads ops text at r }
{}

/// Clauses one behind another, and the end behind the last.
pub fn clauses()
    ensures first { Reads standard (codes "a. b.") 0 (Clause (Name (codes "a")) no_variables 2) }
    ensures second { Reads standard (codes "a. b.") 2 (Clause (Name (codes "b")) no_variables 5) }
    ensures end { Reads standard (codes "a. b.") 5 Ended }
    ensures nothing { Reads standard (codes "") 0 Ended }
    ensures comment { Reads standard (codes " % a.") 0 Ended }
    ensures names { Reads standard (codes "f(_,Xy).") 0
        (Clause (binary (codes "f") (Var 0) (Var 1)) (record { names = record { name = codes "Xy"; number = 1 } ∷ []; count = 2 }) 8) }
{}

/// Errors, each with its place and the place where reading goes on.
pub fn errors()
    ensures refused { Reads standard (codes "foo bar. baz.") 0 (Syntax 4 8) }
    ensures behind { Reads standard (codes "foo bar. baz.") 8 (Clause (Name (codes "baz")) no_variables 13) }
    ensures cut { Reads standard (codes "?- {X = ") 0 (Syntax 8 8) }
    ensures open_quote { Reads standard (codes "'ab") 0 (Syntax 3 3) }
    ensures open_comment { Reads standard (codes "a. /* b.") 2 (Syntax 8 8) }
    ensures refused_before_a_fault { Reads standard (codes "a b 'x") 0 (Syntax 2 6) }
    ensures end_alone { Reads standard (codes " . a.") 0 (Syntax 1 2) }
    ensures fault_skipped { Reads standard (codes "a `. b.") 0 (Syntax 2 4) }
    ensures float { Reads standard (codes "a=1.5. b.") 0 (Syntax 3 6) }
{}
