// What changes and readings of a program's clauses are to the database that the definitions of the search change and read.

ghost use Rattle.std.specs.Prelude.{◌≡◌, ◌<◌, ◌++◌, [], ℕ, List, All, length, map};
ghost use Rattle.std.specs.Option.{option_map};
ghost use Rattle.spec_numbers.specs.Texts.{Text};
ghost use Rattle.spec_syntax.specs.Operators.{Ops};
ghost use Rattle.spec_terms.specs.Term.{apply, named};
ghost use Rattle.spec_terms.specs.Variables.{variables, renamed_from};
ghost use Rattle.spec_builtins.specs.Built.{indicator_of};
ghost use Rattle.spec_builtins.specs.Clauses.{HeadBody, counted_on, stored, variable_count};
ghost use Rattle.spec_search.specs.Database.{procedure_of, snapshot};
ghost use Rattle.spec_search.specs.Database as search;
ghost use Rattle.spec_search.specs.Replies.{Place};
ghost use Rattle.spec_search.specs.Steps.{IsSelection};
ghost use Rattle.cq_term.specs.Texts.{AreDifferent, KeepsTexts, text_of};
ghost use Rattle.cq_term.specs.Meaning.{HeapTerm};
ghost use Rattle.cq_term.specs.Names.{HasNamesBelow};
ghost use Rattle.cq_term.specs.declared.names.Pred.{Pred};
ghost use Rattle.cq_resolve.specs.Building.{moved_by};
ghost use Rattle.cq_resolve.specs.StoredValue.{ClauseValue, both, HaveNamesBelow};
ghost use Rattle.cq_clauses.specs.ClausesValue.{Adds, Declares, Removes};
ghost use Rattle.cq_clauses.specs.Database.{clauses_of, database, kind_of};
ghost use Rattle.cq_clauses.specs.Selected.{key_at, matching};
ghost use Rattle.cq_clauses.specs.declared.list.End.{End};
ghost use Rattle.cq_clauses.specs.declared.procedures.Kind.{Kind};
ghost use Rattle.cq_resolve.specs.Keys.{key_of};
ghost use Rattle.cq_resolve.specs.Database.{IsCounted, IsProgram, Program};
ghost use Rattle.cq_resolve.specs.Database.{as_clause, as_database, as_end, as_indicator, as_kind, as_parts};

/// Each change of a program is the definitions' change of its database: a clause is added, with the next number, one is
/// removed, a procedure is made dynamic. More names change nothing.
pub fn changes_are_those_of_the_database()
    ensures none { (texts : List Text) (ops : Ops) (v : Program) → v.contents ≡ [] → database v.procedures ≡ []
        → as_database texts ops v ≡ record { procedures = []; operators = ops; next_clause = 0 } }
    ensures added { (texts : List Text) (ops : Ops) → AreDifferent texts
        → (end : End) (kind : Kind) (pred : Pred) (c : ClauseValue) (parts : HeadBody) (old new : Program) → IsProgram texts old
        → pred.name < length texts → as_indicator texts pred ≡ indicator_of parts.head → as_parts texts c ≡ stored parts
        → Adds end kind pred c old new
        → as_database texts ops new ≡ search.clause_added (as_end end) (as_kind kind) parts (as_database texts ops old) }
    ensures removed { (texts : List Text) (ops : Ops) (n : ℕ) (old new : Program) → Removes n old new
        → as_database texts ops new ≡ search.clause_removed n (as_database texts ops old) }
    ensures declared { (texts : List Text) (ops : Ops) (pred : Pred) (old new : Program) → AreDifferent texts → IsProgram texts old
        → pred.name < length texts → Declares pred old new
        → as_database texts ops new ≡ search.declared_dynamic (as_database texts ops old) (as_indicator texts pred) }
    ensures named { (old new : List Text) → KeepsTexts old new → (v : Program) → IsProgram old v
        → (ops : Ops) → as_database new ops v ≡ as_database old ops v }
{}

/// A program stays one under each change.
pub fn programs_stay_programs()
    ensures none { (texts : List Text) (v : Program) → v.contents ≡ [] → database v.procedures ≡ [] → IsProgram texts v }
    ensures added { (texts : List Text) (end : End) (kind : Kind) (pred : Pred) (c : ClauseValue) (old new : Program) → IsProgram texts old
        → pred.name < length texts → IsCounted (length texts) c → Adds end kind pred c old new → IsProgram texts new }
    ensures removed { (texts : List Text) (n : ℕ) (old new : Program) → IsProgram texts old → Removes n old new → IsProgram texts new }
    ensures declared { (texts : List Text) (pred : Pred) (old new : Program) → IsProgram texts old → pred.name < length texts
        → Declares pred old new → IsProgram texts new }
    ensures named { (old new : List Text) → KeepsTexts old new → (v : Program) → IsProgram old v → IsProgram new v }
{}

/// A call finds the kind and the clauses that the definitions' database has, and what it holds of them stays as clauses
/// are added.
pub fn calls_read_the_database()
    ensures kind { (texts : List Text) → AreDifferent texts → (pred : Pred) → pred.name < length texts → (v : Program) → IsProgram texts v
        → (ops : Ops) → option_map (λ p. p.kind) (procedure_of (as_database texts ops v) (as_indicator texts pred))
        ≡ option_map as_kind (kind_of pred (database v.procedures)) }
    ensures clauses { (texts : List Text) → AreDifferent texts → (pred : Pred) → pred.name < length texts → (v : Program) → IsProgram texts v
        → (ops : Ops) → snapshot (procedure_of (as_database texts ops v) (as_indicator texts pred))
        ≡ map (as_clause texts v.contents) (clauses_of pred (database v.procedures)) }
    ensures known { (texts : List Text) (pred : Pred) (v : Program) → IsProgram texts v
        → All (λ n. n < length v.contents) (clauses_of pred (database v.procedures)) }
    ensures later { (texts : List Text) (contents more : List ClauseValue) (ns : List ℕ) → All (λ n. n < length contents) ns
        → map (as_clause texts (contents ++ more)) ns ≡ map (as_clause texts contents) ns }
{}

/// The clauses that a walk leaves for a goal, where it passes over others by the first argument, are a selection as the
/// definitions allow it: no clause is left out whose head has a unifier with the goal.
pub fn walks_select_clauses()
    ensures { (texts : List Text) → AreDifferent texts → (p : Place) (goal : HeapTerm) → HasNamesBelow (length texts) goal
        → (contents : List ClauseValue) → All (IsCounted (length texts)) contents → (ns : List ℕ) → All (λ n. n < length contents) ns
        → IsSelection p (named (text_of texts) goal) (map (as_clause texts contents) ns)
        (map (as_clause texts contents) (matching (key_at (λ (c : ClauseValue). key_of c.head) contents) (key_of goal) ns)) }
{}

/// A clause that is kept of two terms is the one that the definitions make of them, counted from 0; put under the next
/// variables it is theirs, too.
pub fn clauses_are_counted()
    ensures kept { (head body : HeapTerm) (c : ClauseValue) → both c.head c.body ≡ renamed_from 0 (both head body)
        → (texts : List Text) → as_parts texts c ≡ counted_on 0 (record { head = named (text_of texts) head; body = named (text_of texts) body }) }
    ensures counted { (head body : HeapTerm) (c : ClauseValue) → both c.head c.body ≡ renamed_from 0 (both head body)
        → (names : ℕ) → c.variables ≡ length (variables (both head body)) → HaveNamesBelow names c → IsCounted names c }
    ensures moved { (texts : List Text) (n names : ℕ) (c : ClauseValue) → IsCounted names c → counted_on n (as_parts texts c)
        ≡ record { head = named (text_of texts) (apply (moved_by n) c.head); body = named (text_of texts) (apply (moved_by n) c.body) } }
    ensures variables { (texts : List Text) (n names : ℕ) (c : ClauseValue) → IsCounted names c → variable_count (as_parts texts c) ≡ c.variables }
{}
