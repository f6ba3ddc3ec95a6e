//! Copies of terms with what constrains them. No code: each function has an empty body, and its contract is a law of the
//! definitions, or what they say of an example. No program uses them yet.
#![tactic(auto)]

ghost use Rattle.std.specs.Prelude.{◌≡◌, ◌≢◌, ℕ, List, [], ◌++◌};
ghost use Rattle.spec_numbers.specs.Rational.{0ℚ};
ghost use Rattle.spec_numbers.specs.Sums.{factor_of};
ghost use Rattle.spec_linear.specs.declared.Relation.TheVariants.{Ne};
ghost use Rattle.spec_linear.specs.Solution.{Constraint, Solvable, Equivalent, Has, SomeMentions};
ghost use Rattle.spec_projection.specs.Lists.{AreForms};
ghost use Rattle.spec_projection.specs.Targets.{SameOn};
ghost use Rattle.spec_syntax.specs.Trees.{Tree};
ghost use Rattle.spec_branch.specs.Alike.{with_linear};
ghost use Rattle.spec_branch.specs.Branch.{State, Copied, plain_copy, read};
ghost use Rattle.spec_branch.specs.Examples.{X, Y};
ghost use Rattle.spec_copies.specs.Parts.{IsPart};
ghost use Rattle.spec_copies.specs.Copies.{IsKept, IsCopy};
ghost use Rattle.spec_copies.specs.Alike.{MentionsNumeric, IsUnconstrained, SameCopy};
ghost use Rattle.spec_copies.specs.Samples.{positive, positive_copy, successor, successor_copy, product, product_copy, frozen, frozen_copy, free_copy, pair_term, apart, apart_copy};

/// Six small copies: of a variable with an inequality, of one whose constraints mention another, of one with a constraint
/// that waits, of one with a goal that sleeps on it, of one that such a goal merely mentions, and of a term with which a
/// variable goes that is kept for a disequation.
pub fn small_copies()
    ensures inequality { (c : Copied) → IsCopy positive X c → SameCopy c positive_copy }
    ensures projected { (c : Copied) → IsCopy successor Y c → SameCopy c successor_copy }
    ensures waits { (c : Copied) → IsCopy product X c → SameCopy c product_copy }
    ensures sleeps { (c : Copied) → IsCopy frozen X c → SameCopy c frozen_copy }
    ensures left_behind { (c : Copied) → IsCopy frozen Y c → SameCopy c free_copy }
    ensures kept { IsCopy apart pair_term apart_copy }
{}

/// A term whose variables nothing constrains has the plain copy, and no other.
pub fn unconstrained_terms_have_plain_copies()
    ensures plain { (st : State) (t : Tree) → MentionsNumeric st → Solvable st.linear → IsUnconstrained st t
        → IsCopy st t (plain_copy (read st t)) }
    ensures only { (st : State) (t : Tree) → MentionsNumeric st → Solvable st.linear → IsUnconstrained st t
        → (c : Copied) → IsCopy st t c → SameCopy c (plain_copy (read st t)) }
{}

/// Each term has a copy in a state whose linear constraints have a solution and list their products in order.
pub fn copies_exist()
    ensures { (st : State) (t : Tree) → AreForms st.linear → Solvable st.linear → (c : Copied) × IsCopy st t c }
{}

/// Two copies of one term, in states that are the same but for the form of their linear constraints, are the same but for the
/// form of their rows, where they have the same variables. They may differ in those that are kept for disequations alone.
pub fn copies_are_the_same()
    ensures { (st : State) (l : List Constraint) → Equivalent st.linear l → (t : Tree) (c d : Copied) → IsCopy st t c
        → IsCopy (with_linear l st) t d → c.variables ≡ d.variables → SameCopy c d }
{}

/// The rows of a copy say something of numeric variables alone.
pub fn rows_of_copies_are_numeric()
    ensures { (st : State) (t : Tree) (c : Copied) → MentionsNumeric st → Solvable st.linear → IsCopy st t c
        → (row : Constraint) → Has row c.rows → (v : ℕ) → factor_of v row.form.products ≢ 0ℚ → Has v c.numeric }
{}

/// Each list has one part that is connected with some variables, and it says of them, and of its own ones, what the whole
/// list says.
pub fn connected_parts()
    ensures exists { (xs : List ℕ) (l : List Constraint) → (part : List Constraint) × IsPart xs l part }
    ensures one { (xs : List ℕ) (l part other : List Constraint) → IsPart xs l part → IsPart xs l other → part ≡ other }
    ensures says { (xs ys : List ℕ) (l part : List Constraint) → IsPart xs l part → Solvable l
        → ((y : ℕ) → Has y ys → SomeMentions y part) → SameOn (xs ++ ys) part l }
{}

/// Where no disequation is told, no variable is kept beside those that a copy takes with it.
pub fn nothing_is_kept_without_disequations()
    ensures { (targets : List ℕ) (l : List Constraint) (kept : List ℕ)
        → ((c : Constraint) → Has c l → c.relation ≡ Ne → ⊥) → IsKept targets l kept → kept ≡ [] }
{}
