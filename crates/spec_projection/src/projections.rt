//! That projections exist, what rows they end in, and what printed rows say.

ghost use Rattle.std.specs.Prelude.{◌≢◌, ◌↔◌, ◌⊎◌, ℕ, List, ◌++◌};
ghost use Rattle.spec_numbers.specs.Rational.{ℚ, ◌≤ℚ◌, ◌<ℚ◌};
ghost use Rattle.spec_numbers.specs.Sums.{Monomial, sum_at};
ghost use Rattle.spec_linear.specs.Solution.{Constraint, HoldsAt, Solvable, Unsolvable, Entails, MentionsOnly, Has};
ghost use Rattle.spec_linear.specs.Echelon.{Solved, AreDistinct, IsEchelon};
ghost use Rattle.spec_projection.specs.Lists.{AreForms};
ghost use Rattle.spec_projection.specs.Irredundant.{Sifts};
ghost use Rattle.spec_projection.specs.Printed.{AtLeast, Above, AtMost, Below, compared, unequal_to};
ghost use Rattle.spec_projection.specs.Projection.{Keeps, Projects, AreProjectedRows};

/// Whether a list has a solution is decided, and so is whether a constraint follows from it: each pass over
/// rows has an end, and a solvable list an echelon form in any order of its variables.
pub fn solvability_is_decided()
    ensures solvable { (l : List Constraint) → Solvable l ⊎ Unsolvable l }
    ensures follows { (l : List Constraint) (c : Constraint) → Entails l c ⊎ (Entails l c → ⊥) }
    ensures passes { (beside kept left : List Constraint)
        → (final : List Constraint) × Sifts beside kept left final }
    ensures echelon { (order : List ℕ) (l : List Constraint) → AreDistinct order → MentionsOnly order l → Solvable l
        → (es : List Solved) × IsEchelon order l es }
{}

/// The steps of a projection end in rows with the list's solutions on the targets and the kept variables, in
/// the form of an answer. Every solvable list has a projection on any targets.
pub fn projections_end_in_the_rows_of_an_answer()
    ensures rows { (front targets kept : List ℕ) (l : List Constraint) (es : List Solved)
        (inequalities disequations : List Constraint) → AreDistinct (front ++ targets)
        → MentionsOnly (front ++ targets) l → AreForms l → Solvable l
        → Projects front targets kept l es inequalities disequations
        → AreProjectedRows (targets ++ kept) l es (inequalities ++ disequations) }
    ensures exists { (front targets : List ℕ) (l : List Constraint) → AreDistinct (front ++ targets)
        → MentionsOnly (front ++ targets) l → AreForms l → Solvable l
        → (kept : List ℕ) × (es : List Solved) × (inequalities : List Constraint) × (disequations : List Constraint)
        × Projects front targets kept l es inequalities disequations }
{}

/// Which variables are kept is settled by the list, the targets and the order of the others.
pub fn kept_variables_are_unique()
    ensures { (front targets kept more : List ℕ) (l : List Constraint) (es gs : List Solved)
        → AreDistinct (front ++ targets) → Keeps front targets kept l es → Keeps front targets more l gs
        → (x : ℕ) → Has x kept → Has x more }
{}

/// A printed row compares the sum of its products with the number on the right.
pub fn printed_rows()
    ensures least { (a : ℕ → ℚ) (s : List Monomial) (q : ℚ) → HoldsAt a (compared s AtLeast q) ↔ (q ≤ℚ sum_at a s) }
    ensures over { (a : ℕ → ℚ) (s : List Monomial) (q : ℚ) → HoldsAt a (compared s Above q) ↔ (q <ℚ sum_at a s) }
    ensures most { (a : ℕ → ℚ) (s : List Monomial) (q : ℚ) → HoldsAt a (compared s AtMost q) ↔ (sum_at a s ≤ℚ q) }
    ensures under { (a : ℕ → ℚ) (s : List Monomial) (q : ℚ) → HoldsAt a (compared s Below q) ↔ (sum_at a s <ℚ q) }
    ensures unequal { (a : ℕ → ℚ) (s : List Monomial) (q : ℚ) → HoldsAt a (unequal_to s q) ↔ (sum_at a s ≢ q) }
{}
