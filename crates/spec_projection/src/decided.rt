//! Questions to a list of linear constraints have answers: each is decided one way or the other. No code: each function has
//! an empty body, and its contract is a law of the definitions.
#![tactic(auto)]

ghost use Rattle.std.specs.Prelude.{◌≡◌, ◌⊎◌, ℕ, List, Option};
ghost use Rattle.spec_numbers.specs.Rational.{ℚ, ◌<ℚ◌};
ghost use Rattle.spec_linear.specs.Form.{Linear, value_at, negated_form};
ghost use Rattle.spec_linear.specs.Solution.{Constraint, Point, number, Solves, Solvable, Unsolvable, Fixed, Fixes, Entails};
ghost use Rattle.spec_linear.specs.Extremes.{Leaves, IsSupremum, IsInfimum, IsUnbounded};

/// A list has a solution, or has none; a constraint follows from it, or some solution breaks it; a variable has one value in
/// all solutions, or has no such value; and there is a map of all values that a list fixes.
pub fn constraints_are_decided()
    ensures solvable { (l : List Constraint) → Solvable l ⊎ Unsolvable l }
    ensures follows { (l : List Constraint) (c : Constraint) → Entails l c ⊎ Leaves l c }
    ensures fixed { (l : List Constraint) (x : ℕ) → ((q : ℚ) × Fixed l x q) ⊎ ((q : ℚ) → Fixed l x q → ⊥) }
    ensures all_fixed { (l : List Constraint) → (fixed : ℕ → Option ℚ) × Fixes l fixed }
{}

/// On a solvable list a form has a supremum or no bound, and so below; and the supremum is the form's value at some solution,
/// or is above its value at each.
pub fn extremes_are_decided()
    ensures greatest { (l : List Constraint) (f : Linear) → Solvable l
        → ((q : ℚ) × IsSupremum l f q) ⊎ IsUnbounded l f }
    ensures least { (l : List Constraint) (f : Linear) → Solvable l
        → ((q : ℚ) × IsInfimum l f q) ⊎ IsUnbounded l (negated_form f) }
    ensures attained { (l : List Constraint) (f : Linear) (q : ℚ) → IsSupremum l f q
        → ((p : Point) × Solves p l × (value_at (number p) f ≡ q)) ⊎ ((p : Point) → Solves p l → value_at (number p) f <ℚ q) }
{}
