//! Lists of linear equations in solved form, and the equations of an answer. No code: each function has an
//! empty body, and its contract is a law of the definitions.
#![tactic(auto)]

ghost use Rattle.std.specs.Prelude.{◌≡◌, ◌⊎◌, ℕ, List, [], ◌∷◌, ◌++◌, Option, Some, None};
ghost use Rattle.spec_numbers.specs.Sums.{Monomial};
ghost use Rattle.spec_linear.specs.Form.{Linear};
ghost use Rattle.spec_linear.specs.Solution.{Constraint, Solvable, Unsolvable, AreEquations, MentionsOnly, Fixed, Same};
ghost use Rattle.spec_linear.specs.Echelon.{Solved, equations, AreDistinct, IsEchelon};
ghost use Rattle.spec_linear.specs.SolvedForm.{IsSolvedForm, NotFixed, rows_of};

/// A list in solved form is solvable, whatever values the free variables have.
pub fn solved_lists_are_solvable()
    ensures { (order : List ℕ) (l : List Constraint) (solved : ℕ → Option Linear) → IsSolvedForm order l solved → Solvable l }
{}

/// A list in solved form fixes just the variables whose form is a number.
pub fn constant_forms_are_fixed()
    ensures constant { (order : List ℕ) (l : List Constraint) (solved : ℕ → Option Linear) → IsSolvedForm order l solved →
        (x : ℕ) (f : Linear) → solved x ≡ Some f → f.products ≡ [] → Fixed l x f.constant }
    ensures dependent { (order : List ℕ) (l : List Constraint) (solved : ℕ → Option Linear) → IsSolvedForm order l solved →
        (x : ℕ) (f : Linear) (m : Monomial) (rest : List Monomial) → solved x ≡ Some f → f.products ≡ m ∷ rest → NotFixed l x }
    ensures free { (order : List ℕ) (l : List Constraint) (solved : ℕ → Option Linear) → IsSolvedForm order l solved →
        (x : ℕ) → solved x ≡ None → NotFixed l x }
{}

/// The equations of the last variables in the order are the reduced echelon form over them, and they have
/// the list's solutions on them.
pub fn last_rows_are_the_echelon_form()
    ensures echelon { (front targets : List ℕ) (l : List Constraint) (solved : ℕ → Option Linear) → IsSolvedForm (front ++ targets) l solved →
        IsEchelon targets l (rows_of solved targets) }
    ensures same { (front targets : List ℕ) (l : List Constraint) (solved : ℕ → Option Linear) → IsSolvedForm (front ++ targets) l solved →
        Same targets (equations (rows_of solved targets)) l }
{}

/// There is one reduced echelon form in an order of variables of what a list entails.
pub fn echelon_forms_are_unique()
    ensures { (order : List ℕ) (l : List Constraint) (es gs : List Solved) → AreDistinct order →
        IsEchelon order l es → IsEchelon order l gs → es ≡ gs }
{}

/// Equations over some variables have no solution, or a solved form in any order of these variables.
pub fn equations_have_a_solved_form()
    ensures { (order : List ℕ) (l : List Constraint) → AreDistinct order → AreEquations l → MentionsOnly order l →
        Unsolvable l ⊎ ((solved : ℕ → Option Linear) × IsSolvedForm order l solved) }
{}
