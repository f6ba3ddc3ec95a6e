//! Equations, inequalities and disequations together: what refutes a list of them, and what makes it
//! solvable. No code: each function has an empty body, and its contract is a law of the definitions.
#![tactic(auto)]

ghost use Rattle.std.specs.Prelude.{◌≡◌, ℕ, List, [], ◌∷◌};
ghost use Rattle.spec_numbers.specs.Rational.{ℚ, 0ℚ, 1ℚ, neg_ℚ, ◌<ℚ◌};
ghost use Rattle.spec_linear.specs.Form.{Linear, value_at, constant_form, variable_form, negated_form, difference_form};
ghost use Rattle.spec_linear.specs.Solution.{Constraint, equal_to, Point, Solves, Solvable, Unsolvable, Satisfies, Has};
ghost use Rattle.spec_linear.specs.Weak.{above_zero, at_least_zero, not_zero, weak};
ghost use Rattle.spec_linear.specs.Certificate.{HasNoVariable, Refutes};

/// A form without a variable is a number, and a form that is one number everywhere has no variable.
pub fn forms_without_variables_are_numbers()
    ensures number { (f : Linear) → HasNoVariable f → (a : ℕ → ℚ) → value_at a f ≡ f.constant }
    ensures back { (f : Linear) (q : ℚ) → ((a : ℕ → ℚ) → value_at a f ≡ q)
        → HasNoVariable f × (f.constant ≡ q) }
{}

/// A certificate refutes: no point solves the list.
pub fn certificates_refute()
    ensures { (cert : List (ℕ × ℚ)) (l : List Constraint) → Refutes cert l → Unsolvable l }
{}

/// Three lists in one variable, each with a certificate.
pub fn some_certificates()
    // x >= 1, x =< 0: the sum is -1 >= 0
    ensures below_zero { let x = variable_form 0 in
        Refutes ((1, 1ℚ) ∷ (2, 1ℚ) ∷ [])
        (at_least_zero (difference_form x (constant_form 1ℚ)) ∷ at_least_zero (negated_form x) ∷ []) }
    // x > 0, x =< 0: the sum is 0 > 0
    ensures strict { let x = variable_form 0 in
        Refutes ((1, 1ℚ) ∷ (2, 1ℚ) ∷ []) (above_zero x ∷ at_least_zero (negated_form x) ∷ []) }
    // x =\= 0, x = 0: neither x > 0 nor -x > 0
    ensures disequation { Refutes ((1, 1ℚ) ∷ (2, neg_ℚ 1ℚ) ∷ (1, neg_ℚ 1ℚ) ∷ (2, 1ℚ) ∷ [])
        (not_zero (variable_form 0) ∷ equal_to 0 0ℚ ∷ []) }
{}

/// A list is solvable where its weak list is, and is so with each strict constraint and each disequation
/// alone. The points that show this may be different ones.
pub fn constraints_met_singly_are_met_together()
    ensures { (l : List Constraint) → Solvable (weak l)
        → ((f : Linear) → Has (above_zero f) l → Solvable (above_zero f ∷ weak l))
        → ((f : Linear) → Has (not_zero f) l → Solvable (not_zero f ∷ weak l))
        → Solvable l }
{}

/// Every solution of a list solves its weak list; and what a form reaches on the weak list it reaches on
/// the list, if that is solvable.
pub fn solvable_lists_reach_what_their_weak_lists_reach()
    ensures weaker { (p : Point) (l : List Constraint) → Solves p l → Solves p (weak l) }
    ensures positive { (l : List Constraint) (f : Linear) → Solvable l
        → Solvable (above_zero f ∷ weak l) → Solvable (above_zero f ∷ l) }
    ensures above { (l : List Constraint) (f : Linear) (r : ℚ) → Solvable l
        → (a : ℕ → ℚ) → Satisfies a (weak l) → r <ℚ value_at a f
        → (b : ℕ → ℚ) × Satisfies b l × (r <ℚ value_at b f) }
{}
