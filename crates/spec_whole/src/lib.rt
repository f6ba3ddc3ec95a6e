//! Whole solutions of linear constraints, and a search for the least value of a form on them. No code: each function has an empty
//! body, and its contract is a law of the definitions.
#![tactic(auto)]

ghost use Rattle.std.specs.Prelude.{◌≡◌, ℕ, List, Some, None};
ghost use Rattle.spec_numbers.specs.Rational.{ℚ};
ghost use Rattle.spec_linear.specs.Form.{Linear};
ghost use Rattle.spec_linear.specs.Solution.{Constraint, Equivalent};
ghost use Rattle.spec_whole.specs.Whole.{HasNoWhole, HasSearched, IsWholeInfimum};

/// A search that ends has found the infimum over the whole solutions, or that there is none.
pub fn searches_find()
    ensures found { (l : List Constraint) (xs : List ℕ) (f : Linear) (q : ℚ) → HasSearched l xs f (Some q)
        → IsWholeInfimum l xs f q }
    ensures none { (l : List Constraint) (xs : List ℕ) (f : Linear) → HasSearched l xs f None → HasNoWhole l xs }
{}

/// There is one infimum over the whole solutions, and none where there are no such solutions; lists with the same solutions have
/// the same.
pub fn whole_infima()
    ensures one { (l : List Constraint) (xs : List ℕ) (f : Linear) (q r : ℚ) → IsWholeInfimum l xs f q
        → IsWholeInfimum l xs f r → q ≡ r }
    ensures never_both { (l : List Constraint) (xs : List ℕ) (f : Linear) (q : ℚ) → IsWholeInfimum l xs f q
        → HasNoWhole l xs → ⊥ }
    ensures alike { (l m : List Constraint) (xs : List ℕ) (f : Linear) (q : ℚ) → Equivalent l m
        → IsWholeInfimum l xs f q → IsWholeInfimum m xs f q }
    ensures alike_none { (l m : List Constraint) (xs : List ℕ) → Equivalent l m → HasNoWhole l xs → HasNoWhole m xs }
{}
