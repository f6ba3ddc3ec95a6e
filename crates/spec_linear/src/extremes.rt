//! How far forms reach on the solutions of linear constraints. No code: the function has an empty body, and its
//! contract is a law of the definitions.
#![tactic(auto)]

ghost use Rattle.std.specs.Prelude.{◌≡◌, List};
ghost use Rattle.spec_numbers.specs.Rational.{ℚ};
ghost use Rattle.spec_linear.specs.Form.{Linear};
ghost use Rattle.spec_linear.specs.Solution.{Constraint, Equivalent};
ghost use Rattle.spec_linear.specs.Extremes.{IsSupremum, IsUnbounded};

/// A form has one supremum at most, and none where it is unbounded; lists with the same solutions have the same.
pub fn extremes()
    ensures one { (l : List Constraint) (f : Linear) (q r : ℚ) → IsSupremum l f q → IsSupremum l f r → q ≡ r }
    ensures never_both { (l : List Constraint) (f : Linear) (q : ℚ) → IsSupremum l f q → IsUnbounded l f → ⊥ }
    ensures alike { (l m : List Constraint) (f : Linear) (q : ℚ) → Equivalent l m → IsSupremum l f q
        → IsSupremum m f q }
    ensures unbounded { (l m : List Constraint) (f : Linear) → Equivalent l m → IsUnbounded l f → IsUnbounded m f }
{}
