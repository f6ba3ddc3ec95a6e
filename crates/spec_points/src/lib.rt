//! The point that an answer prints beside its rows: a value for each variable that stands in them. No code: each function has
//! an empty body, and its contract is a law of the definitions, or what they say of an example. No program uses them yet.
#![tactic(auto)]

ghost use Rattle.std.specs.Prelude.{◌≡◌, ◌⊎◌, ℕ, ◌<◌, List, [], ◌∷◌, ◌++◌, codes, pos};
ghost use Rattle.spec_numbers.specs.Rational.{ℚ, ratio, int_ℚ, ◌<ℚ◌};
ghost use Rattle.spec_numbers.specs.Texts.{Text};
ghost use Rattle.spec_linear.specs.Form.{Linear};
ghost use Rattle.spec_linear.specs.Solution.{Constraint, Satisfies, Solvable, Equivalent, Has, equal_to};
ghost use Rattle.spec_linear.specs.Echelon.{Solved, equations, AreDistinct};
ghost use Rattle.spec_linear.specs.Weak.{weak, not_zero};
ghost use Rattle.spec_projection.specs.Substitution.{AreReduced};
ghost use Rattle.spec_points.specs.Bounds.{Between, OnlyAbove, OnlyBelow, Anywhere, tried, whole};
ghost use Rattle.spec_points.specs.Points.{IsChosen, IsPoint, unsolved};
ghost use Rattle.spec_points.specs.Conditions.{AreSolvedRows};
ghost use Rattle.spec_points.specs.Lines.{ArePointLines};
ghost use Rattle.spec_points.specs.Between.{Inside, Excludes};
ghost use Rattle.spec_points.specs.Samples.{at_least_five, unequal, wedge, both_positive, kept_apart, loan, sample_line};

/// The values that are tried first, with the bounds of a variable worked out by hand.
pub fn values_that_are_tried()
    // X>=5: 6
    ensures above { tried (OnlyAbove (whole 5)) 0 ≡ whole 6 }
    // X<5: 4, and 3 where 4 doesn't work
    ensures below { tried (OnlyBelow (whole 5)) 0 ≡ whole 4 }
    ensures further_below { tried (OnlyBelow (whole 5)) 1 ≡ whole 3 }
    // X>=0, X=<1: a half, and a third where a half doesn't work
    ensures middle { tried (Between (whole 0) (whole 1)) 0 ≡ ratio (pos 1) 2 }
    ensures third { tried (Between (whole 0) (whole 1)) 1 ≡ ratio (pos 1) 3 }
    // U>=1, U=<9: 5
    ensures centre { tried (Between (whole 1) (whole 9)) 0 ≡ whole 5 }
    // Y without a bound: 0, and 1 where 0 doesn't work
    ensures anywhere { tried Anywhere 0 ≡ whole 0 }
    ensures further { tried Anywhere 1 ≡ whole 1 }
{}

/// Small points worked by hand: X is 6 where X>=5, and where X and Y differ X is 0, and Y is 1, since 0 does not work. Where
/// X+Y>=1, X-Y=<3 and Y=<2, X is 2, between -1 and 5, and then Y is a half, between -1 and 2. Where X and its copy are above 0,
/// both are 1. Where Z is kept for a disequation, with X>=Z>=0 and Y=\=Z, X is 1, Y is 0, and Z is a half. A solved equation gives
/// its variable a value from those of the free ones, here 0 from two that are 0.
pub fn small_points()
    ensures above { (v : ℕ → ℚ) → IsPoint [] at_least_five (0 ∷ []) v → v 0 ≡ whole 6 }
    ensures first { (v : ℕ → ℚ) → IsPoint [] unequal (0 ∷ 1 ∷ []) v → v 0 ≡ whole 0 }
    ensures second { (v : ℕ → ℚ) → IsPoint [] unequal (0 ∷ 1 ∷ []) v → v 1 ≡ whole 1 }
    ensures wedge_first { (v : ℕ → ℚ) → IsPoint [] wedge (0 ∷ 1 ∷ []) v → v 0 ≡ whole 2 }
    ensures wedge_second { (v : ℕ → ℚ) → IsPoint [] wedge (0 ∷ 1 ∷ []) v → v 1 ≡ ratio (pos 1) 2 }
    ensures positive_first { (v : ℕ → ℚ) → IsPoint [] both_positive (0 ∷ 1 ∷ []) v → v 0 ≡ whole 1 }
    ensures positive_second { (v : ℕ → ℚ) → IsPoint [] both_positive (0 ∷ 1 ∷ []) v → v 1 ≡ whole 1 }
    ensures kept_first { (v : ℕ → ℚ) → IsPoint [] kept_apart (0 ∷ 1 ∷ 2 ∷ []) v → v 0 ≡ whole 1 }
    ensures kept_second { (v : ℕ → ℚ) → IsPoint [] kept_apart (0 ∷ 1 ∷ 2 ∷ []) v → v 1 ≡ whole 0 }
    ensures kept_third { (v : ℕ → ℚ) → IsPoint [] kept_apart (0 ∷ 1 ∷ 2 ∷ []) v → v 2 ≡ ratio (pos 1) 2 }
    ensures loan_first { (v : ℕ → ℚ) → IsPoint loan [] (0 ∷ 1 ∷ 2 ∷ []) v → v 0 ≡ whole 0 }
    ensures loan_second { (v : ℕ → ℚ) → IsPoint loan [] (0 ∷ 1 ∷ 2 ∷ []) v → v 1 ≡ whole 0 }
    ensures loan_third { (v : ℕ → ℚ) → IsPoint loan [] (0 ∷ 1 ∷ 2 ∷ []) v → v 2 ≡ whole 0 }
{}

/// Lines with their values: no blank stands round `=`, also before `-`, and `, ` between two.
pub fn lines_of_points()
    ensures one { sample_line (0 ∷ []) ≡ codes "% at X=1" }
    ensures three { sample_line (0 ∷ 1 ∷ 2 ∷ []) ≡ codes "% at X=1, Y=-1, _1=1r2" }
{}

/// Solvable rows have a point.
pub fn points_exist()
    ensures value { (l : List Constraint) (x : ℕ) → Solvable l → (q : ℚ) × IsChosen l x q }
    ensures point { (es : List Solved) (others : List Constraint) (order : List ℕ) → AreDistinct order
        → AreReduced es → Solvable (equations es ++ others) → (v : ℕ → ℚ) × IsPoint es others order v }
{}

/// All rows hold at their point: strict ones and disequations, too.
pub fn rows_hold_at_their_point()
    ensures { (order : List ℕ) (es : List Solved) (others : List Constraint) (v : ℕ → ℚ)
        → AreSolvedRows order es others → IsPoint es others order v → Satisfies v (equations es ++ others) }
{}

/// The values of a point depend on the solutions of the rows alone.
pub fn points_are_unique()
    ensures unsolved { (es fs : List Solved) (others more : List Constraint) (order : List ℕ) (v w : ℕ → ℚ)
        → Equivalent (equations es ++ others) (equations fs ++ more) → unsolved es order ≡ unsolved fs order
        → IsPoint es others order v → IsPoint fs more order w
        → (x : ℕ) → Has x (unsolved es order) → v x ≡ w x }
    ensures all { (order : List ℕ) (es fs : List Solved) (others more : List Constraint) (v w : ℕ → ℚ)
        → AreSolvedRows order es others → AreSolvedRows order fs more
        → Equivalent (equations es ++ others) (equations fs ++ more) → unsolved es order ≡ unsolved fs order
        → IsPoint es others order v → IsPoint fs more order w
        → (x : ℕ) → Has x order → v x ≡ w x }
{}

/// Rows have one line.
pub fn rows_have_one_line()
    ensures exists { (name : ℕ → Text) (order : List ℕ) (es : List Solved) (others : List Constraint)
        → AreSolvedRows order es others → (k : List Text) × ArePointLines name order es others k }
    ensures one { (name : ℕ → Text) (order : List ℕ) (es : List Solved) (others : List Constraint)
        → AreSolvedRows order es others → (k l : List Text) → ArePointLines name order es others k
        → ArePointLines name order es others l → k ≡ l }
{}

/// A value strictly between those of two solutions works where no disequation excludes it, and a disequation excludes one such value
/// at most: so of different values, one after another, one works.
pub fn values_between_work()
    ensures works { (l : List Constraint) (x : ℕ) (q : ℚ) → Inside l x q
        → ((f : Linear) → Has (not_zero f) l → Solvable (not_zero f ∷ equal_to x q ∷ weak l)) → Solvable (equal_to x q ∷ l) }
    ensures one_value_at_most { (l : List Constraint) (x : ℕ) (f : Linear) → Has (not_zero f) l → (q r : ℚ) → q <ℚ r
        → Inside l x q → Inside l x r → Excludes l x f q → Excludes l x f r → ⊥ }
    ensures some { (l : List Constraint) (x : ℕ) (value : ℕ → ℚ) → ((k : ℕ) → Inside l x (value k))
        → ((j k : ℕ) → j < k → (value j <ℚ value k) ⊎ (value k <ℚ value j)) → (k : ℕ) × Solvable (equal_to x (value k) ∷ l) }
{}
