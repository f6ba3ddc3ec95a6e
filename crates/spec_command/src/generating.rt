//! The query that `gen` asks, and the line that it writes. No code: each function has an empty body, and its contract is a law of
//! the definitions, or what they say of an example.
#![tactic(auto)]

ghost use Rattle.std.specs.Prelude.{◌≡◌, ◌↔◌, ℕ, suc, ◌<◌, List, [], ◌∷◌, ◌++◌, None, Some, false, pos};
ghost use Rattle.spec_numbers.specs.Texts.{Text};
ghost use Rattle.spec_numbers.specs.Rational.{ℚ, int_ℚ};
ghost use Rattle.spec_linear.specs.Solution.{Constraint, Point, Solves, number};
ghost use Rattle.spec_syntax.specs.Trees.{Tree};
ghost use Rattle.spec_branch.specs.Values.{IsMetAt, value_of};
ghost use Rattle.spec_text.specs.Numbers.{whole_text};
ghost use Rattle.spec_search.specs.Asked.{IsGreatestLowerBound};
ghost use Rattle.spec_branch.specs.Checks.{constraint_error, halves, members};
ghost use Rattle.spec_command.specs.Outcome.{GenWrites, gen_line};
ghost use Rattle.spec_command.specs.Query.{IsLeastValue, constraints, gap, last, least, lowers, upper, uppers};

/// Where the query's constraints are met, its last variable is 1 and the gaps at least, and somewhere it is that.
pub fn the_last_variable_has_a_least_value()
    ensures { (k : ℕ) → k < 200 → IsLeastValue (constraints (suc k)) (last (suc k)) (int_ℚ (pos (least k))) }
{}

/// The query's constraints are told as they are: none is an error, no disjunction splits them, and these are they, in order.
pub fn the_constraints_are_told()
    ensures right { (k : ℕ) → constraint_error (constraints (suc k)) ≡ None }
    ensures whole { (k : ℕ) → halves (constraints (suc k)) ≡ None }
    ensures each { (k : ℕ) → members (constraints (suc k)) ≡ lowers 0 (suc k) ++ (uppers 0 k ++ upper k ∷ []) }
{}

/// Where some constraints have the solutions of the query's, and an expression has the value of its last variable, its greatest lower
/// bound is that least value.
pub fn the_bound_is_the_least_value()
    ensures { (k : ℕ) → k < 200 → (l : List Constraint) (e : Tree) (q : ℚ) → ((p : Point) → Solves p l ↔ IsMetAt (number p) (constraints (suc k)))
        → ((p : Point) → Solves p l → value_of (number p) e ≡ Some (number p k)) → IsGreatestLowerBound l e q → q ≡ int_ℚ (pos (least k)) }
{}

/// Where the query's search comes to its end and isn't stopped, whatever course it takes, the line that is written tells the least value
/// of the query's last variable, and one answer.
pub fn the_line_tells_the_least_value()
    ensures { (k : ℕ) → k < 200 → (line : Text) → GenWrites (suc k) line false → line ≡ gen_line (suc k) (whole_text (least k)) 1 }
{}

/// Gaps, and the least values of the last variables of 1, 7, 10, 14 and 200.
pub fn least_values()
    ensures second { gap 2 ≡ 5 }
    ensures seventh { gap 7 ≡ 1 }
    ensures one { least 0 ≡ 1 }
    ensures seven { least 6 ≡ 20 }
    ensures ten { least 9 ≡ 30 }
    ensures fourteen { least 13 ≡ 41 }
    ensures two_hundred { least 199 ≡ 600 }
{}
