//! Arithmetic expressions: definitions and laws. The functions here have empty bodies: each contract is a law.
#![tactic(auto)]

ghost use Rattle.std.specs.Prelude.{◌≡◌, ◌≢◌, ℕ, ◌<◌, ℤ, pos, negsuc, nat_abs, ◌+ℤ◌, ◌-ℤ◌, ◌*ℤ◌, ◌≤ℤ◌, ◌<ℤ◌, codes};
ghost use Rattle.spec_numbers.specs.Rational.{ℚ, 0ℚ, int_ℚ, ratio, ◌≤ℚ◌, ◌<ℚ◌};
ghost use Rattle.cq_frac.specs.Refused.{Refuses, Accepts, IsRefused};
ghost use Rattle.cq_frac.specs.declared.Operation.TheVariants.{Quotient};
ghost use Rattle.cq_frac.specs.declared.Pair.{Pair};
ghost use Rattle.spec_terms.specs.Term.{Term, Var, Number, Name, Compound, one};
ghost use Rattle.spec_terms.specs.Rounding.{floor, ceiling, truncate, floor_division, whole_quotient, remainder, modulo};
ghost use Rattle.spec_numbers.specs.Texts.{Text};
ghost use Rattle.spec_terms.specs.Operations.{ArithmeticError, Evaluated, Value, Fails, Overflows, Instantiation, NotEvaluable, NotInteger, ZeroDivisor, exact_result, exact_value, pair_of};
ghost use Rattle.spec_terms.specs.Arithmetic.{evaluate, after_both};
ghost use Rattle.spec_terms.specs.Examples.{binary, whole};

use cq_frac::Operation;

/// The operations on one number.
#[derive(Clone, Copy, PartialEq, Eq)]
pub enum UnaryOperation {
    Same,
    Opposite,
    Absolute,
    Sign,
    Floor,
    Ceiling,
    Truncate,
}

/// The operations on two whole numbers.
#[derive(Clone, Copy, PartialEq, Eq)]
pub enum WholeOperation {
    WholeQuotient,
    Remainder,
    Modulo,
}

/// The operations on two numbers.
#[derive(Clone, Copy, PartialEq, Eq)]
pub enum BinaryOperation {
    Exact(Operation),
    Whole(WholeOperation),
    Least,
    Greatest,
}

/// An operation on fractions has its exact value where it takes the two numbers, and stops at them where it refuses
/// them; a quotient by zero is an error before that.
pub fn exact_operations()
    ensures taken { (o : Operation) (p q : ℚ) → (o ≡ Quotient → q ≢ 0ℚ) → Accepts o p q → exact_result o p q ≡ Value (exact_value o p q) }
    ensures refused { (o : Operation) (p q : ℚ) → (o ≡ Quotient → q ≢ 0ℚ) → Refuses o p q → exact_result o p q ≡ Overflows (pair_of o p q) }
    ensures no_divisor { (p : ℚ) → exact_result Quotient p 0ℚ ≡ Fails ZeroDivisor }
{}

/// An expression stops only at two numbers that their operation refuses.
pub fn stops_are_refusals()
    ensures { (t : Term Text) (p : Pair) → evaluate t ≡ Overflows p → IsRefused p }
{}

/// The left argument comes first, and what it fails with or stops at is the result.
pub fn left_before_right()
    ensures fails { (o : BinaryOperation) (e : ArithmeticError Text) (right : Evaluated) → after_both o (Fails e) right ≡ Fails e }
    ensures stops { (o : BinaryOperation) (p : Pair) (right : Evaluated) → after_both o (Overflows p) right ≡ Overflows p }
    ensures right_fails { (o : BinaryOperation) (p : ℚ) (e : ArithmeticError Text) → after_both o (Value p) (Fails e) ≡ Fails e }
{}

/// The quotient that is rounded toward zero leaves a remainder that is smaller than the divisor, with the sign of
/// the dividend; the one that is rounded down leaves one with the sign of the divisor.
pub fn quotients_of_whole_numbers()
    ensures divided { (m n : ℤ) → whole_quotient m n *ℤ n +ℤ remainder m n ≡ m }
    ensures smaller { (m n : ℤ) → n ≢ pos 0 → nat_abs (remainder m n) < nat_abs n }
    ensures not_negative { (m n : ℤ) → pos 0 ≤ℤ m → pos 0 ≤ℤ remainder m n }
    ensures not_positive { (m n : ℤ) → m ≤ℤ pos 0 → remainder m n ≤ℤ pos 0 }
    ensures divided_down { (m n : ℤ) → floor_division m n *ℤ n +ℤ modulo m n ≡ m }
    ensures over_positive { (m n : ℤ) → pos 0 <ℤ n → (pos 0 ≤ℤ modulo m n) × (modulo m n <ℤ n) }
    ensures over_negative { (m n : ℤ) → n <ℤ pos 0 → (n <ℤ modulo m n) × (modulo m n ≤ℤ pos 0) }
{}

/// The whole numbers next to a rational.
pub fn roundings()
    ensures floor { (q : ℚ) → (int_ℚ (floor q) ≤ℚ q) × (q <ℚ int_ℚ (floor q +ℤ pos 1)) }
    ensures ceiling { (q : ℚ) → (q ≤ℚ int_ℚ (ceiling q)) × (int_ℚ (ceiling q -ℤ pos 1) <ℚ q) }
    ensures down { (q : ℚ) → pos 0 ≤ℤ q.numerator → truncate q ≡ floor q }
    ensures up { (q : ℚ) → q.numerator ≤ℤ pos 0 → truncate q ≡ ceiling q }
{}

/// Expressions worked by hand.
pub fn examples()
    ensures whole_quotient { evaluate (binary (codes "//") (whole (negsuc 6)) (whole (pos 2))) ≡ Value (int_ℚ (negsuc 2)) }
    ensures remainder { evaluate (binary (codes "rem") (whole (negsuc 6)) (whole (pos 2))) ≡ Value (int_ℚ (negsuc 0)) }
    ensures modulo { evaluate (binary (codes "mod") (whole (negsuc 6)) (whole (pos 2))) ≡ Value (int_ℚ (pos 1)) }
    ensures negative_modulo { evaluate (binary (codes "mod") (whole (pos 7)) (whole (negsuc 1))) ≡ Value (int_ℚ (negsuc 0)) }
    ensures sum { evaluate (binary (codes "+") (Number (ratio (pos 1) 3)) (Number (ratio (pos 1) 6))) ≡ Value (ratio (pos 1) 2) }
    ensures atom { evaluate (binary (codes "+") (Name (codes "foo")) (whole (pos 1))) ≡ Fails (NotEvaluable (codes "foo") 0) }
    ensures variable { (v : ℕ) → evaluate (binary (codes "+") (Var v) (Name (codes "foo"))) ≡ Fails Instantiation }
    ensures zero { evaluate (binary (codes "//") (whole (pos 1)) (whole (pos 0))) ≡ Fails ZeroDivisor }
    ensures whole_first { evaluate (binary (codes "mod") (Number (ratio (pos 1) 2)) (whole (pos 0))) ≡ Fails (NotInteger (ratio (pos 1) 2)) }
    ensures unlisted { (v : ℕ) → evaluate (Compound (codes "f") (one (Var v))) ≡ Fails (NotEvaluable (codes "f") 1) }
{}
