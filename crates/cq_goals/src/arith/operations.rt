// The operations of arithmetic on numbers.

ghost use Rattle.std.specs.Prelude.{◌≡◌, ◌≢◌, ℕ, ◌<◌, List, pos, nat_abs, IfOk, IfErr};
ghost use Rattle.cq_frac.specs.Fits.{limit};
ghost use Rattle.spec_numbers.specs.Rational.{int_ℚ};
ghost use Rattle.spec_numbers.specs.Texts.{Text};
ghost use Rattle.spec_terms.specs.Operations.{Value, unary_named, binary_named, unary_value, whole_value, exact_result, whole_result, binary_result, least, greatest};
ghost use Rattle.spec_terms.specs.Rounding.{floor as floor_of, ceiling as ceiling_of, truncate as truncate_of, modulo as modulo_of};
ghost use Rattle.cq_goals.specs.ArithFaults.{ComesTo, IsComputed, IsNamedBelow};

use crate::arith::faults::{EvalError, EvalFault};
use cq_frac::{Frac, FracFault, Operation, Pair};
use spec_terms::arithmetic::{BinaryOperation, UnaryOperation, WholeOperation};
use std::cmp::Ordering;

/// The operation of a name with one argument.
pub(crate) fn unary_operation(name: &str) -> Option<UnaryOperation>
    ensures { result ≡ unary_named name.now }
{
    if name == "+" {
        Some(UnaryOperation::Same)
    } else if name == "-" {
        Some(UnaryOperation::Opposite)
    } else if name == "abs" {
        Some(UnaryOperation::Absolute)
    } else if name == "sign" {
        Some(UnaryOperation::Sign)
    } else if name == "floor" {
        Some(UnaryOperation::Floor)
    } else if name == "ceiling" {
        Some(UnaryOperation::Ceiling)
    } else if name == "truncate" {
        Some(UnaryOperation::Truncate)
    } else {
        None
    }
}

/// The operation of a name with two arguments.
#[inline(always)]
pub(crate) fn binary_operation(name: &str) -> Option<BinaryOperation>
    ensures { result ≡ binary_named name.now }
{
    if name == "+" {
        Some(BinaryOperation::Exact(Operation::Sum))
    } else if name == "-" {
        Some(BinaryOperation::Exact(Operation::Difference))
    } else if name == "*" {
        Some(BinaryOperation::Exact(Operation::Product))
    } else if name == "/" {
        Some(BinaryOperation::Exact(Operation::Quotient))
    } else if name == "//" {
        Some(BinaryOperation::Whole(WholeOperation::WholeQuotient))
    } else if name == "rem" {
        Some(BinaryOperation::Whole(WholeOperation::Remainder))
    } else if name == "mod" {
        Some(BinaryOperation::Whole(WholeOperation::Modulo))
    } else if name == "min" {
        Some(BinaryOperation::Least)
    } else if name == "max" {
        Some(BinaryOperation::Greatest)
    } else {
        None
    }
}

/// The value of an operation on one number.
pub(crate) fn unary(operation: UnaryOperation, value: Frac) -> Frac
    ensures { result ≡ unary_value operation value }
{
    match operation {
        UnaryOperation::Same => value,
        UnaryOperation::Opposite => value.neg(),
        UnaryOperation::Absolute => absolute(value),
        UnaryOperation::Sign => sign(value),
        UnaryOperation::Floor => floor(value),
        UnaryOperation::Ceiling => ceiling(value),
        UnaryOperation::Truncate => truncate(value),
    }
}

fn absolute(value: Frac) -> Frac
    ensures { result ≡ unary_value UnaryOperation.Absolute value }
{
    let (numerator, _) = value.parts();
    if numerator < 0 { value.neg() } else { value }
}

fn sign(value: Frac) -> Frac
    ensures { result ≡ unary_value UnaryOperation.Sign value }
{
    let (numerator, _) = value.parts();
    whole(numerator.signum())
}

fn floor(value: Frac) -> Frac
    ensures { result ≡ int_ℚ (floor_of value) }
{
    let (numerator, denominator) = value.parts();
    whole(numerator.div_euclid(denominator))
}

fn ceiling(value: Frac) -> Frac
    ensures { result ≡ int_ℚ (ceiling_of value) }
{
    let (numerator, denominator) = value.parts();
    whole(-(-numerator).div_euclid(denominator))
}

fn truncate(value: Frac) -> Frac
    ensures { result ≡ int_ℚ (truncate_of value) }
{
    let (numerator, denominator) = value.parts();
    whole(numerator / denominator)
}

/// A whole number that fits.
fn whole(value: i128) -> Frac
    requires { nat_abs value < limit }
    ensures { result ≡ int_ℚ value }
{
    Frac::new(value, 1).unwrap()
}

/// The value of an operation on two numbers, its error, or its overflow.
#[inline(always)]
pub(crate) fn binary(operation: BinaryOperation, left: Frac, right: Frac) -> Result<Frac, EvalFault>
    ensures value { IfOk result (λ q. binary_result operation left right ≡ Value q) }
    ensures fault { IfErr result (λ fault. (texts : List Text) → ComesTo texts (binary_result operation left right) fault) }
    ensures known { IfErr result (λ fault. (n : ℕ) → IsNamedBelow n fault) }
{
    match operation {
        BinaryOperation::Exact(exact) => exact_operation(exact, left, right),
        BinaryOperation::Whole(whole) => whole_operation(whole, left, right),
        BinaryOperation::Least => Ok(least_of(left, right)),
        BinaryOperation::Greatest => Ok(greatest_of(left, right)),
    }
}

#[inline(always)]
fn exact_operation(operation: Operation, left: Frac, right: Frac) -> Result<Frac, EvalFault>
    ensures value { IfOk result (λ q. exact_result operation left right ≡ Value q) }
    ensures fault { IfErr result (λ fault. (texts : List Text) → ComesTo texts (exact_result operation left right) fault) }
    ensures known { IfErr result (λ fault. (n : ℕ) → IsNamedBelow n fault) }
{
    match computed(operation, left, right) {
        Ok(value) => Ok(value),
        Err(FracFault::ZeroDivisor) => Err(EvalFault::Error(EvalError::ZeroDivisor)),
        Err(FracFault::Overflow) => Err(EvalFault::Overflow(Pair {
            operation,
            left,
            right,
        })),
    }
}

fn computed(operation: Operation, left: Frac, right: Frac) -> Result<Frac, FracFault>
    ensures { IsComputed operation left right result }
{
    match operation {
        Operation::Sum => left.add(right),
        Operation::Difference => left.sub(right),
        Operation::Product => left.mul(right),
        Operation::Quotient => left.div(right),
    }
}

/// Whether both numbers are whole is looked at first, the left one before the right one, and then the zero.
fn whole_operation(operation: WholeOperation, left: Frac, right: Frac) -> Result<Frac, EvalFault>
    ensures value { IfOk result (λ q. whole_result operation left right ≡ Value q) }
    ensures fault { IfErr result (λ fault. (texts : List Text) → ComesTo texts (whole_result operation left right) fault) }
    ensures known { IfErr result (λ fault. (n : ℕ) → IsNamedBelow n fault) }
{
    let (dividend, left_denominator) = left.parts();
    let (divisor, right_denominator) = right.parts();
    if left_denominator != 1 {
        return Err(EvalFault::Error(EvalError::NotInteger(left)));
    }
    if right_denominator != 1 {
        return Err(EvalFault::Error(EvalError::NotInteger(right)));
    }
    if divisor == 0 {
        return Err(EvalFault::Error(EvalError::ZeroDivisor));
    }
    Ok(whole(divided(operation, dividend, divisor)))
}

/// What an operation makes of two whole numbers.
fn divided(operation: WholeOperation, dividend: i128, divisor: i128) -> i128
    requires dividend_fits { nat_abs dividend < limit }
    requires divisor_fits { nat_abs divisor < limit }
    requires divisor_not_zero { divisor ≢ pos 0 }
    ensures value { result ≡ whole_value operation dividend divisor }
    ensures fits { nat_abs result < limit }
{
    match operation {
        WholeOperation::WholeQuotient => dividend / divisor,
        WholeOperation::Remainder => dividend % divisor,
        WholeOperation::Modulo => modulo(dividend, divisor),
    }
}

/// What is left by the quotient that is rounded down, which has the divisor's sign.
fn modulo(dividend: i128, divisor: i128) -> i128
    requires dividend_fits { nat_abs dividend < limit }
    requires divisor_fits { nat_abs divisor < limit }
    requires divisor_not_zero { divisor ≢ pos 0 }
    ensures value { result ≡ modulo_of dividend divisor }
    ensures fits { nat_abs result < limit }
{
    if divisor < 0 {
        -(-dividend).rem_euclid(-divisor)
    } else {
        dividend.rem_euclid(divisor)
    }
}

fn least_of(left: Frac, right: Frac) -> Frac
    ensures { result ≡ least left right }
{
    match left.cmp(right) {
        Ordering::Greater => right,
        _ => left,
    }
}

fn greatest_of(left: Frac, right: Frac) -> Frac
    ensures { result ≡ greatest left right }
{
    match left.cmp(right) {
        Ordering::Less => right,
        _ => left,
    }
}
