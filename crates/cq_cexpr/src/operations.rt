// The operations of expressions on linear forms. None for a form says that the expression waits.

ghost use Rattle.std.specs.Prelude.{◌≡◌, ◌≢◌, ◌∷◌, [], map, IfOk, Some};
ghost use Rattle.spec_numbers.specs.Rational.{0ℚ, inv_ℚ};
ghost use Rattle.spec_linear.specs.Form.{IsForm, constant_form, variable_form, sum_form, difference_form, scaled_form, negated_form};
ghost use Rattle.spec_simplex.specs.Overflow.{on};
ghost use Rattle.spec_terms.specs.Operations.{unary_value, least, greatest};
ghost use Rattle.spec_terms.specs.declared.arithmetic.UnaryOperation.TheVariants as arithmetic;
ghost use Rattle.spec_branch.specs.Expressions.{is_zero_form, number_of, exponent_of, power as power_of, power_form, power_of_form};
ghost use Rattle.spec_branch.specs.Expressions.{product_form, quotient_form, on_number, on_numbers, unary_of, binary_of, binary_form};
ghost use Rattle.spec_transcript.specs.Operands.{power_products, power_operands, product_operands, quotient_operands, binary_operands};
ghost use Rattle.cq_frac.specs.declared.Operation.TheVariants.{Sum, Difference, Product, Quotient};
ghost use Rattle.cq_frac.specs.declared.Pair.{Pair};
ghost use Rattle.cq_form.specs.Entries.{form_of};
ghost use Rattle.cq_cexpr.specs.Names.{unary_meant, binary_meant, binary_of_code};
ghost use Rattle.cq_cexpr.specs.Overflows.{ComesFrom};

use crate::names::{Binary, Unary};
use cq_form::Form;
use cq_frac::row::{Entry, divided, opposed};
use cq_frac::{Frac, Pair, Refusal, VarId, product, quotient};
use std::alloc::{AllocError, Global};
use std::cmp::Ordering;

/// The form of a number.
pub(crate) fn constant(alloc: Global, number: Frac) -> Result<Form, AllocError>
    ensures { IfOk result (λ f. f ≡ constant_form number) }
{
    Form::new(alloc, number, &[])
}

/// The form of a variable.
pub(crate) fn variable(alloc: Global, variable: VarId) -> Result<Form, AllocError>
    ensures { IfOk result (λ f. f ≡ variable_form variable.0) }
{
    Form::new(alloc, Frac::zero(), &[(variable, Frac::one())])
}

/// The number that a form is, if no variable stands in it.
fn number(form: &Form) -> Option<Frac>
    ensures value { result ≡ number_of form.now }
    ensures in_order { IsForm form.now }
{
    if form.entries().is_empty() {
        Some(form.constant())
    } else {
        None
    }
}

/// The products of a form are in order: its type keeps them so.
pub(crate) fn is_in_order(form: &Form)
    ensures { IsForm form.now }
{
    let _entries = form.entries();
}

/// Whether the form is the number zero.
pub(crate) fn is_zero(form: &Option<Form>) -> bool
    ensures { result ≡ is_zero_form form.now }
{
    match form {
        None => false,
        Some(form) => is_number_zero(form),
    }
}

fn is_number_zero(form: &Form) -> bool
    ensures { result ≡ is_zero_form (Some form.now) }
{
    match number(form) {
        None => false,
        Some(number) => number.is_zero(),
    }
}

/// The form with the other sign.
fn negated(alloc: Global, form: &Form) -> Result<Form, AllocError>
    ensures { IfOk result (λ f. f ≡ negated_form form.now) }
{
    let entries = opposed(alloc, form.entries())?;
    Ok(Form::of_entries(form.constant().neg(), entries))
}

/// The form by a number that is not zero.
fn over_number(alloc: Global, form: &Form, divisor: Frac) -> Result<Form, Refusal>
    requires { divisor ≢ 0ℚ }
    ensures value { IfOk result (λ f. f ≡ scaled_form (inv_ℚ divisor) form.now) }
    ensures overflow { (pair : Pair) → result ≡ Err (Refusal.Overflow pair)
        → ComesFrom (on Quotient form.now (constant_form divisor) ∷ []) pair }
{
    let constant = quotient(form.constant(), divisor)?;
    let entries = divided(alloc, form.entries(), divisor)?;
    Ok(Form::of_entries(constant, entries))
}

/// The operation on one form.
pub(crate) fn unary(
    alloc: Global,
    operation: Option<Unary>,
    form: Option<Form>,
) -> Result<Option<Form>, AllocError>
    ensures { IfOk result (λ r. r ≡ unary_of (unary_meant operation) form) }
{
    let Some(operation) = operation else {
        return Ok(None);
    };
    let Some(form) = form else {
        return Ok(None);
    };
    match operation {
        Unary::Same => Ok(Some(form)),
        Unary::Opposite => Ok(Some(negated(alloc, &form)?)),
        Unary::Absolute => absolute(alloc, &form),
    }
}

/// The absolute value, where the form is a number.
fn absolute(alloc: Global, form: &Form) -> Result<Option<Form>, AllocError>
    ensures { IfOk result (λ r. r ≡ on_number (unary_value arithmetic.Absolute) (number_of form.now)) }
{
    let Some(number) = number(form) else {
        return Ok(None);
    };
    Ok(Some(constant(alloc, absolute_value(number))?))
}

fn absolute_value(number: Frac) -> Frac
    ensures { result ≡ unary_value arithmetic.Absolute number }
{
    let (numerator, _) = number.parts();
    if numerator < 0 { number.neg() } else { number }
}

/// The operation on two forms.
pub(crate) fn binary(
    alloc: Global,
    operation: Option<Binary>,
    left: Option<Form>,
    right: Option<Form>,
) -> Result<Option<Form>, Refusal>
    ensures value { IfOk result (λ r. r ≡ binary_of (binary_meant operation) left right) }
    ensures overflow { (pair : Pair) → result ≡ Err (Refusal.Overflow pair)
        → ComesFrom (binary_operands (binary_meant operation) left right) pair }
{
    let Some(operation) = operation else {
        return Ok(None);
    };
    let Some(left) = left else {
        return Ok(None);
    };
    let Some(right) = right else {
        return Ok(None);
    };
    of_two(alloc, operation, left, right)
}

fn of_two(
    alloc: Global,
    operation: Binary,
    left: Form,
    right: Form,
) -> Result<Option<Form>, Refusal>
    ensures value { IfOk result (λ r. r ≡ binary_form (binary_of_code operation) left right) }
    ensures overflow { (pair : Pair) → result ≡ Err (Refusal.Overflow pair)
        → ComesFrom (binary_operands (Some (binary_of_code operation)) (Some left) (Some right)) pair }
{
    match operation {
        Binary::Plus => plus(left, &right),
        Binary::Minus => minus(left, &right),
        Binary::Times => times(&left, &right),
        Binary::Over => over(alloc, &left, &right),
        Binary::Power => to_the_power(alloc, left, &right),
        Binary::Least => Ok(least_of(alloc, &left, &right)?),
        Binary::Greatest => Ok(greatest_of(alloc, &left, &right)?),
    }
}

fn plus(left: Form, right: &Form) -> Result<Option<Form>, Refusal>
    ensures value { IfOk result (λ r. r ≡ Some (sum_form left right.now)) }
    ensures overflow { (pair : Pair) → result ≡ Err (Refusal.Overflow pair)
        → ComesFrom (on Sum left right.now ∷ []) pair }
{
    is_in_order(&left);
    is_in_order(right);
    Ok(Some(left.add(right)?))
}

fn minus(left: Form, right: &Form) -> Result<Option<Form>, Refusal>
    ensures value { IfOk result (λ r. r ≡ Some (difference_form left right.now)) }
    ensures overflow { (pair : Pair) → result ≡ Err (Refusal.Overflow pair)
        → ComesFrom (on Difference left right.now ∷ []) pair }
{
    Ok(Some(difference(left, right)?))
}

/// The difference of two forms.
pub(crate) fn difference(left: Form, right: &Form) -> Result<Form, Refusal>
    ensures value { IfOk result (λ f. f ≡ difference_form left right.now) }
    ensures overflow { (pair : Pair) → result ≡ Err (Refusal.Overflow pair)
        → ComesFrom (on Difference left right.now ∷ []) pair }
{
    is_in_order(&left);
    is_in_order(right);
    left.sub(right)
}

/// A product is linear where one of its factors is a number.
fn times(left: &Form, right: &Form) -> Result<Option<Form>, Refusal>
    ensures value { IfOk result (λ r. r ≡ product_form left.now (number_of left.now) right.now (number_of right.now)) }
    ensures overflow { (pair : Pair) → result ≡ Err (Refusal.Overflow pair)
        → ComesFrom (product_operands left.now (number_of left.now) right.now (number_of right.now)) pair }
{
    if let Some(factor) = number(right) {
        return multiplied(left, factor);
    }
    match number(left) {
        None => Ok(None),
        Some(factor) => Ok(Some(right.scale(factor)?)),
    }
}

/// The form times a number, which stands behind it.
fn multiplied(form: &Form, factor: Frac) -> Result<Option<Form>, Refusal>
    ensures value { IfOk result (λ r. r ≡ Some (scaled_form factor form.now)) }
    ensures overflow { (pair : Pair) → result ≡ Err (Refusal.Overflow pair)
        → ComesFrom (on Product form.now (constant_form factor) ∷ []) pair }
{
    is_in_order(form);
    match form.scale(factor) {
        Ok(product) => Ok(Some(product)),
        Err(refusal) => Err(turned(refusal)),
    }
}

/// The refusal with its two numbers in the other order.
fn turned(refusal: Refusal) -> Refusal
    ensures { (pair : Pair) → result ≡ Refusal.Overflow pair
        → refusal ≡ Refusal.Overflow (record { operation = pair.operation; left = pair.right; right = pair.left }) }
{
    match refusal {
        Refusal::NoMemory => Refusal::NoMemory,
        Refusal::Overflow(pair) => Refusal::Overflow(Pair {
            operation: pair.operation,
            left: pair.right,
            right: pair.left,
        }),
    }
}

/// A quotient is linear where its divisor is a number that is not zero.
fn over(alloc: Global, left: &Form, right: &Form) -> Result<Option<Form>, Refusal>
    ensures value { IfOk result (λ r. r ≡ quotient_form left.now (number_of right.now)) }
    ensures overflow { (pair : Pair) → result ≡ Err (Refusal.Overflow pair)
        → ComesFrom (quotient_operands left.now right.now (number_of right.now)) pair }
{
    let Some(divisor) = number(right) else {
        return Ok(None);
    };
    if divisor.is_zero() {
        return Ok(None);
    }
    Ok(Some(over_number(alloc, left, divisor)?))
}

/// A power is linear where its exponent is a whole number from 0 to 64, and its base a number or the exponent 0 or 1.
fn to_the_power(alloc: Global, base: Form, exponent: &Form) -> Result<Option<Form>, Refusal>
    ensures value { IfOk result (λ r. r ≡ power_form base (number_of base) (exponent_of (number_of exponent.now))) }
    ensures overflow { (pair : Pair) → result ≡ Err (Refusal.Overflow pair)
        → ComesFrom (power_operands (number_of base) (exponent_of (number_of exponent.now))) pair }
{
    let Some(exponent) = count_of(number(exponent)) else {
        return Ok(None);
    };
    match number(&base) {
        None => Ok(low_power(alloc, base, exponent)?),
        Some(number) => {
            let power = power(number, exponent)?;
            Ok(Some(constant(alloc, power)?))
        }
    }
}

/// How many factors an exponent asks for, if it is a whole number from 0 to 64.
fn count_of(exponent: Option<Frac>) -> Option<usize>
    ensures { result ≡ exponent_of exponent }
{
    let (numerator, denominator) = exponent?.parts();
    if denominator == 1 && 0 <= numerator && numerator <= 64 {
        Some(numerator as usize)
    } else {
        None
    }
}

/// The powers 0 and 1 of a form.
fn low_power(alloc: Global, base: Form, exponent: usize) -> Result<Option<Form>, AllocError>
    ensures { IfOk result (λ r. r ≡ power_of_form base exponent) }
{
    if exponent == 0 {
        Ok(Some(constant(alloc, Frac::one())?))
    } else if exponent == 1 {
        Ok(Some(base))
    } else {
        Ok(None)
    }
}

/// The number multiplied so many times, from the left on.
fn power(base: Frac, exponent: usize) -> Result<Frac, Pair>
    ensures value { IfOk result (λ q. q ≡ power_of base exponent) }
    ensures overflow { (pair : Pair) → result ≡ Err pair → ComesFrom (power_products base exponent) pair }
{
    if exponent == 0 {
        return Ok(Frac::one());
    }
    let mut power = base;
    for _factor in 1..exponent {
        power = product(power, base)?;
    }
    Ok(power)
}

/// The lesser of two forms that are numbers.
fn least_of(alloc: Global, left: &Form, right: &Form) -> Result<Option<Form>, AllocError>
    ensures { IfOk result (λ r. r ≡ on_numbers least (number_of left.now) (number_of right.now)) }
{
    let Some(left) = number(left) else {
        return Ok(None);
    };
    let Some(right) = number(right) else {
        return Ok(None);
    };
    Ok(Some(constant(alloc, lesser(left, right))?))
}

fn lesser(left: Frac, right: Frac) -> Frac
    ensures { result ≡ least left right }
{
    match left.cmp(right) {
        Ordering::Greater => right,
        _ => left,
    }
}

/// The greater of two forms that are numbers.
fn greatest_of(alloc: Global, left: &Form, right: &Form) -> Result<Option<Form>, AllocError>
    ensures { IfOk result (λ r. r ≡ on_numbers greatest (number_of left.now) (number_of right.now)) }
{
    let Some(left) = number(left) else {
        return Ok(None);
    };
    let Some(right) = number(right) else {
        return Ok(None);
    };
    Ok(Some(constant(alloc, greater(left, right))?))
}

fn greater(left: Frac, right: Frac) -> Frac
    ensures { result ≡ greatest left right }
{
    match left.cmp(right) {
        Ordering::Less => right,
        _ => left,
    }
}
