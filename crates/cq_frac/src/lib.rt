//! Exact fractions of 128 bits: each is seen as the rational number that it is.
#![tactic(auto)]

pub mod row;

ghost use Rattle.std.specs.Prelude.{◌≡◌, ◌≢◌, ◌<◌, ◌↔◌, pos, nat_abs, int_lt, Some, IfSome, IfOk, OnOk, MatchResult, IsTrue};
ghost use Rattle.std.specs.Bool.{OnFalse};
ghost use Rattle.std.specs.Cmp.{partial_equiv_from_equiv, eq_by_cmp_equiv, partial_order_from_total};
ghost use Rattle.std.specs.Ordering.{nat_cmp, eq_by_cmp, as_partial_cmp};
ghost use Rattle.std.proofs.Common.{refl};
ghost use Rattle.spec_numbers.specs.Gcd.{gcd as gcd_of};
ghost use Rattle.spec_numbers.specs.Order.{cmp_ℚ};
ghost use Rattle.spec_numbers.specs.Rational.{0ℚ, 1ℚ, int_ℚ, quotient, ratio, neg_ℚ, inv_ℚ, ◌+ℚ◌, ◌-ℚ◌, ◌*ℚ◌, ◌/ℚ◌, ◌<ℚ◌, denominator, IsPositive, IsNotNegative};
ghost use Rattle.spec_numbers.proofs.Order.{cmp_ℚ-total};
ghost use Rattle.cq_frac.specs.Fits.{Exceeds, Fits, SumAccepted, SumRefused, limit, signed};
ghost use Rattle.cq_frac.specs.Refused.{Accepts, Tells, AcceptsOrRefuses, NeverBoth};
ghost use Rattle.cq_frac.specs.declared.Operation.TheVariants.{Sum, Difference, Product, Quotient};
ghost use Rattle.cq_frac.specs.declared.Refusal.TheVariants.{Overflow, NoMemory};
ghost use Rattle.cq_frac.specs.Text.{number_text};

mod wholes;

use crate::wholes::{LIMIT, gcd, order, part, product_parts, sum_parts};
use itoa::Buffer;
use std::alloc::{AllocError, AllocFailed};
use std::cmp::Ordering;
use std::fmt;
use std::marker::Model;
use thiserror::Error;

/// The number of a variable of the constraints. It tells the age: a younger variable has a greater number.
#[derive(Clone, Copy, Debug, PartialEq, Eq, PartialOrd, Ord, Hash)]
pub struct VarId(pub usize);

/// Why an operation gives no number.
#[derive(Clone, Copy, Debug, PartialEq, Eq, Drop, Error)]
pub enum FracFault {
    #[error("a number past 128 bits")]
    Overflow,
    #[error("a division by zero")]
    ZeroDivisor,
}

/// The operations that may overflow.
#[derive(Clone, Copy, Debug, PartialEq, Eq)]
pub enum Operation {
    Sum,
    Difference,
    Product,
    Quotient,
}

/// Two numbers and what was to be done with them: what a refusal is told by.
#[derive(Clone, Copy, Debug)]
pub struct Pair {
    pub operation: Operation,
    pub left: Frac,
    pub right: Frac,
}

/// Why there is no result: an operation refuses two numbers, or memory is out.
#[derive(Clone, Copy, Debug, Error)]
pub enum Refusal {
    #[error("a number past 128 bits")]
    Overflow(Pair),
    #[error("out of memory")]
    NoMemory,
}

impl From<AllocError> for Refusal {
    ghost from_gives = { λ _ refusal. refusal ≡ NoMemory };

    fn from(_: AllocError) -> Refusal {
        Refusal::NoMemory
    }
}

impl<T: Drop> From<AllocFailed<T>> for Refusal {
    ghost from_gives = { λ _ refusal. refusal ≡ NoMemory };

    fn from(_refused: AllocFailed<T>) -> Refusal {
        Refusal::NoMemory
    }
}

impl From<Pair> for Refusal {
    ghost from_gives = { λ pair refusal. refusal ≡ Overflow pair };

    fn from(pair: Pair) -> Refusal {
        Refusal::Overflow(pair)
    }
}

/// A rational number in lowest terms, with a numerator from `-M` to `M` and a denominator from 1 to `M`,
/// where `M` is 2^127 - 1.
#[derive(Clone, Copy, Debug)]
pub struct Frac {
    numer: i128,
    denom: i128,
}

impl Model for Frac {
    ghost use Rattle.spec_numbers.specs.Rational.{ℚ, ratio, denominator};
    ghost use Rattle.cq_frac.specs.Code.{rational_code};
    ghost use Rattle.cq_frac.specs.Fits.{IsLowest};
    ghost use Rattle.std.specs.Prelude.{nat_abs, pos};

    ghost Value = { ℚ };

    ghost coded = { rational_code };

    ghost view = { λ f. ratio f.numer (nat_abs f.denom) };

    ghost invariant = { λ f. IsLowest f.numer f.denom };

    ghost inverse = { λ q. record { numer = q.numerator; denom = pos (denominator q) } };

    ghost use Rattle.cq_frac.specs.Lowest.{numerator-ratio, denominator-ratio};

    ghost inverse_ok = { λ a h. λ i. record { numer = numerator-ratio a.numer a.denom h i; denom = denominator-ratio a.numer a.denom h i } };
}

/// The number with these parts, which have no common divisor.
fn made(negative: bool, a: u128, b: u128) -> Frac
    requires coprime { gcd_of a b ≡ 1 }
    requires b_pos { 0 < b }
    requires a_fits { a < limit }
    requires b_fits { b < limit }
    ensures { result ≡ ratio (signed negative a) b }
{
    let size = a as i128;
    let numer = if negative { -size } else { size };
    Frac {
        numer,
        denom: b as i128,
    }
}

impl Frac {
    /// `n` over `d`, for every two numbers: `Frac::new(i128::MIN, i128::MIN)` is 1.
    pub fn new(n: i128, d: i128) -> Result<Frac, FracFault>
        ensures value { IfOk result (λ q. q ≡ quotient n d) }
        ensures accepted { OnOk result ((d ≢ pos 0) × Fits (quotient n d)) }
        ensures zero { (result ≡ Err FracFault.ZeroDivisor) ↔ (d ≡ pos 0) }
        ensures overflow { (result ≡ Err FracFault.Overflow) ↔ ((d ≢ pos 0) × Exceeds (quotient n d)) }
    {
        if d == 0 {
            return Err(FracFault::ZeroDivisor);
        }
        let top = n.unsigned_abs();
        let bottom = d.unsigned_abs();
        let g = gcd(top, bottom);
        let top = part(top, g);
        let bottom = part(bottom, g);
        if top > LIMIT || bottom > LIMIT {
            return Err(FracFault::Overflow);
        }
        Ok(made((n < 0) != (d < 0), top, bottom))
    }

    /// The fraction 0 over 1.
    pub fn zero() -> Frac
        ensures { result ≡ 0ℚ }
    {
        Frac { numer: 0, denom: 1 }
    }

    /// The fraction 1 over 1.
    pub fn one() -> Frac
        ensures { result ≡ 1ℚ }
    {
        Frac { numer: 1, denom: 1 }
    }

    /// The numerator and the denominator, in lowest terms.
    pub fn parts(self) -> (i128, i128)
        ensures numerator { result.0 ≡ self.numerator }
        ensures denominator { result.1 ≡ pos (denominator self) }
        ensures fits { Fits self }
    {
        (self.numer, self.denom)
    }

    /// The number as one word, where it is whole and fits.
    pub fn to_i64(self) -> Option<i64>
        ensures { IfSome result (λ n. self ≡ int_ℚ n) }
    {
        let (numerator, denominator) = self.parts();
        if denominator == 1 {
            i64::try_from(numerator).ok()
        } else {
            None
        }
    }

    /// Whether the number is 0.
    pub fn is_zero(self) -> bool
        ensures { IsTrue result ↔ (self ≡ 0ℚ) }
    {
        self.numer == 0
    }

    /// Whether the number is below 0.
    pub fn is_negative(self) -> bool
        ensures negative { IsTrue result ↔ (self <ℚ 0ℚ) }
        ensures otherwise { OnFalse result (IsNotNegative self) }
    {
        self.numer < 0
    }

    /// Whether the number is above 0.
    pub fn is_positive(self) -> bool
        ensures positive { IsTrue result ↔ IsPositive self }
        ensures otherwise { OnFalse result (IsNotNegative (neg_ℚ self)) }
    {
        self.numer > 0
    }

    /// The number with the other sign.
    pub fn neg(self) -> Frac
        ensures { result ≡ neg_ℚ self }
    {
        Frac {
            numer: -self.numer,
            denom: self.denom,
        }
    }

    /// How the numbers stand to each other, by their cross products.
    pub fn cmp(self, other: Frac) -> Ordering
        ensures { result ≡ cmp_ℚ self other }
    {
        match (self.sign_is_negative(), other.sign_is_negative()) {
            (true, false) => Ordering::Less,
            (false, true) => Ordering::Greater,
            (false, false) => order(self.top(), self.bottom(), other.top(), other.bottom()),
            (true, true) => order(other.top(), other.bottom(), self.top(), self.bottom()),
        }
    }

    /// The sum over the least common denominator. It is refused where a number on the way to it is past
    /// `M`, also where the sum itself would fit.
    pub fn add(self, other: Frac) -> Result<Frac, FracFault>
        ensures value { IfOk result (λ q. q ≡ self +ℚ other) }
        ensures accepted { OnOk result (SumAccepted self other) }
        ensures overflow { (result ≡ Err FracFault.Overflow) ↔ SumRefused self other }
        ensures other { result ≢ Err FracFault.ZeroDivisor }
    {
        let Some((negative, top, bottom)) = sum_parts(
            self.sign_is_negative(),
            self.top(),
            self.bottom(),
            other.sign_is_negative(),
            other.top(),
            other.bottom(),
        ) else {
            return Err(FracFault::Overflow);
        };
        Ok(made(negative, top, bottom))
    }

    /// The difference: the sum with the negated number.
    pub fn sub(self, other: Frac) -> Result<Frac, FracFault>
        ensures value { IfOk result (λ q. q ≡ self -ℚ other) }
        ensures accepted { OnOk result (SumAccepted self (neg_ℚ other)) }
        ensures overflow { (result ≡ Err FracFault.Overflow) ↔ SumRefused self (neg_ℚ other) }
        ensures other { result ≢ Err FracFault.ZeroDivisor }
    {
        self.add(other.neg())
    }

    /// The product, refused only where it does not fit.
    pub fn mul(self, other: Frac) -> Result<Frac, FracFault>
        ensures value { IfOk result (λ q. q ≡ self *ℚ other) }
        ensures accepted { OnOk result (Fits (self *ℚ other)) }
        ensures overflow { (result ≡ Err FracFault.Overflow) ↔ Exceeds (self *ℚ other) }
        ensures other { result ≢ Err FracFault.ZeroDivisor }
    {
        let Some((top, bottom)) = product_parts(
            self.top(),
            self.bottom(),
            other.top(),
            other.bottom(),
        ) else {
            return Err(FracFault::Overflow);
        };
        let negative = self.sign_is_negative() != other.sign_is_negative();
        Ok(made(negative, top, bottom))
    }

    /// The quotient, refused only where the divisor is zero, which is looked at first, or the quotient
    /// does not fit.
    pub fn div(self, other: Frac) -> Result<Frac, FracFault>
        ensures value { IfOk result (λ q. q ≡ self /ℚ other) }
        ensures accepted { OnOk result ((other ≢ 0ℚ) × Fits (self /ℚ other)) }
        ensures zero { (result ≡ Err FracFault.ZeroDivisor) ↔ (other ≡ 0ℚ) }
        ensures overflow { (result ≡ Err FracFault.Overflow) ↔ ((other ≢ 0ℚ) × Exceeds (self /ℚ other)) }
    {
        if other.is_zero() {
            return Err(FracFault::ZeroDivisor);
        }
        self.mul(other.inverse())
    }

    /// The size of the numerator.
    fn top(self) -> u128
        ensures value { result ≡ nat_abs self.numerator }
        ensures fits { result < limit }
    {
        self.numer.unsigned_abs()
    }

    /// The denominator.
    fn bottom(self) -> u128
        ensures value { result ≡ denominator self }
        ensures fits { result < limit }
    {
        self.denom.unsigned_abs()
    }

    fn sign_is_negative(self) -> bool
        ensures { result ≡ int_lt self.numerator (pos 0) }
    {
        self.numer < 0
    }

    /// 1 over the number, which is not zero.
    fn inverse(self) -> Frac
        requires { self ≢ 0ℚ }
        ensures { result ≡ inv_ℚ self }
    {
        if self.sign_is_negative() {
            Frac {
                numer: -self.denom,
                denom: -self.numer,
            }
        } else {
            Frac {
                numer: self.denom,
                denom: self.numer,
            }
        }
    }
}

impl PartialEq for Frac {
    ghost eq = { eq_by_cmp cmp_ℚ };

    ghost laws = { partial_equiv_from_equiv (eq_by_cmp_equiv cmp_ℚ-total) };

    fn eq(&self, other: &Frac) -> bool
        ensures is { result ≡ eq_by_cmp cmp_ℚ self.now other.now }
        ensures same { IsTrue result ↔ (self.now ≡ other.now) }
    {
        self.numer == other.numer && self.denom == other.denom
    }
}

impl Eq for Frac {
    ghost laws = { eq_by_cmp_equiv cmp_ℚ-total };
}

impl PartialOrd for Frac {
    ghost partial_cmp = { as_partial_cmp cmp_ℚ };

    ghost laws = { partial_order_from_total cmp_ℚ-total };

    fn partial_cmp(&self, other: &Frac) -> Option<Ordering> {
        Some(Frac::cmp(*self, *other))
    }
}

impl Ord for Frac {
    ghost cmp = { cmp_ℚ };

    ghost total = { cmp_ℚ-total };

    ghost matches_partial_cmp = { λ x y. refl };

    ghost matches_eq = { λ x y. refl };

    fn cmp(&self, other: &Frac) -> Ordering {
        Frac::cmp(*self, *other)
    }
}

/// A whole number.
impl From<i64> for Frac {
    ghost from_gives = { λ n q. q ≡ int_ℚ n };

    fn from(n: i64) -> Frac {
        Frac {
            numer: i128::from(n),
            denom: 1,
        }
    }
}

/// `N` for a whole number, and else `NrD`.
impl fmt::Display for Frac {
    ghost output = { λ q. Some (number_text q) };

    fn fmt<W: fmt::Write>(&self, f: &mut fmt::Formatter<W>) -> fmt::Result {
        let (numerator, denominator) = self.parts();
        let mut buffer = Buffer::new();
        f.write_str(buffer.format(numerator))?;
        if denominator != 1 {
            f.write_str("r")?;
            f.write_str(buffer.format(denominator))?;
        }
        Ok(())
    }
}

/// The sum, or the refused pair.
pub fn sum(left: Frac, right: Frac) -> Result<Frac, Pair>
    ensures { MatchResult result (λ q. (q ≡ left +ℚ right) × Accepts Sum left right) (Tells Sum left right) }
{
    left.add(right).map_err(|_| Pair {
        operation: Operation::Sum,
        left,
        right,
    })
}

/// The difference, or the refused pair.
pub fn difference(left: Frac, right: Frac) -> Result<Frac, Pair>
    ensures { MatchResult result (λ q. (q ≡ left -ℚ right) × Accepts Difference left right) (Tells Difference left right) }
{
    left.sub(right).map_err(|_| Pair {
        operation: Operation::Difference,
        left,
        right,
    })
}

/// The product, or the refused pair.
pub fn product(left: Frac, right: Frac) -> Result<Frac, Pair>
    ensures { MatchResult result (λ q. (q ≡ left *ℚ right) × Accepts Product left right) (Tells Product left right) }
{
    left.mul(right).map_err(|_| Pair {
        operation: Operation::Product,
        left,
        right,
    })
}

/// The quotient by a number that is not zero, or the refused pair.
pub fn quotient(left: Frac, right: Frac) -> Result<Frac, Pair>
    requires divisor { right ≢ 0ℚ }
    ensures { MatchResult result (λ q. (q ≡ left /ℚ right) × Accepts Quotient left right) (Tells Quotient left right) }
{
    left.div(right).map_err(|_| Pair {
        operation: Operation::Quotient,
        left,
        right,
    })
}

/// Law: an operation takes two numbers or refuses them.
pub fn an_operation_accepts_or_refuses()
    ensures { AcceptsOrRefuses }
{}

/// Law: no operation takes two numbers and refuses them too.
pub fn no_operation_accepts_and_refuses()
    ensures { NeverBoth }
{}
