// Whole numbers of 128 bits below the fractions: divisors, products that fit, the parts of sums and products, and the
// order of two quotients.
ghost use Rattle.std.specs.Prelude.{◌≡◌, ◌+◌, ◌*◌, ◌/◌, ◌%◌, ◌<◌, ◌≤◌, ◌^◌, ◌⊎◌, max, nat_abs, ◌+ℤ◌, MatchOption};
ghost use Rattle.std.specs.Int.{trailing_zeros, w64, w128};
ghost use Rattle.std.specs.Ordering.{nat_cmp};
ghost use Rattle.spec_numbers.specs.Gcd.{gcd as gcd_of};
ghost use Rattle.cq_frac.specs.Cancelled.{AreParts, common_bottom, common_top, product_bottom, product_top, sum_peak};
ghost use Rattle.cq_frac.specs.Fits.{limit, signed};

use std::cmp::Ordering;

/// The greatest part of a number, 2^127 - 1.
pub(crate) const LIMIT: u128 = 0x7fff_ffff_ffff_ffff_ffff_ffff_ffff_ffff;

const MAX_64: u128 = 0xffff_ffff_ffff_ffff;

const BASE: u128 = 0x1_0000_0000_0000_0000;

/// The greatest part of the numbers whose sums and products are made in 64 bits, 2^31 - 1.
const SMALL: u128 = 0x7fff_ffff;

/// How many bits apart two numbers are where one remainder takes less time than halving.
const FAR: u32 = 8;

/// The greatest common divisor, by halving and subtracting (Stein 1967), after one remainder where the sizes are far
/// apart.
pub(crate) fn gcd(a: u128, b: u128) -> u128
    ensures { result ≡ gcd_of a b }
{
    if a == 1 || b == 1 {
        return 1;
    }
    if a == 0 {
        return b;
    }
    if b == 0 {
        return a;
    }
    if a >> FAR > b {
        return halved_gcd(b, rest(a, b));
    }
    if b >> FAR > a {
        return halved_gcd(a, rest(b, a));
    }
    halved_gcd(a, b)
}

/// The greatest common divisor, by halving and subtracting.
fn halved_gcd(a: u128, b: u128) -> u128
    requires { 0 < a }
    ensures { result ≡ gcd_of a b }
{
    if b == 0 {
        return a;
    }
    let twos = a.trailing_zeros().min(b.trailing_zeros());
    odd_gcd(odd_part(a), odd_part(b)) << twos
}

/// The greatest common divisor of two odd numbers: in 64 bits once both fit there.
fn odd_gcd(a: u128, b: u128) -> u128
    requires a_odd { a % 2 ≡ 1 }
    requires b_odd { b % 2 ≡ 1 }
    ensures { result ≡ gcd_of a b }
{
    let mut x = a;
    let mut y = b;
    while x > MAX_64 || y > MAX_64 {
        if x == y {
            return x;
        }
        let gap = x.abs_diff(y);
        x = x.min(y);
        y = odd_part(gap);
    }
    u128::from(odd_gcd_64(x as u64, y as u64))
}

/// The greatest common divisor, in 64 bits.
fn gcd_64(a: u64, b: u64) -> u64
    ensures { result ≡ gcd_of a b }
{
    if a == 1 || b == 1 {
        return 1;
    }
    if a == 0 {
        return b;
    }
    if b == 0 {
        return a;
    }
    let twos = a.trailing_zeros().min(b.trailing_zeros());
    odd_gcd_64(odd_part_64(a), odd_part_64(b)) << twos
}

fn odd_gcd_64(a: u64, b: u64) -> u64
    requires a_odd { a % 2 ≡ 1 }
    requires b_odd { b % 2 ≡ 1 }
    ensures { result ≡ gcd_of a b }
{
    let mut x = a;
    let mut y = b;
    while x != y {
        let gap = x.abs_diff(y);
        x = x.min(y);
        y = odd_part_64(gap);
    }
    x
}

/// The number without its factors 2.
fn odd_part(n: u128) -> u128
    requires { 0 < n }
    ensures odd { result % 2 ≡ 1 }
    ensures rest { result * 2 ^ trailing_zeros w128 n ≡ n }
{
    n >> n.trailing_zeros()
}

fn odd_part_64(n: u64) -> u64
    requires { 0 < n }
    ensures odd { result % 2 ≡ 1 }
    ensures rest { result * 2 ^ trailing_zeros w64 n ≡ n }
{
    n >> n.trailing_zeros()
}

/// The quotient, in 64 bits where both fit there.
pub(crate) fn part(a: u128, g: u128) -> u128
    requires { 0 < g }
    ensures { result ≡ a / g }
{
    if g == 1 {
        a
    } else if a <= MAX_64 && g <= MAX_64 {
        u128::from(a as u64 / g as u64)
    } else {
        a / g
    }
}

/// The quotient, in 64 bits.
fn part_64(a: u64, g: u64) -> u64
    requires { 0 < g }
    ensures value { result ≡ a / g }
    ensures bound { result ≤ a }
{
    if g == 1 { a } else { a / g }
}

/// The remainder, in 64 bits where both fit there.
fn rest(a: u128, b: u128) -> u128
    requires { 0 < b }
    ensures { result ≡ a % b }
{
    if a <= MAX_64 && b <= MAX_64 {
        u128::from(a as u64 % b as u64)
    } else {
        a % b
    }
}

/// The product, where it fits.
fn fitting(a: u128, b: u128) -> Option<u128>
    ensures { MatchOption result (limit ≤ a * b) (λ p. (p ≡ a * b) × (p < limit)) }
{
    match a.checked_mul(b) {
        Some(product) if product <= LIMIT => Some(product),
        _ => None,
    }
}

/// The sum, where it fits.
fn total(a: i128, c: i128) -> Option<i128>
    ensures { MatchOption result (limit ≤ nat_abs (a +ℤ c)) (λ z. (z ≡ a +ℤ c) × (nat_abs z < limit)) }
{
    match a.checked_add(c) {
        Some(sum) if sum != i128::MIN => Some(sum),
        _ => None,
    }
}

fn with_sign(negative: bool, size: u128) -> i128
    requires { size < limit }
    ensures { result ≡ signed negative size }
{
    let size = size as i128;
    if negative { -size } else { size }
}

fn with_sign_64(negative: bool, size: u64) -> i64
    requires { size < 2 ^ 62 }
    ensures { result ≡ signed negative size }
{
    let size = size as i64;
    if negative { -size } else { size }
}

/// The sum of two numbers by their signs and sizes.
fn total_64(first_negative: bool, left: u64, second_negative: bool, right: u64) -> i64
    requires left_fits { left < 2 ^ 62 }
    requires right_fits { right < 2 ^ 62 }
    ensures { result ≡ signed first_negative left +ℤ signed second_negative right }
{
    with_sign_64(first_negative, left) + with_sign_64(second_negative, right)
}

/// The parts of the sum of a/b and c/d in lowest terms, where each number on the way to it fits.
#[tactic(auto, using(spec_numbers::specs::Gcd::gcd_pos))]
pub(crate) fn sum_parts(
    first_negative: bool,
    a: u128,
    b: u128,
    second_negative: bool,
    c: u128,
    d: u128,
) -> Option<(bool, u128, u128)>
    requires { 0 < d }
    ensures { let peak = sum_peak first_negative a b second_negative c d in
        let top = common_top first_negative a b second_negative c d in
        MatchOption result (limit ≤ peak)
        (λ parts. (peak < limit) × AreParts top (common_bottom b d) (gcd_of b d) parts.0 parts.1 parts.2) }
{
    if a <= SMALL && b <= SMALL && c <= SMALL && d <= SMALL {
        let (negative, top, bottom) = small_sum(
            first_negative,
            a as u64,
            b as u64,
            second_negative,
            c as u64,
            d as u64,
        );
        return Some((negative, u128::from(top), u128::from(bottom)));
    }
    let g = gcd(b, d);
    let b_rest = part(b, g);
    let d_rest = part(d, g);
    let left = fitting(a, d_rest)?;
    let right = fitting(c, b_rest)?;
    let bottom = fitting(b_rest, d)?;
    let sum = total(
        with_sign(first_negative, left),
        with_sign(second_negative, right),
    )?;
    // Only a divisor of g divides both (Knuth, 4.5.1).
    let top = sum.unsigned_abs();
    let h = gcd(top, g);
    Some((sum < 0, part(top, h), part(bottom, h)))
}

/// The parts of the sum of small numbers, in 64 bits.
#[tactic(auto, using(spec_numbers::specs::Gcd::gcd_pos, crate::proofs::Small::small_times))]
fn small_sum(
    first_negative: bool,
    a: u64,
    b: u64,
    second_negative: bool,
    c: u64,
    d: u64,
) -> (bool, u64, u64)
    requires small { max (max a b) (max c d) < 2 ^ 31 }
    requires d_pos { 0 < d }
    ensures { let top = common_top first_negative a b second_negative c d in
        AreParts top (common_bottom b d) (gcd_of b d) result.0 result.1 result.2 }
{
    let g = gcd_64(b, d);
    let b_rest = part_64(b, g);
    let d_rest = part_64(d, g);
    let sum = total_64(first_negative, a * d_rest, second_negative, c * b_rest);
    let top = sum.unsigned_abs();
    let h = gcd_64(top, g);
    (sum < 0, part_64(top, h), part_64(b_rest * d, h))
}

/// The parts of the product of a/b and c/d in lowest terms, where they fit.
#[tactic(auto, using(spec_numbers::specs::Gcd::gcd_pos))]
pub(crate) fn product_parts(a: u128, b: u128, c: u128, d: u128) -> Option<(u128, u128)>
    requires b_pos { 0 < b }
    requires d_pos { 0 < d }
    ensures { let top = product_top a b c d in
        let bottom = product_bottom a b c d in
        MatchOption result ((limit ≤ top) ⊎ (limit ≤ bottom))
        (λ parts. (parts.0 ≡ top) × (top < limit) × (parts.1 ≡ bottom) × (bottom < limit)) }
{
    if a <= SMALL && b <= SMALL && c <= SMALL && d <= SMALL {
        let (top, bottom) = small_product(a as u64, b as u64, c as u64, d as u64);
        return Some((u128::from(top), u128::from(bottom)));
    }
    let g = gcd(a, d);
    let h = gcd(c, b);
    let top = fitting(part(a, g), part(c, h))?;
    let bottom = fitting(part(b, h), part(d, g))?;
    Some((top, bottom))
}

/// The parts of the product of small numbers, in 64 bits.
#[tactic(auto, using(spec_numbers::specs::Gcd::gcd_pos))]
fn small_product(a: u64, b: u64, c: u64, d: u64) -> (u64, u64)
    requires small { max (max a b) (max c d) < 2 ^ 31 }
    requires b_pos { 0 < b }
    requires d_pos { 0 < d }
    ensures top { result.0 ≡ product_top a b c d }
    ensures bottom { result.1 ≡ product_bottom a b c d }
{
    let g = gcd_64(a, d);
    let h = gcd_64(c, b);
    (part_64(a, g) * part_64(c, h), part_64(b, h) * part_64(d, g))
}

/// The upper and the lower half.
fn halves(a: u128) -> (u64, u64)
    ensures { result.0 * 2 ^ 64 + result.1 ≡ a }
{
    ((a / BASE) as u64, (a % BASE) as u64)
}

/// The product of two halves.
fn product_64(a: u64, b: u64) -> u128
    ensures value { result ≡ a * b }
    ensures bound { result ≤ 0xffff_ffff_ffff_ffff * 0xffff_ffff_ffff_ffff }
{
    u128::from(a) * u128::from(b)
}

/// The upper and the lower 128 bits of a product.
fn wide(a: u128, b: u128) -> (u128, u128)
    ensures value { result.0 * 2 ^ 128 + result.1 ≡ a * b }
    ensures low { result.1 < 2 ^ 128 }
{
    let (a_high, a_low) = halves(a);
    let (b_high, b_low) = halves(b);
    let lowest = product_64(a_low, b_low);
    let first = product_64(a_high, b_low) + lowest / BASE;
    let second = product_64(a_low, b_high) + first % BASE;
    let high = product_64(a_high, b_high) + first / BASE + second / BASE;
    (high, second % BASE * BASE + lowest % BASE)
}

/// The order of a/b and c/d, by the cross products.
#[inline(always)]
pub(crate) fn order(a: u128, b: u128, c: u128, d: u128) -> Ordering
    ensures { result ≡ nat_cmp (a * d) (c * b) }
{
    if a < BASE && b < BASE && c < BASE && d < BASE {
        return product_64(a as u64, d as u64).cmp(&product_64(c as u64, b as u64));
    }
    let left = wide(a, d);
    let right = wide(c, b);
    match left.0.cmp(&right.0) {
        Ordering::Equal => left.1.cmp(&right.1),
        unequal => unequal,
    }
}
