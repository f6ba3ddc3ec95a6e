// The words of a line: numbers, and pairs of a number and a fraction.
ghost use Rattle.std.specs.Prelude.{◌≡◌, ◌+◌, ◌*◌, ◌-◌, ◌<◌, ◌≤◌, ◌⊎◌, ◌∷◌, ◌==◌, length, bytes_eq, pos, Some, IfSome, MatchOption};
ghost use Rattle.std.specs.List.{slice_split};
ghost use Rattle.std.specs.Option.{option_map};
ghost use Rattle.spec_numbers.specs.Rational.{ratio};
ghost use Rattle.cq_frac.specs.Fits.{limit};
ghost use Rattle.spec_log.specs.Verdicts.{whole_in, lowest_in, unsigned_in, fraction_in, pair_in};
ghost use Rattle.cq_cert.specs.Pieces.{pieces};

use cq_frac::Frac;

/// The greatest number of a log, 2^127 - 1.
const MOST: u128 = 0x7fff_ffff_ffff_ffff_ffff_ffff_ffff_ffff;

/// Whether the bytes are those of the text.
pub(crate) fn is(bytes: &[u8], text: &[u8]) -> bool
    ensures { result ≡ bytes_eq text.now bytes.now }
{
    text == bytes
}

/// The text before the first `at`, and the text behind it if there is one.
pub(crate) fn cut(text: &[u8], at: u8) -> (&[u8], Option<&[u8]>)
    ensures parts { slice_split (λ b. b == at) text.now ≡ result.0.now ∷ pieces at (option_map (λ r. r.now) result.1) }
    ensures first { length result.0.now ≤ length text.now }
    ensures rest { IfSome result.1 (λ rest. length result.0.now + length rest.now < length text.now) }
{
    for (i, &b) in text.iter().enumerate() {
        if b == at {
            return (&text[..i], Some(&text[i + 1..]));
        }
    }
    (text, None)
}

/// The value of a decimal digit.
fn digit(b: u8) -> Option<u128>
    ensures { MatchOption result ((b < 48) ⊎ (57 < b)) (λ d. (48 ≤ b) × (b ≤ 57) × (d ≡ b - 48)) }
{
    if b.is_ascii_digit() {
        Some(u128::from(b - b'0'))
    } else {
        None
    }
}

/// The number with one more digit, where it fits.
fn with_digit(value: u128, digit: u128) -> Option<u128>
    ensures { MatchOption result (limit ≤ value * 10 + digit) (λ v. (v ≡ value * 10 + digit) × (v < limit)) }
{
    let sum = value.checked_mul(10)?.checked_add(digit)?;
    if sum > MOST { None } else { Some(sum) }
}

/// A whole number that fits, in its one spelling.
pub(crate) fn whole(word: &[u8]) -> Option<u128>
    ensures value { result ≡ whole_in word.now }
    ensures fits { IfSome result (λ n. n < limit) }
{
    let mut value = 0;
    let mut rest = word;
    while let Some((&b, tail)) = rest.split_first() {
        if value == 0 && rest.len() < word.len() {
            return None;
        }
        let digit = digit(b)?;
        value = with_digit(value, digit)?;
        rest = tail;
    }
    if word.is_empty() { None } else { Some(value) }
}

/// A whole number as a fraction.
fn integer(n: u128) -> Frac
    requires { n < limit }
    ensures { result ≡ ratio (pos n) 1 }
{
    match Frac::new(n as i128, 1) {
        Ok(q) => q,
        Err(_) => unreachable!(),
    }
}

/// A fraction that is no whole number, where it is in lowest terms.
fn lowest(over: u128, under: u128) -> Option<Frac>
    requires over_fits { over < limit }
    requires under_fits { under < limit }
    ensures { result ≡ lowest_in (Some over) (Some under) }
{
    if under < 2 {
        return None;
    }
    let n = over as i128;
    let d = under as i128;
    let Ok(q) = Frac::new(n, d) else {
        return None;
    };
    let (a, b) = q.parts();
    if a == n && b == d { Some(q) } else { None }
}

/// `N`, or `NrD` in lowest terms.
fn unsigned(word: &[u8]) -> Option<Frac>
    ensures { result ≡ unsigned_in word.now }
{
    let (over, under) = cut(word, b'r');
    let Some(under) = under else {
        return Some(integer(whole(over)?));
    };
    let (under, more) = cut(under, b'r');
    if more.is_some() {
        return None;
    }
    let over = whole(over)?;
    lowest(over, whole(under)?)
}

/// A number or a fraction in lowest terms, with `-` in front where it is below zero.
pub(crate) fn fraction(word: &[u8]) -> Option<Frac>
    ensures { result ≡ fraction_in word.now }
{
    let (&first, rest) = word.split_first()?;
    if first != b'-' {
        return unsigned(word);
    }
    let q = unsigned(rest)?;
    if q.is_zero() { None } else { Some(q.neg()) }
}

/// A number, `:`, and a number or fraction.
pub(crate) fn pair(word: &[u8]) -> Option<(u128, Frac)>
    ensures { result ≡ pair_in word.now }
{
    let (left, right) = cut(word, b':');
    let (right, more) = cut(right?, b':');
    if more.is_some() {
        return None;
    }
    let number = whole(left)?;
    Some((number, fraction(right)?))
}
