// Numerals.
ghost use Rattle.std.specs.Prelude.{◌≡◌, ◌+◌, ◌*◌, ◌^◌, ◌<◌, ◌≤◌, ◌∷◌, suc, pos, length, drop, IfSome, MatchOption};
ghost use Rattle.std.specs.Char.{is_ascii_digit};
ghost use Rattle.spec_numbers.specs.Rational.{ratio};
ghost use Rattle.spec_syntax.specs.Characters.{begins};
ghost use Rattle.spec_syntax.specs.Quotes.{digits_len, digits_value, escape};
ghost use Rattle.spec_syntax.specs.Numerals.{spelling, plain, marked, based, character, escaped, goes_on_as_float, goes_on_as_fraction};
ghost use Rattle.spec_syntax.specs.GrammarTokens.{numeral};
ghost use Rattle.cq_read.specs.Written.{Spells, Finds, Fits, spelt};
ghost use Rattle.cq_read.specs.LexShown.{told};

use crate::lex::characters::{begins_with, first_char, width};
use crate::lex::quotes::escape;
use crate::lex::{Kind, LexFault, Span, Token};
use cq_frac::Frac;

const MOST: u128 = 0x7fff_ffff_ffff_ffff_ffff_ffff_ffff_ffff;

/// The parts of a numeral as written, and how many bytes it has.
#[derive(Clone, Copy)]
pub(crate) struct Written {
    over: u128,
    under: u128,
    size: usize,
}

/// What stands behind a first digit 0.
#[derive(Clone, Copy)]
pub(crate) enum Part {
    /// Nothing that goes on with the numeral.
    Absent,
    /// A number that is too large.
    Wide,
    There(Written),
}

fn whole(over: u128, size: usize) -> Written
    ensures over { result.over ≡ over }
    ensures under { result.under ≡ 1 }
    ensures size { result.size ≡ size }
{
    Written {
        over,
        under: 1,
        size,
    }
}

/// The number with one more digit, where it is not too large.
fn with_digit(value: u128, base: u32, digit: u32) -> Option<u128>
    ensures { MatchOption result (2 ^ 127 ≤ value * base + digit) (λ v. (v ≡ value * base + digit) × (v < 2 ^ 127)) }
{
    let product = value.checked_mul(u128::from(base))?;
    let sum = product.checked_add(u128::from(digit))?;
    if sum > MOST { None } else { Some(sum) }
}

/// The value of the digits with which the text begins, and how many they are; none where it is too large, which shows
/// after 39 digits behind the first that is not 0.
fn digits(base: u32, text: &[u8]) -> Option<(u128, usize)>
    requires at_least { 2 ≤ base }
    requires at_most { base ≤ 16 }
    ensures value { MatchOption result (2 ^ 127 ≤ digits_value base text.now) (λ r. r.0 ≡ digits_value base text.now) }
    ensures len { IfSome result (λ r. r.1 ≡ digits_len base text.now) }
    ensures most { IfSome result (λ r. r.0 < 2 ^ 127) }
    ensures within { IfSome result (λ r. r.1 ≤ length text.now) }
{
    let mut value = 0;
    let mut len = 0;
    let mut rest = text;
    while let Some((&b, tail)) = rest.split_first() {
        match char::from(b).to_digit(base) {
            None => return Some((value, len)),
            Some(digit) => match with_digit(value, base, digit) {
                None => return None,
                Some(next) => value = next,
            },
        }
        len += 1;
        rest = tail;
    }
    Some((value, len))
}

/// Digits of a base behind a 0 and its letter.
fn based(base: u32, text: &[u8]) -> Part
    requires at_least { 2 ≤ base }
    requires at_most { base ≤ 16 }
    requires room { length text.now + 2 < 2 ^ 64 }
    ensures { Finds result (based base text.now) (length text.now + 2) }
{
    match digits(base, text) {
        None => Part::Wide,
        Some((_, 0)) => Part::Absent,
        Some((value, len)) => Part::There(whole(value, 2 + len)),
    }
}

/// A character behind `0'`.
fn character(text: &[u8]) -> Part
    requires { length text.now + 2 < 2 ^ 64 }
    ensures { Finds result (character text.now) (length text.now + 2) }
{
    let Some((&b, tail)) = text.split_first() else {
        return Part::Absent;
    };
    if b == b'\'' {
        if begins_with(b'\'', tail) {
            Part::There(whole(39, 4))
        } else {
            Part::Absent
        }
    } else if b == b'\\' {
        escaped(tail)
    } else if b == b'\n' {
        Part::Absent
    } else {
        match first_char(text) {
            None => Part::Absent,
            Some(c) => Part::There(whole(u128::from(u32::from(c)), 2 + width(b))),
        }
    }
}

/// An escape behind `0'\` that stands for a character.
fn escaped(text: &[u8]) -> Part
    requires { length text.now + 3 < 2 ^ 64 }
    ensures { Finds result (escaped (escape text.now 1)) (length text.now + 3) }
{
    match escape(text, 1) {
        Err(_) => Part::Absent,
        Ok(escape) => match escape.stands_for {
            None => Part::Absent,
            Some(c) => Part::There(whole(u128::from(u32::from(c)), 3 + escape.size)),
        },
    }
}

/// What follows a 0: a letter and digits of its base, or a quote and a character.
fn marked(text: &[u8]) -> Part
    requires { length text.now + 1 < 2 ^ 64 }
    ensures { Finds result (marked text.now) (length text.now + 1) }
{
    let Some((&b, tail)) = text.split_first() else {
        return Part::Absent;
    };
    match b {
        b'x' => based(16, tail),
        b'o' => based(8, tail),
        b'b' => based(2, tail),
        b'\'' => character(tail),
        _ => Part::Absent,
    }
}

fn begins_with_digit(text: &[u8]) -> bool
    ensures { result ≡ begins is_ascii_digit text.now }
{
    match text.first() {
        None => false,
        Some(b) => b.is_ascii_digit(),
    }
}

/// Whether r and a digit follow.
fn goes_on_as_fraction(text: &[u8]) -> bool
    ensures { result ≡ goes_on_as_fraction text.now }
{
    match text.split_first() {
        None => false,
        Some((&b, tail)) => b == b'r' && begins_with_digit(tail),
    }
}

/// Whether a full stop and a digit follow.
fn goes_on_as_float(text: &[u8]) -> bool
    ensures { result ≡ goes_on_as_float text.now }
{
    match text.split_first() {
        None => false,
        Some((&b, tail)) => b == b'.' && begins_with_digit(tail),
    }
}

/// Digits, perhaps a fraction; none where a part is too large.
fn plain(text: &[u8]) -> Option<Written>
    ensures { Spells result (plain text.now) (length text.now) }
{
    let (over, len) = digits(10, text)?;
    let rest = &text[len..];
    if goes_on_as_fraction(rest) {
        let (under, under_len) = digits(10, &rest[1..])?;
        Some(Written {
            over,
            under,
            size: len + 1 + under_len,
        })
    } else {
        Some(whole(over, len))
    }
}

/// The numeral with which the text begins; none where a part is too large.
fn spelling(text: &[u8]) -> Option<Written>
    requires { length text.now < 2 ^ 64 }
    ensures { Spells result (spelling text.now) (length text.now) }
{
    match text.split_first() {
        Some((&b'0', tail)) => match marked(tail) {
            Part::Absent => plain(text),
            Part::Wide => None,
            Part::There(written) => Some(written),
        },
        _ => plain(text),
    }
}

/// The number in lowest terms.
fn fraction(over: u128, under: u128) -> Frac
    requires over_fits { over < 2 ^ 127 }
    requires under_fits { under < 2 ^ 127 }
    requires not_zero { 0 < under }
    ensures { result ≡ ratio (pos over) under }
{
    match Frac::new(over as i128, under as i128) {
        Ok(number) => number,
        Err(_) => unreachable!(),
    }
}

/// A numeral, or its fault.
pub(crate) fn numeral_at(text: &[u8], at: usize) -> Result<Token, LexFault>
    requires { at + length text.now < 2 ^ 64 }
    ensures { told result ≡ numeral (spelling text.now) text.now at }
{
    match spelling(text) {
        None => Err(LexFault::WideNumber(at)),
        Some(written) => numeral(written, text, at),
    }
}

fn numeral(written: Written, text: &[u8], at: usize) -> Result<Token, LexFault>
    requires room { at + length text.now < 2 ^ 64 }
    requires fits { Fits written (length text.now) }
    ensures { told result ≡ numeral (spelt written) text.now at }
{
    if written.under == 0 {
        return Err(LexFault::WideNumber(at));
    }
    let end = at + written.size;
    if goes_on_as_float(&text[written.size..]) {
        return Err(LexFault::BadByte(end));
    }
    Ok(Token {
        kind: Kind::Numeral,
        span: Span { start: at, end },
        number: Some(fraction(written.over, written.under)),
    })
}
