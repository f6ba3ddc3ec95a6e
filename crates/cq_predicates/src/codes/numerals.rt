// The numbers that texts are, and the texts of numbers.

ghost use Rattle.std.specs.Prelude.{◌≡◌, ◌≤◌, length, string_bytes, IfOk};
ghost use Rattle.std.specs.Char.{is_ascii_digit};
ghost use Rattle.std.specs.List.{prefix_len};
ghost use Rattle.spec_syntax.specs.Characters.{is_layout, begins};
ghost use Rattle.spec_syntax.specs.GrammarTokens.{token_at};
ghost use Rattle.spec_text.specs.Numbers.{number_text};
ghost use Rattle.spec_builtins.specs.Texts.{whole_number, signed_number, number_in};

use cq_frac::Frac;
use cq_read::lex::next_token;
use std::alloc::{AllocError, Global};

/// The number that a text is: layout or none, a minus or none, a numeral, and nothing more.
pub(crate) fn number_in(text: &[u8]) -> Option<Frac>
    ensures { result ≡ number_in text.now }
{
    signed_number(&text[layout_len(text)..])
}

/// How many bytes of layout a text begins with.
fn layout_len(text: &[u8]) -> usize
    ensures value { result ≡ prefix_len is_layout text.now }
    ensures within { result ≤ length text.now }
{
    for (len, &b) in text.iter().enumerate() {
        if !is_layout(b) {
            return len;
        }
    }
    text.len()
}

/// Whether a byte is layout.
fn is_layout(b: u8) -> bool
    ensures { result ≡ is_layout b }
{
    b == b' ' || b == b'\t' || b == b'\n' || b == 11 || b == 12 || b == b'\r'
}

/// The number that a text is with a minus, or without one.
fn signed_number(text: &[u8]) -> Option<Frac>
    ensures { result ≡ signed_number text.now }
{
    match text.split_first() {
        Some((&b, digits)) => {
            if b == b'-' {
                match whole_number(digits) {
                    Some(number) => Some(number.neg()),
                    None => None,
                }
            } else {
                whole_number(text)
            }
        }
        None => None,
    }
}

/// The number of a numeral that takes the whole text.
fn whole_number(text: &[u8]) -> Option<Frac>
    ensures { result ≡ whole_number text.now (token_at text.now 0) }
{
    if !begins_with_digit(text) {
        return None;
    }
    match next_token(text, 0) {
        Ok(token) => {
            if token.span.end == text.len() {
                token.number
            } else {
                None
            }
        }
        Err(_) => None,
    }
}

/// Whether a text begins with a digit.
fn begins_with_digit(text: &[u8]) -> bool
    ensures { result ≡ begins is_ascii_digit text.now }
{
    match text.first() {
        Some(b) => b.is_ascii_digit(),
        None => false,
    }
}

/// A number in lowest terms: `N`, or `NrD`.
pub(crate) fn number_text(alloc: Global, number: Frac) -> Result<String, AllocError>
    ensures { IfOk result (λ text. string_bytes text ≡ number_text number) }
{
    let _ = number.parts();
    number.to_string(alloc)
}
