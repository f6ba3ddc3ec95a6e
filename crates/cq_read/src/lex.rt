//! The tokens of a text.
#![tactic(auto)]

mod characters;
mod gaps;
mod numerals;
mod quotes;

ghost use Rattle.std.specs.Prelude.{◌≡◌, ◌+◌, ◌^◌, ◌<◌, ◌≤◌, ◌∷◌, ◌&&◌, ◌==◌, ◌⊎◌, length, drop, IfOk};
ghost use Rattle.spec_syntax.specs.Characters.{is_symbol, begins_with};
ghost use Rattle.spec_syntax.specs.Quotes.{quoted};
ghost use Rattle.spec_syntax.specs.Numerals.{spelling};
ghost use Rattle.spec_syntax.specs.GrammarTokens.{in_quotes, numeral, symbols, token, token_at, other_token, next_token, IsInQuotes, meant, quotes_at, ends_clause};
ghost use Rattle.std.specs.List.{prefix_len};
ghost use Rattle.std.specs.String.{string_bytes};
ghost use Rattle.cq_read.specs.LexShown.{shown, told};

pub use characters::first_char;
use characters::{
    is_punctuation, is_sign, is_symbol, name_end, starts_name, starts_variable, symbols_len, width,
};
use cq_frac::Frac;
use gaps::{ends_clause, gap_end};
use numerals::numeral_at;
use quotes::{quoted_end, text_inside};
pub use spec_syntax::grammar::{Kind, LexFault, Span};
use std::alloc::{AllocError, Global};

/// A token: its kind, its bytes, and its value if it is a numeral.
#[derive(Clone, Copy)]
pub struct Token {
    pub kind: Kind,
    pub span: Span,
    pub number: Option<Frac>,
}

/// The next token of a text in UTF-8 from this place on, behind layout and comments.
pub fn next_token(text: &[u8], at: usize) -> Result<Token, LexFault>
    requires { at ≤ length text.now }
    ensures value { told result ≡ next_token text.now at }
    ensures within { IfOk result (λ token. token.span.end ≤ length text.now) }
    ensures in_quotes { IfOk result (λ token. (token.kind ≡ Kind.Quoted) ⊎ (token.kind ≡ Kind.Codes) → IsInQuotes text.now token.span) }
{
    let start = gap_end(text, at)?;
    token_at(&text[start..], start)
}

/// The text that a quoted name or a list of character codes means.
pub fn quoted_text(alloc: Global, text: &[u8], span: Span) -> Result<String, AllocError>
    requires { IsInQuotes text.now span }
    ensures { IfOk result (λ held. string_bytes held ≡ meant (quotes_at (drop span.start text.now) span.start)) }
{
    let Some((&quote, inside)) = text[span.start..].split_first() else {
        unreachable!()
    };
    text_inside(alloc, quote, inside, span.start + 1)
}

/// A token with no value.
fn valueless(kind: Kind, start: usize, end: usize) -> Token
    ensures { shown result ≡ token kind start end }
{
    Token {
        kind,
        span: Span { start, end },
        number: None,
    }
}

/// The token that begins a text which stands at this place.
fn token_at(text: &[u8], at: usize) -> Result<Token, LexFault>
    requires { at + length text.now < 2 ^ 64 }
    ensures { told result ≡ token_at text.now at }
{
    let Some((&b, tail)) = text.split_first() else {
        return Ok(valueless(Kind::Eof, at, at));
    };
    if starts_name(text) {
        Ok(valueless(Kind::Name, at, name_end(width(b) - 1, tail, at + 1)))
    } else if starts_variable(b) {
        Ok(valueless(Kind::Variable, at, name_end(0, tail, at + 1)))
    } else if is_symbol(b) {
        Ok(symbols_at(text, at))
    } else {
        other_token(b, text, tail, at)
    }
}

/// The token that begins with this byte, which begins no name of letters or symbol characters and no variable.
fn other_token(b: u8, text: &[u8], tail: &[u8], at: usize) -> Result<Token, LexFault>
    requires room { at + length text.now < 2 ^ 64 }
    requires split { text.now ≡ b ∷ tail.now }
    ensures { told result ≡ other_token b tail.now at }
{
    if is_sign(b) {
        Ok(valueless(Kind::Name, at, at + 1))
    } else if is_punctuation(b) {
        Ok(valueless(Kind::Punctuation, at, at + 1))
    } else if b == b'\'' {
        quoted_at(Kind::Quoted, b, tail, at)
    } else if b == b'"' {
        quoted_at(Kind::Codes, b, tail, at)
    } else if b.is_ascii_digit() {
        numeral_at(text, at)
    } else {
        Err(LexFault::BadByte(at))
    }
}

/// A name of symbol characters, or the end token.
fn symbols_at(text: &[u8], at: usize) -> Token
    requires { at + length text.now < 2 ^ 64 }
    ensures { shown result ≡ symbols (prefix_len is_symbol text.now) text.now at }
{
    let len = symbols_len(text);
    let kind = if is_end(text, len) {
        Kind::End
    } else {
        Kind::Name
    };
    valueless(kind, at, at + len)
}

/// Whether the name of so many symbol characters is a full stop that ends a clause.
fn is_end(text: &[u8], len: usize) -> bool
    requires { len ≤ length text.now }
    ensures { result ≡ (begins_with 46 text.now && (len == 1) && ends_clause (drop len text.now)) }
{
    characters::begins_with(b'.', text) && len == 1 && ends_clause(&text[len..])
}

/// A token in quotes, of which the text behind the opening quote is given.
fn quoted_at(kind: Kind, quote: u8, tail: &[u8], at: usize) -> Result<Token, LexFault>
    requires { at + length tail.now + 1 < 2 ^ 64 }
    ensures { told result ≡ in_quotes kind at (quoted quote 0 tail.now (at + 1)) }
{
    match quoted_end(quote, tail, at + 1) {
        Ok(end) => Ok(valueless(kind, at, end)),
        Err(fault) => Err(fault),
    }
}
