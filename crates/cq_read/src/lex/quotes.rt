// Quoted texts and their escapes.
ghost use Rattle.std.specs.Prelude.{◌≡◌, ◌+◌, ◌^◌, ◌<◌, ◌≤◌, ◌++◌, min, length, Ok, IfOk, OnOk};
ghost use Rattle.std.specs.Char.{is_digit};
ghost use Rattle.std.specs.String.{string_bytes};
ghost use Rattle.spec_syntax.specs.Quotes.{digits_len, digits_value, is_scalar, letter, closing, numbered, escape, quoted, spelled, ends, Quoted};
ghost use Rattle.cq_read.specs.Turns.{Follows};

use crate::lex::characters::{begins_with, first_char, width};
use spec_syntax::grammar::{Escape, LexFault};
use std::alloc::{AllocError, Global};

/// The value of the digits with which the text begins, or 11_0000 where it is larger, and how many they are.
fn escape_digits(base: u32, text: &[u8]) -> (u32, usize)
    requires at_least { 2 ≤ base }
    requires at_most { base ≤ 16 }
    ensures value { result.0 ≡ min 0x11_0000 (digits_value base text.now) }
    ensures len { result.1 ≡ digits_len base text.now }
    ensures within { result.1 ≤ length text.now }
{
    let mut value = 0;
    let mut len = 0;
    let mut rest = text;
    while let Some((&b, tail)) = rest.split_first() {
        match char::from(b).to_digit(base) {
            None => return (value, len),
            Some(digit) => value = (value * base + digit).min(0x11_0000),
        }
        len += 1;
        rest = tail;
    }
    (value, len)
}

/// What the digits of a numbered escape lead to.
fn closing(
    before: usize,
    len: usize,
    value: u32,
    rest: &[u8],
    at: usize,
) -> Result<Escape, LexFault>
    requires room { at + before + len + length rest.now < 2 ^ 64 }
    requires behind { 1 ≤ at }
    ensures value { result ≡ closing before len value rest.now at }
    ensures within { IfOk result (λ escape. escape.size ≤ before + len + length rest.now) }
{
    let Some(&b) = rest.first() else {
        return Err(LexFault::OpenQuote(at + before + len));
    };
    if len == 0 || b != b'\\' {
        return Err(LexFault::BadByte(at));
    }
    match char::from_u32(value) {
        None => Err(LexFault::BadByte(at - 1)),
        Some(c) => Ok(Escape {
            size: before + len + 1,
            stands_for: Some(c),
        }),
    }
}

/// The escape of a number, of which `before` bytes stand in front of its digits.
fn numbered(base: u32, before: usize, text: &[u8], at: usize) -> Result<Escape, LexFault>
    requires at_least { 2 ≤ base }
    requires at_most { base ≤ 16 }
    requires room { at + before + length text.now < 2 ^ 64 }
    requires behind { 1 ≤ at }
    ensures value { result ≡ numbered base before text.now at }
    ensures within { IfOk result (λ escape. escape.size ≤ before + length text.now) }
{
    let (value, len) = escape_digits(base, text);
    closing(before, len, value, &text[len..], at)
}

/// The character that an escape of one letter or sign stands for.
fn letter(b: u8) -> Option<char>
    ensures { result ≡ letter b }
{
    match b {
        b'\\' | b'\'' | b'"' | b'`' => Some(char::from(b)),
        b'a' => Some('\x07'),
        b'b' => Some('\x08'),
        b'f' => Some('\x0c'),
        b'n' => Some('\n'),
        b'r' => Some('\r'),
        b't' => Some('\t'),
        b'v' => Some('\x0b'),
        _ => None,
    }
}

/// The escape of which this text stands behind the backslash.
pub(crate) fn escape(text: &[u8], at: usize) -> Result<Escape, LexFault>
    requires room { at + length text.now < 2 ^ 64 }
    requires behind { 1 ≤ at }
    ensures value { result ≡ escape text.now at }
    ensures within { IfOk result (λ escape. escape.size ≤ length text.now) }
{
    let Some((&b, tail)) = text.split_first() else {
        return Err(LexFault::OpenQuote(at));
    };
    if let Some(c) = letter(b) {
        return Ok(Escape {
            size: 1,
            stands_for: Some(c),
        });
    }
    match b {
        b'\n' => Ok(Escape {
            size: 1,
            stands_for: None,
        }),
        b'x' => numbered(16, 1, tail, at),
        b'0'..=b'7' => numbered(8, 0, text, at),
        _ => Err(LexFault::BadByte(at)),
    }
}

/// What a reader of quotes does at a character.
pub(crate) enum Turn {
    /// Goes on behind this byte and so many more, with the character that stands there, if any.
    Go(usize, Option<char>),
    /// Stops: behind the closing quote, or at a fault.
    Stop(Result<usize, LexFault>),
}

/// The turn at this text, which stands at this place.
fn next_turn(quote: u8, text: &[u8], at: usize) -> Turn
    requires room { at + length text.now < 2 ^ 64 }
    ensures { Follows result quote text.now at }
{
    let Some((&b, tail)) = text.split_first() else {
        return Turn::Stop(Err(LexFault::OpenQuote(at)));
    };
    if b == b'\n' {
        Turn::Stop(Err(LexFault::OpenQuote(at)))
    } else if b == quote {
        if begins_with(quote, tail) {
            Turn::Go(1, Some(char::from(quote)))
        } else {
            Turn::Stop(Ok(at + 1))
        }
    } else if b == b'\\' {
        match escape(tail, at + 1) {
            Ok(escape) => Turn::Go(escape.size, escape.stands_for),
            Err(fault) => Turn::Stop(Err(fault)),
        }
    } else {
        match first_char(text) {
            Some(c) => Turn::Go(width(b) - 1, Some(c)),
            None => Turn::Stop(Err(LexFault::BadByte(at))),
        }
    }
}

/// Where quotes end, just behind the closing one, of which the text behind the opening one is given.
pub(crate) fn quoted_end(quote: u8, text: &[u8], at: usize) -> Result<usize, LexFault>
    requires { at + length text.now < 2 ^ 64 }
    ensures { result ≡ ends (quoted quote 0 text.now at) }
{
    let mut skip = 0;
    let mut place = at;
    let mut rest = text;
    while let Some((_, tail)) = rest.split_first() {
        if skip > 0 {
            skip -= 1;
        } else {
            match next_turn(quote, rest, place) {
                Turn::Go(size, _) => skip = size,
                Turn::Stop(end) => return end,
            }
        }
        place += 1;
        rest = tail;
    }
    Err(LexFault::OpenQuote(place))
}

/// Puts a character, if there is one, behind the text.
fn append(out: &mut String, character: Option<char>) -> Result<(), AllocError>
    ensures { OnOk result (string_bytes out.new ≡ string_bytes out.old ++ spelled character) }
{
    match character {
        None => Ok(()),
        Some(c) => out.push(c),
    }
}

/// What quotes hold, of which the text behind the opening one is given.
pub(crate) fn text_inside(
    alloc: Global,
    quote: u8,
    text: &[u8],
    at: usize,
) -> Result<String, AllocError>
    requires { at + length text.now < 2 ^ 64 }
    ensures { (held : Quoted) → quoted quote 0 text.now at ≡ Ok held → IfOk result (λ out. string_bytes out ≡ held.text) }
{
    let mut out = String::new(alloc);
    let mut skip = 0;
    let mut place = at;
    let mut rest = text;
    while let Some((_, tail)) = rest.split_first() {
        if skip > 0 {
            skip -= 1;
        } else {
            match next_turn(quote, rest, place) {
                Turn::Go(size, character) => {
                    append(&mut out, character)?;
                    skip = size;
                }
                Turn::Stop(_) => return Ok(out),
            }
        }
        place += 1;
        rest = tail;
    }
    Ok(out)
}
