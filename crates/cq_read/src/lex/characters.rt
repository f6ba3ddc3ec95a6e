// Characters, and the runs of them that make names.
ghost use Rattle.std.specs.Prelude.{◌≡◌, ◌+◌, ◌^◌, ◌<◌, ◌≤◌, ◌==◌, ◌||◌, suc, length, chars, slice_get, None, if◌then◌else◌};
ghost use Rattle.std.specs.List.{prefix_len};
ghost use Rattle.std.specs.Str.{continuation_len, is_utf8};
ghost use Rattle.spec_syntax.specs.Characters.{front, first_char, passes, starts_name, starts_variable, continues_name, begins_with, is_symbol, is_punctuation, name_end};

use std::str;

/// Whether the text begins with this byte.
pub(crate) fn begins_with(byte: u8, text: &[u8]) -> bool
    ensures { result ≡ begins_with byte text.now }
{
    match text.first() {
        None => false,
        Some(&b) => b == byte,
    }
}

/// How many bytes the character has that begins with this byte.
pub(crate) fn width(lead: u8) -> usize
    ensures { result ≡ suc (continuation_len lead) }
{
    match lead {
        0..=0x7f => 1,
        0x80..=0xdf => 2,
        0xe0..=0xef => 3,
        _ => 4,
    }
}

/// The bytes of the first character, or those that there are of them.
fn front(text: &[u8]) -> &[u8]
    ensures { result.now ≡ front text.now }
{
    match text.first() {
        None => text,
        Some(&lead) => {
            let end = width(lead);
            if text.len() < end { text } else { &text[..end] }
        }
    }
}

/// The first character of these bytes, if they are one or more in UTF-8.
fn decoded(bytes: &[u8]) -> Option<char>
    ensures { result ≡ (if is_utf8 bytes.now then slice_get (chars bytes.now) 0 else None) }
{
    match str::from_utf8(bytes) {
        Ok(text) => text.chars().next(),
        Err(_) => None,
    }
}

/// The character that the text begins with.
#[tactic(auto, unfolding(spec_syntax::specs::Characters::first_char))]
pub fn first_char(text: &[u8]) -> Option<char>
    ensures value { result ≡ first_char text.now }
{
    match text.first() {
        None => None,
        Some(&b) => {
            if b < 128 {
                Some(char::from(b))
            } else {
                decoded(front(text))
            }
        }
    }
}

fn continues_name(c: char) -> bool
    ensures { result ≡ continues_name c }
{
    if c.is_ascii() {
        c.is_ascii_alphanumeric() || c == '_'
    } else {
        unicode_ident::is_xid_continue(c)
    }
}

/// Whether the text begins with a character that may continue a name.
fn continues(text: &[u8]) -> bool
    ensures { result ≡ passes continues_name (first_char text.now) }
{
    match first_char(text) {
        None => false,
        Some(c) => continues_name(c),
    }
}

/// Whether the text begins with a character that starts a name.
pub(crate) fn starts_name(text: &[u8]) -> bool
    ensures { result ≡ passes starts_name (first_char text.now) }
{
    match first_char(text) {
        None => false,
        Some(c) => {
            if c.is_ascii() {
                c.is_ascii_lowercase()
            } else {
                unicode_ident::is_xid_start(c)
            }
        }
    }
}

pub(crate) fn starts_variable(b: u8) -> bool
    ensures { result ≡ starts_variable b }
{
    b.is_ascii_uppercase() || b == b'_'
}

/// Whether the byte is a name by itself.
pub(crate) fn is_sign(b: u8) -> bool
    ensures { result ≡ ((b == 33) || (b == 59)) }
{
    b == b'!' || b == b';'
}

pub(crate) fn is_symbol(b: u8) -> bool
    ensures { result ≡ is_symbol b }
{
    b"+-*/\\^<>=~:.?@#&$".contains(&b)
}

pub(crate) fn is_punctuation(b: u8) -> bool
    ensures { result ≡ is_punctuation b }
{
    b"()[]{},|".contains(&b)
}

/// How many symbol characters the text begins with.
pub(crate) fn symbols_len(text: &[u8]) -> usize
    ensures value { result ≡ prefix_len is_symbol text.now }
    ensures within { result ≤ length text.now }
{
    for (len, &b) in text.iter().enumerate() {
        if !is_symbol(b) {
            return len;
        }
    }
    text.len()
}

/// Where the characters end that may continue a name. The first `skip` bytes belong to the character before.
pub(crate) fn name_end(skip: usize, text: &[u8], at: usize) -> usize
    requires { at + length text.now < 2 ^ 64 }
    ensures { result ≡ name_end skip text.now at }
{
    let mut skip = skip;
    let mut place = at;
    let mut rest = text;
    while let Some((&lead, tail)) = rest.split_first() {
        if skip > 0 {
            skip -= 1;
        } else if continues(rest) {
            skip = width(lead) - 1;
        } else {
            return place;
        }
        place += 1;
        rest = tail;
    }
    place
}
