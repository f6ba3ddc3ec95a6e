// Characters of texts and their codes.

ghost use Rattle.std.specs.Prelude.{◌≡◌, ◌∷◌, [], length, chars, slice_get, encode_utf8_all, string_bytes, true, false, IfOk, IfSome, IsNone};
ghost use Rattle.spec_builtins.specs.Texts.{is_scalar};
ghost use Rattle.cq_predicates.specs.Elements.{only_of};

use std::alloc::{AllocError, Global};

/// The characters of a text, in order.
pub(crate) fn characters(alloc: Global, text: &str) -> Result<Vec<char>, AllocError>
    ensures { IfOk result (λ cs. cs.items ≡ chars text.now) }
{
    text.chars().collect(alloc)
}

/// The text of one character.
pub(crate) fn text_of(alloc: Global, character: char) -> Result<String, AllocError>
    ensures { IfOk result (λ text. string_bytes text ≡ encode_utf8_all (character ∷ [])) }
{
    [character].iter().copied().collect(alloc)
}

/// The character of a text that has one and no more.
pub(crate) fn only_character(text: &str) -> Option<char>
    ensures { result ≡ only_of (chars text.now) }
{
    if count(text) == 1 { first(text) } else { None }
}

/// How many characters a text has.
fn count(text: &str) -> usize
    ensures { result ≡ length (chars text.now) }
{
    text.chars().count()
}

/// The first character of a text.
fn first(text: &str) -> Option<char>
    ensures { result ≡ slice_get (chars text.now) 0 }
{
    text.chars().next()
}

/// The character of this code, if there is one.
pub(crate) fn scalar(number: u128) -> Option<char>
    ensures some { IfSome result (λ c. (c ≡ number) × (is_scalar number ≡ true)) }
    ensures none { IsNone result → is_scalar number ≡ false }
{
    match u32::try_from(number) {
        Ok(code) => char::from_u32(code),
        Err(_) => None,
    }
}

/// The bytes of a text as characters, each of its own code.
pub(crate) fn bytes_as_characters(alloc: Global, text: &str) -> Result<Vec<char>, AllocError>
    ensures { IfOk result (λ cs. cs.items ≡ text.now) }
{
    text.bytes().map(char::from).collect(alloc)
}
