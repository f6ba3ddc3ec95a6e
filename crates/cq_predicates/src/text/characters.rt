// Characters of texts: code points, of which a text has one or more.

ghost use Rattle.std.specs.Prelude.{◌≡◌, length, chars, encode_utf8_all, bytes_eq, string_bytes, IfOk};

use std::alloc::{AllocError, Global};

/// How many characters a text has.
pub(crate) fn count(text: &str) -> usize
    ensures { result ≡ length (chars text.now) }
{
    text.chars().count()
}

/// The characters of a text, in order.
pub(crate) fn characters(alloc: Global, text: &str) -> Result<Vec<char>, AllocError>
    ensures { IfOk result (λ cs. cs.items ≡ chars text.now) }
{
    text.chars().collect(alloc)
}

/// The text of these characters.
pub(crate) fn joined(alloc: Global, characters: &[char]) -> Result<String, AllocError>
    ensures { IfOk result (λ text. string_bytes text ≡ encode_utf8_all characters.now) }
{
    characters.iter().copied().collect(alloc)
}

/// Whether the characters are the same.
pub(crate) fn are_same(left: &[char], right: &[char]) -> bool
    ensures { result ≡ bytes_eq left.now right.now }
{
    left == right
}
