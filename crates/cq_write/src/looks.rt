//! Names that are one unquoted name token by their looks, so that they need not be cut into tokens.

ghost use Rattle.std.specs.Prelude.{◌≡◌, ◌≤◌, ◌&&◌, ◌==◌, ◌||◌, length};
ghost use Rattle.std.specs.List.{prefix_len};
ghost use Rattle.spec_syntax.specs.Characters.{is_symbol as is_symbol_of, begins_with};
ghost use Rattle.cq_write.specs.Looks.{HasLooks, continues_word, is_alone};

use crate::characters::is_symbol;

/// How a name looks.
#[derive(Clone, Copy, PartialEq, Eq)]
pub(crate) enum Looks {
    /// A small letter, and then letters, digits and `_`, all of ASCII.
    Letters,
    /// Symbol characters that are neither a full stop alone nor begin a comment.
    Symbols,
    Other,
}

/// A byte with which a word of ASCII goes on.
fn continues_word(b: u8) -> bool
    ensures { result ≡ continues_word b }
{
    b.is_ascii_alphanumeric() || b == b'_'
}

/// How many bytes go on with a word.
fn word_len(text: &[u8]) -> usize
    ensures { result ≡ prefix_len continues_word text.now }
{
    for (len, &b) in text.iter().enumerate() {
        if !continues_word(b) {
            return len;
        }
    }
    text.len()
}

/// How many symbol characters the text begins with.
fn symbols_len(text: &[u8]) -> usize
    ensures { result ≡ prefix_len is_symbol_of text.now }
{
    for (len, &b) in text.iter().enumerate() {
        if !is_symbol(char::from(b)) {
            return len;
        }
    }
    text.len()
}

fn begins_with(byte: u8, text: &[u8]) -> bool
    ensures { result ≡ begins_with byte text.now }
{
    match text.first() {
        None => false,
        Some(&b) => b == byte,
    }
}

/// Whether symbol characters, the first of them apart, are a full stop alone or begin a comment.
fn is_alone(first: u8, rest: &[u8]) -> bool
    ensures { result ≡ is_alone first rest.now }
{
    (first == b'.' && rest.is_empty()) || (first == b'/' && begins_with(b'*', rest))
}

/// How a name looks, in one pass.
pub(crate) fn looks_of(name: &str) -> Looks
    ensures { HasLooks name.now result }
{
    let Some((&first, rest)) = name.as_bytes().split_first() else {
        return Looks::Other;
    };
    if first.is_ascii_lowercase() {
        if word_len(rest) == rest.len() {
            return Looks::Letters;
        }
    } else if is_symbol(char::from(first))
        && symbols_len(rest) == rest.len()
        && !is_alone(first, rest)
    {
        return Looks::Symbols;
    }
    Looks::Other
}
