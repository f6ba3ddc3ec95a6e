//! What characters may touch: those of names of symbol characters, and those of names of letters, variables and numerals.

ghost use Rattle.std.specs.Prelude.{◌≡◌};
ghost use Rattle.spec_syntax.specs.Characters.{is_symbol as is_symbol_of, starts_name as starts_name_of, continues_name as continues_name_of};
ghost use Rattle.spec_text.specs.Texts.{ends_name as ends_name_of};

/// One of the characters of which names of symbols are made.
pub(crate) fn is_symbol(c: char) -> bool
    ensures { result ≡ is_symbol_of c }
{
    matches!(
        c,
        '+' | '-'
            | '*'
            | '/'
            | '\\'
            | '^'
            | '<'
            | '>'
            | '='
            | '~'
            | ':'
            | '.'
            | '?'
            | '@'
            | '#'
            | '&'
            | '$'
    )
}

fn starts_name(c: char) -> bool
    ensures { result ≡ starts_name_of c }
{
    if c.is_ascii() {
        c.is_ascii_lowercase()
    } else {
        unicode_ident::is_xid_start(c)
    }
}

pub(crate) fn continues_name(c: char) -> bool
    ensures { result ≡ continues_name_of c }
{
    if c.is_ascii() {
        c.is_ascii_alphanumeric() || c == '_'
    } else {
        unicode_ident::is_xid_continue(c)
    }
}

/// A character with which a name of letters, a variable or a numeral may end.
pub(crate) fn ends_name(c: char) -> bool
    ensures { result ≡ ends_name_of c }
{
    starts_name(c) || continues_name(c)
}
