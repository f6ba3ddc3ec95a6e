//! Names as they are, or in quotes where the style and the name ask for them.

ghost use Rattle.std.specs.Prelude.{◌≡◌, ◌++◌, ◌∷◌, ◌<◌, ◌≤◌, [], ◌&&◌, ◌==◌, OnOk, IfOk, IsTrue, ◌↔◌, not, length, chars, string_bytes, codes, bytes_eq, suc, false};
ghost use Rattle.std.specs.Char.{is_control};
ghost use Rattle.std.specs.Fmt.{digits_onto};
ghost use Rattle.spec_syntax.specs.Writing.{needs_quotes as needs_quotes_of, is_name_to as is_name_to_of};
ghost use Rattle.spec_text.specs.Texts.{escaped, all_escaped, in_quotes, is_quoted as is_quoted_of, name_text};
ghost use Rattle.cq_read.specs.LexShown.{shown};

use cq_read::lex::{Kind, Token, next_token};
use spec_text::writing::Style;
use std::alloc::AllocError;

fn is_name_to(end: usize, token: Token) -> bool
    ensures { result ≡ is_name_to_of end (Ok (shown token)) }
{
    match token.kind {
        Kind::Name => token.span.start == 0 && token.span.end == end,
        Kind::Quoted
        | Kind::Codes
        | Kind::Variable
        | Kind::Numeral
        | Kind::Punctuation
        | Kind::End
        | Kind::Eof => false,
    }
}

/// Whether a name is not one unquoted name token.
#[tactic(auto, unfolding(spec_syntax::specs::Writing::needs_quotes))]
pub(crate) fn needs_quotes(name: &str) -> bool
    ensures { result ≡ needs_quotes_of name.now }
{
    match next_token(name.as_bytes(), 0) {
        Ok(token) => !is_name_to(name.len(), token),
        Err(_) => true,
    }
}

/// Whether a name is written in quotes where names are.
fn is_quoted(name: &str) -> bool
    ensures { result ≡ is_quoted_of name.now }
{
    needs_quotes(name) && name != "[]" && name != "{}"
}

/// A control character by its number in lower-case hexadecimal.
fn push_numbered(out: &mut String, c: char) -> Result<(), AllocError>
    requires { c < 256 }
    ensures { OnOk result (string_bytes out.new ≡ string_bytes out.old ++ (codes "\\x" ++ digits_onto (suc c) 16 false c [] ++ codes "\\")) }
{
    let number = u32::from(c);
    write!(out, "\\x{number:x}\\")?;
    Ok(())
}

/// A character inside single quotes.
fn push_escaped(out: &mut String, c: char) -> Result<(), AllocError>
    ensures { OnOk result (string_bytes out.new ≡ string_bytes out.old ++ escaped 39 c) }
{
    if c == '\\' {
        out.push_str("\\\\")
    } else if c == '\'' {
        out.push_str("\\'")
    } else if c == '\n' {
        out.push_str("\\n")
    } else if c == '\t' {
        out.push_str("\\t")
    } else if c.is_control() {
        push_numbered(out, c)
    } else {
        out.push(c)
    }
}

/// A name in single quotes.
fn push_quoted(out: &mut String, name: &str) -> Result<(), AllocError>
    ensures { OnOk result (string_bytes out.new ≡ string_bytes out.old ++ in_quotes 39 name.now) }
{
    out.push('\'')?;
    for c in name.chars() {
        push_escaped(out, c)?;
    }
    out.push('\'')?;
    Ok(())
}

/// A name as the style has it.
#[tactic(auto, unfolding(spec_text::specs::Texts::name_text))]
pub(crate) fn push_name(style: Style, name: &str, out: &mut String) -> Result<(), AllocError>
    ensures { OnOk result (string_bytes out.new ≡ string_bytes out.old ++ name_text style name.now) }
{
    match style {
        Style::Plain => out.push_str(name),
        Style::Quoted => {
            if is_quoted(name) {
                push_quoted(out, name)
            } else {
                out.push_str(name)
            }
        }
    }
}
