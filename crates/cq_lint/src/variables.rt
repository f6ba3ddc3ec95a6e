// The variables of a clause, as they stand in a text.

ghost use Rattle.std.specs.Prelude.{◌≡◌, ◌++◌, ◌≤◌, length, IfOk, OnOk};
ghost use Rattle.spec_syntax.specs.GrammarTokens.{bytes_of};
ghost use Rattle.cq_read.specs.LexShown.{shown};
ghost use Rattle.cq_lint.specs.Variables.{AreVariables, is_end, variable_if};

use crate::sentences::Variable;
use cq_read::lex::{Kind, Span, Token, next_token};
use std::alloc::{AllocError, Global};

/// The variable of these bytes.
fn variable_at(alloc: Global, text: &[u8], span: Span) -> Result<Variable, AllocError>
    requires forward { span.start ≤ span.end }
    requires within { span.end ≤ length text.now }
    ensures { IfOk result (λ v. v ≡ record { at = span.start; name = bytes_of text.now span }) }
{
    let name = text[span.start..span.end].to_vec(alloc)?;
    Ok(Variable {
        at: span.start,
        name,
    })
}

/// Adds the variable that a token is, if it is one.
fn add_variable(
    alloc: Global,
    text: &[u8],
    token: &Token,
    found: &mut Vec<Variable>,
) -> Result<(), AllocError>
    requires forward { token.now.span.start ≤ token.now.span.end }
    requires within { token.now.span.end ≤ length text.now }
    ensures { OnOk result (found.new.items ≡ found.old.items ++ variable_if text.now (shown token.now)) }
{
    match token.kind {
        Kind::Variable => {
            let variable = variable_at(alloc, text, token.span)?;
            found.push(variable)?;
            Ok(())
        }
        _ => Ok(()),
    }
}

/// The variables that stand in a text from one place to another.
pub fn variables_between(
    alloc: Global,
    text: &[u8],
    from: usize,
    to: usize,
) -> Result<Vec<Variable>, AllocError>
    requires { from ≤ length text.now }
    ensures { IfOk result (λ found. AreVariables text.now to from found.items) }
{
    let mut found = Vec::new(alloc);
    let mut at = from;
    while at < to {
        let token = match next_token(text, at) {
            Ok(token) => token,
            Err(_) => return Ok(found),
        };
        if is_end(&token) {
            return Ok(found);
        }
        add_variable(alloc, text, &token, &mut found)?;
        at = token.span.end;
    }
    Ok(found)
}

/// Whether a token is the text's end.
fn is_end(token: &Token) -> bool
    ensures { result ≡ is_end token.now.kind }
{
    matches!(token.kind, Kind::Eof)
}
