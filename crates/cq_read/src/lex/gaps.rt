// Layout and comments.
ghost use Rattle.std.specs.Prelude.{◌≡◌, ◌≤◌, length, drop, IfOk};
ghost use Rattle.spec_syntax.specs.Characters.{is_layout};
ghost use Rattle.spec_syntax.specs.Gaps.{gap};
ghost use Rattle.spec_syntax.specs.GrammarTokens.{ends_clause};
ghost use Rattle.spec_syntax.specs.declared.grammar.Gap.TheVariants.{Between};

use crate::lex::characters::begins_with;
use spec_syntax::grammar::{Gap, LexFault};

fn is_layout(b: u8) -> bool
    ensures { result ≡ is_layout b }
{
    matches!(b, b' ' | b'\t' | b'\n' | 11 | 12 | b'\r')
}

/// Whether a full stop before this text ends a clause.
pub(crate) fn ends_clause(text: &[u8]) -> bool
    ensures { result ≡ ends_clause text.now }
{
    match text.first() {
        None => true,
        Some(&b) => is_layout(b) || b == b'%',
    }
}

/// Where the token behind layout and comments begins.
pub(crate) fn gap_end(text: &[u8], at: usize) -> Result<usize, LexFault>
    requires { at ≤ length text.now }
    ensures value { result ≡ gap Between (drop at text.now) at }
    ensures within { IfOk result (λ end. end ≤ length text.now) }
{
    let mut gap = Gap::Between;
    let mut place = at;
    let mut rest = &text[at..];
    while let Some((&b, tail)) = rest.split_first() {
        gap = match gap {
            Gap::Between if is_layout(b) => Gap::Between,
            Gap::Between if b == b'%' => Gap::Line,
            Gap::Between if b == b'/' && begins_with(b'*', tail) => Gap::Opening,
            Gap::Between => return Ok(place),
            Gap::Line if b == b'\n' => Gap::Between,
            Gap::Line => Gap::Line,
            Gap::Opening => Gap::Block,
            Gap::Block if b == b'*' && begins_with(b'/', tail) => Gap::Closing,
            Gap::Block => Gap::Block,
            Gap::Closing => Gap::Between,
        };
        place += 1;
        rest = tail;
    }
    match gap {
        Gap::Opening | Gap::Block => Err(LexFault::OpenComment(place)),
        _ => Ok(place),
    }
}
