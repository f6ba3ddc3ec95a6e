// Where reading goes on behind an error.

ghost use Rattle.std.specs.Prelude.{◌≡◌, ◌+◌, ◌≤◌, ℕ, false, Some, drop, length, IfSome};
ghost use Rattle.spec_text.specs.Readings.{Resumes};
ghost use Rattle.spec_text.specs.Decided.{FaultComes};
ghost use Rattle.cq_read.specs.Inputs.{DecideNothing};
ghost use Rattle.spec_syntax.specs.Characters.{begins_with};
ghost use Rattle.spec_syntax.specs.Gaps as gaps;
ghost use Rattle.cq_read.specs.Zeros.{leads_with_zeros};

use crate::lex::{Kind, LexFault, next_token};
use crate::tokens::digit_at;

/// The place of a fault.
pub fn place_of(fault: LexFault) -> usize
    ensures { result ≡ gaps.place fault }
{
    match fault {
        LexFault::BadByte(at) => at,
        LexFault::OpenQuote(at) => at,
        LexFault::OpenComment(at) => at,
        LexFault::WideNumber(at) => at,
    }
}

/// Whether a zero stands at a place.
fn zero_at(text: &[u8], at: usize) -> bool
    requires { at ≤ length text.now }
    ensures { result ≡ begins_with 48 (drop at text.now) }
{
    match text[at..].first() {
        Some(&b) => b == b'0',
        None => false,
    }
}

/// Whether two zeros and a digit stand at a place.
fn leads_with_zeros(text: &[u8], at: usize) -> bool
    requires { at + 2 ≤ length text.now }
    ensures { result ≡ leads_with_zeros text.now at }
{
    zero_at(text, at) && zero_at(text, at + 1) && digit_at(text, at + 2)
}

/// A place behind leading zeros of a numeral, from which reading goes on where it does from here. A numeral that is too large
/// is so from each of its leading zeros on, so without this all its zeros would be looked at anew at each of them.
fn past_zeros(text: &[u8], from: usize) -> usize
    requires { from ≤ length text.now }
    ensures forward { from ≤ result }
    ensures within { result ≤ length text.now }
    ensures same { (to : ℕ) → Resumes text.now result to → Resumes text.now from to }
{
    let mut at = from;
    while at + 2 < text.len() {
        if leads_with_zeros(text, at) {
            at += 1;
        } else {
            return at;
        }
    }
    at
}

/// Where reading goes on if it begins anew at a place.
pub fn resume(text: &[u8], from: usize) -> usize
    requires { from ≤ length text.now }
    ensures { Resumes text.now from result }
{
    let mut at = from;
    loop {
        match next_token(text, at) {
            Ok(token) => match token.kind {
                Kind::End => return token.span.end,
                Kind::Eof => return text.len(),
                _ => at = token.span.end,
            },
            Err(fault) => {
                let place = place_of(fault);
                if place >= text.len() {
                    return place;
                }
                at = past_zeros(text, place + 1);
            }
        }
    }
}

/// The place of the first fault from a place on, if no end token stands before it.
fn first_fault(text: &[u8], from: usize) -> Option<usize>
    requires { from ≤ length text.now }
    ensures first { (at : ℕ) → FaultComes text.now from at → result ≡ Some at }
    ensures within { IfSome result (λ at. at ≤ length text.now) }
{
    let mut at = from;
    loop {
        match next_token(text, at) {
            Ok(token) => match token.kind {
                Kind::End => return None,
                Kind::Eof => return None,
                _ => at = token.span.end,
            },
            Err(fault) => return Some(place_of(fault)),
        }
    }
}

/// Whether reading from a place on may go on before the text's end, by whatever operators.
pub fn may_go_on(text: &[u8], from: usize) -> bool
    requires { from ≤ length text.now }
    ensures { result ≡ false → DecideNothing text.now from }
{
    if resume(text, from) < text.len() {
        return true;
    }
    match first_fault(text, from) {
        Some(at) => resume(text, at) < text.len(),
        None => false,
    }
}
