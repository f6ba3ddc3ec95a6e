// Operators behind an operand and before one.

ghost use Rattle.std.specs.Prelude.{◌≡◌, List, [], ◌∷◌, Option, option_map, IfSome, MatchOption};
ghost use Rattle.spec_numbers.specs.Texts.{Text};
ghost use Rattle.cq_term.specs.Texts.{text_of, AreDifferent};
ghost use Rattle.cq_ops.specs.Tables.{named};
ghost use Rattle.spec_syntax.specs.Operators.{right_most, left_most};
ghost use Rattle.spec_syntax.specs.Grammar.{operator_name, allowed, use_of, may_begin, begins_term, applied_as};
ghost use Rattle.cq_read.specs.Views.{token_of, use_by_text};
ghost use Rattle.cq_read.specs.Known.{AreGrammarNames, IsKnown, KnowsToken, KnowsUse, Knows};

use crate::parse::names::{Grammar, GrammarNames};
use crate::parse::tokens::Token;
use cq_ops::Ops;
use cq_term::atoms::Atom;
use spec_syntax::operators::{OpDef, OpKind};

/// What a term does at the token behind an operand.
#[derive(Clone, Copy)]
pub enum UseThere {
    Infix(Atom, OpDef),
    Postfix(Atom, OpDef),
    /// It ends.
    Outside,
}

/// The most that the priority of an operator's right operand may be.
pub fn right_most(op: OpDef) -> u16
    ensures { result ≡ right_most op }
{
    match op.kind {
        OpKind::Xfy | OpKind::Fy => op.priority,
        OpKind::Xfx | OpKind::Yfx | OpKind::Fx => op.priority.saturating_sub(1),
        OpKind::Xf | OpKind::Yf => 0,
    }
}

/// The most that the priority of an operator's left operand may be.
fn left_most(op: OpDef) -> u16
    ensures { result ≡ left_most op }
{
    match op.kind {
        OpKind::Yfx | OpKind::Yf => op.priority,
        OpKind::Xfx | OpKind::Xfy | OpKind::Xf => op.priority.saturating_sub(1),
        OpKind::Fy | OpKind::Fx => 0,
    }
}

/// The name as which a token may be an operator behind an operand.
fn operator_name(names: &GrammarNames, token: &Token) -> Option<Atom>
    ensures name { (texts : List Text) → AreGrammarNames texts names.now → option_map (text_of texts) result ≡ operator_name (token_of texts token.now) }
    ensures known { (texts : List Text) → AreGrammarNames texts names.now → KnowsToken texts token.now → IfSome result (IsKnown texts) }
{
    match token {
        Token::Named(name, _) => Some(*name),
        Token::Functor(name) => Some(*name),
        Token::Minus => Some(names.minus),
        Token::Comma => Some(names.comma),
        _ => None,
    }
}

/// The operator, where a term of priority at most `most` takes it behind an operand of this priority.
fn allowed(most: u16, priority: u16, op: Option<OpDef>) -> Option<OpDef>
    ensures { result ≡ allowed most priority op }
{
    match op {
        Some(op) if op.priority <= most && priority <= left_most(op) => Some(op),
        _ => None,
    }
}

/// What a term of priority at most `most` does at a token behind an operand of this priority.
#[tactic(auto, unfolding(spec_syntax::specs::Grammar::use_of))]
pub fn use_there(grammar: &Grammar<'_>, most: u16, priority: u16, token: &Token) -> UseThere
    ensures by_text { (texts : List Text) → Knows texts grammar.now.names.now token.now
        → use_by_text texts result ≡ use_of (named texts grammar.now.ops.now) most priority (token_of texts token.now) }
    ensures known { (texts : List Text) → Knows texts grammar.now.names.now token.now → KnowsUse texts result }
{
    let Some(name) = operator_name(grammar.names, token) else {
        return UseThere::Outside;
    };
    if let Some(op) = allowed(most, priority, grammar.ops.infix(name)) {
        return UseThere::Infix(name, op);
    }
    if let Some(op) = allowed(most, priority, grammar.ops.postfix(name)) {
        return UseThere::Postfix(name, op);
    }
    UseThere::Outside
}

/// Whether a name is not an infix operator, or is a prefix operator too.
fn may_begin(ops: &Ops, name: Atom) -> bool
    ensures { (texts : List Text) → AreDifferent texts → IsKnown texts name → result ≡ may_begin (named texts ops.now) (text_of texts name) }
{
    !ops.infix(name).is_some() || ops.prefix(name).is_some()
}

/// Whether a prefix operator in front of this token is applied.
#[tactic(auto, unfolding(spec_syntax::specs::Grammar::begins_term))]
fn begins_term(grammar: &Grammar<'_>, token: &Token) -> bool
    ensures { (texts : List Text) → Knows texts grammar.now.names.now token.now
        → result ≡ begins_term (named texts grammar.now.ops.now) (token_of texts token.now) }
{
    match token {
        Token::Variable(_) | Token::Numeral(_) | Token::Codes(_) | Token::Functor(_) => true,
        Token::Named(name, quoted) => *quoted || may_begin(grammar.ops, *name),
        Token::Minus => may_begin(grammar.ops, grammar.names.minus),
        Token::Open | Token::OpenList | Token::OpenCurly => true,
        Token::Close | Token::CloseList | Token::CloseCurly => false,
        Token::Comma | Token::Bar | Token::End => false,
    }
}

/// The prefix operator as which a name in front of this token is applied, if it is.
pub fn applied_as(grammar: &Grammar<'_>, name: Atom, token: &Token) -> Option<OpDef>
    ensures { (texts : List Text) → Knows texts grammar.now.names.now token.now → IsKnown texts name
        → result ≡ applied_as (named texts grammar.now.ops.now) (text_of texts name) (token_of texts token.now ∷ []) }
{
    if begins_term(grammar, token) {
        grammar.ops.prefix(name)
    } else {
        None
    }
}
