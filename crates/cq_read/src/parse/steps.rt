// The steps of the machine, a token each.

ghost use Rattle.std.specs.Prelude.{◌≡◌, ◌<◌, ℕ, List, [], ◌∷◌, Some, length, IfOk, OnOk};
ghost use Rattle.spec_numbers.specs.Texts.{Text};
ghost use Rattle.cq_term.specs.Texts.{text_of};
ghost use Rattle.spec_syntax.specs.Operators.{Ops as OpsOfTexts};
ghost use Rattle.cq_term.specs.Meaning.{HeapTerm};
ghost use Rattle.cq_ops.specs.Tables.{named};
ghost use Rattle.spec_syntax.specs.Grammar.{use_of, applied_as};
ghost use Rattle.spec_syntax.specs.Machine.{InElements, InCurly, after_operand, end_clause, before_term, after_name, after_functor, after_minus};
ghost use Rattle.spec_syntax.specs.Machine.{after_open_list, after_open_curly, step};
ghost use Rattle.cq_term.specs.Trees.{tree};
ghost use Rattle.cq_read.specs.Views.{OnlyGrows, token_of, frames_of, state_of, state_or_none, LeadsTo};
ghost use Rattle.cq_read.specs.Views.{AreLive, IsLiveState, IsLiveOrNone, IsLiveToken};
ghost use Rattle.cq_read.specs.Known.{AreGrammarNames, IsKnown, KnowsToken, KnowsState, KnowsOrNone, Knows, KnowsNames};

use crate::parse::building::{atom, code_list, compound, number};
use crate::parse::folding::{Folded, fold};
use crate::parse::frames::{Frame, State};
use crate::parse::names::Grammar;
use crate::parse::operators::{UseThere, applied_as, right_most, use_there};
use crate::parse::tokens::Token;
use cq_term::atoms::Atom;
use cq_term::{Heap, TermId};
use std::alloc::AllocError;

/// The step at the token behind an operand of this priority, within a term of priority at most `most`.
fn behind(
    grammar: &Grammar<'_>,
    heap: &mut Heap,
    frames: &mut Vec<Frame>,
    most: u16,
    priority: u16,
    operand: TermId,
    token: &Token,
) -> Result<Option<State>, AllocError>
    requires frames { AreLive (length heap.old.now.terms) frames.old.items }
    requires operand { operand < length heap.old.now.terms }
    ensures step { (texts : List Text) → Knows texts grammar.now.names.now token.now → let ops = named texts grammar.now.ops.now in
        let ts = heap.old.now.terms in let next = token_of texts token.now in LeadsTo texts heap.new.now.terms frames.new.items result
        (after_operand ops (frames_of texts ts frames.old.items) most (tree texts ts operand) next (use_of ops most priority next)) }
    ensures names { (texts : List Text) → Knows texts grammar.now.names.now token.now → KnowsNames texts heap.old.now.terms frames.old.items
        → OnOk result (KnowsNames texts heap.new.now.terms frames.new.items) }
    ensures known { (texts : List Text) → IfOk result (KnowsOrNone texts) }
    ensures frames { OnOk result (AreLive (length heap.new.now.terms) frames.new.items) }
    ensures state { IfOk result (IsLiveOrNone (length heap.new.now.terms)) }
    ensures heap { OnlyGrows heap.old heap.new }
{
    let mut m = most;
    let mut l = priority;
    let mut a = operand;
    loop {
        match use_there(grammar, m, l, token) {
            UseThere::Infix(name, op) => {
                frames.push(Frame::RightOf {
                    name,
                    left: a,
                    op,
                    most: m,
                })?;
                return Ok(Some(State::BeforeTerm {
                    most: right_most(op),
                }));
            }
            UseThere::Postfix(name, op) => {
                let operand = compound(heap, name, &[a])?;
                return Ok(Some(State::AfterOperand {
                    most: m,
                    priority: op.priority,
                    operand,
                }));
            }
            UseThere::Outside => match frames.pop() {
                None => return Ok(whole(a, token)),
                Some(frame) => match fold(heap, grammar.names, frames, frame, a, token)? {
                    Folded::Done(next) => return Ok(next),
                    Folded::Operand {
                        most,
                        priority,
                        operand,
                    } => {
                        m = most;
                        l = priority;
                        a = operand;
                    }
                },
            },
        }
    }
}

/// The end token behind the term of a clause.
fn whole(term: TermId, token: &Token) -> Option<State>
    ensures step { (ops : OpsOfTexts) (texts : List Text) (ts : List HeapTerm) → state_or_none texts ts [] result
        ≡ end_clause ops (tree texts ts term) (token_of texts token.now) }
    ensures known { (texts : List Text) → KnowsOrNone texts result }
    ensures state { (n : ℕ) → term < n → IsLiveOrNone n result }
{
    match token {
        Token::End => Some(State::Whole { term }),
        _ => None,
    }
}

/// The step where a term begins.
fn before_term(
    grammar: &Grammar<'_>,
    heap: &mut Heap,
    frames: &mut Vec<Frame>,
    most: u16,
    token: &Token,
) -> Result<Option<State>, AllocError>
    requires frames { AreLive (length heap.old.now.terms) frames.old.items }
    requires variable { IsLiveToken heap.old.now.images token.now }
    ensures step { (ops : OpsOfTexts) (texts : List Text) → AreGrammarNames texts grammar.now.names.now
        → LeadsTo texts heap.new.now.terms frames.new.items result
        (before_term ops most (frames_of texts heap.old.now.terms frames.old.items) (token_of texts token.now)) }
    ensures names { (texts : List Text) → AreGrammarNames texts grammar.now.names.now → KnowsNames texts heap.old.now.terms frames.old.items
        → OnOk result (KnowsNames texts heap.new.now.terms frames.new.items) }
    ensures known { (texts : List Text) → KnowsToken texts token.now → IfOk result (KnowsOrNone texts) }
    ensures frames { OnOk result (AreLive (length heap.new.now.terms) frames.new.items) }
    ensures state { IfOk result (IsLiveOrNone (length heap.new.now.terms)) }
    ensures heap { OnlyGrows heap.old heap.new }
{
    match token {
        Token::Variable(variable) => Ok(after(most, heap.var_term(*variable))),
        Token::Numeral(q) => Ok(after(most, number(heap, *q)?)),
        Token::Codes(text) => Ok(after(most, code_list(heap, grammar.names, text)?)),
        Token::Named(name, _) => Ok(Some(State::AfterName { name: *name, most })),
        Token::Functor(name) => Ok(Some(State::AfterFunctor { name: *name, most })),
        Token::Minus => Ok(Some(State::AfterMinus { most })),
        Token::Open => {
            frames.push(Frame::InGroup { most })?;
            Ok(Some(State::BeforeTerm { most: 1200 }))
        }
        Token::OpenList => Ok(Some(State::AfterOpenList { most })),
        Token::OpenCurly => Ok(Some(State::AfterOpenCurly { most })),
        _ => Ok(None),
    }
}

/// Behind an operand of priority 0.
fn after(most: u16, operand: TermId) -> Option<State>
    ensures { result ≡ Some (State.AfterOperand most 0 operand) }
{
    Some(State::AfterOperand {
        most,
        priority: 0,
        operand,
    })
}

/// The step behind a name that may be applied.
fn after_name(
    grammar: &Grammar<'_>,
    heap: &mut Heap,
    frames: &mut Vec<Frame>,
    name: Atom,
    most: u16,
    token: &Token,
) -> Result<Option<State>, AllocError>
    requires frames { AreLive (length heap.old.now.terms) frames.old.items }
    requires variable { IsLiveToken heap.old.now.images token.now }
    ensures step { (texts : List Text) → Knows texts grammar.now.names.now token.now → IsKnown texts name → let ops = named texts grammar.now.ops.now in
        let f = text_of texts name in let next = token_of texts token.now in LeadsTo texts heap.new.now.terms frames.new.items result
        (after_name ops f most (frames_of texts heap.old.now.terms frames.old.items) next (applied_as ops f (next ∷ []))) }
    ensures names { (texts : List Text) → Knows texts grammar.now.names.now token.now → IsKnown texts name
        → KnowsNames texts heap.old.now.terms frames.old.items → OnOk result (KnowsNames texts heap.new.now.terms frames.new.items) }
    ensures known { (texts : List Text) → KnowsToken texts token.now → IfOk result (KnowsOrNone texts) }
    ensures frames { OnOk result (AreLive (length heap.new.now.terms) frames.new.items) }
    ensures state { IfOk result (IsLiveOrNone (length heap.new.now.terms)) }
    ensures heap { OnlyGrows heap.old heap.new }
{
    match applied_as(grammar, name, token) {
        Some(op) if op.priority <= most => {
            frames.push(Frame::OperandOf { name, op, most })?;
            before_term(grammar, heap, frames, right_most(op), token)
        }
        Some(_) => Ok(None),
        None => {
            let operand = atom(heap, name)?;
            behind(grammar, heap, frames, most, 0, operand, token)
        }
    }
}

/// The step at the first token of a list's first element.
fn first_element(
    grammar: &Grammar<'_>,
    heap: &mut Heap,
    frames: &mut Vec<Frame>,
    most: u16,
    token: &Token,
) -> Result<Option<State>, AllocError>
    requires frames { AreLive (length heap.old.now.terms) frames.old.items }
    requires variable { IsLiveToken heap.old.now.images token.now }
    ensures step { (ops : OpsOfTexts) (texts : List Text) → AreGrammarNames texts grammar.now.names.now
        → LeadsTo texts heap.new.now.terms frames.new.items result
        (before_term ops 999 (InElements [] most ∷ frames_of texts heap.old.now.terms frames.old.items) (token_of texts token.now)) }
    ensures names { (texts : List Text) → AreGrammarNames texts grammar.now.names.now → KnowsNames texts heap.old.now.terms frames.old.items
        → OnOk result (KnowsNames texts heap.new.now.terms frames.new.items) }
    ensures known { (texts : List Text) → KnowsToken texts token.now → IfOk result (KnowsOrNone texts) }
    ensures frames { OnOk result (AreLive (length heap.new.now.terms) frames.new.items) }
    ensures state { IfOk result (IsLiveOrNone (length heap.new.now.terms)) }
    ensures heap { OnlyGrows heap.old heap.new }
{
    let before = Vec::new(heap.alloc());
    frames.push(Frame::InElements { before, most })?;
    before_term(grammar, heap, frames, 999, token)
}

/// The step at the first token of the term in braces.
fn first_in_braces(
    grammar: &Grammar<'_>,
    heap: &mut Heap,
    frames: &mut Vec<Frame>,
    most: u16,
    token: &Token,
) -> Result<Option<State>, AllocError>
    requires frames { AreLive (length heap.old.now.terms) frames.old.items }
    requires variable { IsLiveToken heap.old.now.images token.now }
    ensures step { (ops : OpsOfTexts) (texts : List Text) → AreGrammarNames texts grammar.now.names.now
        → LeadsTo texts heap.new.now.terms frames.new.items result
        (before_term ops 1200 (InCurly most ∷ frames_of texts heap.old.now.terms frames.old.items) (token_of texts token.now)) }
    ensures names { (texts : List Text) → AreGrammarNames texts grammar.now.names.now → KnowsNames texts heap.old.now.terms frames.old.items
        → OnOk result (KnowsNames texts heap.new.now.terms frames.new.items) }
    ensures known { (texts : List Text) → KnowsToken texts token.now → IfOk result (KnowsOrNone texts) }
    ensures frames { OnOk result (AreLive (length heap.new.now.terms) frames.new.items) }
    ensures state { IfOk result (IsLiveOrNone (length heap.new.now.terms)) }
    ensures heap { OnlyGrows heap.old heap.new }
{
    frames.push(Frame::InCurly { most })?;
    before_term(grammar, heap, frames, 1200, token)
}

/// The step behind a name that has a `(` directly behind it.
fn after_functor(
    heap: &mut Heap,
    frames: &mut Vec<Frame>,
    name: Atom,
    most: u16,
    token: &Token,
) -> Result<Option<State>, AllocError>
    requires frames { AreLive (length heap.old.now.terms) frames.old.items }
    requires variable { IsLiveToken heap.old.now.images token.now }
    ensures step { (ops : OpsOfTexts) (texts : List Text) → LeadsTo texts heap.new.now.terms frames.new.items result
        (after_functor ops (text_of texts name) most (frames_of texts heap.old.now.terms frames.old.items) (token_of texts token.now)) }
    ensures names { (texts : List Text) → IsKnown texts name → KnowsNames texts heap.old.now.terms frames.old.items
        → OnOk result (KnowsNames texts heap.new.now.terms frames.new.items) }
    ensures known { (texts : List Text) → KnowsToken texts token.now → IfOk result (KnowsOrNone texts) }
    ensures frames { OnOk result (AreLive (length heap.new.now.terms) frames.new.items) }
    ensures state { IfOk result (IsLiveOrNone (length heap.new.now.terms)) }
    ensures heap { OnlyGrows heap.old heap.new }
{
    match token {
        Token::Open => {
            let before = Vec::new(heap.alloc());
            frames.push(Frame::InArguments { name, before, most })?;
            Ok(Some(State::BeforeTerm { most: 999 }))
        }
        _ => Ok(None),
    }
}

/// The step behind a sign that has a digit directly behind it.
fn after_minus(
    heap: &mut Heap,
    frames: &mut Vec<Frame>,
    most: u16,
    token: &Token,
) -> Result<Option<State>, AllocError>
    requires frames { AreLive (length heap.old.now.terms) frames.old.items }
    requires variable { IsLiveToken heap.old.now.images token.now }
    ensures step { (ops : OpsOfTexts) (texts : List Text) → LeadsTo texts heap.new.now.terms frames.new.items result
        (after_minus ops most (frames_of texts heap.old.now.terms frames.old.items) (token_of texts token.now)) }
    ensures names { (texts : List Text) → KnowsNames texts heap.old.now.terms frames.old.items
        → OnOk result (KnowsNames texts heap.new.now.terms frames.new.items) }
    ensures known { (texts : List Text) → KnowsToken texts token.now → IfOk result (KnowsOrNone texts) }
    ensures frames { OnOk result (AreLive (length heap.new.now.terms) frames.new.items) }
    ensures state { IfOk result (IsLiveOrNone (length heap.new.now.terms)) }
    ensures heap { OnlyGrows heap.old heap.new }
{
    match token {
        Token::Numeral(q) => Ok(after(most, number(heap, q.neg())?)),
        _ => Ok(None),
    }
}

/// The step behind `[`.
fn after_open_list(
    grammar: &Grammar<'_>,
    heap: &mut Heap,
    frames: &mut Vec<Frame>,
    most: u16,
    token: &Token,
) -> Result<Option<State>, AllocError>
    requires frames { AreLive (length heap.old.now.terms) frames.old.items }
    requires variable { IsLiveToken heap.old.now.images token.now }
    ensures step { (ops : OpsOfTexts) (texts : List Text) → AreGrammarNames texts grammar.now.names.now
        → LeadsTo texts heap.new.now.terms frames.new.items result
        (after_open_list ops most (frames_of texts heap.old.now.terms frames.old.items) (token_of texts token.now)) }
    ensures names { (texts : List Text) → AreGrammarNames texts grammar.now.names.now → KnowsNames texts heap.old.now.terms frames.old.items
        → OnOk result (KnowsNames texts heap.new.now.terms frames.new.items) }
    ensures known { (texts : List Text) → KnowsToken texts token.now → IfOk result (KnowsOrNone texts) }
    ensures frames { OnOk result (AreLive (length heap.new.now.terms) frames.new.items) }
    ensures state { IfOk result (IsLiveOrNone (length heap.new.now.terms)) }
    ensures heap { OnlyGrows heap.old heap.new }
{
    match token {
        Token::CloseList => Ok(after(most, atom(heap, grammar.names.nil)?)),
        _ => first_element(grammar, heap, frames, most, token),
    }
}

/// The step behind `{`.
fn after_open_curly(
    grammar: &Grammar<'_>,
    heap: &mut Heap,
    frames: &mut Vec<Frame>,
    most: u16,
    token: &Token,
) -> Result<Option<State>, AllocError>
    requires frames { AreLive (length heap.old.now.terms) frames.old.items }
    requires variable { IsLiveToken heap.old.now.images token.now }
    ensures step { (ops : OpsOfTexts) (texts : List Text) → AreGrammarNames texts grammar.now.names.now
        → LeadsTo texts heap.new.now.terms frames.new.items result
        (after_open_curly ops most (frames_of texts heap.old.now.terms frames.old.items) (token_of texts token.now)) }
    ensures names { (texts : List Text) → AreGrammarNames texts grammar.now.names.now → KnowsNames texts heap.old.now.terms frames.old.items
        → OnOk result (KnowsNames texts heap.new.now.terms frames.new.items) }
    ensures known { (texts : List Text) → KnowsToken texts token.now → IfOk result (KnowsOrNone texts) }
    ensures frames { OnOk result (AreLive (length heap.new.now.terms) frames.new.items) }
    ensures state { IfOk result (IsLiveOrNone (length heap.new.now.terms)) }
    ensures heap { OnlyGrows heap.old heap.new }
{
    match token {
        Token::CloseCurly => Ok(after(most, atom(heap, grammar.names.curly)?)),
        _ => first_in_braces(grammar, heap, frames, most, token),
    }
}

/// The step at a token: where the machine stands behind it, or None where the token is refused, since then no clause
/// begins with the tokens so far. The frames and the state that came of one step, and the heap, are the next one's; they
/// may only hold live terms. Behind a whole clause every token is refused.
///
/// The heap only gets new terms, also where the token is refused or memory is wanting: older terms and the variables stay
/// as they are, and so do its marks. What the frames are then is of no use. It fails where memory is wanting, alone. If the
/// names of its terms, of the frames and of the token have texts, those of the new terms and frames have too.
pub fn step(
    grammar: &Grammar<'_>,
    heap: &mut Heap,
    frames: &mut Vec<Frame>,
    state: State,
    token: &Token,
) -> Result<Option<State>, AllocError>
    requires frames { AreLive (length heap.old.now.terms) frames.old.items }
    requires state { IsLiveState (length heap.old.now.terms) state }
    requires variable { IsLiveToken heap.old.now.images token.now }
    ensures step { (texts : List Text) → Knows texts grammar.now.names.now token.now → KnowsState texts state → let ts = heap.old.now.terms in
        LeadsTo texts heap.new.now.terms frames.new.items result
        (step (named texts grammar.now.ops.now) (state_of texts ts (frames_of texts ts frames.old.items) state) (token_of texts token.now)) }
    ensures names { (texts : List Text) → Knows texts grammar.now.names.now token.now → KnowsState texts state
        → KnowsNames texts heap.old.now.terms frames.old.items → OnOk result (KnowsNames texts heap.new.now.terms frames.new.items) }
    ensures known { (texts : List Text) → KnowsToken texts token.now → IfOk result (KnowsOrNone texts) }
    ensures frames { OnOk result (AreLive (length heap.new.now.terms) frames.new.items) }
    ensures state { IfOk result (IsLiveOrNone (length heap.new.now.terms)) }
    ensures heap { OnlyGrows heap.old heap.new }
{
    match state {
        State::BeforeTerm { most } => before_term(grammar, heap, frames, most, token),
        State::AfterOperand {
            most,
            priority,
            operand,
        } => behind(grammar, heap, frames, most, priority, operand, token),
        State::AfterName { name, most } => after_name(grammar, heap, frames, name, most, token),
        State::AfterFunctor { name, most } => after_functor(heap, frames, name, most, token),
        State::AfterMinus { most } => after_minus(heap, frames, most, token),
        State::AfterOpenList { most } => after_open_list(grammar, heap, frames, most, token),
        State::AfterOpenCurly { most } => after_open_curly(grammar, heap, frames, most, token),
        State::Whole { .. } => Ok(None),
    }
}
