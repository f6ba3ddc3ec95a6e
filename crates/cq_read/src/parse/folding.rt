// An operand that is put into the frame that waits for it.

ghost use Rattle.std.specs.Prelude.{◌≡◌, ◌<◌, ◌∷◌, ℕ, List, All, length, vec_len, IfOk, OnOk};
ghost use Rattle.spec_numbers.specs.Texts.{Text};
ghost use Rattle.cq_term.specs.Texts.{text_of};
ghost use Rattle.spec_syntax.specs.Operators.{Ops as OpsOfTexts};
ghost use Rattle.spec_syntax.specs.Grammar.{Outside};
ghost use Rattle.spec_syntax.specs.Machine.{after_operand, end_group, end_curly, end_argument, end_element, end_tail};
ghost use Rattle.cq_term.specs.Trees.{tree, KnowsTerms};
ghost use Rattle.cq_read.specs.Views.{OnlyGrows, trees, token_of, frame_of, frames_of, state_or_none, LeadsTo};
ghost use Rattle.cq_read.specs.Views.{IsLiveFrame, AreLive, IsLiveOrNone, Folds, IsLiveFolded, NoMoreFrames};
ghost use Rattle.cq_read.specs.Known.{AreGrammarNames, IsKnown, KnowsOrNone, KnowsFolded, KnowsFrame, KnowsNames};
ghost use Rattle.cq_term.specs.Meaning.{HeapTerm};

use crate::parse::building::{atom, compound, list};
use crate::parse::frames::{Frame, State};
use crate::parse::names::GrammarNames;
use crate::parse::tokens::Token;
use cq_term::atoms::Atom;
use cq_term::{Heap, TermId};
use std::alloc::AllocError;

/// What becomes of an operand.
#[derive(Clone, Copy)]
pub enum Folded {
    /// An operand of the term around it.
    Operand {
        most: u16,
        priority: u16,
        operand: TermId,
    },
    /// The token was used, or is refused.
    Done(Option<State>),
}

/// `)` or `,` behind an argument.
fn end_argument(
    heap: &mut Heap,
    frames: &mut Vec<Frame>,
    name: Atom,
    before: Vec<TermId>,
    most: u16,
    operand: TermId,
    token: &Token,
) -> Result<Option<State>, AllocError>
    requires frames { AreLive (length heap.old.now.terms) frames.old.items }
    requires before { All (λ id. id < length heap.old.now.terms) before.items }
    requires operand { operand < length heap.old.now.terms }
    ensures step { (ops : OpsOfTexts) (texts : List Text) → let ts = heap.old.now.terms in LeadsTo texts heap.new.now.terms frames.new.items result
        (end_argument ops (text_of texts name) (trees texts ts before.items) most (tree texts ts operand) (frames_of texts ts frames.old.items)
        (token_of texts token.now)) }
    ensures frames { OnOk result (AreLive (length heap.new.now.terms) frames.new.items) }
    ensures known { (texts : List Text) → IfOk result (KnowsOrNone texts) }
    ensures names { (texts : List Text) → IsKnown texts name → KnowsNames texts heap.old.now.terms frames.old.items
        → OnOk result (KnowsNames texts heap.new.now.terms frames.new.items) }
    ensures state { IfOk result (IsLiveOrNone (length heap.new.now.terms)) }
    ensures heap { OnlyGrows heap.old heap.new }
{
    let mut args = before;
    args.push(operand)?;
    match token {
        Token::Close => {
            let whole = compound(heap, name, &args)?;
            Ok(Some(State::AfterOperand {
                most,
                priority: 0,
                operand: whole,
            }))
        }
        Token::Comma => {
            frames.push(Frame::InArguments {
                name,
                before: args,
                most,
            })?;
            Ok(Some(State::BeforeTerm { most: 999 }))
        }
        _ => Ok(None),
    }
}

/// `]`, `,` or `|` behind an element of a list.
fn end_element(
    heap: &mut Heap,
    names: &GrammarNames,
    frames: &mut Vec<Frame>,
    before: Vec<TermId>,
    most: u16,
    operand: TermId,
    token: &Token,
) -> Result<Option<State>, AllocError>
    requires frames { AreLive (length heap.old.now.terms) frames.old.items }
    requires before { All (λ id. id < length heap.old.now.terms) before.items }
    requires operand { operand < length heap.old.now.terms }
    ensures step { (ops : OpsOfTexts) (texts : List Text) → AreGrammarNames texts names.now → let ts = heap.old.now.terms in
        LeadsTo texts heap.new.now.terms frames.new.items result
        (end_element ops (trees texts ts before.items) most (tree texts ts operand) (frames_of texts ts frames.old.items) (token_of texts token.now)) }
    ensures frames { OnOk result (AreLive (length heap.new.now.terms) frames.new.items) }
    ensures known { (texts : List Text) → IfOk result (KnowsOrNone texts) }
    ensures names { (texts : List Text) → AreGrammarNames texts names.now → KnowsNames texts heap.old.now.terms frames.old.items
        → OnOk result (KnowsNames texts heap.new.now.terms frames.new.items) }
    ensures state { IfOk result (IsLiveOrNone (length heap.new.now.terms)) }
    ensures heap { OnlyGrows heap.old heap.new }
{
    let mut elements = before;
    elements.push(operand)?;
    match token {
        Token::CloseList => {
            let nil = atom(heap, names.nil)?;
            let whole = list(heap, names, elements, nil)?;
            Ok(Some(State::AfterOperand {
                most,
                priority: 0,
                operand: whole,
            }))
        }
        Token::Comma => {
            frames.push(Frame::InElements {
                before: elements,
                most,
            })?;
            Ok(Some(State::BeforeTerm { most: 999 }))
        }
        Token::Bar => {
            frames.push(Frame::InTail {
                before: elements,
                most,
            })?;
            Ok(Some(State::BeforeTerm { most: 999 }))
        }
        _ => Ok(None),
    }
}

/// `]` behind the tail of a list.
fn end_tail(
    heap: &mut Heap,
    names: &GrammarNames,
    before: Vec<TermId>,
    most: u16,
    operand: TermId,
    token: &Token,
) -> Result<Option<State>, AllocError>
    requires before { All (λ id. id < length heap.old.now.terms) before.items }
    requires operand { operand < length heap.old.now.terms }
    ensures step { (ops : OpsOfTexts) (texts : List Text) (frames : List Frame) → AreGrammarNames texts names.now → AreLive (length heap.old.now.terms) frames
        → let ts = heap.old.now.terms in LeadsTo texts heap.new.now.terms frames result
        (end_tail ops (trees texts ts before.items) most (tree texts ts operand) (frames_of texts ts frames) (token_of texts token.now)) }
    ensures known { (texts : List Text) → IfOk result (KnowsOrNone texts) }
    ensures names { (texts : List Text) → AreGrammarNames texts names.now → KnowsTerms texts heap.old.now.terms
        → OnOk result (KnowsTerms texts heap.new.now.terms) }
    ensures state { IfOk result (IsLiveOrNone (length heap.new.now.terms)) }
    ensures heap { OnlyGrows heap.old heap.new }
{
    match token {
        Token::CloseList => {
            let whole = list(heap, names, before, operand)?;
            Ok(Some(State::AfterOperand {
                most,
                priority: 0,
                operand: whole,
            }))
        }
        _ => Ok(None),
    }
}

/// `}` behind the term in braces.
fn end_curly(
    heap: &mut Heap,
    names: &GrammarNames,
    most: u16,
    operand: TermId,
    token: &Token,
) -> Result<Option<State>, AllocError>
    requires operand { operand < length heap.old.now.terms }
    ensures step { (ops : OpsOfTexts) (texts : List Text) (frames : List Frame) → AreGrammarNames texts names.now → AreLive (length heap.old.now.terms) frames
        → LeadsTo texts heap.new.now.terms frames result
        (end_curly ops most (tree texts heap.old.now.terms operand) (frames_of texts heap.old.now.terms frames) (token_of texts token.now)) }
    ensures known { (texts : List Text) → IfOk result (KnowsOrNone texts) }
    ensures names { (texts : List Text) → AreGrammarNames texts names.now → KnowsTerms texts heap.old.now.terms
        → OnOk result (KnowsTerms texts heap.new.now.terms) }
    ensures state { IfOk result (IsLiveOrNone (length heap.new.now.terms)) }
    ensures heap { OnlyGrows heap.old heap.new }
{
    match token {
        Token::CloseCurly => {
            let whole = compound(heap, names.curly, &[operand])?;
            Ok(Some(State::AfterOperand {
                most,
                priority: 0,
                operand: whole,
            }))
        }
        _ => Ok(None),
    }
}

/// `)` behind the term in parentheses.
fn end_group(most: u16, operand: TermId, token: &Token) -> Option<State>
    ensures step { (ops : OpsOfTexts) (texts : List Text) (ts : List HeapTerm) (frames : List Frame) → state_or_none texts ts frames result
        ≡ end_group ops most (tree texts ts operand) (frames_of texts ts frames) (token_of texts token.now) }
    ensures known { (texts : List Text) → KnowsOrNone texts result }
    ensures state { (n : ℕ) → operand < n → IsLiveOrNone n result }
{
    match token {
        Token::Close => Some(State::AfterOperand {
            most,
            priority: 0,
            operand,
        }),
        _ => None,
    }
}

/// Puts an operand at which its term ends into the frame that waits for it.
pub fn fold(
    heap: &mut Heap,
    names: &GrammarNames,
    frames: &mut Vec<Frame>,
    frame: Frame,
    operand: TermId,
    token: &Token,
) -> Result<Folded, AllocError>
    requires frames { AreLive (length heap.old.now.terms) frames.old.items }
    requires frame { IsLiveFrame (length heap.old.now.terms) frame }
    requires operand { operand < length heap.old.now.terms }
    ensures folds { (ops : OpsOfTexts) (texts : List Text) (m : ℕ) → AreGrammarNames texts names.now → let ts = heap.old.now.terms in
        let next = token_of texts token.now in IfOk result (Folds ops texts heap.new.now.terms frames.new.items next
        (after_operand ops (frame_of texts ts frame ∷ frames_of texts ts frames.old.items) m (tree texts ts operand) next Outside)) }
    ensures frames { OnOk result (AreLive (length heap.new.now.terms) frames.new.items) }
    ensures known { (texts : List Text) → IfOk result (KnowsFolded texts) }
    ensures names { (texts : List Text) → AreGrammarNames texts names.now → KnowsFrame texts frame → KnowsNames texts heap.old.now.terms frames.old.items
        → OnOk result (KnowsNames texts heap.new.now.terms frames.new.items) }
    ensures folded { IfOk result (IsLiveFolded (length heap.new.now.terms)) }
    ensures fewer { IfOk result (NoMoreFrames (vec_len frames.old) (vec_len frames.new)) }
    ensures heap { OnlyGrows heap.old heap.new }
{
    match frame {
        Frame::RightOf {
            name,
            left,
            op,
            most,
        } => {
            let operand = compound(heap, name, &[left, operand])?;
            Ok(Folded::Operand {
                most,
                priority: op.priority,
                operand,
            })
        }
        Frame::OperandOf { name, op, most } => {
            let operand = compound(heap, name, &[operand])?;
            Ok(Folded::Operand {
                most,
                priority: op.priority,
                operand,
            })
        }
        Frame::InGroup { most } => Ok(Folded::Done(end_group(most, operand, token))),
        Frame::InCurly { most } => {
            Ok(Folded::Done(end_curly(heap, names, most, operand, token)?))
        }
        Frame::InArguments { name, before, most } => Ok(Folded::Done(end_argument(
            heap, frames, name, before, most, operand, token,
        )?)),
        Frame::InElements { before, most } => Ok(Folded::Done(end_element(
            heap, names, frames, before, most, operand, token,
        )?)),
        Frame::InTail { before, most } => Ok(Folded::Done(end_tail(
            heap, names, before, most, operand, token,
        )?)),
    }
}
