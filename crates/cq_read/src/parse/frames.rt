// What the machine keeps of a clause that it is in.

use cq_term::TermId;
use cq_term::atoms::Atom;
use spec_syntax::operators::OpDef;

/// What a term that is being read is for, with the most that the priority of the term around it may be. The frames of a
/// clause stand in a vector, the innermost last; arguments and elements that were read stand in their order.
#[derive(Drop)]
pub enum Frame {
    /// The right operand of an infix operator.
    RightOf {
        name: Atom,
        left: TermId,
        op: OpDef,
        most: u16,
    },
    /// The operand of a prefix operator.
    OperandOf {
        name: Atom,
        op: OpDef,
        most: u16,
    },
    /// The term in parentheses.
    InGroup {
        most: u16,
    },
    /// The term in braces.
    InCurly {
        most: u16,
    },
    /// An argument, behind others.
    InArguments {
        name: Atom,
        before: Vec<TermId>,
        most: u16,
    },
    /// An element of a list, behind others.
    InElements {
        before: Vec<TermId>,
        most: u16,
    },
    /// The tail of a list.
    InTail {
        before: Vec<TermId>,
        most: u16,
    },
}

/// Where the machine stands in the innermost frame, with the most that the priority of the term there may be.
#[derive(Clone, Copy)]
pub enum State {
    /// Where a term begins. A clause begins here, at 1200 and with no frames.
    BeforeTerm {
        most: u16,
    },
    /// Behind an operand of this priority.
    AfterOperand {
        most: u16,
        priority: u16,
        operand: TermId,
    },
    /// Behind a name that may be applied.
    AfterName {
        name: Atom,
        most: u16,
    },
    /// Before the `(` of arguments.
    AfterFunctor {
        name: Atom,
        most: u16,
    },
    /// Before the numeral of a negative number.
    AfterMinus {
        most: u16,
    },
    /// Behind `[`.
    AfterOpenList {
        most: u16,
    },
    /// Behind `{`.
    AfterOpenCurly {
        most: u16,
    },
    /// Behind a whole clause, where every token is refused.
    Whole {
        term: TermId,
    },
}
