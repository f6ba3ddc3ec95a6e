//! Which operands and arguments stand without parentheses.

ghost use Rattle.std.specs.Prelude.{◌≡◌, ◌<◌, length, IfSome};
ghost use Rattle.cq_term.specs.Texts.{text_of};
ghost use Rattle.spec_syntax.specs.Operators.{left_most as left_most_of, right_most as right_most_of, is_operator as is_operator_of};
ghost use Rattle.spec_syntax.specs.Writing.{unary_operator as unary_operator_of, binary_operator as binary_operator_of, operator_of, priority as priority_of, open_end as open_end_of, is_never_bare as is_never_bare_of, is_bare_right as is_bare_right_of, is_bare_left as is_bare_left_of, is_bare_argument as is_bare_argument_of, is_signed as is_signed_of, is_negative as is_negative_of};
ghost use Rattle.cq_write.specs.Work.{IsKnown, tree};
ghost use Rattle.cq_write.specs.Settings.{setting};

use crate::shapes::Shape;
use crate::writer::Writer;
use cq_frac::Frac;
use cq_term::TermId;
use cq_term::atoms::Atom;
use spec_syntax::operators::{OpDef, OpKind};

/// The most that the priority of an operator's left operand may be.
fn left_most(op: OpDef) -> u16
    ensures { result ≡ left_most_of op }
{
    match op.kind {
        OpKind::Yfx | OpKind::Yf => op.priority,
        OpKind::Xfx | OpKind::Xfy | OpKind::Xf => op.priority.saturating_sub(1),
        OpKind::Fy | OpKind::Fx => 0,
    }
}

/// The most that the priority of its right operand may be.
fn right_most(op: OpDef) -> u16
    ensures { result ≡ right_most_of op }
{
    match op.kind {
        OpKind::Xfy | OpKind::Fy => op.priority,
        OpKind::Xfx | OpKind::Yfx | OpKind::Fx => op.priority.saturating_sub(1),
        OpKind::Xf | OpKind::Yf => 0,
    }
}

pub(crate) fn is_negative(number: Frac) -> bool
    ensures { result ≡ is_negative_of number }
{
    let (numerator, _) = number.parts();
    numerator < 0
}

impl Writer<'_> {
    pub(crate) fn text(&self, name: Atom) -> &str
        requires { name < length self.now.atoms.now }
        ensures { result.now ≡ text_of self.now.atoms.now name }
    {
        self.atoms.text(name)
    }

    pub(crate) fn prefix(&self, name: Atom) -> Option<OpDef>
        requires { name < length self.now.atoms.now }
        ensures { result ≡ (setting self.now).ops.prefix (text_of self.now.atoms.now name) }
    {
        let _text = self.atoms.text(name);
        self.ops.prefix(name)
    }

    pub(crate) fn infix(&self, name: Atom) -> Option<OpDef>
        requires { name < length self.now.atoms.now }
        ensures { result ≡ (setting self.now).ops.infixed (text_of self.now.atoms.now name) }
    {
        let _text = self.atoms.text(name);
        self.ops.infix(name)
    }

    pub(crate) fn postfix(&self, name: Atom) -> Option<OpDef>
        requires { name < length self.now.atoms.now }
        ensures { result ≡ (setting self.now).ops.postfix (text_of self.now.atoms.now name) }
    {
        let _text = self.atoms.text(name);
        self.ops.postfix(name)
    }

    /// The operator as which a name with one argument is written.
    fn unary_operator(&self, name: Atom) -> Option<OpDef>
        requires { name < length self.now.atoms.now }
        ensures { result ≡ unary_operator_of (setting self.now).ops (text_of self.now.atoms.now name) }
    {
        if self.text(name) == "{}" {
            return None;
        }
        match self.prefix(name) {
            Some(op) => Some(op),
            None => self.postfix(name),
        }
    }

    /// The operator as which a name with two arguments is written.
    fn binary_operator(&self, name: Atom) -> Option<OpDef>
        requires { name < length self.now.atoms.now }
        ensures { result ≡ binary_operator_of (setting self.now).ops (text_of self.now.atoms.now name) }
    {
        if self.text(name) == "." {
            None
        } else {
            self.infix(name)
        }
    }

    /// The operator as which a term is written.
    fn operator(&self, term: TermId) -> Option<OpDef>
        requires { IsKnown (setting self.now) term }
        ensures { result ≡ operator_of (setting self.now).ops (tree (setting self.now) term) }
    {
        match self.shape(term) {
            Shape::Unary(name, _) => self.unary_operator(name),
            Shape::Binary(name, _, _) => self.binary_operator(name),
            _ => None,
        }
    }

    /// The priority of a term, 0 where it is no operator's.
    pub(crate) fn priority(&self, term: TermId) -> u16
        requires { IsKnown (setting self.now) term }
        ensures { result ≡ priority_of (setting self.now).ops (tree (setting self.now) term) }
    {
        match self.operator(term) {
            Some(op) => op.priority,
            None => 0,
        }
    }

    /// The most that the priority of the operand at a term's right end may be, or 0.
    fn open_end(&self, term: TermId) -> u16
        requires { IsKnown (setting self.now) term }
        ensures { result ≡ open_end_of (setting self.now).ops (tree (setting self.now) term) }
    {
        match self.operator(term) {
            Some(op) => right_most(op),
            None => 0,
        }
    }

    fn is_operator(&self, name: Atom) -> bool
        requires { name < length self.now.atoms.now }
        ensures { result ≡ is_operator_of (setting self.now).ops (text_of self.now.atoms.now name) }
    {
        self.prefix(name).is_some() || self.infix(name).is_some() || self.postfix(name).is_some()
    }

    /// Whether a term has parentheses as an operand of any operator.
    fn is_never_bare(&self, term: TermId) -> bool
        requires { IsKnown (setting self.now) term }
        ensures { result ≡ is_never_bare_of (setting self.now).ops (tree (setting self.now) term) }
    {
        match self.shape(term) {
            Shape::Name(name) => self.is_operator(name),
            Shape::Number(number) => is_negative(number),
            _ => false,
        }
    }

    /// Whether a term stands bare as the operand behind an operator.
    #[tactic(auto, unfolding(spec_syntax::specs::Writing::is_bare_right))]
    pub(crate) fn is_bare_right(&self, op: OpDef, term: TermId) -> bool
        requires { IsKnown (setting self.now) term }
        ensures { result ≡ is_bare_right_of (setting self.now).ops (right_most_of op) (tree (setting self.now) term) }
    {
        self.priority(term) <= right_most(op) && !self.is_never_bare(term)
    }

    /// Whether a term stands bare as the operand before an operator, which an operand at its own right end must not take.
    #[tactic(auto, unfolding(spec_syntax::specs::Writing::is_bare_left))]
    pub(crate) fn is_bare_left(&self, op: OpDef, term: TermId) -> bool
        requires { IsKnown (setting self.now) term }
        ensures { result ≡ is_bare_left_of (setting self.now).ops op (tree (setting self.now) term) }
    {
        (self.priority(term) <= left_most(op) && self.open_end(term) < op.priority)
            && !self.is_never_bare(term)
    }

    /// Whether a term stands bare as an argument, an element or a tail.
    #[tactic(auto, unfolding(spec_syntax::specs::Writing::is_bare_argument))]
    pub(crate) fn is_bare_argument(&self, term: TermId) -> bool
        requires { IsKnown (setting self.now) term }
        ensures { result ≡ is_bare_argument_of (setting self.now).ops (tree (setting self.now) term) }
    {
        self.priority(term) <= 999
    }

    /// Whether a number stands behind `-`, which would take it as its sign.
    pub(crate) fn is_signed(&self, name: Atom, operand: TermId) -> bool
        requires names { name < length self.now.atoms.now }
        requires known { IsKnown (setting self.now) operand }
        ensures { result ≡ is_signed_of (text_of self.now.atoms.now name) (tree (setting self.now) operand) }
    {
        match self.shape(operand) {
            Shape::Number(_) => self.text(name) == "-",
            _ => false,
        }
    }
}
