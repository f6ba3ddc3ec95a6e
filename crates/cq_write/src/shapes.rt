//! How a term is built, by its kind and its first arguments.

ghost use Rattle.std.specs.Prelude.{◌≡◌, ◌<◌, length, slice_get, Some};
ghost use Rattle.cq_term.specs.Shown.{arguments, view_of};
ghost use Rattle.cq_write.specs.Work.{HasShape, IsTail, IsKnown, at_id};
ghost use Rattle.cq_write.specs.Settings.{setting};

use crate::writer::Writer;
use cq_frac::{Frac, VarId};
use cq_term::atoms::Atom;
use cq_term::{TermId, View};

/// The head of a term, and its arguments where they are one or two.
#[derive(Clone, Copy)]
pub(crate) enum Shape {
    Variable(VarId),
    Number(Frac),
    Name(Atom),
    Unary(Atom, TermId),
    Binary(Atom, TermId, TermId),
    /// A name over three arguments or more.
    Many(Atom),
}

/// What a term is behind the first elements of a list.
#[derive(Clone, Copy)]
pub(crate) enum Tail {
    End,
    /// One more element, and what is behind it.
    Cell(TermId, TermId),
    Other,
}

impl Writer<'_> {
    pub(crate) fn shape(&self, term: TermId) -> Shape
        requires { IsKnown (setting self.now) term }
        ensures { HasShape (setting self.now) (at_id (setting self.now) term) result }
    {
        match self.heap.view(term) {
            View::Var(variable) => Shape::Variable(variable),
            View::Number(number) => Shape::Number(number),
            View::Name(name) => Shape::Name(name),
            View::Compound(name, arity) => self.compound_shape(term, name, arity),
        }
    }

    fn compound_shape(&self, term: TermId, name: Atom, arity: usize) -> Shape
        requires known { IsKnown (setting self.now) term }
        requires shown { view_of (at_id (setting self.now) term) ≡ View.Compound name arity }
        ensures { HasShape (setting self.now) (at_id (setting self.now) term) result }
    {
        if arity == 1 {
            Shape::Unary(name, self.argument(term, 0))
        } else if arity == 2 {
            Shape::Binary(name, self.argument(term, 0), self.argument(term, 1))
        } else {
            Shape::Many(name)
        }
    }

    pub(crate) fn tail(&self, term: TermId) -> Tail
        requires { IsKnown (setting self.now) term }
        ensures { IsTail (setting self.now) (at_id (setting self.now) term) result }
    {
        match self.shape(term) {
            Shape::Name(name) => {
                if self.atoms.text(name) == "[]" {
                    Tail::End
                } else {
                    Tail::Other
                }
            }
            Shape::Binary(name, element, rest) => {
                if self.atoms.text(name) == "." {
                    Tail::Cell(element, rest)
                } else {
                    Tail::Other
                }
            }
            Shape::Variable(_) | Shape::Number(_) | Shape::Unary(_, _) | Shape::Many(_) => {
                Tail::Other
            }
        }
    }

    /// How many arguments a term has.
    pub(crate) fn arity(&self, term: TermId) -> usize
        requires { IsKnown (setting self.now) term }
        ensures { result ≡ length (arguments (at_id (setting self.now) term)) }
    {
        match self.heap.view(term) {
            View::Compound(_, arity) => arity,
            _ => 0,
        }
    }

    /// An argument of a term, counted from 0.
    pub(crate) fn argument(&self, term: TermId, at: usize) -> TermId
        requires known { IsKnown (setting self.now) term }
        requires within { at < length (arguments (at_id (setting self.now) term)) }
        ensures known { IsKnown (setting self.now) result }
        ensures argument { slice_get (arguments (at_id (setting self.now) term)) at ≡ Some (at_id (setting self.now) result) }
    {
        self.heap.arg(term, at)
    }
}
