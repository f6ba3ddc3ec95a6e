// Compounds of one argument, of three and of several, and the predicates of terms.

ghost use Rattle.std.specs.Prelude.{◌≡◌, ◌<◌, List, false, length, option_map, IfSome, IsNone};
ghost use Rattle.spec_numbers.specs.Texts.{Text};
ghost use Rattle.cq_term.specs.Meaning.{at};
ghost use Rattle.cq_term.specs.Trees.{tree, KnowsTerms};
ghost use Rattle.cq_built.specs.Errors.{indicator_of};
ghost use Rattle.cq_lint.specs.Goals.{predicate_of};
ghost use Rattle.cq_lint.specs.Shapes.{HasMany, HasOnly, HasThree, is_many, is_ternary, is_unary};

use cq_term::{Atom, Heap, Pred, TermId, View};

/// The name and the argument of a compound that has one.
#[derive(Clone, Copy)]
pub struct Only {
    pub name: Atom,
    pub argument: TermId,
}

/// The name and the arguments of a compound that has three.
#[derive(Clone, Copy)]
pub struct Three {
    pub name: Atom,
    pub first: TermId,
    pub second: TermId,
    pub third: TermId,
}

/// The name and the first argument of a compound that has more.
#[derive(Clone, Copy)]
pub struct Many {
    pub name: Atom,
    pub first: TermId,
    /// How many stand behind the first.
    pub more: usize,
}

/// The only argument of a term; None where it is no compound of one argument.
pub fn only_of(heap: &Heap, id: TermId) -> Option<Only>
    requires { id < length heap.now.now.terms }
    ensures some { IfSome result (HasOnly heap.now.now.terms id) }
    ensures none { IsNone result → is_unary (at heap.now.now.terms id) ≡ false }
{
    match heap.view(id) {
        View::Compound(name, arity) => {
            if arity != 1 {
                return None;
            }
            let argument = heap.arg(id, 0);
            Some(Only { name, argument })
        }
        _ => None,
    }
}

/// The three arguments of a term; None where it is no compound of three.
pub fn three_of(heap: &Heap, id: TermId) -> Option<Three>
    requires { id < length heap.now.now.terms }
    ensures some { IfSome result (HasThree heap.now.now.terms id) }
    ensures none { IsNone result → is_ternary (at heap.now.now.terms id) ≡ false }
{
    match heap.view(id) {
        View::Compound(name, arity) => {
            if arity != 3 {
                return None;
            }
            let first = heap.arg(id, 0);
            let second = heap.arg(id, 1);
            let third = heap.arg(id, 2);
            Some(Three {
                name,
                first,
                second,
                third,
            })
        }
        _ => None,
    }
}

/// The first of several arguments of a term; None where it is no compound of two or more.
pub fn many_of(heap: &Heap, id: TermId) -> Option<Many>
    requires { id < length heap.now.now.terms }
    ensures some { IfSome result (HasMany heap.now.now.terms id) }
    ensures none { IsNone result → is_many (at heap.now.now.terms id) ≡ false }
{
    match heap.view(id) {
        View::Compound(name, arity) => {
            if arity < 2 {
                return None;
            }
            let first = heap.arg(id, 0);
            Some(Many {
                name,
                first,
                more: arity - 1,
            })
        }
        _ => None,
    }
}

/// The predicate of a goal or a head; a variable and a number have none.
pub fn pred_of(heap: &Heap, id: TermId) -> Option<Pred>
    requires { id < length heap.now.now.terms }
    ensures predicate { (texts : List Text) → option_map (indicator_of texts) result ≡ predicate_of (tree texts heap.now.now.terms id) }
    ensures known { (texts : List Text) → KnowsTerms texts heap.now.now.terms → IfSome result (λ p. p.name < length texts) }
{
    match heap.view(id) {
        View::Name(name) => Some(Pred { name, arity: 0 }),
        View::Compound(name, arity) => Some(Pred { name, arity }),
        _ => None,
    }
}
