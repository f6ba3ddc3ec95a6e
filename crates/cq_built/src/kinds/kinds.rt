// The kinds of terms of a heap, read through bindings. None of them depends on the texts of the names.

ghost use Rattle.std.specs.Prelude.{◌≡◌, ◌<◌, List, length};
ghost use Rattle.spec_numbers.specs.Texts.{Text};
ghost use Rattle.spec_builtins.specs.Kinds.{is_variable, is_name, is_number, is_integer, is_compound, is_callable, is_below_zero, natural_of, natural_or_zero};
ghost use Rattle.cq_term.specs.Trees.{tree};

use cq_term::{Heap, TermId, View};

/// Whether a term is an unbound variable.
pub fn is_variable(heap: &Heap, id: TermId) -> bool
    requires { id < length heap.now.now.terms }
    ensures { (texts : List Text) → result ≡ is_variable (tree texts heap.now.now.terms id) }
{
    match heap.view(id) {
        View::Var(_) => true,
        _ => false,
    }
}

/// Whether a term is an atom.
pub fn is_name(heap: &Heap, id: TermId) -> bool
    requires { id < length heap.now.now.terms }
    ensures { (texts : List Text) → result ≡ is_name (tree texts heap.now.now.terms id) }
{
    match heap.view(id) {
        View::Name(_) => true,
        _ => false,
    }
}

/// Whether a term is a number.
pub fn is_number(heap: &Heap, id: TermId) -> bool
    requires { id < length heap.now.now.terms }
    ensures { (texts : List Text) → result ≡ is_number (tree texts heap.now.now.terms id) }
{
    match heap.view(id) {
        View::Number(_) => true,
        _ => false,
    }
}

/// Whether a term is a whole number.
pub fn is_integer(heap: &Heap, id: TermId) -> bool
    requires { id < length heap.now.now.terms }
    ensures { (texts : List Text) → result ≡ is_integer (tree texts heap.now.now.terms id) }
{
    match heap.view(id) {
        View::Number(number) => number.parts().1 == 1,
        _ => false,
    }
}

/// Whether a term is a compound.
pub fn is_compound(heap: &Heap, id: TermId) -> bool
    requires { id < length heap.now.now.terms }
    ensures { (texts : List Text) → result ≡ is_compound (tree texts heap.now.now.terms id) }
{
    match heap.view(id) {
        View::Compound(_, _) => true,
        _ => false,
    }
}

/// Whether a term is an atom or a compound.
pub fn is_callable(heap: &Heap, id: TermId) -> bool
    requires { id < length heap.now.now.terms }
    ensures { (texts : List Text) → result ≡ is_callable (tree texts heap.now.now.terms id) }
{
    match heap.view(id) {
        View::Name(_) => true,
        View::Compound(_, _) => true,
        _ => false,
    }
}

/// Whether a term is a number below zero.
pub fn is_below_zero(heap: &Heap, id: TermId) -> bool
    requires { id < length heap.now.now.terms }
    ensures { (texts : List Text) → result ≡ is_below_zero (tree texts heap.now.now.terms id) }
{
    match heap.view(id) {
        View::Number(number) => number.parts().0 < 0,
        _ => false,
    }
}

/// The natural number that a term is. Of a fraction it is the numerator, and of every other term, a negative number
/// too, it is 0.
pub fn natural_of(heap: &Heap, id: TermId) -> u128
    requires { id < length heap.now.now.terms }
    ensures { (texts : List Text) → result ≡ natural_of (tree texts heap.now.now.terms id) }
{
    match heap.view(id) {
        View::Number(number) => natural(number.parts().0),
        _ => 0,
    }
}

/// A whole number, or 0 where it is negative.
fn natural(numerator: i128) -> u128
    ensures { result ≡ natural_or_zero numerator }
{
    if numerator < 0 { 0 } else { numerator as u128 }
}
