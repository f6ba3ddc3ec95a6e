// Terms that are built on the heap.

ghost use Rattle.std.specs.Prelude.{◌≡◌, ◌<◌, [], List, map, pos, chars, length, All, IfOk, OnOk};
ghost use Rattle.spec_numbers.specs.Texts.{Text};
ghost use Rattle.spec_terms.specs.Term.{Number, with_arguments};
ghost use Rattle.spec_syntax.specs.Machine.{with_elements_before};
ghost use Rattle.spec_syntax.specs.Trees.{code_list};
ghost use Rattle.spec_numbers.specs.Rational.{int_ℚ};
ghost use Rattle.cq_term.specs.Meaning.{at};
ghost use Rattle.cq_term.specs.Trees.{tree, KnowsTerms};
ghost use Rattle.cq_read.specs.Views.{OnlyGrows, trees};
ghost use Rattle.cq_read.specs.Known.{AreGrammarNames, IsKnown};

use crate::parse::names::GrammarNames;
use cq_frac::Frac;
use cq_term::atoms::Atom;
use cq_term::{Heap, TermId};
use std::alloc::{AllocError, Global};

/// A name over these terms.
pub fn compound(heap: &mut Heap, name: Atom, args: &[TermId]) -> Result<TermId, AllocError>
    requires some { 0 < length args.now }
    requires live { All (λ i. i < length heap.old.now.terms) args.now }
    ensures live { IfOk result (λ id. id < length heap.new.now.terms) }
    ensures built { IfOk result (λ id. at heap.new.now.terms id ≡ with_arguments name (map (at heap.old.now.terms) args.now)) }
    ensures names { (texts : List Text) → IsKnown texts name → KnowsTerms texts heap.old.now.terms → OnOk result (KnowsTerms texts heap.new.now.terms) }
    ensures heap { OnlyGrows heap.old heap.new }
{
    heap.compound(name, args)
}

/// An atom.
pub fn atom(heap: &mut Heap, name: Atom) -> Result<TermId, AllocError>
    ensures live { IfOk result (λ id. id < length heap.new.now.terms) }
    ensures built { IfOk result (λ id. at heap.new.now.terms id ≡ with_arguments name []) }
    ensures names { (texts : List Text) → IsKnown texts name → KnowsTerms texts heap.old.now.terms → OnOk result (KnowsTerms texts heap.new.now.terms) }
    ensures heap { OnlyGrows heap.old heap.new }
{
    heap.atom(name)
}

/// The list of elements that were read one after another, with a tail.
pub fn list(
    heap: &mut Heap,
    names: &GrammarNames,
    elements: Vec<TermId>,
    tail: TermId,
) -> Result<TermId, AllocError>
    requires elements { All (λ i. i < length heap.old.now.terms) elements.items }
    requires tail { tail < length heap.old.now.terms }
    ensures live { IfOk result (λ id. id < length heap.new.now.terms) }
    ensures list { (texts : List Text) → AreGrammarNames texts names.now → let ts = heap.old.now.terms in
        IfOk result (λ id. tree texts heap.new.now.terms id ≡ with_elements_before (trees texts ts elements.items) (tree texts ts tail)) }
    ensures names { (texts : List Text) → AreGrammarNames texts names.now → KnowsTerms texts heap.old.now.terms
        → OnOk result (KnowsTerms texts heap.new.now.terms) }
    ensures heap { OnlyGrows heap.old heap.new }
{
    let mut left = elements;
    let mut whole = tail;
    while let Some(element) = left.pop() {
        whole = compound(heap, names.dot, &[element, whole])?;
    }
    Ok(whole)
}

/// A number.
pub fn number(heap: &mut Heap, number: Frac) -> Result<TermId, AllocError>
    ensures live { IfOk result (λ id. id < length heap.new.now.terms) }
    ensures built { IfOk result (λ id. at heap.new.now.terms id ≡ Number number) }
    ensures names { (texts : List Text) → KnowsTerms texts heap.old.now.terms → OnOk result (KnowsTerms texts heap.new.now.terms) }
    ensures heap { OnlyGrows heap.old heap.new }
{
    heap.number(number)
}

/// A character's code.
fn code(c: char) -> Frac
    ensures { result ≡ int_ℚ (pos c) }
{
    Frac::from(i64::from(u32::from(c)))
}

/// The characters of a text.
fn characters(alloc: Global, text: &str) -> Result<Vec<char>, AllocError>
    ensures { IfOk result (λ found. found.items ≡ chars text.now) }
{
    text.chars().collect(alloc)
}

/// The list of the codes of a text's characters.
pub fn code_list(heap: &mut Heap, names: &GrammarNames, text: &str) -> Result<TermId, AllocError>
    ensures live { IfOk result (λ id. id < length heap.new.now.terms) }
    ensures list { (texts : List Text) → AreGrammarNames texts names.now → IfOk result (λ id. tree texts heap.new.now.terms id ≡ code_list text.now) }
    ensures names { (texts : List Text) → AreGrammarNames texts names.now → KnowsTerms texts heap.old.now.terms
        → OnOk result (KnowsTerms texts heap.new.now.terms) }
    ensures heap { OnlyGrows heap.old heap.new }
{
    let mut left = characters(heap.alloc(), text)?;
    let mut whole = atom(heap, names.nil)?;
    while let Some(c) = left.pop() {
        let element = number(heap, code(c))?;
        whole = compound(heap, names.dot, &[element, whole])?;
    }
    Ok(whole)
}
