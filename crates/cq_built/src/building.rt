// Terms of a heap that are built by the texts of their names.

ghost use Rattle.std.specs.Prelude.{◌≡◌, ◌<◌, All, length, slice_get, Some, IfOk};
ghost use Rattle.spec_numbers.specs.Texts.{Text};
ghost use Rattle.spec_terms.specs.Term.{Name, with_arguments};
ghost use Rattle.spec_syntax.specs.Trees.{natural, list_tree};
ghost use Rattle.cq_term.specs.Trees.{tree, trees, KnowsTerms};
ghost use Rattle.cq_built.specs.Growing.{Grows};
ghost use Rattle.cq_built.specs.Trees.{binary_tree};

use cq_frac::Frac;
use cq_term::atoms::{Atom, Atoms};
use cq_term::{Heap, TermId};
use std::alloc::AllocError;

// An error is want of memory in each of these; names and parts may then stay.

/// An atom.
pub fn atom(heap: &mut Heap, atoms: &mut Atoms, text: &str) -> Result<TermId, AllocError>
    ensures live { IfOk result (λ id. id < length heap.new.now.terms) }
    ensures built { IfOk result (λ id. tree atoms.new heap.new.now.terms id ≡ Name text.now) }
    ensures grows { Grows atoms.old heap.old atoms.new heap.new }
{
    let name = atoms.intern(text)?;
    let id = heap.atom(name)?;
    Ok(id)
}

/// A whole number from 0 on.
pub fn whole(heap: &mut Heap, atoms: &Atoms, number: usize) -> Result<TermId, AllocError>
    ensures live { IfOk result (λ id. id < length heap.new.now.terms) }
    ensures built { IfOk result (λ id. tree atoms.now heap.new.now.terms id ≡ natural number) }
    ensures grows { Grows atoms.now heap.old atoms.now heap.new }
{
    let id = heap.number(Frac::new(number as i128, 1).unwrap())?;
    Ok(id)
}

/// A name over arguments, at least one.
pub fn compound(
    heap: &mut Heap,
    atoms: &mut Atoms,
    text: &str,
    args: &[TermId],
) -> Result<TermId, AllocError>
    requires some { 0 < length args.now }
    requires live { All (λ i. i < length heap.old.now.terms) args.now }
    requires names { KnowsTerms atoms.old heap.old.now.terms }
    ensures live { IfOk result (λ id. id < length heap.new.now.terms) }
    ensures built { IfOk result (λ id. tree atoms.new heap.new.now.terms id ≡ with_arguments text.now (trees atoms.old heap.old.now.terms args.now)) }
    ensures grows { Grows atoms.old heap.old atoms.new heap.new }
{
    let name = atoms.intern(text)?;
    let id = heap.compound(name, args)?;
    Ok(id)
}

/// A name over two arguments.
pub(crate) fn over_two(
    heap: &mut Heap,
    atoms: &mut Atoms,
    text: &str,
    first: TermId,
    second: TermId,
) -> Result<TermId, AllocError>
    requires first { first < length heap.old.now.terms }
    requires second { second < length heap.old.now.terms }
    requires names { KnowsTerms atoms.old heap.old.now.terms }
    ensures live { IfOk result (λ id. id < length heap.new.now.terms) }
    ensures built { IfOk result (λ id. tree atoms.new heap.new.now.terms id ≡ binary_tree atoms.old heap.old.now.terms text.now first second) }
    ensures grows { Grows atoms.old heap.old atoms.new heap.new }
{
    compound(heap, atoms, text, &[first, second])
}

/// A name that is known over two arguments.
fn over_known(
    heap: &mut Heap,
    atoms: &Atoms,
    name: Atom,
    first: TermId,
    second: TermId,
) -> Result<TermId, AllocError>
    requires name { name < length atoms.now }
    requires first { first < length heap.old.now.terms }
    requires second { second < length heap.old.now.terms }
    requires names { KnowsTerms atoms.now heap.old.now.terms }
    ensures live { IfOk result (λ id. id < length heap.new.now.terms) }
    ensures built { IfOk result (λ id. (text : Text) → slice_get atoms.now name ≡ Some text
        → tree atoms.now heap.new.now.terms id ≡ binary_tree atoms.now heap.old.now.terms text first second) }
    ensures grows { Grows atoms.now heap.old atoms.now heap.new }
{
    let id = heap.compound(name, &[first, second])?;
    Ok(id)
}

/// The list of these elements.
pub fn list(heap: &mut Heap, atoms: &mut Atoms, elements: &[TermId]) -> Result<TermId, AllocError>
    requires live { All (λ i. i < length heap.old.now.terms) elements.now }
    requires names { KnowsTerms atoms.old heap.old.now.terms }
    ensures live { IfOk result (λ id. id < length heap.new.now.terms) }
    ensures built { IfOk result (λ id. tree atoms.new heap.new.now.terms id ≡ list_tree (trees atoms.old heap.old.now.terms elements.now)) }
    ensures grows { Grows atoms.old heap.old atoms.new heap.new }
{
    let mut whole = atom(heap, atoms, "[]")?;
    let dot = atoms.intern(".")?;
    for i in (0..elements.len()).rev() {
        whole = over_known(heap, atoms, dot, elements[i], whole)?;
    }
    Ok(whole)
}
