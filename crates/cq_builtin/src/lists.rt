// =..: a term and the list of its name and its arguments.

ghost use Rattle.std.specs.Prelude.{◌≡◌, ℕ, ◌<◌, ◌∷◌, map, length, All, IfOk, IfErr, OnErr};
ghost use Rattle.spec_terms.specs.Term.{Var};
ghost use Rattle.spec_builtins.specs.Built.{atom};
ghost use Rattle.cq_term.specs.Meaning.{at};
ghost use Rattle.cq_term.specs.Shown.{view_of, arguments};
ghost use Rattle.cq_term.specs.declared.view.View.TheVariants.{Compound};
ghost use Rattle.cq_term.specs.Pairs.{IsLive};
ghost use Rattle.cq_term.specs.Trees.{tree, KnowsTerms};
ghost use Rattle.cq_built.specs.Growing.{Grows};
ghost use Rattle.cq_built.specs.Errors.{Explains, CanBeRaised};
ghost use Rattle.cq_built.specs.Offered.{equation_of};
ghost use Rattle.cq_builtin.specs.Terms.{OffersPair, univ_of, univ_built_of, list_of_one};

use cq_built::kinds::{is_nil, is_variable, list_parts};
use cq_built::{BuiltinError, BuiltinFault, Culprit, ValidDomain, ValidType, list as list_of};
use cq_term::atoms::Atoms;
use cq_term::walk::Pair;
use cq_term::{Atom, Heap, TermId, View};
use cq_trail::Undo;
use std::alloc::AllocError;

/// TERM =.. LIST: the pair that is to be unified. After a fault the heap is as it was; names may stay.
pub fn univ(
    heap: &mut Heap,
    atoms: &mut Atoms,
    term: TermId,
    list: TermId,
) -> Result<Pair, BuiltinFault>
    requires term { term < length heap.old.now.terms }
    requires list { list < length heap.old.now.terms }
    requires names { KnowsTerms atoms.old heap.old.now.terms }
    ensures offered { IfOk result (OffersPair atoms.new heap.new.now.terms (univ_of atoms.old heap.old.now.terms term list)) }
    ensures live { IfOk result (IsLive heap.new.now.terms) }
    ensures fault { IfErr result (Explains atoms.old heap.old.now.terms (univ_of atoms.old heap.old.now.terms term list)) }
    ensures culprit { IfErr result (CanBeRaised atoms.old heap.old.now.terms) }
    ensures grows { Grows atoms.old heap.old atoms.new heap.new }
    ensures err { OnErr result (heap.new.now ≡ heap.old.now) }
{
    let m = heap.mark()?;
    match related(heap, atoms, term, list) {
        Ok(pair) => {
            heap.forget(m);
            Ok(pair)
        }
        Err(fault) => {
            heap.undo(m);
            Err(fault)
        }
    }
}

/// The same, where want of memory may leave parts of the terms on the heap.
fn related(
    heap: &mut Heap,
    atoms: &mut Atoms,
    term: TermId,
    list: TermId,
) -> Result<Pair, BuiltinFault>
    requires term { term < length heap.old.now.terms }
    requires list { list < length heap.old.now.terms }
    requires names { KnowsTerms atoms.old heap.old.now.terms }
    ensures offered { IfOk result (OffersPair atoms.new heap.new.now.terms (univ_of atoms.old heap.old.now.terms term list)) }
    ensures live { IfOk result (IsLive heap.new.now.terms) }
    ensures fault { IfErr result (Explains atoms.old heap.old.now.terms (univ_of atoms.old heap.old.now.terms term list)) }
    ensures culprit { IfErr result (CanBeRaised atoms.old heap.old.now.terms) }
    ensures grows { Grows atoms.old heap.old atoms.new heap.new }
{
    match heap.view(term) {
        View::Var(_) => from_list(heap, atoms, term, list),
        View::Compound(name, _) => taken_apart(heap, atoms, term, name, list),
        View::Number(_) => alone(heap, atoms, term, list),
        View::Name(_) => alone(heap, atoms, term, list),
    }
}

/// The list with a term alone in it.
fn alone(
    heap: &mut Heap,
    atoms: &mut Atoms,
    term: TermId,
    list: TermId,
) -> Result<Pair, BuiltinFault>
    requires term { term < length heap.old.now.terms }
    requires list { list < length heap.old.now.terms }
    requires names { KnowsTerms atoms.old heap.old.now.terms }
    ensures offered { IfOk result (λ p. list_of_one atoms.old heap.old.now.terms list term ≡ equation_of atoms.new heap.new.now.terms p) }
    ensures live { IfOk result (IsLive heap.new.now.terms) }
    ensures fault { IfErr result (λ f. f ≡ BuiltinFault.NoMemory) }
    ensures grows { Grows atoms.old heap.old atoms.new heap.new }
{
    let right = list_of(heap, atoms, &[term])?;
    Ok(Pair { left: list, right })
}

/// The list with the name and the arguments of a compound.
fn taken_apart(
    heap: &mut Heap,
    atoms: &mut Atoms,
    term: TermId,
    name: Atom,
    list: TermId,
) -> Result<Pair, BuiltinFault>
    requires term { term < length heap.old.now.terms }
    requires list { list < length heap.old.now.terms }
    requires names { KnowsTerms atoms.old heap.old.now.terms }
    requires shown { (count : ℕ) × (view_of (at heap.old.now.terms term) ≡ Compound name count) }
    ensures offered { IfOk result (OffersPair atoms.new heap.new.now.terms (univ_of atoms.old heap.old.now.terms term list)) }
    ensures live { IfOk result (IsLive heap.new.now.terms) }
    ensures fault { IfErr result (λ f. f ≡ BuiltinFault.NoMemory) }
    ensures grows { Grows atoms.old heap.old atoms.new heap.new }
{
    let first = heap.atom(name)?;
    let elements = with_arguments(heap, first, term)?;
    let right = list_of(heap, atoms, &elements)?;
    Ok(Pair { left: list, right })
}

/// A term before the arguments of another.
fn with_arguments(heap: &Heap, first: TermId, term: TermId) -> Result<Vec<TermId>, AllocError>
    requires first { first < length heap.now.now.terms }
    requires term { term < length heap.now.now.terms }
    ensures live { IfOk result (λ ids. All (λ id. id < length heap.now.now.terms) ids.items) }
    ensures terms { IfOk result (λ ids. map (at heap.now.now.terms) ids.items ≡ at heap.now.now.terms first ∷ arguments (at heap.now.now.terms term)) }
{
    let mut ids = vec![in heap.alloc(); first]?;
    ids.extend_from_slice(heap.args(term))?;
    Ok(ids)
}

/// The term of a list, where the other side is unbound.
fn from_list(
    heap: &mut Heap,
    atoms: &Atoms,
    term: TermId,
    list: TermId,
) -> Result<Pair, BuiltinFault>
    requires term { term < length heap.old.now.terms }
    requires list { list < length heap.old.now.terms }
    requires names { KnowsTerms atoms.now heap.old.now.terms }
    requires unbound { (v : ℕ) × (at heap.old.now.terms term ≡ Var v) }
    ensures offered { IfOk result (OffersPair atoms.now heap.new.now.terms (univ_of atoms.now heap.old.now.terms term list)) }
    ensures live { IfOk result (IsLive heap.new.now.terms) }
    ensures fault { IfErr result (Explains atoms.now heap.old.now.terms (univ_of atoms.now heap.old.now.terms term list)) }
    ensures culprit { IfErr result (CanBeRaised atoms.now heap.old.now.terms) }
    ensures grows { Grows atoms.now heap.old atoms.now heap.new }
{
    let parts = list_parts(heap, atoms, list)?;
    if is_variable(heap, parts.tail) {
        return Err(BuiltinFault::Error(BuiltinError::Instantiation));
    }
    if is_nil(heap, atoms, parts.tail) {
        from_elements(heap, atoms, term, &parts.elements, parts.tail)
    } else {
        Err(wrong_type(ValidType::List, list))
    }
}

/// A term of another type than is wanted.
fn wrong_type(wanted: ValidType, term: TermId) -> BuiltinFault
    ensures { result ≡ BuiltinFault.Error (BuiltinError.Type wanted (Culprit.Term term)) }
{
    BuiltinFault::Error(BuiltinError::Type(wanted, Culprit::Term(term)))
}

/// The term of the elements of a list, of which the first is its name; `nil` is the empty list.
fn from_elements(
    heap: &mut Heap,
    atoms: &Atoms,
    term: TermId,
    elements: &[TermId],
    nil: TermId,
) -> Result<Pair, BuiltinFault>
    requires term { term < length heap.old.now.terms }
    requires elements { All (λ id. id < length heap.old.now.terms) elements.now }
    requires nil { nil < length heap.old.now.terms }
    requires empty { tree atoms.now heap.old.now.terms nil ≡ atom "[]" }
    requires names { KnowsTerms atoms.now heap.old.now.terms }
    ensures offered { IfOk result (OffersPair atoms.now heap.new.now.terms (univ_built_of atoms.now heap.old.now.terms term elements.now)) }
    ensures live { IfOk result (IsLive heap.new.now.terms) }
    ensures fault { IfErr result (Explains atoms.now heap.old.now.terms (univ_built_of atoms.now heap.old.now.terms term elements.now)) }
    ensures culprit { IfErr result (CanBeRaised atoms.now heap.old.now.terms) }
    ensures grows { Grows atoms.now heap.old atoms.now heap.new }
{
    if elements.is_empty() {
        return Err(BuiltinFault::Error(BuiltinError::Domain(
            ValidDomain::NonEmptyList,
            Culprit::Term(nil),
        )));
    }
    from_first(heap, atoms, term, elements[0], &elements[1..])
}

/// The term of a first element and those behind it.
fn from_first(
    heap: &mut Heap,
    atoms: &Atoms,
    term: TermId,
    first: TermId,
    rest: &[TermId],
) -> Result<Pair, BuiltinFault>
    requires term { term < length heap.old.now.terms }
    requires first { first < length heap.old.now.terms }
    requires rest { All (λ id. id < length heap.old.now.terms) rest.now }
    requires names { KnowsTerms atoms.now heap.old.now.terms }
    ensures offered { IfOk result (OffersPair atoms.now heap.new.now.terms (univ_built_of atoms.now heap.old.now.terms term (first ∷ rest.now))) }
    ensures live { IfOk result (IsLive heap.new.now.terms) }
    ensures fault { IfErr result (Explains atoms.now heap.old.now.terms (univ_built_of atoms.now heap.old.now.terms term (first ∷ rest.now))) }
    ensures culprit { IfErr result (CanBeRaised atoms.now heap.old.now.terms) }
    ensures grows { Grows atoms.now heap.old atoms.now heap.new }
{
    if rest.is_empty() {
        match heap.view(first) {
            View::Var(_) => Err(BuiltinFault::Error(BuiltinError::Instantiation)),
            View::Compound(_, _) => Err(wrong_type(ValidType::Atomic, first)),
            View::Number(_) => Ok(Pair {
                left: term,
                right: first,
            }),
            View::Name(_) => Ok(Pair {
                left: term,
                right: first,
            }),
        }
    } else {
        match heap.view(first) {
            View::Var(_) => Err(BuiltinFault::Error(BuiltinError::Instantiation)),
            View::Compound(_, _) => Err(wrong_type(ValidType::Atom, first)),
            View::Number(_) => Err(wrong_type(ValidType::Atom, first)),
            View::Name(name) => {
                let right = heap.compound(name, rest)?;
                Ok(Pair { left: term, right })
            }
        }
    }
}
