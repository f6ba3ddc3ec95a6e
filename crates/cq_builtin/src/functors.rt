// functor: a term with its name and its number of arguments.

ghost use Rattle.std.specs.Prelude.{◌≡◌, ◌<◌, ◌++◌, ℕ, [], ◌∷◌, List, map, length, All, IfOk, IfErr, OnOk, OnErr};
ghost use Rattle.spec_numbers.specs.Texts.{Text};
ghost use Rattle.spec_terms.specs.Term.{Var};
ghost use Rattle.spec_terms.specs.Variables.{counted_from};
ghost use Rattle.cq_term.specs.Texts.{text_of};
ghost use Rattle.cq_term.specs.Meaning.{at};
ghost use Rattle.cq_term.specs.Shown.{view_of};
ghost use Rattle.cq_term.specs.declared.view.View.TheVariants.{Compound};
ghost use Rattle.cq_term.specs.Trees.{tree, KnowsTerms};
ghost use Rattle.cq_unify.specs.Copied.{unbound_from};
ghost use Rattle.cq_resolve.specs.Building.{AreThere};
ghost use Rattle.cq_built.specs.Growing.{Grows};
ghost use Rattle.cq_built.specs.Errors.{Explains, CanBeRaised, HasCulprit};
ghost use Rattle.cq_builtin.specs.Over.{OffersWay, AreLive, GrowsWithVariables, equations_of};
ghost use Rattle.cq_builtin.specs.Functors.{functor_of, names_of, built_of, AsksArity, RefusesArity, open_tree};

use cq_built::kinds::{is_below_zero, is_compound, is_integer, is_name, is_variable, natural_of};
use cq_built::{
    Alternative, BuiltinError, BuiltinFault, Culprit, Representation, ValidDomain, ValidType, whole,
};
use cq_frac::VarId;
use cq_resolve::stored::new_variables;
use cq_term::atoms::Atoms;
use cq_term::walk::Pair;
use cq_term::{Atom, Heap, TermId, View};
use cq_trail::Undo;
use std::alloc::AllocError;

/// How many arguments can be asked for.
const MAX_ARITY: u128 = 1_000_000;

/// functor(TERM,NAME,ARITY): the pairs that are to be unified, of which there are one or two; a term that is made of its name
/// has new variables as its arguments. `atoms` has to know the names in the heap's terms. After a fault the heap is as it was.
pub fn functor(
    heap: &mut Heap,
    atoms: &Atoms,
    term: TermId,
    name: TermId,
    arity: TermId,
) -> Result<Alternative, BuiltinFault>
    requires term { term < length heap.old.now.terms }
    requires name { name < length heap.old.now.terms }
    requires arity { arity < length heap.old.now.terms }
    requires names { KnowsTerms atoms.now heap.old.now.terms }
    ensures offered { IfOk result (OffersWay atoms.now heap.old.now heap.new.now (functor_of atoms.now heap.old.now term name arity)) }
    ensures live { IfOk result (AreLive heap.new.now.terms) }
    ensures fault { IfErr result (Explains atoms.now heap.old.now.terms (functor_of atoms.now heap.old.now term name arity)) }
    ensures culprit { IfErr result (CanBeRaised atoms.now heap.old.now.terms) }
    ensures grows { GrowsWithVariables atoms.now heap.old heap.new }
    ensures err { OnErr result (heap.new.now ≡ heap.old.now) }
{
    let m = heap.mark()?;
    match related(heap, atoms, term, name, arity) {
        Ok(way) => {
            heap.forget(m);
            Ok(way)
        }
        Err(fault) => {
            heap.undo(m);
            Err(fault)
        }
    }
}

/// The same, where want of memory may leave parts of the terms on the heap.
fn related(
    heap: &mut Heap,
    atoms: &Atoms,
    term: TermId,
    name: TermId,
    arity: TermId,
) -> Result<Alternative, BuiltinFault>
    requires term { term < length heap.old.now.terms }
    requires name { name < length heap.old.now.terms }
    requires arity { arity < length heap.old.now.terms }
    requires names { KnowsTerms atoms.now heap.old.now.terms }
    ensures offered { IfOk result (OffersWay atoms.now heap.old.now heap.new.now (functor_of atoms.now heap.old.now term name arity)) }
    ensures live { IfOk result (AreLive heap.new.now.terms) }
    ensures fault { IfErr result (Explains atoms.now heap.old.now.terms (functor_of atoms.now heap.old.now term name arity)) }
    ensures culprit { IfErr result (CanBeRaised atoms.now heap.old.now.terms) }
    ensures grows { GrowsWithVariables atoms.now heap.old heap.new }
{
    match heap.view(term) {
        View::Var(_) => of_unbound(heap, atoms, term, name, arity),
        View::Compound(functor, count) => {
            let way = of_compound(heap, atoms, term, functor, count, name, arity)?;
            Ok(way)
        }
        View::Number(_) => {
            let way = of_constant(heap, atoms, term, name, arity)?;
            Ok(way)
        }
        View::Name(_) => {
            let way = of_constant(heap, atoms, term, name, arity)?;
            Ok(way)
        }
    }
}

/// A number or an atom, which is its own name.
fn of_constant(
    heap: &mut Heap,
    atoms: &Atoms,
    term: TermId,
    name: TermId,
    arity: TermId,
) -> Result<Alternative, AllocError>
    requires term { term < length heap.old.now.terms }
    requires name { name < length heap.old.now.terms }
    requires arity { arity < length heap.old.now.terms }
    requires names { KnowsTerms atoms.now heap.old.now.terms }
    ensures offered { IfOk result (λ a. equations_of atoms.now heap.new.now.terms a ≡ names_of atoms.now heap.old.now.terms name term arity 0) }
    ensures live { IfOk result (AreLive heap.new.now.terms) }
    ensures grows { Grows atoms.now heap.old atoms.now heap.new }
{
    name_and_arity(heap, atoms, name, term, arity, 0)
}

/// A compound, with its name and how many arguments it has.
fn of_compound(
    heap: &mut Heap,
    atoms: &Atoms,
    term: TermId,
    functor: Atom,
    count: usize,
    name: TermId,
    arity: TermId,
) -> Result<Alternative, AllocError>
    requires term { term < length heap.old.now.terms }
    requires name { name < length heap.old.now.terms }
    requires arity { arity < length heap.old.now.terms }
    requires names { KnowsTerms atoms.now heap.old.now.terms }
    requires shown { view_of (at heap.old.now.terms term) ≡ Compound functor count }
    ensures offered { IfOk result (OffersWay atoms.now heap.old.now heap.new.now (functor_of atoms.now heap.old.now term name arity)) }
    ensures live { IfOk result (AreLive heap.new.now.terms) }
    ensures grows { Grows atoms.now heap.old atoms.now heap.new }
{
    let found = heap.atom(functor)?;
    name_and_arity(heap, atoms, name, found, arity, count)
}

/// The name with the one that was found, and the number of arguments with the one that was counted.
fn name_and_arity(
    heap: &mut Heap,
    atoms: &Atoms,
    name: TermId,
    found: TermId,
    arity: TermId,
    count: usize,
) -> Result<Alternative, AllocError>
    requires name { name < length heap.old.now.terms }
    requires found { found < length heap.old.now.terms }
    requires arity { arity < length heap.old.now.terms }
    requires names { KnowsTerms atoms.now heap.old.now.terms }
    ensures offered { IfOk result (λ a. equations_of atoms.now heap.new.now.terms a ≡ names_of atoms.now heap.old.now.terms name found arity count) }
    ensures live { IfOk result (AreLive heap.new.now.terms) }
    ensures grows { Grows atoms.now heap.old atoms.now heap.new }
{
    let counted = whole(heap, atoms, count)?;
    let names = Pair {
        left: name,
        right: found,
    };
    let arities = Pair {
        left: arity,
        right: counted,
    };
    let pairs = vec![in heap.alloc(); names, arities]?;
    Ok(Alternative { pairs })
}

/// The term of a name and a number of arguments, where the term is unbound.
fn of_unbound(
    heap: &mut Heap,
    atoms: &Atoms,
    term: TermId,
    name: TermId,
    arity: TermId,
) -> Result<Alternative, BuiltinFault>
    requires term { term < length heap.old.now.terms }
    requires name { name < length heap.old.now.terms }
    requires arity { arity < length heap.old.now.terms }
    requires names { KnowsTerms atoms.now heap.old.now.terms }
    requires unbound { (v : ℕ) × (at heap.old.now.terms term ≡ Var v) }
    ensures offered { IfOk result (OffersWay atoms.now heap.old.now heap.new.now (functor_of atoms.now heap.old.now term name arity)) }
    ensures live { IfOk result (AreLive heap.new.now.terms) }
    ensures fault { IfErr result (Explains atoms.now heap.old.now.terms (functor_of atoms.now heap.old.now term name arity)) }
    ensures culprit { IfErr result (CanBeRaised atoms.now heap.old.now.terms) }
    ensures grows { GrowsWithVariables atoms.now heap.old heap.new }
{
    match wanted_arity(heap, name, arity) {
        Ok(count) => {
            let way = built(heap, atoms, term, name, count)?;
            Ok(way)
        }
        Err(error) => Err(BuiltinFault::Error(error)),
    }
}

/// How many arguments are asked for, or the error of the name and the number.
fn wanted_arity(heap: &Heap, name: TermId, arity: TermId) -> Result<usize, BuiltinError>
    requires name { name < length heap.now.now.terms }
    requires arity { arity < length heap.now.now.terms }
    ensures ok { IfOk result (AsksArity heap.now.now.terms name arity) }
    ensures error { IfErr result (RefusesArity heap.now.now.terms name arity) }
    ensures culprit { IfErr result (λ e. (texts : List Text) → HasCulprit texts heap.now.now.terms e) }
{
    if is_variable(heap, name) {
        return Err(BuiltinError::Instantiation);
    }
    if is_variable(heap, arity) {
        return Err(BuiltinError::Instantiation);
    }
    if !is_integer(heap, arity) {
        return Err(BuiltinError::Type(ValidType::Integer, Culprit::Term(arity)));
    }
    if is_below_zero(heap, arity) {
        return Err(BuiltinError::Domain(ValidDomain::NotLessThanZero, Culprit::Term(arity)));
    }
    let count = natural_of(heap, arity);
    if count > MAX_ARITY {
        return Err(BuiltinError::Representation(Representation::MaxArity));
    }
    if is_compound(heap, name) {
        return Err(BuiltinError::Type(ValidType::Atomic, Culprit::Term(name)));
    }
    if count > 0 && !is_name(heap, name) {
        return Err(BuiltinError::Type(ValidType::Atom, Culprit::Term(name)));
    }
    Ok(count as usize)
}

/// The term with the one that is built of a name and so many new variables; what is no name is the term itself.
fn built(
    heap: &mut Heap,
    atoms: &Atoms,
    term: TermId,
    name: TermId,
    count: usize,
) -> Result<Alternative, AllocError>
    requires term { term < length heap.old.now.terms }
    requires name { name < length heap.old.now.terms }
    requires names { KnowsTerms atoms.now heap.old.now.terms }
    ensures offered { IfOk result (OffersWay atoms.now heap.old.now heap.new.now (built_of atoms.now heap.old.now term name count)) }
    ensures live { IfOk result (AreLive heap.new.now.terms) }
    ensures grows { GrowsWithVariables atoms.now heap.old heap.new }
{
    match heap.view(name) {
        View::Name(functor) => {
            let right = over_variables(heap, atoms, functor, count)?;
            alone(heap, term, right)
        }
        _ => alone(heap, term, name),
    }
}

/// One pair.
fn alone(heap: &Heap, left: TermId, right: TermId) -> Result<Alternative, AllocError>
    ensures { IfOk result (λ a. a.pairs.items ≡ record { left = left; right = right } ∷ []) }
{
    let pairs = vec![in heap.alloc(); Pair { left, right }]?;
    Ok(Alternative { pairs })
}

/// A name over so many new variables, in their order; without one the atom.
fn over_variables(
    heap: &mut Heap,
    atoms: &Atoms,
    functor: Atom,
    count: usize,
) -> Result<TermId, AllocError>
    requires functor { functor < length atoms.now }
    ensures live { IfOk result (λ id. id < length heap.new.now.terms) }
    ensures built { IfOk result (λ id. tree atoms.now heap.new.now.terms id ≡ open_tree (text_of atoms.now functor) (length heap.old.now.images) count) }
    ensures images { OnOk result (heap.new.now.images ≡ heap.old.now.images ++ unbound_from (length heap.old.now.images) count) }
    ensures grows { GrowsWithVariables atoms.now heap.old heap.new }
{
    let first = new_variables(heap, count)?;
    let args = variable_terms(heap, first, count)?;
    if args.is_empty() {
        heap.atom(functor)
    } else {
        let id = heap.compound(functor, &args)?;
        Ok(id)
    }
}

/// The terms of so many variables from the first one on.
fn variable_terms(heap: &Heap, first: usize, count: usize) -> Result<Vec<TermId>, AllocError>
    requires { AreThere heap.now.now.images first count }
    ensures live { IfOk result (λ ids. All (λ id. id < length heap.now.now.terms) ids.items) }
    ensures terms { IfOk result (λ ids. map (at heap.now.now.terms) ids.items ≡ map (at heap.now.now.images) (counted_from first count)) }
{
    let mut ids = Vec::new(heap.alloc());
    for i in 0..count {
        ids.push(heap.var_term(VarId(first + i)))?;
    }
    Ok(ids)
}
