// Declarations of predicates.

ghost use Rattle.std.specs.Prelude.{◌≡◌, ◌<◌, ◌∷◌, [], Bool, List, None, Some, true, false, map, length, All, IfOk, IfErr, IfSome, IsNone, OnOk};
ghost use Rattle.std.specs.List.{list_any};
ghost use Rattle.spec_numbers.specs.Texts.{Text};
ghost use Rattle.spec_syntax.specs.Trees.{Tree};
ghost use Rattle.spec_builtins.specs.Built.{Indicator, is_atom};
ghost use Rattle.spec_builtins.specs.Errors.{or_error};
ghost use Rattle.spec_builtins.specs.Clauses.{declared_terms, declarations, declaration_error, is_joining, is_indicator, is_unbound_indicator, slashed};
ghost use Rattle.cq_term.specs.Trees.{tree, trees, KnowsTerms};
ghost use Rattle.cq_built.specs.Errors.{CanBeRaised, indicator_of};
ghost use Rattle.cq_built.specs.Faults.{IsFound};
ghost use Rattle.cq_built.specs.Splitting.{AreLive, TakesApart};
ghost use Rattle.cq_goals.specs.Declarations.{own_error, built_in_error, indicators_error, is_arity, AreJoined, AreSlashed, IsArity, IsDeclared, AreDeclared};

use cq_built::kinds::{is_below_zero, is_integer, is_nil, is_variable, natural_of};
use cq_built::sides::{Sides, sides_of};
use cq_built::{BuiltinError, BuiltinFault, Culprit, ValidType};
use cq_term::atoms::Atoms;
use cq_term::{Heap, Pred, TermId, View};
use std::alloc::AllocError;

/// The predicates that `dynamic(TERM)` or `discontiguous(TERM)` declares, in order, or the error of the term. Whether one of
/// them is built in, which is an error too, is asked next: `declarations_in_turn` says how.
pub fn check_declaration(
    heap: &Heap,
    atoms: &Atoms,
    term: TermId,
) -> Result<Vec<Pred>, BuiltinFault>
    requires live { term < length heap.now.now.terms }
    requires names { KnowsTerms atoms.now heap.now.now.terms }
    ensures lawful { OnOk result (own_error (tree atoms.now heap.now.now.terms term) ≡ None) }
    ensures declared { IfOk result (λ ps. map (indicator_of atoms.now) ps.items ≡ declarations (tree atoms.now heap.now.now.terms term)) }
    ensures known { IfOk result (λ ps. All (λ p. p.name < length atoms.now) ps.items) }
    ensures fault { IfErr result (IsFound atoms.now heap.now.now.terms (own_error (tree atoms.now heap.now.now.terms term))) }
    ensures culprit { IfErr result (CanBeRaised atoms.now heap.now.now.terms) }
{
    let terms = declared_terms(heap, atoms, term)?;
    if has_unbound(heap, atoms, &terms) {
        return Err(BuiltinFault::Error(BuiltinError::Instantiation));
    }
    match predicates(heap, atoms, &terms) {
        Ok(predicates) => Ok(predicates),
        Err(fault) => Err(fault),
    }
}

/// The error of a declaration is that of its term, or else that of the first of its predicates that is built in.
pub fn declarations_in_turn()
    ensures { (built_in : Indicator → Bool) (t : Tree)
        → declaration_error built_in t ≡ or_error (own_error t) (built_in_error built_in (declarations t)) }
{}

/// The terms that are declared: the parts of a conjunction or a list.
fn declared_terms(heap: &Heap, atoms: &Atoms, term: TermId) -> Result<Vec<TermId>, AllocError>
    requires live { term < length heap.now.now.terms }
    requires names { KnowsTerms atoms.now heap.now.now.terms }
    ensures live { IfOk result (λ ids. AreLive heap.now.now.terms ids.items) }
    ensures terms { IfOk result (λ ids. trees atoms.now heap.now.now.terms ids.items ≡ declared_terms (tree atoms.now heap.now.now.terms term)) }
{
    let mut found = Vec::new(heap.alloc());
    let mut waiting = vec![in heap.alloc(); term]?;
    while let Some(id) = waiting.pop() {
        take_declared(heap, atoms, id, &mut found, &mut waiting)?;
    }
    Ok(found)
}

/// Finds a declared term, or puts the sides of a conjunction or of a list's cell at the end of the terms that wait.
fn take_declared(
    heap: &Heap,
    atoms: &Atoms,
    id: TermId,
    found: &mut Vec<TermId>,
    waiting: &mut Vec<TermId>,
) -> Result<(), AllocError>
    requires live { id < length heap.now.now.terms }
    requires names { KnowsTerms atoms.now heap.now.now.terms }
    ensures { OnOk result (TakesApart declared_terms atoms.now heap.now.now.terms found.old.items waiting.old.items id found.new.items waiting.new.items) }
{
    if is_nil(heap, atoms, id) {
        return Ok(());
    }
    match joined_by(heap, atoms, id) {
        Some(sides) => {
            let left = sides.left;
            waiting.push(sides.right)?;
            waiting.push(left)?;
            Ok(())
        }
        None => {
            found.push(id)?;
            Ok(())
        }
    }
}

/// The sides of a conjunction or of a list's cell.
fn joined_by(heap: &Heap, atoms: &Atoms, id: TermId) -> Option<Sides>
    requires live { id < length heap.now.now.terms }
    requires names { KnowsTerms atoms.now heap.now.now.terms }
    ensures some { IfSome result (AreJoined atoms.now heap.now.now.terms id) }
    ensures none { IsNone result → is_atom "[]" (tree atoms.now heap.now.now.terms id) ≡ false
        → declared_terms (tree atoms.now heap.now.now.terms id) ≡ tree atoms.now heap.now.now.terms id ∷ [] }
{
    let sides = sides_of(heap, id)?;
    if is_joining(atoms.text(sides.name)) {
        Some(sides)
    } else {
        None
    }
}

/// Whether a name joins declared terms.
fn is_joining(name: &str) -> bool
    ensures { result ≡ is_joining name.now }
{
    name == "," || name == "."
}

/// Whether one of the terms, or a part of one, is unbound.
fn has_unbound(heap: &Heap, atoms: &Atoms, ids: &[TermId]) -> bool
    requires live { AreLive heap.now.now.terms ids.now }
    requires names { KnowsTerms atoms.now heap.now.now.terms }
    ensures { result ≡ list_any is_unbound_indicator (trees atoms.now heap.now.now.terms ids.now) }
{
    for id in ids {
        if is_unbound(heap, atoms, *id) {
            return true;
        }
    }
    false
}

/// Whether a term or, in a term NAME/ARITY, a part of it is unbound.
fn is_unbound(heap: &Heap, atoms: &Atoms, id: TermId) -> bool
    requires live { id < length heap.now.now.terms }
    requires names { KnowsTerms atoms.now heap.now.now.terms }
    ensures { result ≡ is_unbound_indicator (tree atoms.now heap.now.now.terms id) }
{
    match slash_of(heap, atoms, id) {
        Some(sides) => is_variable(heap, sides.left) || is_variable(heap, sides.right),
        None => is_variable(heap, id),
    }
}

/// The sides of a term NAME/ARITY.
fn slash_of(heap: &Heap, atoms: &Atoms, id: TermId) -> Option<Sides>
    requires live { id < length heap.now.now.terms }
    requires names { KnowsTerms atoms.now heap.now.now.terms }
    ensures some { IfSome result (AreSlashed atoms.now heap.now.now.terms id) }
    ensures none { IsNone result → slashed (tree atoms.now heap.now.now.terms id) ≡ None }
{
    let sides = sides_of(heap, id)?;
    if atoms.text(sides.name) == "/" {
        Some(sides)
    } else {
        None
    }
}

/// The predicates that the terms name, or the error of the first that names none.
fn predicates(heap: &Heap, atoms: &Atoms, ids: &[TermId]) -> Result<Vec<Pred>, BuiltinFault>
    requires live { AreLive heap.now.now.terms ids.now }
    requires names { KnowsTerms atoms.now heap.now.now.terms }
    ensures declared { IfOk result (λ ps. AreDeclared atoms.now (trees atoms.now heap.now.now.terms ids.now) ps.items) }
    ensures fault { IfErr result (IsFound atoms.now heap.now.now.terms (indicators_error (trees atoms.now heap.now.now.terms ids.now))) }
    ensures culprit { IfErr result (CanBeRaised atoms.now heap.now.now.terms) }
{
    let mut found = Vec::new(heap.alloc());
    for id in ids {
        match predicate_of(heap, atoms, *id) {
            Some(predicate) => match found.push(predicate) {
                Ok(()) => {}
                Err(_) => return Err(BuiltinFault::NoMemory),
            },
            None => return Err(no_indicator(*id)),
        }
    }
    Ok(found)
}

/// The fault of a term that is no predicate indicator.
fn no_indicator(id: TermId) -> BuiltinFault
    ensures { result ≡ BuiltinFault.Error (BuiltinError.Type ValidType.PredicateIndicator (Culprit.Term id)) }
{
    BuiltinFault::Error(BuiltinError::Type(ValidType::PredicateIndicator, Culprit::Term(id)))
}

/// The predicate that a term NAME/ARITY names: an atom, and a whole number from 0 to the greatest arity.
fn predicate_of(heap: &Heap, atoms: &Atoms, id: TermId) -> Option<Pred>
    requires live { id < length heap.now.now.terms }
    requires names { KnowsTerms atoms.now heap.now.now.terms }
    ensures some { IfSome result (IsDeclared atoms.now (tree atoms.now heap.now.now.terms id)) }
    ensures none { IsNone result → is_indicator (tree atoms.now heap.now.now.terms id) ≡ false }
{
    let sides = slash_of(heap, atoms, id)?;
    match heap.view(sides.left) {
        View::Name(name) => {
            let arity = arity_of(heap, sides.right)?;
            Some(Pred { name, arity })
        }
        _ => None,
    }
}

/// The arity that a term is.
fn arity_of(heap: &Heap, id: TermId) -> Option<usize>
    requires { id < length heap.now.now.terms }
    ensures some { IfSome result (λ n. (texts : List Text) → IsArity (tree texts heap.now.now.terms id) n) }
    ensures none { IsNone result → (texts : List Text) → is_arity (tree texts heap.now.now.terms id) ≡ false }
{
    if !is_integer(heap, id) || is_below_zero(heap, id) {
        return None;
    }
    let arity = natural_of(heap, id);
    if arity <= 1_000_000 {
        Some(arity as usize)
    } else {
        None
    }
}
