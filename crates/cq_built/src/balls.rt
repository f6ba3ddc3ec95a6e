// The terms of errors.

ghost use Rattle.std.specs.Prelude.{◌≡◌, ◌<◌, length, IfOk, OnErr};
ghost use Rattle.spec_terms.specs.Term.{Name};
ghost use Rattle.spec_syntax.specs.Trees.{unary};
ghost use Rattle.spec_builtins.specs.Built.{indicator_term};
ghost use Rattle.cq_term.specs.Texts.{text_of};
ghost use Rattle.cq_term.specs.Trees.{tree, KnowsTerms};
ghost use Rattle.cq_built.specs.Growing.{Grows};
ghost use Rattle.cq_built.specs.Errors.{ball_tree, blaming_tree, error_tree, culprit_tree, indicator_of, HasCulprit, IsThere};

use crate::building::{atom, compound, over_two, whole};
use crate::errors::{BuiltinError, Culprit, Permission};
use cq_term::atoms::Atoms;
use cq_term::{Atom, Heap, Pred, TermId};
use cq_trail::Undo;
use std::alloc::AllocError;

/// The ball error(E,NAME/ARITY) of an error of a goal. An error is want of memory; names may then stay.
pub fn ball(
    heap: &mut Heap,
    atoms: &mut Atoms,
    error: BuiltinError,
    goal: Pred,
) -> Result<TermId, AllocError>
    requires names { KnowsTerms atoms.old heap.old.now.terms }
    requires culprit { HasCulprit atoms.old heap.old.now.terms error }
    requires goal { goal.name < length atoms.old }
    ensures live { IfOk result (λ id. id < length heap.new.now.terms) }
    ensures built { IfOk result (λ id. tree atoms.new heap.new.now.terms id ≡ ball_tree atoms.old heap.old.now.terms error goal) }
    ensures grows { Grows atoms.old heap.old atoms.new heap.new }
    ensures err { OnErr result (heap.new.now ≡ heap.old.now) }
{
    let m = heap.mark()?;
    match raised(heap, atoms, error, goal) {
        Ok(id) => {
            heap.forget(m);
            Ok(id)
        }
        Err(fault) => {
            heap.undo(m);
            Err(fault)
        }
    }
}

/// The same, where want of memory may leave parts of it on the heap.
fn raised(
    heap: &mut Heap,
    atoms: &mut Atoms,
    error: BuiltinError,
    goal: Pred,
) -> Result<TermId, AllocError>
    requires names { KnowsTerms atoms.old heap.old.now.terms }
    requires culprit { HasCulprit atoms.old heap.old.now.terms error }
    requires goal { goal.name < length atoms.old }
    ensures live { IfOk result (λ id. id < length heap.new.now.terms) }
    ensures built { IfOk result (λ id. tree atoms.new heap.new.now.terms id ≡ ball_tree atoms.old heap.old.now.terms error goal) }
    ensures grows { Grows atoms.old heap.old atoms.new heap.new }
{
    let term = error_term(heap, atoms, error)?;
    let predicate = indicator(heap, atoms, goal)?;
    over_two(heap, atoms, "error", term, predicate)
}

/// The term NAME/ARITY.
fn indicator(heap: &mut Heap, atoms: &mut Atoms, pred: Pred) -> Result<TermId, AllocError>
    requires names { KnowsTerms atoms.old heap.old.now.terms }
    requires known { pred.name < length atoms.old }
    ensures live { IfOk result (λ id. id < length heap.new.now.terms) }
    ensures built { IfOk result (λ id. tree atoms.new heap.new.now.terms id ≡ indicator_term (indicator_of atoms.old pred)) }
    ensures grows { Grows atoms.old heap.old atoms.new heap.new }
{
    let name = named(heap, atoms, pred.name)?;
    let arity = whole(heap, atoms, pred.arity)?;
    over_two(heap, atoms, "/", name, arity)
}

/// The atom of a name.
fn named(heap: &mut Heap, atoms: &Atoms, name: Atom) -> Result<TermId, AllocError>
    requires known { name < length atoms.now }
    ensures live { IfOk result (λ id. id < length heap.new.now.terms) }
    ensures built { IfOk result (λ id. tree atoms.now heap.new.now.terms id ≡ Name (text_of atoms.now name)) }
    ensures grows { Grows atoms.now heap.old atoms.now heap.new }
{
    heap.atom(name)
}

/// The term of an error.
fn error_term(heap: &mut Heap, atoms: &mut Atoms, error: BuiltinError) -> Result<TermId, AllocError>
    requires names { KnowsTerms atoms.old heap.old.now.terms }
    requires culprit { HasCulprit atoms.old heap.old.now.terms error }
    ensures live { IfOk result (λ id. id < length heap.new.now.terms) }
    ensures built { IfOk result (λ id. tree atoms.new heap.new.now.terms id ≡ error_tree atoms.old heap.old.now.terms error) }
    ensures grows { Grows atoms.old heap.old atoms.new heap.new }
{
    match error {
        BuiltinError::Instantiation => atom(heap, atoms, "instantiation_error"),
        BuiltinError::Type(kind, blamed) => {
            blaming(heap, atoms, "type_error", kind.name(), blamed)
        }
        BuiltinError::Domain(kind, blamed) => {
            blaming(heap, atoms, "domain_error", kind.name(), blamed)
        }
        BuiltinError::Representation(kind) => {
            over_atom(heap, atoms, "representation_error", kind.name())
        }
        BuiltinError::Permission(kind, blamed) => permission(heap, atoms, kind, blamed),
        BuiltinError::UnknownProcedure(pred) => {
            blaming(
                heap,
                atoms,
                "existence_error",
                "procedure",
                Culprit::Predicate(pred),
            )
        }
        BuiltinError::ZeroDivisor => over_atom(heap, atoms, "evaluation_error", "zero_divisor"),
        BuiltinError::IllegalNumber => over_atom(heap, atoms, "syntax_error", "illegal_number"),
    }
}

/// A name over an atom.
fn over_atom(
    heap: &mut Heap,
    atoms: &mut Atoms,
    text: &str,
    argument: &str,
) -> Result<TermId, AllocError>
    requires names { KnowsTerms atoms.old heap.old.now.terms }
    ensures live { IfOk result (λ id. id < length heap.new.now.terms) }
    ensures built { IfOk result (λ id. tree atoms.new heap.new.now.terms id ≡ unary text.now (Name argument.now)) }
    ensures grows { Grows atoms.old heap.old atoms.new heap.new }
{
    let inner = atom(heap, atoms, argument)?;
    compound(heap, atoms, text, &[inner])
}

/// A name over an atom and a culprit.
fn blaming(
    heap: &mut Heap,
    atoms: &mut Atoms,
    text: &str,
    kind: &str,
    blamed: Culprit,
) -> Result<TermId, AllocError>
    requires names { KnowsTerms atoms.old heap.old.now.terms }
    requires culprit { IsThere atoms.old heap.old.now.terms blamed }
    ensures live { IfOk result (λ id. id < length heap.new.now.terms) }
    ensures built { IfOk result (λ id. tree atoms.new heap.new.now.terms id ≡ blaming_tree atoms.old heap.old.now.terms text.now kind.now blamed) }
    ensures grows { Grows atoms.old heap.old atoms.new heap.new }
{
    let culprit = culprit_term(heap, atoms, blamed)?;
    let first = atom(heap, atoms, kind)?;
    over_two(heap, atoms, text, first, culprit)
}

/// What is not permitted, and of what.
fn permission(
    heap: &mut Heap,
    atoms: &mut Atoms,
    kind: Permission,
    blamed: Culprit,
) -> Result<TermId, AllocError>
    requires names { KnowsTerms atoms.old heap.old.now.terms }
    requires culprit { IsThere atoms.old heap.old.now.terms blamed }
    ensures live { IfOk result (λ id. id < length heap.new.now.terms) }
    ensures built { IfOk result (λ id. tree atoms.new heap.new.now.terms id ≡ error_tree atoms.old heap.old.now.terms (BuiltinError.Permission kind blamed)) }
    ensures grows { Grows atoms.old heap.old atoms.new heap.new }
{
    let culprit = culprit_term(heap, atoms, blamed)?;
    let action = atom(heap, atoms, kind.action())?;
    let object = atom(heap, atoms, kind.object())?;
    compound(heap, atoms, "permission_error", &[action, object, culprit])
}

/// The term of a culprit.
fn culprit_term(heap: &mut Heap, atoms: &mut Atoms, blamed: Culprit) -> Result<TermId, AllocError>
    requires names { KnowsTerms atoms.old heap.old.now.terms }
    requires culprit { IsThere atoms.old heap.old.now.terms blamed }
    ensures live { IfOk result (λ id. id < length heap.new.now.terms) }
    ensures built { IfOk result (λ id. tree atoms.new heap.new.now.terms id ≡ culprit_tree atoms.old heap.old.now.terms blamed) }
    ensures grows { Grows atoms.old heap.old atoms.new heap.new }
{
    match blamed {
        Culprit::Term(id) => Ok(id),
        Culprit::Number(number) => heap.number(number),
        Culprit::Predicate(pred) => indicator(heap, atoms, pred),
    }
}
