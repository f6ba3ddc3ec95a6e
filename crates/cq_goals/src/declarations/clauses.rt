// Clauses as terms, and the checks of goals that add, remove or read them.

ghost use Rattle.std.specs.Prelude.{◌≡◌, ◌<◌, false, true, None, Some, length, IfOk, IfErr, IfSome, IsNone, OnOk};
ghost use Rattle.spec_builtins.specs.Kinds.{is_number};
ghost use Rattle.spec_builtins.specs.Bodies.{is_body, is_control};
ghost use Rattle.spec_builtins.specs.Clauses.{clause_error, clause_goal_error, head_body, fact};
ghost use Rattle.cq_term.specs.Trees.{tree, KnowsTerms};
ghost use Rattle.cq_built.specs.Errors.{error_tree, HasCulprit, CanBeRaised};
ghost use Rattle.cq_built.specs.Faults.{IsFound};
ghost use Rattle.cq_goals.specs.Clauses.{AreParts, IsOf, IsRule, IsControl, BodyGoesOn, head_error, body_error, body_tree};

use cq_built::kinds::{is_callable, is_number, is_variable};
use cq_built::sides::{Sides, sides_of};
use cq_built::{BuiltinError, BuiltinFault, Culprit, ValidType};
use cq_term::atoms::Atoms;
use cq_term::{Heap, Pred, TermId, View};
use std::alloc::AllocError;

/// The head and the body of a clause; a fact has no body.
#[derive(Clone, Copy)]
pub struct ClauseParts {
    pub head: TermId,
    pub body: Option<TermId>,
}

/// A clause that may stand in a program, and the predicate of its head.
#[derive(Clone, Copy)]
pub struct CheckedClause {
    pub predicate: Pred,
    pub parts: ClauseParts,
}

/// A term as a clause, HEAD:-BODY or a fact, with the errors that `asserta`, `assertz` and `retract` raise before they look
/// at its procedure.
pub fn check_clause(
    heap: &Heap,
    atoms: &Atoms,
    clause: TermId,
) -> Result<CheckedClause, BuiltinFault>
    requires live { clause < length heap.now.now.terms }
    requires names { KnowsTerms atoms.now heap.now.now.terms }
    ensures lawful { OnOk result (clause_error (tree atoms.now heap.now.now.terms clause) ≡ None) }
    ensures parts { IfOk result (λ c. AreParts atoms.now heap.now.now.terms clause c.parts) }
    ensures predicate { IfOk result (λ c. IsOf atoms.now c.predicate (tree atoms.now heap.now.now.terms c.parts.head)) }
    ensures fault { IfErr result (IsFound atoms.now heap.now.now.terms (clause_error (tree atoms.now heap.now.now.terms clause))) }
    ensures culprit { IfErr result (CanBeRaised atoms.now heap.now.now.terms) }
{
    let parts = parts_of(heap, atoms, clause);
    let predicate = match predicate_of(heap, atoms, parts.head) {
        Ok(predicate) => predicate,
        Err(error) => return Err(BuiltinFault::Error(error)),
    };
    match check_body(heap, atoms, parts.body) {
        Ok(()) => Ok(CheckedClause { predicate, parts }),
        Err(fault) => Err(fault),
    }
}

/// The predicate of which `clause(HEAD,BODY)` reads clauses, or its error before it looks at the procedure.
pub fn check_clause_goal(
    heap: &Heap,
    atoms: &Atoms,
    head: TermId,
    body: TermId,
) -> Result<Pred, BuiltinError>
    requires head { head < length heap.now.now.terms }
    requires body { body < length heap.now.now.terms }
    requires names { KnowsTerms atoms.now heap.now.now.terms }
    ensures lawful { OnOk result (clause_goal_error (tree atoms.now heap.now.now.terms head) (tree atoms.now heap.now.now.terms body) ≡ None) }
    ensures predicate { IfOk result (λ p. IsOf atoms.now p (tree atoms.now heap.now.now.terms head)) }
    ensures error { IfErr result (λ e. clause_goal_error (tree atoms.now heap.now.now.terms head) (tree atoms.now heap.now.now.terms body)
        ≡ Some (error_tree atoms.now heap.now.now.terms e)) }
    ensures culprit { IfErr result (HasCulprit atoms.now heap.now.now.terms) }
{
    let predicate = match predicate_of(heap, atoms, head) {
        Ok(predicate) => predicate,
        Err(error) => return Err(error),
    };
    if is_variable(heap, body) || is_callable(heap, body) {
        Ok(predicate)
    } else {
        Err(not_callable(body))
    }
}

/// The predicate of a head, or its error: it is unbound, or no atom and no compound.
fn predicate_of(heap: &Heap, atoms: &Atoms, head: TermId) -> Result<Pred, BuiltinError>
    requires live { head < length heap.now.now.terms }
    requires names { KnowsTerms atoms.now heap.now.now.terms }
    ensures lawful { OnOk result (head_error (tree atoms.now heap.now.now.terms head) ≡ None) }
    ensures predicate { IfOk result (λ p. IsOf atoms.now p (tree atoms.now heap.now.now.terms head)) }
    ensures error { IfErr result (λ e. head_error (tree atoms.now heap.now.now.terms head) ≡ Some (error_tree atoms.now heap.now.now.terms e)) }
    ensures culprit { IfErr result (HasCulprit atoms.now heap.now.now.terms) }
{
    match heap.view(head) {
        View::Var(_) => Err(BuiltinError::Instantiation),
        View::Number(_) => Err(not_callable(head)),
        View::Name(name) => Ok(Pred { name, arity: 0 }),
        View::Compound(name, arity) => Ok(Pred { name, arity }),
    }
}

/// A term that is neither an atom nor a compound.
fn not_callable(id: TermId) -> BuiltinError
    ensures { result ≡ BuiltinError.Type ValidType.Callable (Culprit.Term id) }
{
    BuiltinError::Type(ValidType::Callable, Culprit::Term(id))
}

/// The head and the body of a term as a clause.
fn parts_of(heap: &Heap, atoms: &Atoms, clause: TermId) -> ClauseParts
    requires live { clause < length heap.now.now.terms }
    requires names { KnowsTerms atoms.now heap.now.now.terms }
    ensures { AreParts atoms.now heap.now.now.terms clause result }
{
    match rule_of(heap, atoms, clause) {
        Some(sides) => ClauseParts {
            head: sides.left,
            body: Some(sides.right),
        },
        None => ClauseParts {
            head: clause,
            body: None,
        },
    }
}

/// The sides of a rule HEAD:-BODY.
fn rule_of(heap: &Heap, atoms: &Atoms, clause: TermId) -> Option<Sides>
    requires live { clause < length heap.now.now.terms }
    requires names { KnowsTerms atoms.now heap.now.now.terms }
    ensures some { IfSome result (IsRule atoms.now heap.now.now.terms clause) }
    ensures none { IsNone result → head_body (tree atoms.now heap.now.now.terms clause) ≡ fact (tree atoms.now heap.now.now.terms clause) }
{
    let sides = sides_of(heap, clause)?;
    if atoms.text(sides.name) == ":-" {
        Some(sides)
    } else {
        None
    }
}

/// The error of a clause's body, if it has one: a conjunct or a branch of it is a number.
fn check_body(heap: &Heap, atoms: &Atoms, body: Option<TermId>) -> Result<(), BuiltinFault>
    requires live { IfSome body (λ id. id < length heap.now.now.terms) }
    requires names { KnowsTerms atoms.now heap.now.now.terms }
    ensures lawful { OnOk result (body_error (body_tree atoms.now heap.now.now.terms body) ≡ None) }
    ensures fault { IfErr result (IsFound atoms.now heap.now.now.terms (body_error (body_tree atoms.now heap.now.now.terms body))) }
    ensures culprit { IfErr result (CanBeRaised atoms.now heap.now.now.terms) }
{
    let Some(body) = body else {
        return Ok(());
    };
    if is_body(heap, atoms, body)? {
        Ok(())
    } else {
        Err(BuiltinFault::Error(not_callable(body)))
    }
}

/// Whether no conjunct and no branch of a term is a number.
pub fn is_body(heap: &Heap, atoms: &Atoms, body: TermId) -> Result<bool, AllocError>
    requires live { body < length heap.now.now.terms }
    requires names { KnowsTerms atoms.now heap.now.now.terms }
    ensures { IfOk result (λ b. is_body (tree atoms.now heap.now.now.terms body) ≡ b) }
{
    let mut waiting = vec![in heap.alloc(); body]?;
    while let Some(id) = waiting.pop() {
        let goes_on = look_into(heap, atoms, id, &mut waiting)?;
        if !goes_on {
            return Ok(false);
        }
    }
    Ok(true)
}

/// Whether a term is no number; the sides of a construct wait then.
fn look_into(
    heap: &Heap,
    atoms: &Atoms,
    id: TermId,
    waiting: &mut Vec<TermId>,
) -> Result<bool, AllocError>
    requires live { id < length heap.now.now.terms }
    requires names { KnowsTerms atoms.now heap.now.now.terms }
    ensures { IfOk result (λ goes. BodyGoesOn atoms.now heap.now.now.terms waiting.old.items id goes waiting.new.items) }
{
    if is_number(heap, id) {
        return Ok(false);
    }
    match construct_of(heap, atoms, id) {
        Some(sides) => {
            let left = sides.left;
            waiting.push(sides.right)?;
            waiting.push(left)?;
            Ok(true)
        }
        None => Ok(true),
    }
}

/// The sides of a conjunction, a disjunction or an if-then.
fn construct_of(heap: &Heap, atoms: &Atoms, id: TermId) -> Option<Sides>
    requires live { id < length heap.now.now.terms }
    requires names { KnowsTerms atoms.now heap.now.now.terms }
    ensures some { IfSome result (IsControl atoms.now heap.now.now.terms id) }
    ensures none { IsNone result → is_number (tree atoms.now heap.now.now.terms id) ≡ false → is_body (tree atoms.now heap.now.now.terms id) ≡ true }
{
    let sides = sides_of(heap, id)?;
    if is_control(atoms.text(sides.name)) {
        Some(sides)
    } else {
        None
    }
}

/// Whether a name is that of a conjunction, a disjunction or an if-then.
fn is_control(name: &str) -> bool
    ensures { result ≡ is_control name.now }
{
    name == "," || name == ";" || name == "->"
}
