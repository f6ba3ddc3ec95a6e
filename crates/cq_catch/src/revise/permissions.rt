// What goals may neither change nor read.

ghost use Rattle.std.specs.Prelude.{◌≡◌, ◌<◌, None, Some, length, IfOk, IfErr, OnOk};
ghost use Rattle.spec_syntax.specs.Operators.{Ops};
ghost use Rattle.spec_search.specs.Builtins.{is_built_in};
ghost use Rattle.spec_search.specs.Changes.{change_error, is_private};
ghost use Rattle.cq_term.specs.Texts.{AreDifferent};
ghost use Rattle.cq_term.specs.Trees.{tree, KnowsTerms};
ghost use Rattle.cq_built.specs.Errors.{error_tree, indicator_of, CanBeRaised, HasCulprit};
ghost use Rattle.cq_built.specs.Faults.{IsFound};
ghost use Rattle.cq_goals.specs.Clauses.{AreParts, IsOf};
ghost use Rattle.cq_resolve.specs.Database.{IsProgram, as_database};
ghost use Rattle.cq_catch.specs.Permissions.{reading_error};

use cq_built::{BuiltinError, BuiltinFault, Culprit, Permission};
use cq_clauses::{Clauses, Kind};
use cq_goals::declarations::{CheckedClause, check_clause, check_clause_goal};
use cq_predicates::table::Builtin;
use cq_resolve::program::{ProgramClause, calls_read_the_database};
use cq_term::atoms::Atoms;
use cq_term::{Heap, Pred, TermId};

/// The clause that `asserta(CLAUSE)` and `assertz(CLAUSE)` add and `retract(CLAUSE)` looks for, or the error of the goal.
pub fn check_change(
    heap: &Heap,
    atoms: &Atoms,
    clauses: &Clauses<ProgramClause>,
    clause: TermId,
) -> Result<CheckedClause, BuiltinFault>
    requires live { clause < length heap.now.now.terms }
    requires names { KnowsTerms atoms.now heap.now.now.terms }
    requires different { AreDifferent atoms.now }
    requires program { IsProgram atoms.now clauses.now }
    ensures lawful { OnOk result ((ops : Ops) → change_error (as_database atoms.now ops clauses.now) (tree atoms.now heap.now.now.terms clause) ≡ None) }
    ensures parts { IfOk result (λ c. AreParts atoms.now heap.now.now.terms clause c.parts) }
    ensures predicate { IfOk result (λ c. IsOf atoms.now c.predicate (tree atoms.now heap.now.now.terms c.parts.head)) }
    ensures fault { IfErr result (λ f. (ops : Ops)
        → IsFound atoms.now heap.now.now.terms (change_error (as_database atoms.now ops clauses.now) (tree atoms.now heap.now.now.terms clause)) f) }
    ensures culprit { IfErr result (CanBeRaised atoms.now heap.now.now.terms) }
{
    match check_clause(heap, atoms, clause) {
        Ok(checked) => {
            if is_private(atoms, clauses, checked.predicate) {
                return Err(BuiltinFault::Error(refused(
                    Permission::ModifyStaticProcedure,
                    checked.predicate,
                )));
            }
            Ok(checked)
        }
        Err(fault) => Err(fault),
    }
}

/// The predicate of which `clause(HEAD,BODY)` reads clauses, or the error of the goal.
pub fn check_readable(
    heap: &Heap,
    atoms: &Atoms,
    clauses: &Clauses<ProgramClause>,
    head: TermId,
    body: TermId,
) -> Result<Pred, BuiltinError>
    requires head { head < length heap.now.now.terms }
    requires body { body < length heap.now.now.terms }
    requires names { KnowsTerms atoms.now heap.now.now.terms }
    requires different { AreDifferent atoms.now }
    requires program { IsProgram atoms.now clauses.now }
    ensures lawful { OnOk result ((ops : Ops) → reading_error (as_database atoms.now ops clauses.now) (tree atoms.now heap.now.now.terms head)
        (tree atoms.now heap.now.now.terms body) ≡ None) }
    ensures predicate { IfOk result (λ p. IsOf atoms.now p (tree atoms.now heap.now.now.terms head)) }
    ensures error { IfErr result (λ e. (ops : Ops) → reading_error (as_database atoms.now ops clauses.now) (tree atoms.now heap.now.now.terms head)
        (tree atoms.now heap.now.now.terms body) ≡ Some (error_tree atoms.now heap.now.now.terms e)) }
    ensures culprit { IfErr result (HasCulprit atoms.now heap.now.now.terms) }
{
    match check_clause_goal(heap, atoms, head, body) {
        Ok(predicate) => {
            let asked = predicate;
            if is_private(atoms, clauses, asked) {
                return Err(refused(Permission::AccessPrivateProcedure, predicate));
            }
            Ok(predicate)
        }
        Err(error) => Err(error),
    }
}

/// Whether goals may neither change nor read the predicate's procedure: it is built in, or there and static.
fn is_private(atoms: &Atoms, clauses: &Clauses<ProgramClause>, predicate: Pred) -> bool
    requires known { predicate.name < length atoms.now }
    requires different { AreDifferent atoms.now }
    requires program { IsProgram atoms.now clauses.now }
    ensures { (ops : Ops) → is_private (as_database atoms.now ops clauses.now) (indicator_of atoms.now predicate) ≡ result }
{
    calls_read_the_database();
    let called = predicate;
    if is_built_in(atoms, &called) {
        return true;
    }
    match clauses.status_of(predicate) {
        Some(Kind::Static) => true,
        Some(Kind::Dynamic) => false,
        None => false,
    }
}

/// Whether a predicate is built in.
pub fn is_built_in(atoms: &Atoms, predicate: &Pred) -> bool
    requires { predicate.now.name < length atoms.now }
    ensures { result ≡ is_built_in (indicator_of atoms.now predicate.now) }
{
    Builtin::named(atoms.text(predicate.name), predicate.arity).is_some()
}

/// The error of a goal to which a predicate is not open.
pub(crate) fn refused(permission: Permission, predicate: Pred) -> BuiltinError
    ensures { result ≡ BuiltinError.Permission permission (Culprit.Predicate predicate) }
{
    BuiltinError::Permission(permission, Culprit::Predicate(predicate))
}
