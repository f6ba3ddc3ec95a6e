// Predicates that are declared dynamic.

ghost use Rattle.std.specs.Prelude.{◌≡◌, ◌<◌, All, None, Some, length, map, IfOk, IfErr, IfSome, IfNone, OnOk, OnErr};
ghost use Rattle.spec_builtins.specs.Clauses.{declarations, declaration_error, not_changeable};
ghost use Rattle.spec_search.specs.Builtins.{is_built_in};
ghost use Rattle.cq_term.specs.Trees.{tree, KnowsTerms};
ghost use Rattle.cq_built.specs.Errors.{indicator_of, CanBeRaised};
ghost use Rattle.cq_built.specs.Faults.{IsFound};
ghost use Rattle.cq_goals.specs.Declarations.{built_in_error};
ghost use Rattle.cq_catch.specs.Revised.{HasDeclared, KeepsShowing};

use crate::revise::laws::walks_outlast_changes;
use crate::revise::permissions::{is_built_in, refused};
use cq_built::{BuiltinFault, Permission};
use cq_clauses::Clauses;
use cq_goals::declarations::{check_declaration, declarations_in_turn};
use cq_resolve::program::{
    ProgramClause, changes_are_those_of_the_database, programs_stay_programs,
};
use cq_term::atoms::Atoms;
use cq_term::{Heap, Pred, TermId};
use std::alloc::AllocError;

/// The predicates that `dynamic(TERM)` or `discontiguous(TERM)` declares, in order, or the error of the goal.
pub fn check_declared(heap: &Heap, atoms: &Atoms, term: TermId) -> Result<Vec<Pred>, BuiltinFault>
    requires live { term < length heap.now.now.terms }
    requires names { KnowsTerms atoms.now heap.now.now.terms }
    ensures lawful { OnOk result (declaration_error is_built_in (tree atoms.now heap.now.now.terms term) ≡ None) }
    ensures declared { IfOk result (λ ps. map (indicator_of atoms.now) ps.items ≡ declarations (tree atoms.now heap.now.now.terms term)) }
    ensures known { IfOk result (λ ps. All (λ p. p.name < length atoms.now) ps.items) }
    ensures fault { IfErr result (IsFound atoms.now heap.now.now.terms (declaration_error is_built_in (tree atoms.now heap.now.now.terms term))) }
    ensures culprit { IfErr result (CanBeRaised atoms.now heap.now.now.terms) }
{
    declarations_in_turn();
    match check_declaration(heap, atoms, term) {
        Ok(predicates) => match first_built_in(atoms, &predicates) {
            Some(predicate) => {
                let error = refused(Permission::ModifyStaticProcedure, predicate);
                Err(BuiltinFault::Error(error))
            }
            None => Ok(predicates),
        },
        Err(fault) => Err(fault),
    }
}

/// The first of some predicates that is built in.
fn first_built_in(atoms: &Atoms, predicates: &[Pred]) -> Option<Pred>
    requires { All (λ p. p.name < length atoms.now) predicates.now }
    ensures some { IfSome result (λ p. built_in_error is_built_in (map (indicator_of atoms.now) predicates.now)
        ≡ Some (not_changeable (indicator_of atoms.now p))) }
    ensures known { IfSome result (λ p. p.name < length atoms.now) }
    ensures none { IfNone result (built_in_error is_built_in (map (indicator_of atoms.now) predicates.now) ≡ None) }
{
    for predicate in predicates {
        if is_built_in(atoms, predicate) {
            return Some(*predicate);
        }
    }
    None
}

/// Makes the procedures of these predicates dynamic: all of them, or none after an error, which is want of memory.
pub fn declare_dynamic(
    clauses: &mut Clauses<ProgramClause>,
    predicates: &[Pred],
) -> Result<(), AllocError>
    ensures declared { OnOk result (HasDeclared predicates.now clauses.old clauses.new) }
    ensures showing { KeepsShowing clauses.old clauses.new }
    ensures err { OnErr result (clauses.new ≡ clauses.old) }
{
    walks_outlast_changes();
    changes_are_those_of_the_database();
    programs_stay_programs();
    clauses.declare_all_dynamic(predicates)?;
    Ok(())
}
