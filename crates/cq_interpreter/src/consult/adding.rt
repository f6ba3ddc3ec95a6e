// A file's clause that is added to the clauses of a program, or refused.

ghost use Rattle.std.specs.Prelude.{◌≡◌, ◌<◌, None, length, IfOk, IfErr, OnOk, OnErr};
ghost use Rattle.spec_search.specs.Changes.{consult_error};
ghost use Rattle.cq_term.specs.Trees.{tree, KnowsTerms};
ghost use Rattle.cq_built.specs.Errors.{CanBeRaised};
ghost use Rattle.cq_built.specs.Growing.{Grows};
ghost use Rattle.cq_built.specs.Faults.{IsFound};
ghost use Rattle.cq_goals.specs.Clauses.{AreParts, IsOf};
ghost use Rattle.cq_interpreter.specs.Consulted.{CameTo};

use cq_built::{BuiltinError, BuiltinFault, Culprit, Permission, ball};
use cq_catch::revise::{add, is_built_in};
use cq_clauses::{Clauses, End, Kind};
use cq_goals::declarations::{CheckedClause, check_clause};
use cq_resolve::program::ProgramClause;
use cq_term::atoms::Atoms;
use cq_term::{Heap, Pred, TermId};
use std::alloc::AllocError;

/// Adds a clause behind the others of its predicate, as `consult` does, where no machine is at hand. An error is want of memory; names
/// and terms may then stay.
pub fn add_clause(
    heap: &mut Heap,
    atoms: &mut Atoms,
    clauses: &mut Clauses<ProgramClause>,
    clause: TermId,
) -> Result<Option<TermId>, AllocError>
    requires live { clause < length heap.old.now.terms }
    requires names { KnowsTerms atoms.old heap.old.now.terms }
    ensures came { IfOk result (CameTo atoms.new heap.new.now.terms (tree atoms.old heap.old.now.terms clause) clauses.old clauses.new) }
    ensures grows { Grows atoms.old heap.old atoms.new heap.new }
    ensures err { OnErr result (clauses.new ≡ clauses.old) }
{
    // No name is added behind an error: the ball's own comes first.
    let name = atoms.intern("assertz")?;
    match check(heap, atoms, clause) {
        Ok(checked) => {
            add(heap, atoms, clauses, checked, End::Last, Kind::Static)?;
            Ok(None)
        }
        Err(fault) => match fault {
            BuiltinFault::Error(error) => {
                let id = ball(heap, atoms, error, Pred { name, arity: 1 })?;
                Ok(Some(id))
            }
            BuiltinFault::NoMemory => Err(AllocError),
        },
    }
}

/// The parts of a clause, or why it is refused.
fn check(heap: &Heap, atoms: &Atoms, clause: TermId) -> Result<CheckedClause, BuiltinFault>
    requires live { clause < length heap.now.now.terms }
    requires names { KnowsTerms atoms.now heap.now.now.terms }
    ensures lawful { OnOk result (consult_error (tree atoms.now heap.now.now.terms clause) ≡ None) }
    ensures parts { IfOk result (λ c. AreParts atoms.now heap.now.now.terms clause c.parts) }
    ensures predicate { IfOk result (λ c. IsOf atoms.now c.predicate (tree atoms.now heap.now.now.terms c.parts.head)) }
    ensures fault { IfErr result (IsFound atoms.now heap.now.now.terms (consult_error (tree atoms.now heap.now.now.terms clause))) }
    ensures culprit { IfErr result (CanBeRaised atoms.now heap.now.now.terms) }
{
    match check_clause(heap, atoms, clause) {
        Ok(checked) => {
            if is_built_in(atoms, &checked.predicate) {
                return Err(BuiltinFault::Error(BuiltinError::Permission(
                    Permission::ModifyStaticProcedure,
                    Culprit::Predicate(checked.predicate),
                )));
            }
            Ok(checked)
        }
        Err(fault) => Err(fault),
    }
}
