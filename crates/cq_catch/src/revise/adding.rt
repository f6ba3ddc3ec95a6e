// A clause that is added to the clauses of a program.

ghost use Rattle.std.specs.Prelude.{◌≡◌, ◌<◌, length, IfOk, IfSome, OnOk, OnErr};
ghost use Rattle.spec_builtins.specs.Bodies.{converted_body};
ghost use Rattle.spec_builtins.specs.Clauses.{stored};
ghost use Rattle.cq_term.specs.Trees.{tree, KnowsTerms};
ghost use Rattle.cq_built.specs.Growing.{Grows};
ghost use Rattle.cq_clauses.specs.ClausesValue.{Adds};
ghost use Rattle.cq_clauses.specs.Walks.{KeepsReading};
ghost use Rattle.cq_goals.specs.Clauses.{IsOf, body_tree};
ghost use Rattle.cq_resolve.specs.Database.{IsCounted, as_parts};
ghost use Rattle.cq_catch.specs.Revised.{clause_key, head_body_of, AddsStored, KeepsShowing};

use crate::revise::laws::walks_outlast_changes;
use cq_built::atom;
use cq_built::bodies::convert_body;
use cq_clauses::{Clauses, End, Kind};
use cq_goals::declarations::{CheckedClause, ClauseParts};
use cq_resolve::program::{ProgramClause, clauses_are_counted};
use cq_resolve::stored::Clause;
use cq_term::atoms::Atoms;
use cq_term::{Heap, Pred, TermId};
use std::alloc::AllocError;

/// Adds a clause that is lawful at an end of the clauses of its predicate; a procedure that it makes is of this kind. An error is
/// want of memory; names and terms may then stay.
pub fn add(
    heap: &mut Heap,
    atoms: &mut Atoms,
    clauses: &mut Clauses<ProgramClause>,
    checked: CheckedClause,
    end: End,
    kind: Kind,
) -> Result<(), AllocError>
    requires head { checked.parts.head < length heap.old.now.terms }
    requires body { IfSome checked.parts.body (λ b. b < length heap.old.now.terms) }
    requires names { KnowsTerms atoms.old heap.old.now.terms }
    requires predicate { IsOf atoms.old checked.predicate (tree atoms.old heap.old.now.terms checked.parts.head) }
    ensures added { OnOk result (AddsStored end kind atoms.new (head_body_of atoms.old heap.old.now.terms checked.parts) clauses.old clauses.new) }
    ensures showing { KeepsShowing clauses.old clauses.new }
    ensures grows { Grows atoms.old heap.old atoms.new heap.new }
    ensures err { OnErr result (clauses.new ≡ clauses.old) }
{
    walks_outlast_changes();
    clauses.walks_are_known();
    let clause = stored_clause(heap, atoms, checked.parts)?;
    put(
        clauses,
        checked.predicate,
        ProgramClause::new(clause),
        end,
        kind,
    )?;
    Ok(())
}

/// Puts a clause at an end of those of its predicate.
fn put(
    clauses: &mut Clauses<ProgramClause>,
    predicate: Pred,
    clause: ProgramClause,
    end: End,
    kind: Kind,
) -> Result<(), AllocError>
    ensures added { OnOk result (Adds end kind predicate clause clauses.old clauses.new) }
    ensures reading { KeepsReading clause_key clauses.old clauses.new }
    ensures err { OnErr result (clauses.new ≡ clauses.old) }
{
    match end {
        End::First => {
            clauses.add_first(predicate, clause, kind)?;
        }
        End::Last => {
            clauses.add_last(predicate, clause, kind)?;
        }
    }
    Ok(())
}

/// A clause as it is stored: its body converted, over variables of its own.
fn stored_clause(
    heap: &mut Heap,
    atoms: &mut Atoms,
    parts: ClauseParts,
) -> Result<Clause, AllocError>
    requires head { parts.head < length heap.old.now.terms }
    requires body { IfSome parts.body (λ b. b < length heap.old.now.terms) }
    requires names { KnowsTerms atoms.old heap.old.now.terms }
    ensures holds { IfOk result (λ c. as_parts atoms.new c ≡ stored (head_body_of atoms.old heap.old.now.terms parts)) }
    ensures counted { IfOk result (IsCounted (length atoms.new)) }
    ensures grows { Grows atoms.old heap.old atoms.new heap.new }
{
    clauses_are_counted();
    let body = goal_of(heap, atoms, parts.body)?;
    let clause = Clause::of(heap, parts.head, body)?;
    Ok(clause)
}

/// The body as a goal; that of a fact is `true`.
fn goal_of(heap: &mut Heap, atoms: &mut Atoms, body: Option<TermId>) -> Result<TermId, AllocError>
    requires live { IfSome body (λ b. b < length heap.old.now.terms) }
    requires names { KnowsTerms atoms.old heap.old.now.terms }
    ensures live { IfOk result (λ id. id < length heap.new.now.terms) }
    ensures converted { IfOk result (λ id. tree atoms.new heap.new.now.terms id ≡ converted_body (body_tree atoms.old heap.old.now.terms body)) }
    ensures grows { Grows atoms.old heap.old atoms.new heap.new }
{
    match body {
        Some(body) => convert_body(heap, atoms, body),
        None => atom(heap, atoms, "true"),
    }
}
