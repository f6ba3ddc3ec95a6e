// Constraints that are told, and constraints and expressions that are asked about.

ghost use Rattle.std.specs.Prelude.{◌≡◌, ◌<◌, None, length, IfOk, IfErr, OnOk, OnErr};
ghost use Rattle.spec_branch.specs.Checks.{constraint_error, question_error, expression_error, members};
ghost use Rattle.cq_term.specs.Trees.{tree, trees, KnowsTerms};
ghost use Rattle.cq_built.specs.Errors.{CanBeRaised};
ghost use Rattle.cq_built.specs.Growing.{Grows};
ghost use Rattle.cq_built.specs.Faults.{IsFound};
ghost use Rattle.cq_built.specs.Splitting.{AreLive};
ghost use Rattle.cq_goals.specs.Tellings.{IsTelling, IsLiveTelling};

use crate::checks::{Part, Purpose, check};
use crate::halves::halves;
use crate::members::members;
use cq_built::BuiltinFault;
use cq_term::atoms::Atoms;
use cq_term::{Heap, TermId};
use cq_trail::Undo;
use std::alloc::AllocError;

/// What is told of a constraint.
#[derive(Drop)]
pub enum Telling {
    /// These relations, in order.
    Members(Vec<TermId>),
    /// It holds a disjunction: each of these is a constraint of a branch of its own.
    Halves(TermId, TermId),
}

/// `{CONSTRAINT}`: it is checked whole, and is then its members, or its halves at its first disjunction. After a fault the
/// heap is as it was.
pub fn check_telling(
    heap: &mut Heap,
    atoms: &Atoms,
    constraint: TermId,
) -> Result<Telling, BuiltinFault>
    requires live { constraint < length heap.old.now.terms }
    requires names { KnowsTerms atoms.now heap.old.now.terms }
    ensures lawful { OnOk result (constraint_error (tree atoms.now heap.old.now.terms constraint) ≡ None) }
    ensures telling { IfOk result (IsTelling atoms.now heap.new.now.terms (tree atoms.now heap.old.now.terms constraint)) }
    ensures live { IfOk result (IsLiveTelling heap.new.now.terms) }
    ensures fault { IfErr result (IsFound atoms.now heap.old.now.terms (constraint_error (tree atoms.now heap.old.now.terms constraint))) }
    ensures culprit { IfErr result (CanBeRaised atoms.now heap.old.now.terms) }
    ensures grows { Grows atoms.now heap.old atoms.now heap.new }
    ensures err { OnErr result (heap.new.now ≡ heap.old.now) }
{
    match check(heap, atoms, Purpose::Telling, Part::Constraint(constraint)) {
        Ok(()) => {
            let told = told_as(heap, atoms, constraint)?;
            Ok(told)
        }
        Err(fault) => Err(fault),
    }
}

/// The members or the halves of a constraint. An error is want of memory, and the heap is then as it was.
fn told_as(heap: &mut Heap, atoms: &Atoms, constraint: TermId) -> Result<Telling, AllocError>
    requires live { constraint < length heap.old.now.terms }
    requires names { KnowsTerms atoms.now heap.old.now.terms }
    ensures telling { IfOk result (IsTelling atoms.now heap.new.now.terms (tree atoms.now heap.old.now.terms constraint)) }
    ensures live { IfOk result (IsLiveTelling heap.new.now.terms) }
    ensures grows { Grows atoms.now heap.old atoms.now heap.new }
    ensures err { OnErr result (heap.new.now ≡ heap.old.now) }
{
    let m = heap.mark()?;
    match members_or_halves(heap, atoms, constraint) {
        Ok(told) => {
            heap.forget(m);
            Ok(told)
        }
        Err(fault) => {
            heap.undo(m);
            Err(fault)
        }
    }
}

/// The same, where want of memory may leave parts of the halves on the heap.
fn members_or_halves(
    heap: &mut Heap,
    atoms: &Atoms,
    constraint: TermId,
) -> Result<Telling, AllocError>
    requires live { constraint < length heap.old.now.terms }
    requires names { KnowsTerms atoms.now heap.old.now.terms }
    ensures telling { IfOk result (IsTelling atoms.now heap.new.now.terms (tree atoms.now heap.old.now.terms constraint)) }
    ensures live { IfOk result (IsLiveTelling heap.new.now.terms) }
    ensures grows { Grows atoms.now heap.old atoms.now heap.new }
{
    match halves(heap, atoms, constraint)? {
        Some(halves) => Ok(Telling::Halves(halves.left, halves.right)),
        None => {
            let members = members(heap, atoms, constraint)?;
            Ok(Telling::Members(members))
        }
    }
}

/// `entailed(CONSTRAINT)`: it is checked, and is then its members, in order. None of them is a disjunction.
pub fn check_question(
    heap: &Heap,
    atoms: &Atoms,
    constraint: TermId,
) -> Result<Vec<TermId>, BuiltinFault>
    requires live { constraint < length heap.now.now.terms }
    requires names { KnowsTerms atoms.now heap.now.now.terms }
    ensures lawful { OnOk result (question_error (tree atoms.now heap.now.now.terms constraint) ≡ None) }
    ensures members { IfOk result (λ ids. trees atoms.now heap.now.now.terms ids.items ≡ members (tree atoms.now heap.now.now.terms constraint)) }
    ensures live { IfOk result (λ ids. AreLive heap.now.now.terms ids.items) }
    ensures fault { IfErr result (IsFound atoms.now heap.now.now.terms (question_error (tree atoms.now heap.now.now.terms constraint))) }
    ensures culprit { IfErr result (CanBeRaised atoms.now heap.now.now.terms) }
{
    match check(heap, atoms, Purpose::Question, Part::Constraint(constraint)) {
        Ok(()) => {
            let members = members(heap, atoms, constraint)?;
            Ok(members)
        }
        Err(fault) => Err(fault),
    }
}

/// The check of an expression that is asked about, as in `sup` and `inf`, `minimize` and `maximize`.
pub fn check_expression(heap: &Heap, atoms: &Atoms, expression: TermId) -> Result<(), BuiltinFault>
    requires live { expression < length heap.now.now.terms }
    requires names { KnowsTerms atoms.now heap.now.now.terms }
    ensures lawful { OnOk result (expression_error (tree atoms.now heap.now.now.terms expression) ≡ None) }
    ensures fault { IfErr result (IsFound atoms.now heap.now.now.terms (expression_error (tree atoms.now heap.now.now.terms expression))) }
    ensures culprit { IfErr result (CanBeRaised atoms.now heap.now.now.terms) }
{
    match check(heap, atoms, Purpose::Telling, Part::Expression(expression)) {
        Ok(()) => Ok(()),
        Err(fault) => Err(fault),
    }
}
