// The query, its constraints from the last one to the first.

ghost use Rattle.std.specs.Prelude.{◌≡◌, ◌<◌, ◌≤◌, suc, length, IfOk};
ghost use Rattle.spec_command.specs.Query.{asked, before, constraints, query, told, upper, uppers, variables};
ghost use Rattle.cq_term.specs.Trees.{tree, KnowsTerms};
ghost use Rattle.cq_built.specs.Growing.{Grows};
ghost use Rattle.cq_interpreter.specs.GenerationVariables.{AreUnbound};

use crate::generation::bounds::{lower, upper};
use crate::generation::terms::{over, variable};
use cq_built::compound;
use cq_term::atoms::Atoms;
use cq_term::{Heap, TermId};
use std::alloc::AllocError;

/// The upper bounds of the variables up to the last one.
fn uppers(heap: &mut Heap, atoms: &mut Atoms, last: usize) -> Result<TermId, AllocError>
    requires names { KnowsTerms atoms.old heap.old.now.terms }
    requires unbound { AreUnbound heap.old.now.images }
    requires there { last < length heap.old.now.images }
    ensures live { IfOk result (λ id. id < length heap.new.now.terms) }
    ensures built { IfOk result (λ id. tree atoms.new heap.new.now.terms id ≡ before (uppers 0 last) (upper last)) }
    ensures grows { Grows atoms.old heap.old atoms.new heap.new }
{
    let mut rest = upper(heap, atoms, last)?;
    for number in (0..last).rev() {
        let first = upper(heap, atoms, number)?;
        rest = over(heap, atoms, ",", first, rest)?;
    }
    Ok(rest)
}

/// The constraints of the query for a number.
fn constraints(heap: &mut Heap, atoms: &mut Atoms, number: usize) -> Result<TermId, AllocError>
    requires names { KnowsTerms atoms.old heap.old.now.terms }
    requires unbound { AreUnbound heap.old.now.images }
    requires there { number < length heap.old.now.images }
    requires some { 0 < number }
    requires few { number ≤ 200 }
    ensures live { IfOk result (λ id. id < length heap.new.now.terms) }
    ensures built { IfOk result (λ id. tree atoms.new heap.new.now.terms id ≡ constraints number) }
    ensures grows { Grows atoms.old heap.old atoms.new heap.new }
{
    let mut rest = uppers(heap, atoms, number - 1)?;
    for place in (0..number).rev() {
        let first = lower(heap, atoms, place)?;
        rest = over(heap, atoms, ",", first, rest)?;
    }
    Ok(rest)
}

/// The constraints in braces.
fn told(heap: &mut Heap, atoms: &mut Atoms, number: usize) -> Result<TermId, AllocError>
    requires names { KnowsTerms atoms.old heap.old.now.terms }
    requires unbound { AreUnbound heap.old.now.images }
    requires there { number < length heap.old.now.images }
    requires some { 0 < number }
    requires few { number ≤ 200 }
    ensures live { IfOk result (λ id. id < length heap.new.now.terms) }
    ensures built { IfOk result (λ id. tree atoms.new heap.new.now.terms id ≡ told number) }
    ensures grows { Grows atoms.old heap.old atoms.new heap.new }
{
    let inner = constraints(heap, atoms, number)?;
    compound(heap, atoms, "{}", &[inner])
}

/// The question for the infimum of the last variable.
fn asked(heap: &mut Heap, atoms: &mut Atoms, number: usize) -> Result<TermId, AllocError>
    requires names { KnowsTerms atoms.old heap.old.now.terms }
    requires unbound { AreUnbound heap.old.now.images }
    requires there { number < length heap.old.now.images }
    requires some { 0 < number }
    ensures live { IfOk result (λ id. id < length heap.new.now.terms) }
    ensures built { IfOk result (λ id. tree atoms.new heap.new.now.terms id ≡ asked number) }
    ensures grows { Grows atoms.old heap.old atoms.new heap.new }
{
    let last = variable(heap, number - 1);
    let value = variable(heap, number);
    over(heap, atoms, "inf", last, value)
}

/// The query for a number, over the variables of the heap. An error is want of memory; names and parts may then stay.
pub fn query(heap: &mut Heap, atoms: &mut Atoms, number: usize) -> Result<TermId, AllocError>
    requires names { KnowsTerms atoms.old heap.old.now.terms }
    requires unbound { AreUnbound heap.old.now.images }
    requires there { length heap.old.now.images ≡ variables number }
    requires some { 0 < number }
    requires few { number ≤ 200 }
    ensures live { IfOk result (λ id. id < length heap.new.now.terms) }
    ensures built { IfOk result (λ id. tree atoms.new heap.new.now.terms id ≡ query number) }
    ensures grows { Grows atoms.old heap.old atoms.new heap.new }
{
    let first = told(heap, atoms, number)?;
    let second = asked(heap, atoms, number)?;
    over(heap, atoms, ",", first, second)
}
