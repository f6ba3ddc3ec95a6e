// The bounds of the query's variables.

ghost use Rattle.std.specs.Prelude.{◌≡◌, ◌<◌, ◌≤◌, suc, length, IfOk};
ghost use Rattle.spec_command.specs.Query.{gap, lower, upper};
ghost use Rattle.cq_term.specs.Trees.{tree, KnowsTerms};
ghost use Rattle.cq_built.specs.Growing.{Grows};
ghost use Rattle.cq_interpreter.specs.GenerationVariables.{AreUnbound};

use crate::generation::terms::{over, variable};
use cq_built::whole;
use cq_term::atoms::Atoms;
use cq_term::{Heap, TermId};
use std::alloc::AllocError;

/// None of the variables is greater.
const BOUND: usize = 1_000_000;

/// How much more than the variable before it the variable of this place is at least; the first place is 1.
fn gap(place: usize) -> usize
    requires { place ≤ 200 }
    ensures { result ≡ gap place }
{
    (place * place) % 7 + 1
}

/// The lower bound of the first variable.
fn first_lower(heap: &mut Heap, atoms: &mut Atoms) -> Result<TermId, AllocError>
    requires names { KnowsTerms atoms.old heap.old.now.terms }
    requires unbound { AreUnbound heap.old.now.images }
    requires there { 0 < length heap.old.now.images }
    ensures live { IfOk result (λ id. id < length heap.new.now.terms) }
    ensures built { IfOk result (λ id. tree atoms.new heap.new.now.terms id ≡ lower 0) }
    ensures grows { Grows atoms.old heap.old atoms.new heap.new }
{
    let one = whole(heap, atoms, 1)?;
    let this = variable(heap, 0);
    over(heap, atoms, ">=", this, one)
}

/// The lower bound of the variable behind another one.
fn next_lower(heap: &mut Heap, atoms: &mut Atoms, last: usize) -> Result<TermId, AllocError>
    requires names { KnowsTerms atoms.old heap.old.now.terms }
    requires unbound { AreUnbound heap.old.now.images }
    requires there { suc last < length heap.old.now.images }
    requires few { suc last < 200 }
    ensures live { IfOk result (λ id. id < length heap.new.now.terms) }
    ensures built { IfOk result (λ id. tree atoms.new heap.new.now.terms id ≡ lower (suc last)) }
    ensures grows { Grows atoms.old heap.old atoms.new heap.new }
{
    let more = whole(heap, atoms, gap(last + 2))?;
    let before = variable(heap, last);
    let sum = over(heap, atoms, "+", before, more)?;
    let this = variable(heap, last + 1);
    over(heap, atoms, ">=", this, sum)
}

/// The lower bound of a variable.
pub(crate) fn lower(heap: &mut Heap, atoms: &mut Atoms, number: usize) -> Result<TermId, AllocError>
    requires names { KnowsTerms atoms.old heap.old.now.terms }
    requires unbound { AreUnbound heap.old.now.images }
    requires there { number < length heap.old.now.images }
    requires few { number < 200 }
    ensures live { IfOk result (λ id. id < length heap.new.now.terms) }
    ensures built { IfOk result (λ id. tree atoms.new heap.new.now.terms id ≡ lower number) }
    ensures grows { Grows atoms.old heap.old atoms.new heap.new }
{
    if number == 0 {
        first_lower(heap, atoms)
    } else {
        next_lower(heap, atoms, number - 1)
    }
}

/// The upper bound of a variable.
pub(crate) fn upper(heap: &mut Heap, atoms: &mut Atoms, number: usize) -> Result<TermId, AllocError>
    requires names { KnowsTerms atoms.old heap.old.now.terms }
    requires unbound { AreUnbound heap.old.now.images }
    requires there { number < length heap.old.now.images }
    ensures live { IfOk result (λ id. id < length heap.new.now.terms) }
    ensures built { IfOk result (λ id. tree atoms.new heap.new.now.terms id ≡ upper number) }
    ensures grows { Grows atoms.old heap.old atoms.new heap.new }
{
    let bound = whole(heap, atoms, BOUND)?;
    let this = variable(heap, number);
    over(heap, atoms, "=<", this, bound)
}
