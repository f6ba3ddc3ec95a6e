// Terms of variables, and names over them.

ghost use Rattle.std.specs.Prelude.{◌≡◌, ◌<◌, List, length, IfOk};
ghost use Rattle.spec_numbers.specs.Texts.{Text};
ghost use Rattle.spec_terms.specs.Term.{Var};
ghost use Rattle.spec_syntax.specs.Trees.{binary};
ghost use Rattle.cq_term.specs.Trees.{tree, KnowsTerms};
ghost use Rattle.cq_built.specs.Growing.{Grows};
ghost use Rattle.cq_interpreter.specs.GenerationVariables.{AreUnbound};

use cq_built::compound;
use cq_frac::VarId;
use cq_term::atoms::Atoms;
use cq_term::{Heap, TermId};
use std::alloc::AllocError;

/// The term of a variable.
pub(crate) fn variable(heap: &Heap, number: usize) -> TermId
    requires unbound { AreUnbound heap.now.now.images }
    requires there { number < length heap.now.now.images }
    ensures live { result < length heap.now.now.terms }
    ensures variable { (texts : List Text) → tree texts heap.now.now.terms result ≡ Var number }
{
    heap.var_term(VarId(number))
}

/// A name over two arguments.
pub(crate) fn over(
    heap: &mut Heap,
    atoms: &mut Atoms,
    text: &str,
    first: TermId,
    second: TermId,
) -> Result<TermId, AllocError>
    requires first { first < length heap.old.now.terms }
    requires second { second < length heap.old.now.terms }
    requires names { KnowsTerms atoms.old heap.old.now.terms }
    ensures live { IfOk result (λ id. id < length heap.new.now.terms) }
    ensures built { IfOk result (λ id. tree atoms.new heap.new.now.terms id
        ≡ binary text.now (tree atoms.old heap.old.now.terms first) (tree atoms.old heap.old.now.terms second)) }
    ensures grows { Grows atoms.old heap.old atoms.new heap.new }
{
    compound(heap, atoms, text, &[first, second])
}
