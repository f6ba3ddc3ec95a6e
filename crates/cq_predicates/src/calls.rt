// One call for all predicates.

ghost use Rattle.std.specs.Prelude.{◌≡◌, ◌<◌, All, length, IfOk, IfErr, OnErr};
ghost use Rattle.spec_search.specs.Predicates.{arity};
ghost use Rattle.cq_term.specs.Trees.{KnowsTerms};
ghost use Rattle.cq_built.specs.Errors.{Explains, CanBeRaised};
ghost use Rattle.cq_predicates.specs.Names.{as_predicate};
ghost use Rattle.cq_predicates.specs.Calls.{solutions_on};
ghost use Rattle.cq_predicates.specs.Given.{CanGoOn, Gives, Adds};

use crate::predicates::Predicate;
use crate::solutions::Solutions;
use crate::terms::{chosen, compared, copied, listed, related, tested};
use crate::texts::{converted, joined, measured, parted};
use cq_built::BuiltinFault;
use cq_term::atoms::Atoms;
use cq_term::{Heap, TermId};

/// What a call of a predicate gives: its alternatives, or why it has none. `atoms` has to know the names in the heap's terms.
/// After a fault the heap is as it was; names may stay.
pub fn call(
    heap: &mut Heap,
    atoms: &mut Atoms,
    predicate: Predicate,
    args: &[TermId],
) -> Result<Solutions, BuiltinFault>
    requires arity { length args.now ≡ arity (as_predicate predicate) }
    requires live { All (λ id. id < length heap.old.now.terms) args.now }
    requires names { KnowsTerms atoms.old heap.old.now.terms }
    ensures offered { IfOk result (Gives atoms.new heap.old.now heap.new.now (solutions_on atoms.old heap.old.now predicate args.now)) }
    ensures live { IfOk result (CanGoOn heap.new.now.terms) }
    ensures fault { IfErr result (Explains atoms.old heap.old.now.terms (solutions_on atoms.old heap.old.now predicate args.now)) }
    ensures culprit { IfErr result (CanBeRaised atoms.old heap.old.now.terms) }
    ensures adds { Adds atoms.old heap.old atoms.new heap.new }
    ensures err { OnErr result (heap.new.now ≡ heap.old.now) }
{
    match predicate {
        Predicate::Order(comparison) => {
            let solutions = compared(heap, atoms, comparison, args)?;
            Ok(solutions)
        }
        Predicate::Test(wanted) => {
            let solutions = tested(heap, atoms, wanted, args)?;
            Ok(solutions)
        }
        Predicate::Arg => chosen(heap, atoms, args),
        Predicate::Functor => related(heap, atoms, args),
        Predicate::Univ => listed(heap, atoms, args),
        Predicate::CopyTerm => {
            let solutions = copied(heap, atoms, args)?;
            Ok(solutions)
        }
        Predicate::Convert(conversion) => converted(heap, atoms, conversion, args),
        Predicate::AtomLength => measured(heap, atoms, args),
        Predicate::AtomConcat => joined(heap, atoms, args),
        Predicate::SubAtom => parted(heap, atoms, args),
    }
}
