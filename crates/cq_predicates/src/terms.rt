// Calls of the predicates on terms.

ghost use Rattle.std.specs.Prelude.{◌≡◌, ◌<◌, All, length, IfOk, IfErr, OnErr};
ghost use Rattle.cq_term.specs.Trees.{KnowsTerms};
ghost use Rattle.cq_built.specs.Errors.{Explains, CanBeRaised};
ghost use Rattle.cq_predicates.specs.Calls.{solutions_on};
ghost use Rattle.cq_predicates.specs.Given.{CanGoOn, Gives, Adds};

use crate::predicates::Predicate;
use crate::solutions::{Solutions, Ways};
use cq_built::BuiltinFault;
use cq_builtin::{Comparison, TypeTest, arg, copy_term, functor, order, test, univ};
use cq_term::atoms::Atoms;
use cq_term::{Heap, TermId};
use std::alloc::AllocError;

/// Whether two terms stand so in the standard order.
pub(crate) fn compared(
    heap: &Heap,
    atoms: &Atoms,
    comparison: Comparison,
    args: &[TermId],
) -> Result<Solutions, AllocError>
    requires arity { length args.now ≡ 2 }
    requires live { All (λ id. id < length heap.now.now.terms) args.now }
    requires names { KnowsTerms atoms.now heap.now.now.terms }
    ensures offered { IfOk result (Gives atoms.now heap.now.now heap.now.now (solutions_on atoms.now heap.now.now (Predicate.Order comparison) args.now)) }
    ensures live { IfOk result (CanGoOn heap.now.now.terms) }
{
    let holds = order(heap, atoms, comparison, args[0], args[1])?;
    Ok(Solutions {
        given_back: None,
        ways: Ways::Test(holds),
    })
}

/// Whether a term passes a test.
pub(crate) fn tested(
    heap: &Heap,
    atoms: &Atoms,
    wanted: TypeTest,
    args: &[TermId],
) -> Result<Solutions, AllocError>
    requires arity { length args.now ≡ 1 }
    requires live { All (λ id. id < length heap.now.now.terms) args.now }
    requires names { KnowsTerms atoms.now heap.now.now.terms }
    ensures offered { IfOk result (Gives atoms.now heap.now.now heap.now.now (solutions_on atoms.now heap.now.now (Predicate.Test wanted) args.now)) }
    ensures live { IfOk result (CanGoOn heap.now.now.terms) }
{
    let holds = test(heap, atoms, wanted, args[0])?;
    Ok(Solutions {
        given_back: None,
        ways: Ways::Test(holds),
    })
}

/// The argument of a compound at a place.
pub(crate) fn chosen(heap: &Heap, atoms: &Atoms, args: &[TermId]) -> Result<Solutions, BuiltinFault>
    requires arity { length args.now ≡ 3 }
    requires live { All (λ id. id < length heap.now.now.terms) args.now }
    requires names { KnowsTerms atoms.now heap.now.now.terms }
    ensures offered { IfOk result (Gives atoms.now heap.now.now heap.now.now (solutions_on atoms.now heap.now.now Predicate.Arg args.now)) }
    ensures live { IfOk result (CanGoOn heap.now.now.terms) }
    ensures fault { IfErr result (Explains atoms.now heap.now.now.terms (solutions_on atoms.now heap.now.now Predicate.Arg args.now)) }
    ensures culprit { IfErr result (CanBeRaised atoms.now heap.now.now.terms) }
{
    match arg(heap, args[0], args[1], args[2]) {
        Ok(pair) => Ok(Solutions {
            given_back: None,
            ways: Ways::Pair(pair),
        }),
        Err(error) => Err(BuiltinFault::Error(error)),
    }
}

/// A term with its name and its number of arguments.
pub(crate) fn related(
    heap: &mut Heap,
    atoms: &Atoms,
    args: &[TermId],
) -> Result<Solutions, BuiltinFault>
    requires arity { length args.now ≡ 3 }
    requires live { All (λ id. id < length heap.old.now.terms) args.now }
    requires names { KnowsTerms atoms.now heap.old.now.terms }
    ensures offered { IfOk result (Gives atoms.now heap.old.now heap.new.now (solutions_on atoms.now heap.old.now Predicate.Functor args.now)) }
    ensures live { IfOk result (CanGoOn heap.new.now.terms) }
    ensures fault { IfErr result (Explains atoms.now heap.old.now.terms (solutions_on atoms.now heap.old.now Predicate.Functor args.now)) }
    ensures culprit { IfErr result (CanBeRaised atoms.now heap.old.now.terms) }
    ensures adds { Adds atoms.now heap.old atoms.now heap.new }
    ensures err { OnErr result (heap.new.now ≡ heap.old.now) }
{
    let way = functor(heap, atoms, args[0], args[1], args[2])?;
    Ok(Solutions {
        given_back: None,
        ways: Ways::Pairs(Some(way)),
    })
}

/// A term with the list of its name and its arguments.
pub(crate) fn listed(
    heap: &mut Heap,
    atoms: &mut Atoms,
    args: &[TermId],
) -> Result<Solutions, BuiltinFault>
    requires arity { length args.now ≡ 2 }
    requires live { All (λ id. id < length heap.old.now.terms) args.now }
    requires names { KnowsTerms atoms.old heap.old.now.terms }
    ensures offered { IfOk result (Gives atoms.new heap.old.now heap.new.now (solutions_on atoms.old heap.old.now Predicate.Univ args.now)) }
    ensures live { IfOk result (CanGoOn heap.new.now.terms) }
    ensures fault { IfErr result (Explains atoms.old heap.old.now.terms (solutions_on atoms.old heap.old.now Predicate.Univ args.now)) }
    ensures culprit { IfErr result (CanBeRaised atoms.old heap.old.now.terms) }
    ensures adds { Adds atoms.old heap.old atoms.new heap.new }
    ensures err { OnErr result (heap.new.now ≡ heap.old.now) }
{
    let pair = univ(heap, atoms, args[0], args[1])?;
    Ok(Solutions {
        given_back: None,
        ways: Ways::Pair(Some(pair)),
    })
}

/// A term under new variables.
pub(crate) fn copied(
    heap: &mut Heap,
    atoms: &Atoms,
    args: &[TermId],
) -> Result<Solutions, AllocError>
    requires arity { length args.now ≡ 2 }
    requires live { All (λ id. id < length heap.old.now.terms) args.now }
    requires names { KnowsTerms atoms.now heap.old.now.terms }
    ensures offered { IfOk result (Gives atoms.now heap.old.now heap.new.now (solutions_on atoms.now heap.old.now Predicate.CopyTerm args.now)) }
    ensures live { IfOk result (CanGoOn heap.new.now.terms) }
    ensures adds { Adds atoms.now heap.old atoms.now heap.new }
    ensures err { OnErr result (heap.new.now ≡ heap.old.now) }
{
    let pair = copy_term(heap, atoms, args[0], args[1])?;
    Ok(Solutions {
        given_back: None,
        ways: Ways::Pair(Some(pair)),
    })
}
