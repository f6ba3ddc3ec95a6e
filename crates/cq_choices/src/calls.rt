// A call of a predicate.

ghost use Rattle.std.specs.Prelude.{◌≡◌, ◌<◌, All, List, length, IfErr, OnOk, OnErr};
ghost use Rattle.spec_numbers.specs.Prefixes.{IsPrefix};
ghost use Rattle.spec_search.specs.Predicates.{arity};
ghost use Rattle.cq_built.specs.Errors.{CanBeRaised};
ghost use Rattle.cq_predicates.specs.Names.{as_predicate};
ghost use Rattle.cq_term.specs.Trees.{KnowsTerms};
ghost use Rattle.cq_choices.specs.Calls.{CallLeads, CallRaises, LeavesWays};
ghost use Rattle.cq_choices.specs.Held.{held, HasMarks, IsAsBefore, StaysOver};

use crate::laws::names_are_of_terms;
use crate::marks::renew;
use cq_branch::{Alternatives, Searching};
use cq_built::BuiltinFault;
use cq_control::{Choices, Continuation};
use cq_predicates::{Predicate, call};
use cq_term::TermId;
use cq_term::atoms::Atoms;

/// Calls a predicate, with a continuation behind its goal. Its alternatives are left as a choice, to which the search is to come
/// back at once; the terms and the variables that the call added stand in the world of the choice. A fault is the error of the
/// call, or want of memory; then nothing has changed but names that may have been added.
pub fn call_predicate(
    world: &mut Searching,
    choices: &mut Choices<Alternatives>,
    atoms: &mut Atoms,
    predicate: Predicate,
    args: &[TermId],
    rest: Continuation,
) -> Result<(), BuiltinFault>
    requires arity { length args.now ≡ arity (as_predicate predicate) }
    requires live { All (λ id. id < length world.old.first.heap.now.terms) args.now }
    requires names { KnowsTerms atoms.old world.old.first.heap.now.terms }
    requires marked { HasMarks (held atoms.old world.old.first world.old.second choices.old) }
    ensures row { OnOk result (CallLeads (held atoms.old world.old.first world.old.second choices.old)
        (held atoms.new world.new.first world.new.second choices.new) (as_predicate predicate) args.now rest) }
    ensures leaves { OnOk result (LeavesWays (held atoms.old world.old.first world.old.second choices.old)
        (held atoms.new world.new.first world.new.second choices.new) rest) }
    ensures fault { IfErr result (CallRaises (held atoms.old world.old.first world.old.second choices.old) (as_predicate predicate) args.now) }
    ensures culprit { IfErr result (CanBeRaised atoms.old world.old.first.heap.now.terms) }
    ensures err { OnErr result (IsAsBefore (held atoms.old world.old.first world.old.second choices.old)
        (held atoms.new world.new.first world.new.second choices.new)) }
    ensures over { StaysOver (held atoms.old world.old.first world.old.second choices.old)
        (held atoms.new world.new.first world.new.second choices.new) }
    ensures names { KnowsTerms atoms.new world.new.first.heap.now.terms }
    ensures longer { IsPrefix atoms.old atoms.new }
    ensures lists { world.new.second.now ≡ world.old.second.now }
    ensures budget { world.new.first.store.pivots ≡ world.old.first.store.pivots }
    ensures marked { HasMarks (held atoms.new world.new.first world.new.second choices.new) }
{
    names_are_of_terms(world, choices);
    choices.push(world, Alternatives::Barrier)?;
    match call(&mut world.first.heap, atoms, predicate, args) {
        Ok(solutions) => {
            renew(world, choices, Alternatives::Ways(solutions, rest));
            Ok(())
        }
        Err(fault) => {
            choices.back(world);
            Err(fault)
        }
    }
}
