// The row of a predicate on terms or texts, by the arguments of the selected goal.

ghost use Rattle.std.specs.Prelude.{◌≡◌, ◌<◌, ℕ, All, List, length, map, IfOk, IfErr, OnOk, OnErr};
ghost use Rattle.spec_syntax.specs.Trees.{Tree};
ghost use Rattle.spec_branch.specs.Branch.{Branch};
ghost use Rattle.spec_builtins.specs.Terms as builtins;
ghost use Rattle.spec_search.specs.Predicates.{arity};
ghost use Rattle.spec_search.specs.Replies.{Place};
ghost use Rattle.cq_built.specs.Errors.{CanBeRaised};
ghost use Rattle.cq_predicates.specs.Names.{as_predicate};
ghost use Rattle.cq_term.specs.Meaning.{at};
ghost use Rattle.cq_term.specs.Shown.{arguments};
ghost use Rattle.cq_choices.specs.Calls.{CallLeads, CallRaises, row_of};
ghost use Rattle.cq_machine.specs.Machines.{terms, now, IsSound, StillStands};
ghost use Rattle.cq_machine.specs.Stepping.{IsSelectedAt, IsStep, CanGo, OnRaises};
ghost use Rattle.cq_machine.specs.Offers.{held_by, HasMoreNames};

use crate::{Machine, Step};
use cq_built::BuiltinFault;
use cq_choices::{call_predicate, names_are_of_terms, names_may_be_added};
use cq_control::Continuation;
use cq_ops::more_names_keep_the_table;
use cq_predicates::Predicate;
use cq_term::{Heap, TermId};
use std::alloc::AllocError;

/// The arguments of a goal, in order.
fn arguments_of(heap: &Heap, goal: TermId) -> Result<Vec<TermId>, AllocError>
    requires { goal < length heap.now.now.terms }
    ensures live { IfOk result (λ ids. All (λ i. i < length heap.now.now.terms) ids.items) }
    ensures args { IfOk result (λ ids. map (at heap.now.now.terms) ids.items ≡ arguments (at heap.now.now.terms goal)) }
{
    let mut ids = Vec::new(heap.alloc());
    ids.extend_from_slice(heap.args(goal))?;
    Ok(ids)
}

/// Calls a predicate on a machine, with a continuation behind its goal.
fn call_on(
    m: &mut Machine,
    predicate: Predicate,
    args: &[TermId],
    rest: Continuation,
) -> Result<(), BuiltinFault>
    requires sound { IsSound m.old }
    requires arity { length args.now ≡ arity (as_predicate predicate) }
    requires live { All (λ id. id < length (terms m.old)) args.now }
    ensures row { OnOk result (CallLeads (held_by m.old) (held_by m.new) (as_predicate predicate) args.now rest) }
    ensures fault { IfErr result (CallRaises (held_by m.old) (as_predicate predicate) args.now) }
    ensures culprit { IfErr result (CanBeRaised m.old.atoms (terms m.old)) }
    ensures now { OnErr result (now m.new ≡ now m.old) }
    ensures err { OnErr result (StillStands m.old m.new) }
    ensures sound { IsSound m.new }
    ensures program { HasMoreNames m.old m.new }
    ensures budget { m.new.world.first.store.pivots ≡ m.old.world.first.store.pivots }
{
    names_may_be_added();
    more_names_keep_the_table();
    names_are_of_terms(&m.world, &m.choices);
    let called = call_predicate(
        &mut m.world,
        &mut m.choices,
        &mut m.atoms,
        predicate,
        args,
        rest,
    );
    m.atoms.text(m.names.truth);
    called
}

/// The selected goal's predicate is called. Its alternatives are left as a choice, to which the machine comes back at once to
/// try them. Where the goal raises an error, or for want of memory, nothing has changed but names that may have been added.
pub fn offer(
    m: &mut Machine,
    predicate: Predicate,
    goal: TermId,
    rest: Continuation,
) -> Result<Step, AllocError>
    requires sound { IsSound m.old }
    requires goal { goal < length (terms m.old) }
    requires arity { length (arguments (at (terms m.old) goal)) ≡ arity (as_predicate predicate) }
    ensures row { IfOk result (λ s. (height : ℕ) (p : Place) (behind : List Branch) (g : Tree) → IsSelectedAt m.old goal height rest p behind g
        → IsStep m.new s p behind (row_of (as_predicate predicate) p (builtins.arguments g))) }
    ensures goes { IfOk result (CanGo m.new) }
    ensures raises { IfOk result (λ s. OnRaises s (StillStands m.old m.new)) }
    ensures err { OnErr result (StillStands m.old m.new) }
    ensures sound { IsSound m.new }
    ensures program { HasMoreNames m.old m.new }
    ensures budget { m.new.world.first.store.pivots ≡ m.old.world.first.store.pivots }
{
    let args = arguments_of(&m.world.first.heap, goal)?;
    match call_on(m, predicate, &args, rest) {
        Ok(()) => Ok(Step::Back),
        Err(BuiltinFault::Error(error)) => Ok(Step::Raises(error)),
        Err(BuiltinFault::NoMemory) => Err(AllocError),
    }
}
