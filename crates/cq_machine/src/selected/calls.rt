// The rows of goals that call a term with further arguments, or a user predicate.

ghost use Rattle.std.specs.Prelude.{◌≡◌, ◌<◌, ◌++◌, ℕ, drop, length, map, All, IfOk, IfSome, IfNone, OnErr};
ghost use Rattle.spec_builtins.specs.Terms as builtins;
ghost use Rattle.spec_search.specs.Builtins.{Call};
ghost use Rattle.spec_search.specs.Control.{with_more};
ghost use Rattle.cq_goals.specs.Clauses.{IsOf};
ghost use Rattle.cq_term.specs.Meaning.{at};
ghost use Rattle.cq_term.specs.Shown.{arguments};
ghost use Rattle.cq_term.specs.Trees.{tree};
ghost use Rattle.cq_machine.specs.Machines.{terms, IsSound, HasSameProgram, StillStands, HasBuilt};
ghost use Rattle.cq_machine.specs.Stepping.{row_of, IsSelectedSomewhere, LeadsTo, CanGo, OnRaises};
ghost use Rattle.cq_machine.specs.Calls.{Calls, HasName, HasNoName, step_of};

use crate::{Machine, Step, build};
use cq_built::BuiltinFault;
use cq_calls::Called;
use cq_control::Continuation;
use cq_term::atoms::Atom;
use cq_term::{Heap, Pred, TermId, View};
use std::alloc::AllocError;

/// A goal calls a user predicate: the machine goes on with the first clause whose branch is kept, with the others as a choice, or
/// comes back. It is an error of the goal that there is no such procedure.
pub fn call_procedure(
    m: &mut Machine,
    predicate: Pred,
    goal: TermId,
    rest: Continuation,
) -> Result<Called, AllocError>
    requires sound { IsSound m.old }
    requires selected { IsSelectedSomewhere m.old goal rest }
    requires goal { goal < length (terms m.old) }
    requires predicate { IsOf m.old.atoms predicate (tree m.old.atoms (terms m.old) goal) }
    ensures row { IfOk result (λ c. Calls m.old m.new goal rest (step_of predicate c)) }
    ensures goes { IfOk result (λ c. CanGo m.new (step_of predicate c)) }
    ensures raises { IfOk result (λ c. OnRaises (step_of predicate c) (StillStands m.old m.new)) }
    ensures sound { IsSound m.new }
    ensures program { HasSameProgram m.old m.new }
    ensures err { OnErr result (StillStands m.old m.new) }
{
    let called = predicate;
    let found = cq_calls::call_procedure(
        &mut m.world,
        &mut m.choices,
        &m.atoms,
        &mut m.clauses,
        called,
        goal,
        rest,
    )?;
    match found {
        Called::Goes(k) => Ok(Called::Goes(k)),
        Called::Back => Ok(Called::Back),
        Called::Unknown => Ok(Called::Unknown),
    }
}

/// `call(G,A,..)` becomes G with the further arguments, in which a cut sees no choice that is there now.
pub fn call_with_more(m: &mut Machine, goal: TermId, rest: Continuation) -> Result<Step, AllocError>
    requires sound { IsSound m.old }
    requires goal { goal < length (terms m.old) }
    requires some { 0 < length (arguments (at (terms m.old) goal)) }
    requires rest { rest < length m.old.world.second.now }
    ensures row { IfOk result (λ s. (height : ℕ) → LeadsTo m.old m.new goal height rest (row_of Call) s) }
    ensures goes { IfOk result (CanGo m.new) }
    ensures raises { IfOk result (λ s. OnRaises s (StillStands m.old m.new)) }
    ensures sound { IsSound m.new }
    ensures program { HasSameProgram m.old m.new }
    ensures err { OnErr result (StillStands m.old m.new) }
{
    let called = m.world.first.heap.arg(goal, 0);
    let whole = extended(m, called, goal)?;
    match cq_branch::call(&mut m.world, &m.choices, &m.atoms, whole, rest) {
        Ok(k) => Ok(Step::Goes(k)),
        Err(BuiltinFault::Error(error)) => Ok(Step::Raises(error)),
        Err(BuiltinFault::NoMemory) => Err(AllocError),
    }
}

/// The term that a goal calls, with the goal's further arguments behind its own; a variable and a number as they are.
fn extended(m: &mut Machine, called: TermId, goal: TermId) -> Result<TermId, AllocError>
    requires sound { IsSound m.old }
    requires called { called < length (terms m.old) }
    requires goal { goal < length (terms m.old) }
    requires some { 0 < length (arguments (at (terms m.old) goal)) }
    ensures live { IfOk result (λ id. id < length (terms m.new)) }
    ensures built { IfOk result (λ id. tree m.old.atoms (terms m.new) id ≡ with_more (tree m.old.atoms (terms m.old) called)
        (drop 1 (builtins.arguments (tree m.old.atoms (terms m.old) goal)))) }
    ensures more { HasBuilt m.old m.new }
    ensures sound { IsSound m.new }
    ensures stands { StillStands m.old m.new }
{
    let Some(name) = name_of(&m.world.first.heap, called) else {
        return Ok(called);
    };
    let args = all_arguments(&m.world.first.heap, called, goal)?;
    let id = build(m, name, &args)?;
    Ok(id)
}

/// The name of an atom or a compound.
fn name_of(heap: &Heap, id: TermId) -> Option<Atom>
    requires { id < length heap.now.now.terms }
    ensures some { IfSome result (HasName (at heap.now.now.terms id)) }
    ensures none { IfNone result (HasNoName (at heap.now.now.terms id)) }
{
    match heap.view(id) {
        View::Var(_) => None,
        View::Number(_) => None,
        View::Name(name) => Some(name),
        View::Compound(name, _) => Some(name),
    }
}

/// The arguments of a term, and behind them those of a goal but its first.
fn all_arguments(heap: &Heap, called: TermId, goal: TermId) -> Result<Vec<TermId>, AllocError>
    requires called { called < length heap.now.now.terms }
    requires goal { goal < length heap.now.now.terms }
    requires some { 0 < length (arguments (at heap.now.now.terms goal)) }
    ensures live { IfOk result (λ ids. All (λ i. i < length heap.now.now.terms) ids.items) }
    ensures are { IfOk result (λ ids. map (at heap.now.now.terms) ids.items
        ≡ arguments (at heap.now.now.terms called) ++ drop 1 (arguments (at heap.now.now.terms goal))) }
{
    let own = heap.args(called);
    let given = heap.args(goal);
    let mut all = Vec::new(heap.alloc());
    all.extend_from_slice(own)?;
    all.extend_from_slice(&given[1..])?;
    Ok(all)
}
