// The execution of a selected goal.

ghost use Rattle.std.specs.Prelude.{◌≡◌, ◌<◌, ℕ, true, length, IfOk, IfErr, IfSome, OnOk, OnErr};
ghost use Rattle.spec_builtins.specs.Kinds.{is_callable};
ghost use Rattle.spec_search.specs.Replies.{Place, Raises};
ghost use Rattle.spec_search.specs.Rows.{reply_of};
ghost use Rattle.cq_built.specs.Errors.{error_tree, HasCulprit};
ghost use Rattle.cq_goals.specs.Clauses.{IsOf};
ghost use Rattle.cq_term.specs.Trees.{tree, KnowsTerms};
ghost use Rattle.cq_machine.specs.Machines.{terms, IsSound, StillStands};
ghost use Rattle.cq_machine.specs.Stepping.{CanGo, OnRaises};
ghost use Rattle.cq_machine.specs.Calls.{step_of};
ghost use Rattle.cq_machine.specs.Stops.{IsSelectedFrom};
ghost use Rattle.cq_execute.specs.Executions.{Executes, ExecutesCall, IsCallSelectedSomewhere, KeepsClauses, KeepsWalks, HasSameDatabase};
ghost use Rattle.cq_execute.specs.Callees.{IsCallee};
ghost use Rattle.cq_execute.specs.Rows.{IsAtGoal, IsCallOf, IsDone};
ghost use Rattle.cq_execute.specs.Stops.{StopsThere};

use crate::executed::Executed;
use crate::rows::execute_builtin;
use crate::steps::{quiet, silent, stepped};
use cq_branch::selected_goals_lead;
use cq_built::{BuiltinError, BuiltinFault, Culprit, ValidType};
use cq_control::Continuation;
use cq_machine::selected::call_procedure;
use cq_machine::{Machine, Step};
use cq_predicates::table::Builtin;
use cq_store::store::StoreFault;
use cq_term::atoms::Atoms;
use cq_term::{Heap, Pred, TermId, View};
use std::alloc::AllocError;

/// Executes the selected goal: what it calls is found by its name and number of arguments, a built-in predicate or else a user
/// procedure, unless it is `known` to be a built-in predicate. A cut in it goes back to the height. An error is the stop of the
/// query, or want of memory.
pub fn execute(
    m: &mut Machine,
    known: Option<Builtin>,
    goal: TermId,
    height: usize,
    rest: Continuation,
) -> Result<Executed, StoreFault>
    requires sound { IsSound m.old }
    requires selected { IsSelectedFrom m.old goal height rest }
    requires known { IfSome known (IsCallOf m.old goal) }
    ensures row { IfOk result (Executes m.old m.new goal height rest) }
    ensures stop { IfErr result (StopsThere m.old goal height rest) }
    ensures goes { IfOk result (λ x. CanGo m.new x.step) }
    ensures raises { IfOk result (λ x. OnRaises x.step (StillStands m.old m.new)) }
    ensures sound { IsSound m.new }
    ensures program { KeepsWalks m.old m.new }
    ensures err { OnErr result (StillStands m.old m.new) }
    ensures err_database { OnErr result (HasSameDatabase m.old m.new) }
{
    selected_goals_lead();
    match known {
        Some(builtin) => execute_builtin(m, builtin, goal, height, rest),
        None => execute_goal(m, goal, height, rest),
    }
}

/// The same, where the goal and the continuation are known to be there.
fn execute_goal(
    m: &mut Machine,
    goal: TermId,
    height: usize,
    rest: Continuation,
) -> Result<Executed, StoreFault>
    requires at { IsAtGoal m.old goal height rest }
    ensures { IsDone m.old m.new goal height rest result }
{
    let world = &m.world;
    match predicate_of(&world.first.heap, &m.atoms, goal) {
        Ok(predicate) => execute_named(m, predicate, goal, height, rest),
        Err(error) => {
            let alloc = m.world.first.heap.alloc();
            Ok(silent(alloc, Step::Raises(error)))
        }
    }
}

/// The predicate that a goal calls, or the error that it raises, a variable or a number.
#[inline(always)]
fn predicate_of(heap: &Heap, atoms: &Atoms, goal: TermId) -> Result<Pred, BuiltinError>
    requires live { goal < length heap.now.now.terms }
    requires names { KnowsTerms atoms.now heap.now.now.terms }
    ensures callable { OnOk result (is_callable (tree atoms.now heap.now.now.terms goal) ≡ true) }
    ensures predicate { IfOk result (λ p. IsOf atoms.now p (tree atoms.now heap.now.now.terms goal)) }
    ensures error { IfErr result (λ e. (p : Place) → reply_of p (tree atoms.now heap.now.now.terms goal) ≡ Raises (error_tree atoms.now heap.now.now.terms e)) }
    ensures culprit { IfErr result (HasCulprit atoms.now heap.now.now.terms) }
{
    match heap.view(goal) {
        View::Var(_) => Err(BuiltinError::Instantiation),
        View::Number(_) => Err(not_callable(goal)),
        View::Name(name) => Ok(Pred { name, arity: 0 }),
        View::Compound(name, arity) => Ok(Pred { name, arity }),
    }
}

/// The error of a goal that is a number.
fn not_callable(goal: TermId) -> BuiltinError
    ensures { result ≡ BuiltinError.Type ValidType.Callable (Culprit.Term goal) }
{
    BuiltinError::Type(ValidType::Callable, Culprit::Term(goal))
}

/// Executes the selected goal of a predicate.
fn execute_named(
    m: &mut Machine,
    predicate: Pred,
    goal: TermId,
    height: usize,
    rest: Continuation,
) -> Result<Executed, StoreFault>
    requires at { IsAtGoal m.old goal height rest }
    requires callable { is_callable (tree m.old.atoms (terms m.old) goal) ≡ true }
    requires predicate { IsOf m.old.atoms predicate (tree m.old.atoms (terms m.old) goal) }
    ensures { IsDone m.old m.new goal height rest result }
{
    let Pred { name, arity } = predicate;
    match m.names.builtins.get(Pred { name, arity }) {
        Some(builtin) => execute_builtin(m, builtin, goal, height, rest),
        None => {
            let alloc = m.world.first.heap.alloc();
            let called = call_procedure(m, predicate, goal, rest);
            quiet(alloc, stepped(Pred { name, arity }, called))
        }
    }
}

/// What a goal calls.
#[derive(Clone, Copy)]
pub(crate) enum Callee {
    Builtin(Builtin),
    /// A user predicate, by its name and number of arguments.
    Procedure(Pred),
    /// Nothing: a variable or a number, which is an error.
    Nothing,
}

/// What a goal calls, by its name and number of arguments.
pub(crate) fn find_callee(m: &Machine, goal: TermId) -> Callee
    requires sound { IsSound m.now }
    requires live { goal < length (terms m.now) }
    ensures { IsCallee m.now goal result }
{
    let world = &m.world;
    match predicate_of(&world.first.heap, &m.atoms, goal) {
        Ok(predicate) => {
            let Pred { name, arity } = predicate;
            match m.names.builtins.get(Pred { name, arity }) {
                Some(builtin) => Callee::Builtin(builtin),
                None => Callee::Procedure(predicate),
            }
        }
        Err(_) => Callee::Nothing,
    }
}

/// Executes call of a term, which a construct or a goal that woke has put in front so: a cut in it sees no choice that is there
/// now.
pub fn execute_call(
    m: &mut Machine,
    called: TermId,
    rest: Continuation,
) -> Result<Executed, AllocError>
    requires sound { IsSound m.old }
    requires selected { IsCallSelectedSomewhere m.old called rest }
    ensures row { IfOk result (ExecutesCall m.old m.new called rest) }
    ensures goes { IfOk result (λ x. CanGo m.new x.step) }
    ensures raises { IfOk result (λ x. OnRaises x.step (StillStands m.old m.new)) }
    ensures sound { IsSound m.new }
    ensures program { KeepsClauses m.old m.new }
    ensures database { HasSameDatabase m.old m.new }
    ensures err { OnErr result (StillStands m.old m.new) }
{
    selected_goals_lead();
    let alloc = m.world.first.heap.alloc();
    match cq_branch::call(&mut m.world, &m.choices, &m.atoms, called, rest) {
        Ok(k) => Ok(silent(alloc, Step::Goes(k))),
        Err(fault) => match fault {
            BuiltinFault::Error(error) => Ok(silent(alloc, Step::Raises(error))),
            BuiltinFault::NoMemory => Err(AllocError),
        },
    }
}
