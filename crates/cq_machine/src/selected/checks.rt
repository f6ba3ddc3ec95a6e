// The rows of goals that are checked, and do nothing.

ghost use Rattle.std.specs.Prelude.{◌≡◌, ◌<◌, ℕ, None, Some, All, length, map, IfOk, IfSome, IfNone};
ghost use Rattle.spec_builtins.specs.Clauses.{not_changeable};
ghost use Rattle.spec_search.specs.Builtins.{UseModule, Discontiguous, is_built_in};
ghost use Rattle.cq_built.specs.Errors.{indicator_of};
ghost use Rattle.cq_goals.specs.Declarations.{built_in_error};
ghost use Rattle.cq_term.specs.Meaning.{at};
ghost use Rattle.cq_term.specs.Shown.{arguments};
ghost use Rattle.cq_machine.specs.Machines.{terms, IsSound};
ghost use Rattle.cq_machine.specs.Stepping.{row_of, LeadsTo, CanGo};

use crate::{Machine, Step};
use cq_built::{BuiltinError, BuiltinFault, Culprit, Permission};
use cq_control::Continuation;
use cq_goals::declarations::{check_declaration, check_module, declarations_in_turn};
use cq_predicates::table::Builtin;
use cq_term::atoms::Atoms;
use cq_term::{Pred, TermId};
use std::alloc::AllocError;

/// `use_module(M)`.
pub fn use_module(m: &Machine, goal: TermId, rest: Continuation) -> Step
    requires sound { IsSound m.now }
    requires goal { goal < length (terms m.now) }
    requires one { length (arguments (at (terms m.now) goal)) ≡ 1 }
    requires rest { rest < length m.now.world.second.now }
    ensures row { (height : ℕ) → LeadsTo m.now m.now goal height rest (row_of UseModule) result }
    ensures goes { CanGo m.now result }
{
    let module = m.world.first.heap.arg(goal, 0);
    match check_module(&m.world.first.heap, &m.atoms, module) {
        Ok(()) => Step::succeed_if(true, rest),
        Err(error) => Step::Raises(error),
    }
}

/// `discontiguous(P)`.
pub fn discontiguous(m: &Machine, goal: TermId, rest: Continuation) -> Result<Step, AllocError>
    requires sound { IsSound m.now }
    requires goal { goal < length (terms m.now) }
    requires one { length (arguments (at (terms m.now) goal)) ≡ 1 }
    requires rest { rest < length m.now.world.second.now }
    ensures row { IfOk result (λ s. (height : ℕ) → LeadsTo m.now m.now goal height rest (row_of Discontiguous) s) }
    ensures goes { IfOk result (CanGo m.now) }
{
    declarations_in_turn();
    let declared = m.world.first.heap.arg(goal, 0);
    match check_declaration(&m.world.first.heap, &m.atoms, declared) {
        Ok(predicates) => match first_built_in(&m.atoms, &predicates) {
            Some(predicate) => Ok(Step::Raises(not_changeable(predicate))),
            None => Ok(Step::succeed_if(true, rest)),
        },
        Err(fault) => match fault {
            BuiltinFault::Error(error) => Ok(Step::Raises(error)),
            BuiltinFault::NoMemory => Err(AllocError),
        },
    }
}

/// The error of a goal that would change a predicate that is not to be changed.
fn not_changeable(predicate: Pred) -> BuiltinError
    ensures { result ≡ BuiltinError.Permission Permission.ModifyStaticProcedure (Culprit.Predicate predicate) }
{
    BuiltinError::Permission(
        Permission::ModifyStaticProcedure,
        Culprit::Predicate(predicate),
    )
}

/// The first of some predicates that is built in.
fn first_built_in(atoms: &Atoms, predicates: &[Pred]) -> Option<Pred>
    requires { All (λ p. p.name < length atoms.now) predicates.now }
    ensures some { IfSome result (λ p. built_in_error is_built_in (map (indicator_of atoms.now) predicates.now)
        ≡ Some (not_changeable (indicator_of atoms.now p))) }
    ensures known { IfSome result (λ p. p.name < length atoms.now) }
    ensures none { IfNone result (built_in_error is_built_in (map (indicator_of atoms.now) predicates.now) ≡ None) }
{
    for predicate in predicates {
        let name = atoms.text(predicate.name);
        if Builtin::named(name, predicate.arity).is_some() {
            return Some(*predicate);
        }
    }
    None
}
