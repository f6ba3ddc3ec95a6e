// Declarations of operators.

ghost use Rattle.std.specs.Prelude.{◌≡◌, ◌<◌, List, None, Some, true, length, is_some, All, IfOk, IfErr, IfSome, IsNone, OnOk, OnErr};
ghost use Rattle.std.specs.List.{list_any, list_all};
ghost use Rattle.spec_numbers.specs.Texts.{Text};
ghost use Rattle.spec_terms.specs.Term.{Name};
ghost use Rattle.spec_syntax.specs.Trees.{Tree};
ghost use Rattle.spec_syntax.specs.Writing.{IsTable};
ghost use Rattle.spec_syntax.specs.Operators.{in_range, kind_named};
ghost use Rattle.spec_builtins.specs.Kinds.{is_variable, is_name};
ghost use Rattle.spec_builtins.specs.Operators.{whole_of, named_set, table_or};
ghost use Rattle.cq_term.specs.Texts.{text_of};
ghost use Rattle.cq_term.specs.Trees.{tree, trees, KnowsTerms};
ghost use Rattle.cq_built.specs.Errors.{error_tree, HasCulprit, CanBeRaised};
ghost use Rattle.cq_ops.specs.Tables.{named, AreNamed};
ghost use Rattle.cq_built.specs.Faults.{IsFound};
ghost use Rattle.cq_goals.specs.Operators.{IsLiveGoal, IsAsked, AreOperands, AreListed, goal_error, table_after, is_unbound, are_names, priority_error, kind_error, arguments_error, refusal_error, first_refused, is_cause};

use cq_built::kinds::{Parts, is_integer, is_name, is_nil, is_variable, list_parts};
use cq_built::{BuiltinError, BuiltinFault, Culprit, Permission, ValidDomain, ValidType};
use cq_ops::{OpFault, Ops};
use cq_term::atoms::{Atom, Atoms};
use cq_term::{Heap, TermId, View};
use std::alloc::AllocError;

/// A goal op(PRIORITY,KIND,NAMES).
#[derive(Clone, Copy)]
pub struct OperatorGoal {
    pub priority: TermId,
    pub kind: TermId,
    pub names: TermId,
}

/// The priority and the name of the kind that a goal asks for.
#[derive(Clone, Copy)]
struct Operands {
    priority: i128,
    kind: Atom,
}

/// What a goal asks for.
#[derive(Drop)]
struct Asked {
    goal: OperatorGoal,
    operands: Operands,
    names: Vec<TermId>,
}

/// Why the table refuses a name.
#[derive(Clone, Copy)]
enum Refused {
    Comma,
    Clash,
}

/// Sets the operators that the goal asks for, or takes them away at priority 0: all of its names, or none after a fault.
pub fn declare_operators(
    heap: &Heap,
    atoms: &Atoms,
    ops: &mut Ops,
    goal: OperatorGoal,
) -> Result<(), BuiltinFault>
    requires live { IsLiveGoal heap.now.now.terms goal }
    requires names { KnowsTerms atoms.now heap.now.now.terms }
    ensures lawful { OnOk result (goal_error atoms.now heap.now.now.terms goal (named atoms.now ops.old) ≡ None) }
    ensures set { OnOk result (named atoms.now ops.new ≡ table_after atoms.now heap.now.now.terms goal (named atoms.now ops.old)) }
    ensures fault { IfErr result (IsFound atoms.now heap.now.now.terms (goal_error atoms.now heap.now.now.terms goal (named atoms.now ops.old))) }
    ensures culprit { IfErr result (CanBeRaised atoms.now heap.now.now.terms) }
    ensures unchanged { OnErr result (ops.new ≡ ops.old) }
    ensures known { AreNamed atoms.now ops.old → AreNamed atoms.now ops.new }
    ensures table { IsTable (named atoms.now ops.old) → IsTable (named atoms.now ops.new) }
{
    let asked = match asked_for(heap, atoms, goal) {
        Ok(asked) => asked,
        Err(fault) => return Err(fault),
    };
    if let Some(error) = refusal(heap, atoms, ops, &asked) {
        return Err(BuiltinFault::Error(error));
    }
    match with_operators(heap, atoms, ops, &asked) {
        Ok(changed) => {
            *ops = changed;
            Ok(())
        }
        Err(_) => Err(BuiltinFault::NoMemory),
    }
}

/// What the goal asks for, or its error, where it has one before any name is tried.
fn asked_for(heap: &Heap, atoms: &Atoms, goal: OperatorGoal) -> Result<Asked, BuiltinFault>
    requires live { IsLiveGoal heap.now.now.terms goal }
    requires names { KnowsTerms atoms.now heap.now.now.terms }
    ensures asked { IfOk result (IsAsked atoms.now heap.now.now.terms) }
    ensures goal { IfOk result (λ a. a.goal ≡ goal) }
    ensures lawful { OnOk result (arguments_error atoms.now heap.now.now.terms goal ≡ None) }
    ensures fault { IfErr result (IsFound atoms.now heap.now.now.terms (arguments_error atoms.now heap.now.now.terms goal)) }
    ensures culprit { IfErr result (CanBeRaised atoms.now heap.now.now.terms) }
{
    let names = listed_names(heap, atoms, goal.names)?;
    match operands_of(heap, atoms, &goal, &names) {
        Ok(operands) => Ok(Asked {
            goal,
            operands,
            names: names.elements,
        }),
        Err(error) => Err(BuiltinFault::Error(error)),
    }
}

/// The priority and the kind of a goal with these names, or its error.
fn operands_of(
    heap: &Heap,
    atoms: &Atoms,
    goal: &OperatorGoal,
    names: &Parts,
) -> Result<Operands, BuiltinError>
    requires live { IsLiveGoal heap.now.now.terms goal.now }
    requires names { KnowsTerms atoms.now heap.now.now.terms }
    requires listed { AreListed atoms.now heap.now.now.terms goal.now.names names.now }
    ensures ok { IfOk result (AreOperands atoms.now heap.now.now.terms goal.now) }
    ensures err { IfErr result (λ e. arguments_error atoms.now heap.now.now.terms goal.now ≡ Some (error_tree atoms.now heap.now.now.terms e)) }
    ensures culprit { IfErr result (HasCulprit atoms.now heap.now.now.terms) }
{
    if is_unbound(heap, goal, names) {
        return Err(BuiltinError::Instantiation);
    }
    let priority = match priority_of(heap, goal.priority) {
        Ok(priority) => priority,
        Err(error) => return Err(error),
    };
    let kind = match kind_of(heap, atoms, goal.kind) {
        Ok(kind) => kind,
        Err(error) => return Err(error),
    };
    if are_names(heap, atoms, goal.names, names) {
        Ok(Operands { priority, kind })
    } else {
        Err(BuiltinError::Type(ValidType::List, Culprit::Term(goal.names)))
    }
}

/// The elements of a list of names, or the only name, with what stands behind them.
fn listed_names(heap: &Heap, atoms: &Atoms, names: TermId) -> Result<Parts, AllocError>
    requires live { names < length heap.now.now.terms }
    requires names { KnowsTerms atoms.now heap.now.now.terms }
    ensures { IfOk result (AreListed atoms.now heap.now.now.terms names) }
{
    if is_name(heap, names) {
        let elements = vec![in heap.alloc(); names]?;
        Ok(Parts {
            elements,
            tail: names,
        })
    } else {
        let parts = list_parts(heap, atoms, names)?;
        Ok(parts)
    }
}

/// Whether a part of the goal is unbound.
fn is_unbound(heap: &Heap, goal: &OperatorGoal, names: &Parts) -> bool
    requires live { IsLiveGoal heap.now.now.terms goal.now }
    requires elements { All (λ id. id < length heap.now.now.terms) names.now.elements.items }
    requires tail { names.now.tail < length heap.now.now.terms }
    ensures { (texts : List Text) → AreListed texts heap.now.now.terms goal.now.names names.now
        → let t = tree texts heap.now.now.terms in result ≡ is_unbound (t goal.now.priority) (t goal.now.kind) (t goal.now.names) }
{
    is_variable(heap, goal.priority)
        || is_variable(heap, goal.kind)
        || is_variable(heap, names.tail)
        || has_variable(heap, &names.elements)
}

/// Whether one of the terms is unbound.
fn has_variable(heap: &Heap, ids: &[TermId]) -> bool
    requires { All (λ id. id < length heap.now.now.terms) ids.now }
    ensures { (texts : List Text) → result ≡ list_any is_variable (trees texts heap.now.now.terms ids.now) }
{
    for id in ids {
        if is_variable(heap, *id) {
            return true;
        }
    }
    false
}

/// The priority, which is a whole number from 0 to 1200.
fn priority_of(heap: &Heap, priority: TermId) -> Result<i128, BuiltinError>
    requires { priority < length heap.now.now.terms }
    ensures ok { IfOk result (λ z. (texts : List Text) → whole_of (tree texts heap.now.now.terms priority) ≡ z) }
    ensures lawful { OnOk result ((texts : List Text) → priority_error (tree texts heap.now.now.terms priority) ≡ None) }
    ensures err { IfErr result (λ e. (texts : List Text)
        → priority_error (tree texts heap.now.now.terms priority) ≡ Some (error_tree texts heap.now.now.terms e)) }
    ensures culprit { IfErr result (λ e. (texts : List Text) → HasCulprit texts heap.now.now.terms e) }
{
    if !is_integer(heap, priority) {
        return Err(BuiltinError::Type(ValidType::Integer, Culprit::Term(priority)));
    }
    let number = whole_of(heap, priority);
    if is_in_range(number) {
        Ok(number)
    } else {
        Err(BuiltinError::Domain(ValidDomain::OperatorPriority, Culprit::Term(priority)))
    }
}

/// The whole number that a term is. Of a fraction it is the numerator, and of every other term it is 0.
fn whole_of(heap: &Heap, id: TermId) -> i128
    requires { id < length heap.now.now.terms }
    ensures { (texts : List Text) → whole_of (tree texts heap.now.now.terms id) ≡ result }
{
    match heap.view(id) {
        View::Number(number) => number.parts().0,
        _ => 0,
    }
}

/// Whether a number is a priority.
fn is_in_range(number: i128) -> bool
    ensures { result ≡ is_some (in_range number) }
{
    0 <= number && number <= 1200
}

/// The name of a kind of operators.
fn kind_of(heap: &Heap, atoms: &Atoms, kind: TermId) -> Result<Atom, BuiltinError>
    requires live { kind < length heap.now.now.terms }
    requires names { KnowsTerms atoms.now heap.now.now.terms }
    ensures ok { IfOk result (λ name. tree atoms.now heap.now.now.terms kind ≡ Name (text_of atoms.now name)) }
    ensures known { IfOk result (λ name. name < length atoms.now) }
    ensures lawful { OnOk result (kind_error (tree atoms.now heap.now.now.terms kind) ≡ None) }
    ensures err { IfErr result (λ e. kind_error (tree atoms.now heap.now.now.terms kind) ≡ Some (error_tree atoms.now heap.now.now.terms e)) }
    ensures culprit { IfErr result (HasCulprit atoms.now heap.now.now.terms) }
{
    match heap.view(kind) {
        View::Name(name) => {
            if is_kind(atoms.text(name)) {
                Ok(name)
            } else {
                Err(BuiltinError::Domain(ValidDomain::OperatorSpecifier, Culprit::Term(kind)))
            }
        }
        _ => Err(BuiltinError::Type(ValidType::Atom, Culprit::Term(kind))),
    }
}

/// Whether a name is that of a kind of operators.
fn is_kind(name: &str) -> bool
    ensures { result ≡ is_some (kind_named name.now) }
{
    name == "xfx"
        || name == "xfy"
        || name == "yfx"
        || name == "fy"
        || name == "fx"
        || name == "xf"
        || name == "yf"
}

/// Whether a term is an atom or a list of atoms, by its parts.
fn are_names(heap: &Heap, atoms: &Atoms, names: TermId, parts: &Parts) -> bool
    requires live { names < length heap.now.now.terms }
    requires names { KnowsTerms atoms.now heap.now.now.terms }
    requires listed { AreListed atoms.now heap.now.now.terms names parts.now }
    ensures { result ≡ are_names (tree atoms.now heap.now.now.terms names) }
{
    is_name(heap, names) || (is_nil(heap, atoms, parts.tail) && all_names(heap, &parts.elements))
}

/// Whether all of the terms are atoms.
fn all_names(heap: &Heap, ids: &[TermId]) -> bool
    requires { All (λ id. id < length heap.now.now.terms) ids.now }
    ensures { (texts : List Text) → result ≡ list_all is_name (trees texts heap.now.now.terms ids.now) }
{
    for id in ids {
        if !is_name(heap, *id) {
            return false;
        }
    }
    true
}

/// The error of the first name that is the comma, or of the first that clashes.
fn refusal(heap: &Heap, atoms: &Atoms, ops: &Ops, asked: &Asked) -> Option<BuiltinError>
    requires asked { IsAsked atoms.now heap.now.now.terms asked.now }
    requires names { KnowsTerms atoms.now heap.now.now.terms }
    ensures some { IfSome result (λ e. refusal_error atoms.now heap.now.now.terms asked.now.goal (named atoms.now ops.now)
        ≡ Some (error_tree atoms.now heap.now.now.terms e)) }
    ensures culprit { IfSome result (HasCulprit atoms.now heap.now.now.terms) }
    ensures none { IsNone result → refusal_error atoms.now heap.now.now.terms asked.now.goal (named atoms.now ops.now) ≡ None }
{
    if let Some(name) = refused_name(heap, atoms, ops, asked, Refused::Comma) {
        return Some(BuiltinError::Permission(Permission::ModifyOperator, Culprit::Term(name)));
    }
    match refused_name(heap, atoms, ops, asked, Refused::Clash) {
        Some(name) => Some(BuiltinError::Permission(
            Permission::CreateOperator,
            Culprit::Term(name),
        )),
        None => None,
    }
}

/// The first name that the table refuses for a cause.
fn refused_name(
    heap: &Heap,
    atoms: &Atoms,
    ops: &Ops,
    asked: &Asked,
    cause: Refused,
) -> Option<TermId>
    requires asked { IsAsked atoms.now heap.now.now.terms asked.now }
    requires names { KnowsTerms atoms.now heap.now.now.terms }
    ensures some { IfSome result (λ id. (e : Tree → Tree) → first_refused atoms.now heap.now.now.terms asked.now.goal (named atoms.now ops.now) cause e
        (trees atoms.now heap.now.now.terms asked.now.names.items) ≡ Some (e (tree atoms.now heap.now.now.terms id))) }
    ensures live { IfSome result (λ id. id < length heap.now.now.terms) }
    ensures none { IsNone result → (e : Tree → Tree) → first_refused atoms.now heap.now.now.terms asked.now.goal (named atoms.now ops.now) cause e
        (trees atoms.now heap.now.now.terms asked.now.names.items) ≡ None }
{
    for id in &asked.names {
        if is_refused(heap, atoms, ops, asked, *id, cause) {
            return Some(*id);
        }
    }
    None
}

/// Whether the table refuses a term as the name of an operator for a cause; one that is no atom has the empty name.
fn is_refused(
    heap: &Heap,
    atoms: &Atoms,
    ops: &Ops,
    asked: &Asked,
    id: TermId,
    cause: Refused,
) -> bool
    requires asked { IsAsked atoms.now heap.now.now.terms asked.now }
    requires names { KnowsTerms atoms.now heap.now.now.terms }
    requires live { id < length heap.now.now.terms }
    requires name { is_name (tree atoms.now heap.now.now.terms id) ≡ true }
    ensures { result ≡ is_cause cause (named_set (named atoms.now ops.now) (tree atoms.now heap.now.now.terms asked.now.goal.priority)
        (tree atoms.now heap.now.now.terms asked.now.goal.kind) (tree atoms.now heap.now.now.terms id)) }
{
    let View::Name(name) = heap.view(id) else {
        return false;
    };
    match ops.check(
        atoms,
        asked.operands.priority,
        atoms.text(asked.operands.kind),
        name,
    ) {
        Err(OpFault::Comma) => matches!(cause, Refused::Comma),
        Err(OpFault::Clash) => matches!(cause, Refused::Clash),
        _ => false,
    }
}

/// The table with each of the names set.
fn with_operators(heap: &Heap, atoms: &Atoms, ops: &Ops, asked: &Asked) -> Result<Ops, AllocError>
    requires asked { IsAsked atoms.now heap.now.now.terms asked.now }
    requires names { KnowsTerms atoms.now heap.now.now.terms }
    ensures set { IfOk result (λ changed. named atoms.now changed ≡ table_after atoms.now heap.now.now.terms asked.now.goal (named atoms.now ops.now)) }
    ensures known { IfOk result (λ changed. AreNamed atoms.now ops.now → AreNamed atoms.now changed) }
    ensures table { IfOk result (λ changed. IsTable (named atoms.now ops.now) → IsTable (named atoms.now changed)) }
{
    let mut changed = ops.clone()?;
    for id in &asked.names {
        set_operator(heap, atoms, &mut changed, asked, *id)?;
    }
    Ok(changed)
}

/// Sets a name as an operator. (One that the table refuses changes nothing; none is, since all were tried before.)
fn set_operator(
    heap: &Heap,
    atoms: &Atoms,
    ops: &mut Ops,
    asked: &Asked,
    id: TermId,
) -> Result<(), AllocError>
    requires asked { IsAsked atoms.now heap.now.now.terms asked.now }
    requires names { KnowsTerms atoms.now heap.now.now.terms }
    requires live { id < length heap.now.now.terms }
    requires name { is_name (tree atoms.now heap.now.now.terms id) ≡ true }
    ensures set { OnOk result (named atoms.now ops.new ≡ table_or (named atoms.now ops.old)
        (named_set (named atoms.now ops.old) (tree atoms.now heap.now.now.terms asked.now.goal.priority)
        (tree atoms.now heap.now.now.terms asked.now.goal.kind) (tree atoms.now heap.now.now.terms id))) }
    ensures known { AreNamed atoms.now ops.old → AreNamed atoms.now ops.new }
    ensures table { IsTable (named atoms.now ops.old) → IsTable (named atoms.now ops.new) }
{
    let View::Name(name) = heap.view(id) else {
        return Ok(());
    };
    match ops.set(
        atoms,
        asked.operands.priority,
        atoms.text(asked.operands.kind),
        name,
    ) {
        Err(OpFault::NoMemory) => Err(AllocError),
        _ => Ok(()),
    }
}
