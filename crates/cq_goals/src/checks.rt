// The checks of constraints and expressions, with the parts that are still to be looked at on a list of their own.

ghost use Rattle.std.specs.Prelude.{◌≡◌, ◌<◌, ◌∷◌, ◌++◌, [], None, Some, List, false, is_some, length, IfOk, IfErr, OnOk};
ghost use Rattle.spec_numbers.specs.Texts.{Text};
ghost use Rattle.spec_terms.specs.Term.{size};
ghost use Rattle.spec_branch.specs.Checks.{expression_error};
ghost use Rattle.spec_branch.specs.Expressions.{unary_name, binary_name};
ghost use Rattle.spec_branch.specs.Relations.{relation_name};
ghost use Rattle.cq_term.specs.Meaning.{at};
ghost use Rattle.cq_term.specs.Shown.{view_of};
ghost use Rattle.cq_term.specs.declared.view.View.TheVariants.{Compound};
ghost use Rattle.cq_term.specs.Trees.{tree, KnowsTerms};
ghost use Rattle.cq_built.specs.Errors.{error_tree, HasCulprit, CanBeRaised};
ghost use Rattle.cq_built.specs.Faults.{IsFound};
ghost use Rattle.cq_built.specs.Sides.{HasSides, is_binary};
ghost use Rattle.cq_goals.specs.Checking.{error_for, part_error, part_id, IsLivePart, GoesOn, ExpressionGoesOn, IsRole};

use cq_built::sides::{Sides, sides_of};
use cq_built::{BuiltinError, BuiltinFault, Culprit, ValidType};
use cq_term::atoms::{Atom, Atoms};
use cq_term::{Heap, Pred, TermId, View};
use std::alloc::{AllocError, Global};

/// What a constraint is checked for: one that is asked about may hold no disjunction.
#[derive(Clone, Copy)]
pub(crate) enum Purpose {
    Telling,
    Question,
}

/// A part of a constraint that is to be looked at.
#[derive(Clone, Copy)]
pub(crate) enum Part {
    Constraint(TermId),
    Expression(TermId),
}

/// What a name with two arguments is in a constraint.
#[derive(Clone, Copy)]
pub(crate) enum Role {
    Conjunction,
    Disjunction,
    Relation,
    Other,
}

/// Looks for the first error of a part: a term comes before its arguments, and these are gone through from left to right.
pub(crate) fn check(
    heap: &Heap,
    atoms: &Atoms,
    purpose: Purpose,
    whole: Part,
) -> Result<(), BuiltinFault>
    requires live { IsLivePart heap.now.now.terms whole }
    requires names { KnowsTerms atoms.now heap.now.now.terms }
    ensures ok { OnOk result (part_error purpose atoms.now heap.now.now.terms whole ≡ None) }
    ensures fault { IfErr result (IsFound atoms.now heap.now.now.terms (part_error purpose atoms.now heap.now.now.terms whole)) }
    ensures culprit { IfErr result (CanBeRaised atoms.now heap.now.now.terms) }
{
    let mut waiting = alone(heap.alloc(), whole)?;
    while let Some(part) = waiting.pop() {
        match look_at(heap, atoms, purpose, part, &mut waiting) {
            Ok(()) => {}
            Err(fault) => return Err(fault),
        }
    }
    Ok(())
}

/// Looks at the head of a part, whose arguments wait then.
fn look_at(
    heap: &Heap,
    atoms: &Atoms,
    purpose: Purpose,
    part: Part,
    waiting: &mut Vec<Part>,
) -> Result<(), BuiltinFault>
    requires live { IsLivePart heap.now.now.terms part }
    requires names { KnowsTerms atoms.now heap.now.now.terms }
    ensures goes_on { OnOk result (GoesOn purpose atoms.now heap.now.now.terms waiting.old.items
        (part_error purpose atoms.now heap.now.now.terms part) (size (at heap.now.now.terms (part_id part))) waiting.new.items) }
    ensures fault { IfErr result (IsFound atoms.now heap.now.now.terms (part_error purpose atoms.now heap.now.now.terms part)) }
    ensures culprit { IfErr result (CanBeRaised atoms.now heap.now.now.terms) }
{
    match part {
        Part::Constraint(id) => look_at_constraint(heap, atoms, purpose, id, waiting),
        Part::Expression(id) => look_at_expression(heap, atoms, id, waiting),
    }
}

/// Looks at the head of a constraint.
fn look_at_constraint(
    heap: &Heap,
    atoms: &Atoms,
    purpose: Purpose,
    id: TermId,
    waiting: &mut Vec<Part>,
) -> Result<(), BuiltinFault>
    requires live { id < length heap.now.now.terms }
    requires names { KnowsTerms atoms.now heap.now.now.terms }
    ensures goes_on { OnOk result (GoesOn purpose atoms.now heap.now.now.terms waiting.old.items
        (error_for purpose (tree atoms.now heap.now.now.terms id)) (size (at heap.now.now.terms id)) waiting.new.items) }
    ensures fault { IfErr result (IsFound atoms.now heap.now.now.terms (error_for purpose (tree atoms.now heap.now.now.terms id))) }
    ensures culprit { IfErr result (CanBeRaised atoms.now heap.now.now.terms) }
{
    match sides_of(heap, id) {
        Some(sides) => look_at_sides(heap, atoms, purpose, id, sides, waiting),
        None => Err(BuiltinFault::Error(no_sides_error(heap, id))),
    }
}

/// The error of a constraint that is no compound of two arguments.
fn no_sides_error(heap: &Heap, id: TermId) -> BuiltinError
    requires live { id < length heap.now.now.terms }
    requires other { is_binary (at heap.now.now.terms id) ≡ false }
    ensures error { (p : Purpose) (texts : List Text) → error_for p (tree texts heap.now.now.terms id) ≡ Some (error_tree texts heap.now.now.terms result) }
    ensures culprit { (texts : List Text) → HasCulprit texts heap.now.now.terms result }
{
    match heap.view(id) {
        View::Var(_) => BuiltinError::Instantiation,
        _ => BuiltinError::Type(ValidType::Constraint, Culprit::Term(id)),
    }
}

/// Looks at the name of a constraint with two arguments.
fn look_at_sides(
    heap: &Heap,
    atoms: &Atoms,
    purpose: Purpose,
    id: TermId,
    sides: Sides,
    waiting: &mut Vec<Part>,
) -> Result<(), BuiltinFault>
    requires live { id < length heap.now.now.terms }
    requires names { KnowsTerms atoms.now heap.now.now.terms }
    requires sides { HasSides heap.now.now.terms id sides }
    ensures goes_on { OnOk result (GoesOn purpose atoms.now heap.now.now.terms waiting.old.items
        (error_for purpose (tree atoms.now heap.now.now.terms id)) (size (at heap.now.now.terms id)) waiting.new.items) }
    ensures fault { IfErr result (IsFound atoms.now heap.now.now.terms (error_for purpose (tree atoms.now heap.now.now.terms id))) }
    ensures culprit { IfErr result (CanBeRaised atoms.now heap.now.now.terms) }
{
    let (left, right) = (sides.left, sides.right);
    match role_of(atoms.text(sides.name)) {
        Role::Disjunction => match purpose {
            Purpose::Question => Err(wrong_type(ValidType::Linear, id)),
            Purpose::Telling => {
                wait(waiting, Part::Constraint(right), Part::Constraint(left))?;
                Ok(())
            }
        },
        Role::Conjunction => {
            wait(waiting, Part::Constraint(right), Part::Constraint(left))?;
            Ok(())
        }
        Role::Relation => {
            wait(waiting, Part::Expression(right), Part::Expression(left))?;
            Ok(())
        }
        Role::Other => Err(wrong_type(ValidType::Constraint, id)),
    }
}

/// A term of another type than is wanted.
fn wrong_type(wanted: ValidType, id: TermId) -> BuiltinFault
    ensures { result ≡ BuiltinFault.Error (BuiltinError.Type wanted (Culprit.Term id)) }
{
    BuiltinFault::Error(BuiltinError::Type(wanted, Culprit::Term(id)))
}

/// A list of one part.
fn alone(alloc: Global, part: Part) -> Result<Vec<Part>, AllocError>
    ensures { IfOk result (λ waiting. waiting.items ≡ part ∷ []) }
{
    let waiting = vec![in alloc; part]?;
    Ok(waiting)
}

/// Puts a part at the end of those that wait.
fn wait_alone(waiting: &mut Vec<Part>, part: Part) -> Result<(), AllocError>
    ensures { OnOk result (waiting.new.items ≡ waiting.old.items ++ part ∷ []) }
{
    waiting.push(part)?;
    Ok(())
}

/// Puts two parts at the end of those that wait.
fn wait(waiting: &mut Vec<Part>, first: Part, last: Part) -> Result<(), AllocError>
    ensures { OnOk result (waiting.new.items ≡ (waiting.old.items ++ first ∷ []) ++ last ∷ []) }
{
    waiting.push(first)?;
    waiting.push(last)?;
    Ok(())
}

/// What a name with two arguments is in a constraint.
fn role_of(name: &str) -> Role
    ensures { IsRole name.now result }
{
    if name == ";" {
        Role::Disjunction
    } else if name == "," {
        Role::Conjunction
    } else if is_relation(name) {
        Role::Relation
    } else {
        Role::Other
    }
}

/// Whether a name is that of a relation.
fn is_relation(name: &str) -> bool
    ensures { result ≡ is_some (relation_name name.now) }
{
    name == "="
        || name == "=:="
        || name == "=\\="
        || name == ">"
        || name == ">="
        || name == "<"
        || name == "=<"
}

/// Looks at the head of an expression.
fn look_at_expression(
    heap: &Heap,
    atoms: &Atoms,
    id: TermId,
    waiting: &mut Vec<Part>,
) -> Result<(), BuiltinFault>
    requires live { id < length heap.now.now.terms }
    requires names { KnowsTerms atoms.now heap.now.now.terms }
    ensures goes_on { (p : Purpose) → OnOk result (ExpressionGoesOn p atoms.now heap.now.now.terms waiting.old.items id waiting.new.items) }
    ensures fault { IfErr result (IsFound atoms.now heap.now.now.terms (expression_error (tree atoms.now heap.now.now.terms id))) }
    ensures culprit { IfErr result (CanBeRaised atoms.now heap.now.now.terms) }
{
    match heap.view(id) {
        View::Var(_) => Ok(()),
        View::Number(_) => Ok(()),
        View::Name(name) => Err(not_evaluable(name, 0)),
        View::Compound(name, arity) => {
            if arity == 1 {
                look_at_unary(heap, atoms, id, name, waiting)
            } else if arity == 2 {
                look_at_binary(heap, atoms, id, name, waiting)
            } else {
                Err(not_evaluable(name, arity))
            }
        }
    }
}

/// A name with one argument.
fn look_at_unary(
    heap: &Heap,
    atoms: &Atoms,
    id: TermId,
    name: Atom,
    waiting: &mut Vec<Part>,
) -> Result<(), BuiltinFault>
    requires live { id < length heap.now.now.terms }
    requires names { KnowsTerms atoms.now heap.now.now.terms }
    requires shown { view_of (at heap.now.now.terms id) ≡ Compound name 1 }
    ensures goes_on { (p : Purpose) → OnOk result (ExpressionGoesOn p atoms.now heap.now.now.terms waiting.old.items id waiting.new.items) }
    ensures fault { IfErr result (IsFound atoms.now heap.now.now.terms (expression_error (tree atoms.now heap.now.now.terms id))) }
    ensures culprit { IfErr result (CanBeRaised atoms.now heap.now.now.terms) }
{
    if !is_unary(atoms.text(name)) {
        return Err(not_evaluable(name, 1));
    }
    let argument = heap.arg(id, 0);
    wait_alone(waiting, Part::Expression(argument))?;
    Ok(())
}

/// A name with two arguments.
fn look_at_binary(
    heap: &Heap,
    atoms: &Atoms,
    id: TermId,
    name: Atom,
    waiting: &mut Vec<Part>,
) -> Result<(), BuiltinFault>
    requires live { id < length heap.now.now.terms }
    requires names { KnowsTerms atoms.now heap.now.now.terms }
    requires shown { view_of (at heap.now.now.terms id) ≡ Compound name 2 }
    ensures goes_on { (p : Purpose) → OnOk result (ExpressionGoesOn p atoms.now heap.now.now.terms waiting.old.items id waiting.new.items) }
    ensures fault { IfErr result (IsFound atoms.now heap.now.now.terms (expression_error (tree atoms.now heap.now.now.terms id))) }
    ensures culprit { IfErr result (CanBeRaised atoms.now heap.now.now.terms) }
{
    if !is_binary_expression(atoms.text(name)) {
        return Err(not_evaluable(name, 2));
    }
    let left = heap.arg(id, 0);
    let right = heap.arg(id, 1);
    wait(waiting, Part::Expression(right), Part::Expression(left))?;
    Ok(())
}

/// Whether a name builds an expression of one argument.
fn is_unary(name: &str) -> bool
    ensures { result ≡ is_some (unary_name name.now) }
{
    name == "+" || name == "-" || name == "abs"
}

/// Whether a name builds an expression of two arguments.
fn is_binary_expression(name: &str) -> bool
    ensures { result ≡ is_some (binary_name name.now) }
{
    name == "+"
        || name == "-"
        || name == "*"
        || name == "/"
        || name == "pow"
        || name == "^"
        || name == "min"
        || name == "max"
}

/// The error of a name with so many arguments that builds no expression.
fn not_evaluable(name: Atom, arity: usize) -> BuiltinFault
    ensures { result ≡ BuiltinFault.Error (BuiltinError.Type ValidType.Evaluable (Culprit.Predicate (record { name = name; arity = arity }))) }
{
    BuiltinFault::Error(BuiltinError::Type(
        ValidType::Evaluable,
        Culprit::Predicate(Pred { name, arity }),
    ))
}
