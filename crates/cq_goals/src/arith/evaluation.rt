// The values of expressions, with the operations under way on a list of their own, so that memory alone bounds the
// depth of an expression.

ghost use Rattle.std.specs.Prelude.{◌≡◌, ℕ, ◌<◌, ◌++◌, ◌∷◌, [], List, length, IfOk, IfErr, IfSome, OnOk};
ghost use Rattle.spec_terms.specs.Term.{named, Number};
ghost use Rattle.spec_numbers.specs.Texts.{Text};
ghost use Rattle.spec_terms.specs.Operations.{Value, binary_result};
ghost use Rattle.spec_terms.specs.Arithmetic.{evaluate};
ghost use Rattle.cq_term.specs.Texts.{text_of};
ghost use Rattle.cq_term.specs.Meaning.{HeapTerm, at};
ghost use Rattle.cq_term.specs.Names.{HasNamesBelow};
ghost use Rattle.cq_term.specs.Shown.{view_of};
ghost use Rattle.cq_term.specs.declared.view.View.TheVariants.{Compound};
ghost use Rattle.cq_goals.specs.ArithFaults.{ComesTo, IsNamedBelow};
ghost use Rattle.cq_goals.specs.Work.{evaluated_at, resumed, AfterVisit, TakesValue};

use crate::arith::faults::{EvalError, EvalFault};
use crate::arith::operations::{binary, binary_operation, unary, unary_operation};
use cq_frac::Frac;
use cq_term::atoms::Atoms;
use cq_term::{Atom, Heap, TermId, View};
use spec_terms::arithmetic::{BinaryOperation, UnaryOperation};
use std::alloc::AllocError;

/// An operation under way, and what it waits with for a value.
#[derive(Clone, Copy)]
enum Waiting {
    /// The value is the only argument.
    Only(UnaryOperation),
    /// The value is the left argument, and the term is the right one.
    Left(BinaryOperation, TermId),
    /// The value is the right argument, and the left one has this value.
    Right(BinaryOperation, Frac),
}

/// What is next.
#[derive(Clone, Copy)]
enum Step {
    /// The term is evaluated.
    Visit(TermId),
    /// The value goes to the last of the operations under way.
    Return(Frac),
}

/// The value of a term, read through bindings, as an arithmetic expression: its arguments are evaluated from left to
/// right, and then the operation. `atoms` has to know the names in the term.
pub fn eval(heap: &Heap, atoms: &Atoms, term: TermId) -> Result<Frac, EvalFault>
    requires live { term < length heap.now.now.terms }
    requires names { HasNamesBelow (length atoms.now) (at heap.now.now.terms term) }
    ensures value { IfOk result (λ q. evaluate (named (text_of atoms.now) (at heap.now.now.terms term)) ≡ Value q) }
    ensures fault { IfErr result (λ fault. ComesTo atoms.now (evaluate (named (text_of atoms.now) (at heap.now.now.terms term))) fault) }
    ensures known { IfErr result (IsNamedBelow (length atoms.now)) }
{
    match eval_at_once(heap, atoms, term) {
        Some(value) => Ok(value),
        None => eval_whole(heap, atoms, term),
    }
}

/// The value of a number, or of an operation on two numbers that comes to one: most expressions of a program. None of any other.
#[inline(always)]
fn eval_at_once(heap: &Heap, atoms: &Atoms, term: TermId) -> Option<Frac>
    requires live { term < length heap.now.now.terms }
    requires names { HasNamesBelow (length atoms.now) (at heap.now.now.terms term) }
    ensures { IfSome result (λ q. evaluated_at atoms.now heap.now.now.terms term ≡ Value q) }
{
    match heap.view(term) {
        View::Number(value) => Some(value),
        View::Compound(name, arity) => {
            if arity == 2 {
                apply_at_once(heap, atoms, term, name)
            } else {
                None
            }
        }
        View::Var(_) | View::Name(_) => None,
    }
}

/// The value of a name over two numbers, if it is an operation, and comes to a number.
#[inline(always)]
fn apply_at_once(heap: &Heap, atoms: &Atoms, id: TermId, name: Atom) -> Option<Frac>
    requires live { id < length heap.now.now.terms }
    requires names { HasNamesBelow (length atoms.now) (at heap.now.now.terms id) }
    requires shown { view_of (at heap.now.now.terms id) ≡ Compound name 2 }
    ensures { IfSome result (λ q. evaluated_at atoms.now heap.now.now.terms id ≡ Value q) }
{
    let Some(left) = number_of(heap, heap.arg(id, 0)) else {
        return None;
    };
    let Some(right) = number_of(heap, heap.arg(id, 1)) else {
        return None;
    };
    let Some(operation) = binary_operation(atoms.text(name)) else {
        return None;
    };
    match binary(operation, left, right) {
        Ok(value) => Some(value),
        Err(_) => None,
    }
}

/// The same of any term.
fn eval_whole(heap: &Heap, atoms: &Atoms, term: TermId) -> Result<Frac, EvalFault>
    requires live { term < length heap.now.now.terms }
    requires names { HasNamesBelow (length atoms.now) (at heap.now.now.terms term) }
    ensures value { IfOk result (λ q. evaluate (named (text_of atoms.now) (at heap.now.now.terms term)) ≡ Value q) }
    ensures fault { IfErr result (λ fault. ComesTo atoms.now (evaluate (named (text_of atoms.now) (at heap.now.now.terms term))) fault) }
    ensures known { IfErr result (IsNamedBelow (length atoms.now)) }
{
    let mut under_way = Vec::new(heap.alloc());
    let mut step = Step::Visit(term);
    // (The faults go out by `match`: a `?` on an error that holds an enum gets no generated proof.)
    loop {
        match step {
            Step::Visit(id) => match visit(heap, atoms, id, &mut under_way) {
                Ok(next) => step = next,
                Err(fault) => return Err(fault),
            },
            Step::Return(value) => match under_way.pop() {
                None => return Ok(value),
                Some(waiting) => match resume(waiting, value, &mut under_way) {
                    Ok(next) => step = next,
                    Err(fault) => return Err(fault),
                },
            },
        }
    }
}

/// Takes a number as it is, and puts an operation under way, whose first argument is next.
fn visit(
    heap: &Heap,
    atoms: &Atoms,
    id: TermId,
    under_way: &mut Vec<Waiting>,
) -> Result<Step, EvalFault>
    requires live { id < length heap.now.now.terms }
    requires names { HasNamesBelow (length atoms.now) (at heap.now.now.terms id) }
    ensures goes_on { IfOk result (λ next. AfterVisit atoms.now heap.now.now.terms id under_way.old.items under_way.new.items next) }
    ensures fault { IfErr result (λ fault. ComesTo atoms.now (evaluated_at atoms.now heap.now.now.terms id) fault) }
    ensures known { IfErr result (IsNamedBelow (length atoms.now)) }
{
    match heap.view(id) {
        View::Var(_) => Err(EvalFault::Error(EvalError::Instantiation)),
        View::Number(value) => Ok(Step::Return(value)),
        View::Name(name) => Err(not_evaluable(name, 0)),
        View::Compound(name, arity) => {
            if arity == 1 {
                visit_one(heap, atoms, id, name, under_way)
            } else if arity == 2 {
                visit_two(heap, atoms, id, name, under_way)
            } else {
                Err(not_evaluable(name, arity))
            }
        }
    }
}

fn not_evaluable(name: Atom, arity: usize) -> EvalFault
    ensures { result ≡ EvalFault.Error (EvalError.NotEvaluable name arity) }
{
    EvalFault::Error(EvalError::NotEvaluable(name, arity))
}

/// A name with one argument.
fn visit_one(
    heap: &Heap,
    atoms: &Atoms,
    id: TermId,
    name: Atom,
    under_way: &mut Vec<Waiting>,
) -> Result<Step, EvalFault>
    requires live { id < length heap.now.now.terms }
    requires names { HasNamesBelow (length atoms.now) (at heap.now.now.terms id) }
    requires shown { view_of (at heap.now.now.terms id) ≡ Compound name 1 }
    ensures goes_on { IfOk result (λ next. AfterVisit atoms.now heap.now.now.terms id under_way.old.items under_way.new.items next) }
    ensures fault { IfErr result (λ fault. ComesTo atoms.now (evaluated_at atoms.now heap.now.now.terms id) fault) }
    ensures known { IfErr result (IsNamedBelow (length atoms.now)) }
{
    let Some(operation) = unary_operation(atoms.text(name)) else {
        return Err(not_evaluable(name, 1));
    };
    let argument = heap.arg(id, 0);
    wait(under_way, Waiting::Only(operation))?;
    Ok(Step::Visit(argument))
}

/// A name with two arguments.
fn visit_two(
    heap: &Heap,
    atoms: &Atoms,
    id: TermId,
    name: Atom,
    under_way: &mut Vec<Waiting>,
) -> Result<Step, EvalFault>
    requires live { id < length heap.now.now.terms }
    requires names { HasNamesBelow (length atoms.now) (at heap.now.now.terms id) }
    requires shown { view_of (at heap.now.now.terms id) ≡ Compound name 2 }
    ensures goes_on { IfOk result (λ next. AfterVisit atoms.now heap.now.now.terms id under_way.old.items under_way.new.items next) }
    ensures fault { IfErr result (λ fault. ComesTo atoms.now (evaluated_at atoms.now heap.now.now.terms id) fault) }
    ensures known { IfErr result (IsNamedBelow (length atoms.now)) }
{
    if let Some(value) = apply_at_once(heap, atoms, id, name) {
        return Ok(Step::Return(value));
    }
    let Some(operation) = binary_operation(atoms.text(name)) else {
        return Err(not_evaluable(name, 2));
    };
    let left = heap.arg(id, 0);
    let right = heap.arg(id, 1);
    wait(under_way, Waiting::Left(operation, right))?;
    Ok(Step::Visit(left))
}

/// The number that a term is, if it is one.
#[inline(always)]
fn number_of(heap: &Heap, id: TermId) -> Option<Frac>
    requires { id < length heap.now.now.terms }
    ensures { IfSome result (λ q. at heap.now.now.terms id ≡ Number q) }
{
    match heap.view(id) {
        View::Number(value) => Some(value),
        View::Var(_) | View::Name(_) | View::Compound(_, _) => None,
    }
}

/// Puts one operation more under way.
fn wait(under_way: &mut Vec<Waiting>, waiting: Waiting) -> Result<(), AllocError>
    ensures { OnOk result (under_way.new.items ≡ under_way.old.items ++ waiting ∷ []) }
{
    under_way.push(waiting)?;
    Ok(())
}

/// Gives the value to an operation.
fn resume(waiting: Waiting, value: Frac, under_way: &mut Vec<Waiting>) -> Result<Step, EvalFault>
    ensures goes_on { IfOk result (λ next. TakesValue waiting value under_way.old.items under_way.new.items next) }
    ensures fault { IfErr result (λ fault. (texts : List Text) (ts : List HeapTerm) → ComesTo texts (resumed texts ts waiting (Value value)) fault) }
    ensures known { IfErr result (λ fault. (n : ℕ) → IsNamedBelow n fault) }
{
    match waiting {
        Waiting::Only(operation) => Ok(Step::Return(unary(operation, value))),
        Waiting::Left(operation, right) => {
            wait(under_way, Waiting::Right(operation, value))?;
            Ok(Step::Visit(right))
        }
        Waiting::Right(operation, left) => match binary(operation, left, value) {
            Ok(whole) => Ok(Step::Return(whole)),
            Err(fault) => Err(fault),
        },
    }
}
