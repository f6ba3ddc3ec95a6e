// The linear forms of expressions, with the operations under way on a list of their own, so that memory alone bounds
// the depth of an expression.

ghost use Rattle.std.specs.Prelude.{◌≡◌, ◌&&◌, ◌<◌, ◌++◌, ◌∷◌, [], length, IfOk, OnOk, Some};
ghost use Rattle.spec_branch.specs.Expressions.{is_zero_form, binary_of};
ghost use Rattle.spec_branch.specs.Relations.{form_or_waits, lin_expression};
ghost use Rattle.spec_branch.specs.Alike.{no_values};
ghost use Rattle.spec_transcript.specs.Operands.{binary_operands, expression_operands};
ghost use Rattle.cq_frac.specs.declared.Pair.{Pair};
ghost use Rattle.cq_term.specs.Trees.{tree};
ghost use Rattle.cq_term.specs.Meaning.{at};
ghost use Rattle.cq_term.specs.Names.{HasNamesBelow};
ghost use Rattle.cq_term.specs.Shown.{view_of};
ghost use Rattle.cq_term.specs.declared.view.View.TheVariants.{Compound};
ghost use Rattle.cq_cexpr.specs.Found.{expression_of, is_false};
ghost use Rattle.cq_frac.specs.declared.row.Joining.{Joining};
ghost use Rattle.cq_cexpr.specs.Names.{binary_meant, is_over, name_of};
ghost use Rattle.cq_cexpr.specs.Overflows.{Within, ComesFrom};
ghost use Rattle.cq_cexpr.specs.Sums.{whole_of, due_in};
ghost use Rattle.cq_cexpr.specs.Work.{form_in, IsGiven, AfterVisit, AfterResume, ResumeOverflows, IsJoined};

use crate::names::{self, Binary, Unary};
use crate::operations;
use crate::sums::{Sum, whole};
use cq_form::Form;
use cq_frac::Refusal;
use cq_frac::row::Joining;
use cq_term::atoms::Atoms;
use cq_term::{Atom, Heap, TermId, View};
use std::alloc::{AllocError, Global};

/// What an expression is now.
#[derive(Drop)]
pub enum LinExpression {
    Linear(Form),
    /// It is linear only once some of its variables have values.
    Waits,
    /// A divisor in it is zero.
    False,
}

impl LinExpression {
    /// Whether a divisor in the expression is zero.
    pub fn is_false(&self) -> bool
        ensures { result ≡ is_false (expression_of self.now) }
    {
        match self {
            LinExpression::False => true,
            _ => false,
        }
    }

    /// The form, where there is one.
    pub fn form(self) -> Option<Form>
        ensures { result ≡ form_in (expression_of self) }
    {
        match self {
            LinExpression::Linear(form) => Some(form),
            _ => None,
        }
    }
}

/// An operation under way, and what it waits with for a form.
#[derive(Drop)]
enum Waiting {
    /// The form is that of the only argument.
    Only(Option<Unary>),
    /// The form is that of the left argument, and the term is the right one.
    Left(Option<Binary>, TermId),
    /// The form is that of the right argument, and the left one has this form, once its operands are joined.
    Right(Option<Binary>, Option<Sum>),
}

/// What is next.
#[derive(Drop)]
enum Step {
    /// The term is looked at.
    Visit(TermId),
    /// The form, once its operands are joined, or that the expression waits, goes to the last of the operations under
    /// way.
    Return(Option<Sum>),
    /// A divisor is zero.
    Stop,
}

/// What an expression is where the variables that are bound to numbers are these numbers: its linear form, waiting, or
/// false. `atoms` has to know the names in the term. Overflow where an operation of the term refuses two numbers of the
/// forms of its operands; the term may then be any of these.
pub fn linearise_expression(
    heap: &Heap,
    atoms: &Atoms,
    term: TermId,
) -> Result<LinExpression, Refusal>
    requires live { term < length heap.now.now.terms }
    requires names { HasNamesBelow (length atoms.now) (at heap.now.now.terms term) }
    ensures lin { IfOk result (λ r. expression_of r ≡ lin_expression no_values (tree atoms.now heap.now.now.terms term)) }
    ensures overflow { (pair : Pair) → result ≡ Err (Refusal.Overflow pair)
        → ComesFrom (expression_operands no_values (tree atoms.now heap.now.now.terms term)) pair }
{
    let mut under_way = Vec::new(heap.alloc());
    let mut step = Step::Visit(term);
    loop {
        match step {
            Step::Visit(id) => step = visit(heap, atoms, id, &mut under_way)?,
            Step::Stop => return Ok(LinExpression::False),
            Step::Return(sum) => match under_way.pop() {
                None => return finish(heap.alloc(), sum),
                Some(waiting) => step = resume(heap.alloc(), waiting, sum, &mut under_way)?,
            },
        }
    }
}

/// The answer of an expression whose operands are joined now, or that waits.
fn finish(alloc: Global, sum: Option<Sum>) -> Result<LinExpression, Refusal>
    ensures lin { IfOk result (λ r. expression_of r ≡ form_or_waits (whole_of sum)) }
    ensures overflow { (pair : Pair) → result ≡ Err (Refusal.Overflow pair) → ComesFrom (due_in sum) pair }
{
    let form = whole(alloc, sum)?;
    Ok(answer(form))
}

/// The answer of an expression that has a form, or waits.
fn answer(form: Option<Form>) -> LinExpression
    ensures { expression_of result ≡ form_or_waits form }
{
    match form {
        None => LinExpression::Waits,
        Some(form) => LinExpression::Linear(form),
    }
}

/// Takes a number or a variable as a form, and puts an operation under way, whose first argument is next.
fn visit(
    heap: &Heap,
    atoms: &Atoms,
    id: TermId,
    under_way: &mut Vec<Waiting>,
) -> Result<Step, AllocError>
    requires live { id < length heap.now.now.terms }
    requires names { HasNamesBelow (length atoms.now) (at heap.now.now.terms id) }
    ensures { IfOk result (AfterVisit atoms.now heap.now.now.terms id under_way.old.items under_way.new.items) }
{
    match heap.view(id) {
        View::Var(variable) => {
            let form = operations::variable(heap.alloc(), variable)?;
            Ok(given(heap.alloc(), Some(form)))
        }
        View::Number(number) => {
            let form = operations::constant(heap.alloc(), number)?;
            Ok(given(heap.alloc(), Some(form)))
        }
        View::Name(_) => Ok(given(heap.alloc(), None)),
        View::Compound(name, arity) => {
            if arity == 1 {
                visit_one(heap, atoms, id, name, under_way)
            } else if arity == 2 {
                visit_two(heap, atoms, id, name, under_way)
            } else {
                Ok(Step::Return(None))
            }
        }
    }
}

/// The step of a form, or of what waits.
fn given(alloc: Global, form: Option<Form>) -> Step
    ensures { IsGiven form result }
{
    match form {
        None => Step::Return(None),
        Some(form) => Step::Return(Some(Sum::alone(alloc, form))),
    }
}

/// A name with one argument.
fn visit_one(
    heap: &Heap,
    atoms: &Atoms,
    id: TermId,
    name: Atom,
    under_way: &mut Vec<Waiting>,
) -> Result<Step, AllocError>
    requires live { id < length heap.now.now.terms }
    requires names { HasNamesBelow (length atoms.now) (at heap.now.now.terms id) }
    requires shown { view_of (at heap.now.now.terms id) ≡ Compound name 1 }
    ensures { IfOk result (AfterVisit atoms.now heap.now.now.terms id under_way.old.items under_way.new.items) }
{
    let operation = names::unary_named(atoms.text(name));
    let argument = heap.arg(id, 0);
    wait(under_way, Waiting::Only(operation))?;
    Ok(Step::Visit(argument))
}

/// A name with two arguments.
fn visit_two(
    heap: &Heap,
    atoms: &Atoms,
    id: TermId,
    name: Atom,
    under_way: &mut Vec<Waiting>,
) -> Result<Step, AllocError>
    requires live { id < length heap.now.now.terms }
    requires names { HasNamesBelow (length atoms.now) (at heap.now.now.terms id) }
    requires shown { view_of (at heap.now.now.terms id) ≡ Compound name 2 }
    ensures { IfOk result (AfterVisit atoms.now heap.now.now.terms id under_way.old.items under_way.new.items) }
{
    let operation = names::binary_named(atoms.text(name));
    let left = heap.arg(id, 0);
    let right = heap.arg(id, 1);
    wait(under_way, Waiting::Left(operation, right))?;
    Ok(Step::Visit(left))
}

/// Puts one operation more under way.
fn wait(under_way: &mut Vec<Waiting>, waiting: Waiting) -> Result<(), AllocError>
    ensures { OnOk result (under_way.new.items ≡ under_way.old.items ++ waiting ∷ []) }
{
    under_way.push(waiting)?;
    Ok(())
}

/// Gives the form, or that the argument waits, to an operation.
fn resume(
    alloc: Global,
    waiting: Waiting,
    sum: Option<Sum>,
    under_way: &mut Vec<Waiting>,
) -> Result<Step, Refusal>
    ensures goes_on { IfOk result (AfterResume waiting sum under_way.old.items under_way.new.items) }
    ensures overflow { (pair : Pair) → result ≡ Err (Refusal.Overflow pair) → ResumeOverflows waiting sum pair }
{
    match waiting {
        Waiting::Only(operation) => {
            let form = whole(alloc, sum)?;
            let made = operations::unary(alloc, operation, form)?;
            Ok(given(alloc, made))
        }
        Waiting::Left(operation, right) => {
            wait(under_way, Waiting::Right(operation, sum))?;
            Ok(Step::Visit(right))
        }
        Waiting::Right(operation, left) => {
            let right = whole(alloc, sum)?;
            joined(alloc, operation, left, right)
        }
    }
}

/// The operation on two forms; the walk stops where the divisor of a quotient is zero.
fn joined(
    alloc: Global,
    operation: Option<Binary>,
    left: Option<Sum>,
    right: Option<Form>,
) -> Result<Step, Refusal>
    ensures value { IfOk result (λ next. IsJoined (binary_meant operation) left right next) }
    ensures overflow { (pair : Pair) → result ≡ Err (Refusal.Overflow pair)
        → ComesFrom (due_in left ++ binary_operands (binary_meant operation) (whole_of left) right) pair }
{
    if has_zero_divisor(operation, &right) {
        return Ok(Step::Stop);
    }
    Ok(Step::Return(operated(alloc, operation, left, right)?))
}

/// The operation on two forms. Where it joins one to a sum of many variables, the form may wait there.
fn operated(
    alloc: Global,
    operation: Option<Binary>,
    left: Option<Sum>,
    right: Option<Form>,
) -> Result<Option<Sum>, Refusal>
    ensures value { IfOk result (λ s. whole_of s ≡ binary_of (binary_meant operation) (whole_of left) right) }
    ensures due { IfOk result (λ s. Within (due_in s) (due_in left ++ binary_operands (binary_meant operation) (whole_of left) right)) }
    ensures overflow { (pair : Pair) → result ≡ Err (Refusal.Overflow pair)
        → ComesFrom (due_in left ++ binary_operands (binary_meant operation) (whole_of left) right) pair }
{
    let Some(left) = left else {
        return Ok(None);
    };
    let Some(right) = right else {
        return Ok(None);
    };
    if left.lets_wait(&right) {
        if let Some(how) = joining_of(operation) {
            return Ok(Some(left.with(how, right)?));
        }
    }
    let form = whole(alloc, Some(left))?;
    match operations::binary(alloc, operation, form, Some(right))? {
        None => Ok(None),
        Some(made) => Ok(Some(Sum::alone(alloc, made))),
    }
}

/// How the operation joins its right argument to the left one, if it is a sum or a difference.
fn joining_of(operation: Option<Binary>) -> Option<Joining>
    ensures { (how : Joining) → result ≡ Some how → binary_meant operation ≡ Some (name_of how) }
{
    match operation {
        Some(Binary::Plus) => Some(Joining::Plus),
        Some(Binary::Minus) => Some(Joining::Less),
        _ => None,
    }
}

/// Whether the operation is a quotient by the number zero.
fn has_zero_divisor(operation: Option<Binary>, right: &Option<Form>) -> bool
    ensures { result ≡ (is_over (binary_meant operation) && is_zero_form right.now) }
{
    is_quotient(operation) && operations::is_zero(right)
}

fn is_quotient(operation: Option<Binary>) -> bool
    ensures { result ≡ is_over (binary_meant operation) }
{
    match operation {
        Some(Binary::Over) => true,
        _ => false,
    }
}
