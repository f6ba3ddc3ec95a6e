// The goals of arithmetic: the value of an expression, and comparisons of two.

ghost use Rattle.std.specs.Prelude.{◌≡◌, ◌<◌, List, length, IfOk, IfErr, OnErr};
ghost use Rattle.spec_numbers.specs.Texts.{Text};
ghost use Rattle.spec_terms.specs.Operations.{Evaluated};
ghost use Rattle.spec_terms.specs.Arithmetic.{evaluate};
ghost use Rattle.spec_builtins.specs.Errors.{arithmetic_error};
ghost use Rattle.cq_term.specs.Meaning.{HeapTerm};
ghost use Rattle.cq_term.specs.Trees.{tree, KnowsTerms};
ghost use Rattle.cq_goals.specs.ArithFaults.{told, ComesTo, BlamesBelow, IsNamedBelow};
ghost use Rattle.cq_built.specs.Errors.{error_tree, HasCulprit};
ghost use Rattle.cq_built.specs.Growing.{Grows};
ghost use Rattle.cq_builtin.specs.Rows.{comparison_of};
ghost use Rattle.cq_goals.specs.Faults.{IsOutcome, IsFirstOutcome, IsValue, Compares, HasItsCulprit};

use crate::arith::{EvalError, EvalFault, eval};
use crate::faults::GoalFault;
use cq_built::{BuiltinError, Culprit, ValidType};
use cq_builtin::{Comparison, is_allowed};
use cq_term::atoms::Atoms;
use cq_term::{Heap, Pred, TermId};

/// `X is EXPRESSION`: the number with which X is to be unified. After a fault the heap is as it was.
pub fn is_value(heap: &mut Heap, atoms: &Atoms, expression: TermId) -> Result<TermId, GoalFault>
    requires live { expression < length heap.old.now.terms }
    requires names { KnowsTerms atoms.now heap.old.now.terms }
    ensures value { IfOk result (λ id. IsValue (evaluate (tree atoms.now heap.old.now.terms expression)) (tree atoms.now heap.new.now.terms id)) }
    ensures live { IfOk result (λ id. id < length heap.new.now.terms) }
    ensures fault { IfErr result (IsOutcome atoms.now heap.old.now.terms (evaluate (tree atoms.now heap.old.now.terms expression))) }
    ensures culprit { IfErr result (HasItsCulprit atoms.now heap.old.now.terms) }
    ensures grows { Grows atoms.now heap.old atoms.now heap.new }
    ensures err { OnErr result (heap.new.now ≡ heap.old.now) }
{
    match eval(heap, atoms, expression) {
        Ok(value) => match heap.number(value) {
            Ok(id) => Ok(id),
            Err(_) => Err(GoalFault::NoMemory),
        },
        Err(fault) => Err(goal_fault(fault)),
    }
}

/// Whether the values of two expressions, of which the left one is evaluated first, stand as the comparison asks.
pub fn compare_values(
    heap: &Heap,
    atoms: &Atoms,
    comparison: Comparison,
    left: TermId,
    right: TermId,
) -> Result<bool, GoalFault>
    requires left { left < length heap.now.now.terms }
    requires right { right < length heap.now.now.terms }
    requires names { KnowsTerms atoms.now heap.now.now.terms }
    ensures holds { IfOk result (let t = tree atoms.now heap.now.now.terms in Compares (comparison_of comparison) (evaluate (t left)) (evaluate (t right))) }
    ensures fault { IfErr result (let t = tree atoms.now heap.now.now.terms in
        IsFirstOutcome atoms.now heap.now.now.terms (evaluate (t left)) (evaluate (t right))) }
    ensures culprit { IfErr result (HasItsCulprit atoms.now heap.now.now.terms) }
{
    match eval(heap, atoms, left) {
        Ok(first) => match eval(heap, atoms, right) {
            Ok(second) => Ok(is_allowed(comparison, first.cmp(second))),
            Err(fault) => Err(goal_fault(fault)),
        },
        Err(fault) => Err(goal_fault(fault)),
    }
}

/// The fault of an evaluation as that of the goal.
fn goal_fault(fault: EvalFault) -> GoalFault
    ensures outcome { (texts : List Text) (ts : List HeapTerm) (r : Evaluated) → ComesTo texts r fault → IsOutcome texts ts r result }
    ensures culprit { (texts : List Text) (ts : List HeapTerm) → IsNamedBelow (length texts) fault → HasItsCulprit texts ts result }
{
    match fault {
        EvalFault::Error(error) => GoalFault::Error(goal_error(error)),
        EvalFault::Overflow(pair) => GoalFault::Overflow(pair),
        EvalFault::NoMemory => GoalFault::NoMemory,
    }
}

/// The error of an expression as that of the goal.
fn goal_error(error: EvalError) -> BuiltinError
    ensures same { (texts : List Text) (ts : List HeapTerm) → arithmetic_error (told texts error) ≡ error_tree texts ts result }
    ensures culprit { (texts : List Text) (ts : List HeapTerm) → BlamesBelow (length texts) error → HasCulprit texts ts result }
{
    match error {
        EvalError::Instantiation => BuiltinError::Instantiation,
        EvalError::NotEvaluable(name, arity) => BuiltinError::Type(
            ValidType::Evaluable,
            Culprit::Predicate(Pred { name, arity }),
        ),
        EvalError::NotInteger(number) => {
            BuiltinError::Type(ValidType::Integer, Culprit::Number(number))
        }
        EvalError::ZeroDivisor => BuiltinError::ZeroDivisor,
    }
}
