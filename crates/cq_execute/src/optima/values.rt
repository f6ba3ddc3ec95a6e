// The value of an expression at a side, as a goal asks for it.

ghost use Rattle.std.specs.Prelude.{◌≡◌, ◌<◌, length, IfOk, IfErr};
ghost use Rattle.cq_questions.specs.Extents.{side_of, IsReach};
ghost use Rattle.cq_questions.specs.Stops.{AtStates, ExtentStops};
ghost use Rattle.cq_questions.specs.Values.{AtValues};
ghost use Rattle.cq_term.specs.Trees.{tree};
ghost use Rattle.cq_machine.specs.Machines.{terms, IsSound};
ghost use Rattle.cq_execute.specs.Asked.{IsStoppedAt};
ghost use Rattle.cq_execute.specs.Found.{AtExtents, IsFoundAt, HasCulpritOf};
ghost use Rattle.cq_execute.specs.Found as found;
ghost use Rattle.cq_execute.specs.Machines.{IsUnchanged};

use cq_built::{BuiltinError, BuiltinFault, Culprit, ValidType};
use cq_frac::Frac;
use cq_goals::check_expression;
use cq_machine::Machine;
use cq_questions::{Reach, Side, reach_of};
use cq_store::store::{Extent, StoreFault};
use cq_term::TermId;

/// What was found of an expression.
#[derive(Clone, Copy)]
pub(crate) enum Valued {
    /// Its value at the side.
    Value(Frac),
    /// It has none there: it is unbounded, or a divisor in it is zero.
    Nothing,
    /// The goal that asks raises an error.
    Raises(BuiltinError),
}

/// The error of a goal that asks about a term that waits for its variables.
pub(crate) fn not_linear(term: TermId) -> BuiltinError
    ensures { result ≡ BuiltinError.Type ValidType.Linear (Culprit.Term term) }
{
    BuiltinError::Type(ValidType::Linear, Culprit::Term(term))
}

/// The value of an expression at a side, which is checked first.
pub(crate) fn value_at(
    m: &mut Machine,
    side: Side,
    expression: TermId,
) -> Result<Valued, StoreFault>
    requires sound { IsSound m.old }
    requires expression { expression < length (terms m.old) }
    ensures valued { IfOk result (λ v. AtExtents m.old (side_of side) expression (IsFoundAt m.old.atoms (terms m.old) v)) }
    ensures culprit { IfOk result (HasCulpritOf m.old.atoms (terms m.old)) }
    ensures stop { IfErr result (λ f. AtExtents m.old (side_of side) expression (λ p goal next. IsStoppedAt m.old.world.first.store.pivots f p goal)) }
    ensures unchanged { IsUnchanged m.old m.new }
    ensures sound { IsSound m.new }
{
    let world = &m.world;
    match check_expression(&world.first.heap, &m.atoms, expression) {
        Ok(()) => match ask_reach(m, side, expression) {
            Ok(found) => Ok(valued_by(expression, found)),
            Err(fault) => Err(fault),
        },
        Err(fault) => match fault {
            BuiltinFault::Error(error) => Ok(Valued::Raises(error)),
            BuiltinFault::NoMemory => Err(StoreFault::NoMemory),
        },
    }
}

/// What is found of an expression that reaches so far.
fn valued_by(expression: TermId, reach: Reach) -> Valued
    ensures { result ≡ found.valued_by expression reach }
{
    match reach {
        Reach::Linear(extent) => value_in(extent),
        Reach::Waits => Valued::Raises(not_linear(expression)),
        Reach::False => Valued::Nothing,
    }
}

/// The value of an extent.
fn value_in(extent: Extent) -> Valued
    ensures { result ≡ found.value_in extent }
{
    match extent {
        Extent::Value(value) => Valued::Value(value),
        Extent::Unbounded => Valued::Nothing,
    }
}

/// How far an expression reaches in the machine's world.
fn ask_reach(m: &mut Machine, side: Side, expression: TermId) -> Result<Reach, StoreFault>
    requires sound { IsSound m.old }
    requires expression { expression < length (terms m.old) }
    ensures reach { IfOk result (λ r. AtValues m.old.world.first.store.told (λ fixed. IsReach (side_of side) m.old.world.first.store.told fixed
        (tree m.old.atoms (terms m.old) expression) r)) }
    ensures stop { IfErr result (λ f. AtStates m.old.world.first.store.told
        (λ st. ExtentStops m.old.world.first.store.pivots st (side_of side) (tree m.old.atoms (terms m.old) expression) f)) }
    ensures unchanged { IsUnchanged m.old m.new }
    ensures sound { IsSound m.new }
{
    reach_of(&mut m.world.first, &m.atoms, side, expression)
}
