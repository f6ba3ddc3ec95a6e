// arg: the argument of a compound at a place.

ghost use Rattle.std.specs.Prelude.{◌≡◌, ◌<◌, List, length, IfOk, IfErr};
ghost use Rattle.spec_numbers.specs.Texts.{Text};
ghost use Rattle.cq_built.specs.Errors.{HasCulprit};
ghost use Rattle.cq_builtin.specs.Offered.{offered_pair, IsLiveOrNone};
ghost use Rattle.cq_builtin.specs.Terms.{GivesError, arg_of, argument_of};

use cq_built::kinds::{is_below_zero, is_compound, is_integer, is_variable, natural_of};
use cq_built::{BuiltinError, Culprit, ValidDomain, ValidType};
use cq_term::walk::Pair;
use cq_term::{Heap, TermId, View};

/// arg(NUMBER,TERM,ARGUMENT): the argument with the one of the compound at that place, counted from 1; nothing where
/// the compound has no such place.
pub fn arg(
    heap: &Heap,
    number: TermId,
    term: TermId,
    argument: TermId,
) -> Result<Option<Pair>, BuiltinError>
    requires number { number < length heap.now.now.terms }
    requires term { term < length heap.now.now.terms }
    requires argument { argument < length heap.now.now.terms }
    ensures offered { IfOk result (λ o. (texts : List Text) → arg_of texts heap.now.now.terms number term argument ≡ offered_pair texts heap.now.now.terms o) }
    ensures error { IfErr result (λ e. (texts : List Text) → GivesError texts heap.now.now.terms (arg_of texts heap.now.now.terms number term argument) e) }
    ensures live { IfOk result (IsLiveOrNone heap.now.now.terms) }
    ensures culprit { IfErr result (λ e. (texts : List Text) → HasCulprit texts heap.now.now.terms e) }
{
    if is_variable(heap, number) {
        return Err(BuiltinError::Instantiation);
    }
    if is_variable(heap, term) {
        return Err(BuiltinError::Instantiation);
    }
    if !is_integer(heap, number) {
        return Err(BuiltinError::Type(ValidType::Integer, Culprit::Term(number)));
    }
    if !is_compound(heap, term) {
        return Err(BuiltinError::Type(ValidType::Compound, Culprit::Term(term)));
    }
    if is_below_zero(heap, number) {
        return Err(BuiltinError::Domain(ValidDomain::NotLessThanZero, Culprit::Term(number)));
    }
    Ok(argument_there(heap, natural_of(heap, number), term, argument))
}

/// The argument at a place, counted from 1, of a compound.
fn argument_there(heap: &Heap, number: u128, term: TermId, argument: TermId) -> Option<Pair>
    requires term { term < length heap.now.now.terms }
    requires argument { argument < length heap.now.now.terms }
    ensures offered { (texts : List Text) → argument_of texts heap.now.now.terms number term argument ≡ offered_pair texts heap.now.now.terms result }
    ensures live { IsLiveOrNone heap.now.now.terms result }
{
    let arguments = heap.args(term);
    if number == 0 {
        return None;
    }
    if number > arguments.len() as u128 {
        return None;
    }
    let place = number as usize - 1;
    Some(Pair {
        left: argument,
        right: arguments[place],
    })
}
