// number_codes: a number and the list of the codes of its text.

ghost use Rattle.std.specs.Prelude.{◌≡◌, ◌<◌, length, IfOk, IfErr};
ghost use Rattle.spec_text.specs.Numbers.{number_text};
ghost use Rattle.spec_builtins.specs.Texts.{number_read, number_in};
ghost use Rattle.cq_term.specs.Trees.{tree, KnowsTerms};
ghost use Rattle.cq_term.specs.Pairs.{IsLive};
ghost use Rattle.cq_built.specs.Growing.{Grows};
ghost use Rattle.cq_built.specs.Errors.{Explains, CanBeRaised};
ghost use Rattle.cq_predicates.specs.CodesRows.{IsOffered, IsPairOf, number_codes_of, told_codes_of, coded_of, Reads};

use crate::codes::characters::bytes_as_characters;
use crate::codes::elements::ElementKind;
use crate::codes::joined::joined_codes;
use crate::codes::lists::{listed, wrong_type};
use crate::codes::numerals::{number_in, number_text};
use cq_built::kinds::{is_nil, list_parts};
use cq_built::{BuiltinError, BuiltinFault, ValidType};
use cq_frac::Frac;
use cq_term::atoms::Atoms;
use cq_term::walk::Pair;
use cq_term::{Heap, TermId, View};
use std::alloc::AllocError;

/// `number_codes`: a list of codes is read as a number; of another term the number's codes are told.
pub(crate) fn number_codes(
    heap: &mut Heap,
    atoms: &mut Atoms,
    number: TermId,
    list: TermId,
) -> Result<Pair, BuiltinFault>
    requires number { number < length heap.old.now.terms }
    requires list { list < length heap.old.now.terms }
    requires names { KnowsTerms atoms.old heap.old.now.terms }
    ensures offered { IfOk result (IsOffered (number_codes_of atoms.old heap.old.now.terms number list) atoms.new heap.new.now.terms) }
    ensures live { IfOk result (IsLive heap.new.now.terms) }
    ensures fault { IfErr result (Explains atoms.old heap.old.now.terms (number_codes_of atoms.old heap.old.now.terms number list)) }
    ensures culprit { IfErr result (CanBeRaised atoms.old heap.old.now.terms) }
    ensures grows { Grows atoms.old heap.old atoms.new heap.new }
{
    match listed_codes(heap, atoms, list)? {
        Some(text) => read(heap, atoms, number, &text),
        None => told(heap, atoms, number, list),
    }
}

/// The text of a list of codes; none of another term.
fn listed_codes(heap: &Heap, atoms: &Atoms, list: TermId) -> Result<Option<String>, AllocError>
    requires list { list < length heap.now.now.terms }
    requires names { KnowsTerms atoms.now heap.now.now.terms }
    ensures { IfOk result (Reads (tree atoms.now heap.now.now.terms list)) }
{
    let parts = list_parts(heap, atoms, list)?;
    if is_nil(heap, atoms, parts.tail) {
        joined_codes(heap, &parts.elements)
    } else {
        Ok(None)
    }
}

/// The number with the one that a text is.
fn read(heap: &mut Heap, atoms: &Atoms, number: TermId, text: &str) -> Result<Pair, BuiltinFault>
    requires number { number < length heap.old.now.terms }
    requires names { KnowsTerms atoms.now heap.old.now.terms }
    ensures offered { IfOk result (IsOffered (number_read (tree atoms.now heap.old.now.terms number) (number_in text.now)) atoms.now heap.new.now.terms) }
    ensures live { IfOk result (IsLive heap.new.now.terms) }
    ensures fault { IfErr result (Explains atoms.now heap.old.now.terms (number_read (tree atoms.now heap.old.now.terms number) (number_in text.now))) }
    ensures culprit { IfErr result (CanBeRaised atoms.now heap.old.now.terms) }
    ensures grows { Grows atoms.now heap.old atoms.now heap.new }
{
    match number_in(text.as_bytes()) {
        Some(found) => {
            let right = heap.number(found)?;
            Ok(Pair {
                left: number,
                right,
            })
        }
        None => Err(BuiltinFault::Error(BuiltinError::IllegalNumber)),
    }
}

/// The list with the codes of the number's text.
fn told(
    heap: &mut Heap,
    atoms: &mut Atoms,
    number: TermId,
    list: TermId,
) -> Result<Pair, BuiltinFault>
    requires number { number < length heap.old.now.terms }
    requires list { list < length heap.old.now.terms }
    requires names { KnowsTerms atoms.old heap.old.now.terms }
    ensures offered { IfOk result (IsOffered (told_codes_of atoms.old heap.old.now.terms number list) atoms.new heap.new.now.terms) }
    ensures live { IfOk result (IsLive heap.new.now.terms) }
    ensures fault { IfErr result (Explains atoms.old heap.old.now.terms (told_codes_of atoms.old heap.old.now.terms number list)) }
    ensures culprit { IfErr result (CanBeRaised atoms.old heap.old.now.terms) }
    ensures grows { Grows atoms.old heap.old atoms.new heap.new }
{
    match heap.view(number) {
        View::Var(_) => Err(BuiltinFault::Error(BuiltinError::Instantiation)),
        View::Number(found) => {
            let pair = spelled(heap, atoms, found, list)?;
            Ok(pair)
        }
        View::Name(_) => Err(wrong_type(ValidType::Number, number)),
        View::Compound(_, _) => Err(wrong_type(ValidType::Number, number)),
    }
}

/// The list with that of the codes of a number's text.
fn spelled(
    heap: &mut Heap,
    atoms: &mut Atoms,
    number: Frac,
    list: TermId,
) -> Result<Pair, AllocError>
    requires list { list < length heap.old.now.terms }
    requires names { KnowsTerms atoms.old heap.old.now.terms }
    ensures offered { IfOk result (IsPairOf (coded_of atoms.old heap.old.now.terms list (number_text number)) atoms.new heap.new.now.terms) }
    ensures live { IfOk result (IsLive heap.new.now.terms) }
    ensures grows { Grows atoms.old heap.old atoms.new heap.new }
{
    let text = number_text(heap.alloc(), number)?;
    let characters = bytes_as_characters(heap.alloc(), &text)?;
    listed(heap, atoms, ElementKind::Codes, &characters, list)
}
