// char_code: a character and its code.

ghost use Rattle.std.specs.Prelude.{◌≡◌, ◌<◌, List, length, true, false, IfOk, IfErr, IfSome, IsNone};
ghost use Rattle.spec_numbers.specs.Texts.{Text};
ghost use Rattle.spec_builtins.specs.Kinds.{is_variable};
ghost use Rattle.cq_term.specs.Trees.{tree, KnowsTerms};
ghost use Rattle.cq_term.specs.Pairs.{IsLive};
ghost use Rattle.cq_built.specs.Growing.{Grows};
ghost use Rattle.cq_built.specs.Errors.{Explains, CanBeRaised, HasCulprit};
ghost use Rattle.cq_predicates.specs.Elements.{IsRefused, IsLetPass};
ghost use Rattle.cq_predicates.specs.CodesRows.{IsOffered, char_code_of};

use crate::codes::elements::{ElementKind, atom_character, element, listed_code};
use crate::codes::lists::wrong_type;
use cq_built::kinds::is_variable;
use cq_built::{BuiltinError, BuiltinFault, ValidType};
use cq_term::atoms::Atoms;
use cq_term::walk::Pair;
use cq_term::{Heap, TermId};

/// `char_code`: a character and its code.
pub(crate) fn char_code(
    heap: &mut Heap,
    atoms: &mut Atoms,
    character: TermId,
    code: TermId,
) -> Result<Pair, BuiltinFault>
    requires character { character < length heap.old.now.terms }
    requires code { code < length heap.old.now.terms }
    requires names { KnowsTerms atoms.old heap.old.now.terms }
    ensures offered { IfOk result (IsOffered (char_code_of atoms.old heap.old.now.terms character code) atoms.new heap.new.now.terms) }
    ensures live { IfOk result (IsLive heap.new.now.terms) }
    ensures fault { IfErr result (Explains atoms.old heap.old.now.terms (char_code_of atoms.old heap.old.now.terms character code)) }
    ensures culprit { IfErr result (CanBeRaised atoms.old heap.old.now.terms) }
    ensures grows { Grows atoms.old heap.old atoms.new heap.new }
{
    if is_variable(heap, character) {
        of_code(heap, atoms, character, code)
    } else {
        of_character(heap, atoms, character, code)
    }
}

/// The character of a code, where the character is unbound.
fn of_code(
    heap: &mut Heap,
    atoms: &mut Atoms,
    character: TermId,
    code: TermId,
) -> Result<Pair, BuiltinFault>
    requires character { character < length heap.old.now.terms }
    requires code { code < length heap.old.now.terms }
    requires names { KnowsTerms atoms.old heap.old.now.terms }
    requires unbound { is_variable (tree atoms.old heap.old.now.terms character) ≡ true }
    ensures offered { IfOk result (IsOffered (char_code_of atoms.old heap.old.now.terms character code) atoms.new heap.new.now.terms) }
    ensures live { IfOk result (IsLive heap.new.now.terms) }
    ensures fault { IfErr result (Explains atoms.old heap.old.now.terms (char_code_of atoms.old heap.old.now.terms character code)) }
    ensures culprit { IfErr result (CanBeRaised atoms.old heap.old.now.terms) }
    ensures grows { Grows atoms.old heap.old atoms.new heap.new }
{
    if is_variable(heap, code) {
        return Err(BuiltinFault::Error(BuiltinError::Instantiation));
    }
    match listed_code(heap, code) {
        Ok(found) => {
            let right = element(heap, atoms, ElementKind::Characters, found)?;
            Ok(Pair {
                left: character,
                right,
            })
        }
        Err(error) => Err(BuiltinFault::Error(error)),
    }
}

/// The code of a character, where the character is bound.
fn of_character(
    heap: &mut Heap,
    atoms: &mut Atoms,
    character: TermId,
    code: TermId,
) -> Result<Pair, BuiltinFault>
    requires character { character < length heap.old.now.terms }
    requires code { code < length heap.old.now.terms }
    requires names { KnowsTerms atoms.old heap.old.now.terms }
    requires bound { is_variable (tree atoms.old heap.old.now.terms character) ≡ false }
    ensures offered { IfOk result (IsOffered (char_code_of atoms.old heap.old.now.terms character code) atoms.new heap.new.now.terms) }
    ensures live { IfOk result (IsLive heap.new.now.terms) }
    ensures fault { IfErr result (Explains atoms.old heap.old.now.terms (char_code_of atoms.old heap.old.now.terms character code)) }
    ensures culprit { IfErr result (CanBeRaised atoms.old heap.old.now.terms) }
    ensures grows { Grows atoms.old heap.old atoms.new heap.new }
{
    match atom_character(heap, atoms, character) {
        Some(found) => match code_error(heap, code) {
            Some(error) => Err(BuiltinFault::Error(error)),
            None => {
                let right = element(heap, atoms, ElementKind::Codes, found)?;
                Ok(Pair { left: code, right })
            }
        },
        None => Err(wrong_type(ValidType::Character, character)),
    }
}

/// The error of a term that is neither unbound nor a code.
fn code_error(heap: &Heap, code: TermId) -> Option<BuiltinError>
    requires { code < length heap.now.now.terms }
    ensures some { IfSome result (IsRefused heap.now.now.terms code) }
    ensures none { IsNone result → IsLetPass heap.now.now.terms code }
    ensures culprit { IfSome result (λ e. (texts : List Text) → HasCulprit texts heap.now.now.terms e) }
{
    if is_variable(heap, code) {
        return None;
    }
    match listed_code(heap, code) {
        Ok(_) => None,
        Err(error) => Some(error),
    }
}
