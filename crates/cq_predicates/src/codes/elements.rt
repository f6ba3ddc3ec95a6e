// The elements of lists of characters and codes.

ghost use Rattle.std.specs.Prelude.{◌≡◌, ◌<◌, List, All, map, length, false, IfOk, IfErr, IfSome, IsNone};
ghost use Rattle.spec_numbers.specs.Texts.{Text};
ghost use Rattle.spec_builtins.specs.Texts.{is_character, is_code, element_of};
ghost use Rattle.cq_term.specs.Trees.{tree, trees, KnowsTerms};
ghost use Rattle.cq_built.specs.Errors.{HasCulprit};
ghost use Rattle.cq_built.specs.Growing.{Grows};
ghost use Rattle.cq_predicates.specs.Elements.{IsCharacterOf, IsCodeOf, StandsFor, IsWrong, kind_of};

use crate::codes::characters::{only_character, scalar, text_of};
use cq_built::kinds::{is_below_zero, is_integer, natural_of};
use cq_built::{BuiltinError, Culprit, Representation, ValidType, atom, whole};
use cq_term::atoms::Atoms;
use cq_term::{Heap, TermId, View};
use std::alloc::AllocError;

/// What the elements of a list stand for characters by.
#[derive(Clone, Copy, PartialEq, Eq)]
pub(crate) enum ElementKind {
    Characters,
    Codes,
}

/// The terms of characters, or of their codes. An error is want of memory, and some may then stay on the heap.
pub(crate) fn elements(
    heap: &mut Heap,
    atoms: &mut Atoms,
    kind: ElementKind,
    characters: &[char],
) -> Result<Vec<TermId>, AllocError>
    requires names { KnowsTerms atoms.old heap.old.now.terms }
    ensures live { IfOk result (λ ids. All (λ id. id < length heap.new.now.terms) ids.items) }
    ensures built { IfOk result (λ ids. trees atoms.new heap.new.now.terms ids.items ≡ map (element_of (kind_of kind)) characters.now) }
    ensures grows { Grows atoms.old heap.old atoms.new heap.new }
{
    let mut ids = Vec::new(heap.alloc());
    for character in characters {
        let id = element(heap, atoms, kind, *character)?;
        ids.push(id)?;
    }
    Ok(ids)
}

/// The term of a character, or of its code.
pub(crate) fn element(
    heap: &mut Heap,
    atoms: &mut Atoms,
    kind: ElementKind,
    character: char,
) -> Result<TermId, AllocError>
    ensures live { IfOk result (λ id. id < length heap.new.now.terms) }
    ensures built { IfOk result (λ id. tree atoms.new heap.new.now.terms id ≡ element_of (kind_of kind) character) }
    ensures grows { Grows atoms.old heap.old atoms.new heap.new }
{
    match kind {
        ElementKind::Characters => {
            let text = text_of(heap.alloc(), character)?;
            atom(heap, atoms, &text)
        }
        ElementKind::Codes => whole(heap, atoms, character as usize),
    }
}

/// The character that an element stands for, or the error of one that stands for none.
pub(crate) fn element_character(
    heap: &Heap,
    atoms: &Atoms,
    kind: ElementKind,
    id: TermId,
) -> Result<char, BuiltinError>
    requires live { id < length heap.now.now.terms }
    requires names { KnowsTerms atoms.now heap.now.now.terms }
    ensures ok { IfOk result (StandsFor (kind_of kind) (tree atoms.now heap.now.now.terms id)) }
    ensures err { IfErr result (IsWrong kind atoms.now heap.now.now.terms id) }
    ensures culprit { IfErr result (HasCulprit atoms.now heap.now.now.terms) }
{
    match kind {
        ElementKind::Characters => match atom_character(heap, atoms, id) {
            Some(character) => Ok(character),
            None => Err(BuiltinError::Type(ValidType::Character, Culprit::Term(id))),
        },
        ElementKind::Codes => listed_code(heap, id),
    }
}

/// The character of a code in a list, or the error of what is none.
pub(crate) fn listed_code(heap: &Heap, id: TermId) -> Result<char, BuiltinError>
    requires { id < length heap.now.now.terms }
    ensures ok { IfOk result (λ c. (texts : List Text) → StandsFor (kind_of ElementKind.Codes) (tree texts heap.now.now.terms id) c) }
    ensures err { IfErr result (λ e. (texts : List Text) → IsWrong ElementKind.Codes texts heap.now.now.terms id e) }
    ensures culprit { IfErr result (λ e. (texts : List Text) → HasCulprit texts heap.now.now.terms e) }
{
    if !is_integer(heap, id) {
        return Err(BuiltinError::Type(ValidType::Integer, Culprit::Term(id)));
    }
    match code_character(heap, id) {
        Some(character) => Ok(character),
        None => Err(BuiltinError::Representation(Representation::CharacterCode)),
    }
}

/// The character of an atom of one character, and of no other term.
pub(crate) fn atom_character(heap: &Heap, atoms: &Atoms, id: TermId) -> Option<char>
    requires live { id < length heap.now.now.terms }
    requires names { KnowsTerms atoms.now heap.now.now.terms }
    ensures some { IfSome result (IsCharacterOf (tree atoms.now heap.now.now.terms id)) }
    ensures none { IsNone result → is_character (tree atoms.now heap.now.now.terms id) ≡ false }
{
    match heap.view(id) {
        View::Name(name) => only_character(atoms.text(name)),
        _ => None,
    }
}

/// The character of a code, and of no other term.
pub(crate) fn code_character(heap: &Heap, id: TermId) -> Option<char>
    requires { id < length heap.now.now.terms }
    ensures some { IfSome result (λ c. (texts : List Text) → IsCodeOf (tree texts heap.now.now.terms id) c) }
    ensures none { IsNone result → (texts : List Text) → is_code (tree texts heap.now.now.terms id) ≡ false }
{
    if is_integer(heap, id) && !is_below_zero(heap, id) {
        scalar(natural_of(heap, id))
    } else {
        None
    }
}
