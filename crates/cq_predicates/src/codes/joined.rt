// The texts that elements of lists make.

ghost use Rattle.std.specs.Prelude.{◌≡◌, ◌<◌, ℕ, List, All, map, length, encode_utf8_all, string_bytes, IfOk, IfErr};
ghost use Rattle.spec_numbers.specs.Texts.{Text};
ghost use Rattle.spec_builtins.specs.Texts.{elements_error};
ghost use Rattle.cq_term.specs.Trees.{trees, KnowsTerms};
ghost use Rattle.cq_built.specs.Errors.{CanBeRaised};
ghost use Rattle.cq_predicates.specs.Elements.{Make, IsFound, IsMadeOf, kind_of};

use crate::codes::elements::{ElementKind, code_character, element_character};
use cq_built::BuiltinFault;
use cq_term::atoms::Atoms;
use cq_term::{Heap, TermId};
use std::alloc::AllocError;

/// The text that elements make, or the error of the first that stands for no character.
pub(crate) fn joined(
    heap: &Heap,
    atoms: &Atoms,
    kind: ElementKind,
    elements: &[TermId],
) -> Result<String, BuiltinFault>
    requires live { All (λ id. id < length heap.now.now.terms) elements.now }
    requires names { KnowsTerms atoms.now heap.now.now.terms }
    ensures ok { IfOk result (λ s. Make (kind_of kind) (trees atoms.now heap.now.now.terms elements.now) (string_bytes s)) }
    ensures fault { IfErr result (IsFound atoms.now heap.now.now.terms (elements_error (kind_of kind) (trees atoms.now heap.now.now.terms elements.now))) }
    ensures culprit { IfErr result (CanBeRaised atoms.now heap.now.now.terms) }
{
    let mut text = String::new(heap.alloc());
    for id in elements {
        match element_character(heap, atoms, kind, *id) {
            Ok(character) => text.push(character)?,
            Err(error) => return Err(BuiltinFault::Error(error)),
        }
    }
    Ok(text)
}

/// The text that codes make; none where one of the terms is no code. An error is want of memory.
pub(crate) fn joined_codes(heap: &Heap, elements: &[TermId]) -> Result<Option<String>, AllocError>
    requires { All (λ id. id < length heap.now.now.terms) elements.now }
    ensures { IfOk result (λ o. (texts : List Text) → IsMadeOf (trees texts heap.now.now.terms elements.now) o) }
{
    let mut text = String::new(heap.alloc());
    for id in elements {
        match code_character(heap, *id) {
            Some(character) => text.push(character)?,
            None => return Ok(None),
        }
    }
    Ok(Some(text))
}
