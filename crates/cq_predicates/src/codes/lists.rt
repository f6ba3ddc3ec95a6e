// Atoms and the lists of their characters or codes.

ghost use Rattle.std.specs.Prelude.{◌≡◌, ◌<◌, ℕ, List, All, length, chars, string_bytes, IfOk, IfErr};
ghost use Rattle.std.specs.List.{list_any};
ghost use Rattle.spec_numbers.specs.Texts.{Text};
ghost use Rattle.spec_terms.specs.Term.{Var};
ghost use Rattle.spec_builtins.specs.Kinds.{is_variable};
ghost use Rattle.cq_term.specs.Texts.{text_of};
ghost use Rattle.cq_term.specs.Meaning.{at};
ghost use Rattle.cq_term.specs.Trees.{trees, KnowsTerms};
ghost use Rattle.cq_term.specs.Pairs.{IsLive};
ghost use Rattle.cq_built.specs.Growing.{Grows};
ghost use Rattle.cq_built.specs.Errors.{Explains, CanBeRaised};
ghost use Rattle.cq_predicates.specs.CodesRows.{IsOffered, IsPairOf, atom_list_of, spelled_of, MakesAtom, MakesNone};

use crate::codes::characters::characters;
use crate::codes::elements::{ElementKind, elements};
use crate::codes::joined::joined;
use cq_built::kinds::{is_nil, is_variable, list_parts};
use cq_built::{BuiltinError, BuiltinFault, Culprit, ValidType, atom, list as list_of};
use cq_term::atoms::{Atom, Atoms};
use cq_term::walk::Pair;
use cq_term::{Heap, TermId, View};
use std::alloc::AllocError;

/// `atom_chars` and `atom_codes`: an atom and the list of its characters or codes.
pub(crate) fn atom_list(
    heap: &mut Heap,
    atoms: &mut Atoms,
    kind: ElementKind,
    text: TermId,
    list: TermId,
) -> Result<Pair, BuiltinFault>
    requires text { text < length heap.old.now.terms }
    requires list { list < length heap.old.now.terms }
    requires names { KnowsTerms atoms.old heap.old.now.terms }
    ensures offered { IfOk result (IsOffered (atom_list_of kind atoms.old heap.old.now.terms text list) atoms.new heap.new.now.terms) }
    ensures live { IfOk result (IsLive heap.new.now.terms) }
    ensures fault { IfErr result (Explains atoms.old heap.old.now.terms (atom_list_of kind atoms.old heap.old.now.terms text list)) }
    ensures culprit { IfErr result (CanBeRaised atoms.old heap.old.now.terms) }
    ensures grows { Grows atoms.old heap.old atoms.new heap.new }
{
    match heap.view(text) {
        View::Var(_) => put_together(heap, atoms, kind, text, list),
        View::Name(name) => {
            let pair = taken_apart(heap, atoms, kind, name, list)?;
            Ok(pair)
        }
        View::Number(_) => Err(wrong_type(ValidType::Atom, text)),
        View::Compound(_, _) => Err(wrong_type(ValidType::Atom, text)),
    }
}

/// A term of another type than is wanted.
pub(crate) fn wrong_type(wanted: ValidType, term: TermId) -> BuiltinFault
    ensures { result ≡ BuiltinFault.Error (BuiltinError.Type wanted (Culprit.Term term)) }
{
    BuiltinFault::Error(BuiltinError::Type(wanted, Culprit::Term(term)))
}

/// The list with that of the characters or codes of a name's text.
fn taken_apart(
    heap: &mut Heap,
    atoms: &mut Atoms,
    kind: ElementKind,
    name: Atom,
    list: TermId,
) -> Result<Pair, AllocError>
    requires name { name < length atoms.old }
    requires list { list < length heap.old.now.terms }
    requires names { KnowsTerms atoms.old heap.old.now.terms }
    ensures offered { IfOk result (IsPairOf (spelled_of kind atoms.old heap.old.now.terms list (chars (text_of atoms.old name))) atoms.new heap.new.now.terms) }
    ensures live { IfOk result (IsLive heap.new.now.terms) }
    ensures grows { Grows atoms.old heap.old atoms.new heap.new }
{
    let characters = characters(heap.alloc(), atoms.text(name))?;
    listed(heap, atoms, kind, &characters, list)
}

/// The list with that of characters or their codes.
pub(crate) fn listed(
    heap: &mut Heap,
    atoms: &mut Atoms,
    kind: ElementKind,
    characters: &[char],
    list: TermId,
) -> Result<Pair, AllocError>
    requires list { list < length heap.old.now.terms }
    requires names { KnowsTerms atoms.old heap.old.now.terms }
    ensures offered { IfOk result (IsPairOf (spelled_of kind atoms.old heap.old.now.terms list characters.now) atoms.new heap.new.now.terms) }
    ensures live { IfOk result (IsLive heap.new.now.terms) }
    ensures grows { Grows atoms.old heap.old atoms.new heap.new }
{
    let ids = elements(heap, atoms, kind, characters)?;
    let right = list_of(heap, atoms, &ids)?;
    Ok(Pair { left: list, right })
}

/// The atom that the elements of a list make, where the other side is unbound.
fn put_together(
    heap: &mut Heap,
    atoms: &mut Atoms,
    kind: ElementKind,
    text: TermId,
    list: TermId,
) -> Result<Pair, BuiltinFault>
    requires text { text < length heap.old.now.terms }
    requires list { list < length heap.old.now.terms }
    requires names { KnowsTerms atoms.old heap.old.now.terms }
    requires unbound { (v : ℕ) × (at heap.old.now.terms text ≡ Var v) }
    ensures offered { IfOk result (IsOffered (atom_list_of kind atoms.old heap.old.now.terms text list) atoms.new heap.new.now.terms) }
    ensures live { IfOk result (IsLive heap.new.now.terms) }
    ensures fault { IfErr result (Explains atoms.old heap.old.now.terms (atom_list_of kind atoms.old heap.old.now.terms text list)) }
    ensures culprit { IfErr result (CanBeRaised atoms.old heap.old.now.terms) }
    ensures grows { Grows atoms.old heap.old atoms.new heap.new }
{
    match listed_text(heap, atoms, kind, list) {
        Ok(text_of_list) => {
            let right = atom(heap, atoms, &text_of_list)?;
            Ok(Pair { left: text, right })
        }
        Err(fault) => Err(fault),
    }
}

/// The text that the elements of a list make, or why they make none.
fn listed_text(
    heap: &Heap,
    atoms: &Atoms,
    kind: ElementKind,
    list: TermId,
) -> Result<String, BuiltinFault>
    requires list { list < length heap.now.now.terms }
    requires names { KnowsTerms atoms.now heap.now.now.terms }
    ensures made { IfOk result (λ s. MakesAtom kind atoms.now heap.now.now.terms list (string_bytes s)) }
    ensures fault { IfErr result (MakesNone kind atoms.now heap.now.now.terms list) }
    ensures culprit { IfErr result (CanBeRaised atoms.now heap.now.now.terms) }
{
    let parts = list_parts(heap, atoms, list)?;
    if is_variable(heap, parts.tail) || has_variable(heap, &parts.elements) {
        return Err(BuiltinFault::Error(BuiltinError::Instantiation));
    }
    if is_nil(heap, atoms, parts.tail) {
        joined(heap, atoms, kind, &parts.elements)
    } else {
        Err(wrong_type(ValidType::List, list))
    }
}

/// Whether one of the terms is unbound.
fn has_variable(heap: &Heap, elements: &[TermId]) -> bool
    requires { All (λ id. id < length heap.now.now.terms) elements.now }
    ensures { (texts : List Text) → result ≡ list_any is_variable (trees texts heap.now.now.terms elements.now) }
{
    for id in elements {
        if is_variable(heap, *id) {
            return true;
        }
    }
    false
}
