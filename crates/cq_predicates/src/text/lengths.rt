// The predicate that tells how long a text is.

ghost use Rattle.std.specs.Prelude.{◌≡◌, ◌<◌, length, IfOk, IfErr};
ghost use Rattle.spec_terms.specs.Term.{Name};
ghost use Rattle.spec_builtins.specs.Alternatives.{Offers};
ghost use Rattle.cq_term.specs.Meaning.{at};
ghost use Rattle.cq_term.specs.Trees.{KnowsTerms};
ghost use Rattle.cq_built.specs.Errors.{Explains, CanBeRaised};
ghost use Rattle.cq_built.specs.Growing.{Grows};
ghost use Rattle.cq_predicates.specs.Arguments.{IsRefused, AreLetPass, length_tests};
ghost use Rattle.cq_predicates.specs.TextRows.{length_row};
ghost use Rattle.cq_predicates.specs.Ways.{CanGoOn, offered, length_way};

use crate::text::arguments::{atom_argument, other_integer_error};
use crate::text::characters::count;
use crate::text::ways::{TextAlternatives, one_way};
use cq_built::kinds::is_below_zero;
use cq_built::{BuiltinError, BuiltinFault, Culprit, ValidDomain, whole};
use cq_term::atoms::{Atom, Atoms};
use cq_term::{Heap, TermId};
use std::alloc::AllocError;

/// `atom_length`: how many characters an atom has.
pub fn atom_length(
    heap: &mut Heap,
    atoms: &Atoms,
    text: TermId,
    len: TermId,
) -> Result<TextAlternatives, BuiltinFault>
    requires text { text < length heap.old.now.terms }
    requires len { len < length heap.old.now.terms }
    requires names { KnowsTerms atoms.now heap.old.now.terms }
    ensures ok { IfOk result (λ ways. length_row atoms.now heap.old.now.terms text len ≡ Offers (offered atoms.now heap.new.now.terms ways)) }
    ensures live { IfOk result (CanGoOn heap.new.now.terms) }
    ensures err { IfErr result (Explains atoms.now heap.old.now.terms (length_row atoms.now heap.old.now.terms text len)) }
    ensures culprit { IfErr result (CanBeRaised atoms.now heap.old.now.terms) }
    ensures grows { Grows atoms.now heap.old atoms.now heap.new }
{
    match length_name(heap, text, len) {
        Ok(name) => {
            let ways = told_length(heap, atoms, name, len)?;
            Ok(ways)
        }
        Err(error) => Err(BuiltinFault::Error(error)),
    }
}

/// The name of the atom, or the error of the first argument that is none of those allowed.
fn length_name(heap: &Heap, text: TermId, len: TermId) -> Result<Atom, BuiltinError>
    requires text { text < length heap.now.now.terms }
    requires len { len < length heap.now.now.terms }
    ensures ok { IfOk result (λ name. at heap.now.now.terms text ≡ Name name) }
    ensures passes { IfOk result (λ _. AreLetPass (length_tests heap.now.now.terms text len)) }
    ensures err { IfErr result (IsRefused heap.now.now.terms (length_tests heap.now.now.terms text len)) }
{
    let name = match atom_argument(heap, text) {
        Ok(name) => name,
        Err(error) => return Err(error),
    };
    if let Some(error) = other_integer_error(heap, len) {
        return Err(error);
    }
    if is_below_zero(heap, len) {
        Err(BuiltinError::Domain(ValidDomain::NotLessThanZero, Culprit::Term(len)))
    } else {
        Ok(name)
    }
}

/// The only way: the argument is how many characters the name has.
fn told_length(
    heap: &mut Heap,
    atoms: &Atoms,
    name: Atom,
    len: TermId,
) -> Result<TextAlternatives, AllocError>
    requires name { name < length atoms.now }
    requires len { len < length heap.old.now.terms }
    requires names { KnowsTerms atoms.now heap.old.now.terms }
    ensures ok { IfOk result (λ ways. offered atoms.now heap.new.now.terms ways ≡ length_way atoms.now heap.old.now.terms len name) }
    ensures live { IfOk result (CanGoOn heap.new.now.terms) }
    ensures grows { Grows atoms.now heap.old atoms.now heap.new }
{
    let count = whole(heap, atoms, count(atoms.text(name)))?;
    one_way(heap, len, count)
}
