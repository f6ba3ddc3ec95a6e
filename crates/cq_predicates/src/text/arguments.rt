// The arguments of predicates on texts: what they may be, and what they ask for.

ghost use Rattle.std.specs.Prelude.{◌≡◌, ◌<◌, List, length, IfOk, IfErr, IfSome, IsNone};
ghost use Rattle.spec_numbers.specs.Texts.{Text};
ghost use Rattle.spec_terms.specs.Term.{Name, Number};
ghost use Rattle.cq_term.specs.Meaning.{at};
ghost use Rattle.cq_term.specs.Trees.{tree, KnowsTerms};
ghost use Rattle.cq_predicates.specs.Arguments.{IsRefused, AreLetPass, IsAtomOr, IsAsked, IsAskedText, atom_tests, other_atom_tests, other_integer_tests, counts_tests};
ghost use Rattle.cq_predicates.specs.Ways.{HasPartArgs};

use crate::text::characters::characters;
use crate::text::sought::Wanted;
use crate::text::ways::PartArgs;
use cq_built::kinds::{is_integer, is_variable};
use cq_built::{BuiltinError, Culprit, ValidType};
use cq_frac::Frac;
use cq_term::atoms::{Atom, Atoms};
use cq_term::{Heap, TermId, View};
use std::alloc::AllocError;

/// The name of an atom; an error where the term is unbound or no atom.
pub(crate) fn atom_argument(heap: &Heap, id: TermId) -> Result<Atom, BuiltinError>
    requires { id < length heap.now.now.terms }
    ensures ok { IfOk result (λ name. at heap.now.now.terms id ≡ Name name) }
    ensures err { IfErr result (IsRefused heap.now.now.terms (atom_tests heap.now.now.terms id)) }
{
    match heap.view(id) {
        View::Name(name) => Ok(name),
        View::Var(_) => Err(BuiltinError::Instantiation),
        _ => Err(BuiltinError::Type(ValidType::Atom, Culprit::Term(id))),
    }
}

/// The name of an atom, none of a variable; an error where the term is bound and no atom.
pub(crate) fn optional_atom(heap: &Heap, id: TermId) -> Result<Option<Atom>, BuiltinError>
    requires { id < length heap.now.now.terms }
    ensures ok { IfOk result (IsAtomOr heap.now.now.terms id) }
    ensures passes { IfOk result (λ _. AreLetPass (other_atom_tests heap.now.now.terms id)) }
    ensures err { IfErr result (IsRefused heap.now.now.terms (other_atom_tests heap.now.now.terms id)) }
{
    match heap.view(id) {
        View::Name(name) => Ok(Some(name)),
        View::Var(_) => Ok(None),
        _ => Err(BuiltinError::Type(ValidType::Atom, Culprit::Term(id))),
    }
}

/// The error where a term is bound and no whole number.
pub(crate) fn other_integer_error(heap: &Heap, id: TermId) -> Option<BuiltinError>
    requires { id < length heap.now.now.terms }
    ensures some { IfSome result (IsRefused heap.now.now.terms (other_integer_tests heap.now.now.terms id)) }
    ensures none { IsNone result → AreLetPass (other_integer_tests heap.now.now.terms id) }
{
    if is_variable(heap, id) || is_integer(heap, id) {
        None
    } else {
        Some(BuiltinError::Type(ValidType::Integer, Culprit::Term(id)))
    }
}

/// The error of the counts of characters before, in and after a part, if there is one.
pub(crate) fn counts_error(heap: &Heap, args: &PartArgs) -> Option<BuiltinError>
    requires { HasPartArgs heap.now.now.terms args.now }
    ensures some { IfSome result (IsRefused heap.now.now.terms (counts_tests heap.now.now.terms args.now)) }
    ensures none { IsNone result → AreLetPass (counts_tests heap.now.now.terms args.now) }
{
    if let Some(error) = other_integer_error(heap, args.before) {
        return Some(error);
    }
    if let Some(error) = other_integer_error(heap, args.len) {
        return Some(error);
    }
    other_integer_error(heap, args.after)
}

/// What an argument asks of a count.
pub(crate) fn wanted_count(heap: &Heap, id: TermId) -> Wanted
    requires { id < length heap.now.now.terms }
    ensures { (texts : List Text) → IsAsked (tree texts heap.now.now.terms id) result }
{
    match heap.view(id) {
        View::Var(_) => Wanted::Any,
        View::Number(number) => count_of(number),
        _ => Wanted::Never,
    }
}

/// What a number asks of a count.
fn count_of(number: Frac) -> Wanted
    ensures { IsAsked (Number number) result }
{
    let (numerator, denominator) = number.parts();
    if denominator != 1 {
        return Wanted::Never;
    }
    match usize::try_from(numerator) {
        Ok(count) => Wanted::Count(count),
        Err(_) => Wanted::Never,
    }
}

/// What a name or a variable asks of a text.
pub(crate) fn wanted_text(
    heap: &Heap,
    atoms: &Atoms,
    id: TermId,
    name: Option<Atom>,
) -> Result<Option<Vec<char>>, AllocError>
    requires live { id < length heap.now.now.terms }
    requires names { KnowsTerms atoms.now heap.now.now.terms }
    requires name { IsAtomOr heap.now.now.terms id name }
    ensures { IfOk result (IsAskedText (tree atoms.now heap.now.now.terms id)) }
{
    match name {
        None => Ok(None),
        Some(name) => Ok(Some(characters(heap.alloc(), atoms.text(name))?)),
    }
}
