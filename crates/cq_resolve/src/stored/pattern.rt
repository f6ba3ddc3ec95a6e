// Patterns: terms as the lists of their parts, from left to right.

ghost use Rattle.std.specs.Prelude.{◌≡◌, ◌<◌, ℕ, length, map, true, false, IfOk, OnOk};
ghost use Rattle.spec_terms.specs.Term.{apply};
ghost use Rattle.spec_terms.specs.Variables.{variables_after, numbered_from};
ghost use Rattle.cq_term.specs.Meaning.{at};
ghost use Rattle.cq_term.specs.Places.{numbers_of};
ghost use Rattle.cq_term.specs.declared.view.View.TheVariants.{Compound};
ghost use Rattle.cq_resolve.specs.Pattern.{heads};
ghost use Rattle.cq_resolve.specs.Marks.{shown, IsMet, Written};
ghost use Rattle.cq_resolve.specs.declared.stored.part.Part.TheVariants.{New, Again};

use crate::stored::part::Part;
use cq_frac::VarId;
use cq_term::walk::push_arguments;
use cq_term::{Atom, Heap, TermId, View};
use indexmap::IndexSet;
use std::alloc::AllocError;

/// A term with its variables numbered by their places in a set, to which those are added that are new. Its compounds are
/// not marked.
pub(crate) fn pattern_of(
    heap: &Heap,
    term: TermId,
    originals: &mut IndexSet<VarId>,
) -> Result<Vec<Part>, AllocError>
    requires { term < length heap.now.now.terms }
    ensures originals { OnOk result (numbers_of originals.new.keys ≡ variables_after (numbers_of originals.old.keys) (at heap.now.now.terms term)) }
    ensures pattern { IfOk result (λ pattern. map shown pattern.items
        ≡ heads (apply (numbered_from 0 (numbers_of originals.new.keys)) (at heap.now.now.terms term))) }
    ensures met { IfOk result (λ pattern. Written (length originals.old.keys) pattern.items (length originals.new.keys)) }
{
    let mut pattern = Vec::new(heap.alloc());
    let mut work = vec![in heap.alloc(); term]?;
    while let Some(id) = work.pop() {
        match heap.view(id) {
            View::Var(variable) => {
                let (place, is_new) = originals.insert_full(variable)?;
                pattern.push(variable_part(place, is_new))?;
            }
            View::Number(number) => pattern.push(Part::number(heap.alloc(), number)?)?,
            View::Name(name) => pattern.push(Part::Name(name))?,
            View::Compound(name, arity) => {
                pattern.push(compound_part(name, arity)?)?;
                push_arguments(heap, id, arity, &mut work)?;
            }
        }
    }
    Ok(pattern)
}

/// A variable that stands there first, or again.
fn variable_part(variable: usize, is_new: bool) -> Part
    ensures new { is_new ≡ true → result ≡ New variable }
    ensures again { is_new ≡ false → result ≡ Again variable }
{
    if is_new {
        Part::New(variable)
    } else {
        Part::Again(variable)
    }
}

/// The head of a compound that isn't marked. Memory for more than `u32::MAX` arguments is never had.
fn compound_part(name: Atom, arity: usize) -> Result<Part, AllocError>
    ensures shown { IfOk result (λ p. shown p ≡ Compound name arity) }
    ensures met { IfOk result (λ p. (met : ℕ) → IsMet p met) }
{
    let Ok(arity) = u32::try_from(arity) else {
        return Err(AllocError);
    };
    Ok(Part::Compound {
        arity,
        size: 0,
        top: 0,
        name,
    })
}
