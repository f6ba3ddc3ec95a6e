// Terms of a heap that are built from patterns over new variables.

ghost use Rattle.std.specs.Prelude.{◌≡◌, ◌<◌, ◌≤◌, ◌++◌, [], ℕ, List, length, map, reverse, All, IfOk, OnOk, OnErr};
ghost use Rattle.spec_numbers.specs.Prefixes.{IsPrefix};
ghost use Rattle.spec_terms.specs.Term.{apply};
ghost use Rattle.cq_term.specs.Names.{KeepsNames};
ghost use Rattle.cq_term.specs.Meaning.{HeapTerm, at};
ghost use Rattle.cq_term.specs.declared.view.View.TheVariants.{Compound};
ghost use Rattle.cq_unify.specs.Copied.{unbound_from};
ghost use Rattle.cq_resolve.specs.Pattern.{IsPattern, IsHead, IsNamedBelow, term_of, put};
ghost use Rattle.cq_resolve.specs.Marks.{shown};
ghost use Rattle.cq_resolve.specs.Building.{AreThere, HasSomeNew, image_from, BuildsOn};

use crate::stored::part::Part;
use cq_frac::{Frac, VarId};
use cq_term::{Atom, Heap, TermId};
use std::alloc::AllocError;

/// Makes so many variables, the oldest first, and says which number the first has, if there is one. An error is want of
/// memory.
#[inline(always)]
pub fn new_variables(heap: &mut Heap, count: usize) -> Result<usize, AllocError>
    ensures first { IfOk result (λ first. 0 < count → first ≡ length heap.old.now.images) }
    ensures there { IfOk result (λ first. AreThere heap.new.now.images first count) }
    ensures terms { IsPrefix heap.old.now.terms heap.new.now.terms }
    ensures images { OnOk result (heap.new.now.images ≡ heap.old.now.images ++ unbound_from (length heap.old.now.images) count) }
    ensures err { OnErr result (HasSomeNew count heap.old.now.images heap.new.now.images) }
    ensures names { (n : ℕ) → KeepsNames n heap.old.now heap.new.now }
    ensures saved { heap.new.saved ≡ heap.old.saved }
    ensures room { heap.old.room ≤ heap.new.room }
{
    if count == 0 {
        return Ok(0);
    }
    let first = heap.new_vars(count)?;
    Ok(first)
}

/// Builds the term of a pattern, where the heap's variables from the first one on take the places of the pattern's. An
/// error is want of memory; the parts that were built by then stay on the heap, until a mark is undone.
pub fn build(heap: &mut Heap, pattern: &[Part], first: usize) -> Result<TermId, AllocError>
    requires { (count : ℕ) × IsPattern count (map shown pattern.now) × AreThere heap.old.now.images first count }
    ensures live { IfOk result (λ id. id < length heap.new.now.terms) }
    ensures built { IfOk result (λ id. at heap.new.now.terms id ≡ apply (image_from heap.old.now.images first) (term_of (map shown pattern.now))) }
    ensures terms { IsPrefix heap.old.now.terms heap.new.now.terms }
    ensures images { heap.new.now.images ≡ heap.old.now.images }
    ensures names { (n : ℕ) → All (IsNamedBelow n) (map shown pattern.now) → KeepsNames n heap.old.now heap.new.now }
    ensures saved { heap.new.saved ≡ heap.old.saved }
    ensures room { heap.old.room ≤ heap.new.room }
{
    let mut built = heap.spare_list();
    let whole = build_in(heap, pattern, first, &mut built)?;
    heap.keep_list(built);
    Ok(whole)
}

/// Builds the term of a pattern, with an empty list for the parts that are still to be put into others.
fn build_in(
    heap: &mut Heap,
    pattern: &[Part],
    first: usize,
    built: &mut Vec<TermId>,
) -> Result<TermId, AllocError>
    requires pattern { (count : ℕ) × IsPattern count (map shown pattern.now) × AreThere heap.old.now.images first count }
    requires empty { built.old.items ≡ [] }
    ensures live { IfOk result (λ id. id < length heap.new.now.terms) }
    ensures built { IfOk result (λ id. at heap.new.now.terms id ≡ apply (image_from heap.old.now.images first) (term_of (map shown pattern.now))) }
    ensures terms { IsPrefix heap.old.now.terms heap.new.now.terms }
    ensures images { heap.new.now.images ≡ heap.old.now.images }
    ensures names { (n : ℕ) → All (IsNamedBelow n) (map shown pattern.now) → KeepsNames n heap.old.now heap.new.now }
    ensures saved { heap.new.saved ≡ heap.old.saved }
    ensures room { heap.old.room ≤ heap.new.room }
{
    for i in (0..pattern.len()).rev() {
        add(heap, &pattern[i], first, built)?;
    }
    Ok(built.pop().unwrap())
}

/// Builds the term that one part begins, over the terms that were built last, the last one first.
fn add(
    heap: &mut Heap,
    part: &Part,
    first: usize,
    built: &mut Vec<TermId>,
) -> Result<(), AllocError>
    requires part { (count : ℕ) × IsHead count (shown part.now) (length built.old.items) × AreThere heap.old.now.images first count }
    requires live { All (λ id. id < length heap.old.now.terms) built.old.items }
    ensures live { OnOk result (All (λ id. id < length heap.new.now.terms) built.new.items) }
    ensures built { OnOk result (BuildsOn heap.old.now heap.new.now first (shown part.now) built.old.items built.new.items) }
    ensures terms { IsPrefix heap.old.now.terms heap.new.now.terms }
    ensures images { heap.new.now.images ≡ heap.old.now.images }
    ensures names { (n : ℕ) → IsNamedBelow n (shown part.now) → KeepsNames n heap.old.now heap.new.now }
    ensures saved { heap.new.saved ≡ heap.old.saved }
    ensures room { heap.old.room ≤ heap.new.room }
{
    match part {
        Part::New(variable) | Part::Again(variable) => {
            built.push(heap.var_term(VarId(first + *variable)))?;
        }
        Part::Whole(number) => built.push(heap.number(Frac::from(*number))?)?,
        Part::Wide(number) => built.push(heap.number(**number)?)?,
        Part::Name(name) => built.push(heap.atom(*name)?)?,
        Part::Compound { arity, name, .. } => add_compound(heap, *name, *arity as usize, built)?,
    }
    Ok(())
}

/// Makes the terms that were built last the arguments of a compound, of which the first was built last.
fn add_compound(
    heap: &mut Heap,
    name: Atom,
    arity: usize,
    built: &mut Vec<TermId>,
) -> Result<(), AllocError>
    requires some { 0 < arity }
    requires enough { arity ≤ length built.old.items }
    requires live { All (λ id. id < length heap.old.now.terms) built.old.items }
    ensures live { OnOk result (All (λ id. id < length heap.new.now.terms) built.new.items) }
    ensures built { OnOk result (map (at heap.new.now.terms) (reverse built.new.items)
        ≡ put (Compound name arity) (map (at heap.old.now.terms) (reverse built.old.items))) }
    ensures terms { IsPrefix heap.old.now.terms heap.new.now.terms }
    ensures images { heap.new.now.images ≡ heap.old.now.images }
    ensures names { (n : ℕ) → name < n → KeepsNames n heap.old.now heap.new.now }
    ensures saved { heap.new.saved ≡ heap.old.saved }
    ensures room { heap.old.room ≤ heap.new.room }
{
    let first = built.len() - arity;
    let whole = heap.compound_reversed(name, &built[first..])?;
    built.truncate(first);
    built.push(whole)?;
    Ok(())
}
