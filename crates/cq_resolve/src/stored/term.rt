// Terms that are kept for later.

ghost use Rattle.std.specs.Prelude.{◌≡◌, ◌<◌, ◌≤◌, ◌++◌, ℕ, length, map, All, IfOk, OnOk, OnErr};
ghost use Rattle.spec_numbers.specs.Prefixes.{IsPrefix};
ghost use Rattle.spec_terms.specs.Variables.{variables, renamed_from};
ghost use Rattle.spec_terms.specs.Term.{apply};
ghost use Rattle.cq_term.specs.Meaning.{at};
ghost use Rattle.cq_term.specs.Names.{HasNamesBelow, KeepsNames};
ghost use Rattle.cq_unify.specs.Copied.{unbound_from};
ghost use Rattle.cq_resolve.specs.Building.{moved_by};
ghost use Rattle.cq_resolve.specs.Marks.{shown};
ghost use Rattle.cq_resolve.specs.Pattern.{IsPattern, term_of};

use crate::stored::building::{build, new_variables};
use crate::stored::part::Part;
use crate::stored::pattern::pattern_of;
use cq_frac::Frac;
use cq_term::{Atom, Heap, TermId, View};
use cq_trail::Undo;
use indexmap::IndexSet;
use std::alloc::AllocError;
use std::marker::Model;

/// A number or a name by itself, any other term as the list of its parts, from left to right, with how many variables it
/// has.
#[derive(Drop)]
enum Kept {
    Number(Frac),
    Name(Atom),
    Parts(Vec<Part>, usize),
}

/// A term over variables of its own, numbered from 0 by first occurrence, that outlives every `undo` of the heap that it
/// was read from. A number or a name takes no memory of its own.
#[derive(Drop)]
pub struct StoredTerm {
    kept: Kept,
}

impl Model for StoredTerm {
    ghost use Rattle.cq_resolve.specs.StoredValue.{StoredValue, stored_code};
    ghost use Rattle.cq_resolve.specs.Kept.{stored_of, IsStored};

    ghost Value = { StoredValue };

    ghost coded = { stored_code };

    ghost view = { λ s. stored_of s.kept };

    ghost invariant = { λ s. IsStored s.kept };
}

impl StoredTerm {
    /// Keeps a term, read through bindings.
    #[inline(always)]
    pub fn of(heap: &Heap, term: TermId) -> Result<StoredTerm, AllocError>
        requires { term < length heap.now.now.terms }
        ensures renamed { IfOk result (λ s. s.term ≡ renamed_from 0 (at heap.now.now.terms term)) }
        ensures variables { IfOk result (λ s. s.variables ≡ length (variables (at heap.now.now.terms term))) }
        ensures names { IfOk result (λ s. (n : ℕ) → HasNamesBelow n (at heap.now.now.terms term) → HasNamesBelow n s.term) }
    {
        match heap.view(term) {
            View::Number(number) => Ok(StoredTerm {
                kept: Kept::Number(number),
            }),
            View::Name(name) => Ok(StoredTerm {
                kept: Kept::Name(name),
            }),
            View::Var(_) | View::Compound(_, _) => StoredTerm::in_parts(heap, term),
        }
    }

    /// Keeps any term by its parts.
    fn in_parts(heap: &Heap, term: TermId) -> Result<StoredTerm, AllocError>
        requires { term < length heap.now.now.terms }
        ensures renamed { IfOk result (λ s. s.term ≡ renamed_from 0 (at heap.now.now.terms term)) }
        ensures variables { IfOk result (λ s. s.variables ≡ length (variables (at heap.now.now.terms term))) }
        ensures names { IfOk result (λ s. (n : ℕ) → HasNamesBelow n (at heap.now.now.terms term) → HasNamesBelow n s.term) }
    {
        let mut originals = IndexSet::new(heap.alloc());
        let pattern = pattern_of(heap, term, &mut originals)?;
        Ok(StoredTerm {
            kept: Kept::Parts(pattern, originals.len()),
        })
    }

    /// The term on a heap under new variables, the oldest for its first. An error is want of memory.
    pub fn restore(&self, heap: &mut Heap) -> Result<TermId, AllocError>
        ensures live { IfOk result (λ id. id < length heap.new.now.terms) }
        ensures moved { IfOk result (λ id. at heap.new.now.terms id ≡ apply (moved_by (length heap.old.now.images)) self.now.term) }

        // Older terms and variables stay, and only the term's variables are new.
        ensures terms { OnOk result (IsPrefix heap.old.now.terms heap.new.now.terms) }
        ensures images { OnOk result (heap.new.now.images ≡ heap.old.now.images ++ unbound_from (length heap.old.now.images) self.now.variables) }
        ensures names { (n : ℕ) → HasNamesBelow n self.now.term → KeepsNames n heap.old.now heap.new.now }
        ensures err { OnErr result (heap.new.now ≡ heap.old.now) }

        ensures saved { heap.new.saved ≡ heap.old.saved }
        ensures room { heap.old.room ≤ heap.new.room }
    {
        match &self.kept {
            Kept::Number(number) => heap.number(*number),
            Kept::Name(name) => heap.atom(*name),
            Kept::Parts(pattern, count) => restore_parts(heap, pattern, *count),
        }
    }
}

/// The term of a pattern on a heap under new variables, the oldest for its first. An error is want of memory.
fn restore_parts(heap: &mut Heap, pattern: &[Part], count: usize) -> Result<TermId, AllocError>
    requires { IsPattern count (map shown pattern.now) }
    ensures live { IfOk result (λ id. id < length heap.new.now.terms) }
    ensures moved { IfOk result (λ id. at heap.new.now.terms id ≡ apply (moved_by (length heap.old.now.images)) (term_of (map shown pattern.now))) }
    ensures terms { OnOk result (IsPrefix heap.old.now.terms heap.new.now.terms) }
    ensures images { OnOk result (heap.new.now.images ≡ heap.old.now.images ++ unbound_from (length heap.old.now.images) count) }
    ensures names { (n : ℕ) → HasNamesBelow n (term_of (map shown pattern.now)) → KeepsNames n heap.old.now heap.new.now }
    ensures err { OnErr result (heap.new.now ≡ heap.old.now) }
    ensures saved { heap.new.saved ≡ heap.old.saved }
    ensures room { heap.old.room ≤ heap.new.room }
{
    let m = heap.mark()?;
    match moved(heap, pattern, count) {
        Ok(id) => {
            heap.forget(m);
            Ok(id)
        }
        Err(fault) => {
            heap.undo(m);
            Err(fault)
        }
    }
}

/// The same, where an error may leave parts of it on the heap.
fn moved(heap: &mut Heap, pattern: &[Part], count: usize) -> Result<TermId, AllocError>
    requires { IsPattern count (map shown pattern.now) }
    ensures live { IfOk result (λ id. id < length heap.new.now.terms) }
    ensures moved { IfOk result (λ id. at heap.new.now.terms id ≡ apply (moved_by (length heap.old.now.images)) (term_of (map shown pattern.now))) }
    ensures terms { OnOk result (IsPrefix heap.old.now.terms heap.new.now.terms) }
    ensures images { OnOk result (heap.new.now.images ≡ heap.old.now.images ++ unbound_from (length heap.old.now.images) count) }
    ensures names { OnOk result ((n : ℕ) → HasNamesBelow n (term_of (map shown pattern.now)) → KeepsNames n heap.old.now heap.new.now) }
    ensures saved { heap.new.saved ≡ heap.old.saved }
    ensures room { heap.old.room ≤ heap.new.room }
{
    let first = new_variables(heap, count)?;
    let id = build(heap, pattern, first)?;
    Ok(id)
}
