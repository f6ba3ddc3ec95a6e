// Clauses as they are kept for calls.

ghost use Rattle.std.specs.Prelude.{◌≡◌, ◌<◌, ◌≤◌, ◌++◌, ℕ, length, map, All, IfOk, OnOk, OnErr};
ghost use Rattle.spec_numbers.specs.Prefixes.{IsPrefix};
ghost use Rattle.spec_terms.specs.Variables.{variables, renamed_from};
ghost use Rattle.spec_terms.specs.Term.{apply};
ghost use Rattle.cq_term.specs.Meaning.{at};
ghost use Rattle.cq_term.specs.Names.{HasNamesBelow, KeepsNames};
ghost use Rattle.cq_unify.specs.Copied.{unbound_from};
ghost use Rattle.cq_resolve.specs.Building.{moved_by};
ghost use Rattle.cq_resolve.specs.FirstArgument.{first_shown};
ghost use Rattle.cq_resolve.specs.Pattern.{IsPattern, term_of};
ghost use Rattle.cq_resolve.specs.Marks.{shown, AreMarked};
ghost use Rattle.cq_resolve.specs.StoredValue.{both, HaveNamesBelow};

use crate::stored::building::{build, new_variables};
use crate::stored::marks::mark;
use crate::stored::part::Part;
use crate::stored::pattern::pattern_of;
use cq_term::{Heap, TermId, View};
use cq_trail::Undo;
use indexmap::IndexSet;
use std::alloc::AllocError;
use std::marker::Model;

/// A head and a body over variables of their own, numbered from 0 by first occurrence. Each is kept as the list of its
/// parts, from left to right. The head's parts are marked.
#[derive(Drop)]
pub struct Clause {
    head: Vec<Part>,
    body: Vec<Part>,
    variables: usize,
}

impl Model for Clause {
    ghost use Rattle.cq_resolve.specs.StoredValue.{ClauseValue, clause_code};
    ghost use Rattle.std.specs.Prelude.{map};
    ghost use Rattle.cq_resolve.specs.Pattern.{IsPattern, term_of};
    ghost use Rattle.cq_resolve.specs.Marks.{shown, AreMarked};

    ghost Value = { ClauseValue };

    ghost coded = { clause_code };

    ghost view = { λ c. record { head = term_of (map shown c.head.items); body = term_of (map shown c.body.items); variables = c.variables } };

    ghost invariant = { λ c. record {
      head : IsPattern c.variables (map shown c.head.items);
      body : IsPattern c.variables (map shown c.body.items);
      marks : AreMarked c.head.items;
    } };
}

impl Clause {
    /// Keeps two terms, read through bindings.
    pub fn of(heap: &Heap, head: TermId, body: TermId) -> Result<Clause, AllocError>
        requires head { head < length heap.now.now.terms }
        requires body { body < length heap.now.now.terms }
        ensures renamed { IfOk result (λ c. both c.head c.body ≡ renamed_from 0 (both (at heap.now.now.terms head) (at heap.now.now.terms body))) }
        ensures variables { IfOk result (λ c. c.variables ≡ length (variables (both (at heap.now.now.terms head) (at heap.now.now.terms body)))) }
        ensures names { IfOk result (λ c. (n : ℕ) → HasNamesBelow n (at heap.now.now.terms head)
            → HasNamesBelow n (at heap.now.now.terms body) → HaveNamesBelow n c) }
    {
        let mut originals = IndexSet::new(heap.alloc());
        let mut head = pattern_of(heap, head, &mut originals)?;
        let body = pattern_of(heap, body, &mut originals)?;
        let variables = originals.len();
        mark(&mut head)?;
        Ok(Clause {
            head,
            body,
            variables,
        })
    }

    /// The head of the head's first argument, if it has one.
    pub fn first_argument(&self) -> Option<View>
        ensures { result ≡ first_shown self.now.head }
    {
        match self.head[0].view() {
            View::Compound(_, _) => Some(self.head[1].view()),
            View::Var(_) | View::Number(_) | View::Name(_) => None,
        }
    }

    /// The parts of the head, which are marked.
    pub fn head(&self) -> &[Part]
        ensures pattern { IsPattern self.now.variables (map shown result.now) }
        ensures term { term_of (map shown result.now) ≡ self.now.head }
        ensures marks { AreMarked result.now }
    {
        &self.head
    }

    /// The parts of the body.
    pub fn body(&self) -> &[Part]
        ensures pattern { IsPattern self.now.variables (map shown result.now) }
        ensures term { term_of (map shown result.now) ≡ self.now.body }
    {
        &self.body
    }

    /// How many variables the clause has.
    pub fn variables(&self) -> usize
        ensures { result ≡ self.now.variables }
    {
        self.variables
    }

    /// The head and the body on a heap under new variables, the oldest for the clause's first. An error is want of memory.
    pub fn rename(&self, heap: &mut Heap) -> Result<(TermId, TermId), AllocError>
        ensures live { IfOk result (λ ids. (ids.0 < length heap.new.now.terms) × (ids.1 < length heap.new.now.terms)) }
        ensures head { IfOk result (λ ids. at heap.new.now.terms ids.0 ≡ apply (moved_by (length heap.old.now.images)) self.now.head) }
        ensures body { IfOk result (λ ids. at heap.new.now.terms ids.1 ≡ apply (moved_by (length heap.old.now.images)) self.now.body) }

        // Older terms and variables stay, and only the clause's variables are new.
        ensures terms { OnOk result (IsPrefix heap.old.now.terms heap.new.now.terms) }
        ensures images { OnOk result (heap.new.now.images ≡ heap.old.now.images ++ unbound_from (length heap.old.now.images) self.now.variables) }
        ensures names { (n : ℕ) → HaveNamesBelow n self.now → KeepsNames n heap.old.now heap.new.now }
        ensures err { OnErr result (heap.new.now ≡ heap.old.now) }

        ensures saved { heap.new.saved ≡ heap.old.saved }
        ensures room { heap.old.room ≤ heap.new.room }
    {
        let m = heap.mark()?;
        match self.renamed(heap) {
            Ok(ids) => {
                heap.forget(m);
                Ok(ids)
            }
            Err(fault) => {
                heap.undo(m);
                Err(fault)
            }
        }
    }

    /// The two, where an error may leave parts of them on the heap.
    fn renamed(&self, heap: &mut Heap) -> Result<(TermId, TermId), AllocError>
        ensures live { IfOk result (λ ids. (ids.0 < length heap.new.now.terms) × (ids.1 < length heap.new.now.terms)) }
        ensures head { IfOk result (λ ids. at heap.new.now.terms ids.0 ≡ apply (moved_by (length heap.old.now.images)) self.now.head) }
        ensures body { IfOk result (λ ids. at heap.new.now.terms ids.1 ≡ apply (moved_by (length heap.old.now.images)) self.now.body) }
        ensures terms { OnOk result (IsPrefix heap.old.now.terms heap.new.now.terms) }
        ensures images { OnOk result (heap.new.now.images ≡ heap.old.now.images ++ unbound_from (length heap.old.now.images) self.now.variables) }
        ensures names { OnOk result ((n : ℕ) → HaveNamesBelow n self.now → KeepsNames n heap.old.now heap.new.now) }
        ensures saved { heap.new.saved ≡ heap.old.saved }
        ensures room { heap.old.room ≤ heap.new.room }
    {
        let first = new_variables(heap, self.variables)?;
        let head = build(heap, &self.head, first)?;
        let body = build(heap, &self.body, first)?;
        Ok((head, body))
    }
}
