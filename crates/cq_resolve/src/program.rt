//! Clauses of a program as calls look for them: by the first argument of the head.
#![tactic(auto)]

mod laws;

ghost use Rattle.std.specs.Prelude.{◌≡◌, ◌<◌, [], ◌∷◌, ℕ, length, Option, Some, false};
ghost use Rattle.spec_terms.specs.Term.{Subst, apply};
ghost use Rattle.spec_terms.specs.Unifier.{HasNoUnifier};
ghost use Rattle.cq_term.specs.Meaning.{HeapTerm, at};
ghost use Rattle.cq_resolve.specs.FirstArgument.{first_shown};
ghost use Rattle.cq_clauses.specs.Keys.{may_match};
ghost use Rattle.cq_clauses.specs.declared.key.Key.{Key};
ghost use Rattle.cq_resolve.specs.Keys.{key_shown, key_of};

use crate::stored::{Clause, first_argument};
use cq_clauses::{Key, Keyed};
use cq_term::{Heap, TermId, View};
pub use laws::{
    calls_read_the_database, changes_are_those_of_the_database, clauses_are_counted,
    programs_stay_programs, walks_select_clauses,
};
use std::marker::Model;

/// A clause of a program, which calls find by the first argument of its head.
#[derive(Drop)]
pub struct ProgramClause {
    clause: Clause,
}

impl Model for ProgramClause {
    ghost use Rattle.cq_resolve.specs.StoredValue.{ClauseValue, clause_code};

    ghost Value = { ClauseValue };

    ghost coded = { clause_code };

    ghost view = { λ p. p.clause };
}

impl ProgramClause {
    /// A stored clause as one of a program.
    pub fn new(clause: Clause) -> Self
        ensures { result ≡ clause }
    {
        ProgramClause { clause }
    }

    /// The clause, to be resolved with a goal.
    pub fn clause(&self) -> &Clause
        ensures { result.now ≡ self.now }
    {
        &self.clause
    }
}

impl Keyed for ProgramClause {
    ghost key_of = { λ c. key_of c.head };

    fn key(&self) -> Option<Key> {
        key_shown(self.clause.first_argument())
    }
}

/// The key by which the clauses of a call are looked for; None where the goal has no argument, or a variable as its first.
pub fn goal_key(heap: &Heap, goal: TermId) -> Option<Key>
    requires { goal < length heap.now.now.terms }
    ensures { result ≡ key_of (at heap.now.now.terms goal) }
{
    key_shown(first_argument(heap, goal))
}

/// The key of a head that stands first; a variable has none.
fn key_shown(shown: Option<View>) -> Option<Key>
    ensures { result ≡ key_shown shown }
{
    match shown? {
        View::Number(number) => Some(Key::Number(number)),
        View::Name(name) => Some(Key::Name(name)),
        View::Compound(name, count) => Some(Key::Compound(name, count)),
        View::Var(_) => None,
    }
}

/// A clause that a call's key excludes has a head with which the goal has no unifier, under whatever variables the head
/// is put.
pub fn excluded_clauses_have_no_unifier()
    ensures { (goal head : HeapTerm) (r : Subst ℕ) (key : Key) → key_of goal ≡ Some key → may_match key (key_of head) ≡ false
        → HasNoUnifier (record { left = goal; right = apply r head } ∷ []) }
{}
