// A goal resolved with a clause.

ghost use Rattle.std.specs.Prelude.{◌≡◌, ◌≢◌, ◌<◌, ◌≤◌, ◌++◌, ℕ, List, length, All, Ok, Some, None};
ghost use Rattle.spec_terms.specs.Unifier.{HasNoUnifier};
ghost use Rattle.cq_frac.specs.declared.VarId.{VarId};
ghost use Rattle.cq_term.specs.Names.{KeepsNames};
ghost use Rattle.cq_term.specs.Meaning.{at};
ghost use Rattle.cq_resolve.specs.StoredValue.{HaveNamesBelow};
ghost use Rattle.cq_resolve.specs.Resolved.{Resolves, call};

use crate::matching::match_head;
use crate::stored::{Clause, build, new_variables};
use cq_term::{Heap, Newly, TermId};
use cq_trail::Undo;
use std::alloc::AllocError;

/// Makes a goal and the head of a clause equal, whose variables are new ones of the heap, and gives the body; or says
/// that nothing makes them equal. The head is walked along the goal: it is built only where the goal has an unbound
/// variable, and the body once the head was matched. A variable of the clause is made where it is first met, bound from the
/// start if the goal has a term for it, which needs no occurs check. The variables that get bound, those of the clause too,
/// are told to `newly` in the order of their bindings.
pub fn resolve(
    clause: &Clause,
    heap: &mut Heap,
    newly: &mut Newly,
    goal: TermId,
) -> Result<Option<TermId>, AllocError>
    requires { goal < length heap.old.now.terms }
    ensures resolved { (body : ℕ) → result ≡ Ok (Some body) → Resolves heap.old.now heap.new.now clause.now goal body newly.old newly.new }
    ensures none { result ≡ Ok None → HasNoUnifier (call heap.old.now clause.now goal) }

    // Where they are not made equal, by want of memory too, nothing has changed.
    ensures heap { ((body : ℕ) → result ≢ Ok (Some body)) → heap.new.now ≡ heap.old.now }
    ensures newly { ((body : ℕ) → result ≢ Ok (Some body)) → newly.new ≡ newly.old }

    ensures names { (n : ℕ) → HaveNamesBelow n clause.now → KeepsNames n heap.old.now heap.new.now }
    ensures saved { heap.new.saved ≡ heap.old.saved }
    ensures room { heap.old.room ≤ heap.new.room }
{
    heap.reserve(1)?;
    let start = heap.mark().unwrap();
    let told = newly.as_slice().len();
    let outcome = resolve_unmarked(clause, heap, newly, goal);
    if let Ok(Some(_)) = outcome {
        heap.forget(start);
    } else {
        heap.undo(start);
        newly.truncate(told);
    }
    outcome
}

/// The same, but for what was made, bound and told before a clash, or before memory ran out: the caller marks the heap, and
/// undoes.
pub fn resolve_unmarked(
    clause: &Clause,
    heap: &mut Heap,
    newly: &mut Newly,
    goal: TermId,
) -> Result<Option<TermId>, AllocError>
    requires { goal < length heap.old.now.terms }
    ensures resolved { (body : ℕ) → result ≡ Ok (Some body) → Resolves heap.old.now heap.new.now clause.now goal body newly.old newly.new }
    ensures none { result ≡ Ok None → HasNoUnifier (call heap.old.now clause.now goal) }
    ensures names { (body : ℕ) → result ≡ Ok (Some body)
        → (n : ℕ) → HaveNamesBelow n clause.now → KeepsNames n heap.old.now heap.new.now }
    ensures told { (more : List VarId) × (newly.new ≡ newly.old ++ more) }
    ensures saved { heap.new.saved ≡ heap.old.saved }
    ensures room { heap.old.room ≤ heap.new.room }
{
    heap.variables_are_unbound();
    let count = clause.variables();
    let first = heap.variables();
    if match_head(heap, newly, clause.head(), first, goal)? {
        let met = heap.variables() - first;
        new_variables(heap, count - met)?;
        let body = build(heap, clause.body(), first)?;
        Ok(Some(body))
    } else {
        Ok(None)
    }
}
