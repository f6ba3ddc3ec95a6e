// A goal and the head of a clause that are made equal, where nothing is to be settled then.

ghost use Rattle.std.specs.Prelude.{◌≡◌, ◌≢◌, ◌<◌, ◌≤◌, ℕ, length, Ok, IfOk, IsTrue};
ghost use Rattle.spec_terms.specs.Unifier.{HasNoUnifier};
ghost use Rattle.cq_resolve.specs.Resolved.{Resolves, call};
ghost use Rattle.cq_resolve.specs.StoredValue.{HaveNamesBelow};
ghost use Rattle.cq_term.specs.Names.{KeepsNames};
ghost use Rattle.cq_branch.specs.Entries.{IfBody, IfClash, IsFree};
ghost use Rattle.cq_branch.specs.declared.begin.entering.Entry.TheVariants.{Body};

use cq_attr::Attrs;
use cq_frac::VarId;
use cq_resolve::resolve_unmarked;
use cq_resolve::stored::Clause;
use cq_term::{Heap, Newly, TermId};
use cq_trail::Undo;
use std::alloc::AllocError;

/// What the head of a clause comes to at a goal.
#[derive(Clone, Copy)]
pub(crate) enum Entry {
    /// They were made equal, with nothing to be settled, and this is the body.
    Body(TermId),
    /// Nothing makes them equal.
    Clash,
    /// Something is to be settled once they are equal.
    Unsettled,
}

/// Makes a goal and the head of a clause equal, where nothing is to be settled then. The heap alone is marked: after any
/// answer but a body, and after want of memory, it is as at the call.
pub(crate) fn enter(
    clause: &Clause,
    heap: &mut Heap,
    attrs: &Attrs,
    newly: &mut Newly,
    goal: TermId,
) -> Result<Entry, AllocError>
    requires { goal < length heap.old.now.terms }
    ensures body { IfOk result (λ e. IfBody e (λ body. Resolves heap.old.now heap.new.now clause.now goal body newly.old newly.new)) }
    ensures free { IfOk result (λ e. IfBody e (λ body. IsFree attrs.now.now newly.new)) }
    ensures names { IfOk result (λ e. IfBody e (λ body. (n : ℕ) → HaveNamesBelow n clause.now → KeepsNames n heap.old.now heap.new.now)) }
    ensures clash { IfOk result (λ e. IfClash e (HasNoUnifier (call heap.old.now clause.now goal))) }
    ensures unchanged { ((body : ℕ) → result ≢ Ok (Body body)) → heap.new.now ≡ heap.old.now }
    ensures saved { heap.new.saved ≡ heap.old.saved }
    ensures room { heap.old.room ≤ heap.new.room }
{
    heap.reserve(1)?;
    let start = heap.mark().unwrap();
    let entry = enter_unmarked(clause, heap, attrs, newly, goal);
    if let Ok(Entry::Body(_)) = entry {
        heap.forget(start);
    } else {
        heap.undo(start);
    }
    entry
}

/// The same, but for what was made and bound before any answer but a body, or before memory ran out.
fn enter_unmarked(
    clause: &Clause,
    heap: &mut Heap,
    attrs: &Attrs,
    newly: &mut Newly,
    goal: TermId,
) -> Result<Entry, AllocError>
    requires { goal < length heap.old.now.terms }
    ensures body { IfOk result (λ e. IfBody e (λ body. Resolves heap.old.now heap.new.now clause.now goal body newly.old newly.new)) }
    ensures free { IfOk result (λ e. IfBody e (λ body. IsFree attrs.now.now newly.new)) }
    ensures names { IfOk result (λ e. IfBody e (λ body. (n : ℕ) → HaveNamesBelow n clause.now → KeepsNames n heap.old.now heap.new.now)) }
    ensures clash { IfOk result (λ e. IfClash e (HasNoUnifier (call heap.old.now clause.now goal))) }
    ensures saved { heap.new.saved ≡ heap.old.saved }
    ensures room { heap.old.room ≤ heap.new.room }
{
    let Some(body) = resolve_unmarked(clause, heap, newly, goal)? else {
        return Ok(Entry::Clash);
    };
    if is_free(attrs, newly.as_slice()) {
        Ok(Entry::Body(body))
    } else {
        Ok(Entry::Unsettled)
    }
}

/// Whether none of the variables is numeric, and nothing waits for one of them; false where want of memory hides it.
#[inline(always)]
pub(crate) fn is_free(attrs: &Attrs, newly: &[VarId]) -> bool
    ensures { IsTrue result → IsFree attrs.now.now newly.now }
{
    for &variable in newly {
        if attrs.is_numeric(variable) {
            return false;
        }
    }
    match attrs.woken(newly) {
        Ok(woken) => woken.is_empty(),
        Err(_) => false,
    }
}
