// Unification of two terms by binding variables, one at a time.

ghost use Rattle.std.specs.Prelude.{◌≡◌, ◌≢◌, ◌<◌, ◌≤◌, ◌++◌, [], ◌∷◌, ℕ, List, length, map, true, false};
ghost use Rattle.spec_terms.specs.Term.{Occurs, apply, single};
ghost use Rattle.spec_terms.specs.Unifier.{HasNoUnifier};
ghost use Rattle.cq_frac.specs.declared.VarId.{VarId};
ghost use Rattle.cq_term.specs.Meaning.{at};
ghost use Rattle.cq_term.specs.Names.{KeepsNames};
ghost use Rattle.cq_unify.specs.Unified.{Unified, equation};
ghost use Rattle.cq_unify.specs.Work.{CanBind, IsBound};

use crate::occurs::occurs;
use crate::pairs::{self, Demand, Step, demand_of};
use cq_frac::VarId;
use cq_term::walk::Pair;
use cq_term::{Heap, Newly, TermId};
use cq_trail::Undo;
use std::alloc::AllocError;

/// Makes two terms equal by binding variables, or says that nothing does. Each variable is bound to a term in which
/// it doesn't stand, and of two variables the younger to the older. The variables that get bound are told to `newly`
/// in the order of their bindings. (Robinson 1965, with bindings in place of substituted terms.) Only two compounds,
/// and a compound inside one that a variable is to become, take memory beside that for the bindings: in lists that the
/// heap lends, and past sixty-four compounds of one term in a set.
#[inline(always)]
pub fn unify(heap: &mut Heap, newly: &mut Newly, a: TermId, b: TermId) -> Result<bool, AllocError>
    requires a { a < length heap.old.now.terms }
    requires b { b < length heap.old.now.terms }
    ensures unified { result ≡ Ok true → ((more : List VarId) × (newly.new ≡ newly.old ++ more) × Unified heap.old.now heap.new.now a b more) }
    ensures none { result ≡ Ok false → HasNoUnifier (equation heap.old.now a b) }

    // Where they are not made equal, by want of memory too, nothing has changed.
    ensures heap { result ≢ Ok true → heap.new.now ≡ heap.old.now }
    ensures newly { result ≢ Ok true → newly.new ≡ newly.old }

    ensures live { length heap.new.now.terms ≡ length heap.old.now.terms }
    ensures names { (n : ℕ) → KeepsNames n heap.old.now heap.new.now }
    ensures saved { heap.new.saved ≡ heap.old.saved }
    ensures room { heap.old.room ≤ heap.new.room }
{
    match demand_of(heap, a, b) {
        Demand::Same => Ok(true),
        Demand::Clash => Ok(false),
        Demand::Bind(variable, term) => bind_apart(heap, newly, variable, term),
        Demand::Arguments(_) => unify_or_undo(heap, newly, a, b),
    }
}

/// Makes two terms equal, or undoes what was bound and told.
fn unify_or_undo(
    heap: &mut Heap,
    newly: &mut Newly,
    a: TermId,
    b: TermId,
) -> Result<bool, AllocError>
    requires a { a < length heap.old.now.terms }
    requires b { b < length heap.old.now.terms }
    ensures unified { result ≡ Ok true → ((more : List VarId) × (newly.new ≡ newly.old ++ more) × Unified heap.old.now heap.new.now a b more) }
    ensures none { result ≡ Ok false → HasNoUnifier (equation heap.old.now a b) }
    ensures heap { result ≢ Ok true → heap.new.now ≡ heap.old.now }
    ensures newly { result ≢ Ok true → newly.new ≡ newly.old }
    ensures live { length heap.new.now.terms ≡ length heap.old.now.terms }
    ensures names { (n : ℕ) → KeepsNames n heap.old.now heap.new.now }
    ensures saved { heap.new.saved ≡ heap.old.saved }
    ensures room { heap.old.room ≤ heap.new.room }
{
    heap.reserve(1)?;
    let start = heap.mark().unwrap();
    let told = newly.as_slice().len();
    let outcome = unify_pairs(heap, newly, a, b);
    if let Ok(true) = outcome {
        heap.forget(start);
    } else {
        heap.undo(start);
        newly.truncate(told);
    }
    outcome
}

/// The same as `unify` for a caller that has a mark of its own: where the terms are not made equal, what was bound and told
/// before a clash, or before memory ran out, stays.
#[inline(always)]
pub fn unify_unmarked(
    heap: &mut Heap,
    newly: &mut Newly,
    a: TermId,
    b: TermId,
) -> Result<bool, AllocError>
    requires a { a < length heap.old.now.terms }
    requires b { b < length heap.old.now.terms }
    ensures unified { result ≡ Ok true → ((more : List VarId) × (newly.new ≡ newly.old ++ more) × Unified heap.old.now heap.new.now a b more) }
    ensures none { result ≡ Ok false → HasNoUnifier (equation heap.old.now a b) }
    ensures told { (more : List VarId) × (newly.new ≡ newly.old ++ more) }
    ensures live { length heap.new.now.terms ≡ length heap.old.now.terms }
    ensures names { (n : ℕ) → KeepsNames n heap.old.now heap.new.now }
    ensures saved { heap.new.saved ≡ heap.old.saved }
    ensures room { heap.old.room ≤ heap.new.room }
{
    match demand_of(heap, a, b) {
        Demand::Same => Ok(true),
        Demand::Clash => Ok(false),
        Demand::Bind(variable, term) => bind_apart(heap, newly, variable, term),
        Demand::Arguments(_) => unify_pairs(heap, newly, a, b),
    }
}

/// The same by pairs of terms, on a list that the heap lends.
fn unify_pairs(heap: &mut Heap, newly: &mut Newly, a: TermId, b: TermId) -> Result<bool, AllocError>
    requires a { a < length heap.old.now.terms }
    requires b { b < length heap.old.now.terms }
    ensures unified { result ≡ Ok true → ((more : List VarId) × (newly.new ≡ newly.old ++ more) × Unified heap.old.now heap.new.now a b more) }
    ensures none { result ≡ Ok false → HasNoUnifier (equation heap.old.now a b) }
    ensures told { (more : List VarId) × (newly.new ≡ newly.old ++ more) }
    ensures live { length heap.new.now.terms ≡ length heap.old.now.terms }
    ensures names { (n : ℕ) → KeepsNames n heap.old.now heap.new.now }
    ensures saved { heap.new.saved ≡ heap.old.saved }
    ensures room { heap.old.room ≤ heap.new.room }
{
    let mut work = heap.spare_pairs();
    let outcome = solve(heap, newly, a, b, &mut work);
    heap.keep_pairs(work);
    outcome
}

/// The same with a list for the pairs.
fn solve(
    heap: &mut Heap,
    newly: &mut Newly,
    a: TermId,
    b: TermId,
    work: &mut Vec<Pair>,
) -> Result<bool, AllocError>
    requires a { a < length heap.old.now.terms }
    requires b { b < length heap.old.now.terms }
    requires work { work.old.items ≡ [] }
    ensures unified { result ≡ Ok true → ((more : List VarId) × (newly.new ≡ newly.old ++ more) × Unified heap.old.now heap.new.now a b more) }
    ensures none { result ≡ Ok false → HasNoUnifier (equation heap.old.now a b) }
    ensures told { (more : List VarId) × (newly.new ≡ newly.old ++ more) }
    ensures live { length heap.new.now.terms ≡ length heap.old.now.terms }
    ensures names { (n : ℕ) → KeepsNames n heap.old.now heap.new.now }
    ensures saved { heap.new.saved ≡ heap.old.saved }
    ensures room { heap.old.room ≤ heap.new.room }
{
    work.push(Pair { left: a, right: b })?;
    'bindings: loop {
        match pairs::next(heap, work)? {
            Step::Done => return Ok(true),
            Step::Clash => return Ok(false),
            Step::Bind(variable, term) => {
                let is_bound = bind_apart(heap, newly, variable, term)?;
                if !is_bound {
                    return Ok(false);
                }
            }
        }
    }
}

/// Binds a variable and tells it, unless it stands in the term.
#[inline(always)]
fn bind_apart(
    heap: &mut Heap,
    newly: &mut Newly,
    variable: VarId,
    term: TermId,
) -> Result<bool, AllocError>
    requires { CanBind heap.old.now variable term }
    ensures bound { result ≡ Ok true → IsBound heap.old.now heap.new.now variable term }
    ensures told { result ≡ Ok true → newly.new ≡ newly.old ++ variable ∷ [] }
    ensures inside { result ≡ Ok false → Occurs variable.0 (at heap.old.now.terms term) }
    ensures heap { result ≢ Ok true → heap.new.now ≡ heap.old.now }
    ensures newly { result ≢ Ok true → newly.new ≡ newly.old }
    ensures live { length heap.new.now.terms ≡ length heap.old.now.terms }
    ensures names { (n : ℕ) → KeepsNames n heap.old.now heap.new.now }
    ensures saved { heap.new.saved ≡ heap.old.saved }
    ensures room { heap.old.room ≤ heap.new.room }
{
    if occurs(heap, variable, term)? {
        return Ok(false);
    }
    let told = newly.as_slice().len();
    newly.push(variable)?;
    match heap.bind(variable, term) {
        Ok(()) => Ok(true),
        Err(fault) => {
            newly.truncate(told);
            Err(fault)
        }
    }
}
