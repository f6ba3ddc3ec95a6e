// A term of the goal and a part of the head are made equal.

ghost use Rattle.std.specs.Prelude.{◌≡◌, ◌+◌, ◌<◌, ◌≤◌, ◌^◌, ◌++◌, ℕ, List, length, map, All, OnOk, Ok, true, false};
ghost use Rattle.spec_terms.specs.Term.{Var, Number, Name, apply};
ghost use Rattle.cq_frac.specs.declared.VarId.{VarId};
ghost use Rattle.cq_term.specs.Names.{KeepsNames};
ghost use Rattle.cq_term.specs.Meaning.{at};
ghost use Rattle.cq_resolve.specs.Pattern.{IsPattern, IsNamedBelow, term_of};
ghost use Rattle.cq_resolve.specs.Marks.{shown};
ghost use Rattle.cq_resolve.specs.Building.{AreThere, image_from};
ghost use Rattle.cq_resolve.specs.Joined.{Joins, Clash};
ghost use Rattle.cq_resolve.specs.Resolved.{completed};

use crate::stored::{Part, build};
use cq_frac::{Frac, VarId};
use cq_term::{Atom, Heap, Newly, TermId, View};
use cq_unify::unify_unmarked;
use std::alloc::AllocError;

/// Makes a variable of the clause that was met equal to a term of the goal.
pub(crate) fn join_variable(
    heap: &mut Heap,
    newly: &mut Newly,
    variable: VarId,
    goal: TermId,
) -> Result<bool, AllocError>
    requires there { variable.0 < length heap.old.now.images }
    requires live { goal < length heap.old.now.terms }
    ensures joined { result ≡ Ok true → Joins heap.old.now heap.new.now goal (at heap.old.now.images variable.0) newly.old newly.new }
    ensures clash { result ≡ Ok false → Clash (at heap.old.now.terms goal) (at heap.old.now.images variable.0) }
    ensures told { (more : List VarId) × (newly.new ≡ newly.old ++ more) }
    ensures names { (n : ℕ) → KeepsNames n heap.old.now heap.new.now }
    ensures saved { heap.new.saved ≡ heap.old.saved }
    ensures room { heap.old.room ≤ heap.new.room }
{
    let met = heap.var_term(variable);
    join_terms(heap, newly, goal, met)
}

/// Makes the clause's next variable, which is bound to a term of the goal from the start: it needs no occurs check.
pub(crate) fn join_new(heap: &mut Heap, newly: &mut Newly, goal: TermId) -> Result<(), AllocError>
    requires { goal < length heap.old.now.terms }
    ensures joined { OnOk result ((total : ℕ) → length heap.new.now.images ≤ total
        → Joins (completed total heap.old.now) (completed total heap.new.now) goal (Var (length heap.old.now.images)) newly.old newly.new) }
    ensures made { OnOk result (length heap.new.now.images ≡ length heap.old.now.images + 1) }
    ensures few { OnOk result (length heap.new.now.images < 2 ^ 64) }
    ensures told { (more : List VarId) × (newly.new ≡ newly.old ++ more) }
    ensures names { (n : ℕ) → KeepsNames n heap.old.now heap.new.now }
    ensures saved { heap.new.saved ≡ heap.old.saved }
    ensures room { heap.old.room ≤ heap.new.room }
{
    heap.variables_are_unbound();
    heap.images_are_unbound();
    let variable = VarId(heap.variables());
    heap.new_bound_var(goal)?;
    newly.push(variable)?;
    Ok(())
}

/// Makes two terms equal.
fn join_terms(heap: &mut Heap, newly: &mut Newly, a: TermId, b: TermId) -> Result<bool, AllocError>
    requires a { a < length heap.old.now.terms }
    requires b { b < length heap.old.now.terms }
    ensures joined { result ≡ Ok true → Joins heap.old.now heap.new.now a (at heap.old.now.terms b) newly.old newly.new }
    ensures clash { result ≡ Ok false → Clash (at heap.old.now.terms a) (at heap.old.now.terms b) }
    ensures told { (more : List VarId) × (newly.new ≡ newly.old ++ more) }
    ensures names { (n : ℕ) → KeepsNames n heap.old.now heap.new.now }
    ensures saved { heap.new.saved ≡ heap.old.saved }
    ensures room { heap.old.room ≤ heap.new.room }
{
    unify_unmarked(heap, newly, a, b)
}

/// Makes a number of the head equal to a term of the goal.
pub(crate) fn join_number(
    heap: &mut Heap,
    newly: &mut Newly,
    number: Frac,
    goal: TermId,
) -> Result<bool, AllocError>
    requires { goal < length heap.old.now.terms }
    ensures joined { result ≡ Ok true → Joins heap.old.now heap.new.now goal (Number number) newly.old newly.new }
    ensures clash { result ≡ Ok false → Clash (at heap.old.now.terms goal) (Number number) }
    ensures told { (more : List VarId) × (newly.new ≡ newly.old ++ more) }
    ensures names { (n : ℕ) → KeepsNames n heap.old.now heap.new.now }
    ensures saved { heap.new.saved ≡ heap.old.saved }
    ensures room { heap.old.room ≤ heap.new.room }
{
    match heap.view(goal) {
        View::Var(variable) => {
            let id = heap.number(number)?;
            heap.bind(variable, id)?;
            newly.push(variable)?;
            Ok(true)
        }
        View::Number(shown) => Ok(shown == number),
        View::Name(_) | View::Compound(_, _) => Ok(false),
    }
}

/// Makes a name of the head equal to a term of the goal.
pub(crate) fn join_name(
    heap: &mut Heap,
    newly: &mut Newly,
    name: Atom,
    goal: TermId,
) -> Result<bool, AllocError>
    requires { goal < length heap.old.now.terms }
    ensures joined { result ≡ Ok true → Joins heap.old.now heap.new.now goal (Name name) newly.old newly.new }
    ensures clash { result ≡ Ok false → Clash (at heap.old.now.terms goal) (Name name) }
    ensures told { (more : List VarId) × (newly.new ≡ newly.old ++ more) }
    ensures names { (n : ℕ) → name < n → KeepsNames n heap.old.now heap.new.now }
    ensures saved { heap.new.saved ≡ heap.old.saved }
    ensures room { heap.old.room ≤ heap.new.room }
{
    match heap.view(goal) {
        View::Var(variable) => {
            let id = heap.atom(name)?;
            heap.bind(variable, id)?;
            newly.push(variable)?;
            Ok(true)
        }
        View::Name(shown) => Ok(shown == name),
        View::Number(_) | View::Compound(_, _) => Ok(false),
    }
}

/// Builds the part of the head, and makes it equal to a term of the goal.
pub(crate) fn join_built(
    heap: &mut Heap,
    newly: &mut Newly,
    part: &[Part],
    first: usize,
    goal: TermId,
) -> Result<bool, AllocError>
    requires live { goal < length heap.old.now.terms }
    requires part { (count : ℕ) × IsPattern count (map shown part.now) × AreThere heap.old.now.images first count }
    ensures joined { result ≡ Ok true
        → Joins heap.old.now heap.new.now goal (apply (image_from heap.old.now.images first) (term_of (map shown part.now))) newly.old newly.new }
    ensures clash { result ≡ Ok false → Clash (at heap.old.now.terms goal) (apply (image_from heap.old.now.images first) (term_of (map shown part.now))) }
    ensures told { (more : List VarId) × (newly.new ≡ newly.old ++ more) }
    ensures names { OnOk result ((n : ℕ) → All (IsNamedBelow n) (map shown part.now) → KeepsNames n heap.old.now heap.new.now) }
    ensures saved { heap.new.saved ≡ heap.old.saved }
    ensures room { heap.old.room ≤ heap.new.room }
{
    let built = build(heap, part, first)?;
    join_terms(heap, newly, goal, built)
}
