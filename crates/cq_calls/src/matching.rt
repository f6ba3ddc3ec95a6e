// Which clauses of a call may match its goal, as far as the arguments show.

ghost use Rattle.std.specs.Prelude.{◌≡◌, ◌≢◌, ◌<◌, ◌≤◌, ℕ, All, length, map, slice_get, Some, true, false};
ghost use Rattle.spec_terms.specs.Term.{Var};
ghost use Rattle.cq_term.specs.Meaning.{HeapTerm, at};
ghost use Rattle.cq_term.specs.Shown.{arguments, view_of};
ghost use Rattle.cq_term.specs.declared.view.View.TheVariants as view;
ghost use Rattle.cq_resolve.specs.FirstArgument.{IsRigid};
ghost use Rattle.cq_resolve.specs.Marks.{shown, AreMarked};
ghost use Rattle.cq_resolve.specs.Pattern.{IsPattern, term_of};
ghost use Rattle.cq_calls.specs.Matching.{AreApart, AreArguments, ArgumentsBegin};

use cq_resolve::stored::{Clause, Part};
use cq_term::{Atom, Heap, TermId, View};

/// Whether the goal may be made equal to the clause's head. It isn't where the two show different heads as an argument, neither of a
/// variable, or where the head has one variable as two arguments that show different heads in the goal. Each argument is asked but the
/// first, for which a walk has a key, and no term is walked.
pub(crate) fn may_match(heap: &Heap, clause: &Clause, goal: TermId) -> bool
    requires { goal < length heap.now.now.terms }
    ensures { result ≡ false → AreApart (at heap.now.now.terms goal) clause.now.head }
{
    arguments_may_match(heap, heap.args(goal), clause.head())
}

/// The same of the goal's arguments.
fn arguments_may_match(heap: &Heap, goals: &[TermId], head: &[Part]) -> bool
    requires pattern { (count : ℕ) × IsPattern count (map shown head.now) }
    requires marks { AreMarked head.now }
    requires live { All (λ i. i < length heap.now.now.terms) goals.now }
    ensures { result ≡ false → (goal : HeapTerm) → AreArguments heap.now.now.terms goal goals.now → AreApart goal (term_of (map shown head.now)) }
{
    let mut place = 1;
    'arguments: for i in 0..goals.len() {
        if place >= head.len() {
            return true;
        }
        if i > 0 && is_apart(heap, goals, head, i, place) {
            return false;
        }
        place += head[place].size();
    }
    true
}

/// Whether the goal's argument of a number can't be the head's, which begins at this place.
#[inline(always)]
fn is_apart(heap: &Heap, goals: &[TermId], head: &[Part], i: usize, place: usize) -> bool
    requires pattern { (count : ℕ) × IsPattern count (map shown head.now) }
    requires marks { AreMarked head.now }
    requires live { All (λ i. i < length heap.now.now.terms) goals.now }
    requires asked { i < length goals.now }
    requires within { place < length head.now }
    requires begins { ArgumentsBegin (map shown head.now) place i }
    ensures { result ≡ true → (goal : HeapTerm) → AreArguments heap.now.now.terms goal goals.now → AreApart goal (term_of (map shown head.now)) }
{
    match &head[place] {
        Part::New(_) => false,
        Part::Again(variable) => was_other(heap, goals, head, i, *variable),
        Part::Name(name) => is_other_name(heap.view(goals[i]), *name),
        Part::Compound { arity, name, .. } => {
            is_other_compound(heap.view(goals[i]), *name, *arity as usize)
        }
        part => differ(heap.view(goals[i]), part.view()),
    }
}

/// Whether an argument before this one is the same variable of the head and shows another head in the goal.
fn was_other(heap: &Heap, goals: &[TermId], head: &[Part], i: usize, variable: usize) -> bool
    requires pattern { (count : ℕ) × IsPattern count (map shown head.now) }
    requires marks { AreMarked head.now }
    requires live { All (λ i. i < length heap.now.now.terms) goals.now }
    requires asked { i < length goals.now }
    ensures { result ≡ true → (goal : HeapTerm) → AreArguments heap.now.now.terms goal goals.now
        → slice_get (arguments (term_of (map shown head.now))) i ≡ Some (Var variable) → AreApart goal (term_of (map shown head.now)) }
{
    let mut place = 1;
    'earlier: for j in 0..i {
        if place >= head.len() {
            return false;
        }
        if is_variable(&head[place], variable) && differ(heap.view(goals[j]), heap.view(goals[i])) {
            return true;
        }
        place += head[place].size();
    }
    false
}

/// Whether the head is of no variable and isn't this name.
#[inline(always)]
fn is_other_name(shown: View, name: Atom) -> bool
    ensures { result ≡ true → IsRigid shown × (shown ≢ view.Name name) }
{
    match shown {
        View::Var(_) => false,
        View::Name(other) => other != name,
        View::Number(_) | View::Compound(_, _) => true,
    }
}

/// Whether the head is of no variable and of no compound with this name and so many arguments.
#[inline(always)]
fn is_other_compound(shown: View, name: Atom, arity: usize) -> bool
    ensures { result ≡ true → IsRigid shown × (shown ≢ view.Compound name arity) }
{
    match shown {
        View::Var(_) => false,
        View::Compound(other, count) => other != name || count != arity,
        View::Number(_) | View::Name(_) => true,
    }
}

/// Whether two heads differ and neither is of a variable.
fn differ(left: View, right: View) -> bool
    ensures { result ≡ true → IsRigid left × IsRigid right × (left ≢ right) }
{
    match left {
        View::Var(_) => false,
        View::Number(number) => match right {
            View::Var(_) => false,
            View::Number(other) => number != other,
            View::Name(_) | View::Compound(_, _) => true,
        },
        View::Name(name) => match right {
            View::Var(_) => false,
            View::Name(other) => name != other,
            View::Number(_) | View::Compound(_, _) => true,
        },
        View::Compound(name, arity) => match right {
            View::Var(_) => false,
            View::Compound(other, count) => name != other || arity != count,
            View::Number(_) | View::Name(_) => true,
        },
    }
}

/// Whether the part is this variable.
fn is_variable(part: &Part, variable: usize) -> bool
    ensures { result ≡ true → shown part.now ≡ view.Var (record { 0 = variable }) }
{
    match part {
        Part::New(other) | Part::Again(other) => *other == variable,
        _ => false,
    }
}
