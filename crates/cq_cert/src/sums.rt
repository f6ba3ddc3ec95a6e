// Runs: what their multiples add up to, and whether they refute a list.
ghost use Rattle.std.specs.Prelude.{◌≡◌, ◌∷◌, ◌||◌, length, true, false, IfOk, MatchOption};
ghost use Rattle.std.specs.Option.{option_map};
ghost use Rattle.spec_linear.specs.Form.{sum_form, scaled_form};
ghost use Rattle.spec_linear.specs.Certificate.{member};
ghost use Rattle.spec_log.specs.Verdicts.{allows, are_allowed, are_false_runs, are_members, is_above_zero, is_below_zero, is_disequation_in, is_false_behind, is_false_run, is_wide, join_exceeds, multiple_exceeds, some_strict, sum_of};

use cq_form::{Constraint, Form};
use cq_frac::{Frac, Refusal};
use spec_linear::Relation;
use std::alloc::{AllocError, Global};
use std::cmp::Ordering;

/// The form with `k` times the other added to it, where each number on the way fits.
fn with_multiple(sum: Form, k: Frac, form: &Form) -> Result<Option<Form>, AllocError>
    ensures { IfOk result (λ o. MatchOption o
        ((multiple_exceeds k form.now || join_exceeds sum (scaled_form k form.now)) ≡ true)
        (λ f. (f ≡ sum_form sum (scaled_form k form.now))
        × ((multiple_exceeds k form.now || join_exceeds sum (scaled_form k form.now)) ≡ false))) }
{
    let multiple = match form.scale(k) {
        Ok(multiple) => multiple,
        Err(Refusal::Overflow(_)) => return Ok(None),
        Err(Refusal::NoMemory) => return Err(AllocError),
    };
    match sum.add(&multiple) {
        Ok(sum) => Ok(Some(sum)),
        Err(Refusal::Overflow(_)) => Ok(None),
        Err(Refusal::NoMemory) => Err(AllocError),
    }
}

/// What the multiples of a run's members add up to, where each number on the way fits.
pub(crate) fn weighed(
    alloc: Global,
    members: &[Constraint],
    run: &[(usize, Frac)],
) -> Result<Option<Form>, AllocError>
    requires { are_members (length members.now) run.now ≡ true }
    ensures { IfOk result (λ o. MatchOption o (is_wide members.now run.now ≡ true)
        (λ f. (f ≡ sum_of members.now run.now) × (is_wide members.now run.now ≡ false))) }
{
    let mut sum = Form::of_entries(Frac::zero(), Vec::new(alloc));
    let mut rest = run;
    while let Some((&(number, multiplier), tail)) = rest.split_first() {
        let found = &members[number - 1];
        match with_multiple(sum, multiplier, &found.form)? {
            Some(more) => sum = more,
            None => return Ok(None),
        }
        rest = tail;
    }
    Ok(Some(sum))
}

fn is_below_zero(q: Frac) -> bool
    ensures { result ≡ is_below_zero q }
{
    match q.cmp(Frac::zero()) {
        Ordering::Less => true,
        Ordering::Equal | Ordering::Greater => false,
    }
}

fn is_above_zero(q: Frac) -> bool
    ensures { result ≡ is_above_zero q }
{
    match Frac::zero().cmp(q) {
        Ordering::Less => true,
        Ordering::Equal | Ordering::Greater => false,
    }
}

/// The relation of the member with this number, from 1.
fn relation_of(members: &[Constraint], number: usize) -> Option<Relation>
    ensures { result ≡ option_map (λ c. c.relation) (member members.now number) }
{
    if number == 0 || number > members.len() {
        return None;
    }
    let found = &members[number - 1];
    Some(found.relation)
}

/// Whether the number may multiply a constraint of this relation.
fn allows(relation: Relation, multiplier: Frac) -> bool
    ensures { result ≡ allows relation multiplier }
{
    match relation {
        Relation::Eq => true,
        Relation::Gt | Relation::Ge => !is_below_zero(multiplier),
        Relation::Ne => false,
    }
}

fn are_allowed(members: &[Constraint], run: &[(usize, Frac)]) -> bool
    ensures { result ≡ are_allowed members.now run.now }
{
    let mut rest = run;
    while let Some((&(number, multiplier), tail)) = rest.split_first() {
        match relation_of(members, number) {
            Some(relation) if allows(relation, multiplier) => rest = tail,
            _ => return false,
        }
    }
    true
}

fn some_strict(members: &[Constraint], run: &[(usize, Frac)]) -> bool
    ensures { result ≡ some_strict members.now run.now }
{
    let mut rest = run;
    while let Some((&(number, multiplier), tail)) = rest.split_first() {
        if relation_of(members, number) == Some(Relation::Gt) && is_above_zero(multiplier) {
            return true;
        }
        rest = tail;
    }
    false
}

/// Whether the run, whose multiples add up to the form, refutes the list.
pub(crate) fn is_false_run(members: &[Constraint], run: &[(usize, Frac)], sum: &Form) -> bool
    requires { sum.now ≡ sum_of members.now run.now }
    ensures { result ≡ is_false_run members.now run.now }
{
    are_allowed(members, run)
        && sum.entries().is_empty()
        && (is_below_zero(sum.constant())
            || (sum.constant().is_zero() && some_strict(members, run)))
}

/// The same of a run behind an entry whose weighted form is taken to be above zero.
fn is_false_behind(
    members: &[Constraint],
    entry: (usize, Frac),
    run: &[(usize, Frac)],
    sum: &Form,
) -> bool
    requires { sum.now ≡ sum_of members.now (entry ∷ run.now) }
    ensures { result ≡ is_false_behind members.now entry run.now }
{
    are_allowed(members, run) && sum.entries().is_empty() && !is_above_zero(sum.constant())
}

/// Whether two runs, whose multiples add up to these forms, refute the list by a disequation.
pub(crate) fn are_false_runs(
    members: &[Constraint],
    first: &[(usize, Frac)],
    first_sum: &Form,
    second: &[(usize, Frac)],
    second_sum: &Form,
) -> bool
    requires first { first_sum.now ≡ sum_of members.now first.now }
    requires second { second_sum.now ≡ sum_of members.now second.now }
    ensures { result ≡ are_false_runs members.now first.now second.now }
{
    let Some((&up, rest)) = first.split_first() else {
        return false;
    };
    let Some((&down, more)) = second.split_first() else {
        return false;
    };
    up.0 == down.0
        && relation_of(members, up.0) == Some(Relation::Ne)
        && is_above_zero(up.1)
        && is_below_zero(down.1)
        && is_false_behind(members, up, rest, first_sum)
        && is_false_behind(members, down, more, second_sum)
}
