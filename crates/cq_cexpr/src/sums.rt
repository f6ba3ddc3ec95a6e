// Sums of many forms: the operands wait, and then the factors of each variable are added in their turn.

ghost use Rattle.std.specs.Prelude.{◌≡◌, ◌<◌, ◌++◌, ◌∷◌, [], ℕ, length, true, IfOk};
ghost use Rattle.spec_numbers.specs.Rational.{ℚ};
ghost use Rattle.spec_numbers.specs.Sums as sums;
ghost use Rattle.cq_frac.specs.declared.Pair.{Pair};
ghost use Rattle.cq_frac.specs.Rows.{sum_at};
ghost use Rattle.cq_cexpr.specs.Overflows.{ComesFrom};
ghost use Rattle.cq_cexpr.specs.Slots.{IsRisingFrom};
ghost use Rattle.cq_cexpr.specs.Sums.{all_joined, joining_operands, whole_of, due_in};

use crate::operations::is_in_order;
use crate::slots::{filled, join_all, slots_for};
use cq_form::Form;
use cq_frac::Refusal;
use cq_frac::row::{Entry, Joining};
use std::alloc::{AllocError, Global};

/// How many variables a sum has at least whose operands wait. With fewer, each operand is joined at once.
const MANY: usize = 64;

/// A form, and the forms that are still to be joined to it, in turn.
#[derive(Drop)]
pub(crate) struct Sum {
    first: Form,
    more: Vec<(Joining, Form)>,
}

impl Sum {
    /// The sum that is this form.
    pub(crate) fn alone(alloc: Global, form: Form) -> Sum
        ensures first { result.first ≡ form }
        ensures more { result.more.items ≡ [] }
    {
        Sum {
            first: form,
            more: Vec::new(alloc),
        }
    }

    /// Whether the form had better wait: to join it at once would move many entries. Where some wait it does.
    pub(crate) fn lets_wait(&self, form: &Form) -> bool
        ensures { 0 < length self.now.more.items → result ≡ true }
    {
        if !self.more.is_empty() {
            return true;
        }
        let entries = self.first.entries();
        if entries.len() < MANY {
            return false;
        }
        match form.entries().first() {
            Some(entry) => entry.quantity <= entries[entries.len() - 1].quantity,
            None => false,
        }
    }

    /// The sum with one form more that waits.
    pub(crate) fn with(self, how: Joining, form: Form) -> Result<Sum, AllocError>
        ensures first { IfOk result (λ s. s.first ≡ self.first) }
        ensures more { IfOk result (λ s. s.more.items ≡ self.more.items ++ (how, form) ∷ []) }
    {
        let mut more = self.more;
        more.push((how, form))?;
        Ok(Sum {
            first: self.first,
            more,
        })
    }

    /// The form that all of them come to.
    fn total(self, alloc: Global) -> Result<Form, Refusal>
        ensures value { IfOk result (λ f. f ≡ all_joined self.first self.more.items) }
        ensures overflow { (pair : Pair) → result ≡ Err (Refusal.Overflow pair)
            → ComesFrom (joining_operands self.first self.more.items) pair }
    {
        if self.more.is_empty() {
            return Ok(self.first);
        }
        by_variable(alloc, &self.first, &self.more)
    }
}

/// The form that a sum comes to, where there is one.
pub(crate) fn whole(alloc: Global, sum: Option<Sum>) -> Result<Option<Form>, Refusal>
    ensures value { IfOk result (λ f. f ≡ whole_of sum) }
    ensures overflow { (pair : Pair) → result ≡ Err (Refusal.Overflow pair) → ComesFrom (due_in sum) pair }
{
    match sum {
        None => Ok(None),
        Some(sum) => Ok(Some(sum.total(alloc)?)),
    }
}

/// The forms joined to the first in turn: each variable has a slot, in which its factors are added as they come.
fn by_variable(alloc: Global, first: &Form, more: &[(Joining, Form)]) -> Result<Form, Refusal>
    ensures value { IfOk result (λ f. f ≡ all_joined first.now more.now) }
    ensures overflow { (pair : Pair) → result ≡ Err (Refusal.Overflow pair) → ComesFrom (joining_operands first.now more.now) pair }
{
    is_in_order(first);
    let variables = variables_in(alloc, first, more)?;
    let mut slots = first_slots(alloc, &variables, first)?;
    let mut constant = first.constant();
    for next in more {
        constant = next.0.of(constant, next.1.constant())?;
        join_all(&mut slots, next.0, next.1.entries())?;
    }
    let entries = filled(alloc, &slots)?;
    Ok(Form::of_entries(constant, entries))
}

/// Slots for the variables, with the factors of the form.
fn first_slots(alloc: Global, variables: &[usize], form: &Form) -> Result<Vec<Entry>, Refusal>
    ensures rising { IfOk result (λ r. IsRisingFrom 0 r.items) }
    ensures value { IfOk result (λ r. (v : ℕ → ℚ) → sum_at v r.items ≡ sums.sum_at v form.now.products) }
    ensures overflow { (pair : Pair) → result ≡ Err (Refusal.Overflow pair) → ⊥ }
{
    let mut slots = slots_for(alloc, variables)?;
    join_all(&mut slots, Joining::Plus, form.entries())?;
    Ok(slots)
}

/// The variables of the forms, ascending.
fn variables_in(
    alloc: Global,
    first: &Form,
    more: &[(Joining, Form)],
) -> Result<Vec<usize>, AllocError> {
    let mut variables = Vec::new(alloc);
    note(&mut variables, first)?;
    for next in more {
        note(&mut variables, &next.1)?;
    }
    variables.sort_unstable();
    Ok(variables)
}

/// Adds the variables of the form.
fn note(variables: &mut Vec<usize>, form: &Form) -> Result<(), AllocError> {
    for entry in form.entries() {
        variables.push(entry.quantity)?;
    }
    Ok(())
}
