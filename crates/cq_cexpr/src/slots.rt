// Slots for the factors of variables, ascending and each once, where a factor may be zero: a form is joined to them in
// place, and nothing moves where its variables have slots.

ghost use Rattle.std.specs.Prelude.{◌≡◌, ◌≢◌, ◌≤◌, ◌<◌, ℕ, true, false, length, slice_index_or, IfOk, OnOk};
ghost use Rattle.std.specs.List.Sorted.{IsNonDecreasingBy};
ghost use Rattle.spec_numbers.specs.Rational.{ℚ, 0ℚ, ◌*ℚ◌};
ghost use Rattle.spec_numbers.specs.Sums.{unit};
ghost use Rattle.spec_linear.specs.Form.{IsSumFrom, without_zeros};
ghost use Rattle.cq_frac.specs.declared.Pair.{Pair};
ghost use Rattle.cq_frac.specs.Refused.{Tells};
ghost use Rattle.cq_frac.specs.declared.row.Entry.{Entry};
ghost use Rattle.cq_frac.specs.Rows.{sum_at, joined, IsFoundAt};
ghost use Rattle.cq_form.specs.Entries.{products_of};
ghost use Rattle.cq_cexpr.specs.Slots.{IsRisingFrom, Meets, IsMet};

use cq_frac::row::{Entry, Joining};
use cq_frac::{Frac, Pair, Refusal};
use std::alloc::{AllocError, Global};

/// How many slots are of lower variables.
fn place_of(slots: &[Entry], variable: usize) -> usize
    requires rising { IsNonDecreasingBy (λ (m : Entry). m.quantity) slots.now }
    ensures bound { result ≤ length slots.now }
    ensures below { (k : ℕ) (d : Entry) → k < result → (slice_index_or slots.now k d).quantity < variable }
    ensures rest { (k : ℕ) (d : Entry) → result ≤ k → k < length slots.now → variable ≤ (slice_index_or slots.now k d).quantity }
{
    slots.partition_point(|m| m.quantity < variable)
}

/// Whether the slot of the variable stands at the place.
fn has_slot(slots: &[Entry], at: usize, variable: usize) -> bool
    ensures found { result ≡ true → IsFoundAt variable slots.now at }
    ensures other { result ≡ false → (d : Entry) → at < length slots.now → (slice_index_or slots.now at d).quantity ≢ variable }
{
    match slots.get(at) {
        Some(slot) => slot.quantity == variable,
        None => false,
    }
}

/// The place of the variable's slot, which is made where there is none.
fn slot_for(slots: &mut Vec<Entry>, variable: usize) -> Result<usize, AllocError>
    requires rising { IsRisingFrom 0 slots.old.items }
    ensures found { IfOk result (IsFoundAt variable slots.new.items) }
    ensures rising { OnOk result (IsRisingFrom 0 slots.new.items) }
    ensures value { OnOk result ((v : ℕ → ℚ) → sum_at v slots.new.items ≡ sum_at v slots.old.items) }
{
    let at = place_of(slots, variable);
    if has_slot(slots, at, variable) {
        return Ok(at);
    }
    slots.insert(
        at,
        Entry {
            quantity: variable,
            factor: Frac::zero(),
        },
    )?;
    Ok(at)
}

/// The number joined to zero.
fn alone(how: Joining, number: Frac) -> Frac
    ensures { result ≡ joined how 0ℚ number }
{
    match how {
        Joining::Plus => number,
        Joining::Less => number.neg(),
    }
}

/// The first number with the second joined to it, or the refused pair: none where the first is zero.
fn met(how: Joining, own: Frac, factor: Frac) -> Result<Frac, Pair>
    ensures value { IfOk result (λ q. q ≡ joined how own factor) }
    ensures refused { (pair : Pair) → result ≡ Err pair → Meets how own factor pair }
{
    if own.is_zero() {
        return Ok(alone(how, factor));
    }
    how.of(own, factor)
}

/// Joins one entry to its slot.
fn join_entry(slots: &mut Vec<Entry>, how: Joining, entry: Entry) -> Result<(), Refusal>
    requires rising { IsRisingFrom 0 slots.old.items }
    ensures rising { OnOk result (IsRisingFrom 0 slots.new.items) }
    ensures value { OnOk result ((v : ℕ → ℚ) → sum_at v slots.new.items ≡ joined how (sum_at v slots.old.items) (entry.factor *ℚ v entry.quantity)) }
    ensures overflow { (pair : Pair) → result ≡ Err (Refusal.Overflow pair) → Meets how (sum_at (unit entry.quantity) slots.old.items) entry.factor pair }
{
    let at = slot_for(slots, entry.quantity)?;
    let factor = met(how, slots[at].factor, entry.factor)?;
    slots[at] = Entry {
        quantity: entry.quantity,
        factor,
    };
    Ok(())
}

/// Joins each entry to its slot.
pub(crate) fn join_all(
    slots: &mut Vec<Entry>,
    how: Joining,
    entries: &[Entry],
) -> Result<(), Refusal>
    requires rising { IsRisingFrom 0 slots.old.items }
    requires in_order { IsSumFrom 0 (products_of entries.now) }
    ensures rising { OnOk result (IsRisingFrom 0 slots.new.items) }
    ensures value { OnOk result ((v : ℕ → ℚ) → sum_at v slots.new.items ≡ joined how (sum_at v slots.old.items) (sum_at v entries.now)) }
    ensures overflow { (pair : Pair) → result ≡ Err (Refusal.Overflow pair) → IsMet how slots.old.items entries.now pair }
{
    for entry in entries {
        join_entry(slots, how, *entry)?;
    }
    Ok(())
}

/// Empty slots for the variables.
pub(crate) fn slots_for(alloc: Global, variables: &[usize]) -> Result<Vec<Entry>, AllocError>
    ensures rising { IfOk result (λ r. IsRisingFrom 0 r.items) }
    ensures value { IfOk result (λ r. (v : ℕ → ℚ) → sum_at v r.items ≡ 0ℚ) }
{
    let mut slots = Vec::with_capacity(alloc, variables.len())?;
    for variable in variables {
        slot_for(&mut slots, *variable)?;
    }
    Ok(slots)
}

/// The slots that aren't empty.
pub(crate) fn filled(alloc: Global, slots: &[Entry]) -> Result<Vec<Entry>, AllocError>
    ensures { IfOk result (λ r. products_of r.items ≡ without_zeros (products_of slots.now)) }
{
    let mut entries = Vec::with_capacity(alloc, slots.len())?;
    for slot in slots {
        if slot.factor.is_zero() {
            continue;
        }
        entries.push(*slot)?;
    }
    Ok(entries)
}
