// The entries of forms, in terms of their products: sums and differences, multiples, parts.

ghost use Rattle.std.specs.Prelude.{◌≡◌, map, IfOk, OnOk, MatchOption};
ghost use Rattle.spec_numbers.specs.Rational.{ℚ};
ghost use Rattle.spec_numbers.specs.Sums.{Mentions, scaled_products};
ghost use Rattle.spec_linear.specs.Form.{IsSumFrom, without, without_zeros};
ghost use Rattle.spec_linear.specs.Solution.{Has};
ghost use Rattle.cq_frac.specs.declared.Operation.TheVariants.{Product};
ghost use Rattle.cq_frac.specs.declared.Pair.{Pair};
ghost use Rattle.cq_frac.specs.Refused.{Accepts, Tells};
ghost use Rattle.cq_frac.specs.Rows.{operation_of};
ghost use Rattle.cq_form.specs.Entries.{entry_of, products_of};
ghost use Rattle.cq_form.specs.Steps.{joined_products, CommonPair, MultiplePair};

use cq_frac::row::{Entry, Joining, combined, entry_at};
use cq_frac::{Frac, Refusal, VarId};
use std::alloc::{AllocError, Global};

/// The entries of variables with their coefficients.
pub(crate) fn entries_of(alloc: Global, pairs: &[(VarId, Frac)]) -> Result<Vec<Entry>, AllocError>
    ensures { IfOk result (λ r. r.items ≡ map entry_of pairs.now) }
{
    pairs
        .iter()
        .map(|pair| Entry {
            quantity: pair.0.0,
            factor: pair.1,
        })
        .collect(alloc)
}

/// The sum or the difference of two lists.
pub(crate) fn joined(
    entries: Vec<Entry>,
    how: Joining,
    other: &[Entry],
) -> Result<Vec<Entry>, Refusal>
    requires in_order { IsSumFrom 0 (products_of entries.items) }
    requires other_in_order { IsSumFrom 0 (products_of other.now) }
    ensures value { IfOk result
        (λ r. products_of r.items ≡ joined_products how (products_of entries.items) (products_of other.now)) }
    ensures accepted { OnOk result ((p q : ℚ)
        → CommonPair (products_of entries.items) (products_of other.now) p q → Accepts (operation_of how) p q) }
    ensures overflow { (pair : Pair) → result ≡ Err (Refusal.Overflow pair)
        → CommonPair (products_of entries.items) (products_of other.now) pair.left pair.right
        × Tells (operation_of how) pair.left pair.right pair }
{
    cq_frac::row::joined(entries, how, other)
}

/// The list times `k`, zeros left away.
pub(crate) fn scaled(alloc: Global, k: Frac, entries: &[Entry]) -> Result<Vec<Entry>, Refusal>
    requires in_order { IsSumFrom 0 (products_of entries.now) }
    ensures value { IfOk result
        (λ r. products_of r.items ≡ without_zeros (scaled_products k (products_of entries.now))) }
    ensures accepted { OnOk result ((q : ℚ) → MultiplePair (products_of entries.now) q
        → Accepts Product k q) }
    ensures overflow { (pair : Pair) → result ≡ Err (Refusal.Overflow pair)
        → MultiplePair (products_of entries.now) pair.right × Tells Product k pair.right pair }
{
    if k.is_zero() {
        return Ok(Vec::new(alloc));
    }
    combined(alloc, &[], Joining::Plus, k, entries)
}

/// The entries of other variables.
pub(crate) fn others(
    alloc: Global,
    entries: &[Entry],
    variable: VarId,
) -> Result<Vec<Entry>, AllocError>
    ensures { IfOk result (λ r. products_of r.items ≡ without variable.0 (products_of entries.now)) }
{
    cq_frac::row::without(alloc, entries, variable.0)
}

/// The coefficient of the variable, if it stands in the list.
pub(crate) fn coefficient(entries: &[Entry], variable: VarId) -> Option<Frac>
    requires in_order { IsSumFrom 0 (products_of entries.now) }
    ensures { MatchOption result (Mentions variable.0 (products_of entries.now) → ⊥)
        (λ q. Has (record { variable = variable.0; factor = q }) (products_of entries.now)) }
{
    entry_at(entries, variable.0)
}
