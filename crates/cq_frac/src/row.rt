//! Sparse rows of exact fractions: entries in ascending order of their quantities, none of them zero.
#![tactic(auto)]

pub mod rows;

ghost use Rattle.std.specs.Prelude.{◌≡◌, ◌≢◌, ◌≤◌, ◌<◌, ◌⊎◌, ℕ, Bool, true, List, [], ◌∷◌, length, slice_index_or, IfOk, OnOk, OnErr, MatchOption, MatchResult};
ghost use Rattle.std.specs.List.Sorted.{IsNonDecreasingBy};
ghost use Rattle.spec_numbers.specs.Rational.{ℚ, 0ℚ, ◌+ℚ◌, ◌*ℚ◌, ◌/ℚ◌};
ghost use Rattle.cq_frac.specs.declared.Pair.{Pair};
ghost use Rattle.cq_frac.specs.Refused.{Accepts, Tells};
ghost use Rattle.cq_frac.specs.declared.row.Entry.{Entry};
ghost use Rattle.cq_frac.specs.Rows.{sum_at, IsRowFrom, everywhere, Has, Lacks, joined, operation_of, times, over, negated, others, IsQuotientPair, IsProductPair, IsJoinedPair, NoQuotientPair, NoProductPair, NoJoinedPair, multiplier, TellsScaled, AcceptsScaled, IsScaledPair, NoScaledPair, IsNext, IsFoundAt, IsGapAt};

use crate::{Frac, Operation, Pair, Refusal, difference, product, quotient, sum};
use std::alloc::{AllocError, Global};
use std::cmp::Ordering;

/// A quantity, by its number, with a factor.
#[derive(Clone, Copy, Debug)]
pub struct Entry {
    pub quantity: usize,
    pub factor: Frac,
}

/// How a second number is joined to a first.
#[derive(Clone, Copy, PartialEq, Eq)]
pub enum Joining {
    Plus,
    Less,
}

impl Joining {
    /// The first number with the second joined to it, or the refused pair.
    pub fn of(self, left: Frac, right: Frac) -> Result<Frac, Pair>
        ensures { MatchResult result (λ q. (q ≡ joined self left right) × Accepts (operation_of self) left right) (Tells (operation_of self) left right) }
    {
        match self {
            Joining::Plus => sum(left, right),
            Joining::Less => difference(left, right),
        }
    }

    /// A number joined to nothing.
    fn alone(self, number: Frac) -> Frac
        ensures { result ≡ joined self 0ℚ number }
    {
        match self {
            Joining::Plus => number,
            Joining::Less => number.neg(),
        }
    }
}

/// What comes next where two rows are merged: the entry of the lower quantity, or both, where they are of one.
#[derive(Clone, Copy)]
enum Next {
    Left(Entry),
    Right(Entry),
    Both(Entry, Entry),
}

/// What comes next at the places `i` and `j`; None at the ends of both.
fn next_of(a: &[Entry], i: usize, b: &[Entry], j: usize) -> Option<Next>
    ensures { MatchOption result ((length a.now ≤ i) × (length b.now ≤ j)) (λ next. IsNext a.now i b.now j next) }
{
    match (a.get(i), b.get(j)) {
        (None, None) => None,
        (Some(left), None) => Some(Next::Left(*left)),
        (None, Some(right)) => Some(Next::Right(*right)),
        (Some(left), Some(right)) => Some(match left.quantity.cmp(&right.quantity) {
            Ordering::Less => Next::Left(*left),
            Ordering::Greater => Next::Right(*right),
            Ordering::Equal => Next::Both(*left, *right),
        }),
    }
}

/// The number times the multiplier, or as it is where there is none; or the refused pair.
fn scaled(scale: Option<Frac>, number: Frac) -> Result<Frac, Pair>
    ensures { MatchResult result (λ q. (q ≡ multiplier scale *ℚ number) × AcceptsScaled scale number) (TellsScaled scale number) }
{
    match scale {
        Some(k) => product(k, number),
        None => Ok(number),
    }
}

/// The first row, and the second joined to it, with the multiplier where there is one.
fn merged(
    alloc: Global,
    a: &[Entry],
    how: Joining,
    scale: Option<Frac>,
    b: &[Entry],
) -> Result<Vec<Entry>, Refusal>
    requires a_row { IsRowFrom everywhere 0 a.now }
    requires b_row { IsRowFrom everywhere 0 b.now }
    requires nonzero { multiplier scale ≢ 0ℚ }
    ensures row { (p : ℕ → Bool) → IsRowFrom p 0 a.now → IsRowFrom p 0 b.now → IfOk result (λ r. IsRowFrom p 0 r.items) }
    ensures value { IfOk result (λ r. (x : ℕ → ℚ) → sum_at x r.items ≡ joined how (sum_at x a.now) (multiplier scale *ℚ sum_at x b.now)) }
    ensures overflow { (pair : Pair) → result ≡ Err (Refusal.Overflow pair)
        → IsScaledPair scale b.now pair ⊎ IsJoinedPair a.now how (times (multiplier scale) b.now) pair }
    ensures accepted { OnOk result (NoScaledPair scale b.now × NoJoinedPair a.now how (times (multiplier scale) b.now)) }
{
    let mut row = Vec::with_capacity(alloc, a.len() + b.len())?;
    let mut i = 0;
    let mut j = 0;
    while let Some(next) = next_of(a, i, b, j) {
        match next {
            Next::Left(left) => {
                row.push(left)?;
                i += 1;
            }
            Next::Right(right) => {
                let factor = how.alone(scaled(scale, right.factor)?);
                row.push(Entry {
                    quantity: right.quantity,
                    factor,
                })?;
                j += 1;
            }
            Next::Both(left, right) => {
                let factor = how.of(left.factor, scaled(scale, right.factor)?)?;
                i += 1;
                j += 1;
                if factor.is_zero() {
                    continue;
                }
                row.push(Entry {
                    quantity: left.quantity,
                    factor,
                })?;
            }
        }
    }
    Ok(row)
}

/// The first row, and `k` times the second joined to it.
pub fn combined(
    alloc: Global,
    a: &[Entry],
    how: Joining,
    k: Frac,
    b: &[Entry],
) -> Result<Vec<Entry>, Refusal>
    requires a_row { IsRowFrom everywhere 0 a.now }
    requires b_row { IsRowFrom everywhere 0 b.now }
    requires nonzero { k ≢ 0ℚ }
    ensures row { (p : ℕ → Bool) → IsRowFrom p 0 a.now → IsRowFrom p 0 b.now → IfOk result (λ r. IsRowFrom p 0 r.items) }
    ensures value { IfOk result (λ r. (x : ℕ → ℚ) → sum_at x r.items ≡ joined how (sum_at x a.now) (k *ℚ sum_at x b.now)) }
    ensures overflow { (pair : Pair) → result ≡ Err (Refusal.Overflow pair) → IsProductPair k b.now pair ⊎ IsJoinedPair a.now how (times k b.now) pair }
    ensures accepted { OnOk result (NoProductPair k b.now × NoJoinedPair a.now how (times k b.now)) }
{
    merged(alloc, a, how, Some(k), b)
}

/// The first row, and the second joined to it, with the multiplier where there is one: in place where the second
/// has at most one entry.
pub(crate) fn merged_into(
    row: Vec<Entry>,
    how: Joining,
    scale: Option<Frac>,
    b: &[Entry],
) -> Result<Vec<Entry>, Refusal>
    requires row { IsRowFrom everywhere 0 row.items }
    requires b_row { IsRowFrom everywhere 0 b.now }
    requires nonzero { multiplier scale ≢ 0ℚ }
    ensures row { (p : ℕ → Bool) → IsRowFrom p 0 row.items → IsRowFrom p 0 b.now → IfOk result (λ r. IsRowFrom p 0 r.items) }
    ensures value { IfOk result (λ r. (x : ℕ → ℚ) → sum_at x r.items ≡ joined how (sum_at x row.items) (multiplier scale *ℚ sum_at x b.now)) }
    ensures overflow { (pair : Pair) → result ≡ Err (Refusal.Overflow pair)
        → IsScaledPair scale b.now pair ⊎ IsJoinedPair row.items how (times (multiplier scale) b.now) pair }
    ensures accepted { OnOk result (NoScaledPair scale b.now × NoJoinedPair row.items how (times (multiplier scale) b.now)) }
{
    if b.is_empty() {
        return Ok(row);
    }
    if b.len() == 1 {
        let only = b[0];
        let factor = scaled(scale, only.factor)?;
        return join(
            row,
            how,
            Entry {
                quantity: only.quantity,
                factor,
            },
        );
    }
    merged(*row.allocator(), &row, how, scale, b)
}

/// The second row joined to the first: in place where it has at most one entry.
pub fn joined(row: Vec<Entry>, how: Joining, b: &[Entry]) -> Result<Vec<Entry>, Refusal>
    requires row { IsRowFrom everywhere 0 row.items }
    requires b_row { IsRowFrom everywhere 0 b.now }
    ensures row { IfOk result (λ r. IsRowFrom everywhere 0 r.items) }
    ensures value { IfOk result (λ r. (x : ℕ → ℚ) → sum_at x r.items ≡ joined how (sum_at x row.items) (sum_at x b.now)) }
    ensures overflow { (pair : Pair) → result ≡ Err (Refusal.Overflow pair) → IsJoinedPair row.items how b.now pair }
    ensures accepted { OnOk result (NoJoinedPair row.items how b.now) }
{
    merged_into(row, how, None, b)
}

/// Each entry by the divisor.
pub fn divided(alloc: Global, row: &[Entry], divisor: Frac) -> Result<Vec<Entry>, Refusal>
    requires nonzero { divisor ≢ 0ℚ }
    ensures value { IfOk result (λ r. r.items ≡ over divisor row.now) }
    ensures overflow { (pair : Pair) → result ≡ Err (Refusal.Overflow pair) → IsQuotientPair row.now divisor pair }
    ensures accepted { OnOk result (NoQuotientPair row.now divisor) }
{
    let mut quotients = Vec::with_capacity(alloc, row.len())?;
    for m in row {
        quotients.push(Entry {
            quantity: m.quantity,
            factor: quotient(m.factor, divisor)?,
        })?;
    }
    Ok(quotients)
}

/// The entries with the other sign.
pub fn opposed(alloc: Global, row: &[Entry]) -> Result<Vec<Entry>, AllocError>
    ensures { IfOk result (λ r. r.items ≡ negated row.now) }
{
    let mut opposite = Vec::with_capacity(alloc, row.len())?;
    for m in row {
        opposite.push(Entry {
            quantity: m.quantity,
            factor: m.factor.neg(),
        })?;
    }
    Ok(opposite)
}

/// The entries but those of the quantity.
pub fn without(alloc: Global, row: &[Entry], quantity: usize) -> Result<Vec<Entry>, AllocError>
    ensures { IfOk result (λ r. r.items ≡ others quantity row.now) }
{
    let mut rest = Vec::with_capacity(alloc, row.len())?;
    for m in row {
        if m.quantity == quantity {
            continue;
        }
        rest.push(*m)?;
    }
    Ok(rest)
}

/// How many entries are of lower quantities.
fn place_of(row: &[Entry], quantity: usize) -> usize
    requires rising { IsNonDecreasingBy (λ (m : Entry). m.quantity) row.now }
    ensures bound { result ≤ length row.now }
    ensures below { (k : ℕ) (d : Entry) → k < result → (slice_index_or row.now k d).quantity < quantity }
    ensures rest { (k : ℕ) (d : Entry) → result ≤ k → k < length row.now → quantity ≤ (slice_index_or row.now k d).quantity }
{
    row.partition_point(|m| m.quantity < quantity)
}

/// The place of the quantity, or where its entry would stand.
fn find(row: &[Entry], quantity: usize) -> Result<usize, usize>
    requires row { IsRowFrom everywhere 0 row.now }
    ensures { MatchResult result (IsFoundAt quantity row.now) (IsGapAt quantity row.now) }
{
    let at = place_of(row, quantity);
    if at < row.len() && row[at].quantity == quantity {
        Ok(at)
    } else {
        Err(at)
    }
}

/// The factor of the quantity, if the row has one.
pub fn entry_at(row: &[Entry], quantity: usize) -> Option<Frac>
    requires row { IsRowFrom everywhere 0 row.now }
    ensures { MatchOption result (Lacks quantity row.now) (λ f. Has (record { quantity = quantity; factor = f }) row.now) }
{
    match find(row, quantity) {
        Ok(at) => Some(row[at].factor),
        Err(_) => None,
    }
}

/// Puts an entry of a new quantity in its place.
pub fn put(row: &mut Vec<Entry>, entry: Entry) -> Result<(), AllocError>
    requires row { IsRowFrom everywhere 0 row.old.items }
    requires new { Lacks entry.quantity row.old.items }
    requires nonzero { entry.factor ≢ 0ℚ }
    ensures row { (p : ℕ → Bool) → p entry.quantity ≡ true → IsRowFrom p 0 row.old.items → OnOk result (IsRowFrom p 0 row.new.items) }
    ensures value { OnOk result ((x : ℕ → ℚ) → sum_at x row.new.items ≡ sum_at x row.old.items +ℚ entry.factor *ℚ x entry.quantity) }
    ensures err { OnErr result (row.new.items ≡ row.old.items) }
{
    let at = place_of(row, entry.quantity);
    row.insert(at, entry)?;
    Ok(())
}

/// The row with one entry joined to it, in place.
fn join(row: Vec<Entry>, how: Joining, entry: Entry) -> Result<Vec<Entry>, Refusal>
    requires row { IsRowFrom everywhere 0 row.items }
    requires nonzero { entry.factor ≢ 0ℚ }
    ensures row { (p : ℕ → Bool) → p entry.quantity ≡ true → IsRowFrom p 0 row.items → IfOk result (λ r. IsRowFrom p 0 r.items) }
    ensures value { IfOk result (λ r. (x : ℕ → ℚ) → sum_at x r.items ≡ joined how (sum_at x row.items) (entry.factor *ℚ x entry.quantity)) }
    ensures overflow { (pair : Pair) → result ≡ Err (Refusal.Overflow pair) → IsJoinedPair row.items how (entry ∷ []) pair }
    ensures accepted { OnOk result (NoJoinedPair row.items how (entry ∷ [])) }
{
    let mut row = row;
    match find(&row, entry.quantity) {
        Ok(at) => {
            let factor = how.of(row[at].factor, entry.factor)?;
            if factor.is_zero() {
                row.remove(at);
                return Ok(row);
            }
            row[at] = Entry {
                quantity: entry.quantity,
                factor,
            };
            Ok(row)
        }
        Err(at) => {
            row.insert(
                at,
                Entry {
                    quantity: entry.quantity,
                    factor: how.alone(entry.factor),
                },
            )?;
            Ok(row)
        }
    }
}
