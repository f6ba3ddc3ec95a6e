//! Rows with a constant, over live and dropped columns, and the one operation on them that all else uses.

ghost use Rattle.std.specs.Prelude.{◌≡◌, ◌≢◌, ℕ, [], ◌∷◌, Bool, IfOk, OnOk};
ghost use Rattle.spec_numbers.specs.Rational.{ℚ, 0ℚ, 1ℚ};
ghost use Rattle.cq_frac.specs.declared.Operation.{Operation};
ghost use Rattle.cq_frac.specs.declared.Pair.{Pair};
ghost use Rattle.cq_frac.specs.Refused.{Refuses};
ghost use Rattle.cq_frac.specs.declared.row.Entry.{Entry};
ghost use Rattle.cq_frac.specs.Rows.{everywhere, Has, Lacks};
ghost use Rattle.cq_frac.specs.Numbers.{IsOver, IsJoined, JoinPair, RefusesJoin, IsDivided, QuotientPair, RefusesQuotient, IsEntered, IsShifted, ShiftPair, RefusesShift, IsDropped, IsRestored};

use crate::row::{Entry, Joining, combined, divided, merged_into, opposed, put, without};
use crate::{Frac, Refusal, product, quotient};
use std::alloc::{AllocError, Global};
use std::marker::Model;

/// A quantity as a constant and factors of columns. Columns are live or dropped, and no column is both.
#[derive(Drop)]
pub struct Row {
    live: Vec<Entry>,
    dropped: Vec<Entry>,
    constant: Frac,
}

impl Model for Row {
    ghost use Rattle.cq_frac.specs.Row.{Row};

    ghost Value = { Row };

    ghost view = { λ r. record { live = r.live.items; dropped = r.dropped.items; constant = r.constant } };
}

impl Row {
    /// The row that is this constant.
    pub fn of_constant(alloc: Global, constant: Frac) -> Row
        ensures { result ≡ record { live = []; dropped = []; constant = constant } }
    {
        Row {
            live: Vec::new(alloc),
            dropped: Vec::new(alloc),
            constant,
        }
    }

    /// The row that is this live column.
    pub fn of_live(alloc: Global, column: usize) -> Result<Row, AllocError>
        ensures { IfOk result (λ r. r ≡ record { live = record { quantity = column; factor = 1ℚ } ∷ []; dropped = []; constant = 0ℚ }) }
    {
        let mut row = Row::of_constant(alloc, Frac::zero());
        row.live.push(Entry {
            quantity: column,
            factor: Frac::one(),
        })?;
        Ok(row)
    }

    /// The row that is this dropped column.
    pub fn of_dropped(alloc: Global, column: usize) -> Result<Row, AllocError>
        ensures { IfOk result (λ r. r ≡ record { live = []; dropped = record { quantity = column; factor = 1ℚ } ∷ []; constant = 0ℚ }) }
    {
        let mut row = Row::of_constant(alloc, Frac::zero());
        row.dropped.push(Entry {
            quantity: column,
            factor: Frac::one(),
        })?;
        Ok(row)
    }

    /// The entries of live columns, in ascending order of the columns, none zero.
    pub fn live(&self) -> &[Entry]
        ensures { result.now ≡ self.now.live }
    {
        &self.live
    }

    /// The entries of dropped columns, whose values are zero; in ascending order, none zero.
    pub fn dropped(&self) -> &[Entry]
        ensures { result.now ≡ self.now.dropped }
    {
        &self.dropped
    }

    /// The value of the row where every column is zero.
    pub fn constant(&self) -> Frac
        ensures { result ≡ self.now.constant }
    {
        self.constant
    }

    /// A row, with `k` times the row `b` joined to it, place by place.
    fn combined(&self, alloc: Global, how: Joining, k: Frac, b: &Row) -> Result<Row, Refusal>
        requires own { IsOver everywhere everywhere self.now }
        requires b_row { IsOver everywhere everywhere b.now }
        requires nonzero { k ≢ 0ℚ }
        ensures value { IfOk result (λ r. IsJoined self.now how k b.now r) }
        ensures overflow { (pair : Pair) → result ≡ Err (Refusal.Overflow pair) → RefusesJoin self.now how k b.now pair }
        ensures accepted { OnOk result ((o : Operation) (p q : ℚ) → JoinPair self.now how k b.now o p q → Refuses o p q → ⊥) }
    {
        Ok(Row {
            live: combined(alloc, &self.live, how, k, &b.live)?,
            dropped: combined(alloc, &self.dropped, how, k, &b.dropped)?,
            constant: how.of(self.constant, product(k, b.constant)?)?,
        })
    }

    /// This row, with `k` times the row `b` joined to it, place by place: in place where `b` has at most one entry.
    pub fn joined(self, how: Joining, k: Frac, b: &Row) -> Result<Row, Refusal>
        requires own { IsOver everywhere everywhere self }
        requires b_row { IsOver everywhere everywhere b.now }
        requires nonzero { k ≢ 0ℚ }
        ensures value { IfOk result (λ r. IsJoined self how k b.now r) }
        ensures overflow { (pair : Pair) → result ≡ Err (Refusal.Overflow pair) → RefusesJoin self how k b.now pair }
        ensures accepted { OnOk result ((o : Operation) (p q : ℚ) → JoinPair self how k b.now o p q → Refuses o p q → ⊥) }
    {
        Ok(Row {
            live: merged_into(self.live, how, Some(k), &b.live)?,
            dropped: merged_into(self.dropped, how, Some(k), &b.dropped)?,
            constant: how.of(self.constant, product(k, b.constant)?)?,
        })
    }

    /// Each number of the row by the divisor.
    pub fn divided(&self, alloc: Global, divisor: Frac) -> Result<Row, Refusal>
        requires nonzero { divisor ≢ 0ℚ }
        ensures value { IfOk result (λ q. IsDivided self.now divisor q) }
        ensures overflow { (pair : Pair) → result ≡ Err (Refusal.Overflow pair) → RefusesQuotient self.now divisor pair }
        ensures accepted { OnOk result ((o : Operation) (p q : ℚ) → QuotientPair self.now divisor o p q → Refuses o p q → ⊥) }
    {
        Ok(Row {
            live: divided(alloc, &self.live, divisor)?,
            dropped: divided(alloc, &self.dropped, divisor)?,
            constant: quotient(self.constant, divisor)?,
        })
    }

    /// The row of the column that enters, where this is the leaving quantity's row by its entry there, and `rate`
    /// is 1 by that entry.
    pub fn entered(
        &self,
        alloc: Global,
        column: usize,
        leaving: usize,
        rate: Frac,
    ) -> Result<Row, AllocError>
        requires own { IsOver everywhere everywhere self.now }
        requires new { Lacks leaving self.now.live }
        requires nonzero { rate ≢ 0ℚ }
        ensures { IfOk result (λ r. IsEntered self.now column leaving rate r) }
    {
        let rest = without(alloc, &self.live, column)?;
        let mut live = opposed(alloc, &rest)?;
        put(
            &mut live,
            Entry {
                quantity: leaving,
                factor: rate,
            },
        )?;
        Ok(Row {
            live,
            dropped: opposed(alloc, &self.dropped)?,
            constant: self.constant.neg(),
        })
    }

    /// This row after the exchange, where it has the entry `e` in the column that enters, `q` is the leaving
    /// quantity's row by its entry there, and `rate` is 1 by that entry.
    pub fn shifted(
        &self,
        alloc: Global,
        e: Frac,
        q: &Row,
        leaving: usize,
        rate: Frac,
    ) -> Result<Row, Refusal>
        requires own { IsOver everywhere everywhere self.now }
        requires q_row { IsOver everywhere everywhere q.now }
        requires new { Lacks leaving self.now.live × Lacks leaving q.now.live }
        requires entry { e ≢ 0ℚ }
        requires nonzero { rate ≢ 0ℚ }
        ensures value { IfOk result (λ r. IsShifted self.now e q.now leaving rate r) }
        ensures overflow { (pair : Pair) → result ≡ Err (Refusal.Overflow pair) → RefusesShift self.now e q.now rate pair }
        ensures accepted { OnOk result ((o : Operation) (a b : ℚ) → ShiftPair self.now e q.now rate o a b → Refuses o a b → ⊥) }
    {
        let factor = product(e, rate)?;
        let mut row = self.combined(alloc, Joining::Less, e, q)?;
        put(
            &mut row.live,
            Entry {
                quantity: leaving,
                factor,
            },
        )?;
        Ok(row)
    }

    /// The row with its entry of a live column among the dropped ones.
    pub fn with_dropped(
        &self,
        alloc: Global,
        column: usize,
        factor: Frac,
    ) -> Result<Row, AllocError>
        requires own { IsOver everywhere everywhere self.now }
        requires entry { Has (record { quantity = column; factor = factor }) self.now.live }
        requires new { Lacks column self.now.dropped }
        ensures { IfOk result (λ r. IsDropped self.now column r) }
    {
        let live = without(alloc, &self.live, column)?;
        let mut dropped = Vec::from_slice(alloc, &self.dropped)?;
        put(
            &mut dropped,
            Entry {
                quantity: column,
                factor,
            },
        )?;
        Ok(Row {
            live,
            dropped,
            constant: self.constant,
        })
    }

    /// The row with its entry of a dropped column among the live ones.
    pub fn with_restored(
        &self,
        alloc: Global,
        column: usize,
        factor: Frac,
    ) -> Result<Row, AllocError>
        requires own { IsOver everywhere everywhere self.now }
        requires entry { Has (record { quantity = column; factor = factor }) self.now.dropped }
        requires new { Lacks column self.now.live }
        ensures { IfOk result (λ r. IsRestored self.now column r) }
    {
        let dropped = without(alloc, &self.dropped, column)?;
        let mut live = Vec::from_slice(alloc, &self.live)?;
        put(
            &mut live,
            Entry {
                quantity: column,
                factor,
            },
        )?;
        Ok(Row {
            live,
            dropped,
            constant: self.constant,
        })
    }
}
