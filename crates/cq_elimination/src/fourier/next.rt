//! Which variable is eliminated next: the one with the fewest pairs of a lower and an upper row, the older of two.

ghost use Rattle.std.specs.Prelude.{◌≡◌, ◌↔◌, ◌+◌, ◌-◌, ◌*◌, ◌^◌, ◌<◌, ◌++◌, ℕ, List, IsTrue, MatchBool, MatchOption};
ghost use Rattle.spec_linear.specs.Solution.{MentionsOnly};
ghost use Rattle.spec_projection.specs.Partial.{IsNext};
ghost use Rattle.cq_equations.specs.Told.{numbers_of};
ghost use Rattle.cq_elimination.specs.Next.{Counts, HasOneMore, IsBefore, IsFirstOf, IsFirst, NoneStands, AreApart};

use crate::fourier::{Side, side_of};
use cq_form::Constraint;
use cq_frac::VarId;

/// A variable, and how many rows bound it from below, bound it from above, and are without it.
#[derive(Clone, Copy)]
pub struct Elimination {
    pub variable: VarId,
    pub lower: usize,
    pub upper: usize,
    pub others: usize,
}

impl Elimination {
    /// How many pairs of a lower and an upper row there are.
    pub fn pairs(self) -> u128
        ensures { result ≡ self.lower * self.upper }
    {
        self.lower as u128 * self.upper as u128
    }

    /// How many rows there are once the variable is eliminated.
    pub fn rows(self) -> u128
        ensures { result ≡ self.others + self.lower * self.upper }
    {
        self.others as u128 + self.pairs()
    }

    /// One more row on this side.
    fn count(&mut self, side: Side)
        requires room { self.old.lower + self.old.upper + self.old.others < 2 ^ 64 - 1 }
        ensures { HasOneMore side self.old self.new }
    {
        match side {
            Side::Lower(_) => self.lower += 1,
            Side::Upper(_) => self.upper += 1,
            Side::Other => self.others += 1,
        }
    }

    /// Whether the variable stands in no row.
    fn is_idle(self) -> bool
        ensures { IsTrue result ↔ ((self.lower ≡ 0) × (self.upper ≡ 0)) }
    {
        self.lower == 0 && self.upper == 0
    }

    /// Whether it is made before the other: it has fewer pairs, or as many and the older variable.
    fn comes_before(self, other: Elimination) -> bool
        ensures { MatchBool result (IsBefore self other) (IsBefore other self) }
    {
        let own = self.pairs();
        let others = other.pairs();
        own < others || (own == others && self.variable.0 <= other.variable.0)
    }
}

/// The rows of the variable, counted.
fn counted(rows: &[Constraint], variable: VarId) -> Elimination
    ensures variable { result.variable ≡ variable }
    ensures counts { Counts rows.now result }
{
    let mut own = Elimination {
        variable,
        lower: 0,
        upper: 0,
        others: 0,
    };
    'rows: for row in rows {
        own.count(side_of(row, variable));
    }
    own
}

/// The one that is made first.
fn first_of(found: Option<Elimination>, other: Elimination) -> Elimination
    ensures { IsFirstOf found other result }
{
    match found {
        None => other,
        Some(first) => {
            if first.comes_before(other) {
                first
            } else {
                other
            }
        }
    }
}

/// The one of the variables that is eliminated next, with the numbers of its rows; None where none stands in the rows.
pub fn next_of(rows: &[Constraint], variables: &[VarId]) -> Option<Elimination>
    ensures first { MatchOption result (NoneStands (numbers_of variables.now) rows.now) (IsFirst (numbers_of variables.now) rows.now) }
    ensures next { (targets : List ℕ) → AreApart (numbers_of variables.now) targets
        → MentionsOnly (numbers_of variables.now ++ targets) rows.now
        → MatchOption result (MentionsOnly targets rows.now) (λ e. IsNext targets rows.now e.variable.0) }
{
    let mut found: Option<Elimination> = None;
    'variables: for &variable in variables {
        let own = counted(rows, variable);
        if own.is_idle() {
            continue;
        }
        found = Some(first_of(found, own));
    }
    found
}
