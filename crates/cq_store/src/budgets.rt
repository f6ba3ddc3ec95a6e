//! How many exchanges are enough for each call of a store.

ghost use Rattle.std.specs.Prelude.{◌≡◌, ◌<◌, ◌≤◌, ◌^◌, length, IfSome, SomeIff};
ghost use Rattle.spec_projection.specs.Projection as of_list;
ghost use Rattle.cq_store.specs.Enough.{enough_for, IsEnough};

use crate::store::Store;
use cq_form::Constraint;
use spec_linear::Relation;

/// Whether the relation is that of an inequality.
fn is_inequality(relation: Relation) -> bool
    ensures { result ≡ of_list.is_inequality relation }
{
    match relation {
        Relation::Gt | Relation::Ge => true,
        Relation::Eq | Relation::Ne => false,
    }
}

/// How many of the constraints are inequalities.
fn count_inequalities(told: &[Constraint]) -> usize
    ensures count { result ≡ length (of_list.inequalities_of told.now) }
    ensures within { result ≤ length told.now }
{
    let mut count = 0;
    for c in told {
        if is_inequality(c.relation) {
            count += 1;
        }
    }
    count
}

/// Two to the power of the number, if it is below two to the power of 64.
fn power_of_two(n: usize) -> Option<u64>
    ensures { SomeIff result (2 ^ n < 2 ^ 64) (2 ^ n) }
{
    if n < 64 {
        return Some(1 << n);
    }
    None
}

impl Store {
    /// A number of exchanges with which no call on the told list stops for them; None where it is past 64 bits.
    ///
    /// No set of inequalities comes back while exchanges are made, so it is two to the power of one more than the
    /// number of told inequalities, as a call has one of its own.
    pub fn enough(&self) -> Option<u64>
        ensures number { SomeIff result (enough_for self.now.told < 2 ^ 64) (enough_for self.now.told) }
        ensures enough { IfSome result (IsEnough self.now.told) }
    {
        power_of_two(count_inequalities(self.told()) + 1)
    }
}
