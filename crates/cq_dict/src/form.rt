//! A form over quantities as a row over columns.

ghost use Rattle.std.specs.Prelude.{◌≡◌, ◌≢◌, ◌<◌, ℕ, length, IfOk, OnOk};
ghost use Rattle.spec_numbers.specs.Rational.{ℚ, 0ℚ, ◌+ℚ◌};
ghost use Rattle.cq_frac.specs.declared.Pair.{Pair};
ghost use Rattle.cq_frac.specs.declared.row.Entry.{Entry};
ghost use Rattle.cq_frac.specs.Rows.{everywhere, sum_at, Has};
ghost use Rattle.cq_frac.specs.Numbers.{IsOver};
ghost use Rattle.cq_dict.specs.Roles.{AreOverColumns, Expresses};
ghost use Rattle.cq_dict.specs.Dict.{RefusesForm, NoFormPair};
ghost use Rattle.cq_dict.specs.Forms.{AddsProduct, RefusesProduct};

use crate::table::Role;
use cq_frac::row::rows::Row;
use cq_frac::row::{Entry, Joining};
use cq_frac::{Frac, Refusal};
use std::alloc::Global;

/// The row and one product more: its factor times the row of its quantity, which for a column is the column itself.
fn added(alloc: Global, roles: &[Role], sum: Row, m: Entry) -> Result<Row, Refusal>
    requires table { AreOverColumns roles.now }
    requires sum_row { IsOver everywhere everywhere sum }
    requires there { m.quantity < length roles.now }
    requires nonzero { m.factor ≢ 0ℚ }
    ensures value { IfOk result (λ r. AddsProduct roles.now sum m r) }
    ensures overflow { (pair : Pair) → result ≡ Err (Refusal.Overflow pair) → RefusesProduct roles.now sum m pair }
{
    match &roles[m.quantity] {
        Role::Live => {
            let own = Row::of_live(alloc, m.quantity)?;
            sum.joined(Joining::Plus, m.factor, &own)
        }
        Role::Dropped => {
            let own = Row::of_dropped(alloc, m.quantity)?;
            sum.joined(Joining::Plus, m.factor, &own)
        }
        Role::Basic(row) => sum.joined(Joining::Plus, m.factor, row),
    }
}

/// The form, added product by product in its order.
pub fn expressed(
    alloc: Global,
    roles: &[Role],
    form: &[Entry],
    constant: Frac,
) -> Result<Row, Refusal>
    requires table { AreOverColumns roles.now }
    requires there { (m : Entry) → Has m form.now → m.quantity < length roles.now }
    ensures value { IfOk result (λ r. Expresses roles.now (λ x. constant +ℚ sum_at x form.now) r) }
    ensures overflow { (pair : Pair) → result ≡ Err (Refusal.Overflow pair) → RefusesForm roles.now form.now constant pair }
    ensures accepted { OnOk result (NoFormPair roles.now form.now constant) }
{
    let mut sum = Row::of_constant(alloc, constant);
    for m in form {
        if m.factor.is_zero() {
            continue;
        }
        sum = added(alloc, roles, sum, *m)?;
    }
    Ok(sum)
}
