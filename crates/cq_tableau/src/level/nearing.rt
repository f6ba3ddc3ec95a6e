//! The exchange by which a row comes nearest to zero.

ghost use Rattle.std.specs.Prelude.{◌≡◌, false, IfSome};
ghost use Rattle.spec_simplex.specs.Rule.{Raises};
ghost use Rattle.cq_dict.specs.Roles.{AreOverColumns, IsRow, is_restricted};
ghost use Rattle.cq_simplex.specs.Dictionary.{dictionary};
ghost use Rattle.cq_tableau.specs.Raised.{HasNoFreeColumn};
ghost use Rattle.cq_tableau.specs.Turned.{slope_of, towards};
ghost use Rattle.cq_tableau.specs.Levelled.{IsNearing};

use cq_dict::dict::{Col, Dict};
use cq_frac::Frac;
use cq_simplex::climb::{Rise, gain_of, higher};
use cq_simplex::leaving::leaving;
use cq_simplex::rising::free_column;

/// The factor of a row that is to rise, or its negative, for one that is to fall.
fn slope(factor: Frac, up: bool) -> Frac
    ensures { result ≡ slope_of up factor }
{
    if up {
        return factor;
    }
    factor.neg()
}

/// The exchange by which the column enters, along which the row comes nearer to zero by this factor; None where no row limits the
/// column, or a number is refused.
fn nearing_by(dict: &Dict, q: usize, up: bool, factor: Frac, column: Col) -> Option<Rise>
    requires table { AreOverColumns dict.now.roles }
    requires row { IsRow dict.now.roles q }
    requires free { is_restricted dict.now.restricted q ≡ false }
    requires none { HasNoFreeColumn dict.now.roles dict.now.restricted q }
    requires raises { Raises (is_restricted dict.now.restricted) (dictionary (towards up dict.now.roles q) q) column }
    ensures { IfSome result (λ r. IsNearing dict.now.roles dict.now.restricted q up r.leaving r.entering) }
{
    let Ok(Some(limit)) = leaving(dict, column) else {
        return None;
    };
    let gain = gain_of(dict, factor, column, limit)?;
    Some(Rise {
        leaving: limit,
        entering: column,
        gain,
    })
}

/// The exchange by which the row comes nearest to zero, of those whose numbers are not refused; None also where the row has an
/// unrestricted column.
pub fn nearest(dict: &Dict, q: usize, up: bool) -> Option<Rise>
    requires table { AreOverColumns dict.now.roles }
    requires row { IsRow dict.now.roles q }
    requires free { is_restricted dict.now.restricted q ≡ false }
    ensures { IfSome result (λ r. IsNearing dict.now.roles dict.now.restricted q up r.leaving r.entering) }
{
    if free_column(dict, q).is_some() {
        return None;
    }
    let mut best: Option<Rise> = None;
    for m in dict.row(q) {
        let factor = slope(m.factor, up);
        if factor.is_positive() && dict.is_restricted(m.quantity) {
            if let Some(rise) = nearing_by(dict, q, up, factor, m.quantity) {
                best = Some(higher(best, rise));
            }
        }
    }
    best
}
