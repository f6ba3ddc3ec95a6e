//! The columns along which a row rises.

ghost use Rattle.cq_dict.specs.Roles.{IsRow, AreOverColumns};
ghost use Rattle.cq_simplex.specs.Turns.{IsFreeColumn, IsEntering};

use cq_dict::dict::{Col, Dict};

/// A live column of the row that is not restricted, along which the row rises one way or the other.
pub fn free_column(dict: &Dict, row: usize) -> Option<Col>
    requires table { AreOverColumns dict.now.roles }
    requires row { IsRow dict.now.roles row }
    ensures { IsFreeColumn dict.now.roles dict.now.restricted row result }
{
    for m in dict.row(row) {
        if !dict.is_restricted(m.quantity) {
            return Some(m.quantity);
        }
    }
    None
}

/// The restricted column of the least number that raises the row.
pub fn entering(dict: &Dict, row: usize) -> Option<Col>
    requires table { AreOverColumns dict.now.roles }
    requires row { IsRow dict.now.roles row }
    ensures { IsEntering dict.now.roles dict.now.restricted row result }
{
    for m in dict.row(row) {
        if m.factor.is_positive() && dict.is_restricted(m.quantity) {
            return Some(m.quantity);
        }
    }
    None
}
