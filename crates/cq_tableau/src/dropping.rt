//! Columns dropped together.

ghost use Rattle.std.specs.Prelude.{◌≡◌, ◌≤◌, ℕ, true, OnOk};
ghost use Rattle.spec_linear.specs.Solution.{Has};
ghost use Rattle.cq_dict.specs.Roles.{AreOverColumns, is_live};
ghost use Rattle.cq_tableau.specs.Dropped.{quantities, DropsEach};

use cq_dict::dict::Dict;
use cq_frac::row::Entry;
use std::alloc::AllocError;

/// Drops the columns of the entries.
pub fn drop_all(dict: &mut Dict, columns: &[Entry]) -> Result<(), AllocError>
    requires table { AreOverColumns dict.old.roles }
    requires live { (c : ℕ) → Has c (quantities columns.now) → is_live dict.old.roles c ≡ true }
    ensures dropped { OnOk result (DropsEach dict.old.roles (quantities columns.now) dict.new.roles) }
    ensures flags { dict.new.restricted ≡ dict.old.restricted }
    ensures saved { dict.new.saved ≡ dict.old.saved }
    ensures room { dict.old.room ≤ dict.new.room }
{
    for m in columns {
        if !dict.is_dropped(m.quantity) {
            dict.drop_column(m.quantity)?;
        }
    }
    Ok(())
}
