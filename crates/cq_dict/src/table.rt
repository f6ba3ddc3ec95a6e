//! The roles of a dictionary, and the writing of new ones.

ghost use Rattle.std.specs.Prelude.{◌≡◌, ◌<◌, ◌≤◌, length, OnOk, OnErr};
ghost use Rattle.cq_dict.specs.declared.table.Change.{Change};
ghost use Rattle.cq_dict.specs.Changes.{Changes, IsWritten};

use cq_frac::row::rows::Row;
use cq_trail::Trail;
use std::alloc::AllocError;

/// What a quantity is: a live or a dropped column, or a row over columns.
#[derive(Drop)]
pub enum Role {
    Live,
    Dropped,
    Basic(Row),
}

/// A new role for a quantity.
#[derive(Drop)]
pub struct Change {
    pub at: usize,
    pub role: Role,
}

/// Writes the new roles, all or none; all others stay where they are.
pub fn write(roles: &mut Trail<Role>, mut changes: Vec<Change>) -> Result<(), AllocError>
    requires { (c : Change) → Changes c changes.items → c.at < length roles.old.now }
    ensures written { OnOk result (IsWritten roles.old.now changes.items roles.new.now) }
    ensures saved { roles.new.saved ≡ roles.old.saved }
    ensures room { roles.old.room ≤ roles.new.room }
    ensures err { OnErr result (roles.new.now ≡ roles.old.now) }
{
    roles.reserve_saves(changes.len())?;
    while let Some(Change { at, role }) = changes.pop() {
        roles.set(at, role).unwrap();
    }
    Ok(())
}
