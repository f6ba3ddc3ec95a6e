//! Dictionaries: rows of exact fractions over columns, live or dropped, which are exchanged in place.
//!
//! A row and a column are exchanged as in Dantzig's simplex method (1947); a column that is zero in every solution is
//! dropped, as in Holzbaur's solver (1995), and can be restored.
#![tactic(auto)]

mod columns;
pub mod dict;
mod exchange;
mod form;
pub mod holders;
pub mod table;

ghost use Rattle.std.specs.Prelude.{List};
ghost use Rattle.cq_dict.specs.declared.table.Role.{Role};
ghost use Rattle.cq_dict.specs.Roles.{AreOverColumns, AreFree, ExpressesUniquely};

/// Law: the columns are free, so every choice of their values is that of an assignment that meets the rows.
pub fn columns_are_free()
    ensures { (roles : List Role) → AreOverColumns roles → AreFree roles }
{}

/// Over one table a value is expressed by one row alone.
pub fn expressions_are_unique()
    ensures { (roles : List Role) → AreOverColumns roles → ExpressesUniquely roles }
{}
