//! The names that a text gives to variables.
#![tactic(auto)]

use cq_frac::VarId;
use std::marker::Model;

/// A variable and its name, as a clause that was read gives it. Lists of them are in the order of first occurrence.
/// Contracts see the name's bytes and the variable's number.
#[derive(Drop)]
pub struct VariableName {
    pub name: String,
    pub variable: VarId,
}

impl Model for VariableName {
    ghost use Rattle.std.specs.Prelude.{string_bytes};
    ghost use Rattle.spec_terms.specs.VariableName as names;

    ghost Value = { names.VariableName };

    ghost view = { λ v. record { name = string_bytes v.name; number = v.variable.0 } };
}
