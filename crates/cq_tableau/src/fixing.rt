//! The variables that a constraint gives a value: those that were open before and have a value after it.

ghost use Rattle.std.specs.Prelude.{◌≡◌, ◌<◌, ◌≤◌, ℕ, length, Some, slice_get, IfOk, MatchOption};
ghost use Rattle.std.specs.List.Sorted.{IsStrictlyIncreasing};
ghost use Rattle.cq_dict.specs.DictValue.{quantities_of};
ghost use Rattle.cq_tableau.specs.declared.names.Name.TheVariants.{Variable};
ghost use Rattle.cq_tableau.specs.Fixing.{AreOnce, HasNumber, IsOpenHere, AreOpen, AreOpenAmong, AreFixedNow};
ghost use Rattle.cq_tableau.specs.Numbered.{AreNumbered};

use crate::names::Name;
use crate::values::{fixed_number, value_of};
use cq_dict::dict::Dict;
use cq_frac::VarId;
use cq_trail::Stack;
use indexmap::IndexMap;
use std::alloc::{AllocError, Global};

/// The variable of the quantity, if its value is open.
fn open_variable(names: &Stack<Name>, dict: &Dict, n: usize) -> Option<VarId>
    requires there { n < length names.now.now }
    requires size { length names.now.now ≤ length dict.now.roles }
    ensures { MatchOption result (HasNumber names.now.now dict.now.roles n) (λ x. IsOpenHere names.now.now dict.now.roles n x) }
{
    match names.get(n) {
        Name::Variable(x) => match fixed_number(dict, n) {
            Some(_) => None,
            None => Some(*x),
        },
        Name::Member(_) => None,
    }
}

/// The variables whose value is open, in the order of their quantities.
pub fn open_variables(
    alloc: Global,
    names: &Stack<Name>,
    dict: &Dict,
) -> Result<Vec<VarId>, AllocError>
    requires size { length names.now.now ≤ length dict.now.roles }
    requires once { AreOnce names.now.now }
    ensures { IfOk result (λ xs. AreOpen names.now.now dict.now.roles (length names.now.now) xs.items) }
{
    let mut found = Vec::new(alloc);
    for n in 0..names.len() {
        if let Some(x) = open_variable(names, dict, n) {
            found.push(x)?;
        }
    }
    Ok(found)
}

/// The variable of the quantity, if it is one's and its value is open. A quantity without a name is no variable's.
fn open_if_named(names: &Stack<Name>, dict: &Dict, n: usize) -> Option<VarId>
    requires size { length names.now.now ≤ length dict.now.roles }
    ensures { MatchOption result (HasNumber names.now.now dict.now.roles n) (λ x. IsOpenHere names.now.now dict.now.roles n x) }
{
    if n < names.len() {
        return open_variable(names, dict, n);
    }
    None
}

/// The variables whose value is open, of the quantities of these numbers, in their order.
pub fn open_among(
    alloc: Global,
    names: &Stack<Name>,
    dict: &Dict,
    rows: &[usize],
) -> Result<Vec<VarId>, AllocError>
    requires size { length names.now.now ≤ length dict.now.roles }
    requires once { AreOnce names.now.now }
    requires ascending { IsStrictlyIncreasing rows.now }
    ensures { IfOk result (λ xs. AreOpenAmong rows.now names.now.now dict.now.roles (length rows.now) xs.items) }
{
    let mut found = Vec::new(alloc);
    for n in rows {
        if let Some(x) = open_if_named(names, dict, *n) {
            found.push(x)?;
        }
    }
    Ok(found)
}

/// Those of the variables that have a value now.
pub fn fixed_now(
    alloc: Global,
    numbers: &IndexMap<VarId, usize>,
    names: &Stack<Name>,
    dict: &Dict,
    before: &[VarId],
) -> Result<Vec<VarId>, AllocError>
    requires numbered { AreNumbered names.now.now numbers.now.entries }
    requires size { length names.now.now ≡ length dict.now.roles }
    ensures { IfOk result (λ xs. AreFixedNow names.now.now (quantities_of dict.now) before.now xs.items) }
{
    let mut fixed = Vec::new(alloc);
    for x in before {
        if let Some(_) = value_of(numbers, names, dict, *x) {
            fixed.push(*x)?;
        }
    }
    Ok(fixed)
}
