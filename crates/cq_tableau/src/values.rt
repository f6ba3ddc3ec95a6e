//! The values that a store's rows give its variables.

ghost use Rattle.std.specs.Prelude.{◌≡◌, ◌<◌, List, length, MatchOption};
ghost use Rattle.spec_numbers.specs.Rational.{ℚ};
ghost use Rattle.spec_linear.specs.Solution.{Constraint, Fixed};
ghost use Rattle.cq_dict.specs.DictValue.{quantities_of};
ghost use Rattle.cq_tableau.specs.Stored.{IsStored};
ghost use Rattle.cq_tableau.specs.Values.{IsOpen, IsNumber};
ghost use Rattle.cq_tableau.specs.Numbered.{AreNumbered};

use crate::names::{Name, number_of};
use cq_dict::dict::Dict;
use cq_frac::{Frac, VarId};
use cq_trail::Stack;
use indexmap::IndexMap;

/// The value of a quantity whose row is a number, or that is a dropped column.
pub fn fixed_number(dict: &Dict, n: usize) -> Option<Frac>
    requires { n < length dict.now.roles }
    ensures { MatchOption result (IsOpen dict.now.roles n) (λ q. IsNumber dict.now.roles n q) }
{
    if dict.is_row(n) {
        if dict.row(n).is_empty() {
            return Some(dict.constant(n));
        }
        return None;
    }
    if dict.is_dropped(n) {
        return Some(Frac::zero());
    }
    None
}

/// The value of the variable, if the told list fixes it.
pub fn value_of(
    numbers: &IndexMap<VarId, usize>,
    names: &Stack<Name>,
    dict: &Dict,
    x: VarId,
) -> Option<Frac>
    requires numbered { AreNumbered names.now.now numbers.now.entries }
    requires size { length names.now.now ≡ length dict.now.roles }
    ensures { (told : List Constraint) → IsStored told names.now.now (quantities_of dict.now)
        → MatchOption result ((q : ℚ) → Fixed told x.0 q → ⊥) (λ q. Fixed told x.0 q) }
{
    match number_of(numbers, names, x) {
        Some(n) => fixed_number(dict, n),
        None => None,
    }
}
