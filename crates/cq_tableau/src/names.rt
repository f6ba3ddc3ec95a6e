//! The names of quantities, and the numbers of variables.

ghost use Rattle.std.specs.Prelude.{◌≡◌, ◌↔◌, ℕ, MatchOption, slice_get, Some, IsTrue};
ghost use Rattle.cq_tableau.specs.declared.names.Name.TheVariants.{Variable};
ghost use Rattle.cq_tableau.specs.Stored.{IsKnown};
ghost use Rattle.cq_tableau.specs.Numbered.{AreNumbered};

use cq_frac::VarId;
use cq_trail::Stack;
use indexmap::IndexMap;

/// What a quantity stands for: a variable, or the form of the told constraint of this number, from 1.
#[derive(Clone, Copy)]
pub enum Name {
    Variable(VarId),
    Member(usize),
}

/// Whether the quantity of this number is there and is the variable.
fn is_named(names: &Stack<Name>, n: usize, x: VarId) -> bool
    ensures { IsTrue result ↔ (slice_get names.now.now n ≡ Some (Variable x)) }
{
    if n >= names.len() {
        return false;
    }
    match names.get(n) {
        Name::Variable(y) => y.0 == x.0,
        Name::Member(_) => false,
    }
}

/// The number of the variable's quantity.
///
/// The map keeps what it found of variables that are known no more, so that undoing need not touch it: the names decide.
pub fn number_of(numbers: &IndexMap<VarId, usize>, names: &Stack<Name>, x: VarId) -> Option<usize>
    requires { AreNumbered names.now.now numbers.now.entries }
    ensures { MatchOption result (IsKnown names.now.now x.0 → ⊥) (λ n. slice_get names.now.now n ≡ Some (Variable x)) }
{
    match numbers.get(&x).copied() {
        Some(n) => { if is_named(names, n, x) { Some(n) } else { None } }
        None => None,
    }
}
