//! Equations that mention a variable of which the told list says nothing. Each solution of the list goes on to such an equation, so
//! that no other variable gets a value by it and no member falls: nothing else is looked at.

ghost use Rattle.std.specs.Prelude.{◌≡◌, ◌<◌, ◌≤◌, ℕ, length, IfOk, IfSome, IsTrue};
ghost use Rattle.spec_linear.specs.declared.Relation.TheVariants.{Eq};
ghost use Rattle.spec_simplex.specs.Asked.{NoQuestion};
ghost use Rattle.spec_numbers.specs.Prefixes.{IsPrefix};
ghost use Rattle.cq_frac.specs.declared.Pair.{Pair};
ghost use Rattle.spec_simplex.specs.Rule.{IsFree};
ghost use Rattle.cq_dict.specs.DictValue.{quantities_of};
ghost use Rattle.cq_dict.specs.Roles.{AreOverColumns, IsRow, is_restricted};
ghost use Rattle.cq_simplex.specs.Dictionary.{dictionary};
ghost use Rattle.cq_store.specs.declared.store.StoreFault.TheVariants.{Overflow, Pivots};
ghost use Rattle.cq_store.specs.Alone.{IsAloneFixed, IsNewIn, IsPlaceBehind};
ghost use Rattle.cq_store.specs.Entered.{IsJoined, IsRefuted};
ghost use Rattle.cq_store.specs.Equated.{Crosses, StayNumbered};
ghost use Rattle.cq_store.specs.StoreValue.{MayRefuse, Only};

use crate::entering::Entered;
use crate::store::StoreFault;
use cq_dict::dict::{Col, Dict};
use cq_form::Constraint;
use cq_frac::VarId;
use cq_frac::row::{Entry, entry_at};
use cq_tableau::names::Name;
use cq_tableau::values::fixed_number;
use cq_trail::Stack;
use std::alloc::{AllocError, Global};

/// The first of the places that is behind the quantities known before.
pub fn new_place(places: &[Entry], known: usize) -> Option<usize>
    ensures { IfSome result (IsPlaceBehind known places.now) }
{
    for m in places {
        if m.quantity >= known {
            return Some(m.quantity);
        }
    }
    None
}

/// Whether the quantity is an unrestricted column of the row.
fn is_free_in(dict: &Dict, q: usize, n: usize) -> bool
    requires table { AreOverColumns dict.now.roles }
    requires row { IsRow dict.now.roles q }
    ensures { IsTrue result → IsFree (is_restricted dict.now.restricted) (dictionary dict.now.roles q) n }
{
    match entry_at(dict.row(q), n) {
        Some(_) => {
            if dict.is_restricted(n) {
                return false;
            }
            true
        }
        None => false,
    }
}

/// The quantity of this number, if there is one and it is an unrestricted column of the row.
pub fn free_column_of(dict: &Dict, q: usize, number: Option<usize>) -> Option<Col>
    requires table { AreOverColumns dict.now.roles }
    requires row { IsRow dict.now.roles q }
    ensures { IfSome result (IsFree (is_restricted dict.now.restricted) (dictionary dict.now.roles q)) }
{
    match number {
        Some(n) => {
            if is_free_in(dict, q, n) {
                return Some(n);
            }
            None
        }
        None => None,
    }
}

/// The variable of the quantity, if it has a value.
fn fixed_alone(
    alloc: Global,
    names: &Stack<Name>,
    dict: &Dict,
    n: usize,
) -> Result<Vec<VarId>, AllocError>
    requires there { n < length names.now.now }
    requires size { length names.now.now ≤ length dict.now.roles }
    ensures { IfOk result (λ xs. IsAloneFixed names.now.now dict.now.roles n xs.items) }
{
    let mut fixed = Vec::new(alloc);
    match names.get(n) {
        Name::Variable(x) => match fixed_number(dict, n) {
            Some(_) => {
                fixed.push(*x)?;
                Ok(fixed)
            }
            None => Ok(fixed),
        },
        Name::Member(_) => Ok(fixed),
    }
}

/// Enters such an equation by a column that may take its row's place: the equation's own quantity is a dropped column then.
pub fn enter_by_new(
    alloc: Global,
    names: &mut Stack<Name>,
    dict: &mut Dict,
    told: &[Constraint],
    c: &Constraint,
    q: usize,
    column: Col,
    n: usize,
) -> Result<Entered, StoreFault>
    requires equation { c.now.relation ≡ Eq }
    requires crosses { Crosses told.now names.old.now c.now dict.old.roles dict.old.restricted q column }
    requires new { IsNewIn told.now names.old.now c.now n }
    ensures joined { IsJoined result told.now c.now names.new.now (quantities_of dict.new) }
    ensures refuted { IsRefuted result told.now c.now }
    ensures overflow { (pair : Pair) → result ≡ Err (Overflow pair) → MayRefuse told.now (Only c.now) NoQuestion pair }
    ensures pivots { (n : ℕ) → result ≡ Err (Pivots n) → ⊥ }
    ensures grows { IsPrefix names.old.now names.new.now }
    ensures numbered { StayNumbered names.old.now names.new.now }
    ensures names_saved { names.new.saved ≡ names.old.saved }
    ensures names_room { names.old.room ≤ names.new.room }
    ensures dict_saved { dict.new.saved ≡ dict.old.saved }
    ensures dict_room { dict.old.room ≤ dict.new.room }
{
    dict.eliminate(q, column)?;
    let fixed = fixed_alone(alloc, names, dict, n)?;
    names.reserve_places(1)?;
    names.push(Name::Member(told.len() + 1)).unwrap();
    Ok(Entered::Joined(fixed))
}
