//! How far a form reaches on the solutions of the told list: its row climbs and is maximised.

ghost use Rattle.std.specs.Prelude.{◌≡◌, ◌≤◌, ℕ, List, IfOk};
ghost use Rattle.spec_linear.specs.Solution.{Constraint};
ghost use Rattle.spec_numbers.specs.Prefixes.{IsPrefix};
ghost use Rattle.cq_frac.specs.declared.Pair.{Pair};
ghost use Rattle.cq_dict.specs.DictValue.{quantities_of};
ghost use Rattle.cq_store.specs.declared.store.StoreFault.TheVariants.{Overflow, Pivots};
ghost use Rattle.cq_store.specs.Questions.{OfStored, RefusesOfStored, SpendsOfStored};
ghost use Rattle.cq_tableau.specs.Numbered.{AreNumbered};
ghost use Rattle.cq_tableau.specs.Stored.{IsStored};
ghost use Rattle.cq_store.specs.StoreValue.{IsExtent};

use crate::asking::ask;
use crate::store::{Extent, StoreFault};
use cq_dict::dict::Dict;
use cq_form::Form;
use cq_frac::VarId;
use cq_simplex::climb::ascend;
use cq_simplex::{Aim, Max};
use cq_tableau::names::Name;
use cq_trail::Stack;
use indexmap::IndexMap;
use std::alloc::Global;

/// How far the form reaches. Its row stays among the quantities, to be undone.
pub fn reach(
    alloc: Global,
    pivots: u64,
    numbers: &mut IndexMap<VarId, usize>,
    names: &mut Stack<Name>,
    dict: &mut Dict,
    form: &Form,
) -> Result<Extent, StoreFault>
    requires numbered { AreNumbered names.old.now numbers.old.entries }
    requires stored { (told : List Constraint) × IsStored told names.old.now (quantities_of dict.old) }
    ensures extent { IfOk result (λ e. OfStored names.old.now (quantities_of dict.old) (λ told. IsExtent told form.now e)) }
    ensures overflow { (pair : Pair) → result ≡ Err (Overflow pair) → RefusesOfStored names.old.now (quantities_of dict.old) form.now pair }
    ensures pivots { (n : ℕ) → result ≡ Err (Pivots n) → SpendsOfStored names.old.now (quantities_of dict.old) form.now n pivots }
    ensures grows { IsPrefix names.old.now names.new.now }
    ensures numbered { AreNumbered names.new.now numbers.new.entries }
    ensures names_saved { names.new.saved ≡ names.old.saved }
    ensures names_room { names.old.room ≤ names.new.room }
    ensures dict_saved { dict.new.saved ≡ dict.old.saved }
    ensures dict_room { dict.old.room ≤ dict.new.room }
{
    let q = ask(alloc, numbers, names, dict, form)?;
    match ascend(dict, alloc, q, Aim::Best, pivots)? {
        Max::At(value, _) => Ok(Extent::Value(value)),
        Max::Unbounded(_) => Ok(Extent::Unbounded),
        // The aim is the greatest value.
        Max::Positive => unreachable!(),
    }
}
