//! Variables as quantities, and new ones made for them.

ghost use Rattle.std.specs.Prelude.{◌≡◌, ◌≤◌, ℕ, Some, slice_get, IfOk, OnOk};
ghost use Rattle.spec_numbers.specs.Sums.{Mentions};
ghost use Rattle.spec_linear.specs.Form.{IsForm};
ghost use Rattle.spec_numbers.specs.Prefixes.{IsPrefix};
ghost use Rattle.cq_dict.specs.DictValue.{quantities_of};
ghost use Rattle.cq_tableau.specs.declared.names.Name.TheVariants.{Variable};
ghost use Rattle.cq_tableau.specs.Stored.{IsKnown, StaysStored, IsPlaced};
ghost use Rattle.cq_tableau.specs.Numbered.{AreNumbered};

use crate::names::{Name, number_of};
use cq_dict::dict::Dict;
use cq_form::Form;
use cq_frac::VarId;
use cq_frac::row::Entry;
use cq_trail::Stack;
use indexmap::IndexMap;
use std::alloc::{AllocError, Global};

/// Makes an unrestricted column for the variable, and gives its number.
fn add_variable(
    numbers: &mut IndexMap<VarId, usize>,
    names: &mut Stack<Name>,
    dict: &mut Dict,
    x: VarId,
) -> Result<usize, AllocError>
    requires new { IsKnown names.old.now x.0 → ⊥ }
    requires numbered { AreNumbered names.old.now numbers.old.entries }
    ensures named { IfOk result (λ n. slice_get names.new.now n ≡ Some (Variable x)) }
    ensures stored { OnOk result (StaysStored names.old.now (quantities_of dict.old) names.new.now (quantities_of dict.new)) }
    ensures grows { IsPrefix names.old.now names.new.now }
    ensures numbered { AreNumbered names.new.now numbers.new.entries }
    ensures names_saved { names.new.saved ≡ names.old.saved }
    ensures names_room { names.old.room ≤ names.new.room }
    ensures dict_saved { dict.new.saved ≡ dict.old.saved }
    ensures dict_room { dict.old.room ≤ dict.new.room }
{
    names.reserve_places(1)?;
    numbers.reserve(1)?;
    dict.add_column(false)?;
    let n = names.len();
    // There is room for both.
    names.push(Name::Variable(x)).unwrap();
    numbers.insert(x, n).unwrap();
    Ok(n)
}

/// The number of the variable's quantity, which is made where there is none.
pub fn find_or_add(
    numbers: &mut IndexMap<VarId, usize>,
    names: &mut Stack<Name>,
    dict: &mut Dict,
    x: VarId,
) -> Result<usize, AllocError>
    requires { AreNumbered names.old.now numbers.old.entries }
    ensures named { IfOk result (λ n. slice_get names.new.now n ≡ Some (Variable x)) }
    ensures stored { OnOk result (StaysStored names.old.now (quantities_of dict.old) names.new.now (quantities_of dict.new)) }
    ensures grows { IsPrefix names.old.now names.new.now }
    ensures numbered { AreNumbered names.new.now numbers.new.entries }
    ensures names_saved { names.new.saved ≡ names.old.saved }
    ensures names_room { names.old.room ≤ names.new.room }
    ensures dict_saved { dict.new.saved ≡ dict.old.saved }
    ensures dict_room { dict.old.room ≤ dict.new.room }
{
    match number_of(numbers, names, x) {
        Some(n) => Ok(n),
        None => add_variable(numbers, names, dict, x),
    }
}

/// The form over quantities. New variables get a column each, in ascending order.
pub fn place(
    numbers: &mut IndexMap<VarId, usize>,
    names: &mut Stack<Name>,
    dict: &mut Dict,
    alloc: Global,
    form: &Form,
) -> Result<Vec<Entry>, AllocError>
    requires { AreNumbered names.old.now numbers.old.entries }
    ensures placed { IfOk result (λ s. IsPlaced names.new.now form.now.products s.items) }
    ensures stored { OnOk result (StaysStored names.old.now (quantities_of dict.old) names.new.now (quantities_of dict.new)) }
    ensures grows { IsPrefix names.old.now names.new.now }
    ensures numbered { AreNumbered names.new.now numbers.new.entries }
    ensures names_saved { names.new.saved ≡ names.old.saved }
    ensures names_room { names.old.room ≤ names.new.room }
    ensures in_order { IsForm form.now }
    ensures dict_saved { dict.new.saved ≡ dict.old.saved }
    ensures dict_room { dict.old.room ≤ dict.new.room }
{
    let mut entries = Vec::new(alloc);
    for entry in form.entries() {
        let quantity = find_or_add(numbers, names, dict, VarId(entry.quantity))?;
        entries.push(Entry {
            quantity,
            factor: entry.factor,
        })?;
    }
    Ok(entries)
}

/// The form over the quantities of its variables, which are there.
pub fn place_known(
    alloc: Global,
    numbers: &IndexMap<VarId, usize>,
    names: &Stack<Name>,
    form: &Form,
) -> Result<Vec<Entry>, AllocError>
    requires numbered { AreNumbered names.now.now numbers.now.entries }
    requires known { (x : ℕ) → Mentions x form.now.products → IsKnown names.now.now x }
    ensures placed { IfOk result (λ s. IsPlaced names.now.now form.now.products s.items) }
    ensures in_order { IsForm form.now }
{
    let mut entries = Vec::new(alloc);
    for entry in form.entries() {
        // Its variable is there.
        let quantity = number_of(numbers, names, VarId(entry.quantity)).unwrap();
        entries.push(Entry {
            quantity,
            factor: entry.factor,
        })?;
    }
    Ok(entries)
}
