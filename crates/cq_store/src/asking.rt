//! A form as a row of the store's quantities, to be asked about.

ghost use Rattle.std.specs.Prelude.{◌≡◌, ◌≤◌, ℕ, List, IfOk, MatchBool};
ghost use Rattle.spec_linear.specs.Solution.{Constraint};
ghost use Rattle.spec_numbers.specs.Prefixes.{IsPrefix};
ghost use Rattle.cq_frac.specs.declared.Pair.{Pair};
ghost use Rattle.spec_simplex.specs.Tableau.{IsNothing, IsSomething};
ghost use Rattle.cq_dict.specs.DictValue.{quantities_of};
ghost use Rattle.cq_dict.specs.Roles.{IsRow, role_at};
ghost use Rattle.cq_tableau.specs.Forms.{row_of};
ghost use Rattle.cq_store.specs.declared.store.StoreFault.TheVariants.{Overflow, Pivots};
ghost use Rattle.cq_tableau.specs.Asking.{AsksForm, RefusesAsking};
ghost use Rattle.cq_tableau.specs.Numbered.{AreNumbered};
ghost use Rattle.cq_tableau.specs.Stored.{IsStored};

use crate::store::StoreFault;
use cq_dict::dict::Dict;
use cq_form::Form;
use cq_frac::VarId;
use cq_tableau::names::Name;
use cq_tableau::placing::place;
use cq_trail::Stack;
use indexmap::IndexMap;
use std::alloc::Global;

/// Makes the form a row, which has no name, and gives its number. New variables get a column each before it.
pub fn ask(
    alloc: Global,
    numbers: &mut IndexMap<VarId, usize>,
    names: &mut Stack<Name>,
    dict: &mut Dict,
    form: &Form,
) -> Result<usize, StoreFault>
    requires numbered { AreNumbered names.old.now numbers.old.entries }
    requires stored { (told : List Constraint) × IsStored told names.old.now (quantities_of dict.old) }
    ensures asked { IfOk result (λ n. AsksForm names.old.now (quantities_of dict.old) form.now names.new.now (quantities_of dict.new) n) }
    ensures overflow { (pair : Pair) → result ≡ Err (Overflow pair) → RefusesAsking names.old.now (quantities_of dict.old) form.now pair }
    ensures pivots { (n : ℕ) → result ≡ Err (Pivots n) → ⊥ }
    ensures grows { IsPrefix names.old.now names.new.now }
    ensures numbered { AreNumbered names.new.now numbers.new.entries }
    ensures names_saved { names.new.saved ≡ names.old.saved }
    ensures names_room { names.old.room ≤ names.new.room }
    ensures dict_saved { dict.new.saved ≡ dict.old.saved }
    ensures dict_room { dict.old.room ≤ dict.new.room }
{
    let entries = place(numbers, names, dict, alloc, form)?;
    let n = dict.add_row(&entries, form.constant(), false)?;
    Ok(n)
}

/// Whether the row is zero wherever dropped columns are.
pub fn is_zero(dict: &Dict, n: usize) -> bool
    requires { IsRow dict.now.roles n }
    ensures { MatchBool result (IsNothing (row_of n (role_at dict.now.roles n))) (IsSomething (row_of n (role_at dict.now.roles n))) }
{
    dict.row(n).is_empty() && dict.constant(n).is_zero()
}
