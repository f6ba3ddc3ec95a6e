//! A store of its own for a list of constraints.

ghost use Rattle.std.specs.Prelude.{◌≡◌, ℕ, [], ◌∷◌, ◌++◌, IfOk, OnOk};
ghost use Rattle.spec_linear.specs.Solution.{Solvable};
ghost use Rattle.spec_simplex.specs.Asked.{NoQuestion};
ghost use Rattle.cq_frac.specs.declared.Pair.{Pair};
ghost use Rattle.cq_store.specs.declared.store.StoreFault.TheVariants.{Overflow, Pivots};
ghost use Rattle.cq_store.specs.StoreValue.{MayRefuse, MayTake, Only};
ghost use Rattle.cq_project.specs.Telling.{RefusesTelling, SpendsTelling};

use cq_form::Constraint;
use cq_store::store::{Store, StoreFault, Told};
use std::alloc::Global;

/// Tells the row. It is kept, since it has a solution together with what the store was told.
fn tell_one(store: &mut Store, row: &Constraint) -> Result<(), StoreFault>
    requires solvable { Solvable (store.old.told ++ row.now ∷ []) }
    ensures told { OnOk result (store.new.told ≡ store.old.told ++ row.now ∷ []) }
    ensures overflow { (pair : Pair) → result ≡ Err (Overflow pair) → MayRefuse store.old.told (Only row.now) NoQuestion pair }
    ensures pivots { (n : ℕ) → result ≡ Err (Pivots n) → (n ≡ store.old.pivots) × MayTake store.old.told (Only row.now) NoQuestion n }
    ensures saved { store.new.saved ≡ store.old.saved }
    ensures budget { store.new.pivots ≡ store.old.pivots }
{
    let copy = row.clone()?;
    match store.tell(copy) {
        Ok(told) => match told {
            Told::Kept(_) => Ok(()),
            Told::Unsolvable(_) => unreachable!(),
        },
        Err(fault) => Err(fault),
    }
}

/// A new store that was told the rows in their order. No call of it makes more than `pivots` exchanges.
pub fn holding(alloc: Global, rows: &[Constraint], pivots: u64) -> Result<Store, StoreFault>
    requires solvable { Solvable rows.now }
    ensures told { IfOk result (λ store. store.told ≡ rows.now) }
    ensures saved { IfOk result (λ store. store.saved ≡ []) }
    ensures budget { IfOk result (λ store. store.pivots ≡ pivots) }
    ensures overflow { (pair : Pair) → result ≡ Err (Overflow pair) → RefusesTelling rows.now pair }
    ensures pivots { (n : ℕ) → result ≡ Err (Pivots n) → (n ≡ pivots) × SpendsTelling rows.now n }
{
    let mut store = Store::new(alloc, pivots);
    'rows: for row in rows {
        tell_one(&mut store, row)?;
    }
    Ok(store)
}
