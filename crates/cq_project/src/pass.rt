//! One pass over rows beside others, in a store of its own.
#![tactic(auto)]

ghost use Rattle.std.specs.Prelude.{◌≡◌, ℕ, [], ◌++◌, IfOk};
ghost use Rattle.spec_linear.specs.Solution.{Solvable};
ghost use Rattle.spec_projection.specs.Irredundant.{Sifts};
ghost use Rattle.cq_frac.specs.declared.Pair.{Pair};
ghost use Rattle.cq_store.specs.declared.store.StoreFault.TheVariants.{Overflow, Pivots};
ghost use Rattle.cq_project.specs.Passing.{RefusesPass, SpendsPass};

use crate::reduce::telling::holding;
use crate::sift::sift;
use cq_form::Constraint;
use cq_store::store::StoreFault;
use std::alloc::Global;

/// What a pass over the rows leaves: in their order, each that follows from those kept, those behind it and those beside is
/// dropped. No call of a store makes more than `pivots` exchanges.
pub fn passed(
    alloc: Global,
    beside: &[Constraint],
    rows: &[Constraint],
    pivots: u64,
) -> Result<Vec<Constraint>, StoreFault>
    requires solvable { Solvable (beside.now ++ rows.now) }
    ensures left { IfOk result (λ left. Sifts beside.now [] rows.now left.items) }
    ensures overflow { (pair : Pair) → result ≡ Err (Overflow pair) → RefusesPass beside.now rows.now pair }
    ensures pivots { (n : ℕ) → result ≡ Err (Pivots n) → (n ≡ pivots) × SpendsPass beside.now rows.now n }
{
    let mut store = holding(alloc, beside, pivots)?;
    sift(alloc, &mut store, rows)
}
