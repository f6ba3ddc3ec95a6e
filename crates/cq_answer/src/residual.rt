//! What is left of a branch at an answer: the query variables that are not bound, what waits, and the variables that rows
//! are wanted of.
#![tactic(auto)]

mod queries;
mod waiting;
mod wanted;

ghost use Rattle.std.specs.Prelude.{◌≡◌, ◌<◌, All, List, length, map, fold, IfOk};
ghost use Rattle.spec_numbers.specs.Texts.{Text};
ghost use Rattle.spec_terms.specs.Variables.{variables_after};
ghost use Rattle.spec_linear.specs.Echelon.{AreDistinct};
ghost use Rattle.cq_term.specs.Trees.{tree};
ghost use Rattle.cq_term.specs.Places.{numbers_of};
ghost use Rattle.cq_answer.specs.Shown.{all_waiting as all_waiting_of, free_in, shown_trees, AreLive};

use crate::residual::queries::free_names;
use crate::residual::waiting::all_waiting;
use crate::residual::wanted::wanted_of;
use cq_attr::{Attrs, Susp};
use cq_frac::VarId;
use cq_read::names::VariableName;
use cq_term::Heap;
pub use queries::is_bound_query;
use std::alloc::AllocError;

/// What is left of a branch.
#[derive(Drop)]
pub struct Residues {
    /// The query variables that are not bound, with their names.
    pub free: Vec<VariableName>,
    /// What waits, in the order of suspension.
    pub waiting: Vec<Susp>,
    /// The variables that rows are wanted of: the free ones, and those of the bound query variables' terms and of what waits,
    /// by first occurrence.
    pub wanted: Vec<VarId>,
}

/// What is left of a branch, where these are the names of a query's variables. A name that begins with `_` is no query
/// variable's. An error is want of memory.
pub fn residues_of(
    heap: &Heap,
    attrs: &Attrs,
    names: &[VariableName],
) -> Result<Residues, AllocError>
    requires live { All (λ n. n.number < length heap.now.now.images) names.now }
    requires waiting_live { AreLive heap.now.now (all_waiting_of attrs.now.now) }
    requires distinct { AreDistinct (map (λ n. n.number) names.now) }
    ensures free { IfOk result (λ r. (texts : List Text) → r.free.items ≡ free_in (tree texts heap.now.now.images) names.now) }
    ensures waiting { IfOk result (λ r. r.waiting.items ≡ all_waiting_of attrs.now.now) }
    ensures wanted { IfOk result (λ r. (texts : List Text) → numbers_of r.wanted.items
        ≡ fold variables_after (map (λ n. n.number) (free_in (tree texts heap.now.now.images) names.now)) (shown_trees texts heap.now.now names.now (all_waiting_of attrs.now.now))) }
    ensures distinct { IfOk result (λ r. AreDistinct (numbers_of r.wanted.items)) }
{
    let free = free_names(heap, names)?;
    let waiting = all_waiting(heap.alloc(), attrs)?;
    let wanted = wanted_of(heap, names, &free, &waiting)?;
    Ok(Residues {
        free,
        waiting,
        wanted,
    })
}
