//! The variables that rows are wanted of.

ghost use Rattle.std.specs.Prelude.{◌≡◌, ◌<◌, All, List, length, map, fold, OnOk, IfOk};
ghost use Rattle.spec_numbers.specs.Texts.{Text};
ghost use Rattle.spec_terms.specs.Variables.{with_variable, variables_after};
ghost use Rattle.spec_linear.specs.Echelon.{AreDistinct};
ghost use Rattle.cq_term.specs.Trees.{tree};
ghost use Rattle.cq_term.specs.Places.{numbers_of};
ghost use Rattle.cq_answer.specs.Shown.{bound_trees, constraint_trees, goal_trees, free_in, shown_trees, AreLive};

use crate::residual::queries::is_bound_query;
use cq_attr::Susp;
use cq_frac::VarId;
use cq_read::names::VariableName;
use cq_term::{Heap, TermId};
use cq_unify::vars_of;
use indexmap::IndexSet;
use std::alloc::AllocError;

/// Adds the variables of a term that are new, by first occurrence.
fn add_variables(heap: &Heap, term: TermId, found: &mut IndexSet<VarId>) -> Result<(), AllocError>
    requires { term < length heap.now.now.terms }
    ensures { OnOk result ((texts : List Text)
        → numbers_of found.new.keys ≡ variables_after (numbers_of found.old.keys) (tree texts heap.now.now.terms term)) }
{
    let variables = vars_of(heap, term)?;
    'variables: for variable in &variables {
        found.insert(*variable)?;
    }
    Ok(())
}

/// Adds the free query variables.
fn add_free(free: &[VariableName], found: &mut IndexSet<VarId>) -> Result<(), AllocError>
    ensures { OnOk result (numbers_of found.new.keys ≡ fold with_variable (numbers_of found.old.keys) (map (λ n. n.number) free.now)) }
{
    'free: for named in free {
        found.insert(named.variable)?;
    }
    Ok(())
}

/// Adds the variables of the terms that query variables are bound to.
fn add_bound(
    heap: &Heap,
    names: &[VariableName],
    found: &mut IndexSet<VarId>,
) -> Result<(), AllocError>
    requires { All (λ n. n.number < length heap.now.now.images) names.now }
    ensures { OnOk result ((texts : List Text)
        → numbers_of found.new.keys ≡ fold variables_after (numbers_of found.old.keys) (bound_trees (tree texts heap.now.now.images) names.now)) }
{
    'names: for named in names {
        if is_bound_query(heap, named) {
            add_variables(heap, heap.var_term(named.variable), found)?;
        }
    }
    Ok(())
}

/// Adds the variables of the constraints that wait.
fn add_constraints(
    heap: &Heap,
    waiting: &[Susp],
    found: &mut IndexSet<VarId>,
) -> Result<(), AllocError>
    requires { AreLive heap.now.now waiting.now }
    ensures { OnOk result ((texts : List Text)
        → numbers_of found.new.keys ≡ fold variables_after (numbers_of found.old.keys) (constraint_trees texts heap.now.now waiting.now)) }
{
    'waiting: for waits in waiting {
        match *waits {
            Susp::Delayed(term) => add_variables(heap, term, found)?,
            Susp::Goal(_, _) => {}
        }
    }
    Ok(())
}

/// Adds the variables of the goals that wait, each behind the variable that it waits for.
fn add_goals(heap: &Heap, waiting: &[Susp], found: &mut IndexSet<VarId>) -> Result<(), AllocError>
    requires { AreLive heap.now.now waiting.now }
    ensures { OnOk result ((texts : List Text)
        → numbers_of found.new.keys ≡ fold variables_after (numbers_of found.old.keys) (goal_trees texts heap.now.now waiting.now)) }
{
    'waiting: for waits in waiting {
        match *waits {
            Susp::Goal(variable, goal) => {
                add_variables(heap, heap.var_term(variable), found)?;
                add_variables(heap, goal, found)?;
            }
            Susp::Delayed(_) => {}
        }
    }
    Ok(())
}

/// The variables that rows are wanted of, as a set.
fn found_variables(
    heap: &Heap,
    names: &[VariableName],
    free: &[VariableName],
    waiting: &[Susp],
) -> Result<IndexSet<VarId>, AllocError>
    requires live { All (λ n. n.number < length heap.now.now.images) names.now }
    requires waiting_live { AreLive heap.now.now waiting.now }
    requires distinct { AreDistinct (map (λ n. n.number) free.now) }
    ensures wanted { IfOk result (λ all. (texts : List Text) → numbers_of all.keys
        ≡ fold variables_after (map (λ n. n.number) free.now) (shown_trees texts heap.now.now names.now waiting.now)) }
    ensures distinct { IfOk result (λ all. AreDistinct (numbers_of all.keys)) }
{
    let mut found = IndexSet::new(heap.alloc());
    add_free(free, &mut found)?;
    add_bound(heap, names, &mut found)?;
    add_constraints(heap, waiting, &mut found)?;
    add_goals(heap, waiting, &mut found)?;
    Ok(found)
}

/// The variables that rows are wanted of.
pub(crate) fn wanted_of(
    heap: &Heap,
    names: &[VariableName],
    free: &[VariableName],
    waiting: &[Susp],
) -> Result<Vec<VarId>, AllocError>
    requires live { All (λ n. n.number < length heap.now.now.images) names.now }
    requires waiting_live { AreLive heap.now.now waiting.now }
    requires distinct { AreDistinct (map (λ n. n.number) free.now) }
    ensures wanted { IfOk result (λ all. (texts : List Text) → numbers_of all.items
        ≡ fold variables_after (map (λ n. n.number) free.now) (shown_trees texts heap.now.now names.now waiting.now)) }
    ensures distinct { IfOk result (λ all. AreDistinct (numbers_of all.items)) }
{
    let found = found_variables(heap, names, free, waiting)?;
    found.into_iter().collect(heap.alloc())
}
