//! Query variables, bound and free.

ghost use Rattle.std.specs.Prelude.{◌≡◌, ◌<◌, ◌&&◌, All, List, length, not, IfOk};
ghost use Rattle.spec_numbers.specs.Texts.{Text};
ghost use Rattle.spec_answers.specs.Lines.{is_hidden as is_hidden_of};
ghost use Rattle.spec_branch.specs.Settling.{is_bound as is_bound_of};
ghost use Rattle.cq_term.specs.Trees.{tree};
ghost use Rattle.cq_answer.specs.Shown.{free_in, shows_free, shows_bound};

use cq_frac::VarId;
use cq_read::names::VariableName;
use cq_term::{Heap, View};
use std::alloc::AllocError;

fn is_hidden(name: &str) -> bool
    ensures { result ≡ is_hidden_of name.now }
{
    match name.as_bytes() {
        [first, ..] => *first == b'_',
        [] => false,
    }
}

/// Whether a variable's image is another term than the variable itself.
fn is_bound(heap: &Heap, variable: VarId) -> bool
    requires { variable.0 < length heap.now.now.images }
    ensures { (texts : List Text) → result ≡ is_bound_of (tree texts heap.now.now.images) variable.0 }
{
    match heap.view(heap.var_term(variable)) {
        View::Var(image) => image.0 != variable.0,
        View::Number(_) | View::Name(_) | View::Compound(_, _) => true,
    }
}

/// Whether a name is that of a query variable that is bound.
pub fn is_bound_query(heap: &Heap, named: &VariableName) -> bool
    requires { named.now.number < length heap.now.now.images }
    ensures { (texts : List Text) → result ≡ shows_bound (tree texts heap.now.now.images) named.now }
{
    if is_hidden(named.name.as_str()) {
        return false;
    }
    is_bound(heap, named.variable)
}

/// Whether a name is that of a query variable that is not bound.
fn is_free_query(heap: &Heap, named: &VariableName) -> bool
    requires { named.now.number < length heap.now.now.images }
    ensures { (texts : List Text) → result ≡ shows_free (tree texts heap.now.now.images) named.now }
{
    if is_hidden(named.name.as_str()) {
        return false;
    }
    !is_bound(heap, named.variable)
}

/// The same name of the same variable.
fn copied(named: &VariableName) -> Result<VariableName, AllocError>
    ensures { IfOk result (λ copy. copy ≡ named.now) }
{
    let name = named.name.clone()?;
    Ok(VariableName {
        name,
        variable: named.variable,
    })
}

/// The names of the query variables that are not bound.
pub(crate) fn free_names(
    heap: &Heap,
    names: &[VariableName],
) -> Result<Vec<VariableName>, AllocError>
    requires { All (λ n. n.number < length heap.now.now.images) names.now }
    ensures { IfOk result (λ free. (texts : List Text) → free.items ≡ free_in (tree texts heap.now.now.images) names.now) }
{
    let mut free = Vec::new(heap.alloc());
    'names: for named in names {
        if is_free_query(heap, named) {
            let copy = copied(named)?;
            let Ok(()) = free.push(copy) else {
                return Err(AllocError);
            };
        }
    }
    Ok(free)
}
