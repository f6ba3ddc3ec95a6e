// The variables of a term of a heap, in the order in which they are met from left to right.

ghost use Rattle.std.specs.Prelude.{◌≡◌, ◌<◌, length, All, IfOk};
ghost use Rattle.spec_terms.specs.Variables.{variables as variables_of_term};
ghost use Rattle.cq_term.specs.Meaning.{at};
ghost use Rattle.cq_term.specs.Shown.{IsUnbound};
ghost use Rattle.cq_term.specs.Places.{numbers_of};

use cq_frac::VarId;
use cq_term::walk::Visited;
use cq_term::{Heap, TermId, View};
use indexmap::IndexSet;
use std::alloc::AllocError;

/// The variables of a term read through bindings, each once, in the order of their first occurrences from left to
/// right. All are unbound.
pub fn vars_of(heap: &Heap, term: TermId) -> Result<Vec<VarId>, AllocError>
    requires { term < length heap.now.now.terms }
    ensures variables { IfOk result (λ found. numbers_of found.items ≡ variables_of_term (at heap.now.now.terms term)) }
    ensures unbound { IfOk result (λ found. All (λ v. IsUnbound heap.now.now.images v.0) found.items) }
{
    let found = variables(heap, term)?;
    found.into_iter().collect(heap.alloc())
}

/// The same as a set, in which a variable is looked up in constant time.
fn variables(heap: &Heap, term: TermId) -> Result<IndexSet<VarId>, AllocError>
    requires { term < length heap.now.now.terms }
    ensures variables { IfOk result (λ found. numbers_of found.keys ≡ variables_of_term (at heap.now.now.terms term)) }
    ensures unbound { IfOk result (λ found. All (λ v. IsUnbound heap.now.now.images v.0) found.keys) }
{
    let mut found = IndexSet::new(heap.alloc());
    if heap.is_ground(term) {
        return Ok(found);
    }
    let mut visited = Visited::new(heap.alloc());
    let mut work = vec![in heap.alloc(); term]?;
    while let Some(id) = work.pop() {
        match heap.view(id) {
            View::Var(variable) => {
                found.insert(variable)?;
            }
            View::Number(_) | View::Name(_) => {}
            View::Compound(_, arity) => visited.visit(heap, id, arity, &mut work)?,
        }
    }
    Ok(found)
}
