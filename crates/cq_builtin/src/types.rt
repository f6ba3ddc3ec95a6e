// The tests of the type of a term.

ghost use Rattle.std.specs.Prelude.{◌≡◌, ◌<◌, length, IfOk};
ghost use Rattle.spec_builtins.specs.Kinds.{is_list};
ghost use Rattle.spec_builtins.specs.Terms.{passes};
ghost use Rattle.cq_term.specs.Trees.{tree, KnowsTerms};
ghost use Rattle.cq_builtin.specs.Rows.{test_of};

use cq_built::kinds::{
    is_callable, is_compound, is_integer, is_name, is_nil, is_number, is_variable, list_parts,
};
use cq_term::atoms::Atoms;
use cq_term::{Heap, TermId};
use std::alloc::AllocError;

/// The tests of one term. `rational` is the test `Number`.
#[derive(Clone, Copy, PartialEq, Eq)]
pub enum TypeTest {
    Var,
    Nonvar,
    Atom,
    Number,
    Integer,
    Atomic,
    Compound,
    Callable,
    List,
}

/// Whether a term passes a test. An error is want of memory, which only lists take.
pub fn test(heap: &Heap, atoms: &Atoms, test: TypeTest, id: TermId) -> Result<bool, AllocError>
    requires live { id < length heap.now.now.terms }
    requires names { KnowsTerms atoms.now heap.now.now.terms }
    ensures { IfOk result (λ holds. holds ≡ passes (test_of test) (tree atoms.now heap.now.now.terms id)) }
{
    match test {
        TypeTest::Var => Ok(is_variable(heap, id)),
        TypeTest::Nonvar => Ok(!is_variable(heap, id)),
        TypeTest::Atom => Ok(is_name(heap, id)),
        TypeTest::Number => Ok(is_number(heap, id)),
        TypeTest::Integer => Ok(is_integer(heap, id)),
        TypeTest::Atomic => Ok(is_name(heap, id) || is_number(heap, id)),
        TypeTest::Compound => Ok(is_compound(heap, id)),
        TypeTest::Callable => Ok(is_callable(heap, id)),
        TypeTest::List => is_list_there(heap, atoms, id),
    }
}

fn is_list_there(heap: &Heap, atoms: &Atoms, id: TermId) -> Result<bool, AllocError>
    requires live { id < length heap.now.now.terms }
    requires names { KnowsTerms atoms.now heap.now.now.terms }
    ensures { IfOk result (λ holds. holds ≡ is_list (tree atoms.now heap.now.now.terms id)) }
{
    let parts = list_parts(heap, atoms, id)?;
    Ok(is_nil(heap, atoms, parts.tail))
}
