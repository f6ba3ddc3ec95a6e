// The check of `use_module`.

ghost use Rattle.std.specs.Prelude.{◌≡◌, ◌<◌, None, Some, codes, length, bytes_eq, IfErr, OnOk};
ghost use Rattle.spec_builtins.specs.Built.{is_atom};
ghost use Rattle.spec_builtins.specs.Clauses.{is_clpq, use_module_error};
ghost use Rattle.cq_term.specs.Trees.{tree, KnowsTerms};
ghost use Rattle.cq_built.specs.Errors.{error_tree, HasCulprit};

use cq_built::kinds::is_variable;
use cq_built::{BuiltinError, Culprit, ValidDomain};
use cq_term::atoms::Atoms;
use cq_term::{Heap, TermId, View};

/// `use_module(TERM)` is checked, and does nothing: `library(clpq)` is the one module.
pub fn check_module(heap: &Heap, atoms: &Atoms, term: TermId) -> Result<(), BuiltinError>
    requires live { term < length heap.now.now.terms }
    requires names { KnowsTerms atoms.now heap.now.now.terms }
    ensures lawful { OnOk result (use_module_error (tree atoms.now heap.now.now.terms term) ≡ None) }
    ensures error { IfErr result (λ e. use_module_error (tree atoms.now heap.now.now.terms term) ≡ Some (error_tree atoms.now heap.now.now.terms e)) }
    ensures culprit { IfErr result (HasCulprit atoms.now heap.now.now.terms) }
{
    if is_variable(heap, term) {
        return Err(BuiltinError::Instantiation);
    }
    if is_clpq(heap, atoms, term) {
        Ok(())
    } else {
        Err(BuiltinError::Domain(ValidDomain::Library, Culprit::Term(term)))
    }
}

/// Whether a term is `library(clpq)`.
fn is_clpq(heap: &Heap, atoms: &Atoms, term: TermId) -> bool
    requires live { term < length heap.now.now.terms }
    requires names { KnowsTerms atoms.now heap.now.now.terms }
    ensures { result ≡ is_clpq (tree atoms.now heap.now.now.terms term) }
{
    match heap.view(term) {
        View::Compound(name, arity) => {
            if arity != 1 {
                return false;
            }
            if atoms.text(name) == "library" {
                let library = heap.arg(term, 0);
                is_clpq_name(heap, atoms, library)
            } else {
                false
            }
        }
        _ => false,
    }
}

/// Whether a term is the atom `clpq`.
fn is_clpq_name(heap: &Heap, atoms: &Atoms, id: TermId) -> bool
    requires live { id < length heap.now.now.terms }
    requires names { KnowsTerms atoms.now heap.now.now.terms }
    ensures { result ≡ is_atom "clpq" (tree atoms.now heap.now.now.terms id) }
{
    match heap.view(id) {
        View::Name(name) => atoms.text(name) == "clpq",
        _ => false,
    }
}
