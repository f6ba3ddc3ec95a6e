// Which goal an error names.

ghost use Rattle.std.specs.Prelude.{◌≡◌, ◌<◌, length, codes, IfOk};
ghost use Rattle.spec_numbers.specs.Prefixes.{IsPrefix};
ghost use Rattle.spec_builtins.specs.Built.{indicator};
ghost use Rattle.cq_built.specs.Errors.{indicator_of};
ghost use Rattle.cq_term.specs.Trees.{tree, KnowsTerms};
ghost use Rattle.cq_engine.specs.Raised.{IsNumbered, raised_by, is_raised_by};

use cq_term::atoms::Atoms;
use cq_term::{Heap, Pred, TermId, View};
use std::alloc::AllocError;

/// Which goal an error names.
#[derive(Clone, Copy)]
pub(crate) enum Raiser {
    /// A goal of this predicate.
    Named(Pred),
    /// `call` of a term.
    Caller,
    /// A goal that is neither an atom nor a compound.
    Nameless,
}

/// How an error names a goal.
pub(crate) fn raiser_of(heap: &Heap, atoms: &Atoms, goal: TermId) -> Raiser
    requires live { goal < length heap.now.now.terms }
    requires names { KnowsTerms atoms.now heap.now.now.terms }
    ensures raised { is_raised_by atoms.now result (tree atoms.now heap.now.now.terms goal) }
    ensures numbered { IsNumbered atoms.now result }
{
    match heap.view(goal) {
        View::Name(name) => Raiser::Named(Pred { name, arity: 0 }),
        View::Compound(name, arity) => Raiser::Named(Pred { name, arity }),
        View::Var(_) => Raiser::Nameless,
        View::Number(_) => Raiser::Nameless,
    }
}

/// The predicate that an error names.
pub(crate) fn predicate_by(atoms: &mut Atoms, raiser: Raiser) -> Result<Pred, AllocError>
    requires { IsNumbered atoms.old raiser }
    ensures predicate { IfOk result (λ p. indicator_of atoms.new p ≡ raised_by atoms.old raiser) }
    ensures known { IfOk result (λ p. p.name < length atoms.new) }
    ensures longer { IsPrefix atoms.old atoms.new }
{
    match raiser {
        Raiser::Named(predicate) => Ok(predicate),
        Raiser::Caller => named(atoms, "call", 1),
        Raiser::Nameless => named(atoms, "", 0),
    }
}

/// The predicate of a name with so many arguments.
fn named(atoms: &mut Atoms, text: &str, arity: usize) -> Result<Pred, AllocError>
    ensures predicate { IfOk result (λ p. indicator_of atoms.new p ≡ indicator text.now arity) }
    ensures known { IfOk result (λ p. p.name < length atoms.new) }
    ensures longer { IsPrefix atoms.old atoms.new }
{
    let name = atoms.intern(text)?;
    Ok(Pred { name, arity })
}
