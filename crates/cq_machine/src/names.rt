// The names that an engine knows.

ghost use Rattle.std.specs.Prelude.{◌≡◌, Some, slice_get, IfOk};
ghost use Rattle.cq_ops.specs.Tables.{GainsNames};
ghost use Rattle.cq_machine.specs.Machines.{AreNames};

use cq_predicates::table::Builtins;
use cq_term::atoms::{Atom, Atoms, numbers_keep_their_texts};
use std::alloc::{AllocError, Global};

/// The names of goals and clauses that rows build, and those of the built-in predicates.
#[derive(Drop)]
pub struct Names {
    /// `true`
    pub truth: Atom,
    /// `\+`
    pub not: Atom,
    /// `=`
    pub equal: Atom,
    /// `once`
    pub once: Atom,
    /// `{}`
    pub curly: Atom,
    /// `:-`
    pub rule: Atom,
    /// What is built in, by the numbers of its names.
    pub builtins: Builtins,
}

impl Names {
    /// Finds or gives the numbers of these names.
    #[tactic(auto, using(crate::proofs::Interned::gains_then))]
    pub(crate) fn new(alloc: Global, atoms: &mut Atoms) -> Result<Names, AllocError>
        ensures names { IfOk result (AreNames atoms.new) }
        ensures gains { GainsNames atoms.old atoms.new }
    {
        let truth = numbered(atoms, "true")?;
        let not = numbered(atoms, "\\+")?;
        let equal = numbered(atoms, "=")?;
        let once = numbered(atoms, "once")?;
        let curly = numbered(atoms, "{}")?;
        let rule = numbered(atoms, ":-")?;
        let builtins = Builtins::new(alloc, atoms)?;
        Ok(Names {
            truth,
            not,
            equal,
            once,
            curly,
            rule,
            builtins,
        })
    }
}

/// Finds or gives the number of a name.
fn numbered(atoms: &mut Atoms, text: &str) -> Result<Atom, AllocError>
    ensures number { IfOk result (λ atom. slice_get atoms.new atom ≡ Some text.now) }
    ensures gains { GainsNames atoms.old atoms.new }
{
    numbers_keep_their_texts();
    let atom = atoms.intern(text)?;
    Ok(atom)
}
