// The names that the grammar itself speaks of.

ghost use Rattle.std.specs.Prelude.{◌≡◌, Some, slice_get, IfOk};
ghost use Rattle.cq_term.specs.Texts.{KeepsTexts, AreDifferent};
ghost use Rattle.cq_read.specs.Known.{AreGrammarNames};

use cq_ops::Ops;
use cq_term::atoms::{Atom, Atoms};
use std::alloc::AllocError;

/// The number of a text, where older numbers keep theirs.
#[tactic(auto, using(crate::proofs::Interned::kept_by))]
pub fn interned(atoms: &mut Atoms, text: &str) -> Result<Atom, AllocError>
    ensures number { IfOk result (λ atom. slice_get atoms.new atom ≡ Some text.now) }
    ensures kept { KeepsTexts atoms.old atoms.new }
    ensures different { AreDifferent atoms.new }
{
    atoms.intern(text)
}

/// The numbers of `-`, `,`, `[]`, `{}` and `.`, which the grammar puts into terms or takes as operators by itself.
#[derive(Clone, Copy)]
pub struct GrammarNames {
    pub minus: Atom,
    pub comma: Atom,
    pub nil: Atom,
    pub curly: Atom,
    /// The name of a list's cells.
    pub dot: Atom,
}

impl GrammarNames {
    /// Gives each of them a number, where older numbers keep their texts. It fails where memory is wanting, alone.
    pub fn new(atoms: &mut Atoms) -> Result<GrammarNames, AllocError>
        ensures names { IfOk result (AreGrammarNames atoms.new) }
        ensures kept { KeepsTexts atoms.old atoms.new }
        ensures different { AreDifferent atoms.new }
    {
        let minus = interned(atoms, "-")?;
        let comma = interned(atoms, ",")?;
        let nil = interned(atoms, "[]")?;
        let curly = interned(atoms, "{}")?;
        let dot = interned(atoms, ".")?;
        Ok(GrammarNames {
            minus,
            comma,
            nil,
            curly,
            dot,
        })
    }
}

/// What a text is read by: its operators, and the names that the grammar itself speaks of.
#[derive(Clone, Copy)]
pub struct Grammar<'a> {
    pub ops: &'a Ops,
    pub names: &'a GrammarNames,
}
