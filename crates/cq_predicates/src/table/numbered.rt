// The built-in predicates by the numbers of their names.

ghost use Rattle.std.specs.Prelude.{◌≡◌, ◌<◌, List, Some, slice_get, length, IfOk};
ghost use Rattle.std.specs.Option.{option_map};
ghost use Rattle.spec_numbers.specs.Texts.{Text};
ghost use Rattle.cq_term.specs.Texts.{AreDifferent, KeepsTexts, text_of};
ghost use Rattle.spec_builtins.specs.Built.{indicator};
ghost use Rattle.spec_search.specs.Builtins.{builtin_of};
ghost use Rattle.cq_predicates.specs.TableNames.{as_builtin};
ghost use Rattle.cq_predicates.specs.Numbered.{AreBuiltins, AreWith};

use crate::table::builtins::{Builtin, rows};
use crate::table::listed::Entries;
use cq_term::Pred;
use cq_term::atoms::{Atom, Atoms, numbers_keep_their_texts};
use std::alloc::{AllocError, Global};

/// The built-in predicates by the numbers of their names, so that none is looked for by its text: a list for each number of arguments.
#[derive(Drop)]
pub struct Builtins {
    by_arity: Vec<Entries>,
}

impl Builtins {
    /// All of them; their names are given numbers.
    pub fn new(alloc: Global, atoms: &mut Atoms) -> Result<Builtins, AllocError>
        requires different { AreDifferent atoms.old }
        ensures are { IfOk result (AreBuiltins atoms.new) }
        ensures kept { KeepsTexts atoms.old atoms.new }
        ensures different { AreDifferent atoms.new }
    {
        let mut by_arity = Vec::new(alloc);
        for arity in 0..9 {
            let entries = entries_with(alloc, atoms, arity)?;
            by_arity.push(entries)?;
        }
        Ok(Builtins { by_arity })
    }

    /// What a predicate is, if it is built in.
    pub fn get(&self, pred: Pred) -> Option<Builtin>
        ensures { (texts : List Text) → AreBuiltins texts self.now → AreDifferent texts → pred.name < length texts
            → option_map as_builtin result ≡ builtin_of (indicator (text_of texts pred.name) pred.arity) }
    {
        let Pred { name, arity } = pred;
        if arity >= self.by_arity.len() {
            return None;
        }
        let number = name.index();
        self.by_arity[arity].get(number)
    }
}

/// Those with so many arguments; their names are given numbers.
fn entries_with(alloc: Global, atoms: &mut Atoms, arity: usize) -> Result<Entries, AllocError>
    requires different { AreDifferent atoms.old }
    ensures entries { IfOk result (AreWith atoms.new arity) }
    ensures kept { KeepsTexts atoms.old atoms.new }
    ensures different { AreDifferent atoms.new }
{
    let mut entries = Entries::new(alloc);
    for (name, builtin) in rows(arity) {
        let number = number_of(atoms, name)?;
        entries.put(number.index(), *builtin)?;
    }
    Ok(entries)
}

/// The number of a name, which it may be given here.
fn number_of(atoms: &mut Atoms, name: &str) -> Result<Atom, AllocError>
    ensures number { IfOk result (λ atom. slice_get atoms.new atom ≡ Some name.now) }
    ensures kept { KeepsTexts atoms.old atoms.new }
    ensures different { AreDifferent atoms.new }
{
    numbers_keep_their_texts();
    let number = atoms.intern(name)?;
    Ok(number)
}
