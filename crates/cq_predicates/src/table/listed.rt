// Built-in predicates by number.

ghost use Rattle.std.specs.Prelude.{◌≡◌, ℕ, [], Some, ◌==◌, cond, OnOk};
ghost use Rattle.cq_predicates.specs.Entries.{entry};

use crate::table::builtins::Builtin;
use std::alloc::{AllocError, Global};

/// Built-in predicates by the numbers of their names, up to the greatest of these.
#[derive(Drop)]
pub(crate) struct Entries {
    builtins: Vec<Option<Builtin>>,
}

impl Entries {
    /// None; it takes no memory.
    pub(crate) fn new(alloc: Global) -> Entries
        ensures { result.builtins.items ≡ [] }
    {
        Entries {
            builtins: Vec::new(alloc),
        }
    }

    /// What is at a number.
    pub(crate) fn get(&self, number: usize) -> Option<Builtin>
        ensures { result ≡ entry self.now number }
    {
        if number >= self.builtins.len() {
            return None;
        }
        self.builtins[number]
    }

    /// Puts a built-in predicate at a number.
    pub(crate) fn put(&mut self, number: usize, builtin: Builtin) -> Result<(), AllocError>
        ensures { OnOk result ((k : ℕ) → entry self.new k ≡ cond (k == number) (Some builtin) (entry self.old k)) }
    {
        while self.builtins.len() <= number {
            self.builtins.push(None)?;
        }
        self.builtins[number] = Some(builtin);
        Ok(())
    }
}
