// The indexes of procedures.

ghost use Rattle.std.specs.Prelude.{◌≡◌, List, Option, Some, [], length, slice_get, IfSome};
ghost use Rattle.cq_clauses.specs.Indexes.{IsIndex, HasGrown, HasPut};

use crate::index::Index;
use crate::key::Key;
use crate::list::End;
use std::alloc::{AllocError, Global};

/// The indexes that were made, by the number of the procedure.
#[derive(Drop)]
pub struct Indexes {
    list: Vec<Option<Index>>,
}

impl Indexes {
    /// No index; it takes no memory until the first is put.
    pub fn new(alloc: Global) -> Self
        ensures { result.list.items ≡ [] }
    {
        Indexes {
            list: Vec::new(alloc),
        }
    }

    /// The index of a procedure, where one was made.
    pub fn get(&self, procedure: usize) -> Option<&Index>
        ensures { IfSome result (λ index. slice_get self.now.list.items procedure ≡ Some (Some index.now)) }
    {
        match self.list.get(procedure) {
            Some(Some(index)) => Some(index),
            _ => None,
        }
    }

    /// Notes a clause that is added to a procedure, where it has an index. The index goes if memory is out.
    pub fn note(&mut self, procedure: usize, key: Option<Key>, end: End)
        requires { (index : Index) → slice_get self.old.list.items procedure ≡ Some (Some index) → (keys : List (Option Key)) × IsIndex index keys }
        ensures { HasGrown procedure key end self.old.list.items self.new.list.items }
    {
        if procedure >= self.list.len() {
            return;
        }
        let Some(mut index) = self.list[procedure].take() else {
            return;
        };
        if index.add(key, end).is_ok() {
            self.list[procedure] = Some(index);
        }
    }

    /// Puts the index of a procedure; after an error the procedure has none, or the one that it had.
    pub fn put(&mut self, procedure: usize, index: Index) -> Result<(), AllocError>
        ensures { HasPut procedure index self.old.list.items self.new.list.items }
    {
        while self.list.len() <= procedure {
            self.list.push(None)?;
        }
        self.list[procedure] = Some(index);
        Ok(())
    }
}
