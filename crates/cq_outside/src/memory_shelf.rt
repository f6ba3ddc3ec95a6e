// Shelves of files in memory: one that never fails, and one whose loads fail where told.
ghost use Rattle.std.specs.Prelude.{◌≡◌, ◌↔◌, ℕ, List, None, Some, IfOk, IsErrOf, OnErr, OnOk};

use crate::calls::Calls;
use crate::{SIZE_LIMIT, Shelf, ShelfFault};
use std::alloc::{AllocError, Global};
use std::collections::BTreeMap;

/// Files in memory. No load fails.
#[derive(Drop)]
pub struct SteadyShelf {
    alloc: Global,
    files: BTreeMap<String, Vec<u8>>,
    refused: u64,
}

impl SteadyShelf {
    ghost use Rattle.cq_outside.specs.Memory.{steady_shelf_files, steady_shelf_refused};
    ghost use Rattle.cq_outside.specs.Files.{IsBare, Puts};

    /// A shelf with no file.
    pub fn new(alloc: Global) -> Self
        ensures files { IsBare (steady_shelf_files result) }
        ensures refused { steady_shelf_refused result ≡ 0 }
    {
        SteadyShelf {
            alloc,
            files: BTreeMap::new(alloc),
            refused: 0,
        }
    }

    /// Puts a file in, in place of one that had its name.
    pub fn add(&mut self, name: &str, bytes: &[u8]) -> Result<(), AllocError>
        ensures ok { OnOk result (Puts (steady_shelf_files self.old) (steady_shelf_files self.new) name.now bytes.now) }
        ensures err { OnErr result (steady_shelf_files self.new ≡ steady_shelf_files self.old) }
        ensures counts { steady_shelf_refused self.new ≡ steady_shelf_refused self.old }
    {
        let name = String::from_str(self.alloc, name)?;
        let bytes = bytes.to_vec(self.alloc)?;
        self.files.insert(name, bytes)?;
        Ok(())
    }
}

impl Shelf for SteadyShelf {
    ghost use Rattle.cq_outside.specs.Memory.{files_of};

    ghost files = { λ s. Some (files_of s.files) };

    ghost faults = { λ _. 0 };

    ghost refused = { λ s. s.refused };

    fn load(&mut self, alloc: Global, name: &str) -> Result<Vec<u8>, ShelfFault> {
        let fault = match self.files.get(name) {
            Some(bytes) if bytes.len() <= SIZE_LIMIT => return Ok(bytes.to_vec(alloc)?),
            Some(_) => ShelfFault::TooLarge,
            None => ShelfFault::Absent,
        };
        self.refused = self.refused.saturating_add(1);
        Err(fault)
    }
}

/// Files in memory. The loads that it is told to fail look at no file.
#[derive(Drop)]
pub struct MemShelf {
    files: SteadyShelf,
    calls: Calls,
}

impl MemShelf {
    ghost use Rattle.cq_outside.specs.Memory.{shelf_files, shelf_refused, shelf_calls};
    ghost use Rattle.cq_outside.specs.Calls.{AreToFail};
    ghost use Rattle.cq_outside.specs.Files.{IsBare, Puts};

    /// A shelf with no file. The loads with these numbers, counted from 1, fail.
    pub fn new(alloc: Global, fails: &[u64]) -> Result<Self, AllocError>
        ensures files { IfOk result (λ shelf. IsBare (shelf_files shelf)) }
        ensures fails { IfOk result (λ shelf. AreToFail fails.now (shelf_calls shelf)) }
        ensures refused { IfOk result (λ shelf. shelf_refused shelf ≡ 0) }
    {
        Ok(MemShelf {
            files: SteadyShelf::new(alloc),
            calls: Calls::new(alloc, fails)?,
        })
    }

    /// Puts a file in, in place of one that had its name.
    pub fn add(&mut self, name: &str, bytes: &[u8]) -> Result<(), AllocError>
        ensures ok { OnOk result (Puts (shelf_files self.old) (shelf_files self.new) name.now bytes.now) }
        ensures err { OnErr result (shelf_files self.new ≡ shelf_files self.old) }
        ensures refused { shelf_refused self.new ≡ shelf_refused self.old }
        ensures calls { shelf_calls self.new ≡ shelf_calls self.old }
    {
        self.files.add(name, bytes)
    }
}

impl Shelf for MemShelf {
    ghost use Rattle.cq_outside.specs.Memory.{files_of};

    ghost files = { λ s. Some (files_of s.files.files) };

    ghost faults = { λ s. s.calls.faults };

    ghost refused = { λ s. s.files.refused };

    ghost use Rattle.cq_outside.specs.Files.{Loads, CountsFault, CountsRefusal};
    ghost use Rattle.cq_outside.specs.Calls.{IsNext, NextFails};
    ghost use Rattle.cq_outside.specs.Memory.{shelf_files, shelf_refused, shelf_calls};

    fn load(&mut self, alloc: Global, name: &str) -> Result<Vec<u8>, ShelfFault>
        ensures same { shelf_files self.new ≡ shelf_files self.old }
        ensures bytes { Loads (Some (shelf_files self.old)) name.now result }
        ensures cause { CountsFault (shelf_calls self.old).faults (shelf_calls self.new).faults result }
        ensures refuses { CountsRefusal (shelf_refused self.old) (shelf_refused self.new) result }
        ensures fails { IsErrOf result ShelfFault.Failed ↔ NextFails (shelf_calls self.old) }
        ensures next { IsNext (shelf_calls self.old) (shelf_calls self.new) }
    {
        if self.calls.next_fails() {
            return Err(ShelfFault::Failed);
        }
        self.files.load(alloc, name)
    }
}
