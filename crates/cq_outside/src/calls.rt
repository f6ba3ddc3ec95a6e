// Calls that are counted, of which some are to fail.
ghost use Rattle.std.specs.Prelude.{◌≡◌, ◌↔◌, IsTrue, IfOk, MatchBool};
ghost use Rattle.cq_outside.specs.Counts.{Rose};

use std::alloc::{AllocError, Global};

/// The calls made of an object in memory; those with these numbers, from 1, fail.
#[derive(Drop)]
pub struct Calls {
    fails: Vec<u64>,
    made: u64,
    pub faults: u64,
}

impl Calls {
    ghost use Rattle.cq_outside.specs.Calls.{AreToFail, IsNext, NextFails};

    /// The calls of an object in memory, of which those with the given numbers, counted from 1, fail. Fails for want of memory.
    pub fn new(alloc: Global, fails: &[u64]) -> Result<Self, AllocError>
        ensures { IfOk result (AreToFail fails.now) }
    {
        Ok(Calls {
            fails: fails.to_vec(alloc)?,
            made: 0,
            faults: 0,
        })
    }

    /// Counts one more call, and its fault if it is to fail; whether it is.
    pub fn next_fails(&mut self) -> bool
        ensures next { IsNext self.old self.new }
        ensures fails { IsTrue result ↔ NextFails self.old }
        ensures faults { MatchBool result (Rose self.old.faults self.new.faults) (self.new.faults ≡ self.old.faults) }
    {
        self.made = self.made.saturating_add(1);
        let fails = self.fails.contains(&self.made);
        if fails {
            self.count_fault();
        }
        fails
    }

    /// Counts one fault more.
    pub fn count_fault(&mut self)
        ensures faults { Rose self.old.faults self.new.faults }
        ensures others { self.new ≡ record self.old { faults = self.new.faults } }
    {
        self.faults = self.faults.saturating_add(1);
    }
}
