//! Marks that are only counted until the value that they keep is to change.
#![tactic(auto)]

// A value whose marks are only counted until it is to change.

ghost use Rattle.cq_trail.specs.Counting.{counted, countable};
ghost use Rattle.std.specs.Prelude.{◌≡◌, ◌+◌, ◌^◌, ◌<◌, ◌≤◌, ◌++◌, [], ◌∷◌, List, length, IfOk, OnOk, OnErr};

use crate::{Mark, Undo};
use std::alloc::AllocError;

/// A value whose newest marks are only counted: they all keep what the value is now. `mark` takes constant time and no
/// memory. The value is changed through its field, once `put_marks` has put the counted marks on it; so memory may run out
/// at the first change behind marks, and not at the marks.
#[derive(Drop)]
pub struct Counted<T: Undo> {
    pub inner: T,
    /// How many marks are live.
    pub marks: usize,
    /// How many of them the value has itself: the oldest ones.
    pub own: usize,
    pub ghost own_marks: { own ≡ length (T.saved inner) },
    pub ghost within: { own ≤ marks },
    pub ghost fits: { marks < 2 ^ 64 },
}

impl<T: Undo> Counted<T> {
    /// Puts the counted marks on the value, which can then be changed. Fails for want of memory, with each mark as it was.
    pub fn put_marks(&mut self) -> Result<(), AllocError>
        ensures put { OnOk result (T.saved self.new.inner ≡ counted (T.saved self.old.inner) self.old.marks (T.now self.old.inner)) }
        ensures now { T.now self.new.inner ≡ T.now self.old.inner }
        ensures marks { self.new.marks ≡ self.old.marks }
        ensures saved { counted (T.saved self.new.inner) self.new.marks (T.now self.new.inner)
            ≡ counted (T.saved self.old.inner) self.old.marks (T.now self.old.inner) }
        ensures all { OnOk result (self.new.marks ≤ length (T.saved self.new.inner)) }
    {
        while self.own < self.marks {
            self.inner.mark()?;
            self.own += 1;
        }
        Ok(())
    }

    /// Marks the value itself, behind the counted marks, and it can then be changed. Fails for want of memory, with each
    /// mark as it was.
    pub fn begin(&mut self) -> Result<Mark, AllocError>
        ensures mark { IfOk result (λ m. m.number ≡ length (counted (T.saved self.old.inner) self.old.marks (T.now self.old.inner))) }
        ensures put { OnOk result (T.saved self.new.inner
            ≡ counted (T.saved self.old.inner) self.old.marks (T.now self.old.inner) ++ T.now self.old.inner ∷ []) }
        ensures all { OnOk result (self.new.marks ≤ length (T.saved self.new.inner)) }
        ensures now { T.now self.new.inner ≡ T.now self.old.inner }
        ensures room { countable self.old.marks ≤ countable self.new.marks + 1 }
        ensures err { OnErr result (counted (T.saved self.new.inner) self.new.marks (T.now self.new.inner)
            ≡ counted (T.saved self.old.inner) self.old.marks (T.now self.old.inner)) }
        ensures err_room { OnErr result (countable self.old.marks ≤ countable self.new.marks) }
    {
        let m = self.mark()?;
        match self.put_marks() {
            Ok(()) => Ok(m),
            Err(e) => {
                self.forget(m);
                Err(e)
            }
        }
    }
}

impl<T: Undo> Undo for Counted<T> {
    ghost Value = { T.Value };

    ghost now = { λ s. T.now s.inner };

    ghost saved = { λ s. counted (T.saved s.inner) s.marks (T.now s.inner) };

    ghost room = { λ s. countable s.marks };

    fn mark(&mut self) -> Result<Mark, AllocError> {
        let number = self.marks;
        if number == usize::MAX {
            return Err(AllocError);
        }
        self.marks = number + 1;
        Ok(Mark { number })
    }

    fn undo(&mut self, m: Mark) {
        self.marks = m.number;
        if m.number < self.own {
            self.inner.undo(m);
            self.own = m.number;
        }
    }

    fn forget(&mut self, m: Mark) {
        self.marks = m.number;
        if m.number < self.own {
            self.inner.forget(m);
            self.own = m.number;
        }
    }

    fn reserve(&mut self, n: usize) -> Result<(), AllocError> {
        if n <= self.spare() {
            Ok(())
        } else {
            Err(AllocError)
        }
    }

    fn spare(&self) -> usize {
        usize::MAX - self.marks
    }
}
