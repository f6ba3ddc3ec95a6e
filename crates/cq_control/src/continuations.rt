// What a search has still to do, as cells that share their rest.

ghost use Rattle.std.specs.Prelude.{◌≡◌, ◌+◌, ◌<◌, ◌≤◌, ◌++◌, [], ◌∷◌, length, IfSome, IfNone, IfOk, IsOk, OnOk, OnErr};
ghost use Rattle.cq_control.specs.Items.{items_at};

use cq_trail::{Mark, Stack, Undo};
use std::alloc::{AllocError, Global};
use std::marker::Model;

/// A continuation by its number: they are numbered in the order in which they are made, and the one with nothing to do
/// is the first.
#[derive(Clone, Copy, PartialEq, Eq)]
pub struct Continuation {
    number: usize,
}

impl Model for Continuation {
    ghost use Rattle.std.specs.Prelude.{ℕ};

    ghost Value = { ℕ };

    ghost view = { λ k. k.number };

    ghost inverse = { λ n. record { number = n } };
}

impl Continuation {
    /// The continuation with nothing to do.
    pub fn done() -> Self
        ensures { result ≡ 0 }
    {
        Continuation { number: 0 }
    }
}

/// One thing to do, and the number of the continuation behind it.
#[derive(Clone, Copy, Drop)]
pub struct Cell<T> {
    item: T,
    rest: usize,
}

/// What a search has still to do, in lists that share their rest: one more in front of another takes one cell. They
/// are undone by their number alone, and those that were made since are gone.
#[derive(Drop)]
pub struct Continuations<T> {
    cells: Stack<Cell<T>>,
}

impl<T> Model for Continuations<T> {
    ghost use Rattle.cq_control.specs.Items.{ContinuationsValue};
    ghost use Rattle.cq_control.specs.Cells.{continuations_value, AreCells};

    ghost Value = { ContinuationsValue T };

    ghost view = { λ s. continuations_value s.cells };

    ghost invariant = { λ s. AreCells s.cells };
}

impl<T: Copy + Drop> Continuations<T> {
    /// The continuation with nothing to do alone. It takes no memory.
    pub fn new(alloc: Global) -> Self
        ensures now { result.now ≡ [] ∷ [] }
        ensures saved { result.saved ≡ [] }
    {
        Continuations {
            cells: Stack::new(alloc),
        }
    }

    /// How many continuations there are beside the one with nothing to do.
    pub fn made(&self) -> usize
        ensures { result + 1 ≡ length self.now.now }
    {
        self.cells.len()
    }

    /// One more thing to do, in front of another continuation.
    pub fn before(&mut self, item: T, rest: Continuation) -> Result<Continuation, AllocError>
        requires { rest < length self.old.now }
        ensures number { IfOk result (λ k. k ≡ length self.old.now) }
        ensures now { OnOk result (self.new.now ≡ self.old.now ++ (item ∷ items_at self.old.now rest) ∷ []) }
        ensures err { OnErr result (self.new.now ≡ self.old.now) }
        ensures prepared { 0 < self.old.ready → IsOk result }
        ensures ready { self.old.ready ≤ self.new.ready + 1 }
        ensures saved { self.new.saved ≡ self.old.saved }
        ensures room { self.old.room ≤ self.new.room }
    {
        self.cells.push(Cell {
            item,
            rest: rest.number,
        })?;
        Ok(Continuation {
            number: self.cells.len(),
        })
    }

    /// What is to be done first, and the continuation behind it; None where nothing is to be done.
    pub fn first(&self, of: Continuation) -> Option<(T, Continuation)>
        requires { of < length self.now.now }
        ensures none { IfNone result (items_at self.now.now of ≡ []) }
        ensures some { IfSome result (λ r. items_at self.now.now of ≡ r.0 ∷ items_at self.now.now r.1) }
        ensures earlier { IfSome result (λ r. r.1 < of) }
    {
        let cells = self.cells.as_slice();
        if of.number == 0 {
            return None;
        }
        let cell = cells[of.number - 1];
        Some((cell.item, Continuation { number: cell.rest }))
    }

    /// Sets memory aside for `n` more continuations, so that several can be made together or not at all.
    pub fn reserve_cells(&mut self, n: usize) -> Result<(), AllocError>
        ensures ok { OnOk result (n ≤ self.new.ready) }
        ensures ready { self.old.ready ≤ self.new.ready }
        ensures now { self.new.now ≡ self.old.now }
        ensures saved { self.new.saved ≡ self.old.saved }
        ensures room { self.old.room ≤ self.new.room }
    {
        self.cells.reserve_places(n)?;
        Ok(())
    }
}

impl<T: Copy + Drop> Undo for Continuations<T> {
    ghost use Rattle.std.specs.Prelude.{List};

    /// What each continuation has to do.
    ghost Value = { List (List T) };

    ghost now = { λ s. s.now };

    ghost saved = { λ s. s.saved };

    ghost room = { λ s. s.room };

    fn mark(&mut self) -> Result<Mark, AllocError> {
        let m = self.cells.mark()?;
        Ok(m)
    }

    fn undo(&mut self, m: Mark) {
        self.cells.undo(m);
    }

    fn forget(&mut self, m: Mark) {
        self.cells.forget(m);
    }

    fn reserve(&mut self, n: usize) -> Result<(), AllocError> {
        self.cells.reserve(n)?;
        Ok(())
    }

    fn spare(&self) -> usize {
        self.cells.spare()
    }
}
