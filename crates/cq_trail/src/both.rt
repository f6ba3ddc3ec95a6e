// Two values that are marked and undone together.

ghost use Rattle.std.specs.Prelude.{◌≡◌, List, length, min};
ghost use Rattle.std.specs.List.{zip};

use crate::undo::{Mark, Undo};
use std::alloc::AllocError;

/// Two values with the same marks. Their parts are changed through the fields, and marked through the pair alone.
#[derive(Drop)]
pub struct Both<A: Undo, B: Undo> {
    pub first: A,
    pub second: B,
    pub ghost together: { length (A.saved first) ≡ length (B.saved second) },
}

impl<A: Undo, B: Undo> Undo for Both<A, B> {
    ghost Value = { A.Value × B.Value };

    ghost now = { λ s. (A.now s.first, B.now s.second) };

    ghost saved = { λ s. zip (A.saved s.first) (B.saved s.second) };

    ghost room = { λ s. min (A.room s.first) (B.room s.second) };

    #[inline(always)]
    fn mark(&mut self) -> Result<Mark, AllocError> {
        let m = self.first.mark()?;
        match self.second.mark() {
            Ok(_) => Ok(m),
            Err(e) => {
                self.first.forget(m);
                Err(e)
            }
        }
    }

    fn undo(&mut self, m: Mark) {
        self.first.undo(m);
        self.second.undo(m);
    }

    #[inline(always)]
    fn forget(&mut self, m: Mark) {
        self.first.forget(m);
        self.second.forget(m);
    }

    fn reserve(&mut self, n: usize) -> Result<(), AllocError> {
        self.first.reserve(n)?;
        self.second.reserve(n)?;
        Ok(())
    }

    fn spare(&self) -> usize {
        self.first.spare().min(self.second.spare())
    }
}
