// The trait of values that go back to what they were at a mark.

ghost use Rattle.std.specs.Prelude.{◌≡◌, ◌+◌, ◌-◌, ◌<◌, ◌≤◌, ◌++◌, [], ◌∷◌, List, ℕ, length, take, slice_get, Some, IfOk, IsOk, OnOk, OnErr};

use std::alloc::AllocError;

/// Names a live mark: it is the number of marks that were live when it was made.
#[derive(Clone, Copy, PartialEq, Eq)]
pub struct Mark {
    pub number: usize,
}

/// A value with a stack of marks. A change alters the value alone, and a mark keeps the value that it was made at
/// until it is ended. Only `mark` and `reserve` may take memory.
pub trait Undo {
    /// What the marks keep.
    ghost Value: { Type 0 };

    ghost now: { Self → Value };

    /// The values at the live marks, the oldest first.
    ghost saved: { Self → List Value };

    /// How many marks find their memory set aside.
    ghost room: { Self → ℕ };

    /// Keeps the value. Where `spare` is above 0 this takes no memory, and so succeeds.
    fn mark(&mut self) -> Result<Mark, AllocError>
        ensures mark { IfOk result (λ m. m.number ≡ length (saved self.old)) }
        ensures saved { OnOk result (saved self.new ≡ saved self.old ++ now self.old ∷ []) }
        ensures now { now self.new ≡ now self.old }
        ensures err { OnErr result (saved self.new ≡ saved self.old) }
        ensures prepared { 0 < room self.old → IsOk result }
        ensures room { room self.old ≤ room self.new + 1 };

    /// Gives back the value of the mark, and ends it and all later marks.
    fn undo(&mut self, m: Mark)
        requires { m.number < length (saved self.old) }
        ensures now { slice_get (saved self.old) m.number ≡ Some (now self.new) }
        ensures saved { saved self.new ≡ take m.number (saved self.old) }

        // What the ended marks took is set aside again.
        ensures room { room self.old + (length (saved self.old) - m.number) ≤ room self.new };

    /// Ends the mark and all later marks, and leaves the value.
    fn forget(&mut self, m: Mark)
        requires { m.number < length (saved self.old) }
        ensures now { now self.new ≡ now self.old }
        ensures saved { saved self.new ≡ take m.number (saved self.old) }
        ensures room { room self.old + (length (saved self.old) - m.number) ≤ room self.new };

    /// Sets memory aside for `n` marks; where that is there already, this takes none.
    fn reserve(&mut self, n: usize) -> Result<(), AllocError>
        ensures ok { OnOk result (n ≤ room self.new) }
        ensures enough { n ≤ room self.old → IsOk result }
        ensures now { now self.new ≡ now self.old }
        ensures saved { saved self.new ≡ saved self.old }
        ensures room { room self.old ≤ room self.new };

    /// How many marks find their memory set aside.
    fn spare(&self) -> usize
        ensures { result ≡ room self.now };
}
