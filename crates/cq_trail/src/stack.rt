// A list that only grows, and goes back to what it was at a mark by its length alone.

ghost use Rattle.cq_trail.specs.StackValue.{cut_at};
ghost use Rattle.std.specs.Prelude.{◌≡◌, ◌+◌, ◌-◌, ◌<◌, ◌≤◌, ◌↔◌, ◌++◌, [], ◌∷◌, List, length, take, slice_get, Some, IsTrue, IsOk, IfOk, OnOk, OnErr};

use crate::undo::{Mark, Undo};
use std::alloc::{AllocError, Global};
use std::marker::Model;

/// A list that grows at its end alone, and is cut off at `undo`: a mark is its length, and no value is ever put aside.
/// `mark` takes constant time, `undo` the time of dropping what was added since.
#[derive(Drop)]
pub struct Stack<T> {
    items: Vec<T>,
    /// How long the list was at each live mark, the oldest first.
    marks: Vec<usize>,
}

impl<T> Model for Stack<T> {
    ghost use Rattle.cq_trail.specs.StackValue.{StackValue, IsStack, stack_value};
    ghost use Rattle.std.specs.Prelude.{vec_capacity, vec_len, ◌-◌};

    ghost Value = { StackValue T };

    ghost view = { λ s. stack_value s.items.items s.marks.items (vec_capacity s.marks - vec_len s.marks) (vec_capacity s.items - vec_len s.items) };

    ghost invariant = { λ s. IsStack s.items.items s.marks.items };
}

impl<T: Drop> Stack<T> {
    /// An empty list without marks. It takes no memory.
    pub fn new(alloc: Global) -> Self
        ensures now { result.now ≡ [] }
        ensures saved { result.saved ≡ [] }
    {
        Stack {
            items: Vec::new(alloc),
            marks: Vec::new(alloc),
        }
    }

    /// How many values there are.
    pub fn len(&self) -> usize
        ensures { result ≡ length self.now.now }
    {
        self.items.len()
    }

    /// Whether there is no value.
    pub fn is_empty(&self) -> bool
        ensures { IsTrue result ↔ (length self.now.now ≡ 0) }
    {
        self.items.is_empty()
    }

    /// The value of a place, counted from 0.
    pub fn get(&self, at: usize) -> &T
        requires { at < length self.now.now }
        ensures { slice_get self.now.now at ≡ Some result.now }
    {
        &self.items[at]
    }

    /// All values, by place.
    pub fn as_slice(&self) -> &[T]
        ensures { result.now ≡ self.now.now }
    {
        &self.items
    }

    /// Adds a value at the end.
    pub fn push(&mut self, value: T) -> Result<(), AllocError>
        ensures ok { OnOk result (self.new.now ≡ self.old.now ++ value ∷ []) }
        ensures err { OnErr result (self.new.now ≡ self.old.now) }
        ensures prepared { 0 < self.old.ready → IsOk result }
        ensures ready { self.old.ready ≤ self.new.ready + 1 }
        ensures saved { self.new.saved ≡ self.old.saved }
        ensures room { self.old.room ≤ self.new.room }
    {
        self.items.push(value)?;
        Ok(())
    }

    /// Sets memory aside for `n` new places, so that several lists can grow together or not at all.
    pub fn reserve_places(&mut self, n: usize) -> Result<(), AllocError>
        ensures ok { OnOk result (n ≤ self.new.ready) }
        ensures ready { self.old.ready ≤ self.new.ready }
        ensures now { self.new.now ≡ self.old.now }
        ensures saved { self.new.saved ≡ self.old.saved }
        ensures room { self.old.room ≤ self.new.room }
    {
        self.items.reserve(n)?;
        Ok(())
    }
}

impl<T: Drop> Undo for Stack<T> {
    ghost use Rattle.std.specs.Prelude.{List};

    ghost Value = { List T };

    ghost now = { λ s. s.now };

    ghost saved = { λ s. s.saved };

    ghost room = { λ s. s.room };

    fn mark(&mut self) -> Result<Mark, AllocError> {
        let number = self.marks.len();
        self.marks.push(self.items.len())?;
        Ok(Mark { number })
    }

    fn undo(&mut self, m: Mark) {
        self.items.truncate(self.marks[m.number]);
        self.marks.truncate(m.number);
    }

    fn forget(&mut self, m: Mark) {
        self.marks.truncate(m.number);
    }

    fn reserve(&mut self, n: usize) -> Result<(), AllocError> {
        self.marks.reserve(n)?;
        Ok(())
    }

    fn spare(&self) -> usize {
        self.marks.capacity() - self.marks.len()
    }
}
