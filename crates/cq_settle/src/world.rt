//! What a branch of the derivation knows, as one value that is changed and goes back to a mark.
#![tactic(auto)]

// Terms with their bindings, what waits for variables, and linear constraints, that are marked and undone together.

ghost use Rattle.std.specs.Prelude.{◌≡◌, [], length};

use cq_attr::Attrs;
use cq_store::store::Store;
use cq_term::Heap;
use cq_trail::{Mark, Undo};
use std::alloc::{AllocError, Global};

/// What a branch knows: terms with their bindings, which variables are numeric and what waits for which, and the linear
/// constraints that were told. The parts are changed through the fields, and marked through the world alone. `mark` takes
/// constant time.
#[derive(Drop)]
pub struct World {
    pub heap: Heap,
    pub attrs: Attrs,
    pub store: Store,
    // Each mark of the world is one of every part.
    pub ghost attrs_together: { length attrs.saved ≡ length heap.saved },
    pub ghost store_together: { length store.saved ≡ length heap.saved },
}

impl World {
    ghost use Rattle.cq_settle.specs.Contents.{nothing};
    ghost use Rattle.cq_settle.specs.Worlds.{now_of, saved_of};

    /// A world that knows nothing, of which a call may make as many exchanges as `pivots` says. It takes no memory.
    pub fn new(alloc: Global, pivots: u64) -> World
        ensures now { now_of result ≡ nothing pivots }
        ensures saved { saved_of result ≡ [] }
    {
        World {
            heap: Heap::new(alloc),
            attrs: Attrs::new(alloc),
            store: Store::new(alloc, pivots),
        }
    }
}

impl Undo for World {
    ghost use Rattle.cq_settle.specs.Contents.{Contents};
    ghost use Rattle.cq_settle.specs.Worlds.{now_of, saved_of, room_of};

    ghost Value = { Contents };

    ghost now = { now_of };

    ghost saved = { saved_of };

    ghost room = { room_of };

    #[inline(always)]
    fn mark(&mut self) -> Result<Mark, AllocError> {
        self.reserve(1)?;
        let m = self.heap.mark().unwrap();
        self.attrs.mark().unwrap();
        self.store.mark().unwrap();
        Ok(m)
    }

    fn undo(&mut self, m: Mark) {
        self.heap.undo(m);
        self.attrs.undo(m);
        self.store.undo(m);
    }

    #[inline(always)]
    fn forget(&mut self, m: Mark) {
        self.heap.forget(m);
        self.attrs.forget(m);
        self.store.forget(m);
    }

    fn reserve(&mut self, n: usize) -> Result<(), AllocError> {
        self.heap.reserve(n)?;
        self.attrs.reserve(n)?;
        self.store.reserve(n)
    }

    fn spare(&self) -> usize {
        let others = self.attrs.spare().min(self.store.spare());
        self.heap.spare().min(others)
    }
}
