// The arguments of compounds as work that is left, and the compounds whose arguments were added.

ghost use Rattle.std.specs.Prelude.{◌≡◌, ◌<◌, length, OnOk};
ghost use Rattle.cq_term.specs.Meaning.{at};
ghost use Rattle.cq_term.specs.Shown.{arguments};
ghost use Rattle.cq_term.specs.Arguments.{PushesArguments};
ghost use Rattle.cq_term.specs.Visits.{nothing_visited, VisitsArguments};

use crate::{Heap, TermId};
use indexmap::IndexSet;
use std::alloc::{AllocError, Global};
use std::marker::Model;

/// The compounds that a walk went into. A term whose parts stand at many places may be longer than any memory when it
/// is written out, so each compound is gone into once, but for the first sixty-four of a walk: those are not
/// looked up, since most terms are small.
#[derive(Drop)]
pub struct Visited {
    /// How many more compounds are not looked up.
    free: usize,
    known: IndexSet<TermId>,
}

impl Model for Visited {
    ghost use Rattle.cq_term.specs.Visits.{Visits};

    ghost Value = { Visits };

    ghost view = { λ v. record { free = v.free; known = v.known.keys } };
}

impl Visited {
    /// The start of a walk, which takes no memory.
    pub fn new(alloc: Global) -> Self
        ensures { result ≡ nothing_visited }
    {
        Visited {
            free: 64,
            known: IndexSet::new(alloc),
        }
    }

    /// Adds the arguments of a compound to the work, unless it is known to have no variable, or was visited before.
    pub fn visit(
        &mut self,
        heap: &Heap,
        id: TermId,
        arity: usize,
        work: &mut Vec<TermId>,
    ) -> Result<(), AllocError>
        requires live { id < length heap.now.now.terms }
        requires arity { length (arguments (at heap.now.now.terms id)) ≡ arity }
        ensures { OnOk result (VisitsArguments heap.now.now.terms id self.old self.new work.old.items work.new.items) }
    {
        if heap.is_ground(id) {
            return Ok(());
        }
        if self.free > 0 {
            self.free -= 1;
            return push_arguments(heap, id, arity, work);
        }
        let is_new = self.known.insert(id)?;
        if is_new {
            return push_arguments(heap, id, arity, work);
        }
        Ok(())
    }
}

/// Adds the arguments of a compound to the work, the last one first, so that the first is taken first.
#[inline(always)]
pub fn push_arguments(
    heap: &Heap,
    id: TermId,
    arity: usize,
    work: &mut Vec<TermId>,
) -> Result<(), AllocError>
    requires live { id < length heap.now.now.terms }
    requires arity { length (arguments (at heap.now.now.terms id)) ≡ arity }
    ensures { OnOk result (PushesArguments heap.now.now.terms (at heap.now.now.terms id) 0 work.old.items work.new.items) }
{
    let ids = heap.args(id);
    for i in (0..arity).rev() {
        work.push(ids[i])?;
    }
    Ok(())
}
