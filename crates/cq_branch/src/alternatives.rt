// What a search has still to try.

ghost use Rattle.std.specs.Prelude.{◌≡◌, ◌∷◌, ◌++◌, [], OnOk, OnErr};

use cq_clauses::Walk;
use cq_control::{Continuation, Continuations};
use cq_predicates::Solutions;
use cq_resolve::stored::StoredTerm;
use cq_settle::world::World;
use cq_term::TermId;
use cq_trail::Both;
use spec_engine::machine::Cell;
use std::alloc::{AllocError, Global};
use std::marker::Model;

/// The clauses of a call that were not tried. Contracts see the walk over them.
#[derive(Clone, Copy)]
pub struct Untried {
    walk: Walk,
}

impl Model for Untried {
    ghost use Rattle.cq_clauses.specs.declared.walk.Walk.{Walk};

    ghost Value = { Walk };

    ghost view = { λ untried. untried.walk };

    ghost inverse = { λ walk. record { walk = walk } };
}

impl Untried {
    /// The clauses that a walk leaves.
    pub fn new(walk: Walk) -> Self
        ensures { result ≡ walk }
    {
        Untried { walk }
    }

    /// The walk over them.
    pub fn walk(&self) -> Walk
        ensures { result ≡ self.now }
    {
        self.walk
    }
}

/// The copies that a findall has gathered so far, the oldest first.
#[derive(Drop)]
pub struct Gathered {
    copies: Vec<StoredTerm>,
}

impl Model for Gathered {
    ghost use Rattle.std.specs.Prelude.{List};
    ghost use Rattle.std.specs.Coded.{coded_list};
    ghost use Rattle.cq_resolve.specs.StoredValue.{StoredValue, stored_code};

    ghost Value = { List StoredValue };

    ghost coded = { coded_list stored_code };

    ghost view = { λ gathered. gathered.copies.items };
}

impl Gathered {
    /// None yet; it takes no memory until the first is added.
    pub fn new(alloc: Global) -> Self
        ensures { result ≡ [] }
    {
        Gathered {
            copies: Vec::new(alloc),
        }
    }

    /// One more.
    pub fn push(&mut self, copy: StoredTerm) -> Result<(), AllocError>
        ensures ok { OnOk result (self.new ≡ self.old ++ copy ∷ []) }
        ensures err { OnErr result (self.new ≡ self.old) }
    {
        self.copies.push(copy)?;
        Ok(())
    }

    /// All of them.
    pub fn copies(&self) -> &[StoredTerm]
        ensures { result.now ≡ self.now }
    {
        &self.copies
    }
}

/// What a choice leaves to try.
#[derive(Drop)]
pub enum Alternatives {
    /// One branch, which goes on with a continuation.
    One(Continuation),
    /// The clauses of a call that were not tried: its goal, and the continuation behind it.
    Clauses(TermId, Untried, Continuation),
    /// The alternatives of a predicate that were not tried, and the continuation behind its goal.
    Ways(Solutions, Continuation),
    /// No branch: the choice keeps a world to go back to.
    Barrier,
    /// No branch: the choice keeps the world of a catch's call, and the continuation behind the catch.
    Catches(Continuation),
    /// The branch that a catch saved, with a ball: the ball, the catch's catcher and recovery, and the continuation behind it.
    Caught(StoredTerm, TermId, TermId, Continuation),
    /// A findall's own saved branch: the term that the list is unified with, the copies so far, and the continuation behind
    /// the goal.
    Gathers(TermId, Gathered, Continuation),
    /// The clauses that were not compared with one that is asked for: the term of that one, whether a clause is removed once
    /// its branch is kept, and the continuation behind the goal.
    Matches(TermId, Untried, bool, Continuation),
}

/// The world of a search, and what each continuation has to do: both go back to a choice together.
pub type Searching = Both<World, Continuations<Cell>>;
