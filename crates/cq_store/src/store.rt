//! The store: linear constraints of all relations, told one by one.

ghost use Rattle.std.specs.Prelude.{◌≡◌, ◌≤◌, ℕ, [], ◌∷◌, ◌++◌, length, Option, IfOk, IfSome, OnErr, MatchOption, MatchBool};
ghost use Rattle.spec_numbers.specs.Rational.{ℚ};
ghost use Rattle.spec_linear.specs.Solution.{Solvable, Unsolvable, Fixed, Fixes, Entails};
ghost use Rattle.spec_linear.specs.Extremes.{Leaves};
ghost use Rattle.spec_linear.specs.Weak.{at_least_zero};
ghost use Rattle.spec_linear.specs.Certificate.{Refutes};
ghost use Rattle.spec_simplex.specs.Asked.{NoQuestion};
ghost use Rattle.cq_frac.specs.declared.Pair.{Pair};
ghost use Rattle.cq_store.specs.declared.store.StoreFault.TheVariants.{Overflow, Pivots, NoMemory};
ghost use Rattle.cq_store.specs.Enough.{enough_for};
ghost use Rattle.cq_store.specs.Faults.{IsFaultOf, IsFaultOfSearch};
ghost use Rattle.cq_store.specs.Questions.{RefusesQuestion, SpendsQuestion};
ghost use Rattle.cq_tableau.specs.Newly.{AreNewlyFixed};
ghost use Rattle.cq_equations.specs.Told.{numbers_of};
ghost use Rattle.cq_store.specs.StoreValue.{IfKept, IfUnsolvable, IsExtent, IsDepth, MayRefuse, MayTake, Only};

use crate::entering::{Entered, Held, can_enter, enter};
use crate::reaching::reach;
use cq_dict::dict::Dict;
use cq_form::{Cert, Constraint, Form};
use cq_frac::{Frac, Pair, Refusal, VarId};
use cq_simplex::SimplexFault;
use cq_tableau::negating::{negated, opposite};
use cq_tableau::values::value_of;
use cq_trail::counted::Counted;
use cq_trail::{Both, Mark, Stack, Undo};
use indexmap::IndexMap;
use std::alloc::{AllocError, Global};
use std::marker::Model;
use thiserror::Error;

/// What became of a constraint.
#[derive(Drop)]
pub enum Told {
    /// It was kept, and these variables have got a value by it.
    Kept(Vec<VarId>),
    /// It can't hold together with the told list, as the certificate shows: the constraint is the last member there.
    Unsolvable(Cert),
}

/// How far a form reaches.
#[derive(Clone, Copy)]
pub enum Extent {
    /// Its supremum.
    Value(Frac),
    Unbounded,
}

/// Why a store does not answer.
#[derive(Clone, Copy, Debug, Error)]
pub enum StoreFault {
    #[error("a number past 128 bits")]
    Overflow(Pair),
    #[error("more than {0} exchanges")]
    Pivots(u64),
    #[error("out of memory")]
    NoMemory,
}

impl From<AllocError> for StoreFault {
    ghost from_gives = { λ _ fault. fault ≡ NoMemory };

    fn from(_: AllocError) -> StoreFault {
        StoreFault::NoMemory
    }
}

impl From<Refusal> for StoreFault {
    ghost from_gives = { IsFaultOf };

    fn from(refusal: Refusal) -> StoreFault {
        match refusal {
            Refusal::Overflow(pair) => StoreFault::Overflow(pair),
            Refusal::NoMemory => StoreFault::NoMemory,
        }
    }
}

impl From<SimplexFault> for StoreFault {
    ghost from_gives = { IsFaultOfSearch };

    fn from(fault: SimplexFault) -> StoreFault {
        match fault {
            SimplexFault::Overflow(pair) => StoreFault::Overflow(pair),
            SimplexFault::Pivots(n) => StoreFault::Pivots(n),
            SimplexFault::NoMemory => StoreFault::NoMemory,
        }
    }
}

/// Linear constraints that hold together. `mark` takes constant time and no memory; the first call behind marks that tells
/// or asks takes the time of these marks, and memory may run out there.
#[derive(Drop)]
pub struct Store {
    alloc: Global,
    pivots: u64,
    numbers: IndexMap<VarId, usize>,
    held: Counted<Held>,
}

impl Model for Store {
    ghost use Rattle.std.specs.Prelude.{map};
    ghost use Rattle.std.specs.List.{zip};
    ghost use Rattle.cq_trail.specs.Counting.{counted, countable};
    ghost use Rattle.cq_dict.specs.DictValue.{quantities_of};
    ghost use Rattle.cq_store.specs.Held.{IsHeld};
    ghost use Rattle.cq_store.specs.StoreValue.{StoreValue};

    ghost Value = { StoreValue };

    ghost view = { λ s. record {
      pivots = s.pivots;
      told = s.held.inner.first.now;
      saved = map (λ h. h.0) (counted (zip s.held.inner.first.saved (zip s.held.inner.second.first.saved s.held.inner.second.second.saved)) s.held.marks
          (s.held.inner.first.now, (s.held.inner.second.first.now, quantities_of s.held.inner.second.second)));
      room = countable s.held.marks;
    } };

    ghost invariant = { λ s.
        IsHeld (s.held.inner.first.now, (s.held.inner.second.first.now, quantities_of s.held.inner.second.second))
        (counted (zip s.held.inner.first.saved (zip s.held.inner.second.first.saved s.held.inner.second.second.saved)) s.held.marks
        (s.held.inner.first.now, (s.held.inner.second.first.now, quantities_of s.held.inner.second.second))) s.numbers.entries };
}

impl Store {
    /// An empty store. A search may make as many exchanges as `pivots` says, after a climb of as many at most.
    pub fn new(alloc: Global, pivots: u64) -> Store
        ensures told { result.told ≡ [] }
        ensures saved { result.saved ≡ [] }
        ensures pivots { result.pivots ≡ pivots }
    {
        let quantities = Both {
            first: Stack::new(alloc),
            second: Dict::new(alloc),
        };
        let held = Both {
            first: Stack::new(alloc),
            second: quantities,
        };
        Store {
            alloc,
            pivots,
            numbers: IndexMap::new(alloc),
            held: Counted {
                inner: held,
                marks: 0,
                own: 0,
            },
        }
    }

    /// How many exchanges a search may make.
    pub fn pivots(&self) -> u64
        ensures { result ≡ self.now.pivots }
    {
        self.pivots
    }

    /// The told constraints, in the order of telling.
    pub fn told(&self) -> &[Constraint]
        ensures told { result.now ≡ self.now.told }
        ensures solvable { Solvable self.now.told }
        ensures fixes { (fixed : ℕ → Option ℚ) × Fixes self.now.told fixed }
    {
        self.held.inner.first.as_slice()
    }

    /// The value that the told list gives the variable.
    pub fn value(&self, x: VarId) -> Option<Frac>
        ensures { MatchOption result ((q : ℚ) → Fixed self.now.told x.0 q → ⊥) (λ q. Fixed self.now.told x.0 q) }
    {
        let Store { numbers, held, .. } = self;
        let quantities = &held.inner.second;
        value_of(numbers, &quantities.first, &quantities.second, x)
    }

    /// Tells the constraint. After an error, and where it can't hold, the store is as at the call.
    pub fn tell(&mut self, c: Constraint) -> Result<Told, StoreFault>
        ensures kept { IfOk result (λ t. IfKept t (λ fixed. Solvable self.new.told × (self.new.told ≡ self.old.told ++ c ∷ []))) }
        ensures fixed { IfOk result (λ t. IfKept t (λ fixed. AreNewlyFixed self.old.told self.new.told (numbers_of fixed))) }
        ensures unsolvable { IfOk result (λ t. IfUnsolvable t (λ cert. Refutes cert (self.old.told ++ c ∷ []) × (self.new.told ≡ self.old.told))) }
        ensures overflow { (pair : Pair) → result ≡ Err (Overflow pair) → MayRefuse self.old.told (Only c) NoQuestion pair }
        ensures pivots { (n : ℕ) → result ≡ Err (Pivots n) → (n ≡ self.old.pivots) × MayTake self.old.told (Only c) NoQuestion n }
        ensures enough { enough_for self.old.told ≤ self.old.pivots → (n : ℕ) → result ≡ Err (Pivots n) → ⊥ }
        ensures err { OnErr result (self.new.told ≡ self.old.told) }
        ensures saved { self.new.saved ≡ self.old.saved }
        ensures room { self.old.room ≤ self.new.room }
        ensures budget { self.new.pivots ≡ self.old.pivots }
    {
        let start = self.held.begin()?;
        match enter(
            self.alloc,
            self.pivots,
            &mut self.numbers,
            &mut self.held.inner,
            c,
        ) {
            Ok(Entered::Joined(fixed)) => {
                self.held.forget(start);
                Ok(Told::Kept(fixed))
            }
            Ok(Entered::Contradiction(cert)) => {
                self.held.undo(start);
                Ok(Told::Unsolvable(cert))
            }
            Err(fault) => {
                self.held.undo(start);
                Err(fault)
            }
        }
    }

    /// Whether the constraint can hold together with the told list, which stays as it is.
    fn can_join(&mut self, c: Constraint) -> Result<bool, StoreFault>
        ensures solvable { IfOk result (λ yes. MatchBool yes (Solvable (self.old.told ++ c ∷ [])) (Unsolvable (self.old.told ++ c ∷ []))) }
        ensures overflow { (pair : Pair) → result ≡ Err (Overflow pair) → MayRefuse self.old.told (Only c) NoQuestion pair }
        ensures pivots { (n : ℕ) → result ≡ Err (Pivots n) → (n ≡ self.old.pivots) × MayTake self.old.told (Only c) NoQuestion n }
        ensures told { self.new.told ≡ self.old.told }
        ensures saved { self.new.saved ≡ self.old.saved }
        ensures room { self.old.room ≤ self.new.room }
        ensures budget { self.new.pivots ≡ self.old.pivots }
    {
        let start = self.held.begin()?;
        let joins = can_enter(
            self.alloc,
            self.pivots,
            &mut self.numbers,
            &mut self.held.inner,
            c,
        );
        self.held.undo(start);
        joins
    }

    /// Whether each solution of the told list satisfies the constraint, as the opposite tells that can't join. The told list stays.
    pub fn entailed(&mut self, c: &Constraint) -> Result<bool, StoreFault>
        ensures entailed { IfOk result (λ yes. MatchBool yes (Entails self.old.told c.now) (Leaves self.old.told c.now)) }
        ensures overflow { (pair : Pair) → result ≡ Err (Overflow pair) → MayRefuse self.old.told NoQuestion (Only c.now) pair }
        ensures pivots { (n : ℕ) → result ≡ Err (Pivots n) → (n ≡ self.old.pivots) × MayTake self.old.told NoQuestion (Only c.now) n }
        ensures enough { enough_for self.old.told ≤ self.old.pivots → (n : ℕ) → result ≡ Err (Pivots n) → ⊥ }
        ensures told { self.new.told ≡ self.old.told }
        ensures saved { self.new.saved ≡ self.old.saved }
        ensures room { self.old.room ≤ self.new.room }
        ensures budget { self.new.pivots ≡ self.old.pivots }
    {
        let denial = opposite(self.alloc, c)?;
        match self.can_join(denial) {
            Ok(joins) => Ok(!joins),
            Err(fault) => Err(fault),
        }
    }

    /// How far the form reaches, asked between a mark and its end.
    fn reached(&mut self, form: &Form) -> Result<Extent, StoreFault>
        ensures extent { IfOk result (λ e. IsExtent self.old.told form.now e) }
        ensures overflow { (pair : Pair) → result ≡ Err (Overflow pair) → RefusesQuestion self.old.told form.now pair }
        ensures pivots { (n : ℕ) → result ≡ Err (Pivots n) → SpendsQuestion self.old.told form.now n self.old.pivots }
        ensures told { self.new.told ≡ self.old.told }
        ensures saved { self.new.saved ≡ self.old.saved }
        ensures room { self.old.room ≤ self.new.room }
        ensures budget { self.new.pivots ≡ self.old.pivots }
    {
        let start = self.held.begin()?;
        let quantities = &mut self.held.inner.second;
        let extent = reach(
            self.alloc,
            self.pivots,
            &mut self.numbers,
            &mut quantities.first,
            &mut quantities.second,
            form,
        );
        self.held.undo(start);
        extent
    }

    /// How far the form reaches on the solutions of the told list. The told list stays.
    pub fn sup(&mut self, form: &Form) -> Result<Extent, StoreFault>
        ensures extent { IfOk result (λ e. IsExtent self.old.told form.now e) }
        ensures overflow { (pair : Pair) → result ≡ Err (Overflow pair) → MayRefuse self.old.told NoQuestion (Only (at_least_zero form.now)) pair }
        ensures pivots { (n : ℕ) → result ≡ Err (Pivots n) → (n ≡ self.old.pivots) × MayTake self.old.told NoQuestion (Only (at_least_zero form.now)) n }
        ensures enough { enough_for self.old.told ≤ self.old.pivots → (n : ℕ) → result ≡ Err (Pivots n) → ⊥ }
        ensures told { self.new.told ≡ self.old.told }
        ensures saved { self.new.saved ≡ self.old.saved }
        ensures room { self.old.room ≤ self.new.room }
        ensures budget { self.new.pivots ≡ self.old.pivots }
    {
        self.reached(form)
    }

    /// How far the form falls, as the supremum of its negative.
    pub fn inf(&mut self, form: &Form) -> Result<Extent, StoreFault>
        ensures extent { IfOk result (λ e. IsDepth self.old.told form.now e) }
        ensures overflow { (pair : Pair) → result ≡ Err (Overflow pair) → MayRefuse self.old.told NoQuestion (Only (at_least_zero form.now)) pair }
        ensures pivots { (n : ℕ) → result ≡ Err (Pivots n) → (n ≡ self.old.pivots) × MayTake self.old.told NoQuestion (Only (at_least_zero form.now)) n }
        ensures enough { enough_for self.old.told ≤ self.old.pivots → (n : ℕ) → result ≡ Err (Pivots n) → ⊥ }
        ensures told { self.new.told ≡ self.old.told }
        ensures saved { self.new.saved ≡ self.old.saved }
        ensures room { self.old.room ≤ self.new.room }
        ensures budget { self.new.pivots ≡ self.old.pivots }
    {
        let opposite = negated(self.alloc, form)?;
        let extent = self.reached(&opposite)?;
        match extent {
            Extent::Value(value) => Ok(Extent::Value(value.neg())),
            Extent::Unbounded => Ok(Extent::Unbounded),
        }
    }
}

impl Undo for Store {
    ghost use Rattle.std.specs.Prelude.{map};
    ghost use Rattle.cq_store.specs.StoreValue.{Kept, kept};

    ghost Value = { Kept };

    ghost now = { λ s. kept s.pivots s.told };

    ghost saved = { λ s. map (kept s.pivots) s.saved };

    ghost room = { λ s. s.room };

    fn mark(&mut self) -> Result<Mark, AllocError> {
        let m = self.held.mark()?;
        Ok(m)
    }

    fn undo(&mut self, m: Mark) {
        self.held.undo(m);
    }

    fn forget(&mut self, m: Mark) {
        self.held.forget(m);
    }

    fn reserve(&mut self, n: usize) -> Result<(), AllocError> {
        self.held.reserve(n)?;
        Ok(())
    }

    fn spare(&self) -> usize {
        self.held.spare()
    }
}
