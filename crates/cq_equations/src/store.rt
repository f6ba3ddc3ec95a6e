//! The store: equations told one by one, kept in solved form.

ghost use Rattle.std.specs.Prelude.{◌≡◌, ◌↔◌, ◌<◌, ℕ, List, [], ◌∷◌, ◌++◌, length, map, slice_get, IfOk, OnOk, OnErr, IsTrue, MatchOption};
ghost use Rattle.spec_numbers.specs.Sums.{Monomial};
ghost use Rattle.spec_linear.specs.Form.{Linear};
ghost use Rattle.spec_linear.specs.Solution.{Has, Solvable, Unsolvable, Fixed};
ghost use Rattle.spec_linear.specs.declared.Relation.TheVariants.{Eq};
ghost use Rattle.spec_linear.specs.SolvedForm.{IsSolvedForm, NotFixed};
ghost use Rattle.cq_frac.specs.declared.Pair.{Pair};
ghost use Rattle.cq_equations.specs.declared.store.StoreFault.TheVariants.{NoMemory};
ghost use Rattle.cq_equations.specs.Faults.{IsStoreFault};
ghost use Rattle.cq_equations.specs.Told.{numbers_of, AreNewlyFixed, new_variables, CallMakes};

use crate::entering::{Entered, enter};
use crate::table::{SolvedRow, Table};
use cq_form::{Cert, Constraint};
use cq_frac::{Frac, Pair, Refusal, VarId};
use cq_trail::Undo;
use std::alloc::{AllocError, Global};
use std::marker::Model;
use thiserror::Error;

/// What became of a constraint.
#[derive(Drop)]
pub enum Told {
    /// It was kept, and these variables have got a value by it.
    Kept(Vec<VarId>),
    /// It can't hold together with the told list. (The certificate is empty for now.)
    Unsolvable(Cert),
}

/// Why a store does not answer.
#[derive(Clone, Copy, Debug, Error)]
pub enum StoreFault {
    #[error("a number past 128 bits")]
    Overflow(Pair),
    #[error("more than {0} exchanges")]
    Pivots(u64),
    #[error("out of memory")]
    NoMemory,
}

impl From<AllocError> for StoreFault {
    ghost from_gives = { λ _ fault. fault ≡ NoMemory };

    fn from(_: AllocError) -> StoreFault {
        StoreFault::NoMemory
    }
}

impl From<Refusal> for StoreFault {
    ghost from_gives = { IsStoreFault };

    fn from(refusal: Refusal) -> StoreFault {
        match refusal {
            Refusal::Overflow(pair) => StoreFault::Overflow(pair),
            Refusal::NoMemory => StoreFault::NoMemory,
        }
    }
}

/// Linear equations, told one by one, in solved form: each variable is free or a form of free variables behind it.
#[derive(Drop)]
pub struct Store {
    alloc: Global,
    pivots: u64,
    told: Vec<Constraint>,
    table: Table,
}

impl Model for Store {
    ghost use Rattle.cq_equations.specs.Contents.{Contents, IsStored};

    ghost Value = { Contents };

    ghost view = { λ s. record { pivots = s.pivots; told = s.told.items; table = s.table.now } };

    ghost invariant = { λ s. IsStored s.told.items s.table.now };
}

impl Store {
    ghost use Rattle.cq_equations.specs.Contents.{told_of, order_of, solved_of, number_in};
    ghost use Rattle.cq_equations.specs.Answers.{IfKept, IfUnsolvable};

    /// An empty store. A call may make as many exchanges as `pivots` says.
    pub fn new(alloc: Global, pivots: u64) -> Store
        ensures { result ≡ record { pivots = pivots; told = []; table = record { names = []; roles = [] } } }
    {
        Store {
            alloc,
            pivots,
            told: Vec::new(alloc),
            table: Table::new(alloc),
        }
    }

    /// How many exchanges a call may make.
    pub fn pivots(&self) -> u64
        ensures { result ≡ self.now.pivots }
    {
        self.pivots
    }

    /// The told constraints, in the order of telling.
    pub fn told(&self) -> &[Constraint]
        ensures told { result.now ≡ told_of self.now }
        ensures solved { IsSolvedForm (order_of self.now) (told_of self.now) (solved_of self.now) }
    {
        &self.told
    }

    /// The variables, in the order in which they became known.
    pub fn order(&self) -> &[VarId]
        ensures order { numbers_of result.now ≡ order_of self.now }
        ensures solved { IsSolvedForm (order_of self.now) (told_of self.now) (solved_of self.now) }
    {
        self.table.order()
    }

    /// The value that the told list gives the variable.
    pub fn value(&self, x: VarId) -> Option<Frac>
        ensures fixed { MatchOption result (NotFixed (told_of self.now) x.0) (λ q. Fixed (told_of self.now) x.0 q) }
        ensures number { result ≡ number_in (solved_of self.now x.0) }
    {
        let Store { table, .. } = self;
        table.value(x)
    }

    /// The form of the variable, if it is solved for.
    pub fn row(&self, x: VarId) -> Option<SolvedRow<'_>>
        ensures row { result ≡ solved_of self.now x.0 }
        ensures solved { IsSolvedForm (order_of self.now) (told_of self.now) (solved_of self.now) }
    {
        self.table.solved_row(x)
    }

    /// Makes the variable known: it is free, and the last in the order.
    pub fn add_variable(&mut self, x: VarId) -> Result<(), AllocError>
        requires { Has x.0 (order_of self.old) → ⊥ }
        ensures order { OnOk result (order_of self.new ≡ order_of self.old ++ x.0 ∷ []) }
        ensures told { told_of self.new ≡ told_of self.old }
        ensures solved { (y : ℕ) → solved_of self.new y ≡ solved_of self.old y }
        ensures pivots { self.new.pivots ≡ self.old.pivots }
        ensures err { OnErr result (self.new ≡ self.old) }
    {
        self.table.add_variable(x)?;
        Ok(())
    }

    /// Tells the equation. Its new variables become known, in ascending order behind the others.
    ///
    /// Its form is added to the table variable by variable, in ascending order, and its row is exchanged with the first
    /// free variable in it. After an error, and where the equation can't hold, the store is as at the call.
    pub fn tell(&mut self, c: Constraint) -> Result<Told, StoreFault>
        requires { c.relation ≡ Eq }
        ensures kept { IfOk result (λ t. IfKept t (λ fixed. Solvable (told_of self.new) × (told_of self.new ≡ told_of self.old ++ c ∷ []))) }
        ensures fixed { IfOk result (λ t. IfKept t (λ fixed. AreNewlyFixed (told_of self.old) (told_of self.new) (numbers_of fixed))) }
        ensures order { IfOk result (λ t. IfKept t (λ fixed. order_of self.new ≡ order_of self.old ++ new_variables (order_of self.old) c.form)) }

        ensures unsolvable { IfOk result (λ t. IfUnsolvable t (λ cert. Unsolvable (told_of self.old ++ c ∷ []) × (cert ≡ []) × (self.new ≡ self.old))) }

        ensures overflow { (pair : Pair) → result ≡ Err (StoreFault.Overflow pair) → CallMakes (told_of self.old) (order_of self.old) c pair }
        // An equation takes one exchange.
        ensures pivots { (n : ℕ) → result ≡ Err (StoreFault.Pivots n) → ⊥ }
        ensures err { OnErr result (self.new ≡ self.old) }

        ensures budget { self.new.pivots ≡ self.old.pivots }
        ensures solved { IsSolvedForm (order_of self.new) (told_of self.new) (solved_of self.new) }
    {
        // so that nothing fails once the equation has joined
        self.told.reserve(1)?;
        let start = self.table.mark()?;
        match enter(self.alloc, &mut self.table, &c.form) {
            Ok(Entered::Joined(fixed)) => {
                self.table.forget(start);
                self.told.push(c).unwrap();
                Ok(Told::Kept(fixed))
            }
            Ok(Entered::Contradiction) => {
                self.table.undo(start);
                Ok(Told::Unsolvable(Cert::empty(self.alloc)))
            }
            Err(fault) => {
                self.table.undo(start);
                Err(fault)
            }
        }
    }
}
