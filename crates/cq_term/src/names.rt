// The small values that name terms and predicates.

ghost use Rattle.std.specs.Prelude.{◌≡◌, ◌++◌, [], ◌∷◌, List, take, OnOk, OnErr};

use crate::atoms::Atom;
use cq_frac::VarId;
use std::alloc::{AllocError, Global};
use std::marker::Model;

/// A term of a heap, by its number: the terms are numbered in the order in which they are made.
#[derive(Clone, Copy, Debug, PartialEq, Eq, PartialOrd, Ord, Hash)]
pub struct TermId {
    number: usize,
}

impl Model for TermId {
    ghost use Rattle.std.specs.Prelude.{ℕ};

    ghost Value = { ℕ };

    ghost view = { λ id. id.number };

    ghost inverse = { λ n. record { number = n } };
}

impl TermId {
    pub(crate) fn new(number: usize) -> TermId
        ensures { result ≡ number }
    {
        TermId { number }
    }

    pub(crate) fn index(self) -> usize
        ensures { result ≡ self }
    {
        self.number
    }
}

/// A predicate: its name and how many arguments it has.
#[derive(Clone, Copy, Debug, PartialEq, Eq, Hash)]
pub struct Pred {
    pub name: Atom,
    pub arity: usize,
}

/// The variables that were bound, in order.
#[derive(Drop)]
pub struct Newly {
    variables: Vec<VarId>,
}

impl Model for Newly {
    ghost use Rattle.std.specs.Prelude.{List};
    ghost use Rattle.cq_frac.specs.declared.VarId.{VarId};

    ghost Value = { List VarId };

    ghost view = { λ newly. newly.variables.items };
}

impl Newly {
    /// An empty list. It takes no memory.
    pub fn new(alloc: Global) -> Self
        ensures { result ≡ [] }
    {
        Newly {
            variables: Vec::new(alloc),
        }
    }

    /// Puts a variable at the end. Fails for want of memory, with the list as it was.
    pub fn push(&mut self, variable: VarId) -> Result<(), AllocError>
        ensures ok { OnOk result (self.new ≡ self.old ++ variable ∷ []) }
        ensures err { OnErr result (self.new ≡ self.old) }
    {
        self.variables.push(variable)?;
        Ok(())
    }

    /// Keeps the first `n`, or all where there are fewer.
    pub fn truncate(&mut self, n: usize)
        ensures { self.new ≡ take n self.old }
    {
        self.variables.truncate(n);
    }

    /// The variables in the order in which they were put in.
    pub fn as_slice(&self) -> &[VarId]
        ensures { result.now ≡ self.now }
    {
        &self.variables
    }
}
