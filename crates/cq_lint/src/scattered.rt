// Clauses of a predicate that stand apart.

ghost use Rattle.std.specs.Prelude.{◌≡◌, Some, OnOk};
ghost use Rattle.cq_lint.specs.Findings.{is_apart, is_last, passed_with};
ghost use Rattle.cq_lint.specs.Knowledge.{nothing_passed};

use crate::known::{Known, put_copy};
use crate::predicates::{Predicate, has};
use std::alloc::{AllocError, Global};
use std::marker::Model;

/// The predicates of the clauses so far, each once, and that of the last one.
#[derive(Drop)]
pub struct Passed {
    predicates: Vec<Predicate>,
    last: Option<Predicate>,
    alloc: Global,
}

impl Model for Passed {
    ghost use Rattle.cq_lint.specs.Knowledge.{Heads};

    ghost Value = { Heads };

    ghost view = { λ p. record { predicates = p.predicates.items; last = p.last } };
}

impl Passed {
    /// No clause so far.
    pub fn new(alloc: Global) -> Passed
        ensures { result ≡ nothing_passed }
    {
        Passed {
            predicates: Vec::new(alloc),
            last: None,
            alloc,
        }
    }

    /// Whether a clause of the predicate came before, and then one of another, where its clauses may not stand apart.
    pub fn is_apart(&self, known: &Known, predicate: &Predicate) -> bool
        ensures { result ≡ is_apart known.now self.now predicate.now }
    {
        !self.is_last(predicate)
            && has(&self.predicates, predicate)
            && !has(&known.scattered, predicate)
    }

    /// Whether the last clause is of the predicate.
    fn is_last(&self, predicate: &Predicate) -> bool
        ensures { result ≡ is_last self.now predicate.now }
    {
        match &self.last {
            Some(last) => last.is(predicate),
            None => false,
        }
    }

    /// Passes a clause of the predicate.
    pub fn pass(&mut self, predicate: &Predicate) -> Result<(), AllocError>
        ensures { OnOk result (self.new ≡ passed_with self.old (Some predicate.now)) }
    {
        put_copy(&mut self.predicates, predicate, self.alloc)?;
        self.last = Some(predicate.copy(self.alloc)?);
        Ok(())
    }
}
