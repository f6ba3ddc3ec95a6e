// What all texts define and declare.

ghost use Rattle.std.specs.Prelude.{◌≡◌, fold, OnOk};
ghost use Rattle.cq_lint.specs.Predicates.{with, with_some};

use crate::predicates::{Predicate, put};
use crate::sentences::{Clause, Sentence};
use std::alloc::{AllocError, Global};
use std::marker::Model;

/// The predicates that have clauses or are declared dynamic, and those whose clauses may stand apart, each once.
#[derive(Drop)]
pub struct Known {
    pub(crate) defined: Vec<Predicate>,
    pub(crate) scattered: Vec<Predicate>,
    alloc: Global,
}

impl Model for Known {
    ghost use Rattle.cq_lint.specs.Knowledge.{Knowledge};

    ghost Value = { Knowledge };

    ghost view = { λ k. record { defined = k.defined.items; scattered = k.scattered.items } };
}

impl Known {
    ghost use Rattle.cq_lint.specs.Findings.{known_by, known_with, known_with_all};
    ghost use Rattle.cq_lint.specs.Knowledge.{nothing_known};

    /// Nothing is known.
    pub fn new(alloc: Global) -> Known
        ensures { result ≡ nothing_known }
    {
        Known {
            defined: Vec::new(alloc),
            scattered: Vec::new(alloc),
            alloc,
        }
    }

    /// Adds what the sentences of a text define and declare.
    pub fn add_all(&mut self, sentences: &[Sentence]) -> Result<(), AllocError>
        ensures { OnOk result (self.new ≡ known_with_all self.old sentences.now) }
    {
        for sentence in sentences {
            self.add_sentence(sentence)?;
        }
        Ok(())
    }

    /// Adds what a sentence defines and declares.
    fn add_sentence(&mut self, sentence: &Sentence) -> Result<(), AllocError>
        ensures { OnOk result (self.new ≡ known_with self.old sentence.now) }
    {
        match sentence {
            Sentence::Fault(_) => Ok(()),
            Sentence::Clause(clause) => self.add(clause),
        }
    }

    /// Adds what a clause defines and declares.
    fn add(&mut self, clause: &Clause) -> Result<(), AllocError>
        ensures { OnOk result (self.new ≡ known_by self.old clause.now) }
    {
        put_some(&mut self.defined, &clause.head, self.alloc)?;
        put_copies(&mut self.defined, &clause.dynamic, self.alloc)?;
        put_copies(&mut self.scattered, &clause.scattered, self.alloc)
    }
}

/// Puts a predicate into a list that lacks it.
pub(crate) fn put_copy(
    predicates: &mut Vec<Predicate>,
    predicate: &Predicate,
    alloc: Global,
) -> Result<(), AllocError>
    ensures { OnOk result (predicates.new.items ≡ with predicates.old.items predicate.now) }
{
    let copy = predicate.copy(alloc)?;
    put(predicates, copy)
}

/// Puts a predicate, if there is one, into a list that lacks it.
fn put_some(
    predicates: &mut Vec<Predicate>,
    predicate: &Option<Predicate>,
    alloc: Global,
) -> Result<(), AllocError>
    ensures { OnOk result (predicates.new.items ≡ with_some predicates.old.items predicate.now) }
{
    match predicate {
        Some(predicate) => put_copy(predicates, predicate, alloc),
        None => Ok(()),
    }
}

/// Puts predicates into a list, each if it lacks it.
fn put_copies(
    predicates: &mut Vec<Predicate>,
    more: &[Predicate],
    alloc: Global,
) -> Result<(), AllocError>
    ensures { OnOk result (predicates.new.items ≡ fold with predicates.old.items more.now) }
{
    for predicate in more {
        put_copy(predicates, predicate, alloc)?;
    }
    Ok(())
}
