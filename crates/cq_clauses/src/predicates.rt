// Predicates by number, found by their names without a hash.

ghost use Rattle.std.specs.Prelude.{◌≡◌, ◌+◌, ◌<◌, ◌≤◌, ◌++◌, false, [], ◌∷◌, ℕ, All, length, map, get_or, position, is_some, None, IfSome, OnOk};
ghost use Rattle.std.specs.List.{list_any};
ghost use Rattle.cq_clauses.specs.Database.{same_pred};
ghost use Rattle.cq_clauses.specs.Named.{pred_named, AreLinked, HasPlaces, Searches};

use cq_term::Pred;
use std::alloc::{AllocError, Global};
use std::marker::Model;
use std::mem;

/// A predicate, and the number of the one of the same name that was added before it.
#[derive(Clone, Copy)]
struct Named {
    pred: Pred,
    earlier: Option<usize>,
}

/// Predicates, numbered in the order in which they were added. From each name a chain leads through its own predicates, the
/// newest first, so that those of other names are never looked at.
#[derive(Drop)]
pub struct Predicates {
    /// By name, the number of its newest predicate.
    newest: Vec<Option<usize>>,
    named: Vec<Named>,
}

impl Model for Predicates {
    ghost use Rattle.std.specs.Prelude.{◌-◌, length, map, vec_capacity, vec_len};
    ghost use Rattle.cq_clauses.specs.Predicates.{PredicatesValue};
    ghost use Rattle.cq_clauses.specs.Named.{AreChained};

    ghost Value = { PredicatesValue };

    ghost view = { λ p. record {
      preds = map (λ n. n.pred) p.named.items;
      names = length p.newest.items;
      room = vec_capacity p.named - vec_len p.named;
    } };

    ghost invariant = { λ p. AreChained p.newest.items p.named.items };
}

impl Predicates {
    /// No predicates; it takes no memory until some is taken for the first.
    pub fn new(alloc: Global) -> Self
        ensures { result.preds ≡ [] }
    {
        Predicates {
            newest: Vec::new(alloc),
            named: Vec::new(alloc),
        }
    }

    /// The number of a predicate.
    pub fn find(&self, pred: &Pred) -> Option<usize>
        ensures value { result ≡ position (same_pred pred.now) self.now.preds }
        ensures found { is_some result ≡ list_any (same_pred pred.now) self.now.preds }
        ensures within { IfSome result (λ i. i < length self.now.preds) }
    {
        let newest = self.newest.get(pred.name.index()).copied().unwrap_or(None);
        find_from(&self.named, newest, pred)
    }

    /// Takes memory for these predicates to be added.
    pub fn reserve(&mut self, preds: &[Pred]) -> Result<(), AllocError>
        ensures same { self.new.preds ≡ self.old.preds }
        ensures room { OnOk result (length preds.now ≤ self.new.room) }
        ensures names { OnOk result (All (λ p. p.name < self.new.names) preds.now) }
    {
        self.named.reserve(preds.len())?;
        widen(&mut self.newest, preds)?;
        Ok(())
    }

    /// Adds a predicate, for which memory was taken.
    pub fn add(&mut self, pred: Pred)
        requires absent { list_any (same_pred pred) self.old.preds ≡ false }
        requires room { 0 < self.old.room }
        requires name { pred.name < self.old.names }
        ensures added { self.new.preds ≡ self.old.preds ++ pred ∷ [] }
        ensures room { self.old.room ≤ self.new.room + 1 }
        ensures names { self.new.names ≡ self.old.names }
    {
        let number = self.named.len();
        let earlier = mem::replace(&mut self.newest[pred.name.index()], Some(number));
        self.named.push(Named { pred, earlier }).unwrap();
    }
}

/// The number of a predicate, looked for from the newest of its name on.
fn find_from(named: &[Named], newest: Option<usize>, pred: &Pred) -> Option<usize>
    requires linked { AreLinked named.now }
    requires searches { Searches pred.now named.now newest }
    ensures value { result ≡ position (same_pred pred.now) (map pred_named named.now) }
    ensures found { is_some result ≡ list_any (same_pred pred.now) (map pred_named named.now) }
    ensures within { IfSome result (λ i. i < length (map pred_named named.now)) }
{
    let mut number = newest;
    while let Some(at) = number {
        let here = &named[at];
        if here.pred.arity == pred.arity {
            return Some(at);
        }
        number = here.earlier;
    }
    None
}

/// Makes a place for the name of each of the predicates, of those that have none.
fn widen(newest: &mut Vec<Option<usize>>, preds: &[Pred]) -> Result<(), AllocError>
    ensures same { (name : ℕ) → get_or newest.new.items name None ≡ get_or newest.old.items name None }
    ensures places { OnOk result (HasPlaces newest.new.items preds.now) }
{
    for pred in preds {
        let width = pred.name.index().checked_add(1).ok_or(AllocError)?;
        if newest.len() < width {
            newest.resize(width, None)?;
        }
    }
    Ok(())
}
