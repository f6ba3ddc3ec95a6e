// The clauses of a program, with what each holds.

ghost use Rattle.std.specs.Prelude.{◌≡◌, ◌<◌, ◌≤◌, [], ◌∷◌, All, length, slice_get, Some, IfSome, IfNone, IfOk, OnOk, OnErr};
ghost use Rattle.cq_clauses.specs.ClausesValue.{Adds, Declares, DeclaresAll, Removes};
ghost use Rattle.cq_clauses.specs.Database.{database, kind_of, clauses_of};
ghost use Rattle.cq_clauses.specs.Keys.{may_match as matches};
ghost use Rattle.cq_clauses.specs.Selected.{key_at, matching};
ghost use Rattle.cq_clauses.specs.Snapshots.{IsSnapshot, seen};
ghost use Rattle.cq_clauses.specs.Stored.{IsIndexOf};
ghost use Rattle.cq_clauses.specs.Walks.{IsWalk, KeepsReading, left, seen_matching};
ghost use Rattle.cq_clauses.specs.declared.list.End.TheVariants.{First, Last};

use crate::index::Index;
use crate::indexes::Indexes;
use crate::key::{Key, Keyed};
use crate::list::End;
use crate::procedures::{Kind, Place, Procedures, Snapshot};
use crate::walk::Walk;
use cq_term::Pred;
use std::alloc::{AllocError, Global};
use std::marker::Model;

/// A clause, by its number: clauses are numbered in the order in which they are added, and no number is given twice.
#[derive(Clone, Copy, PartialEq, Eq, PartialOrd, Ord, Hash)]
pub struct ClauseNo {
    number: usize,
}

impl Model for ClauseNo {
    ghost use Rattle.std.specs.Prelude.{ℕ};

    ghost Value = { ℕ };

    ghost view = { λ n. n.number };

    ghost inverse = { λ n. record { number = n } };
}

/// What a clause holds, and where it was added.
#[derive(Drop)]
struct Stored<C> {
    content: C,
    place: Place,
}

/// The clauses of a program by predicate. A call reads them through a snapshot, which no later change alters. The
/// memory of a clause that is removed is kept, since a snapshot may still show it.
#[derive(Drop)]
pub struct Clauses<C: Keyed> {
    stored: Vec<Stored<C>>,
    procedures: Procedures,
    indexes: Indexes,
    alloc: Global,
}

impl<C: Keyed> Model for Clauses<C> {
    ghost use Rattle.std.specs.Prelude.{map};
    ghost use Rattle.cq_clauses.specs.ClausesValue.{ClausesValue};
    ghost use Rattle.cq_clauses.specs.Selected.{key_at};
    ghost use Rattle.cq_clauses.specs.Stored.{IsHeld};

    ghost Value = { ClausesValue C };

    ghost view = { λ s. record { contents = map (λ x. x.content) s.stored.items; procedures = s.procedures } };

    ghost invariant = { λ s. IsHeld (map (λ x. x.place) s.stored.items) (key_at C.key_of (map (λ x. x.content) s.stored.items))
        s.indexes.list.items s.procedures };
}

impl<C: Keyed + Drop> Clauses<C> {
    /// No clauses; it takes no memory until the first is added.
    pub fn new(alloc: Global) -> Self
        ensures contents { result.contents ≡ [] }
        ensures database { database result.procedures ≡ [] }
    {
        Clauses {
            stored: Vec::new(alloc),
            procedures: Procedures::new(alloc),
            indexes: Indexes::new(alloc),
            alloc,
        }
    }

    /// Adds a clause before the others of its predicate, whose procedure is made with this kind where there is none.
    pub fn add_first(&mut self, pred: Pred, content: C, kind: Kind) -> Result<ClauseNo, AllocError>
        ensures number { IfOk result (λ n. n ≡ length self.old.contents) }
        ensures added { OnOk result (Adds First kind pred content self.old self.new) }
        ensures reading { KeepsReading C.key_of self.old self.new }
        ensures err { OnErr result (self.new ≡ self.old) }
    {
        self.add(pred, content, kind, End::First)
    }

    /// Adds a clause behind the others of its predicate, whose procedure is made with this kind where there is none.
    pub fn add_last(&mut self, pred: Pred, content: C, kind: Kind) -> Result<ClauseNo, AllocError>
        ensures number { IfOk result (λ n. n ≡ length self.old.contents) }
        ensures added { OnOk result (Adds Last kind pred content self.old self.new) }
        ensures reading { KeepsReading C.key_of self.old self.new }
        ensures err { OnErr result (self.new ≡ self.old) }
    {
        self.add(pred, content, kind, End::Last)
    }

    fn add(&mut self, pred: Pred, content: C, kind: Kind, end: End) -> Result<ClauseNo, AllocError>
        ensures number { IfOk result (λ n. n ≡ length self.old.contents) }
        ensures added { OnOk result (Adds end kind pred content self.old self.new) }
        ensures reading { KeepsReading C.key_of self.old self.new }
        ensures err { OnErr result (self.new ≡ self.old) }
    {
        let number = self.stored.len();
        self.stored.reserve(1)?;
        let key = content.key();
        let place = self.procedures.add(pred, kind, number, end)?;
        self.indexes.note(place.procedure, key, end);
        self.stored.push(Stored { content, place }).unwrap();
        Ok(ClauseNo { number })
    }

    /// Takes a clause away; one that is gone stays gone.
    pub fn remove(&mut self, clause: ClauseNo)
        requires { clause < length self.old.contents }
        ensures removed { Removes clause self.old self.new }
        ensures reading { KeepsReading C.key_of self.old self.new }
    {
        let place = self.stored[clause.number].place;
        self.procedures.remove(place);
    }

    /// Lets the program change the predicate's procedure, which is made where there is none.
    pub fn declare_dynamic(&mut self, pred: Pred) -> Result<(), AllocError>
        ensures declared { OnOk result (Declares pred self.old self.new) }
        ensures reading { KeepsReading C.key_of self.old self.new }
        ensures err { OnErr result (self.new ≡ self.old) }
    {
        self.declare_all_dynamic(&[pred])
    }

    /// Lets the program change the procedures of these predicates, which are made where there are none: all of them, or none
    /// after an error.
    pub fn declare_all_dynamic(&mut self, preds: &[Pred]) -> Result<(), AllocError>
        ensures declared { OnOk result (DeclaresAll preds.now self.old self.new) }
        ensures reading { KeepsReading C.key_of self.old self.new }
        ensures err { OnErr result (self.new ≡ self.old) }
    {
        self.procedures.declare_dynamic(preds)?;
        Ok(())
    }

    /// The kind of the predicate's procedure; None where it has none.
    pub fn status_of(&self, pred: Pred) -> Option<Kind>
        ensures { result ≡ kind_of pred (database self.now.procedures) }
    {
        self.procedures.status(pred)
    }

    /// What a clause holds, also one that is gone.
    pub fn content(&self, clause: ClauseNo) -> &C
        requires { clause < length self.now.contents }
        ensures { slice_get self.now.contents clause ≡ Some result.now }
    {
        &self.stored[clause.number].content
    }

    /// The clauses of the predicate as they are now.
    pub fn snapshot(&self, pred: Pred) -> Snapshot
        ensures taken { IsSnapshot result self.now.procedures }
        ensures seen { seen result self.now.procedures ≡ clauses_of pred (database self.now.procedures) }
        ensures known { All (λ n. n < length self.now.contents) (seen result self.now.procedures) }
    {
        self.procedures.snapshot(pred)
    }

    /// The first clause of a snapshot, and the snapshot of those behind it; None where no clause is left.
    pub fn next(&self, snapshot: Snapshot) -> Option<(ClauseNo, Snapshot)>
        requires { IsSnapshot snapshot self.now.procedures }
        ensures none { IfNone result (seen snapshot self.now.procedures ≡ []) }
        ensures some { IfSome result (λ r. seen snapshot self.now.procedures ≡ r.0 ∷ seen r.1 self.now.procedures) }
        ensures taken { IfSome result (λ r. IsSnapshot r.1 self.now.procedures) }
        ensures known { IfSome result (λ r. r.0 < length self.now.contents) }
    {
        match self.procedures.next(snapshot) {
            Some((number, rest)) => Some((ClauseNo { number }, rest)),
            None => None,
        }
    }

    /// The first clause of a snapshot that may match a call with this key, and the snapshot of those behind it; None where
    /// no clause that is left may match. A call has no key where its goal has no argument, or a variable as its first.
    #[inline(always)]
    pub fn next_matching(
        &self,
        snapshot: Snapshot,
        key: &Option<Key>,
    ) -> Option<(ClauseNo, Snapshot)>
        requires { IsSnapshot snapshot self.now.procedures }
        ensures none { IfNone result (seen_matching C.key_of key.now snapshot self.now ≡ []) }
        ensures some { IfSome result (λ r. seen_matching C.key_of key.now snapshot self.now ≡ r.0 ∷ seen_matching C.key_of key.now r.1 self.now) }
        ensures taken { IfSome result (λ r. IsSnapshot r.1 self.now.procedures) }
        ensures known { IfSome result (λ r. r.0 < length self.now.contents) }
    {
        match key {
            Some(key) => self.next_with(snapshot, key),
            None => self.next(snapshot),
        }
    }

    /// The clauses of the predicate as they are now that may match a call with this key.
    pub fn walk(&mut self, pred: Pred, key: Option<Key>) -> Walk
        ensures same { self.new ≡ self.old }
        ensures opened { IsWalk result self.old }
        ensures left { left C.key_of result self.old ≡ matching (key_at C.key_of self.old.contents) key (clauses_of pred (database self.old.procedures)) }
    {
        let snapshot = self.snapshot(pred);
        if key.is_some() {
            self.index(&snapshot);
        }
        let ahead = self.next_matching(snapshot, &key);
        Walk { key, ahead }
    }

    /// The clause that a walk leaves first, which is known ahead; None where it has none left.
    pub fn first(&self, walk: &Walk) -> Option<ClauseNo>
        requires { IsWalk walk.now self.now }
        ensures first { result ≡ slice_get (left C.key_of walk.now self.now) 0 }
        ensures known { IfSome result (λ n. n < length self.now.contents) }
    {
        let (clause, _) = walk.ahead?;
        Some(clause)
    }

    /// The next clause of a walk, which is then left without it; None where it has none left, and stays as it is.
    pub fn step(&self, walk: &mut Walk) -> Option<ClauseNo>
        requires { IsWalk walk.old self.now }
        ensures none { IfNone result (left C.key_of walk.old self.now ≡ []) }
        ensures some { IfSome result (λ n. left C.key_of walk.old self.now ≡ n ∷ left C.key_of walk.new self.now) }
        ensures opened { IsWalk walk.new self.now }
        ensures known { IfSome result (λ n. n < length self.now.contents) }
        ensures stays { IfNone result (walk.new ≡ walk.old) }
    {
        let (clause, rest) = walk.ahead?;
        walk.ahead = self.next_matching(rest, &walk.key);
        Some(clause)
    }

    /// The clauses that a walk has left are among those that were added.
    pub fn walks_are_known(&self)
        ensures { (w : Walk) → IsWalk w self.now → All (λ n. n < length self.now.contents) (left C.key_of w self.now) }
    {
        let _procedures = &self.procedures;
    }

    #[inline(always)]
    fn next_with(&self, snapshot: Snapshot, key: &Key) -> Option<(ClauseNo, Snapshot)>
        requires { IsSnapshot snapshot self.now.procedures }
        ensures none { IfNone result (seen_matching C.key_of (Some key.now) snapshot self.now ≡ []) }
        ensures some { IfSome result (λ r. seen_matching C.key_of (Some key.now) snapshot self.now ≡ r.0 ∷ seen_matching C.key_of (Some key.now) r.1 self.now) }
        ensures taken { IfSome result (λ r. IsSnapshot r.1 self.now.procedures) }
        ensures known { IfSome result (λ r. r.0 < length self.now.contents) }
    {
        let mut rest = snapshot;
        while let Some((clause, behind)) = self.next(self.skipped(rest, key)) {
            rest = behind;
            if may_match(key, self.content(clause).key()) {
                return Some((clause, rest));
            }
        }
        None
    }

    /// The snapshot behind clauses that an index tells not to match.
    fn skipped(&self, snapshot: Snapshot, key: &Key) -> Snapshot
        requires { IsSnapshot snapshot self.now.procedures }
        ensures taken { IsSnapshot result self.now.procedures }
        ensures fewer { length (seen result self.now.procedures) ≤ length (seen snapshot self.now.procedures) }
        ensures same { seen_matching C.key_of (Some key.now) result self.now ≡ seen_matching C.key_of (Some key.now) snapshot self.now }
    {
        let Some((procedure, place)) = self.procedures.start(&snapshot) else {
            return snapshot;
        };
        match self.indexes.get(procedure) {
            Some(index) => {
                let next = index.next(key, place);
                self.procedures.skipped(snapshot, next - place)
            }
            None => snapshot,
        }
    }

    /// Makes an index of the clauses of a snapshot's procedure by their keys, where there are more than a few and none was
    /// made. If memory is out there is none, and calls go through all clauses.
    fn index(&mut self, snapshot: &Snapshot)
        requires { IsSnapshot snapshot.now self.old.procedures }
        ensures { self.new ≡ self.old }
    {
        let Some((procedure, _)) = self.procedures.start(snapshot) else {
            return;
        };
        if self.procedures.clauses(procedure).len() <= FEW
            || self.indexes.get(procedure).is_some()
        {
            return;
        }
        if let Ok(index) = self.made(procedure) {
            let _ = self.indexes.put(procedure, index);
        }
    }

    /// An index of a procedure's clauses.
    fn made(&self, procedure: usize) -> Result<Index, AllocError>
        requires { procedure < length self.now.procedures }
        ensures { IfOk result (λ index. IsIndexOf index (key_at C.key_of self.now.contents) procedure self.now.procedures) }
    {
        let clauses = self.procedures.clauses(procedure);
        let mut index = Index::new(self.alloc);
        for place in 0..clauses.len() {
            let clause = clauses.clause(place);
            index.add(self.stored[clause].content.key(), End::Last)?;
        }
        Ok(index)
    }
}

/// The greatest number of clauses that are gone through without an index.
const FEW: usize = 8;

/// Whether a clause of this key may match a call with a key.
fn may_match(key: &Key, of_clause: Option<Key>) -> bool
    ensures { result ≡ matches key.now of_clause }
{
    match of_clause {
        Some(other) => *key == other,
        None => true,
    }
}
