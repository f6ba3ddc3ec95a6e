// A list that goes back to what it was at a mark, by a log of the values that were replaced since.

ghost use Rattle.cq_trail.specs.Log.{restore, old_values, old_stamps, NeedsNoSaving, NeedsSaving};
ghost use Rattle.cq_trail.specs.TrailValue.{SavesOnce};
ghost use Rattle.cq_trail.specs.declared.trail.Entry.{Entry};
ghost use Rattle.std.specs.Prelude.{◌≡◌, ◌+◌, ◌-◌, ◌<◌, ◌≤◌, ◌↔◌, drop, ◌++◌, [], ◌∷◌, List, ℕ, length, take, slice_get, slice_set, slice_index, slice_index_or, map, Some, IsTrue, IsOk, IfOk, OnOk, OnErr};
ghost use Rattle.std.specs.Bool.{OnTrue, OnFalse};

use crate::undo::{Mark, Undo};
use std::alloc::{AllocError, Global};
use std::marker::Model;
use std::mem;

/// What stood at a place before a change, with the place's stamp then.
#[derive(Drop)]
struct Entry<T> {
    at: usize,
    old: T,
    stamp: usize,
}

/// The lengths of the list and of the log at a mark.
#[derive(Clone, Copy)]
struct Place {
    items: usize,
    log: usize,
}

/// A list whose older values come back. Between two neighbouring marks the value of a place is put aside once, at
/// its first change: it moves into the log, and nothing is copied. A place made after the newest mark needs no
/// saving. `mark` takes constant time, `undo` the time of the changes that it takes back. (The value trail with time
/// stamps: Aggoun and Beldiceanu 1990.)
#[derive(Drop)]
pub struct Trail<T> {
    items: Vec<T>,
    /// By place, how long the log was just after the place was last saved; 0 where the log has nothing of it.
    stamps: Vec<usize>,
    log: Vec<Entry<T>>,
    marks: Vec<Place>,
}

impl<T> Model for Trail<T> {
    ghost use Rattle.cq_trail.specs.TrailValue.{TrailValue};
    ghost use Rattle.std.specs.Prelude.{vec_capacity, vec_len, ◌-◌, min};

    ghost Value = { TrailValue T };

    ghost use Rattle.cq_trail.specs.Log.{trail_value, IsTrail};

    ghost view = { λ t. trail_value t.items.items t.log.items t.marks.items (vec_capacity t.marks - vec_len t.marks)
        (min (vec_capacity t.items - vec_len t.items) (vec_capacity t.stamps - vec_len t.stamps)) (vec_capacity t.log - vec_len t.log) };

    ghost invariant = { λ t. IsTrail t.items.items t.stamps.items t.log.items t.marks.items };
}

impl<T: Drop> Trail<T> {
    /// An empty list without marks. It takes no memory.
    pub fn new(alloc: Global) -> Self
        ensures now { result.now ≡ [] }
        ensures saved { result.saved ≡ [] }
        ensures changed { result.changed ≡ [] }
    {
        Trail {
            items: Vec::new(alloc),
            stamps: Vec::new(alloc),
            log: Vec::new(alloc),
            marks: Vec::new(alloc),
        }
    }

    /// How many entries the list has.
    pub fn len(&self) -> usize
        ensures { result ≡ length self.now.now }
    {
        self.items.len()
    }

    /// Whether the list has no entry.
    pub fn is_empty(&self) -> bool
        ensures { IsTrue result ↔ (length self.now.now ≡ 0) }
    {
        self.items.is_empty()
    }

    /// The entry at a place, counted from 0.
    pub fn get(&self, at: usize) -> &T
        requires { at < length self.now.now }
        ensures { slice_get self.now.now at ≡ Some result.now }
    {
        &self.items[at]
    }

    /// All values, by place.
    pub fn as_slice(&self) -> &[T]
        ensures { result.now ≡ self.now.now }
    {
        &self.items
    }

    /// Adds a value at the end.
    pub fn push(&mut self, value: T) -> Result<(), AllocError>
        ensures ok { OnOk result (self.new.now ≡ self.old.now ++ value ∷ []) }
        ensures err { OnErr result (self.new.now ≡ self.old.now) }
        ensures prepared { 0 < self.old.ready → IsOk result }
        ensures ready { self.old.ready ≤ self.new.ready + 1 }
        ensures saved { self.new.saved ≡ self.old.saved }
        ensures changed { self.new.changed ≡ self.old.changed }
        ensures room { self.old.room ≤ self.new.room }
    {
        self.items.reserve(1)?;
        self.stamps.push(0)?;
        self.items.push(value).unwrap();
        Ok(())
    }

    /// Sets memory aside for `n` new places, so that several trails can grow together or not at all.
    pub fn reserve_places(&mut self, n: usize) -> Result<(), AllocError>
        ensures ok { OnOk result (n ≤ self.new.ready) }
        ensures ready { self.old.ready ≤ self.new.ready }
        ensures now { self.new.now ≡ self.old.now }
        ensures saved { self.new.saved ≡ self.old.saved }
        ensures changed { self.new.changed ≡ self.old.changed }
        ensures room { self.old.room ≤ self.new.room }
    {
        self.items.reserve(n)?;
        self.stamps.reserve(n)?;
        Ok(())
    }

    /// Sets memory aside for `n` changes of places, so that several places can change together or not at all.
    pub fn reserve_saves(&mut self, n: usize) -> Result<(), AllocError>
        ensures ok { OnOk result (n ≤ self.new.saves) }
        ensures saves { self.old.saves ≤ self.new.saves }
        ensures ready { self.new.ready ≡ self.old.ready }
        ensures now { self.new.now ≡ self.old.now }
        ensures saved { self.new.saved ≡ self.old.saved }
        ensures changed { self.new.changed ≡ self.old.changed }
        ensures room { self.old.room ≤ self.new.room }
    {
        self.log.reserve(n)?;
        Ok(())
    }

    /// Replaces the value of a place.
    pub fn set(&mut self, at: usize, value: T) -> Result<(), AllocError>
        requires { at < length self.old.now }
        ensures ok { OnOk result (self.new.now ≡ slice_set self.old.now at value) }
        ensures saved { self.new.saved ≡ self.old.saved }
        ensures once { OnOk result (SavesOnce self.old.changed self.new.changed at) }
        ensures prepared { 0 < self.old.saves → IsOk result }
        ensures saves { self.old.saves ≤ self.new.saves + 1 }
        ensures room { self.old.room ≤ self.new.room }
        ensures err { OnErr result (self.new ≡ self.old) }
    {
        if needs_no_saving(&self.marks, &self.stamps, at) {
            self.items[at] = value;
            return Ok(());
        }
        self.log.reserve(1)?;
        let old = mem::replace(&mut self.items[at], value);
        let stamp = mem::replace(&mut self.stamps[at], self.log.len() + 1);
        self.log.push(Entry { at, old, stamp }).unwrap();
        Ok(())
    }
}

impl<T: Drop> Undo for Trail<T> {
    ghost use Rattle.std.specs.Prelude.{List};

    ghost Value = { List T };

    ghost now = { λ t. t.now };

    ghost saved = { λ t. t.saved };

    ghost room = { λ t. t.room };

    fn mark(&mut self) -> Result<Mark, AllocError>
        ensures mark { IfOk result (λ m. m.number ≡ length self.old.saved) }
        ensures saved { OnOk result (self.new.saved ≡ self.old.saved ++ self.old.now ∷ []) }
        ensures changed { OnOk result (self.new.changed ≡ self.old.changed ++ [] ∷ []) }
        ensures now { self.new.now ≡ self.old.now }
        ensures err { OnErr result (self.new.saved ≡ self.old.saved) }
        ensures err_changed { OnErr result (self.new.changed ≡ self.old.changed) }
        ensures prepared { 0 < self.old.room → IsOk result }
        ensures room { self.old.room ≤ self.new.room + 1 }
    {
        let number = self.marks.len();
        self.marks.push(Place {
            items: self.items.len(),
            log: self.log.len(),
        })?;
        Ok(Mark { number })
    }

    fn undo(&mut self, m: Mark)
        requires { m.number < length self.old.saved }
        ensures now { slice_get self.old.saved m.number ≡ Some self.new.now }
        ensures saved { self.new.saved ≡ take m.number self.old.saved }
        ensures room { self.old.room + (length self.old.saved - m.number) ≤ self.new.room }

        // What was put aside since the mark is given back, so the earlier marks no longer have it.
        ensures changed { take m.number self.old.changed ≡ map (λ c. c ++ slice_index_or self.old.changed m.number []) self.new.changed }
    {
        let place = self.marks[m.number];
        give_back(&mut self.items, &mut self.stamps, &mut self.log, place.log);
        self.items.truncate(place.items);
        self.stamps.truncate(place.items);
        self.marks.truncate(m.number);
    }

    fn forget(&mut self, m: Mark)
        requires { m.number < length self.old.saved }
        ensures now { self.new.now ≡ self.old.now }
        ensures saved { self.new.saved ≡ take m.number self.old.saved }
        ensures room { self.old.room + (length self.old.saved - m.number) ≤ self.new.room }

        // The earlier marks keep all that was put aside since them.
        ensures changed { self.new.changed ≡ take m.number self.old.changed }
    {
        self.marks.truncate(m.number);
        if self.marks.is_empty() {
            discard(&mut self.stamps, &mut self.log);
        }
    }

    fn reserve(&mut self, n: usize) -> Result<(), AllocError> {
        self.marks.reserve(n)?;
        Ok(())
    }

    fn spare(&self) -> usize {
        self.marks.capacity() - self.marks.len()
    }
}

/// Whether a change of the place may drop the value that it replaces: no mark is live, or the place was made or
/// saved after the newest one.
fn needs_no_saving(marks: &[Place], stamps: &[usize], at: usize) -> bool
    requires { at < length stamps.now }
    ensures yes { OnTrue result (NeedsNoSaving marks.now at (slice_index stamps.now at)) }
    ensures no { OnFalse result (NeedsSaving marks.now at (slice_index stamps.now at)) }
{
    match marks.last() {
        Some(mark) => mark.items <= at || mark.log < stamps[at],
        None => true,
    }
}

/// Takes back the changes from a place in the log on, the newest first.
fn give_back<T: Drop>(
    items: &mut Vec<T>,
    stamps: &mut Vec<usize>,
    log: &mut Vec<Entry<T>>,
    from: usize,
)
    requires from { from ≤ length log.old.items }
    requires entries { (j : ℕ) (e : Entry T) → slice_get log.old.items j ≡ Some e → e.at < length items.old.items }
    requires stamped { length stamps.old.items ≡ length items.old.items }
    ensures items { items.new.items ≡ restore (drop from (old_values log.old.items)) items.old.items }
    ensures stamps { stamps.new.items ≡ restore (drop from (old_stamps log.old.items)) stamps.old.items }
    ensures log { log.new.items ≡ take from log.old.items }
{
    while log.len() > from {
        if let Some(Entry { at, old, stamp }) = log.pop() {
            items[at] = old;
            stamps[at] = stamp;
        }
    }
}

/// Empties the log where no mark is left to need it.
fn discard<T: Drop>(stamps: &mut Vec<usize>, log: &mut Vec<Entry<T>>)
    requires { (j : ℕ) (e : Entry T) → slice_get log.old.items j ≡ Some e → e.at < length stamps.old.items }
    ensures stamps { stamps.new.items ≡ restore (old_stamps log.old.items) stamps.old.items }
    ensures log { log.new.items ≡ [] }
{
    while let Some(entry) = log.pop() {
        stamps[entry.at] = entry.stamp;
    }
}
