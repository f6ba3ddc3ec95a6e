// Notes on variables, found by the variable, that go back to what they were at a mark.

ghost use Rattle.cq_attr.specs.NotesValue.{behind_newest, IsNoteAt, noted};
ghost use Rattle.cq_attr.specs.Chains.{AreLinked, HasPlaces, pairs_of};
ghost use Rattle.std.specs.Prelude.{◌≡◌, ◌+◌, ◌-◌, ◌<◌, ◌≤◌, ◌==◌, ◌++◌, [], ◌∷◌, ℕ, List, length, take, slice_get, slice_index, vec_len, vec_capacity, Some, IsTrue, IsOk, IfOk, OnOk, OnErr};
ghost use Rattle.std.specs.List.{list_any};

use cq_frac::VarId;
use cq_trail::{Mark, Undo};
use std::alloc::{AllocError, Global};
use std::marker::Model;
use std::mem;

/// What is noted of a variable.
#[derive(Drop)]
struct Note<T> {
    variable: usize,
    value: T,
    /// The place behind the variable's note before this one; 0 where it has none.
    earlier: usize,
}

/// Notes on variables in the order in which they were made. From each variable a chain leads through its own notes, the
/// newest first, so that those of other variables are never looked at. `mark` takes constant time, `undo` the time of the
/// notes made since.
#[derive(Drop)]
pub(crate) struct Notes<T> {
    notes: Vec<Note<T>>,
    /// By variable, the place behind its newest note; 0 where it has none.
    newest: Vec<usize>,
    /// How many notes there were at each live mark, the oldest first.
    marks: Vec<usize>,
}

impl<T> Model for Notes<T> {
    ghost use Rattle.cq_attr.specs.NotesValue.{NotesValue};
    ghost use Rattle.std.specs.Prelude.{vec_capacity, vec_len, ◌-◌};

    ghost Value = { NotesValue T };

    ghost use Rattle.cq_attr.specs.Chains.{notes_value, AreNotes};

    ghost view = { λ s. notes_value s.notes.items s.marks.items (vec_capacity s.marks - vec_len s.marks) };

    ghost invariant = { λ s. AreNotes s.newest.items s.notes.items s.marks.items };
}

impl<T: Copy> Notes<T> {
    /// No notes. It takes no memory.
    pub fn new(alloc: Global) -> Self
        ensures now { result.now ≡ [] }
        ensures saved { result.saved ≡ [] }
    {
        Notes {
            notes: Vec::new(alloc),
            newest: Vec::new(alloc),
            marks: Vec::new(alloc),
        }
    }

    /// The place behind the variable's newest note; 0 where it has none.
    pub fn newest(&self, variable: VarId) -> usize
        ensures { result ≡ behind_newest variable.0 self.now.now }
    {
        self.newest.get(variable.0).copied().unwrap_or(0)
    }

    /// Whether anything is noted of the variable.
    pub fn contains(&self, variable: VarId) -> bool
        ensures { result ≡ list_any (λ n. n.0 == variable.0) self.now.now }
    {
        self.newest(variable) > 0
    }

    /// What is noted at a place, and the place behind the same variable's note before it; 0 where it has none.
    pub fn note(&self, at: usize) -> (T, usize)
        requires { at < length self.now.now }
        ensures { IsNoteAt self.now.now at result }
    {
        let note = &self.notes[at];
        (note.value, note.earlier)
    }

    /// Notes the same of each of the variables. Fails for want of memory, with nothing noted; memory for the variable
    /// `usize::MAX` is never had.
    pub fn extend(&mut self, variables: &[VarId], value: T) -> Result<(), AllocError>
        ensures ok { OnOk result (self.new.now ≡ self.old.now ++ noted variables.now value) }
        ensures err { OnErr result (self.new.now ≡ self.old.now) }
        ensures saved { self.new.saved ≡ self.old.saved }
        ensures room { self.old.room ≤ self.new.room }
    {
        widen(&mut self.newest, variables)?;
        self.notes.reserve(variables.len())?;
        link(&mut self.newest, &mut self.notes, variables, value);
        Ok(())
    }
}

impl<T: Copy> Undo for Notes<T> {
    ghost use Rattle.std.specs.Prelude.{ℕ, List};

    ghost Value = { List (ℕ × T) };

    ghost now = { λ s. s.now };

    ghost saved = { λ s. s.saved };

    ghost room = { λ s. s.room };

    fn mark(&mut self) -> Result<Mark, AllocError> {
        let number = self.marks.len();
        self.marks.push(self.notes.len())?;
        Ok(Mark { number })
    }

    fn undo(&mut self, m: Mark) {
        unlink(&mut self.newest, &mut self.notes, self.marks[m.number]);
        self.marks.truncate(m.number);
    }

    fn forget(&mut self, m: Mark) {
        self.marks.truncate(m.number);
    }

    fn reserve(&mut self, n: usize) -> Result<(), AllocError> {
        self.marks.reserve(n)?;
        Ok(())
    }

    fn spare(&self) -> usize {
        self.marks.capacity() - self.marks.len()
    }
}

/// Makes a place for each of the variables, of those that have no note.
fn widen(newest: &mut Vec<usize>, variables: &[VarId]) -> Result<(), AllocError>
    ensures same { (v : ℕ) → slice_index newest.new.items v ≡ slice_index newest.old.items v }
    ensures places { OnOk result (HasPlaces newest.new.items variables.now) }
{
    for variable in variables {
        let width = variable.0.checked_add(1).ok_or(AllocError)?;
        if newest.len() < width {
            newest.resize(width, 0)?;
        }
    }
    Ok(())
}

/// Adds a note of each of the variables.
fn link<T: Copy>(newest: &mut Vec<usize>, notes: &mut Vec<Note<T>>, variables: &[VarId], value: T)
    requires linked { AreLinked newest.old.items notes.old.items }
    requires places { HasPlaces newest.old.items variables.now }
    requires room { vec_len notes.old + length variables.now ≤ vec_capacity notes.old }
    ensures linked { AreLinked newest.new.items notes.new.items }
    ensures pairs { pairs_of notes.new.items ≡ pairs_of notes.old.items ++ noted variables.now value }
{
    for variable in variables {
        let earlier = mem::replace(&mut newest[variable.0], notes.len() + 1);
        let note = Note {
            variable: variable.0,
            value,
            earlier,
        };
        notes.push(note).unwrap();
    }
}

/// Takes the notes from a place on back, the newest first.
fn unlink<T: Copy>(newest: &mut Vec<usize>, notes: &mut Vec<Note<T>>, from: usize)
    requires linked { AreLinked newest.old.items notes.old.items }
    requires from { from ≤ length notes.old.items }
    ensures linked { AreLinked newest.new.items notes.new.items }
    ensures notes { notes.new.items ≡ take from notes.old.items }
{
    while notes.len() > from {
        if let Some(note) = notes.pop() {
            newest[note.variable] = note.earlier;
        }
    }
}
