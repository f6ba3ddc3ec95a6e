// Input that comes in pieces.

ghost use Rattle.std.specs.Prelude.{◌≡◌, ◌+◌, ◌<◌, ◌≤◌, ◌||◌, ◌==◌, ◌⊎◌, ℕ, false, true, All, [], ◌++◌, length, IfOk, OnOk, OnErr};
ghost use Rattle.spec_text.specs.Decided.{IsFullStop};
ghost use Rattle.spec_syntax.specs.Characters.{is_layout};
ghost use Rattle.cq_term.specs.Texts.{KeepsTexts};
ghost use Rattle.cq_ops.specs.Tables.{named};
ghost use Rattle.cq_term.specs.Names.{HasNamesBelow};
ghost use Rattle.cq_read.specs.Inputs.{DecideNothing};
ghost use Rattle.cq_read.specs.Feeds.{IsFed, goes_on_before, place_after, place_behind, GoesOn, LeavesFed, IsLiveFed};

use crate::reading::{Read, read_clause};
use crate::resuming::may_go_on;
use cq_ops::Ops;
use cq_term::Heap;
use cq_term::atoms::Atoms;
use cq_trail::Undo;
use std::alloc::{AllocError, Global};
use std::marker::Model;

/// What a feed answers.
#[derive(Drop)]
pub enum Fed {
    /// What stands at the feed's place.
    Read(Read),
    /// The bytes so far don't decide what stands there.
    Needs,
}

/// Input that comes in pieces of any size, and the place where the next reading begins. Places count from the first byte.
#[derive(Drop)]
pub struct Feed {
    bytes: Vec<u8>,
    place: usize,
    // Of so many bytes it is known that they decide nothing at the place, whatever the operators are.
    tried: usize,
    finished: bool,
}

impl Model for Feed {
    ghost use Rattle.cq_read.specs.Inputs.{Input, IsTried};

    ghost Value = { Input };

    ghost view = { λ f. record { bytes = f.bytes.items; place = f.place; finished = f.finished } };

    ghost invariant = { λ f. IsTried f.bytes.items f.place f.tried };
}

/// Whether a full stop before this byte ends a clause.
fn ends_clause(b: u8) -> bool
    ensures { result ≡ (is_layout b || (b == 37)) }
{
    matches!(b, b' ' | b'\t' | b'\n' | 11 | 12 | b'\r' | b'%')
}

/// Whether a full stop that ends a clause stands at a place, before another byte.
fn is_full_stop(text: &[u8], at: usize) -> bool
    requires { at + 1 < length text.now }
    ensures { IsFullStop text.now at → result ≡ true }
{
    text[at] == b'.' && ends_clause(text[at + 1])
}

/// Whether a full stop that ends a clause stands in the text from a place on, with one more byte behind it.
fn has_full_stop(text: &[u8], from: usize) -> bool
    requires { from ≤ length text.now }
    ensures { result ≡ false → (at : ℕ) → from ≤ at → IsFullStop text.now at → ⊥ }
{
    let mut at = from;
    while at + 1 < text.len() {
        if is_full_stop(text, at) {
            return true;
        }
        at += 1;
    }
    false
}

/// From where on a full stop may stand that was not tried: one at the last byte that was tried had none behind it.
fn untried(place: usize, tried: usize) -> usize
    ensures { (result ≤ place) ⊎ (result + 1 ≤ tried) }
{
    if place < tried { tried - 1 } else { place }
}

/// Whether reading goes on before the end of a text of so many bytes.
fn goes_on_before(read: &Read, len: usize) -> bool
    ensures { result ≡ goes_on_before read.now len }
{
    match read {
        Read::Clause { next, .. } => *next < len,
        Read::End => false,
        Read::Syntax { resume, .. } => *resume < len,
    }
}

/// Where reading goes on.
fn place_after(at: usize, read: &Read) -> usize
    ensures { result ≡ place_after at read.now }
{
    match read {
        Read::Clause { next, .. } => *next,
        Read::End => at,
        Read::Syntax { resume, .. } => *resume,
    }
}

impl Feed {
    /// No bytes yet.
    pub fn new(alloc: Global) -> Feed
        ensures bytes { result.bytes ≡ [] }
        ensures place { result.place ≡ 0 }
        ensures finished { result.finished ≡ false }
    {
        Feed {
            bytes: Vec::new(alloc),
            place: 0,
            tried: 0,
            finished: false,
        }
    }

    /// Adds a piece. Where memory is wanting the feed is as it was.
    pub fn push(&mut self, piece: &[u8]) -> Result<(), AllocError>
        requires { self.old.finished ≡ false }
        ensures bytes { OnOk result (self.new.bytes ≡ self.old.bytes ++ piece.now) }
        ensures place { self.new.place ≡ self.old.place }
        ensures finished { self.new.finished ≡ self.old.finished }
        ensures err { OnErr result (self.new ≡ self.old) }
    {
        self.bytes.extend_from_slice(piece)
    }

    /// No more pieces come.
    pub fn finish(&mut self)
        ensures { self.new ≡ record self.old { finished = true } }
    {
        self.finished = true;
    }

    /// What stands at the feed's place, if the bytes so far decide it or no more of them come, and then the feed goes on to
    /// the place behind, past a clause or an error. It needs more bytes exactly where they don't, and then nothing changes, nor
    /// where memory is wanting, but that names may have got numbers. Once the feed is finished each call moves on until the end.
    ///
    /// Bytes are looked at once for each clause, and the bytes of a clause that is not decided again only where a full stop
    /// that may end it has come since.
    pub fn next(&mut self, heap: &mut Heap, atoms: &mut Atoms, ops: &Ops) -> Result<Fed, AllocError>
        ensures fed { IfOk result (IsFed (named atoms.new ops.now) atoms.new self.old heap.old.now heap.new.now) }
        ensures bytes { self.new.bytes ≡ self.old.bytes }
        ensures place { self.new.place ≡ place_behind self.old.place result }
        ensures finished { self.new.finished ≡ self.old.finished }
        ensures forward { IfOk result (GoesOn (length self.old.bytes) self.old.place) }
        ensures live { IfOk result (IsLiveFed heap.new.now) }
        ensures heap { LeavesFed heap.old heap.new result }
        ensures names { KeepsTexts atoms.old atoms.new }
        ensures known { All (HasNamesBelow (length atoms.old)) heap.old.now.terms → All (HasNamesBelow (length atoms.new)) heap.new.now.terms }
    {
        if !self.finished && !self.may_be_decided() {
            return Ok(Fed::Needs);
        }
        self.read(heap, atoms, ops)
    }

    /// Whether what stands at the place may be decided by bytes that were not tried.
    fn may_be_decided(&mut self) -> bool
        ensures same { self.new ≡ self.old }
        ensures undecided { result ≡ false → DecideNothing self.old.bytes self.old.place }
    {
        let from = untried(self.place, self.tried);
        if has_full_stop(&self.bytes, from) {
            return true;
        }
        self.tried = self.bytes.len();
        false
    }

    /// Whether a reading is that of all texts that begin with the bytes, or no more of them come.
    fn is_settled(&self, read: &Read) -> bool
        ensures { result ≡ (self.now.finished || goes_on_before read.now (length self.now.bytes)) }
    {
        self.finished || goes_on_before(read, self.bytes.len())
    }

    /// Goes on to the place behind what was read.
    fn go_on(&mut self, read: &Read)
        requires { place_after self.old.place read.now ≤ length self.old.bytes }
        ensures { self.new ≡ record self.old { place = place_after self.old.place read.now } }
    {
        self.place = place_after(self.place, read);
        self.tried = self.place;
    }

    /// Notes that the bytes decide nothing at the place, if they don't, whatever the operators are.
    fn note_tried(&mut self)
        ensures { self.new ≡ self.old }
    {
        if !may_go_on(&self.bytes, self.place) {
            self.tried = self.bytes.len();
        }
    }

    /// Reads at the place, all bytes again that stand there.
    fn read(&mut self, heap: &mut Heap, atoms: &mut Atoms, ops: &Ops) -> Result<Fed, AllocError>
        ensures fed { IfOk result (IsFed (named atoms.new ops.now) atoms.new self.old heap.old.now heap.new.now) }
        ensures bytes { self.new.bytes ≡ self.old.bytes }
        ensures place { self.new.place ≡ place_behind self.old.place result }
        ensures finished { self.new.finished ≡ self.old.finished }
        ensures forward { IfOk result (GoesOn (length self.old.bytes) self.old.place) }
        ensures live { IfOk result (IsLiveFed heap.new.now) }
        ensures heap { LeavesFed heap.old heap.new result }
        ensures names { KeepsTexts atoms.old atoms.new }
        ensures known { All (HasNamesBelow (length atoms.old)) heap.old.now.terms → All (HasNamesBelow (length atoms.new)) heap.new.now.terms }
    {
        let mark = heap.mark()?;
        let read = match read_clause(heap, atoms, ops, &self.bytes, self.place) {
            Ok(read) => read,
            Err(error) => {
                heap.undo(mark);
                return Err(error);
            }
        };
        if self.is_settled(&read) {
            heap.forget(mark);
            self.go_on(&read);
            return Ok(Fed::Read(read));
        }
        heap.undo(mark);
        self.note_tried();
        Ok(Fed::Needs)
    }
}
