// What stands at a place of a text.

ghost use Rattle.std.specs.Prelude.{◌≡◌, ◌≤◌, ℕ, List, All, None, length, IfOk, OnOk, if◌then◌else◌};
ghost use Rattle.cq_term.specs.Texts.{KeepsTexts, AreDifferent};
ghost use Rattle.cq_ops.specs.Tables.{named};
ghost use Rattle.spec_numbers.specs.Texts.{Text};
ghost use Rattle.cq_term.specs.Names.{HasNamesBelow};
ghost use Rattle.cq_term.specs.Trees.{KnowsTerms};
ghost use Rattle.cq_read.specs.Known.{AreGrammarNames};
ghost use Rattle.spec_text.specs.Readings.{Resumes};
ghost use Rattle.cq_read.specs.Growth.{Grows};
ghost use Rattle.cq_read.specs.Shown.{read_of, IsReadOf, IsForward, is_clause, MachineRead, IsLiveRead, Leaves};
ghost use Rattle.cq_read.specs.Clauses.{IsLive, AreTextsFor, KeepsNames, whole_term};
ghost use Rattle.cq_read.specs.Running.{IsRunning, Turned, IsStopped};

use crate::clause::Clause;
use crate::lex::next_token;
use crate::names::VariableName;
use crate::parse::{Grammar, GrammarNames};
use crate::resuming::{place_of, resume};
use crate::tokens::is_last;
use cq_ops::Ops;
use cq_term::atoms::Atoms;
use cq_term::{Heap, TermId};
use cq_trail::Undo;
use std::alloc::AllocError;

/// What stands at a place of a text. Places count in the text's bytes.
#[derive(Drop)]
pub enum Read {
    /// A clause: its term, its named variables by first occurrence, and the place behind its end token.
    Clause {
        term: TermId,
        names: Vec<VariableName>,
        next: usize,
    },
    /// Only layout and comments are left.
    End,
    /// An error of syntax: its place, and the place where reading goes on.
    Syntax {
        at: usize,
        resume: usize,
    },
}

/// Whether a clause was read.
fn is_clause(read: &Read) -> bool
    ensures { result ≡ is_clause read.now }
{
    matches!(read, Read::Clause { .. })
}

/// An error at a place.
fn error_at(text: &[u8], at: usize) -> Read
    requires { at ≤ length text.now }
    ensures { (resume : ℕ) × (result ≡ Read.Syntax at resume) × Resumes text.now at resume }
{
    Read::Syntax {
        at,
        resume: resume(text, at),
    }
}

/// What is read where the text ends, before or behind the first token of a clause.
fn at_the_end(text: &[u8], is_begun: bool) -> Read
    ensures { result ≡ (if is_begun then Read.Syntax (length text.now) (length text.now) else Read.End) }
{
    if is_begun {
        Read::Syntax {
            at: text.len(),
            resume: text.len(),
        }
    } else {
        Read::End
    }
}

/// What the next token of a clause leads to.
#[derive(Drop)]
enum Turn {
    /// The clause goes on at a place.
    Goes(usize),
    /// It doesn't, and this is read.
    Stops(Read),
}

/// Reads one more token of a clause that began at a place.
fn read_token(
    grammar: &Grammar<'_>,
    heap: &mut Heap,
    atoms: &mut Atoms,
    text: &[u8],
    from: usize,
    place: usize,
    clause: &mut Clause,
) -> Result<Turn, AllocError>
    requires fits { place ≤ length text.now }
    requires live { IsLive heap.old.now clause.old }
    requires begun { whole_term clause.old.state ≡ None }
    requires names { AreGrammarNames atoms.old grammar.now.names.now }
    requires different { AreDifferent atoms.old }
    ensures turned { (n : ℕ) → IsRunning grammar.now.ops.now text.now from n atoms.old heap.old.now clause.old place
        → IfOk result (Turned grammar.now.ops.now text.now from n atoms.new heap.new.now clause.new place) }
    ensures known { (texts : List Text) → AreTextsFor atoms.new grammar.now.names.now clause.old texts
        → OnOk result (KeepsNames texts heap.old.now clause.old heap.new.now clause.new) }
    ensures heap { Grows heap.old heap.new }
    ensures kept { KeepsTexts atoms.old atoms.new }
    ensures different { AreDifferent atoms.new }
{
    let token = match next_token(text, place) {
        Ok(token) => token,
        Err(fault) => return Ok(Turn::Stops(error_at(text, place_of(fault)))),
    };
    if is_last(&token) {
        return Ok(Turn::Stops(at_the_end(text, from < place)));
    }
    if clause.advance(grammar, heap, atoms, text, &token)? {
        Ok(Turn::Goes(token.span.end))
    } else {
        Ok(Turn::Stops(error_at(text, token.span.start)))
    }
}

/// Reads the tokens of a clause that began at a place, up to its end or to what is read in its stead.
fn read_tokens(
    grammar: &Grammar<'_>,
    heap: &mut Heap,
    atoms: &mut Atoms,
    text: &[u8],
    from: usize,
    clause: &mut Clause,
) -> Result<Turn, AllocError>
    requires fits { from ≤ length text.now }
    requires names { AreGrammarNames atoms.old grammar.now.names.now }
    requires different { AreDifferent atoms.old }
    requires running { IsRunning grammar.now.ops.now text.now from (length heap.old.now.images) atoms.old heap.old.now clause.old from }
    ensures read { IfOk result (IsStopped grammar.now.ops.now text.now from (length heap.old.now.images) atoms.new heap.new.now clause.new) }
    ensures known { (texts : List Text) → KeepsTexts atoms.new texts → AreDifferent texts
        → OnOk result (KeepsNames texts heap.old.now clause.old heap.new.now clause.new) }
    ensures heap { Grows heap.old heap.new }
    ensures kept { KeepsTexts atoms.old atoms.new }
    ensures different { AreDifferent atoms.new }
{
    let mut place = from;
    loop {
        if clause.whole().is_some() {
            return Ok(Turn::Goes(place));
        }
        match read_token(grammar, heap, atoms, text, from, place, clause)? {
            Turn::Goes(next) => place = next,
            stops => return Ok(stops),
        }
    }
}

/// Reads a clause from a place on. A heap that is not marked keeps what was built of one that ends in an error.
fn read_on(
    grammar: &Grammar<'_>,
    heap: &mut Heap,
    atoms: &mut Atoms,
    text: &[u8],
    from: usize,
) -> Result<Read, AllocError>
    requires place { from ≤ length text.now }
    requires names { AreGrammarNames atoms.old grammar.now.names.now }
    requires different { AreDifferent atoms.old }
    ensures reads { let ops = named atoms.new grammar.now.ops.now in
        IfOk result (λ read. MachineRead ops text.now from (length heap.old.now.images) (read_of atoms.new heap.new.now read)) }
    ensures live { IfOk result (IsLiveRead heap.new.now) }
    ensures known { KnowsTerms atoms.old heap.old.now.terms → OnOk result (KnowsTerms atoms.new heap.new.now.terms) }
    ensures heap { Grows heap.old heap.new }
    ensures kept { KeepsTexts atoms.old atoms.new }
    ensures different { AreDifferent atoms.new }
{
    let mut clause = Clause::new(heap.alloc());
    match read_tokens(grammar, heap, atoms, text, from, &mut clause)? {
        Turn::Goes(next) => clause.read(next),
        Turn::Stops(read) => Ok(read),
    }
}

/// What stands at a place of a text: a clause, whose term is then on the heap, with its variables new ones in the order of
/// their first occurrence, or only layout and comments, or an error of syntax with the place where reading goes on.
///
/// It fails where memory is wanting, alone. Then, at the end and at an error, the heap is as it was; names may have got
/// numbers in each case. If all terms of the heap have names that `atoms` knows, they still have.
pub fn read_clause(
    heap: &mut Heap,
    atoms: &mut Atoms,
    ops: &Ops,
    text: &[u8],
    at: usize,
) -> Result<Read, AllocError>
    requires { at ≤ length text.now }
    ensures reads { IfOk result (λ read. IsReadOf (named atoms.new ops.now) text.now at (length heap.old.now.images) (read_of atoms.new heap.new.now read)) }
    ensures forward { IfOk result (IsForward (length text.now) at) }
    ensures live { IfOk result (IsLiveRead heap.new.now) }
    ensures heap { Leaves heap.old heap.new result }
    ensures names { KeepsTexts atoms.old atoms.new }
    ensures known { All (HasNamesBelow (length atoms.old)) heap.old.now.terms → All (HasNamesBelow (length atoms.new)) heap.new.now.terms }
{
    let names = GrammarNames::new(atoms)?;
    let grammar = Grammar { ops, names: &names };
    let mark = heap.mark()?;
    let read = match read_on(&grammar, heap, atoms, text, at) {
        Ok(read) => read,
        Err(error) => {
            heap.undo(mark);
            return Err(error);
        }
    };
    if is_clause(&read) {
        heap.forget(mark);
        return Ok(read);
    }
    heap.undo(mark);
    Ok(read)
}
