// What a clause of a text is for.

ghost use Rattle.std.specs.Prelude.{◌≡◌, ◌<◌, List, false, length, IfSome, IsNone};
ghost use Rattle.spec_numbers.specs.Texts.{Text};
ghost use Rattle.spec_transcript.specs.Purposes as purposes;
ghost use Rattle.cq_term.specs.Trees.{tree, KnowsTerms};
ghost use Rattle.cq_interpreter.specs.Purposes.{IsPurpose, IsUnary, is_unary, as_purpose, term_of};
ghost use Rattle.cq_term.specs.Meaning.{HeapTerm, at};

use cq_term::atoms::Atoms;
use cq_term::{Atom, Heap, TermId, View};
use spec_transcript::Source;

/// What a clause is for, with its term.
#[derive(Clone, Copy)]
pub enum Purpose {
    /// A goal that runs at once.
    Directive(TermId),
    /// A goal that runs after the file.
    Initialization(TermId),
    /// A goal of which all answers are written.
    Query(TermId),
    /// A clause to be added.
    Fact(TermId),
}

/// A name over one argument.
#[derive(Clone, Copy)]
struct Unary {
    name: Atom,
    argument: TermId,
}

/// What a clause of a text is for.
pub fn purpose_of(heap: &Heap, atoms: &Atoms, source: Source, clause: TermId) -> Purpose
    requires live { clause < length heap.now.now.terms }
    requires names { KnowsTerms atoms.now heap.now.now.terms }
    ensures { IsPurpose atoms.now heap.now.now.terms source clause result }
{
    let Some(whole) = unary_of(heap, clause) else {
        return unmarked(source, clause);
    };
    let mark = atoms.text(whole.name);
    if mark == ":-" {
        return directive(heap, atoms, source, whole.argument);
    }
    if mark == "?-" {
        return Purpose::Query(whole.argument);
    }
    unmarked(source, clause)
}

/// A clause that is neither a directive nor marked as a query.
fn unmarked(source: Source, clause: TermId) -> Purpose
    ensures is { (texts : List Text) (ts : List HeapTerm) → as_purpose texts ts result ≡ purposes.unmarked source (tree texts ts clause) }
    ensures term { term_of result ≡ clause }
{
    match source {
        Source::File => Purpose::Fact(clause),
        Source::Input => Purpose::Query(clause),
    }
}

/// A directive; `initialization(G)` waits where it is the whole of a file's.
fn directive(heap: &Heap, atoms: &Atoms, source: Source, goal: TermId) -> Purpose
    requires live { goal < length heap.now.now.terms }
    requires names { KnowsTerms atoms.now heap.now.now.terms }
    ensures is { as_purpose atoms.now heap.now.now.terms result ≡ purposes.directive source (tree atoms.now heap.now.now.terms goal) }
    ensures live { term_of result < length heap.now.now.terms }
{
    if source == Source::Input {
        return Purpose::Directive(goal);
    }
    let Some(inner) = unary_of(heap, goal) else {
        return Purpose::Directive(goal);
    };
    if atoms.text(inner.name) == "initialization" {
        Purpose::Initialization(inner.argument)
    } else {
        Purpose::Directive(goal)
    }
}

/// The name and the argument of a term; None where it is no compound of one argument.
fn unary_of(heap: &Heap, id: TermId) -> Option<Unary>
    requires { id < length heap.now.now.terms }
    ensures some { IfSome result (IsUnary heap.now.now.terms id) }
    ensures none { IsNone result → is_unary (at heap.now.now.terms id) ≡ false }
{
    match heap.view(id) {
        View::Compound(name, arity) => {
            if arity != 1 {
                return None;
            }
            let argument = heap.arg(id, 0);
            Some(Unary { name, argument })
        }
        _ => None,
    }
}
