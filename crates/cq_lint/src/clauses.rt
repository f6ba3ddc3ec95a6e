// A clause of a text: what it defines, calls and declares.

ghost use Rattle.std.specs.Prelude.{◌≡◌, ◌<◌, ◌≤◌, length, All, map, IfOk, OnOk};
ghost use Rattle.cq_term.specs.Trees.{tree, KnowsTerms};
ghost use Rattle.cq_built.specs.Errors.{indicator_of};
ghost use Rattle.cq_ops.specs.Tables.{AreNamed, named};
ghost use Rattle.cq_lint.specs.Clauses.{argument_of, calls_if, declared_as, goal_of, head_if, operators_behind, directive_of, parts_of, rule_or_fact};
ghost use Rattle.cq_lint.specs.ClauseParts.{AreParts, IsLiveIf, IsOperatorGoal, tree_if};
ghost use Rattle.cq_lint.specs.Sentences.{IsClause, start_of};

use crate::goals::{calls, predicate_of};
use crate::predicates::Predicate;
use crate::sentences::Clause;
use crate::shapes::{only_of, three_of};
use crate::variables::variables_between;
use cq_built::BuiltinFault;
use cq_built::sides::sides_of;
use cq_goals::declarations::{OperatorGoal, check_declaration, declare_operators};
use cq_ops::Ops;
use cq_read::lex::next_token;
use cq_term::atoms::Atoms;
use cq_term::{Heap, Pred, TermId};
use std::alloc::{AllocError, Global};

/// The head and the body of a clause; a fact has no body, and a directive or a query no head.
#[derive(Clone, Copy)]
struct Parts {
    head: Option<TermId>,
    body: Option<TermId>,
}

/// The clause of a term, which was read from one place of a text to another.
pub fn clause_of(
    heap: &Heap,
    atoms: &Atoms,
    term: TermId,
    text: &[u8],
    from: usize,
    next: usize,
) -> Result<Clause, AllocError>
    requires live { term < length heap.now.now.terms }
    requires names { KnowsTerms atoms.now heap.now.now.terms }
    requires place { from ≤ length text.now }
    ensures { IfOk result (IsClause text.now from next (tree atoms.now heap.now.now.terms term)) }
{
    let parts = parts_of(heap, atoms, term);
    Ok(Clause {
        at: start_of(text, from),
        head: head_predicate(heap, atoms, parts.head)?,
        calls: body_calls(heap, atoms, parts.body)?,
        dynamic: declared_as(heap, atoms, term, "dynamic")?,
        scattered: declared_as(heap, atoms, term, "discontiguous")?,
        is_query: argument(heap, atoms, term, "?-").is_some(),
        variables: variables_between(heap.alloc(), text, from, next)?,
    })
}

/// Where the next token begins, or the place itself where none stands there.
fn start_of(text: &[u8], from: usize) -> usize
    requires { from ≤ length text.now }
    ensures { result ≡ start_of text.now from }
{
    match next_token(text, from) {
        Ok(token) => token.span.start,
        Err(_) => from,
    }
}

/// The argument of a term NAME(ARGUMENT).
fn argument(heap: &Heap, atoms: &Atoms, term: TermId, name: &str) -> Option<TermId>
    requires live { term < length heap.now.now.terms }
    requires names { KnowsTerms atoms.now heap.now.now.terms }
    ensures argument { tree_if atoms.now heap.now.now.terms result ≡ argument_of name.now (tree atoms.now heap.now.now.terms term) }
    ensures live { IsLiveIf heap.now.now.terms result }
{
    let Some(only) = only_of(heap, term) else {
        return None;
    };
    if atoms.text(only.name) == name {
        return Some(only.argument);
    }
    None
}

/// The head and the body of a clause.
fn parts_of(heap: &Heap, atoms: &Atoms, term: TermId) -> Parts
    requires live { term < length heap.now.now.terms }
    requires names { KnowsTerms atoms.now heap.now.now.terms }
    ensures { AreParts atoms.now heap.now.now.terms (parts_of (tree atoms.now heap.now.now.terms term)) result }
{
    match goal_of(heap, atoms, term) {
        Some(goal) => Parts {
            head: None,
            body: Some(goal),
        },
        None => rule_or_fact(heap, atoms, term),
    }
}

/// The head and the body of a rule, or the head that a fact is.
fn rule_or_fact(heap: &Heap, atoms: &Atoms, term: TermId) -> Parts
    requires live { term < length heap.now.now.terms }
    requires names { KnowsTerms atoms.now heap.now.now.terms }
    ensures { AreParts atoms.now heap.now.now.terms (rule_or_fact (tree atoms.now heap.now.now.terms term)) result }
{
    let fact = Parts {
        head: Some(term),
        body: None,
    };
    let Some(sides) = sides_of(heap, term) else {
        return fact;
    };
    if atoms.text(sides.name) == ":-" {
        return Parts {
            head: Some(sides.left),
            body: Some(sides.right),
        };
    }
    fact
}

/// The goal of a directive or a query.
fn goal_of(heap: &Heap, atoms: &Atoms, term: TermId) -> Option<TermId>
    requires live { term < length heap.now.now.terms }
    requires names { KnowsTerms atoms.now heap.now.now.terms }
    ensures goal { tree_if atoms.now heap.now.now.terms result ≡ goal_of (tree atoms.now heap.now.now.terms term) }
    ensures live { IsLiveIf heap.now.now.terms result }
{
    match argument(heap, atoms, term, ":-") {
        Some(goal) => Some(goal),
        None => argument(heap, atoms, term, "?-"),
    }
}

/// The predicate of a head, if it has one.
fn head_predicate(
    heap: &Heap,
    atoms: &Atoms,
    head: Option<TermId>,
) -> Result<Option<Predicate>, AllocError>
    requires live { IsLiveIf heap.now.now.terms head }
    requires names { KnowsTerms atoms.now heap.now.now.terms }
    ensures { IfOk result (λ p. p ≡ head_if (tree_if atoms.now heap.now.now.terms head)) }
{
    match head {
        Some(head) => predicate_of(heap, atoms, head),
        None => Ok(None),
    }
}

/// The predicates that a body calls, if there is one.
fn body_calls(
    heap: &Heap,
    atoms: &Atoms,
    body: Option<TermId>,
) -> Result<Vec<Predicate>, AllocError>
    requires live { IsLiveIf heap.now.now.terms body }
    requires names { KnowsTerms atoms.now heap.now.now.terms }
    ensures { IfOk result (λ called. called.items ≡ calls_if (tree_if atoms.now heap.now.now.terms body)) }
{
    match body {
        Some(body) => calls(heap, atoms, body),
        None => Ok(Vec::new(heap.alloc())),
    }
}

/// The predicates that a directive WORD(PREDICATES) declares.
fn declared_as(
    heap: &Heap,
    atoms: &Atoms,
    term: TermId,
    word: &str,
) -> Result<Vec<Predicate>, AllocError>
    requires live { term < length heap.now.now.terms }
    requires names { KnowsTerms atoms.now heap.now.now.terms }
    ensures { IfOk result (λ found. found.items ≡ declared_as word.now (tree atoms.now heap.now.now.terms term)) }
{
    let Some(goal) = argument(heap, atoms, term, ":-") else {
        return Ok(Vec::new(heap.alloc()));
    };
    let Some(listed) = argument(heap, atoms, goal, word) else {
        return Ok(Vec::new(heap.alloc()));
    };
    match check_declaration(heap, atoms, listed) {
        Ok(found) => as_predicates(heap.alloc(), atoms, &found),
        Err(BuiltinFault::NoMemory) => Err(AllocError),
        Err(BuiltinFault::Error(_)) => Ok(Vec::new(heap.alloc())),
    }
}

/// Predicates by their names' texts.
fn as_predicates(alloc: Global, atoms: &Atoms, found: &[Pred]) -> Result<Vec<Predicate>, AllocError>
    requires { All (λ p. p.name < length atoms.now) found.now }
    ensures { IfOk result (λ predicates. predicates.items ≡ map (indicator_of atoms.now) found.now) }
{
    let mut predicates = Vec::new(alloc);
    for pred in found {
        predicates.push(Predicate::new(alloc, atoms.text(pred.name), pred.arity)?)?;
    }
    Ok(predicates)
}

/// The goal op(PRIORITY,KIND,NAMES) that a directive is.
fn operator_goal(heap: &Heap, atoms: &Atoms, term: TermId) -> Option<OperatorGoal>
    requires live { term < length heap.now.now.terms }
    requires names { KnowsTerms atoms.now heap.now.now.terms }
    ensures { IsOperatorGoal atoms.now heap.now.now.terms (directive_of (tree atoms.now heap.now.now.terms term)) result }
{
    let Some(goal) = argument(heap, atoms, term, ":-") else {
        return None;
    };
    let Some(three) = three_of(heap, goal) else {
        return None;
    };
    if atoms.text(three.name) == "op" {
        return Some(OperatorGoal {
            priority: three.first,
            kind: three.second,
            names: three.third,
        });
    }
    None
}

/// Sets the operators that a directive sets. No other directive is run.
pub fn run_directive(
    heap: &Heap,
    atoms: &Atoms,
    term: TermId,
    ops: &mut Ops,
) -> Result<(), AllocError>
    requires live { term < length heap.now.now.terms }
    requires names { KnowsTerms atoms.now heap.now.now.terms }
    ensures set { OnOk result (named atoms.now ops.new ≡ operators_behind (tree atoms.now heap.now.now.terms term) (named atoms.now ops.old)) }
    ensures known { AreNamed atoms.now ops.old → AreNamed atoms.now ops.new }
{
    let Some(goal) = operator_goal(heap, atoms, term) else {
        return Ok(());
    };
    match declare_operators(heap, atoms, ops, goal) {
        Ok(()) => Ok(()),
        Err(BuiltinFault::NoMemory) => Err(AllocError),
        Err(BuiltinFault::Error(_)) => Ok(()),
    }
}
