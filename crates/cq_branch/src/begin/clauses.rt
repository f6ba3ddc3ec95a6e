// The beginning of a clause of a call.

ghost use Rattle.std.specs.Prelude.{◌≡◌, ◌<◌, ◌≤◌, ℕ, List, length, IfOk, OnErr, IfSome, IfNone, IsOk};
ghost use Rattle.spec_numbers.specs.Texts.{Text};
ghost use Rattle.spec_terms.specs.Term.{named};
ghost use Rattle.spec_builtins.specs.Built.{is_atom};
ghost use Rattle.spec_builtins.specs.Kinds.{is_callable};
ghost use Rattle.cq_term.specs.Texts.{AreDifferent, text_of};
ghost use Rattle.cq_control.specs.Items.{items_at};
ghost use Rattle.cq_frac.specs.declared.Pair.{Pair};
ghost use Rattle.cq_store.specs.declared.store.StoreFault.TheVariants.{Overflow, Pivots};
ghost use Rattle.cq_resolve.specs.Database.{IsCounted};
ghost use Rattle.cq_term.specs.Names.{HasNamesBelow};
ghost use Rattle.cq_term.specs.Shown.{view_of};
ghost use Rattle.cq_settle.specs.Rest.{IsReady};
ghost use Rattle.cq_settle.specs.Worlds.{now_of, saved_of, room_of};
ghost use Rattle.cq_settle.specs.Settled.{MayRefuse, MayTake, KeepsMarks};
ghost use Rattle.cq_branch.specs.Lists.{HasCells, KeepsLists};
ghost use Rattle.cq_branch.specs.Worlds.{value};
ghost use Rattle.cq_branch.specs.Begun.{IfGoes, IfPruned};
ghost use Rattle.cq_branch.specs.BeginCalls.{body_cells, ClauseComes, OfClause};

use crate::begin::beginning::{Begun, proceed};
use crate::begin::entering::{Entry, enter};
use cq_control::{Continuation, Continuations};
use cq_resolve::program::clauses_are_counted;
use cq_resolve::resolve;
use cq_resolve::stored::Clause;
use cq_settle::Work;
use cq_settle::rest::{equated_worlds_may_be_settled, look_at};
use cq_settle::world::World;
use cq_store::store::StoreFault;
use cq_term::atoms::Atoms;
use cq_term::{Newly, TermId, View};
use cq_trail::Undo;
use spec_engine::machine::Cell;
use std::alloc::AllocError;

/// A call begins one of its clauses: its head, under new variables, is made equal to the goal, the world is settled, and its body
/// goes in front of the continuation, behind the goals that woke. A cut in the body goes back to the height. Where the head
/// can't be made equal, or the constraints have no solution then, and after an error, the world is as at the call.
#[inline(always)]
pub fn begin_clause(
    world: &mut World,
    lists: &mut Continuations<Cell>,
    atoms: &Atoms,
    clause: &Clause,
    goal: TermId,
    height: usize,
    rest: Continuation,
) -> Result<Begun, StoreFault>
    requires ready { IsReady atoms.now (now_of world.old) }
    requires different { AreDifferent atoms.now }
    requires clause { IsCounted (length atoms.now) clause.now }
    requires goal { goal < length world.old.heap.now.terms }
    requires rest { rest < length lists.old.now }
    ensures comes { IfOk result (ClauseComes atoms.now (value world.old lists.old.now) (value world.new lists.new.now) goal height rest clause.now) }

    // Where the branch is pruned, and after an error, the world is as it was.
    ensures unchanged { IfOk result (λ b. IfPruned b (now_of world.new ≡ now_of world.old)) }
    ensures err { OnErr result (now_of world.new ≡ now_of world.old) }

    // A stop is due while the branch is settled.
    ensures overflow { (pair : Pair) → result ≡ Err (Overflow pair)
        → OfClause atoms.now (value world.old lists.old.now) goal height rest clause.now (λ st p. MayRefuse st p pair) }
    ensures pivots { (n : ℕ) → result ≡ Err (Pivots n) → (n ≡ world.old.store.pivots)
        × OfClause atoms.now (value world.old lists.old.now) goal height rest clause.now (λ st p. MayTake st p n) }
    ensures there { IfOk result (λ b. IfGoes b (λ k. k < length lists.new.now)) }
    ensures keeps { KeepsLists lists.old.now lists.new.now }
    ensures lists { lists.new.saved ≡ lists.old.saved }
    ensures saved { saved_of world.new ≡ saved_of world.old }
    ensures budget { world.new.store.pivots ≡ world.old.store.pivots }
    ensures room { room_of world.old ≤ room_of world.new }
{
    match begin_free(world, lists, atoms, clause, goal, height, rest)? {
        Some(begun) => Ok(begun),
        None => begin_marked(world, lists, atoms, clause, goal, height, rest),
    }
}

/// The same where nothing is to be settled once the head is made equal: then nothing can fail any more, and the heap alone is
/// marked. None, with nothing changed, where something is.
fn begin_free(
    world: &mut World,
    lists: &mut Continuations<Cell>,
    atoms: &Atoms,
    clause: &Clause,
    goal: TermId,
    height: usize,
    rest: Continuation,
) -> Result<Option<Begun>, AllocError>
    requires ready { IsReady atoms.now (now_of world.old) }
    requires different { AreDifferent atoms.now }
    requires clause { IsCounted (length atoms.now) clause.now }
    requires goal { goal < length world.old.heap.now.terms }
    requires rest { rest < length lists.old.now }
    ensures comes { IfOk result (λ o. IfSome o
        (ClauseComes atoms.now (value world.old lists.old.now) (value world.new lists.new.now) goal height rest clause.now)) }
    ensures unchanged { IfOk result (λ o. IfSome o (λ b. IfPruned b (now_of world.new ≡ now_of world.old))) }
    ensures none { IfOk result (λ o. IfNone o (value world.new lists.new.now ≡ value world.old lists.old.now)) }
    ensures err { OnErr result (now_of world.new ≡ now_of world.old) }
    ensures there { IfOk result (λ o. IfSome o (λ b. IfGoes b (λ k. k < length lists.new.now))) }
    ensures keeps { KeepsLists lists.old.now lists.new.now }
    ensures lists { lists.new.saved ≡ lists.old.saved }
    ensures marks { KeepsMarks world.old world.new }
{
    clauses_are_counted();
    equated_worlds_may_be_settled();
    look_at(&world.heap, goal);
    let _told = world.store.told();
    lists.reserve_cells(1)?;
    let mut newly = world.heap.spare_newly();
    let entry = enter(clause, &mut world.heap, &world.attrs, &mut newly, goal)?;
    world.heap.keep_newly(newly);
    match entry {
        Entry::Body(body) => {
            let behind = body_before(clause, lists, atoms, body, height, rest).unwrap();
            Ok(Some(Begun::Goes(behind)))
        }
        Entry::Clash => Ok(Some(Begun::Pruned)),
        Entry::Unsettled => Ok(None),
    }
}

/// The same behind a mark of the whole world, whatever is to be settled.
fn begin_marked(
    world: &mut World,
    lists: &mut Continuations<Cell>,
    atoms: &Atoms,
    clause: &Clause,
    goal: TermId,
    height: usize,
    rest: Continuation,
) -> Result<Begun, StoreFault>
    requires ready { IsReady atoms.now (now_of world.old) }
    requires different { AreDifferent atoms.now }
    requires clause { IsCounted (length atoms.now) clause.now }
    requires goal { goal < length world.old.heap.now.terms }
    requires rest { rest < length lists.old.now }
    ensures comes { IfOk result (ClauseComes atoms.now (value world.old lists.old.now) (value world.new lists.new.now) goal height rest clause.now) }
    ensures unchanged { IfOk result (λ b. IfPruned b (now_of world.new ≡ now_of world.old)) }
    ensures err { OnErr result (now_of world.new ≡ now_of world.old) }
    ensures overflow { (pair : Pair) → result ≡ Err (Overflow pair)
        → OfClause atoms.now (value world.old lists.old.now) goal height rest clause.now (λ st p. MayRefuse st p pair) }
    ensures pivots { (n : ℕ) → result ≡ Err (Pivots n) → (n ≡ world.old.store.pivots)
        × OfClause atoms.now (value world.old lists.old.now) goal height rest clause.now (λ st p. MayTake st p n) }
    ensures there { IfOk result (λ b. IfGoes b (λ k. k < length lists.new.now)) }
    ensures keeps { KeepsLists lists.old.now lists.new.now }
    ensures lists { lists.new.saved ≡ lists.old.saved }
    ensures saved { saved_of world.new ≡ saved_of world.old }
    ensures budget { world.new.store.pivots ≡ world.old.store.pivots }
    ensures room { room_of world.old ≤ room_of world.new }
{
    let start = world.mark()?;
    match try_clause(world, lists, atoms, clause, goal, height, rest) {
        Ok(begun) => match begun {
            Begun::Goes(first) => {
                world.forget(start);
                Ok(Begun::Goes(first))
            }
            Begun::Pruned => {
                world.undo(start);
                Ok(Begun::Pruned)
            }
        },
        Err(fault) => {
            world.undo(start);
            Err(fault)
        }
    }
}

/// The same, but for what was done before the branch was pruned, or before an error.
fn try_clause(
    world: &mut World,
    lists: &mut Continuations<Cell>,
    atoms: &Atoms,
    clause: &Clause,
    goal: TermId,
    height: usize,
    rest: Continuation,
) -> Result<Begun, StoreFault>
    requires ready { IsReady atoms.now (now_of world.old) }
    requires different { AreDifferent atoms.now }
    requires clause { IsCounted (length atoms.now) clause.now }
    requires goal { goal < length world.old.heap.now.terms }
    requires rest { rest < length lists.old.now }
    ensures comes { IfOk result (ClauseComes atoms.now (value world.old lists.old.now) (value world.new lists.new.now) goal height rest clause.now) }
    ensures overflow { (pair : Pair) → result ≡ Err (Overflow pair)
        → OfClause atoms.now (value world.old lists.old.now) goal height rest clause.now (λ st p. MayRefuse st p pair) }
    ensures pivots { (n : ℕ) → result ≡ Err (Pivots n) → (n ≡ world.old.store.pivots)
        × OfClause atoms.now (value world.old lists.old.now) goal height rest clause.now (λ st p. MayTake st p n) }
    ensures there { IfOk result (λ b. IfGoes b (λ k. k < length lists.new.now)) }
    ensures keeps { KeepsLists lists.old.now lists.new.now }
    ensures lists { lists.new.saved ≡ lists.old.saved }
    ensures marks { KeepsMarks world.old world.new }
{
    clauses_are_counted();
    equated_worlds_may_be_settled();
    look_at(&world.heap, goal);
    let mut newly = Newly::new(world.heap.alloc());
    let Some(body) = resolve(clause, &mut world.heap, &mut newly, goal)? else {
        return Ok(Begun::Pruned);
    };
    let behind = body_before(clause, lists, atoms, body, height, rest)?;
    let told = Vec::new(world.heap.alloc());
    let rows = Vec::new(world.heap.alloc());
    proceed(world, lists, atoms, Work { newly, told, rows }, behind)
}

/// The body of a clause in front of a continuation; the body `true` adds nothing. A variable as the body is called, whatever
/// it was made equal to.
#[inline(always)]
fn body_before(
    clause: &Clause,
    lists: &mut Continuations<Cell>,
    atoms: &Atoms,
    body: TermId,
    height: usize,
    rest: Continuation,
) -> Result<Continuation, AllocError>
    requires names { HasNamesBelow (length atoms.now) clause.now.body }
    requires rest { rest < length lists.old.now }
    ensures cells { IfOk result (λ k. HasCells lists.new.now k
        (body_cells (named (text_of atoms.now) clause.now.body) body height (items_at lists.old.now rest))) }
    ensures keeps { KeepsLists lists.old.now lists.new.now }
    ensures saved { lists.new.saved ≡ lists.old.saved }
    ensures prepared { 0 < lists.old.ready → IsOk result }
{
    if is_true(clause, atoms) {
        return Ok(rest);
    }
    let cell = if is_callable(clause) {
        Cell::Goal(body, height)
    } else {
        Cell::Call(body)
    };
    let k = lists.before(cell, rest)?;
    Ok(k)
}

/// What the body of a clause shows at its head.
fn body_shown(clause: &Clause) -> View
    ensures { result ≡ view_of clause.now.body }
{
    clause.body()[0].view()
}

/// Whether the body of a clause is the atom `true`.
fn is_true(clause: &Clause, atoms: &Atoms) -> bool
    requires { HasNamesBelow (length atoms.now) clause.now.body }
    ensures { result ≡ is_atom "true" (named (text_of atoms.now) clause.now.body) }
{
    match body_shown(clause) {
        View::Name(name) => atoms.text(name) == "true",
        View::Var(_) | View::Number(_) | View::Compound(_, _) => false,
    }
}

/// Whether the body of a clause is an atom or a compound.
fn is_callable(clause: &Clause) -> bool
    ensures { (texts : List Text) → result ≡ is_callable (named (text_of texts) clause.now.body) }
{
    match body_shown(clause) {
        View::Name(_) | View::Compound(_, _) => true,
        View::Var(_) | View::Number(_) => false,
    }
}
