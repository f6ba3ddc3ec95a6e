// Clauses are compared with one that is asked for.

ghost use Rattle.std.specs.Prelude.{◌≡◌, ◌<◌, ◌≤◌, ◌++◌, ℕ, List, None, IfNone, IfSome, IfOk, IfErr, OnOk, OnErr, length, if◌then◌else◌};
ghost use Rattle.spec_numbers.specs.Prefixes.{IsPrefix};
ghost use Rattle.spec_numbers.specs.Texts.{Text};
ghost use Rattle.spec_syntax.specs.Operators.{Ops};
ghost use Rattle.spec_builtins.specs.Clauses.{HeadBody, rule};
ghost use Rattle.spec_search.specs.Database.{clause_removed};
ghost use Rattle.cq_term.specs.Texts.{AreDifferent};
ghost use Rattle.cq_control.specs.Open.{AreMarked};
ghost use Rattle.cq_branch.specs.Begun.{IfGoes, IfPruned, Prunes};
ghost use Rattle.cq_branch.specs.Stops.{IsBack, ComesOn, AllStop as AllStopBack, still_waiting, waiting_in};
ghost use Rattle.cq_calls.specs.Trying.{IsGone};
ghost use Rattle.cq_frac.specs.declared.Pair.{Pair};
ghost use Rattle.cq_store.specs.declared.store.StoreFault.TheVariants.{Overflow, Pivots};
ghost use Rattle.cq_resolve.specs.Database.{IsCounted, IsProgram, as_database};
ghost use Rattle.cq_catch.specs.Revised.{KeepsShowing};
ghost use Rattle.cq_settle.specs.Settled.{MayRefuse, MayTake};
ghost use Rattle.cq_resolve.specs.StoredValue.{HaveNamesBelow};
ghost use Rattle.cq_term.specs.Names.{KeepsNames};
ghost use Rattle.cq_term.specs.Trees.{tree};
ghost use Rattle.cq_unify.specs.Copied.{unbound_from};
ghost use Rattle.cq_settle.specs.Rest.{IsReady};
ghost use Rattle.cq_settle.specs.Worlds.{now_of, saved_of};
ghost use Rattle.cq_branch.specs.Choices.{AreOpen};
ghost use Rattle.cq_branch.specs.Lists.{KeepsLists};
ghost use Rattle.cq_branch.specs.Worlds.{value, saved_values};
ghost use Rattle.cq_choices.specs.Held.{held, stack_of, HasMarks, IsOver};
ghost use Rattle.cq_catch.specs.Matching.{HasMatches, HasLeft, IsGoing, Reaches, AllStop, MatchGoes, OfMatch, ComparesTo, IsCompared, matched, moved_parts};

use crate::revise::walks_outlast_changes;
use cq_branch::begin::{Begun, begin};
use cq_branch::{Alternatives, Searching, Untried};
use cq_calls::leave_untried;
use cq_clauses::{ClauseNo, Clauses, Walk};
use cq_control::{Choices, Continuation, Continuations};
use cq_resolve::program::{
    ProgramClause, changes_are_those_of_the_database, clauses_are_counted, programs_stay_programs,
};
use cq_resolve::stored::Clause;
use cq_settle::rest::{equated_worlds_may_be_settled, look_at_pairs};
use cq_settle::world::World;
use cq_store::store::StoreFault;
use cq_term::atoms::Atoms;
use cq_term::{Heap, TermId, View};
use spec_engine::machine::Cell;
use std::alloc::AllocError;

/// A clause whose branch is kept, and the continuation that it goes on with.
#[derive(Clone, Copy)]
struct Matched {
    clause: ClauseNo,
    first: Continuation,
}

/// What became of the next clause.
#[derive(Clone, Copy)]
enum Compared {
    /// Its branch is kept.
    Goes(Matched),
    /// Its branch is pruned, and these clauses are left.
    Pruned(Walk),
    /// There was none, and the choice is gone.
    Ended,
}

/// The engine comes back to its newest choice, whose clauses are compared with one that is asked for, in order, up to one whose
/// branch is kept: the engine goes on with that, and the clause is removed where clauses are. None where there is none, and the
/// choice is gone. After an error no clause is removed, and the choice still has the clause that was compared, and those behind it.
pub fn try_matches(
    world: &mut Searching,
    choices: &mut Choices<Alternatives>,
    atoms: &Atoms,
    clauses: &mut Clauses<ProgramClause>,
) -> Result<Option<Continuation>, StoreFault>
    requires different { AreDifferent atoms.now }
    requires over { IsOver clauses.old (held atoms.now world.old.first world.old.second choices.old) }
    requires marked { HasMarks (held atoms.now world.old.first world.old.second choices.old) }
    requires newest { HasMatches choices.old }
    requires works { IsGoing clauses.old (held atoms.now world.old.first world.old.second choices.old) None }
    ensures comes { IfOk result (Reaches clauses.old (held atoms.now world.old.first world.old.second choices.old) None
        clauses.new (held atoms.now world.new.first world.new.second choices.new)) }
    ensures err { OnErr result (Reaches clauses.old (held atoms.now world.old.first world.old.second choices.old) None
        clauses.new (held atoms.now world.new.first world.new.second choices.new) None) }
    ensures stops { IfErr result (AllStop clauses.old (held atoms.now world.old.first world.old.second choices.old) None
        clauses.new (held atoms.now world.new.first world.new.second choices.new) world.old.first.store.pivots) }
    ensures gone { IfOk result (λ k. IfNone k (IsGone choices.old choices.new)) }
    ensures fewer { OnOk result (waiting_in (stack_of clauses.new (held atoms.now world.new.first world.new.second choices.new))
        < waiting_in (stack_of clauses.old (held atoms.now world.old.first world.old.second choices.old))) }
    ensures kept { OnErr result (clauses.new ≡ clauses.old) }
    ensures over { IsOver clauses.new (held atoms.now world.new.first world.new.second choices.new) }
    ensures marked { HasMarks (held atoms.now world.new.first world.new.second choices.new) }
    ensures budget { world.new.first.store.pivots ≡ world.old.first.store.pivots }
{
    let Some(newest) = choices.top() else {
        unreachable!();
    };
    let Alternatives::Matches(rule, untried, removing, behind) = newest else {
        unreachable!();
    };
    let asked = *rule;
    let removes = *removing;
    let rest = *behind;
    let walk = untried.walk();
    match compare_all(world, choices, atoms, clauses, asked, walk, removes, rest) {
        Ok(found) => match found {
            Some(matched) => {
                settle_removal(clauses, matched.clause, removes);
                Ok(Some(matched.first))
            }
            None => Ok(None),
        },
        Err(fault) => Err(fault),
    }
}

/// Removes the clause whose branch is kept, where clauses are removed.
fn settle_removal(clauses: &mut Clauses<ProgramClause>, number: ClauseNo, removes: bool)
    requires { number < length clauses.old.contents }
    ensures database { (texts : List Text) (ops : Ops) → as_database texts ops clauses.new
        ≡ (if removes then clause_removed number (as_database texts ops clauses.old) else as_database texts ops clauses.old) }
    ensures program { (texts : List Text) → IsProgram texts clauses.old → IsProgram texts clauses.new }
    ensures showing { KeepsShowing clauses.old clauses.new }
{
    changes_are_those_of_the_database();
    programs_stay_programs();
    walks_outlast_changes();
    if removes {
        clauses.remove(number);
        return;
    }
}

/// Compares the clauses of the newest choice in order, up to one whose branch is kept.
fn compare_all(
    world: &mut Searching,
    choices: &mut Choices<Alternatives>,
    atoms: &Atoms,
    clauses: &Clauses<ProgramClause>,
    asked: TermId,
    first: Walk,
    removes: bool,
    rest: Continuation,
) -> Result<Option<Matched>, StoreFault>
    requires different { AreDifferent atoms.now }
    requires program { IsProgram atoms.now clauses.now }
    requires marked { AreMarked (saved_values world.old.first world.old.second.saved) choices.old }
    requires open { AreOpen atoms.now clauses.now (saved_values world.old.first world.old.second.saved) choices.old }
    requires newest { HasLeft asked first removes rest choices.old }
    requires works { IsBack atoms.now clauses.now world.old.first world.old.second choices.old }
    ensures comes { IfOk result (ComparesTo atoms.now clauses.now removes world.old.first world.old.second choices.old
        world.new.first world.new.second choices.new) }
    ensures err { OnErr result (ComesOn atoms.now clauses.now world.old.first world.old.second choices.old
        world.new.first world.new.second choices.new None) }
    ensures stops { IfErr result (AllStopBack atoms.now clauses.now world.old.first world.old.second choices.old) }
    ensures known { IfOk result (λ o. IfSome o (λ m. m.clause < length clauses.now.contents)) }
    ensures gone { IfOk result (λ o. IfNone o (IsGone choices.old choices.new)) }
    ensures fewer { OnOk result (still_waiting atoms.now clauses.now world.new.first world.new.second choices.new
        < still_waiting atoms.now clauses.now world.old.first world.old.second choices.old) }
    ensures marked { AreMarked (saved_values world.new.first world.new.second.saved) choices.new }
    ensures open { AreOpen atoms.now clauses.now (saved_values world.new.first world.new.second.saved) choices.new }
    ensures budget { world.new.first.store.pivots ≡ world.old.first.store.pivots }
{
    let mut walk = first;
    'clauses: loop {
        match compare_next(world, choices, atoms, clauses, asked, walk, removes, rest) {
            Ok(compared) => match compared {
                Compared::Goes(matched) => return Ok(Some(matched)),
                Compared::Pruned(left) => walk = left,
                Compared::Ended => return Ok(None),
            },
            Err(fault) => return Err(fault),
        }
    }
}

/// Compares the next clause of the newest choice.
fn compare_next(
    world: &mut Searching,
    choices: &mut Choices<Alternatives>,
    atoms: &Atoms,
    clauses: &Clauses<ProgramClause>,
    asked: TermId,
    walk: Walk,
    removes: bool,
    rest: Continuation,
) -> Result<Compared, StoreFault>
    requires different { AreDifferent atoms.now }
    requires program { IsProgram atoms.now clauses.now }
    requires marked { AreMarked (saved_values world.old.first world.old.second.saved) choices.old }
    requires open { AreOpen atoms.now clauses.now (saved_values world.old.first world.old.second.saved) choices.old }
    requires newest { HasLeft asked walk removes rest choices.old }
    requires works { IsBack atoms.now clauses.now world.old.first world.old.second choices.old }
    ensures comes { IfOk result (λ r. ComparesTo atoms.now clauses.now removes world.old.first world.old.second choices.old
        world.new.first world.new.second choices.new (matched r)) }
    ensures err { OnErr result (ComesOn atoms.now clauses.now world.old.first world.old.second choices.old
        world.new.first world.new.second choices.new None) }
    ensures stops { IfErr result (AllStopBack atoms.now clauses.now world.old.first world.old.second choices.old) }
    ensures left { IfOk result (IsCompared clauses.now asked removes rest choices.old choices.new) }
    ensures fewer { OnOk result (still_waiting atoms.now clauses.now world.new.first world.new.second choices.new
        < still_waiting atoms.now clauses.now world.old.first world.old.second choices.old) }
    ensures marked { AreMarked (saved_values world.new.first world.new.second.saved) choices.new }
    ensures open { AreOpen atoms.now clauses.now (saved_values world.new.first world.new.second.saved) choices.new }
    ensures budget { world.new.first.store.pivots ≡ world.old.first.store.pivots }
{
    let mut left = walk;
    let Some(number) = clauses.step(&mut left) else {
        choices.back(world);
        return Ok(Compared::Ended);
    };
    choices.resume(world);
    let clause = clauses.content(number).clause();
    let untried = Untried::new(left);
    let others = Alternatives::Matches(asked, untried, removes, rest);
    match begin_match(
        &mut world.first,
        &mut world.second,
        atoms,
        clause,
        asked,
        rest,
    ) {
        Ok(begun) => match begun {
            Begun::Goes(first) => {
                leave_untried(world, choices, &left, others);
                Ok(Compared::Goes(Matched {
                    clause: number,
                    first,
                }))
            }
            Begun::Pruned => {
                choices.renew(others);
                Ok(Compared::Pruned(left))
            }
        },
        Err(fault) => Err(fault),
    }
}

/// Begins the branch of a clause that is compared with the one asked for. Where it is pruned, and after an error, terms may have been
/// added to the world.
fn begin_match(
    world: &mut World,
    lists: &mut Continuations<Cell>,
    atoms: &Atoms,
    clause: &Clause,
    asked: TermId,
    rest: Continuation,
) -> Result<Begun, StoreFault>
    requires ready { IsReady atoms.now (now_of world.old) }
    requires different { AreDifferent atoms.now }
    requires clause { IsCounted (length atoms.now) clause.now }
    requires asked { asked < length world.old.heap.now.terms }
    requires reads { (c : HeadBody) × (tree atoms.now world.old.heap.now.terms asked ≡ rule c) }
    requires rest { rest < length lists.old.now }
    ensures goes { IfOk result (λ b. IfGoes b (MatchGoes atoms.now (value world.old lists.old.now) (value world.new lists.new.now) asked rest clause.now)) }
    ensures pruned { IfOk result (λ b. IfPruned b (OfMatch atoms.now (value world.old lists.old.now) asked rest clause.now Prunes)) }

    // A stop is due while the branch is settled.
    ensures overflow { (pair : Pair) → result ≡ Err (Overflow pair)
        → OfMatch atoms.now (value world.old lists.old.now) asked rest clause.now (λ st p. MayRefuse st p pair) }
    ensures pivots { (n : ℕ) → result ≡ Err (Pivots n) → (n ≡ world.old.store.pivots)
        × OfMatch atoms.now (value world.old lists.old.now) asked rest clause.now (λ st p. MayTake st p n) }
    ensures there { IfOk result (λ b. IfGoes b (λ k. k < length lists.new.now)) }
    ensures keeps { KeepsLists lists.old.now lists.new.now }
    ensures lists { lists.new.saved ≡ lists.old.saved }
    ensures saved { saved_of world.new ≡ saved_of world.old }
    ensures budget { world.new.store.pivots ≡ world.old.store.pivots }
{
    clauses_are_counted();
    equated_worlds_may_be_settled();
    let there = rule_of(&mut world.heap, clause, asked)?;
    let pairs = [cq_term::walk::Pair {
        left: asked,
        right: there,
    }];
    look_at_pairs(&world.heap, &pairs);
    let told = Vec::new(world.heap.alloc());
    begin(world, lists, atoms, &pairs, told, rest)
}

/// The term of a clause under new variables, by the name of the one that is asked for.
fn rule_of(heap: &mut Heap, clause: &Clause, asked: TermId) -> Result<TermId, AllocError>
    requires asked { asked < length heap.old.now.terms }
    requires reads { (texts : List Text) × (c : HeadBody) × (tree texts heap.old.now.terms asked ≡ rule c) }
    ensures there { IfOk result (λ id. id < length heap.new.now.terms) }
    ensures reads { IfOk result (λ id. (texts : List Text) (c : HeadBody) → tree texts heap.old.now.terms asked ≡ rule c
        → tree texts heap.new.now.terms id ≡ rule (moved_parts texts (length heap.old.now.images) clause.now)) }
    ensures terms { OnOk result (IsPrefix heap.old.now.terms heap.new.now.terms) }
    ensures images { OnOk result (heap.new.now.images ≡ heap.old.now.images ++ unbound_from (length heap.old.now.images) clause.now.variables) }
    ensures names { OnOk result ((n : ℕ) → HaveNamesBelow n clause.now → KeepsNames n heap.old.now heap.new.now) }
    ensures saved { heap.new.saved ≡ heap.old.saved }
    ensures room { heap.old.room ≤ heap.new.room }
{
    let View::Compound(name, _) = heap.view(asked) else {
        unreachable!();
    };
    let (head, body) = clause.rename(heap)?;
    let parts = [head, body];
    let id = heap.compound(name, &parts)?;
    Ok(id)
}
