// The clauses of a call, tried in order.

ghost use Rattle.std.specs.Prelude.{◌≡◌, ◌<◌, None, length, IfNone, IfSome, IfOk, IfErr, OnOk, OnErr};
ghost use Rattle.cq_term.specs.Texts.{AreDifferent};
ghost use Rattle.cq_branch.specs.Begun.{IfGoes, IfPruned, goes_to};
ghost use Rattle.cq_branch.specs.Stops.{IsBack, ComesOn, AllStop, still_waiting};
ghost use Rattle.cq_calls.specs.Trying.{HasLeft, IsGone, IsNext, IsOfCall, IsTrying, KeepsOthers, Leaves};
ghost use Rattle.cq_control.specs.Open.{AreMarked, open_choices};
ghost use Rattle.cq_resolve.specs.Database.{IsProgram};
ghost use Rattle.cq_branch.specs.Choices.{AreOpen};
ghost use Rattle.cq_branch.specs.Lists.{KeepsLists};
ghost use Rattle.cq_branch.specs.Worlds.{saved_values, value};
ghost use Rattle.cq_settle.specs.Rest.{IsReady};
ghost use Rattle.cq_settle.specs.Worlds.{now_of};

use cq_branch::begin::{Begun, begin_clause};
use cq_branch::{Alternatives, Searching, Untried};
use cq_clauses::{ClauseNo, Clauses, Walk};
use cq_control::{Choices, Continuation};
use cq_resolve::program::ProgramClause;
use cq_store::store::StoreFault;
use cq_term::TermId;
use cq_term::atoms::Atoms;

/// The engine comes back to its newest choice, which is of a call: its clauses are tried in order, up to one whose branch is
/// kept. The engine goes on with that branch; None where there is none. The choice is gone once no clause is left. After an
/// error the choice still has the clause that was tried, and those behind it.
pub fn try_clauses(
    world: &mut Searching,
    choices: &mut Choices<Alternatives>,
    atoms: &Atoms,
    clauses: &Clauses<ProgramClause>,
) -> Result<Option<Continuation>, StoreFault>
    requires different { AreDifferent atoms.now }
    requires program { IsProgram atoms.now clauses.now }
    requires marked { AreMarked (saved_values world.old.first world.old.second.saved) choices.old }
    requires open { AreOpen atoms.now clauses.now (saved_values world.old.first world.old.second.saved) choices.old }
    requires newest { IsOfCall choices.old }
    requires works { IsBack atoms.now clauses.now world.old.first world.old.second choices.old }
    ensures comes { IfOk result (ComesOn atoms.now clauses.now world.old.first world.old.second choices.old
        world.new.first world.new.second choices.new) }
    ensures err { OnErr result (ComesOn atoms.now clauses.now world.old.first world.old.second choices.old
        world.new.first world.new.second choices.new None) }
    ensures stops { IfErr result (AllStop atoms.now clauses.now world.old.first world.old.second choices.old) }
    ensures gone { IfOk result (λ k. IfNone k (IsGone choices.old choices.new)) }
    ensures fewer { OnOk result (still_waiting atoms.now clauses.now world.new.first world.new.second choices.new
        < still_waiting atoms.now clauses.now world.old.first world.old.second choices.old) }
    ensures marked { AreMarked (saved_values world.new.first world.new.second.saved) choices.new }
    ensures open { AreOpen atoms.now clauses.now (saved_values world.new.first world.new.second.saved) choices.new }
    ensures budget { world.new.first.store.pivots ≡ world.old.first.store.pivots }
{
    let Some(newest) = choices.top() else {
        unreachable!();
    };
    let Alternatives::Clauses(called, untried, behind) = newest else {
        unreachable!();
    };
    let goal = *called;
    let rest = *behind;
    let walk = untried.walk();
    come_back(world, choices, atoms, clauses, goal, walk, rest)
}

/// The same, where it is known what the choice leaves.
fn come_back(
    world: &mut Searching,
    choices: &mut Choices<Alternatives>,
    atoms: &Atoms,
    clauses: &Clauses<ProgramClause>,
    goal: TermId,
    walk: Walk,
    rest: Continuation,
) -> Result<Option<Continuation>, StoreFault>
    requires different { AreDifferent atoms.now }
    requires program { IsProgram atoms.now clauses.now }
    requires marked { AreMarked (saved_values world.old.first world.old.second.saved) choices.old }
    requires open { AreOpen atoms.now clauses.now (saved_values world.old.first world.old.second.saved) choices.old }
    requires newest { HasLeft goal walk rest choices.old }
    requires works { IsBack atoms.now clauses.now world.old.first world.old.second choices.old }
    ensures comes { IfOk result (ComesOn atoms.now clauses.now world.old.first world.old.second choices.old
        world.new.first world.new.second choices.new) }
    ensures err { OnErr result (ComesOn atoms.now clauses.now world.old.first world.old.second choices.old
        world.new.first world.new.second choices.new None) }
    ensures stops { IfErr result (AllStop atoms.now clauses.now world.old.first world.old.second choices.old) }
    ensures gone { IfOk result (λ k. IfNone k (IsGone choices.old choices.new)) }
    ensures fewer { OnOk result (still_waiting atoms.now clauses.now world.new.first world.new.second choices.new
        < still_waiting atoms.now clauses.now world.old.first world.old.second choices.old) }
    ensures marked { AreMarked (saved_values world.new.first world.new.second.saved) choices.new }
    ensures open { AreOpen atoms.now clauses.now (saved_values world.new.first world.new.second.saved) choices.new }
    ensures budget { world.new.first.store.pivots ≡ world.old.first.store.pivots }
{
    let mut left = walk;
    let Some(number) = clauses.step(&mut left) else {
        choices.back(world);
        return Ok(None);
    };
    choices.resume(world);
    try_from(world, choices, atoms, clauses, number, goal, left, rest)
}

/// Tries the clauses of the newest choice's call in order, from this one on, in the world that the choice goes back to, up to one
/// whose branch is kept.
pub(crate) fn try_from(
    world: &mut Searching,
    choices: &mut Choices<Alternatives>,
    atoms: &Atoms,
    clauses: &Clauses<ProgramClause>,
    first: ClauseNo,
    goal: TermId,
    behind: Walk,
    rest: Continuation,
) -> Result<Option<Continuation>, StoreFault>
    requires ready { IsReady atoms.now (now_of world.old.first) }
    requires different { AreDifferent atoms.now }
    requires program { IsProgram atoms.now clauses.now }
    requires known { first < length clauses.now.contents }
    requires goal { goal < length world.old.first.heap.now.terms }
    requires rest { rest < length world.old.second.now }
    requires marked { AreMarked (saved_values world.old.first world.old.second.saved) choices.old }
    requires next { IsNext clauses.now goal first behind rest (saved_values world.old.first world.old.second.saved) choices.old
        (value world.old.first world.old.second.now) }
    ensures comes { IfOk result (ComesOn atoms.now clauses.now world.old.first world.old.second choices.old
        world.new.first world.new.second choices.new) }
    ensures err { OnErr result (ComesOn atoms.now clauses.now world.old.first world.old.second choices.old
        world.new.first world.new.second choices.new None) }
    ensures stops { IfErr result (AllStop atoms.now clauses.now world.old.first world.old.second choices.old) }
    ensures there { IfOk result (λ o. IfSome o (λ k. k < length world.new.second.now)) }
    ensures gone { IfOk result (λ k. IfNone k (IsGone choices.old choices.new)) }
    ensures fewer { OnOk result (still_waiting atoms.now clauses.now world.new.first world.new.second choices.new
        < still_waiting atoms.now clauses.now world.old.first world.old.second choices.old) }
    ensures marked { AreMarked (saved_values world.new.first world.new.second.saved) choices.new }
    ensures open { AreOpen atoms.now clauses.now (saved_values world.old.first world.old.second.saved) choices.old
        → AreOpen atoms.now clauses.now (saved_values world.new.first world.new.second.saved) choices.new }
    ensures budget { world.new.first.store.pivots ≡ world.old.first.store.pivots }

    // Where no branch is kept the world is as it was.
    ensures back { IfOk result (λ k. IfNone k (now_of world.new.first ≡ now_of world.old.first)) }
    ensures err_world { OnErr result (now_of world.new.first ≡ now_of world.old.first) }
{
    let mut number = first;
    let mut left = behind;
    'clauses: loop {
        match try_clause(world, choices, atoms, clauses, number, goal, &left, rest) {
            Ok(begun) => match begun {
                Begun::Goes(branch) => return Ok(Some(branch)),
                Begun::Pruned => {
                    let Some(next) = clauses.step(&mut left) else {
                        choices.back(world);
                        return Ok(None);
                    };
                    number = next;
                }
            },
            Err(fault) => return Err(fault),
        }
    }
}

/// Tries the next clause of the newest choice's call, in the world that the choice goes back to. The choice is left the clauses
/// behind it, and without any is gone once the branch is kept. After an error it has this clause, too.
fn try_clause(
    world: &mut Searching,
    choices: &mut Choices<Alternatives>,
    atoms: &Atoms,
    clauses: &Clauses<ProgramClause>,
    number: ClauseNo,
    goal: TermId,
    left: &Walk,
    rest: Continuation,
) -> Result<Begun, StoreFault>
    requires ready { IsReady atoms.now (now_of world.old.first) }
    requires different { AreDifferent atoms.now }
    requires program { IsProgram atoms.now clauses.now }
    requires known { number < length clauses.now.contents }
    requires goal { goal < length world.old.first.heap.now.terms }
    requires rest { rest < length world.old.second.now }
    requires marked { AreMarked (saved_values world.old.first world.old.second.saved) choices.old }
    requires next { IsNext clauses.now goal number left.now rest (saved_values world.old.first world.old.second.saved) choices.old
        (value world.old.first world.old.second.now) }
    ensures comes { IfOk result (λ b. ComesOn atoms.now clauses.now world.old.first world.old.second choices.old
        world.new.first world.new.second choices.new (goes_to b)) }
    ensures err { OnErr result (ComesOn atoms.now clauses.now world.old.first world.old.second choices.old
        world.new.first world.new.second choices.new None) }
    ensures stops { IfErr result (AllStop atoms.now clauses.now world.old.first world.old.second choices.old) }
    ensures there { IfOk result (λ b. IfGoes b (λ k. k < length world.new.second.now)) }
    ensures left { IfOk result (λ b. IfPruned b (IsTrying goal left.now rest (saved_values world.new.first world.new.second.saved) choices.new
        (value world.new.first world.new.second.now))) }
    ensures others { IfOk result (λ b. IfPruned b (KeepsOthers choices.old choices.new)) }
    ensures fewer { OnOk result (still_waiting atoms.now clauses.now world.new.first world.new.second choices.new
        < still_waiting atoms.now clauses.now world.old.first world.old.second choices.old) }
    ensures marked { AreMarked (saved_values world.new.first world.new.second.saved) choices.new }
    ensures open { AreOpen atoms.now clauses.now (saved_values world.old.first world.old.second.saved) choices.old
        → AreOpen atoms.now clauses.now (saved_values world.new.first world.new.second.saved) choices.new }
    ensures budget { world.new.first.store.pivots ≡ world.old.first.store.pivots }
    ensures lists { KeepsLists world.old.second.now world.new.second.now }
    ensures back { IfOk result (λ b. IfPruned b (now_of world.new.first ≡ now_of world.old.first)) }
    ensures err_world { OnErr result (now_of world.new.first ≡ now_of world.old.first) }
{
    let clause = clauses.content(number).clause();
    let height = choices.height() - 1;
    match begin_clause(
        &mut world.first,
        &mut world.second,
        atoms,
        clause,
        goal,
        height,
        rest,
    ) {
        Ok(begun) => match begun {
            Begun::Goes(first) => {
                let untried = Untried::new(*left);
                leave_untried(
                    world,
                    choices,
                    left,
                    Alternatives::Clauses(goal, untried, rest),
                );
                Ok(Begun::Goes(first))
            }
            Begun::Pruned => {
                let untried = Untried::new(*left);
                choices.renew(Alternatives::Clauses(goal, untried, rest));
                Ok(Begun::Pruned)
            }
        },
        Err(fault) => Err(fault),
    }
}

/// Leaves the newest choice this to try, by the clauses that a walk leaves; without any it is gone.
#[inline(always)]
pub fn leave_untried(
    world: &mut Searching,
    choices: &mut Choices<Alternatives>,
    left: &Walk,
    others: Alternatives,
)
    requires marked { AreMarked (saved_values world.old.first world.old.second.saved) choices.old }
    requires some { 0 < length choices.old }
    ensures leaves { Leaves others left.now (open_choices (saved_values world.old.first world.old.second.saved) choices.old)
        (open_choices (saved_values world.new.first world.new.second.saved) choices.new) }
    ensures first { now_of world.new.first ≡ now_of world.old.first }
    ensures lists { world.new.second.now ≡ world.old.second.now }
    ensures marked { AreMarked (saved_values world.new.first world.new.second.saved) choices.new }
{
    if left.is_empty() {
        let newest = choices.height() - 1;
        choices.cut(world, newest);
    } else {
        choices.renew(others);
    }
}
