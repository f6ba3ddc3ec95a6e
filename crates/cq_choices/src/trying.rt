// The alternatives of a predicate are tried.

ghost use Rattle.std.specs.Prelude.{◌≡◌, ◌<◌, ◌≤◌, ℕ, length, None, IfOk, IfErr, IfSome, IfNone, OnErr};
ghost use Rattle.spec_numbers.specs.Prefixes.{IsPrefix};
ghost use Rattle.spec_search.specs.Replies.{with_equations};
ghost use Rattle.cq_term.specs.Texts.{AreDifferent};
ghost use Rattle.cq_builtin.specs.Over.{equations_of, AreLive};
ghost use Rattle.cq_control.specs.Open.{AreMarked};
ghost use Rattle.cq_frac.specs.declared.Pair.{Pair};
ghost use Rattle.cq_store.specs.declared.store.StoreFault.TheVariants.{Overflow, Pivots};
ghost use Rattle.cq_predicates.specs.Given.{HasNoneBack};
ghost use Rattle.cq_settle.specs.Settled.{MayRefuse, MayTake};
ghost use Rattle.cq_settle.specs.Rest.{IsReady};
ghost use Rattle.cq_settle.specs.Worlds.{now_of, saved_of};
ghost use Rattle.cq_branch.specs.Lists.{KeepsLists};
ghost use Rattle.cq_branch.specs.Worlds.{value, saved_values};
ghost use Rattle.cq_branch.specs.Begun.{IfGoes, IfPruned, goes_to};
ghost use Rattle.cq_choices.specs.Held.{held, HasMarks, StaysOver};
ghost use Rattle.cq_choices.specs.Newest.{PutsBack};
ghost use Rattle.cq_choices.specs.Trying.{IsWays, IsSearching, ComesOver, StopsOver, AfterTaking, AtStates, EquationsGo, EquationsPrune, HasFewer};

use crate::laws::names_are_of_terms;
use crate::marks::{renew, replace_newest};
use crate::taking::{Way, take_way};
use cq_branch::begin::{Begun, begin};
use cq_branch::{Alternatives, Searching};
use cq_built::Alternative;
use cq_control::{Choices, Continuation, Continuations};
use cq_predicates::Solutions;
use cq_settle::rest::{equated_worlds_may_be_settled, look_at_pairs};
use cq_settle::world::World;
use cq_store::store::StoreFault;
use cq_term::atoms::{Atom, Atoms};
use spec_engine::machine::Cell;
use std::alloc::AllocError;

/// Begins the branch of an alternative.
fn begin_pairs(
    world: &mut World,
    lists: &mut Continuations<Cell>,
    atoms: &Atoms,
    alternative: &Alternative,
    rest: Continuation,
) -> Result<Begun, StoreFault>
    requires ready { IsReady atoms.now (now_of world.old) }
    requires different { AreDifferent atoms.now }
    requires live { AreLive world.old.heap.now.terms alternative.now }
    requires rest { rest < length lists.old.now }
    ensures goes { IfOk result (λ b. IfGoes b (EquationsGo atoms.now (value world.old lists.old.now) (value world.new lists.new.now)
        (equations_of atoms.now world.old.heap.now.terms alternative.now) rest)) }
    ensures pruned { IfOk result (λ b. IfPruned b (EquationsPrune atoms.now (now_of world.old)
        (equations_of atoms.now world.old.heap.now.terms alternative.now))) }
    ensures unchanged { IfOk result (λ b. IfPruned b (now_of world.new ≡ now_of world.old)) }
    ensures err { OnErr result (now_of world.new ≡ now_of world.old) }
    ensures overflow { (pair : Pair) → result ≡ Err (Overflow pair) → AtStates atoms.now (now_of world.old)
        (λ st. MayRefuse st (with_equations (equations_of atoms.now world.old.heap.now.terms alternative.now)) pair) }
    ensures pivots { (n : ℕ) → result ≡ Err (Pivots n) → (n ≡ world.old.store.pivots) × AtStates atoms.now (now_of world.old)
        (λ st. MayTake st (with_equations (equations_of atoms.now world.old.heap.now.terms alternative.now)) n) }
    ensures there { IfOk result (λ b. IfGoes b (λ k. k < length lists.new.now)) }
    ensures keeps { KeepsLists lists.old.now lists.new.now }
    ensures lists { lists.new.saved ≡ lists.old.saved }
    ensures saved { saved_of world.new ≡ saved_of world.old }
    ensures budget { world.new.store.pivots ≡ world.old.store.pivots }
{
    equated_worlds_may_be_settled();
    look_at_pairs(&world.heap, &alternative.pairs);
    let told = Vec::new(world.heap.alloc());
    begin(world, lists, atoms, &alternative.pairs, told, rest)
}

/// The newest choice is left with these alternatives, and cut where it is known that there is none.
fn put_back(
    world: &mut Searching,
    choices: &mut Choices<Alternatives>,
    others: Solutions,
    rest: Continuation,
)
    requires marked { AreMarked (saved_values world.old.first world.old.second.saved) choices.old }
    requires some { 0 < length choices.old }
    ensures open { PutsBack (saved_values world.old.first world.old.second.saved) choices.old others rest
        (saved_values world.new.first world.new.second.saved) choices.new }
    ensures no_more { length choices.new ≤ length choices.old }
    ensures now { now_of world.new.first ≡ now_of world.old.first }
    ensures lists { world.new.second.now ≡ world.old.second.now }
    ensures marked { AreMarked (saved_values world.new.first world.new.second.saved) choices.new }
{
    if others.is_over() {
        let newest = choices.height() - 1;
        choices.cut(world, newest);
    } else {
        replace_newest(choices, Alternatives::Ways(others, rest));
    }
}

/// Begins the branch of an alternative that was taken. The choice holds it until its branch is kept or pruned.
fn begin_way(
    world: &mut Searching,
    choices: &mut Choices<Alternatives>,
    atoms: &Atoms,
    way: Way,
) -> Result<Begun, StoreFault>
    requires marked { HasMarks (held atoms.now world.old.first world.old.second choices.old) }
    requires some { 0 < length choices.old }
    requires ready { IsReady atoms.now (now_of world.old.first) }
    requires different { AreDifferent atoms.now }
    requires live { AreLive world.old.first.heap.now.terms way.alternative }
    requires rest { way.rest < length world.old.second.now }
    requires free { HasNoneBack way.others }
    ensures comes { IfOk result (λ b. AfterTaking (held atoms.now world.old.first world.old.second choices.old) way
        (λ before. ComesOver before (held atoms.now world.new.first world.new.second choices.new) (goes_to b))) }
    ensures comes_err { OnErr result (AfterTaking (held atoms.now world.old.first world.old.second choices.old) way
        (λ before. ComesOver before (held atoms.now world.new.first world.new.second choices.new) None)) }
    ensures stops { IfErr result (λ f. AfterTaking (held atoms.now world.old.first world.old.second choices.old) way
        (λ before. StopsOver before world.old.first.store.pivots f)) }
    ensures over { AfterTaking (held atoms.now world.old.first world.old.second choices.old) way
        (λ before. StaysOver before (held atoms.now world.new.first world.new.second choices.new)) }
    ensures fewer { IfOk result (λ b. IfPruned b (AfterTaking (held atoms.now world.old.first world.old.second choices.old) way
        (λ before. HasFewer before (held atoms.now world.new.first world.new.second choices.new)))) }
    ensures same { IfOk result (λ b. IfPruned b (length choices.new ≡ length choices.old)) }
    ensures no_more { IfOk result (λ b. IfGoes b (λ k. length choices.new ≤ length choices.old)) }
    ensures budget { world.new.first.store.pivots ≡ world.old.first.store.pivots }
    ensures marked { HasMarks (held atoms.now world.new.first world.new.second choices.new) }
{
    let Way {
        alternative,
        mut others,
        rest,
    } = way;
    names_are_of_terms(world, choices);
    match begin_pairs(
        &mut world.first,
        &mut world.second,
        atoms,
        &alternative,
        rest,
    ) {
        Ok(begun) => match begun {
            Begun::Goes(first) => {
                put_back(world, choices, others, rest);
                Ok(Begun::Goes(first))
            }
            Begun::Pruned => {
                replace_newest(choices, Alternatives::Ways(others, rest));
                Ok(Begun::Pruned)
            }
        },
        Err(fault) => {
            others.give_back(alternative);
            renew(world, choices, Alternatives::Ways(others, rest));
            Err(fault)
        }
    }
}

/// A name that is known.
fn some_name(atoms: &mut Atoms, text: &str) -> Result<Atom, AllocError>
    ensures known { IfOk result (λ name. name < length atoms.new) }
    ensures different { AreDifferent atoms.new }
    ensures longer { IsPrefix atoms.old atoms.new }
{
    let name = atoms.intern(text)?;
    Ok(name)
}

/// Comes back to the newest choice, which is of a predicate's alternatives, and begins these one after another until the branch
/// of one is kept; None where none is left, and the choice is gone. The choice is gone too where the one that is kept is known
/// to be the last. After want of memory and a stop, the choice still holds the alternative that was begun.
pub fn try_ways(
    world: &mut Searching,
    choices: &mut Choices<Alternatives>,
    atoms: &mut Atoms,
) -> Result<Option<Continuation>, StoreFault>
    requires marked { HasMarks (held atoms.old world.old.first world.old.second choices.old) }
    requires newest { IsWays choices.old }
    requires works { IsSearching (held atoms.old world.old.first world.old.second choices.old) }
    ensures comes { IfOk result (ComesOver (held atoms.old world.old.first world.old.second choices.old)
        (held atoms.new world.new.first world.new.second choices.new)) }
    ensures comes_err { OnErr result (ComesOver (held atoms.old world.old.first world.old.second choices.old)
        (held atoms.new world.new.first world.new.second choices.new) None) }
    ensures stops { IfErr result (StopsOver (held atoms.old world.old.first world.old.second choices.old) world.old.first.store.pivots) }
    ensures over { StaysOver (held atoms.old world.old.first world.old.second choices.old)
        (held atoms.new world.new.first world.new.second choices.new) }
    ensures gone { IfOk result (λ o. IfNone o (length choices.new < length choices.old)) }
    ensures no_more { IfOk result (λ o. IfSome o (λ k. length choices.new ≤ length choices.old)) }
    ensures different { AreDifferent atoms.new }
    ensures longer { IsPrefix atoms.old atoms.new }
    ensures budget { world.new.first.store.pivots ≡ world.old.first.store.pivots }
    ensures marked { HasMarks (held atoms.new world.new.first world.new.second choices.new) }
{
    names_are_of_terms(world, choices);
    let known = some_name(atoms, "[]")?;
    'ways: loop {
        let Some(way) = take_way(world, choices, atoms, known)? else {
            return Ok(None);
        };
        match begin_way(world, choices, atoms, way) {
            Ok(begun) => match begun {
                Begun::Goes(first) => return Ok(Some(first)),
                Begun::Pruned => {}
            },
            Err(fault) => return Err(fault),
        }
    }
}
