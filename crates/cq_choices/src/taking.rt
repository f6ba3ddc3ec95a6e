// The next alternative of the newest choice is taken.

ghost use Rattle.std.specs.Prelude.{◌≡◌, ◌<◌, length, IfOk, IfSome, IfNone, None, OnErr};
ghost use Rattle.spec_numbers.specs.Prefixes.{IsPrefix};
ghost use Rattle.cq_term.specs.Texts.{AreDifferent};
ghost use Rattle.cq_control.specs.Open.{AreMarked};
ghost use Rattle.cq_settle.specs.Rest.{IsReady};
ghost use Rattle.cq_settle.specs.Worlds.{now_of};
ghost use Rattle.cq_branch.specs.Worlds.{value, saved_values};
ghost use Rattle.cq_choices.specs.Held.{held, HasMarks, StaysOver};
ghost use Rattle.cq_choices.specs.Newest.{Takes};
ghost use Rattle.cq_choices.specs.Trying.{IsWays, IsSearching, ComesOver, IsTaken};

use crate::laws::names_are_of_terms;
use crate::marks::replace_newest;
use cq_branch::{Alternatives, Searching};
use cq_built::Alternative;
use cq_control::{Choices, Continuation};
use cq_predicates::Solutions;
use cq_term::atoms::{Atom, Atoms};
use std::alloc::AllocError;

/// An alternative that was taken, those that are still to come, and the continuation behind the goal.
#[derive(Drop)]
pub(crate) struct Way {
    pub(crate) alternative: Alternative,
    pub(crate) others: Solutions,
    pub(crate) rest: Continuation,
}

/// What the newest choice leaves to try. The world goes back to it, and the choice stands for no branch then.
fn take_ways(
    world: &mut Searching,
    choices: &mut Choices<Alternatives>,
) -> (Solutions, Continuation)
    requires marked { AreMarked (saved_values world.old.first world.old.second.saved) choices.old }
    requires newest { IsWays choices.old }
    ensures takes { Takes (saved_values world.old.first world.old.second.saved) choices.old (value world.new.first world.new.second.now) result.0 result.1
        (saved_values world.new.first world.new.second.saved) choices.new }
    ensures some { length choices.new ≡ length choices.old }
    ensures budget { world.new.first.store.pivots ≡ world.old.first.store.pivots }
    ensures marked { AreMarked (saved_values world.new.first world.new.second.saved) choices.new }
{
    match choices.retry(world, Alternatives::Barrier) {
        Alternatives::Ways(solutions, rest) => (solutions, rest),
        _ => unreachable!(),
    }
}

/// Takes the next alternative of the newest choice; where there is none, the choice is gone. After want of memory the choice
/// leaves the same to try. The name is one that is known: its text shows that names have different texts.
pub(crate) fn take_way(
    world: &mut Searching,
    choices: &mut Choices<Alternatives>,
    atoms: &mut Atoms,
    known: Atom,
) -> Result<Option<Way>, AllocError>
    requires marked { HasMarks (held atoms.old world.old.first world.old.second choices.old) }
    requires newest { IsWays choices.old }
    requires works { IsSearching (held atoms.old world.old.first world.old.second choices.old) }
    requires known { known < length atoms.old }
    ensures taken { IfOk result (λ o. IfSome o (IsTaken (held atoms.old world.old.first world.old.second choices.old)
        (held atoms.new world.new.first world.new.second choices.new))) }
    ensures ready { IfOk result (λ o. IfSome o (λ w. IsReady atoms.new (now_of world.new.first))) }
    ensures there { IfOk result (λ o. IfSome o (λ w. w.rest < length world.new.second.now)) }
    ensures same { IfOk result (λ o. IfSome o (λ w. length choices.new ≡ length choices.old)) }
    ensures gone { IfOk result (λ o. IfNone o (ComesOver (held atoms.old world.old.first world.old.second choices.old)
        (held atoms.new world.new.first world.new.second choices.new) None)) }
    ensures fewer { IfOk result (λ o. IfNone o (length choices.new < length choices.old)) }
    ensures err { OnErr result (ComesOver (held atoms.old world.old.first world.old.second choices.old)
        (held atoms.new world.new.first world.new.second choices.new) None) }
    ensures over { StaysOver (held atoms.old world.old.first world.old.second choices.old)
        (held atoms.new world.new.first world.new.second choices.new) }
    ensures different { AreDifferent atoms.new }
    ensures longer { IsPrefix atoms.old atoms.new }
    ensures budget { world.new.first.store.pivots ≡ world.old.first.store.pivots }
    ensures marked { HasMarks (held atoms.new world.new.first world.new.second choices.new) }
{
    names_are_of_terms(world, choices);
    let (mut others, rest) = take_ways(world, choices);
    let next = others.next(&mut world.first.heap, atoms);
    let _text = atoms.text(known);
    match next {
        Ok(found) => match found {
            Some(alternative) => Ok(Some(Way {
                alternative,
                others,
                rest,
            })),
            None => {
                let newest = choices.height() - 1;
                choices.cut(world, newest);
                Ok(None)
            }
        },
        Err(fault) => {
            replace_newest(choices, Alternatives::Ways(others, rest));
            Err(fault)
        }
    }
}
