//! How a search goes on to a goal in front: past marks, through its choices, and into the branches that these leave to try.
#![tactic(auto)]

// A goal in front is found.

ghost use Rattle.std.specs.Prelude.{◌≡◌, None, IfOk, IfErr, OnErr};
ghost use Rattle.spec_numbers.specs.Prefixes.{IsPrefix};
ghost use Rattle.cq_term.specs.Texts.{AreDifferent};
ghost use Rattle.cq_branch.specs.Marks.{IsCall};
ghost use Rattle.cq_choices.specs.Held.{held, HasMarks, IsOver};
ghost use Rattle.cq_catch.specs.Matching.{IsGoing, Reaches, AllStop};
ghost use Rattle.cq_catch.specs.Finding.{NextIs, FoundIs};

use crate::matching::try_matches;
use crate::saved::{Taken, try_caught, try_gathered};
use cq_branch::{Alternatives, Searching, find_front};
use cq_calls::try_clauses;
use cq_choices::{names_may_be_added, try_ways};
use cq_clauses::Clauses;
use cq_control::{Choices, Continuation};
use cq_resolve::program::ProgramClause;
use cq_resolve::stored::StoredTerm;
use cq_store::store::StoreFault;
use cq_term::atoms::Atoms;

/// Where a search goes on from its newest choice.
#[derive(Drop)]
enum Next {
    /// With the branch of this continuation; without one it comes back to the choice that is the newest then.
    Goes(Option<Continuation>),
    /// A ball that nothing catches ends it.
    Escaped(StoredTerm),
    /// No choice is left.
    Over,
}

/// What a search comes to before it selects a goal.
#[derive(Drop)]
pub enum Found {
    /// A goal is in front of this continuation, or the mark of a findall, or nothing is left to do.
    Front(Continuation),
    /// A ball that nothing catches. No branch is left.
    Escaped(StoredTerm),
    /// No branch is left.
    Over,
}

/// Tries what the newest choice leaves, if there is a choice. After an error what was being tried is still there, and no clause is
/// removed.
fn try_newest(
    world: &mut Searching,
    choices: &mut Choices<Alternatives>,
    atoms: &mut Atoms,
    clauses: &mut Clauses<ProgramClause>,
) -> Result<Next, StoreFault>
    requires different { AreDifferent atoms.old }
    requires over { IsOver clauses.old (held atoms.old world.old.first world.old.second choices.old) }
    requires marked { HasMarks (held atoms.old world.old.first world.old.second choices.old) }
    requires newest { IsCall choices.old }
    requires works { IsGoing clauses.old (held atoms.old world.old.first world.old.second choices.old) None }
    ensures next { IfOk result (NextIs clauses.old (held atoms.old world.old.first world.old.second choices.old)
        clauses.new (held atoms.new world.new.first world.new.second choices.new)) }
    ensures err { OnErr result (Reaches clauses.old (held atoms.old world.old.first world.old.second choices.old) None
        clauses.new (held atoms.new world.new.first world.new.second choices.new) None) }
    ensures stops { IfErr result (AllStop clauses.old (held atoms.old world.old.first world.old.second choices.old) None
        clauses.new (held atoms.new world.new.first world.new.second choices.new) world.old.first.store.pivots) }
    ensures over { IsOver clauses.new (held atoms.new world.new.first world.new.second choices.new) }
    ensures different { AreDifferent atoms.new }
    ensures longer { IsPrefix atoms.old atoms.new }
    ensures budget { world.new.first.store.pivots ≡ world.old.first.store.pivots }
    ensures marked { HasMarks (held atoms.new world.new.first world.new.second choices.new) }
{
    names_may_be_added();
    let Some(newest) = choices.top() else {
        return Ok(Next::Over);
    };
    match newest {
        Alternatives::Clauses(_, _, _) => match try_clauses(world, choices, atoms, clauses) {
            Ok(next) => Ok(Next::Goes(next)),
            Err(fault) => Err(fault),
        },
        Alternatives::Ways(_, _) => match try_ways(world, choices, atoms) {
            Ok(next) => Ok(Next::Goes(next)),
            Err(fault) => Err(fault),
        },
        Alternatives::Caught(_, _, _, _) => match try_caught(world, choices, atoms) {
            Ok(taken) => match taken {
                Taken::Goes(first) => Ok(Next::Goes(Some(first))),
                Taken::HandedOn => Ok(Next::Goes(None)),
                Taken::Escaped(ball) => Ok(Next::Escaped(ball)),
            },
            Err(fault) => Err(fault),
        },
        Alternatives::Gathers(_, _, _) => match try_gathered(world, choices, atoms) {
            Ok(next) => Ok(Next::Goes(next)),
            Err(fault) => Err(fault),
        },
        Alternatives::Matches(_, _, _, _) => match try_matches(world, choices, atoms, clauses) {
            Ok(next) => Ok(Next::Goes(next)),
            Err(fault) => Err(fault),
        },
        _ => unreachable!(),
    }
}

/// An engine goes on to where a goal is in front, or the mark of a findall, or nothing is left to do. Marks in front are passed, and
/// choices are come back to: a clause that a goal removes is gone then. After an error the engine is one that comes back to its newest
/// choice: what was being tried is still there, so that another call goes on to it.
pub fn find(
    world: &mut Searching,
    choices: &mut Choices<Alternatives>,
    atoms: &mut Atoms,
    clauses: &mut Clauses<ProgramClause>,
    start: Option<Continuation>,
) -> Result<Found, StoreFault>
    requires different { AreDifferent atoms.old }
    requires over { IsOver clauses.old (held atoms.old world.old.first world.old.second choices.old) }
    requires marked { HasMarks (held atoms.old world.old.first world.old.second choices.old) }
    requires works { IsGoing clauses.old (held atoms.old world.old.first world.old.second choices.old) start }
    ensures found { IfOk result (FoundIs clauses.old (held atoms.old world.old.first world.old.second choices.old) start
        clauses.new (held atoms.new world.new.first world.new.second choices.new)) }
    ensures err { OnErr result (Reaches clauses.old (held atoms.old world.old.first world.old.second choices.old) start
        clauses.new (held atoms.new world.new.first world.new.second choices.new) None) }
    ensures stops { IfErr result (AllStop clauses.old (held atoms.old world.old.first world.old.second choices.old) start
        clauses.new (held atoms.new world.new.first world.new.second choices.new) world.old.first.store.pivots) }
    ensures over { IsOver clauses.new (held atoms.new world.new.first world.new.second choices.new) }
    ensures different { AreDifferent atoms.new }
    ensures longer { IsPrefix atoms.old atoms.new }
    ensures budget { world.new.first.store.pivots ≡ world.old.first.store.pivots }
    ensures marked { HasMarks (held atoms.new world.new.first world.new.second choices.new) }
{
    let mut current = start;
    'choices: loop {
        if let Some(front) = find_front(world, choices, current) {
            return Ok(Found::Front(front));
        }
        match try_newest(world, choices, atoms, clauses) {
            Ok(next) => match next {
                Next::Goes(next) => current = next,
                Next::Escaped(ball) => return Ok(Found::Escaped(ball)),
                Next::Over => return Ok(Found::Over),
            },
            Err(fault) => return Err(fault),
        }
    }
}
