// The rows of goals that ask for clauses: those that are a clause, of which each may be removed.

ghost use Rattle.std.specs.Prelude.{◌≡◌, ◌<◌, ℕ, List, length, IfOk, IfSome, OnOk, OnErr};
ghost use Rattle.spec_syntax.specs.Trees.{Tree};
ghost use Rattle.spec_branch.specs.Branch.{Branch};
ghost use Rattle.spec_builtins.specs.Clauses.{HeadBody, rule};
ghost use Rattle.spec_search.specs.Builtins.{Retract, ClauseGoal};
ghost use Rattle.spec_search.specs.Replies.{Place};
ghost use Rattle.cq_goals.specs.Clauses.{IsOf, body_tree};
ghost use Rattle.cq_term.specs.Meaning.{at};
ghost use Rattle.cq_term.specs.Shown.{arguments};
ghost use Rattle.cq_term.specs.Trees.{tree};
ghost use Rattle.cq_machine.specs.Machines.{terms, IsSound, HasSameProgram, HasBuilt, StillStands};
ghost use Rattle.cq_machine.specs.Stepping.{row_of, IsSelectedAt, IsStep, CanGo, OnRaises};
ghost use Rattle.cq_machine.specs.declared.step.Step.TheVariants.{Back};
ghost use Rattle.cq_catch.specs.Asking.{answers};
ghost use Rattle.cq_catch.specs.Revised.{head_body_of};
ghost use Rattle.cq_execute.specs.Changing.{AsksFor};

use cq_built::BuiltinFault;
use cq_catch::matching::ask;
use cq_catch::revise::{check_change, check_readable};
use cq_control::Continuation;
use cq_goals::declarations::ClauseParts;
use cq_machine::{Machine, Step, build};
use cq_term::{Pred, TermId};
use std::alloc::AllocError;

/// The body of a clause; that of a fact is `true`.
fn body_of(m: &mut Machine, body: Option<TermId>) -> Result<TermId, AllocError>
    requires sound { IsSound m.old }
    requires live { IfSome body (λ b. b < length (terms m.old)) }
    ensures live { IfOk result (λ id. id < length (terms m.new)) }
    ensures built { IfOk result (λ id. tree m.new.atoms (terms m.new) id ≡ body_tree m.old.atoms (terms m.old) body) }
    ensures more { HasBuilt m.old m.new }
    ensures stands { StillStands m.old m.new }
    ensures sound { IsSound m.new }
{
    match body {
        Some(body) => Ok(body),
        None => {
            let name = m.names.truth;
            let truth = build(m, name, &[])?;
            Ok(truth)
        }
    }
}

/// A clause as the term `H:-B`.
fn rule_of(m: &mut Machine, parts: ClauseParts) -> Result<TermId, AllocError>
    requires sound { IsSound m.old }
    requires head { parts.head < length (terms m.old) }
    requires body { IfSome parts.body (λ b. b < length (terms m.old)) }
    ensures live { IfOk result (λ id. id < length (terms m.new)) }
    ensures built { IfOk result (λ id. tree m.new.atoms (terms m.new) id ≡ rule (head_body_of m.old.atoms (terms m.old) parts)) }
    ensures more { HasBuilt m.old m.new }
    ensures stands { StillStands m.old m.new }
    ensures sound { IsSound m.new }
{
    let head = parts.head;
    let name = m.names.rule;
    let body = body_of(m, parts.body)?;
    let rule = build(m, name, &[head, body])?;
    Ok(rule)
}

/// The clauses of the predicate that are the clause of a term `H:-B` wait as one choice, to which the machine comes back at once.
fn ask_for(
    m: &mut Machine,
    predicate: Pred,
    asked: TermId,
    removes: bool,
    rest: Continuation,
) -> Result<(), AllocError>
    requires sound { IsSound m.old }
    requires asked { asked < length (terms m.old) }
    ensures row { OnOk result ((id height : ℕ) (p : Place) (behind : List Branch) (g : Tree) (c : HeadBody) → IsSelectedAt m.old id height rest p behind g
        → tree m.old.atoms (terms m.old) asked ≡ rule c → IsOf m.old.atoms predicate c.head → IsStep m.new Back p behind (answers p removes c)) }
    ensures sound { IsSound m.new }
    ensures program { HasSameProgram m.old m.new }
    ensures err { OnErr result (StillStands m.old m.new) }
{
    ask(
        &mut m.world,
        &mut m.choices,
        &mut m.clauses,
        predicate,
        asked,
        removes,
        rest,
    )
}

/// `retract(C)`: each clause of the predicate that is C is removed where its branch is kept. An error is want of memory; terms may
/// then stay.
pub fn retract(m: &mut Machine, goal: TermId, rest: Continuation) -> Result<Step, AllocError>
    requires sound { IsSound m.old }
    requires goal { goal < length (terms m.old) }
    requires one { length (arguments (at (terms m.old) goal)) ≡ 1 }
    ensures row { IfOk result (AsksFor m.old m.new goal rest (row_of Retract)) }
    ensures goes { IfOk result (CanGo m.new) }
    ensures raises { IfOk result (λ s. OnRaises s (StillStands m.old m.new)) }
    ensures sound { IsSound m.new }
    ensures program { HasSameProgram m.old m.new }
    ensures err { OnErr result (StillStands m.old m.new) }
{
    let clause = m.world.first.heap.arg(goal, 0);
    let world = &m.world;
    match check_change(&world.first.heap, &m.atoms, &m.clauses, clause) {
        Ok(checked) => {
            let predicate = checked.predicate;
            let asked = rule_of(m, checked.parts)?;
            ask_for(m, predicate, asked, true, rest)?;
            Ok(Step::Back)
        }
        Err(fault) => match fault {
            BuiltinFault::Error(error) => Ok(Step::Raises(error)),
            BuiltinFault::NoMemory => Err(AllocError),
        },
    }
}

/// `clause(H,B)`: the clauses of the predicate that are `H:-B`.
pub fn clause(m: &mut Machine, goal: TermId, rest: Continuation) -> Result<Step, AllocError>
    requires sound { IsSound m.old }
    requires goal { goal < length (terms m.old) }
    requires two { length (arguments (at (terms m.old) goal)) ≡ 2 }
    ensures row { IfOk result (AsksFor m.old m.new goal rest (row_of ClauseGoal)) }
    ensures goes { IfOk result (CanGo m.new) }
    ensures raises { IfOk result (λ s. OnRaises s (StillStands m.old m.new)) }
    ensures sound { IsSound m.new }
    ensures program { HasSameProgram m.old m.new }
    ensures err { OnErr result (StillStands m.old m.new) }
{
    let head = m.world.first.heap.arg(goal, 0);
    let body = m.world.first.heap.arg(goal, 1);
    let world = &m.world;
    match check_readable(&world.first.heap, &m.atoms, &m.clauses, head, body) {
        Ok(predicate) => {
            let asked = rule_of(
                m,
                ClauseParts {
                    head,
                    body: Some(body),
                },
            )?;
            ask_for(m, predicate, asked, false, rest)?;
            Ok(Step::Back)
        }
        Err(error) => Ok(Step::Raises(error)),
    }
}
