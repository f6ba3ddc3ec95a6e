// What a goal does with the value that it found: it is made equal to a term, or told of an expression.

ghost use Rattle.std.specs.Prelude.{◌≡◌, ◌<◌, ◌∷◌, [], List, length, IfOk, IfErr, OnErr};
ghost use Rattle.spec_builtins.specs.Built.{compound2};
ghost use Rattle.spec_branch.specs.Branch.{Branch};
ghost use Rattle.spec_builtins.specs.Alternatives.{◌≐◌};
ghost use Rattle.spec_search.specs.Replies.{Place, with_equations};
ghost use Rattle.spec_terms.specs.Term.{Number};
ghost use Rattle.cq_branch.specs.Begun.{told_work};
ghost use Rattle.cq_term.specs.Trees.{tree};
ghost use Rattle.cq_machine.specs.Machines.{terms, IsSound, HasSameProgram, HasBuilt, StillStands};
ghost use Rattle.cq_machine.specs.Stepping.{CanGo};
ghost use Rattle.cq_execute.specs.Found.{IsChildStep, StopsChild, RaisesNothing};
ghost use Rattle.cq_execute.specs.Machines.{AtPlaces, IsPlacedSomewhere};

use cq_branch::begin::Begun;
use cq_control::Continuation;
use cq_frac::Frac;
use cq_machine::{Machine, Step, build};
use cq_store::store::StoreFault;
use cq_term::TermId;
use cq_term::walk::Pair;
use std::alloc::{AllocError, Global};

/// The term is made equal to the value, and the world settled.
pub(crate) fn equal_to(
    m: &mut Machine,
    term: TermId,
    value: Frac,
    rest: Continuation,
) -> Result<Step, StoreFault>
    requires sound { IsSound m.old }
    requires placed { IsPlacedSomewhere m.old rest }
    requires term { term < length (terms m.old) }
    requires rest { rest < length m.old.world.second.now }
    ensures row { IfOk result (λ s. AtPlaces m.old rest (λ p behind.
        IsChildStep m.new p behind (with_equations ((tree m.old.atoms (terms m.old) term ≐ Number value) ∷ [])) s)) }
    ensures stop { IfErr result (λ f. AtPlaces m.old rest (λ p behind.
        StopsChild m.old.world.first.store.pivots p (with_equations ((tree m.old.atoms (terms m.old) term ≐ Number value) ∷ [])) f)) }
    ensures goes { IfOk result (CanGo m.new) }
    ensures raises { IfOk result RaisesNothing }
    ensures sound { IsSound m.new }
    ensures program { HasSameProgram m.old m.new }
    ensures err { OnErr result (StillStands m.old m.new) }
{
    let number = build_number(m, value)?;
    make_equal(m, term, number, rest)
}

/// It is told that the expression has the value, and the world settled.
pub(crate) fn tell_value(
    m: &mut Machine,
    expression: TermId,
    value: Frac,
    rest: Continuation,
) -> Result<Step, StoreFault>
    requires sound { IsSound m.old }
    requires placed { IsPlacedSomewhere m.old rest }
    requires expression { expression < length (terms m.old) }
    requires rest { rest < length m.old.world.second.now }
    ensures row { IfOk result (λ s. AtPlaces m.old rest (λ p behind.
        IsChildStep m.new p behind (told_work (compound2 "=" (tree m.old.atoms (terms m.old) expression) (Number value) ∷ [])) s)) }
    ensures stop { IfErr result (λ f. AtPlaces m.old rest (λ p behind.
        StopsChild m.old.world.first.store.pivots p (told_work (compound2 "=" (tree m.old.atoms (terms m.old) expression) (Number value) ∷ [])) f)) }
    ensures goes { IfOk result (CanGo m.new) }
    ensures raises { IfOk result RaisesNothing }
    ensures sound { IsSound m.new }
    ensures program { HasSameProgram m.old m.new }
    ensures err { OnErr result (StillStands m.old m.new) }
{
    let number = build_number(m, value)?;
    let relation = build_equation(m, expression, number)?;
    tell_one(m, relation, rest)
}

/// A number in the machine's world.
fn build_number(m: &mut Machine, value: Frac) -> Result<TermId, AllocError>
    requires sound { IsSound m.old }
    ensures live { IfOk result (λ id. id < length (terms m.new)) }
    ensures built { IfOk result (λ id. tree m.new.atoms (terms m.new) id ≡ Number value) }
    ensures more { HasBuilt m.old m.new }
    ensures sound { IsSound m.new }
{
    let id = m.world.first.heap.number(value)?;
    Ok(id)
}

/// The equation of two terms in the machine's world.
fn build_equation(m: &mut Machine, left: TermId, right: TermId) -> Result<TermId, AllocError>
    requires sound { IsSound m.old }
    requires left { left < length (terms m.old) }
    requires right { right < length (terms m.old) }
    ensures live { IfOk result (λ id. id < length (terms m.new)) }
    ensures built { IfOk result (λ id. tree m.new.atoms (terms m.new) id
        ≡ compound2 "=" (tree m.old.atoms (terms m.old) left) (tree m.old.atoms (terms m.old) right)) }
    ensures more { HasBuilt m.old m.new }
    ensures sound { IsSound m.new }
{
    let equal = m.names.equal;
    build(m, equal, &[left, right])
}

/// The terms are made equal, and the world settled.
fn make_equal(
    m: &mut Machine,
    left: TermId,
    right: TermId,
    rest: Continuation,
) -> Result<Step, StoreFault>
    requires sound { IsSound m.old }
    requires placed { IsPlacedSomewhere m.old rest }
    requires left { left < length (terms m.old) }
    requires right { right < length (terms m.old) }
    requires rest { rest < length m.old.world.second.now }
    ensures row { IfOk result (λ s. AtPlaces m.old rest (λ p behind. IsChildStep m.new p behind
        (with_equations ((tree m.old.atoms (terms m.old) left ≐ tree m.old.atoms (terms m.old) right) ∷ [])) s)) }
    ensures stop { IfErr result (λ f. AtPlaces m.old rest (λ p behind. StopsChild m.old.world.first.store.pivots p
        (with_equations ((tree m.old.atoms (terms m.old) left ≐ tree m.old.atoms (terms m.old) right) ∷ [])) f)) }
    ensures goes { IfOk result (CanGo m.new) }
    ensures raises { IfOk result RaisesNothing }
    ensures sound { IsSound m.new }
    ensures program { HasSameProgram m.old m.new }
    ensures err { OnErr result (StillStands m.old m.new) }
{
    let pairs = [Pair { left, right }];
    let world = &mut m.world;
    match cq_branch::begin::unify(&mut world.first, &mut world.second, &m.atoms, &pairs, rest) {
        Ok(begun) => match begun {
            Begun::Goes(first) => Ok(Step::Goes(first)),
            Begun::Pruned => Ok(Step::Back),
        },
        Err(fault) => Err(fault),
    }
}

/// A list of one term.
fn only(alloc: Global, term: TermId) -> Result<Vec<TermId>, AllocError>
    ensures { IfOk result (λ list. list.items ≡ term ∷ []) }
{
    let list = vec![in alloc; term]?;
    Ok(list)
}

/// The relation is told, and the world settled.
fn tell_one(m: &mut Machine, relation: TermId, rest: Continuation) -> Result<Step, StoreFault>
    requires sound { IsSound m.old }
    requires placed { IsPlacedSomewhere m.old rest }
    requires relation { relation < length (terms m.old) }
    requires rest { rest < length m.old.world.second.now }
    ensures row { IfOk result (λ s. AtPlaces m.old rest (λ p behind.
        IsChildStep m.new p behind (told_work (tree m.old.atoms (terms m.old) relation ∷ [])) s)) }
    ensures stop { IfErr result (λ f. AtPlaces m.old rest (λ p behind.
        StopsChild m.old.world.first.store.pivots p (told_work (tree m.old.atoms (terms m.old) relation ∷ [])) f)) }
    ensures goes { IfOk result (CanGo m.new) }
    ensures raises { IfOk result RaisesNothing }
    ensures sound { IsSound m.new }
    ensures program { HasSameProgram m.old m.new }
    ensures err { OnErr result (StillStands m.old m.new) }
{
    let told = only(m.world.first.heap.alloc(), relation)?;
    let world = &mut m.world;
    match cq_branch::begin::tell(&mut world.first, &mut world.second, &m.atoms, told, rest) {
        Ok(begun) => match begun {
            Begun::Goes(first) => Ok(Step::Goes(first)),
            Begun::Pruned => Ok(Step::Back),
        },
        Err(fault) => Err(fault),
    }
}
