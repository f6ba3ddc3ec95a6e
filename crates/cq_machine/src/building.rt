// Terms that rows build, and goals that they put in front.

ghost use Rattle.std.specs.Prelude.{◌≡◌, ◌<◌, ◌∷◌, ℕ, List, All, Some, true, length, slice_get, IfOk, OnErr};
ghost use Rattle.spec_numbers.specs.Texts.{Text};
ghost use Rattle.spec_terms.specs.Term.{with_arguments};
ghost use Rattle.spec_syntax.specs.Trees.{Tree};
ghost use Rattle.spec_builtins.specs.Kinds.{is_callable};
ghost use Rattle.spec_branch.specs.Branch.{Branch};
ghost use Rattle.spec_search.specs.Control as control;
ghost use Rattle.spec_search.specs.Replies.{Place, goes_on};
ghost use Rattle.cq_built.specs.Growing.{Grows};
ghost use Rattle.cq_term.specs.Trees.{tree, trees};
ghost use Rattle.cq_settle.specs.Worlds.{now_of, saved_of};
ghost use Rattle.cq_branch.specs.Worlds.{with_heap, ReadsAs};
ghost use Rattle.cq_machine.specs.Machines.{terms, now, IsSound, HasSameProgram, StillStands, HasBuilt};
ghost use Rattle.cq_machine.specs.Stepping.{IsSelectedAt, IsStep, CanGo};

use crate::machine::Machine;
use crate::step::Step;
use cq_control::Continuation;
use cq_settle::world::World;
use cq_term::{Atom, TermId};
use spec_engine::machine::Cell;
use std::alloc::AllocError;

/// A name over terms in a world; the name alone over none.
fn over(world: &mut World, name: Atom, args: &[TermId]) -> Result<TermId, AllocError>
    requires live { All (λ i. i < length world.old.heap.now.terms) args.now }
    ensures live { IfOk result (λ id. id < length world.new.heap.now.terms) }
    ensures built { IfOk result (λ id. (texts : List Text) (text : Text) → slice_get texts name ≡ Some text
        → tree texts world.new.heap.now.terms id ≡ with_arguments text (trees texts world.old.heap.now.terms args.now)) }
    ensures grows { (texts : List Text) → name < length texts → Grows texts world.old.heap texts world.new.heap }
    ensures rest { now_of world.new ≡ with_heap world.new.heap.now (now_of world.old) }
    ensures saved { saved_of world.new ≡ saved_of world.old }
{
    if args.is_empty() {
        let id = world.heap.atom(name)?;
        return Ok(id);
    }
    let id = world.heap.compound(name, args)?;
    Ok(id)
}

/// The same in the world of a machine.
pub fn build(m: &mut Machine, name: Atom, args: &[TermId]) -> Result<TermId, AllocError>
    requires sound { IsSound m.old }
    requires name { name < length m.old.atoms }
    requires live { All (λ i. i < length (terms m.old)) args.now }
    ensures live { IfOk result (λ id. id < length (terms m.new)) }
    ensures built { IfOk result (λ id. (text : Text) → slice_get m.old.atoms name ≡ Some text
        → tree m.new.atoms (terms m.new) id ≡ with_arguments text (trees m.old.atoms (terms m.old) args.now)) }
    ensures more { HasBuilt m.old m.new }
    ensures stands { StillStands m.old m.new }
    ensures sound { IsSound m.new }
{
    over(&mut m.world.first, name, args)
}

/// A goal that a row puts in front.
pub fn put(
    m: &mut Machine,
    goal: TermId,
    height: usize,
    rest: Continuation,
) -> Result<Step, AllocError>
    requires sound { IsSound m.old }
    requires goal { goal < length (terms m.old) }
    requires callable { is_callable (tree m.old.atoms (terms m.old) goal) ≡ true }
    requires rest { rest < length m.old.world.second.now }
    ensures row { IfOk result (λ s. (p : Place) (behind : List Branch) (id : ℕ) (g put : Tree) → IsSelectedAt m.old id height rest p behind g
        → ReadsAs m.old.atoms (now m.old).0 p.state goal put → IsStep m.new s p behind (goes_on p (control.put put p.cut ∷ p.rest))) }
    ensures goes { IfOk result (CanGo m.new) }
    ensures sound { IsSound m.new }
    ensures program { HasSameProgram m.old m.new }
    ensures err { OnErr result (StillStands m.old m.new) }
{
    let k = m.world.second.before(Cell::Goal(goal, height), rest)?;
    Ok(Step::Goes(k))
}
