// The term of an error.

ghost use Rattle.std.specs.Prelude.{◌≡◌, ◌<◌, length, IfOk, OnErr};
ghost use Rattle.cq_built.specs.Errors.{HasCulprit};
ghost use Rattle.cq_built.specs.Growing.{Grows};
ghost use Rattle.cq_term.specs.Trees.{tree, KnowsTerms};
ghost use Rattle.cq_machine.specs.Machines.{terms, IsSound, StillStands};
ghost use Rattle.cq_engine.specs.Seeking.{GainsNames};
ghost use Rattle.cq_engine.specs.Raised.{IsNumbered, ball_by};

use crate::events::raiser::{Raiser, predicate_by};
use cq_branch::more_may_be_built;
use cq_built::{BuiltinError, ball};
use cq_choices::{names_are_of_terms, names_may_be_added};
use cq_machine::Machine;
use cq_ops::more_names_keep_the_table;
use cq_term::atoms::Atoms;
use cq_term::{Heap, TermId};
use std::alloc::AllocError;

/// The ball of an error on a heap. An error is want of memory; names may then stay.
fn ball_on(
    heap: &mut Heap,
    atoms: &mut Atoms,
    error: BuiltinError,
    raiser: Raiser,
) -> Result<TermId, AllocError>
    requires names { KnowsTerms atoms.old heap.old.now.terms }
    requires culprit { HasCulprit atoms.old heap.old.now.terms error }
    requires numbered { IsNumbered atoms.old raiser }
    ensures live { IfOk result (λ id. id < length heap.new.now.terms) }
    ensures built { IfOk result (λ id. tree atoms.new heap.new.now.terms id ≡ ball_by atoms.old heap.old.now.terms error raiser) }
    ensures grows { Grows atoms.old heap.old atoms.new heap.new }
    ensures err { OnErr result (heap.new.now ≡ heap.old.now) }
{
    let predicate = predicate_by(atoms, raiser)?;
    match ball(heap, atoms, error, predicate) {
        Ok(id) => Ok(id),
        Err(fault) => Err(fault),
    }
}

/// The same in the world of a machine.
pub(crate) fn build_ball(
    m: &mut Machine,
    error: BuiltinError,
    raiser: Raiser,
) -> Result<TermId, AllocError>
    requires sound { IsSound m.old }
    requires culprit { HasCulprit m.old.atoms (terms m.old) error }
    requires numbered { IsNumbered m.old.atoms raiser }
    ensures live { IfOk result (λ id. id < length (terms m.new)) }
    ensures built { IfOk result (λ id. tree m.new.atoms (terms m.new) id ≡ ball_by m.old.atoms (terms m.old) error raiser) }
    ensures stands { StillStands m.old m.new }
    ensures sound { IsSound m.new }
    ensures program { GainsNames m.old m.new }
    ensures budget { m.new.world.first.store.pivots ≡ m.old.world.first.store.pivots }
{
    names_may_be_added();
    more_names_keep_the_table();
    more_may_be_built();
    names_are_of_terms(&m.world, &m.choices);
    let built = ball_on(&mut m.world.first.heap, &mut m.atoms, error, raiser);
    m.atoms.text(m.names.truth);
    built
}
