// The lines that are written beside answers.

ghost use Rattle.std.specs.Prelude.{◌≡◌, ◌<◌, length, IfOk};
ghost use Rattle.spec_transcript.specs.Causes.{stop_text};
ghost use Rattle.spec_transcript.specs.Purposes.{ball_line};
ghost use Rattle.cq_branch.specs.Stored.{stored_tree};
ghost use Rattle.cq_term.specs.Meaning.{at};
ghost use Rattle.cq_term.specs.Names.{HasNamesBelow};
ghost use Rattle.cq_term.specs.Trees.{tree, KnowsTerms};
ghost use Rattle.cq_write.specs.Meaning.{operators};
ghost use Rattle.cq_machine.specs.Machines.{terms, database_of};
ghost use Rattle.cq_engine.specs.Fronts.{as_cause};

use cq_engine::events::Cause;
use cq_machine::Machine;
use cq_ops::Ops;
use cq_resolve::stored::StoredTerm;
use cq_term::atoms::Atoms;
use cq_term::{Heap, TermId};
use cq_write::{Style, write_term};
use std::alloc::AllocError;

/// The line of the ball of a clause that is refused.
pub(crate) fn ball_line(machine: &Machine, ball: TermId) -> Result<Vec<u8>, AllocError>
    requires live { ball < length (terms machine.now) }
    requires names { KnowsTerms machine.now.atoms (terms machine.now) }
    ensures { IfOk result (λ line. line.items ≡ ball_line (database_of machine.now).operators (tree machine.now.atoms (terms machine.now) ball)) }
{
    line_on(
        &machine.world.first.heap,
        &machine.atoms,
        &machine.ops,
        ball,
    )
}

/// The line of a ball that nothing catches, as it is stored.
pub(crate) fn stored_line(machine: &Machine, ball: &StoredTerm) -> Result<Vec<u8>, AllocError>
    requires { HasNamesBelow (length machine.now.atoms) ball.now.term }
    ensures { IfOk result (λ line. line.items ≡ ball_line (database_of machine.now).operators (stored_tree machine.now.atoms ball.now)) }
{
    let mut heap = Heap::new(machine.world.first.heap.alloc());
    let id = ball.restore(&mut heap)?;
    line_on(&heap, &machine.atoms, &machine.ops, id)
}

/// The line of a ball that is a term on a heap.
fn line_on(heap: &Heap, atoms: &Atoms, ops: &Ops, ball: TermId) -> Result<Vec<u8>, AllocError>
    requires live { ball < length heap.now.now.terms }
    requires names { HasNamesBelow (length atoms.now) (at heap.now.now.terms ball) }
    ensures { IfOk result (λ line. line.items ≡ ball_line (operators atoms.now ops.now) (tree atoms.now heap.now.now.terms ball)) }
{
    let text = write_term(heap, atoms, ops, ball, Style::Quoted, 1200, &[])?;
    let mut line = Vec::new(heap.alloc());
    line.extend_from_slice(b"error: ")?;
    line.extend_from_slice(&text)?;
    line.extend_from_slice(b"\n")?;
    Ok(line)
}

/// The line of a stop.
pub(crate) fn stop_line(cause: Cause) -> &'static [u8]
    ensures { result.now ≡ stop_text (as_cause cause) }
{
    match cause {
        Cause::Resolutions(_) => b"stop: resolutions\n",
        Cause::Pivots(_) => b"stop: pivots\n",
        Cause::Overflow(_) => b"stop: overflow\n",
    }
}
