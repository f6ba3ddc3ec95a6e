// What stands in a text, one behind another.

ghost use Rattle.std.specs.Prelude.{◌≤◌, length, IfOk, OnOk};
ghost use Rattle.cq_ops.specs.Tables.{AreNamed, named};
ghost use Rattle.cq_lint.specs.Sentences.{Stand, StandsAt};

use crate::clauses::{clause_of, run_directive};
use crate::sentences::Sentence;
use cq_ops::{Ops, more_names_keep_the_table};
use cq_read::{Read, read_clause};
use cq_term::Heap;
use cq_term::atoms::Atoms;
use std::alloc::{AllocError, Global};

/// What stands in a text from its start to its end. It is read with the operators in force, and leaves those that its directives
/// set. It fails where memory is wanting, alone.
pub fn read_sentences(
    alloc: Global,
    atoms: &mut Atoms,
    ops: &mut Ops,
    text: &[u8],
) -> Result<Vec<Sentence>, AllocError>
    requires { AreNamed atoms.old ops.old }
    ensures stand { IfOk result (λ found. Stand text.now (named atoms.old ops.old) 0 found.items (named atoms.new ops.new)) }
    ensures named { OnOk result (AreNamed atoms.new ops.new) }
{
    let mut found = Vec::new(alloc);
    let mut place = 0;
    'sentences: loop {
        match read_sentence(alloc, atoms, ops, text, place)? {
            Some((sentence, next)) => {
                found.push(sentence)?;
                place = next;
            }
            None => return Ok(found),
        }
    }
}

/// What stands at a place of a text, and the place where reading goes on; None at its end.
fn read_sentence(
    alloc: Global,
    atoms: &mut Atoms,
    ops: &mut Ops,
    text: &[u8],
    at: usize,
) -> Result<Option<(Sentence, usize)>, AllocError>
    requires place { at ≤ length text.now }
    requires named { AreNamed atoms.old ops.old }
    ensures stands { IfOk result (StandsAt text.now (named atoms.old ops.old) at (named atoms.new ops.new)) }
    ensures named { OnOk result (AreNamed atoms.new ops.new) }
{
    more_names_keep_the_table();
    let mut heap = Heap::new(alloc);
    match read_clause(&mut heap, atoms, ops, text, at)? {
        Read::End => Ok(None),
        Read::Syntax { at, resume } => Ok(Some((Sentence::Fault(at), resume))),
        Read::Clause { term, next, .. } => {
            let clause = clause_of(&heap, atoms, term, text, at, next)?;
            run_directive(&heap, atoms, term, ops)?;
            Ok(Some((Sentence::Clause(clause), next)))
        }
    }
}
