//! The writer of terms.
#![tactic(auto)]

mod characters;
mod jobs;
mod line;
mod looks;
mod names;
mod numbers;
mod operands;
mod parts;
mod shapes;
mod variables;
mod writer;

ghost use Rattle.std.specs.Prelude.{◌≡◌, ◌<◌, length, IfOk};
ghost use Rattle.cq_term.specs.Meaning.{at};
ghost use Rattle.cq_term.specs.Names.{HasNamesBelow};
ghost use Rattle.spec_text.specs.Written.{text_within};
ghost use Rattle.cq_term.specs.Trees.{tree};
ghost use Rattle.cq_write.specs.Meaning.{operators};

use crate::jobs::Job;
use crate::line::Line;
use crate::parts::operand_job;
use crate::variables::Names;
use crate::writer::Writer;
use cq_ops::Ops;
use cq_read::names::VariableName;
use cq_term::atoms::Atoms;
use cq_term::{Heap, TermId};
pub use spec_text::writing::Style;
use std::alloc::AllocError;

/// The text of a term, read through bindings, within a priority: a term of a higher one stands in parentheses.
/// `atoms` has to know the names of the term. A variable is written by its first name in `names`; those without one are
/// `_1`, `_2` and so on by first occurrence in the term. It takes time linear in the text and the names, and a term may
/// be as deep as memory allows. An error is want of memory.
pub fn write_term(
    heap: &Heap,
    atoms: &Atoms,
    ops: &Ops,
    term: TermId,
    style: Style,
    priority: u16,
    names: &[VariableName],
) -> Result<Vec<u8>, AllocError>
    requires live { term < length heap.now.now.terms }
    requires names { HasNamesBelow (length atoms.now) (at heap.now.now.terms term) }
    ensures { IfOk result (λ text. text.items ≡ text_within style (operators atoms.now ops.now) names.now priority (tree atoms.now heap.now.now.terms term)) }
{
    let alloc = heap.alloc();
    let writer = Writer {
        heap,
        atoms,
        ops,
        style,
        names: Names::new(heap, term, names)?,
    };
    let mut text = String::new(alloc);
    let mut line = Line::new(alloc);
    let mut jobs = vec![in alloc; operand_job(writer.priority(term) <= priority, term)]?;
    while let Some(job) = jobs.pop() {
        match job {
            Job::Word(word) => writer.write(word, &mut text, &mut line)?,
            Job::Part(part) => writer.expand(part, &mut jobs, &mut line)?,
        }
    }
    Ok(line.into_text())
}
