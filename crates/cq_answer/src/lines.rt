//! The lines of an answer.

ghost use Rattle.std.specs.Prelude.{◌≡◌, ◌<◌, ◌++◌, All, Some, codes, length, map, slice_get, IfOk, OnOk};
ghost use Rattle.spec_builtins.specs.Built.{compound2};
ghost use Rattle.spec_text.specs.declared.writing.Style.TheVariants as style;
ghost use Rattle.spec_text.specs.Written.{text_within};
ghost use Rattle.spec_answers.specs.Lines.{or_true, lines_text};
ghost use Rattle.cq_term.specs.Meaning.{at};
ghost use Rattle.cq_term.specs.Names.{HasNamesBelow};
ghost use Rattle.cq_term.specs.Trees.{tree, KnowsTerms};
ghost use Rattle.cq_write.specs.Meaning.{operators};
ghost use Rattle.cq_answer.specs.Names.{name_among};
ghost use Rattle.cq_project.specs.Projecting.{rows_of};
ghost use Rattle.cq_answer.specs.Shown.{bound_in, constraint_trees, goal_trees, AreLive};
ghost use Rattle.cq_answer.specs.Lines.{binding_line, constraint_line, goal_line, lines_with};

use crate::printing::push_rows;
use crate::residual::is_bound_query;
use cq_attr::Susp;
use cq_frac::VarId;
use cq_ops::Ops;
use cq_project::Rows;
use cq_read::names::VariableName;
use cq_term::atoms::{Atom, Atoms};
use cq_term::{Heap, TermId};
use cq_trail::Undo;
use cq_write::{Style, write_term};
use std::alloc::AllocError;

/// The texts of names, the operators, and the names of variables.
#[derive(Drop)]
pub(crate) struct Writing<'a> {
    pub(crate) atoms: &'a Atoms,
    pub(crate) ops: &'a Ops,
    pub(crate) names: &'a [VariableName],
}

/// A term as by writeq.
fn push_term(
    out: &mut Vec<u8>,
    heap: &Heap,
    writing: &Writing,
    term: TermId,
    priority: u16,
) -> Result<(), AllocError>
    requires live { term < length heap.now.now.terms }
    requires names { HasNamesBelow (length writing.now.atoms.now) (at heap.now.now.terms term) }
    ensures { OnOk result (out.new.items ≡ out.old.items
        ++ text_within style.Quoted (operators writing.now.atoms.now writing.now.ops.now) writing.now.names.now priority (tree writing.now.atoms.now heap.now.now.terms term)) }
{
    let text = write_term(
        heap,
        writing.atoms,
        writing.ops,
        term,
        Style::Quoted,
        priority,
        writing.names,
    )?;
    out.extend_from_slice(&text)
}

/// The line of a query variable that is bound.
fn push_binding(
    out: &mut Vec<u8>,
    heap: &Heap,
    writing: &Writing,
    named: &VariableName,
) -> Result<(), AllocError>
    requires live { named.now.number < length heap.now.now.images }
    requires known { KnowsTerms writing.now.atoms.now heap.now.now.terms }
    ensures { OnOk result (out.new.items ≡ out.old.items
        ++ (binding_line (operators writing.now.atoms.now writing.now.ops.now) writing.now.names.now (tree writing.now.atoms.now heap.now.now.images) named.now ++ codes "\n")) }
{
    out.extend_from_slice(named.name.as_bytes())?;
    out.extend_from_slice(b" = ")?;
    push_term(out, heap, writing, heap.var_term(named.variable), 699)?;
    out.extend_from_slice(b"\n")
}

/// The lines of the query variables that are bound.
fn push_bindings(
    out: &mut Vec<u8>,
    heap: &Heap,
    writing: &Writing,
    queries: &[VariableName],
) -> Result<(), AllocError>
    requires live { All (λ n. n.number < length heap.now.now.images) queries.now }
    requires known { KnowsTerms writing.now.atoms.now heap.now.now.terms }
    ensures { OnOk result (out.new.items ≡ out.old.items
        ++ lines_text (map (binding_line (operators writing.now.atoms.now writing.now.ops.now) writing.now.names.now (tree writing.now.atoms.now heap.now.now.images))
        (bound_in (tree writing.now.atoms.now heap.now.now.images) queries.now))) }
{
    'queries: for named in queries {
        if is_bound_query(heap, named) {
            push_binding(out, heap, writing, named)?;
        }
    }
    Ok(())
}

/// The line of a constraint that waits.
fn push_constraint(
    out: &mut Vec<u8>,
    heap: &Heap,
    writing: &Writing,
    term: TermId,
) -> Result<(), AllocError>
    requires live { term < length heap.now.now.terms }
    requires known { KnowsTerms writing.now.atoms.now heap.now.now.terms }
    ensures { OnOk result (out.new.items ≡ out.old.items
        ++ (constraint_line (operators writing.now.atoms.now writing.now.ops.now) writing.now.names.now (tree writing.now.atoms.now heap.now.now.terms term) ++ codes "\n")) }
{
    out.extend_from_slice(b"{")?;
    push_term(out, heap, writing, term, 1200)?;
    out.extend_from_slice(b"}\n")
}

/// The lines of the constraints that wait.
fn push_constraints(
    out: &mut Vec<u8>,
    heap: &Heap,
    writing: &Writing,
    waiting: &[Susp],
) -> Result<(), AllocError>
    requires live { AreLive heap.now.now waiting.now }
    requires known { KnowsTerms writing.now.atoms.now heap.now.now.terms }
    ensures { OnOk result (out.new.items ≡ out.old.items
        ++ lines_text (map (constraint_line (operators writing.now.atoms.now writing.now.ops.now) writing.now.names.now) (constraint_trees writing.now.atoms.now heap.now.now waiting.now))) }
{
    'waiting: for waits in waiting {
        match *waits {
            Susp::Delayed(term) => push_constraint(out, heap, writing, term)?,
            Susp::Goal(_, _) => {}
        }
    }
    Ok(())
}

/// The line of a goal that waits, with the term that is written made in the heap.
fn push_frozen(
    out: &mut Vec<u8>,
    heap: &mut Heap,
    writing: &Writing,
    freeze: Atom,
    variable: VarId,
    goal: TermId,
) -> Result<(), AllocError>
    requires freeze { slice_get writing.now.atoms.now freeze ≡ Some (codes "freeze") }
    requires variable { variable.0 < length heap.old.now.images }
    requires goal { goal < length heap.old.now.terms }
    requires known { KnowsTerms writing.now.atoms.now heap.old.now.terms }
    ensures line { OnOk result (out.new.items ≡ out.old.items
        ++ (goal_line (operators writing.now.atoms.now writing.now.ops.now) writing.now.names.now
        (compound2 "freeze" (tree writing.now.atoms.now heap.old.now.images variable.0) (tree writing.now.atoms.now heap.old.now.terms goal)) ++ codes "\n")) }
    ensures saved { heap.new.saved ≡ heap.old.saved }
{
    let awaited = heap.var_term(variable);
    let frozen = heap.compound(freeze, &[awaited, goal])?;
    push_term(out, heap, writing, frozen, 1200)?;
    out.extend_from_slice(b"\n")
}

/// The line of a goal that waits. The heap is the same afterwards.
fn push_goal(
    out: &mut Vec<u8>,
    heap: &mut Heap,
    writing: &Writing,
    freeze: Atom,
    variable: VarId,
    goal: TermId,
) -> Result<(), AllocError>
    requires freeze { slice_get writing.now.atoms.now freeze ≡ Some (codes "freeze") }
    requires variable { variable.0 < length heap.old.now.images }
    requires goal { goal < length heap.old.now.terms }
    requires known { KnowsTerms writing.now.atoms.now heap.old.now.terms }
    ensures line { OnOk result (out.new.items ≡ out.old.items
        ++ (goal_line (operators writing.now.atoms.now writing.now.ops.now) writing.now.names.now
        (compound2 "freeze" (tree writing.now.atoms.now heap.old.now.images variable.0) (tree writing.now.atoms.now heap.old.now.terms goal)) ++ codes "\n")) }
    ensures now { heap.new.now ≡ heap.old.now }
    ensures saved { heap.new.saved ≡ heap.old.saved }
{
    let mark = heap.mark()?;
    let pushed = push_frozen(out, heap, writing, freeze, variable, goal);
    heap.undo(mark);
    pushed
}

/// The lines of the goals that wait.
fn push_goals(
    out: &mut Vec<u8>,
    heap: &mut Heap,
    writing: &Writing,
    freeze: Atom,
    waiting: &[Susp],
) -> Result<(), AllocError>
    requires freeze { slice_get writing.now.atoms.now freeze ≡ Some (codes "freeze") }
    requires live { AreLive heap.old.now waiting.now }
    requires known { KnowsTerms writing.now.atoms.now heap.old.now.terms }
    ensures lines { OnOk result (out.new.items ≡ out.old.items
        ++ lines_text (map (goal_line (operators writing.now.atoms.now writing.now.ops.now) writing.now.names.now) (goal_trees writing.now.atoms.now heap.old.now waiting.now))) }
    ensures now { heap.new.now ≡ heap.old.now }
    ensures saved { heap.new.saved ≡ heap.old.saved }
{
    'waiting: for waits in waiting {
        match *waits {
            Susp::Goal(variable, goal) => push_goal(out, heap, writing, freeze, variable, goal)?,
            Susp::Delayed(_) => {}
        }
    }
    Ok(())
}

/// The lines of an answer, or that of `true` where there is none. The heap is the same afterwards.
pub(crate) fn lines_of(
    heap: &mut Heap,
    writing: &Writing,
    freeze: Atom,
    queries: &[VariableName],
    waiting: &[Susp],
    rows: &Rows,
) -> Result<Vec<u8>, AllocError>
    requires freeze { slice_get writing.now.atoms.now freeze ≡ Some (codes "freeze") }
    requires queries { All (λ n. n.number < length heap.old.now.images) queries.now }
    requires live { AreLive heap.old.now waiting.now }
    requires known { KnowsTerms writing.now.atoms.now heap.old.now.terms }
    ensures lines { IfOk result (λ text. text.items
        ≡ lines_text (or_true (lines_with (operators writing.now.atoms.now writing.now.ops.now) writing.now.names.now (name_among writing.now.names.now)
        (tree writing.now.atoms.now heap.old.now.images) (bound_in (tree writing.now.atoms.now heap.old.now.images) queries.now) (rows_of rows.now)
        (constraint_trees writing.now.atoms.now heap.old.now waiting.now) (goal_trees writing.now.atoms.now heap.old.now waiting.now)))) }
    ensures now { heap.new.now ≡ heap.old.now }
    ensures saved { heap.new.saved ≡ heap.old.saved }
{
    let alloc = heap.alloc();
    let mut text = Vec::new(alloc);
    push_bindings(&mut text, heap, writing, queries)?;
    push_rows(
        alloc,
        &mut text,
        writing.names,
        &rows.equations,
        &rows.inequalities,
        &rows.disequations,
    )?;
    push_constraints(&mut text, heap, writing, waiting)?;
    push_goals(&mut text, heap, writing, freeze, waiting)?;
    if text.is_empty() {
        text.extend_from_slice(b"true\n")?;
    }
    Ok(text)
}
