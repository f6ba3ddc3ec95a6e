//! Which name each variable of a term has.

ghost use Rattle.std.specs.Prelude.{◌≡◌, ◌++◌, ◌<◌, OnOk, IfOk, length, filter, string_bytes, ℕ, nat_eq};
ghost use Rattle.indexmap.specs.IndexMap.{get};
ghost use Rattle.spec_terms.specs.Variables.{variables};
ghost use Rattle.spec_terms.specs.VariableName.{VariableName};
ghost use Rattle.spec_text.specs.Written.{is_unnamed};
ghost use Rattle.cq_term.specs.Meaning.{at};
ghost use Rattle.cq_term.specs.Shown.{arguments};
ghost use Rattle.cq_write.specs.Naming.{AreFound, AreUnnamed, Opens, kept_or, with_unnamed};
ghost use Rattle.cq_write.specs.Settings.{IsIndexed, shown_by};

use crate::numbers::push_counted;
use cq_frac::VarId;
use cq_read::names::VariableName;
use cq_term::walk::push_arguments;
use cq_term::{Heap, TermId, View};
use indexmap::{IndexMap, IndexSet};
use std::alloc::{AllocError, Global};

/// The names of variables, and the variables of a term without one in the order of first occurrence.
#[derive(Drop)]
pub(crate) struct Names<'a> {
    names: &'a [VariableName],
    /// The place of each variable's first name.
    given: IndexMap<usize, usize>,
    unnamed: IndexSet<usize>,
}

/// Notes the place of a variable, unless it has one.
fn note(given: &mut IndexMap<usize, usize>, variable: usize, place: usize) -> Result<(), AllocError>
    ensures { OnOk result ((v : ℕ) → get nat_eq given.new v ≡ kept_or (get nat_eq given.old v) (nat_eq variable v) place) }
{
    if !given.contains_key(&variable) {
        given.insert(variable, place)?;
    }
    Ok(())
}

/// The place of each variable's first name.
fn places(alloc: Global, names: &[VariableName]) -> Result<IndexMap<usize, usize>, AllocError>
    ensures { IfOk result (λ given. AreFound names.now (get nat_eq given)) }
{
    let mut given = IndexMap::new(alloc);
    for (place, named) in names.iter().enumerate() {
        note(&mut given, named.variable.0, place)?;
    }
    Ok(given)
}

/// Adds a variable to those without a name, unless it has one.
fn add(
    unnamed: &mut IndexSet<usize>,
    given: &IndexMap<usize, usize>,
    variable: usize,
) -> Result<(), AllocError>
    ensures { OnOk result (unnamed.new.keys ≡ with_unnamed (get nat_eq given.now variable) unnamed.old.keys variable) }
{
    if given.contains_key(&variable) {
        return Ok(());
    }
    unnamed.insert(variable)?;
    Ok(())
}

/// Adds the arguments of a compound to the work, unless it is known to have no variable.
fn open(heap: &Heap, id: TermId, arity: usize, work: &mut Vec<TermId>) -> Result<(), AllocError>
    requires live { id < length heap.now.now.terms }
    requires arity { length (arguments (at heap.now.now.terms id)) ≡ arity }
    ensures { OnOk result (Opens heap.now.now.terms id work.old.items work.new.items) }
{
    if heap.is_ground(id) {
        return Ok(());
    }
    push_arguments(heap, id, arity, work)
}

/// The variables of a term without a name, each once, in the order of first occurrence. A part that stands at many places
/// is walked through at each of them, since it is written at each: so nothing is kept of the parts that were met.
fn unnamed_of(
    heap: &Heap,
    term: TermId,
    given: &IndexMap<usize, usize>,
) -> Result<IndexSet<usize>, AllocError>
    requires { term < length heap.now.now.terms }
    ensures { IfOk result (λ unnamed. AreUnnamed (get nat_eq given.now) (at heap.now.now.terms term) unnamed.keys) }
{
    let mut unnamed = IndexSet::new(heap.alloc());
    let mut work = vec![in heap.alloc(); term]?;
    while let Some(id) = work.pop() {
        match heap.view(id) {
            View::Var(variable) => {
                add(&mut unnamed, given, variable.0)?;
            }
            View::Number(_) | View::Name(_) => {}
            View::Compound(_, arity) => open(heap, id, arity, &mut work)?,
        }
    }
    Ok(unnamed)
}

impl<'a> Names<'a> {
    pub(crate) fn new(
        heap: &Heap,
        term: TermId,
        names: &'a [VariableName],
    ) -> Result<Names<'a>, AllocError>
        requires { term < length heap.now.now.terms }
        ensures indexed { IfOk result IsIndexed }
        ensures names { IfOk result (λ made. made.names.now ≡ names.now) }
        ensures unnamed { IfOk result (λ made. made.unnamed.keys ≡ filter (is_unnamed names.now) (variables (at heap.now.now.terms term))) }
    {
        let given = places(heap.alloc(), names)?;
        let unnamed = unnamed_of(heap, term, &given)?;
        Ok(Names {
            names,
            given,
            unnamed,
        })
    }

    /// The text of a variable.
    pub(crate) fn push_shown(&self, variable: VarId, out: &mut String) -> Result<(), AllocError>
        requires { IsIndexed self.now }
        ensures { OnOk result (string_bytes out.new ≡ string_bytes out.old ++ shown_by self.now variable.0) }
    {
        if let Some(&place) = self.given.get(&variable.0) {
            let named = &self.names[place];
            return out.push_str(named.name.as_str());
        }
        let count = self.unnamed.len();
        match self.unnamed.get_index_of(&variable.0) {
            Some(place) => push_counted(out, place),
            None => push_counted(out, count),
        }
    }
}
