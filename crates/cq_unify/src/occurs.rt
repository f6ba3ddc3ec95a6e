// The occurs check.

ghost use Rattle.std.specs.Prelude.{◌≡◌, ◌<◌, ◌↔◌, [], length, IsTrue, IfOk, IfNone, IfSome};
ghost use Rattle.spec_terms.specs.Term.{Occurs};
ghost use Rattle.cq_term.specs.Meaning.{at};
ghost use Rattle.cq_term.specs.Shown.{arguments};
ghost use Rattle.cq_unify.specs.Work.{HasInnerCompound, Meets};

use cq_frac::VarId;
use cq_term::walk::Visited;
use cq_term::{Heap, TermId, View};
use std::alloc::AllocError;

/// What a walk over a term has met.
#[derive(Clone, Copy)]
enum Met {
    /// The variable that it looked for.
    Sought,
    /// Not that one, but another one.
    Another,
    /// No variable at all.
    Nothing,
}

/// Whether an unbound variable stands in a term. Without a compound inside a compound this takes no memory.
pub(crate) fn occurs(heap: &mut Heap, variable: VarId, term: TermId) -> Result<bool, AllocError>
    requires { term < length heap.old.now.terms }
    ensures found { IfOk result (λ found. IsTrue found ↔ Occurs variable.0 (at heap.old.now.terms term)) }
    ensures same { heap.new ≡ heap.old }
{
    if heap.is_ground(term) {
        return Ok(false);
    }
    match heap.view(term) {
        View::Var(shown) => Ok(shown.0 == variable.0),
        View::Number(_) | View::Name(_) => Ok(false),
        View::Compound(_, _) => match occurs_flat(heap, variable, term) {
            Some(found) => Ok(found),
            None => occurs_inside(heap, variable, term),
        },
    }
}

/// The same of a compound by its arguments alone, each of which is looked at at its head; where one that is met is a
/// compound that may have variables, this gives no answer.
fn occurs_flat(heap: &Heap, variable: VarId, term: TermId) -> Option<bool>
    requires live { term < length heap.now.now.terms }
    requires compound { 0 < length (arguments (at heap.now.now.terms term)) }
    ensures found { IfSome result (λ found. IsTrue found ↔ Occurs variable.0 (at heap.now.now.terms term)) }
    ensures none { IfNone result (HasInnerCompound (at heap.now.now.terms term)) }
{
    let ids = heap.args(term);
    for id in ids {
        match heap.view(*id) {
            View::Var(shown) => {
                if shown.0 == variable.0 {
                    return Some(true);
                }
            }
            View::Number(_) | View::Name(_) => {}
            View::Compound(_, _) => {
                if !heap.is_ground(*id) {
                    return None;
                }
            }
        }
    }
    Some(false)
}

/// The same of any term by a walk. Where it meets no variable, the heap is told that the compounds have none: a term is
/// walked once then, and not again for each variable that is bound to it.
fn occurs_inside(heap: &mut Heap, variable: VarId, term: TermId) -> Result<bool, AllocError>
    requires { term < length heap.old.now.terms }
    ensures found { IfOk result (λ found. IsTrue found ↔ Occurs variable.0 (at heap.old.now.terms term)) }
    ensures same { heap.new ≡ heap.old }
{
    let mut work = heap.spare_list();
    let mut walked = heap.spare_list();
    let outcome = walk(heap, variable, term, &mut work, &mut walked);
    if let Ok(Met::Nothing) = outcome {
        heap.learn_ground(&walked);
    }
    heap.keep_list(walked);
    heap.keep_list(work);
    Ok(is_sought(outcome?))
}

fn is_sought(met: Met) -> bool
    ensures { IsTrue result ↔ (met ≡ Met.Sought) }
{
    match met {
        Met::Sought => true,
        Met::Another => false,
        Met::Nothing => false,
    }
}

/// Visits the parts of a term until the variable is met, with lists for what is left and for the compounds.
fn walk(
    heap: &Heap,
    variable: VarId,
    term: TermId,
    work: &mut Vec<TermId>,
    walked: &mut Vec<TermId>,
) -> Result<Met, AllocError>
    requires live { term < length heap.now.now.terms }
    requires work { work.old.items ≡ [] }
    requires walked { walked.old.items ≡ [] }
    ensures { IfOk result (λ met. Meets heap.now.now.terms variable.0 term walked.new.items met) }
{
    let mut visited = Visited::new(heap.alloc());
    let mut is_clean = true;
    work.push(term)?;
    while let Some(id) = work.pop() {
        match heap.view(id) {
            View::Var(shown) => {
                if shown.0 == variable.0 {
                    return Ok(Met::Sought);
                }
                is_clean = false;
            }
            View::Number(_) | View::Name(_) => {}
            View::Compound(_, arity) => {
                walked.push(id)?;
                visited.visit(heap, id, arity, work)?;
            }
        }
    }
    if is_clean {
        Ok(Met::Nothing)
    } else {
        Ok(Met::Another)
    }
}
