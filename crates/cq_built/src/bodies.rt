//! Bodies of clauses as they are stored: each goal that is a variable X becomes `call(X)`.
#![tactic(auto)]

// Bodies on a heap, converted part by part.

ghost use Rattle.std.specs.Prelude.{◌≡◌, ◌<◌, All, Some, codes, length, slice_get, IfOk, IfSome, IsNone, OnOk};
ghost use Rattle.spec_terms.specs.Term.{with_arguments};
ghost use Rattle.spec_builtins.specs.Bodies.{converted_body, is_control};
ghost use Rattle.cq_term.specs.Texts.{text_of};
ghost use Rattle.cq_term.specs.Trees.{tree, trees, KnowsTerms};
ghost use Rattle.cq_built.specs.Growing.{Grows};
ghost use Rattle.cq_built.specs.Bodies.{IsConstruct, IsPlain, IsLiveTask, CanJoin, Turns};

use crate::kinds::is_variable;
use crate::sides::{Sides, sides_of};
use cq_term::atoms::Atoms;
use cq_term::{Atom, Heap, TermId};
use std::alloc::AllocError;

/// What is still to be done.
#[derive(Clone, Copy)]
enum Task {
    /// A part of the body is to be converted.
    Part(TermId),
    /// The two that were done last become the sides of this name.
    Join(Atom),
}

/// The body as it is stored: each conjunct and branch that is a variable X becomes `call(X)`. An error is want of memory; names
/// and parts may then stay.
pub fn convert_body(heap: &mut Heap, atoms: &mut Atoms, body: TermId) -> Result<TermId, AllocError>
    requires live { body < length heap.old.now.terms }
    requires names { KnowsTerms atoms.old heap.old.now.terms }
    ensures live { IfOk result (λ id. id < length heap.new.now.terms) }
    ensures converted { IfOk result (λ id. tree atoms.new heap.new.now.terms id ≡ converted_body (tree atoms.old heap.old.now.terms body)) }
    ensures grows { Grows atoms.old heap.old atoms.new heap.new }
{
    let call = atoms.intern("call")?;
    let id = convert(heap, atoms, call, body)?;
    Ok(id)
}

/// The same, with the name `call`.
fn convert(heap: &mut Heap, atoms: &Atoms, call: Atom, body: TermId) -> Result<TermId, AllocError>
    requires live { body < length heap.old.now.terms }
    requires names { KnowsTerms atoms.now heap.old.now.terms }
    requires call { slice_get atoms.now call ≡ Some (codes "call") }
    ensures live { IfOk result (λ id. id < length heap.new.now.terms) }
    ensures converted { IfOk result (λ id. tree atoms.now heap.new.now.terms id ≡ converted_body (tree atoms.now heap.old.now.terms body)) }
    ensures grows { Grows atoms.now heap.old atoms.now heap.new }
{
    let mut done = Vec::new(heap.alloc());
    let mut tasks = vec![in heap.alloc(); Task::Part(body)]?;
    while let Some(task) = tasks.pop() {
        take_turn(heap, atoms, call, task, &mut tasks, &mut done)?;
    }
    Ok(done.pop().unwrap())
}

/// Does one task, or puts others in its place.
fn take_turn(
    heap: &mut Heap,
    atoms: &Atoms,
    call: Atom,
    task: Task,
    tasks: &mut Vec<Task>,
    done: &mut Vec<TermId>,
) -> Result<(), AllocError>
    requires names { KnowsTerms atoms.now heap.old.now.terms }
    requires call { slice_get atoms.now call ≡ Some (codes "call") }
    requires task { IsLiveTask atoms.now heap.old.now.terms task }
    requires tasks { All (IsLiveTask atoms.now heap.old.now.terms) tasks.old.items }
    requires done { All (λ id. id < length heap.old.now.terms) done.old.items }
    requires two { CanJoin task done.old.items }
    ensures turns { OnOk result (Turns atoms.now heap.old.now.terms task tasks.old.items done.old.items heap.new.now.terms tasks.new.items done.new.items) }
    ensures grows { Grows atoms.now heap.old atoms.now heap.new }
{
    match task {
        Task::Join(name) => {
            let right = done.pop().unwrap();
            let left = done.pop().unwrap();
            let id = over(heap, atoms, name, &[left, right])?;
            done.push(id)?;
        }
        Task::Part(id) => {
            if let Some(sides) = construct_of(heap, atoms, id) {
                tasks.extend_from_slice(&[
                    Task::Join(sides.name),
                    Task::Part(sides.right),
                    Task::Part(sides.left),
                ])?;
                return Ok(());
            }
            let goal = goal_of(heap, atoms, call, id)?;
            done.push(goal)?;
        }
    }
    Ok(())
}

/// A part that is no construct, as a goal.
fn goal_of(heap: &mut Heap, atoms: &Atoms, call: Atom, id: TermId) -> Result<TermId, AllocError>
    requires live { id < length heap.old.now.terms }
    requires names { KnowsTerms atoms.now heap.old.now.terms }
    requires call { slice_get atoms.now call ≡ Some (codes "call") }
    requires plain { IsPlain (tree atoms.now heap.old.now.terms id) }
    ensures live { IfOk result (λ goal. goal < length heap.new.now.terms) }
    ensures converted { IfOk result (λ goal. tree atoms.now heap.new.now.terms goal ≡ converted_body (tree atoms.now heap.old.now.terms id)) }
    ensures grows { Grows atoms.now heap.old atoms.now heap.new }
{
    if is_variable(heap, id) {
        let goal = over(heap, atoms, call, &[id])?;
        return Ok(goal);
    }
    Ok(id)
}

/// A name over terms.
fn over(heap: &mut Heap, atoms: &Atoms, name: Atom, args: &[TermId]) -> Result<TermId, AllocError>
    requires some { 0 < length args.now }
    requires live { All (λ i. i < length heap.old.now.terms) args.now }
    requires name { name < length atoms.now }
    ensures live { IfOk result (λ id. id < length heap.new.now.terms) }
    ensures built { IfOk result (λ id. tree atoms.now heap.new.now.terms id
        ≡ with_arguments (text_of atoms.now name) (trees atoms.now heap.old.now.terms args.now)) }
    ensures grows { Grows atoms.now heap.old atoms.now heap.new }
{
    let id = heap.compound(name, args)?;
    Ok(id)
}

/// The sides of a conjunction, a disjunction or an if-then.
fn construct_of(heap: &Heap, atoms: &Atoms, id: TermId) -> Option<Sides>
    requires live { id < length heap.now.now.terms }
    requires names { KnowsTerms atoms.now heap.now.now.terms }
    ensures some { IfSome result (IsConstruct atoms.now heap.now.now.terms id) }
    ensures none { IsNone result → IsPlain (tree atoms.now heap.now.now.terms id) }
{
    let sides = sides_of(heap, id)?;
    if is_control(atoms.text(sides.name)) {
        Some(sides)
    } else {
        None
    }
}

/// Whether a name is that of a conjunction, a disjunction or an if-then.
fn is_control(name: &str) -> bool
    ensures { result ≡ is_control name.now }
{
    name == "," || name == ";" || name == "->"
}
