// The standard order of two terms.

ghost use Rattle.std.specs.Prelude.{◌≡◌, ◌<◌, length, IfOk};
ghost use Rattle.std.specs.Ordering.{nat_cmp, ordering_then};
ghost use Rattle.spec_terms.specs.Term.{named};
ghost use Rattle.spec_terms.specs.Order.{compare_terms, compare_texts};
ghost use Rattle.cq_term.specs.Texts.{text_of};
ghost use Rattle.cq_term.specs.Meaning.{at};
ghost use Rattle.cq_term.specs.Names.{HasNamesBelow};
ghost use Rattle.cq_unify.specs.Standing.{Stands, Tells, TellsCompounds};

use cq_term::atoms::Atoms;
use cq_term::walk::{Pair, push_pairs};
use cq_term::{Atom, Heap, TermId, View};
use std::alloc::AllocError;
use std::cmp::Ordering;

/// How two terms stand, as far as their heads say.
#[derive(Clone, Copy)]
enum Standing {
    /// They are the same.
    Same,
    Apart(Ordering),
    /// Both are compounds of one name with so many arguments, which decide.
    Arguments(usize),
}

/// How two terms, read through bindings, stand in the standard order. Names stand by their texts, of which `atoms`
/// has to know those in the two terms. Only two compounds take memory, of which an error is the want.
pub fn compare(heap: &Heap, atoms: &Atoms, a: TermId, b: TermId) -> Result<Ordering, AllocError>
    requires a { a < length heap.now.now.terms }
    requires b { b < length heap.now.now.terms }
    requires a_names { HasNamesBelow (length atoms.now) (at heap.now.now.terms a) }
    requires b_names { HasNamesBelow (length atoms.now) (at heap.now.now.terms b) }
    ensures { IfOk result (λ o. o ≡ compare_terms (named (text_of atoms.now) (at heap.now.now.terms a)) (named (text_of atoms.now) (at heap.now.now.terms b))) }
{
    match rank_heads(heap, atoms, a, b) {
        Standing::Same => Ok(Ordering::Equal),
        Standing::Apart(order) => Ok(order),
        Standing::Arguments(_) => compare_throughout(heap, atoms, a, b),
    }
}

/// The same by a walk.
fn compare_throughout(
    heap: &Heap,
    atoms: &Atoms,
    a: TermId,
    b: TermId,
) -> Result<Ordering, AllocError>
    requires a { a < length heap.now.now.terms }
    requires b { b < length heap.now.now.terms }
    requires a_names { HasNamesBelow (length atoms.now) (at heap.now.now.terms a) }
    requires b_names { HasNamesBelow (length atoms.now) (at heap.now.now.terms b) }
    ensures { IfOk result (λ o. o ≡ compare_terms (named (text_of atoms.now) (at heap.now.now.terms a)) (named (text_of atoms.now) (at heap.now.now.terms b))) }
{
    let mut work = vec![in heap.alloc(); Pair { left: a, right: b }]?;
    while let Some(pair) = work.pop() {
        match rank_heads(heap, atoms, pair.left, pair.right) {
            Standing::Same => {}
            Standing::Apart(order) => return Ok(order),
            Standing::Arguments(arity) => {
                push_pairs(heap, pair.left, pair.right, arity, &mut work)?
            }
        }
    }
    Ok(Ordering::Equal)
}

/// Terms that share an id are not looked into.
fn rank_heads(heap: &Heap, atoms: &Atoms, left: TermId, right: TermId) -> Standing
    requires left { left < length heap.now.now.terms }
    requires right { right < length heap.now.now.terms }
    requires left_names { HasNamesBelow (length atoms.now) (at heap.now.now.terms left) }
    requires right_names { HasNamesBelow (length atoms.now) (at heap.now.now.terms right) }
    ensures { Stands atoms.now (at heap.now.now.terms left) (at heap.now.now.terms right) result }
{
    if left == right {
        return Standing::Same;
    }
    let shown = heap.view(right);
    match heap.view(left) {
        View::Var(v) => match shown {
            View::Var(w) => decided(v.0.cmp(&w.0)),
            _ => Standing::Apart(Ordering::Less),
        },
        View::Number(m) => match shown {
            View::Var(_) => Standing::Apart(Ordering::Greater),
            View::Number(n) => decided(m.cmp(n)),
            _ => Standing::Apart(Ordering::Less),
        },
        View::Name(a) => match shown {
            View::Name(b) => decided(atoms.text(a).cmp(atoms.text(b))),
            View::Compound(_, _) => Standing::Apart(Ordering::Less),
            _ => Standing::Apart(Ordering::Greater),
        },
        View::Compound(f, n) => match shown {
            View::Compound(g, m) => compounds(atoms, f, n, g, m),
            _ => Standing::Apart(Ordering::Greater),
        },
    }
}

/// How terms stand that are told apart by an order.
fn decided(order: Ordering) -> Standing
    ensures { Tells order result }
{
    match order {
        Ordering::Equal => Standing::Same,
        _ => Standing::Apart(order),
    }
}

/// Compounds stand by how many arguments they have, and then by name.
fn compounds(atoms: &Atoms, f: Atom, n: usize, g: Atom, m: usize) -> Standing
    requires left_name { f < length atoms.now }
    requires right_name { g < length atoms.now }
    ensures { TellsCompounds (ordering_then (nat_cmp n m) (compare_texts (text_of atoms.now f) (text_of atoms.now g))) n result }
{
    let order = n.cmp(&m).then(atoms.text(f).cmp(atoms.text(g)));
    match order {
        Ordering::Equal => Standing::Arguments(n),
        _ => Standing::Apart(order),
    }
}
