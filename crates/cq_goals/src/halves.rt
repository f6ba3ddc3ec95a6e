// The halves of a constraint at its first disjunction.

ghost use Rattle.std.specs.Prelude.{◌≡◌, ◌≢◌, ◌<◌, ◌≤◌, ◌++◌, ◌∷◌, [], None, Some, true, List, length, All, IfOk, IfSome, IsNone, OnOk};
ghost use Rattle.std.specs.Option.{option_map};
ghost use Rattle.spec_numbers.specs.Texts.{Text};
ghost use Rattle.spec_builtins.specs.Built.{compound2};
ghost use Rattle.spec_branch.specs.Checks.{halves, is_conjunction};
ghost use Rattle.cq_term.specs.Texts.{text_of};
ghost use Rattle.cq_term.specs.Meaning.{HeapTerm};
ghost use Rattle.cq_term.specs.Trees.{tree, KnowsTerms};
ghost use Rattle.cq_built.specs.Growing.{Grows};
ghost use Rattle.cq_goals.specs.Splitting.{HasShape, IsLiveFrame, IsNext, next_work, all_work, all_resumed, resumed, halves_at, AreHalvesLive, IsOccurrence};

use cq_built::sides::{Sides, sides_of};
use cq_term::atoms::{Atom, Atoms};
use cq_term::{Heap, TermId};
use std::alloc::AllocError;

/// What a term is, with the sides that it has.
#[derive(Clone, Copy)]
enum Shape {
    Disjunction(Sides),
    Conjunction(Sides),
    Neither,
}

/// A conjunction of which a side is searched; the left one is searched before the right one.
#[derive(Clone, Copy)]
enum Frame {
    Left(Sides),
    Right(Sides),
}

/// The two constraints that one with a disjunction becomes.
#[derive(Clone, Copy)]
pub(crate) struct HalfTerms {
    pub(crate) left: TermId,
    pub(crate) right: TermId,
}

/// Where a disjunction stands: its sides, and the conjunctions round it, the innermost last.
#[derive(Drop)]
struct Occurrence {
    halves: HalfTerms,
    path: Vec<Frame>,
}

/// The halves of a constraint at its first disjunction, from the top and from the left; None where it holds none. An error
/// is want of memory, which may leave parts of them on the heap.
pub(crate) fn halves(
    heap: &mut Heap,
    atoms: &Atoms,
    constraint: TermId,
) -> Result<Option<HalfTerms>, AllocError>
    requires live { constraint < length heap.old.now.terms }
    requires names { KnowsTerms atoms.now heap.old.now.terms }
    ensures halves { IfOk result (λ h. halves (tree atoms.now heap.old.now.terms constraint) ≡ option_map (halves_at atoms.now heap.new.now.terms) h) }
    ensures live { IfOk result (λ h. IfSome h (AreHalvesLive heap.new.now.terms)) }
    ensures grows { Grows atoms.now heap.old atoms.now heap.new }
{
    match first_disjunction(heap, atoms, constraint)? {
        Some(place) => {
            let halves = joined(heap, atoms, place)?;
            Ok(Some(halves))
        }
        None => Ok(None),
    }
}

/// Where the first disjunction stands.
fn first_disjunction(
    heap: &Heap,
    atoms: &Atoms,
    constraint: TermId,
) -> Result<Option<Occurrence>, AllocError>
    requires live { constraint < length heap.now.now.terms }
    requires names { KnowsTerms atoms.now heap.now.now.terms }
    ensures some { IfOk result (λ p. IfSome p (IsOccurrence atoms.now heap.now.now.terms (halves (tree atoms.now heap.now.now.terms constraint)))) }
    ensures none { IfOk result (λ p. IsNone p → halves (tree atoms.now heap.now.now.terms constraint) ≡ None) }
{
    let mut path = Vec::new(heap.alloc());
    let mut next = Some(constraint);
    while let Some(id) = next {
        match shape_of(heap, atoms, id) {
            Shape::Disjunction(sides) => {
                let halves = HalfTerms {
                    left: sides.left,
                    right: sides.right,
                };
                return Ok(Some(Occurrence { halves, path }));
            }
            Shape::Conjunction(sides) => {
                let left = sides.left;
                enter(&mut path, Frame::Left(sides))?;
                next = Some(left);
            }
            Shape::Neither => next = next_side(&mut path)?,
        }
    }
    Ok(None)
}

/// The right side of the innermost conjunction of which the left one was searched.
fn next_side(path: &mut Vec<Frame>) -> Result<Option<TermId>, AllocError>
    ensures leads { IfOk result (λ next. (texts : List Text) (ts : List HeapTerm) → All (IsLiveFrame texts ts) path.old.items
        → IsNext texts ts (all_resumed texts ts path.old.items None) next path.new.items) }
    ensures less { IfOk result (λ next. (ts : List HeapTerm) → next_work ts next path.new.items ≤ all_work ts path.old.items) }
{
    while let Some(frame) = path.pop() {
        if let Some(sides) = left_sides(frame) {
            let right = sides.right;
            enter(path, Frame::Right(sides))?;
            return Ok(Some(right));
        }
    }
    Ok(None)
}

/// The sides of a conjunction of which the left one was searched.
fn left_sides(frame: Frame) -> Option<Sides>
    ensures some { IfSome result (λ s. frame ≡ Frame.Left s) }
    ensures none { IsNone result → (s : Sides) → frame ≢ Frame.Left s }
{
    match frame {
        Frame::Left(sides) => Some(sides),
        Frame::Right(_) => None,
    }
}

/// Puts a conjunction at the end of those that are searched.
fn enter(path: &mut Vec<Frame>, frame: Frame) -> Result<(), AllocError>
    ensures { OnOk result (path.new.items ≡ path.old.items ++ frame ∷ []) }
{
    path.push(frame)?;
    Ok(())
}

/// Whether a term is a conjunction or a disjunction.
fn shape_of(heap: &Heap, atoms: &Atoms, id: TermId) -> Shape
    requires live { id < length heap.now.now.terms }
    requires names { KnowsTerms atoms.now heap.now.now.terms }
    ensures { HasShape atoms.now heap.now.now.terms id result }
{
    match sides_of(heap, id) {
        Some(sides) => {
            let name = atoms.text(sides.name);
            if name == ";" {
                Shape::Disjunction(sides)
            } else if name == "," {
                Shape::Conjunction(sides)
            } else {
                Shape::Neither
            }
        }
        None => Shape::Neither,
    }
}

/// The halves within all conjunctions round the disjunction.
fn joined(heap: &mut Heap, atoms: &Atoms, place: Occurrence) -> Result<HalfTerms, AllocError>
    requires names { KnowsTerms atoms.now heap.old.now.terms }
    requires halves_live { AreHalvesLive heap.old.now.terms place.halves }
    requires live { All (IsLiveFrame atoms.now heap.old.now.terms) place.path.items }
    ensures joined { IfOk result (λ h. all_resumed atoms.now heap.old.now.terms place.path.items (Some (halves_at atoms.now heap.old.now.terms place.halves))
        ≡ Some (halves_at atoms.now heap.new.now.terms h)) }
    ensures live { IfOk result (AreHalvesLive heap.new.now.terms) }
    ensures grows { Grows atoms.now heap.old atoms.now heap.new }
{
    let mut halves = place.halves;
    let mut path = place.path;
    while let Some(frame) = path.pop() {
        halves = within(heap, atoms, frame, halves)?;
    }
    Ok(halves)
}

/// The halves within a conjunction.
fn within(
    heap: &mut Heap,
    atoms: &Atoms,
    frame: Frame,
    halves: HalfTerms,
) -> Result<HalfTerms, AllocError>
    requires names { KnowsTerms atoms.now heap.old.now.terms }
    requires halves_live { AreHalvesLive heap.old.now.terms halves }
    requires live { IsLiveFrame atoms.now heap.old.now.terms frame }
    ensures joined { IfOk result (λ h. resumed atoms.now heap.old.now.terms frame (Some (halves_at atoms.now heap.old.now.terms halves))
        ≡ Some (halves_at atoms.now heap.new.now.terms h)) }
    ensures live { IfOk result (AreHalvesLive heap.new.now.terms) }
    ensures grows { Grows atoms.now heap.old atoms.now heap.new }
{
    match frame {
        Frame::Left(sides) => {
            let beside = sides.right;
            let left = conjunction(heap, atoms, sides.name, halves.left, beside)?;
            let right = conjunction(heap, atoms, sides.name, halves.right, beside)?;
            Ok(HalfTerms { left, right })
        }
        Frame::Right(sides) => {
            let beside = sides.left;
            let left = conjunction(heap, atoms, sides.name, beside, halves.left)?;
            let right = conjunction(heap, atoms, sides.name, beside, halves.right)?;
            Ok(HalfTerms { left, right })
        }
    }
}

/// The conjunction of two terms, by the name that a conjunction has.
fn conjunction(
    heap: &mut Heap,
    atoms: &Atoms,
    name: Atom,
    left: TermId,
    right: TermId,
) -> Result<TermId, AllocError>
    requires comma { is_conjunction (text_of atoms.now name) ≡ true }
    requires known { name < length atoms.now }
    requires left { left < length heap.old.now.terms }
    requires right { right < length heap.old.now.terms }
    requires names { KnowsTerms atoms.now heap.old.now.terms }
    ensures live { IfOk result (λ id. id < length heap.new.now.terms) }
    ensures built { IfOk result (λ id. tree atoms.now heap.new.now.terms id
        ≡ compound2 "," (tree atoms.now heap.old.now.terms left) (tree atoms.now heap.old.now.terms right)) }
    ensures grows { Grows atoms.now heap.old atoms.now heap.new }
{
    let id = heap.compound(name, &[left, right])?;
    Ok(id)
}
