// The ways in which predicates on texts hold, made one at a time.

ghost use Rattle.std.specs.Prelude.{◌≡◌, ◌+◌, ◌-◌, ◌≤◌, ◌<◌, length, take, IfOk, OnErr};
ghost use Rattle.spec_syntax.specs.Trees.{natural};
ghost use Rattle.spec_builtins.specs.Texts.{name_of};
ghost use Rattle.cq_term.specs.Trees.{tree, KnowsTerms};
ghost use Rattle.cq_built.specs.Growing.{Grows};
ghost use Rattle.cq_built.specs.Offered.{alternative_of};
ghost use Rattle.cq_predicates.specs.Ways.{AreThere, HasSplitArgs, HasPartArgs, CanGoOn, CanBeTried, split_way, part_way, split_ways, part_ways, offered, TakesNext, IsOnlyPair};

use crate::text::characters::joined;
use crate::text::parts::Parts;
use crate::text::sought::Place;
use crate::text::splits::Splits;
use cq_built::{Alternative, atom, whole};
use cq_term::atoms::Atoms;
use cq_term::walk::Pair;
use cq_term::{Heap, TermId};
use std::alloc::AllocError;

/// The two texts of a split, as arguments.
#[derive(Clone, Copy)]
pub struct SplitArgs {
    pub first: TermId,
    pub last: TermId,
}

/// How many characters stand before, in and after a part, and the part, as arguments.
#[derive(Clone, Copy)]
pub struct PartArgs {
    pub before: TermId,
    pub len: TermId,
    pub after: TermId,
    pub part: TermId,
}

/// The splits of a text whose first text has so many characters or more.
#[derive(Drop)]
pub(crate) struct SplitWays {
    pub(crate) splits: Splits,
    pub(crate) next: usize,
    pub(crate) args: SplitArgs,
}

/// The parts of a text from a place on.
#[derive(Drop)]
pub(crate) struct PartWays {
    pub(crate) parts: Parts,
    pub(crate) next: Place,
    pub(crate) args: PartArgs,
}

#[derive(Drop)]
pub(crate) enum Ways {
    /// One way at most, whose terms stand on the heap.
    One(Option<Alternative>),
    Splits(SplitWays),
    Parts(PartWays),
}

/// The alternatives of a predicate on texts that are still to come. They are made when they are asked for: a text of
/// 10,000 characters has fifty million parts.
#[derive(Drop)]
pub struct TextAlternatives {
    pub(crate) ways: Ways,
}

impl TextAlternatives {
    /// The next alternative; none behind the last one. After an error, which is want of memory, the same ones are still to
    /// come. What is still to come afterwards needs no terms but those that were there before.
    pub fn next(
        &mut self,
        heap: &mut Heap,
        atoms: &mut Atoms,
    ) -> Result<Option<Alternative>, AllocError>
        requires live { CanGoOn heap.old.now.terms self.old }
        requires names { KnowsTerms atoms.old heap.old.now.terms }
        ensures next { IfOk result (λ next. TakesNext offered atoms.old heap.old.now.terms self.old atoms.new heap.new.now.terms self.new next) }
        ensures there { IfOk result (CanBeTried heap.new.now.terms) }
        ensures live { CanGoOn heap.new.now.terms self.new }
        ensures back { CanGoOn heap.old.now.terms self.new }
        ensures grows { Grows atoms.old heap.old atoms.new heap.new }
        ensures err { OnErr result (self.new ≡ self.old) }
    {
        match &mut self.ways {
            Ways::One(only) => Ok(only.take()),
            Ways::Splits(ways) => ways.next(heap, atoms),
            Ways::Parts(ways) => ways.next(heap, atoms),
        }
    }
}

impl SplitWays {
    fn next(
        &mut self,
        heap: &mut Heap,
        atoms: &mut Atoms,
    ) -> Result<Option<Alternative>, AllocError>
        requires live { HasSplitArgs heap.old.now.terms self.old.args }
        requires names { KnowsTerms atoms.old heap.old.now.terms }
        ensures next { IfOk result (λ next. TakesNext split_ways atoms.old heap.old.now.terms self.old atoms.new heap.new.now.terms self.new next) }
        ensures there { IfOk result (CanBeTried heap.new.now.terms) }
        ensures live { HasSplitArgs heap.new.now.terms self.new.args }
        ensures back { HasSplitArgs heap.old.now.terms self.new.args }
        ensures grows { Grows atoms.old heap.old atoms.new heap.new }
        ensures err { OnErr result (self.new ≡ self.old) }
    {
        let Some(count) = self.splits.first_from(self.next) else {
            return Ok(None);
        };
        let way = split_alternative(heap, atoms, &self.splits.characters, count, self.args)?;
        self.next = count + 1;
        Ok(Some(way))
    }
}

impl PartWays {
    fn next(
        &mut self,
        heap: &mut Heap,
        atoms: &mut Atoms,
    ) -> Result<Option<Alternative>, AllocError>
        requires live { HasPartArgs heap.old.now.terms self.old.args }
        requires names { KnowsTerms atoms.old heap.old.now.terms }
        ensures next { IfOk result (λ next. TakesNext part_ways atoms.old heap.old.now.terms self.old atoms.new heap.new.now.terms self.new next) }
        ensures there { IfOk result (CanBeTried heap.new.now.terms) }
        ensures live { HasPartArgs heap.new.now.terms self.new.args }
        ensures back { HasPartArgs heap.old.now.terms self.new.args }
        ensures grows { Grows atoms.old heap.old atoms.new heap.new }
        ensures err { OnErr result (self.new ≡ self.old) }
    {
        let Some(place) = self.parts.first_from(self.next) else {
            return Ok(None);
        };
        let way = part_alternative(heap, atoms, &self.parts.characters, place, self.args)?;
        self.next = Place {
            before: place.before,
            len: place.len + 1,
        };
        Ok(Some(way))
    }
}

/// The atom of these characters.
pub(crate) fn atom_of(
    heap: &mut Heap,
    atoms: &mut Atoms,
    characters: &[char],
) -> Result<TermId, AllocError>
    ensures live { IfOk result (λ id. id < length heap.new.now.terms) }
    ensures built { IfOk result (λ id. tree atoms.new heap.new.now.terms id ≡ name_of characters.now) }
    ensures grows { Grows atoms.old heap.old atoms.new heap.new }
{
    let text = joined(heap.alloc(), characters)?;
    atom(heap, atoms, &text)
}

fn split_alternative(
    heap: &mut Heap,
    atoms: &mut Atoms,
    characters: &[char],
    count: usize,
    args: SplitArgs,
) -> Result<Alternative, AllocError>
    requires within { count ≤ length characters.now }
    requires live { HasSplitArgs heap.old.now.terms args }
    requires names { KnowsTerms atoms.old heap.old.now.terms }
    ensures built { IfOk result (λ way. alternative_of atoms.new heap.new.now.terms 0 way ≡ split_way atoms.old heap.old.now.terms args characters.now count) }
    ensures there { IfOk result (AreThere heap.new.now.terms) }
    ensures grows { Grows atoms.old heap.old atoms.new heap.new }
{
    let (front, back) = characters.split_at(count);
    let first = atom_of(heap, atoms, front)?;
    let last = atom_of(heap, atoms, back)?;
    let pairs = vec![in heap.alloc(); pair(args.first, first), pair(args.last, last)]?;
    Ok(Alternative { pairs })
}

/// The only way in which a predicate holds, of one pair.
pub(crate) fn one_way(
    heap: &Heap,
    left: TermId,
    right: TermId,
) -> Result<TextAlternatives, AllocError>
    requires left { left < length heap.now.now.terms }
    requires right { right < length heap.now.now.terms }
    ensures offered { IfOk result (IsOnlyPair heap.now.now.terms left right) }
    ensures live { IfOk result (CanGoOn heap.now.now.terms) }
{
    let pairs = vec![in heap.alloc(); pair(left, right)]?;
    let way = Alternative { pairs };
    Ok(TextAlternatives {
        ways: Ways::One(Some(way)),
    })
}

fn pair(left: TermId, right: TermId) -> Pair
    ensures left { result.left ≡ left }
    ensures right { result.right ≡ right }
{
    Pair { left, right }
}

/// Three counts as terms.
#[derive(Clone, Copy)]
struct Counts {
    before: TermId,
    len: TermId,
    after: TermId,
}

fn count_terms(
    heap: &mut Heap,
    atoms: &Atoms,
    before: usize,
    len: usize,
    after: usize,
) -> Result<Counts, AllocError>
    requires names { KnowsTerms atoms.now heap.old.now.terms }
    ensures live { IfOk result (λ c. (c.before < length heap.new.now.terms) × (c.len < length heap.new.now.terms) × (c.after < length heap.new.now.terms)) }
    ensures before { IfOk result (λ c. tree atoms.now heap.new.now.terms c.before ≡ natural before) }
    ensures len { IfOk result (λ c. tree atoms.now heap.new.now.terms c.len ≡ natural len) }
    ensures after { IfOk result (λ c. tree atoms.now heap.new.now.terms c.after ≡ natural after) }
    ensures grows { Grows atoms.now heap.old atoms.now heap.new }
{
    let before = whole(heap, atoms, before)?;
    let len = whole(heap, atoms, len)?;
    let after = whole(heap, atoms, after)?;
    Ok(Counts { before, len, after })
}

fn part_alternative(
    heap: &mut Heap,
    atoms: &mut Atoms,
    characters: &[char],
    place: Place,
    args: PartArgs,
) -> Result<Alternative, AllocError>
    requires within { place.before + place.len ≤ length characters.now }
    requires live { HasPartArgs heap.old.now.terms args }
    requires names { KnowsTerms atoms.old heap.old.now.terms }
    ensures built { IfOk result (λ way. alternative_of atoms.new heap.new.now.terms 0 way ≡ part_way atoms.old heap.old.now.terms args characters.now place) }
    ensures there { IfOk result (AreThere heap.new.now.terms) }
    ensures grows { Grows atoms.old heap.old atoms.new heap.new }
{
    let end = place.before + place.len;
    let part = atom_of(heap, atoms, &characters[place.before..end])?;
    let after = characters.len() - place.before - place.len;
    let counts = count_terms(heap, atoms, place.before, place.len, after)?;
    let pairs = vec![in heap.alloc();
        pair(args.before, counts.before),
        pair(args.len, counts.len),
        pair(args.after, counts.after),
        pair(args.part, part),
    ]?;
    Ok(Alternative { pairs })
}
