// What a call of a predicate gives.

ghost use Rattle.std.specs.Prelude.{◌≡◌, [], ◌∷◌, List, IfOk, OnErr, true};
ghost use Rattle.spec_numbers.specs.Texts.{Text};
ghost use Rattle.cq_term.specs.Trees.{KnowsTerms};
ghost use Rattle.cq_predicates.specs.Ways.{CanBeTried};
ghost use Rattle.cq_predicates.specs.Ways.{offered};
ghost use Rattle.cq_predicates.specs.Ways as text;
ghost use Rattle.cq_built.specs.Growing.{Grows};
ghost use Rattle.cq_builtin.specs.Offered.{IsLiveOrNone};
ghost use Rattle.cq_builtin.specs.Over.{equations_of, AreLive};
ghost use Rattle.cq_term.specs.Meaning.{HeapTerm};
ghost use Rattle.cq_predicates.specs.Given.{CanGoOn, HasNoneBack, TakesNext, TakesWay, Adds, ways_left};

use crate::text::TextAlternatives;
use cq_built::Alternative;
use cq_term::Heap;
use cq_term::atoms::Atoms;
use cq_term::walk::Pair;
use cq_trail::Undo;
use std::alloc::AllocError;

#[derive(Drop)]
pub(crate) enum Ways {
    /// A test: one way without pairs, or none.
    Test(bool),
    Pair(Option<Pair>),
    Pairs(Option<Alternative>),
    Texts(TextAlternatives),
}

/// The alternatives of a call that are still to come. Where there can be many, each is made when it is asked for.
#[derive(Drop)]
pub struct Solutions {
    /// One that was given back, which comes before the others.
    pub(crate) given_back: Option<Alternative>,
    pub(crate) ways: Ways,
}

impl Solutions {
    /// The next alternative; none behind the last one. After an error, which is want of memory, the heap is as it was, and
    /// the same alternatives are still to come; names may stay. What is still to come afterwards needs no terms but those that
    /// were there before, so the heap may go back to what it was.
    pub fn next(
        &mut self,
        heap: &mut Heap,
        atoms: &mut Atoms,
    ) -> Result<Option<Alternative>, AllocError>
        requires live { CanGoOn heap.old.now.terms self.old }
        requires names { KnowsTerms atoms.old heap.old.now.terms }
        ensures next { IfOk result (TakesNext atoms.old heap.old.now.terms self.old atoms.new heap.new.now.terms self.new) }
        ensures there { IfOk result (CanBeTried heap.new.now.terms) }
        ensures live { CanGoOn heap.new.now.terms self.new }
        ensures back { CanGoOn heap.old.now.terms self.new }
        ensures free { IfOk result (λ next. HasNoneBack self.new) }
        ensures images { heap.new.now.images ≡ heap.old.now.images }
        ensures adds { Adds atoms.old heap.old atoms.new heap.new }
        ensures err { OnErr result (heap.new.now ≡ heap.old.now) }
        ensures same { OnErr result (self.new ≡ self.old) }
    {
        if let Some(first) = self.given_back.take() {
            return Ok(Some(first));
        }
        match &mut self.ways {
            Ways::Test(holds) => Ok(next_test(heap, holds)),
            Ways::Pair(pair) => next_pair(heap, pair),
            Ways::Pairs(only) => Ok(only.take()),
            Ways::Texts(ways) => next_text(heap, atoms, ways),
        }
    }

    /// Gives back an alternative that was taken: it comes next again, over the terms of a heap in which it stands.
    pub fn give_back(&mut self, alternative: Alternative)
        requires free { HasNoneBack self.old }
        ensures first { (texts : List Text) (ts : List HeapTerm)
            → ways_left texts ts self.new ≡ equations_of texts ts alternative ∷ ways_left texts ts self.old }
        ensures live { (ts : List HeapTerm) → AreLive ts alternative → CanGoOn ts self.old → CanGoOn ts self.new }
    {
        self.given_back = Some(alternative);
    }

    /// Whether it is known that none is left. Of the alternatives of a predicate on texts it is known only once the last was
    /// asked for and none came.
    pub fn is_over(&self) -> bool
        ensures { result ≡ true → (texts : List Text) (ts : List HeapTerm) → ways_left texts ts self.now ≡ [] }
    {
        if self.given_back.is_some() {
            return false;
        }
        match &self.ways {
            Ways::Test(holds) => !*holds,
            Ways::Pair(pair) => pair.is_none(),
            Ways::Pairs(only) => only.is_none(),
            Ways::Texts(_) => false,
        }
    }
}

/// The way of a test that holds.
fn next_test(heap: &Heap, holds: &mut bool) -> Option<Alternative>
    ensures next { (texts : List Text) → TakesWay texts heap.now.now.terms (Ways.Test holds.old) texts heap.now.now.terms (Ways.Test holds.new) result }
    ensures there { CanBeTried heap.now.now.terms result }
{
    if *holds {
        *holds = false;
        let pairs = Vec::new(heap.alloc());
        Some(Alternative { pairs })
    } else {
        None
    }
}

/// The way of one pair.
fn next_pair(heap: &Heap, pair: &mut Option<Pair>) -> Result<Option<Alternative>, AllocError>
    requires live { IsLiveOrNone heap.now.now.terms pair.old }
    ensures next { IfOk result (λ next. (texts : List Text) →
        TakesWay texts heap.now.now.terms (Ways.Pair pair.old) texts heap.now.now.terms (Ways.Pair pair.new) next) }
    ensures there { IfOk result (CanBeTried heap.now.now.terms) }
    ensures live { IsLiveOrNone heap.now.now.terms pair.new }
    ensures same { OnErr result (pair.new ≡ pair.old) }
{
    match *pair {
        Some(found) => {
            let pairs = vec![in heap.alloc(); found]?;
            *pair = None;
            Ok(Some(Alternative { pairs }))
        }
        None => Ok(None),
    }
}

/// The next way of a predicate on texts. After want of memory the heap is as it was.
fn next_text(
    heap: &mut Heap,
    atoms: &mut Atoms,
    ways: &mut TextAlternatives,
) -> Result<Option<Alternative>, AllocError>
    requires live { text.CanGoOn heap.old.now.terms ways.old }
    requires names { KnowsTerms atoms.old heap.old.now.terms }
    ensures next { IfOk result (text.TakesNext offered atoms.old heap.old.now.terms ways.old atoms.new heap.new.now.terms ways.new) }
    ensures there { IfOk result (CanBeTried heap.new.now.terms) }
    ensures live { text.CanGoOn heap.new.now.terms ways.new }
    ensures back { text.CanGoOn heap.old.now.terms ways.new }
    ensures grows { Grows atoms.old heap.old atoms.new heap.new }
    ensures err { OnErr result (heap.new.now ≡ heap.old.now) }
    ensures same { OnErr result (ways.new ≡ ways.old) }
{
    let m = heap.mark()?;
    match ways.next(heap, atoms) {
        Ok(next) => {
            heap.forget(m);
            Ok(next)
        }
        Err(fault) => {
            heap.undo(m);
            Err(fault)
        }
    }
}
