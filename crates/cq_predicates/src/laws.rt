// What is still to come of a call while others go on.

ghost use Rattle.std.specs.Prelude.{◌≡◌, List};
ghost use Rattle.spec_numbers.specs.Texts.{Text};
ghost use Rattle.cq_term.specs.HeapValue.{HeapValue};
ghost use Rattle.cq_term.specs.Trees.{KnowsTerms};
ghost use Rattle.cq_predicates.specs.declared.solutions.Solutions.{Solutions};
ghost use Rattle.cq_predicates.specs.Given.{Adds, CanGoOn, ways_left};

/// The alternatives that are still to come stay the same while names, terms and variables are added, and can be gone on with.
pub fn alternatives_stay_the_same()
    ensures same { (texts more : List Text) (old new : HeapValue) → Adds texts old more new → KnowsTerms texts old.now.terms
        → (s : Solutions) → CanGoOn old.now.terms s → ways_left more new.now.terms s ≡ ways_left texts old.now.terms s }
    ensures live { (texts more : List Text) (old new : HeapValue) → Adds texts old more new → KnowsTerms texts old.now.terms
        → (s : Solutions) → CanGoOn old.now.terms s → CanGoOn new.now.terms s }
{}
