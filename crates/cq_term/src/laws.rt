// What holds of all terms whose names are known.

ghost use Rattle.std.specs.Prelude.{ℕ, ◌<◌, ◌≤◌, List, All};
ghost use Rattle.spec_terms.specs.Term.{Subst, apply, with_arguments};
ghost use Rattle.cq_term.specs.Meaning.{HeapTerm};
ghost use Rattle.cq_term.specs.Names.{HasNamesBelow, PutsNamesBelow};

/// A term keeps its names below a count where the count grows, where terms of such names take the places of
/// variables, and where such a name is put over such terms.
pub fn names_stay_below()
    ensures more { (m n : ℕ) (t : HeapTerm) → m ≤ n → HasNamesBelow m t → HasNamesBelow n t }
    ensures substituted { (n : ℕ) (s : Subst ℕ) (t : HeapTerm) → HasNamesBelow n t → PutsNamesBelow n s t → HasNamesBelow n (apply s t) }
    ensures over { (n f : ℕ) (ts : List HeapTerm) → f < n → All (HasNamesBelow n) ts → HasNamesBelow n (with_arguments f ts) }
{}
