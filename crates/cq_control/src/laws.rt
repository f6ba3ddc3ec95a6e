// What continuations and heights are to a search.

ghost use Rattle.std.specs.Prelude.{◌≡◌, ◌<◌, ◌∷◌, ◌++◌, ℕ, List, length};
ghost use Rattle.cq_control.specs.Heights.{StandFor, branches_below, waiting};
ghost use Rattle.cq_control.specs.Items.{items_at};
ghost use Rattle.cq_control.specs.Open.{AreMarked, last, open_choices};

/// A continuation has the same to do while others are made.
pub fn continuations_stay<T>()
    ensures { (now more : List (List T)) (k : ℕ) → k < length now → items_at (now ++ more) k ≡ items_at now k }
{}

/// Where each choice stands for as many branches as its size says, the choices below a height stand for the branches below
/// that height: a cut of the choices is a cut of the branches.
pub fn a_cut_of_choices_is_a_cut_of_branches<V, C, B>()
    ensures below { (size : C → ℕ) (branches : List (V × C) → V → C → List B) → StandFor size branches
        → (choices : List (V × C)) (height : ℕ) → branches_below size choices height ≡ length (waiting branches (last height choices)) }
    ensures cut { (size : C → ℕ) (branches : List (V × C) → V → C → List B) → StandFor size branches
        → (choices : List (V × C)) (height : ℕ)
        → waiting branches (last height choices) ≡ last (branches_below size choices height) (waiting branches choices) }
{}

/// Other contents of one choice change what that one leaves to try and nothing else.
pub fn other_contents_change_one_choice<V, C>()
    ensures { (saved : List V) (newer older : List C) (content : C) → AreMarked saved (newer ++ content ∷ older)
        → (front below : List (V × C)) × (value : V) × (length below ≡ length older)
        × ((other : C) → open_choices saved (newer ++ other ∷ older) ≡ front ++ (value, other) ∷ below) }
{}
