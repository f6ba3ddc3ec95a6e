//! Projection of a list of linear constraints on some of its variables, the targets: definitions and laws.
//! No code: each function has an empty body, and its contract is a law of the definitions.
#![tactic(auto)]

pub mod decided;
pub mod projections;

ghost use Rattle.std.specs.Prelude.{◌≡◌, ◌↔◌, ◌⊎◌, ◌+◌, ◌*◌, ◌<◌, ℕ, List, [], ◌∷◌, ◌++◌, map, length};
ghost use Rattle.spec_numbers.specs.Rational.{ℚ, 0ℚ, ◌<ℚ◌};
ghost use Rattle.spec_linear.specs.Form.{Linear, negated_form, difference_form, changed_at};
ghost use Rattle.spec_linear.specs.Solution.{Constraint, Satisfies, HoldsAt, Solvable, Unsolvable, Entails, Equivalent, Extends, Has, SomeMentions, MentionsOnly, Same, equal_zero};
ghost use Rattle.spec_linear.specs.Echelon.{Solved, equation, equations, AreDistinct, IsEchelon};
ghost use Rattle.spec_linear.specs.SolvedForm.{NotFixed};
ghost use Rattle.spec_linear.specs.Weak.{above_zero, at_least_zero, not_zero, weak};
ghost use Rattle.spec_linear.specs.Certificate.{HasNoVariable};
ghost use Rattle.spec_projection.specs.Targets.{AgreeOn, SameOn};
ghost use Rattle.spec_projection.specs.Lists.{AreForms};
ghost use Rattle.spec_projection.specs.Samples.{x, y, between, strictly_between, above_both};
ghost use Rattle.spec_projection.specs.Elimination.{lower_rows, upper_rows, other_rows, eliminated, StandsInInequalities};
ghost use Rattle.spec_projection.specs.Substitution.{put_into, solved_variables, AreReduced, AreFreeOf};
ghost use Rattle.spec_projection.specs.Irredundant.{IsIrredundant, IsSublist, IsIrredundantSublist, NoneFollows, Sifts};
ghost use Rattle.spec_projection.specs.Strict.{AreMultiples, IsMultiple, AreScaled, Strengthened};
ghost use Rattle.spec_linear.specs.Opposite.{opposite};
ghost use Rattle.spec_projection.specs.Follows.{IsGreatest};
ghost use Rattle.spec_projection.specs.Interior.{strictly, equations_of};
ghost use Rattle.spec_projection.specs.Partial.{AreInequalities, IsPartial, RowsDue, Eliminates};
ghost use Rattle.spec_projection.specs.Arranged.{IsReordered, IsArranged};

/// Values of the targets extend to a solution exactly where they extend to rationals that satisfy the list.
pub fn values_of_targets()
    ensures { (targets : List ℕ) (a : ℕ → ℚ) (l : List Constraint)
        → Extends targets a l ↔ ((b : ℕ → ℚ) × AgreeOn targets a b × Satisfies b l) }
{}

/// To leave the targets the same values is an equivalence of lists. It ends in rows over the targets alone.
pub fn lists_that_leave_the_targets_the_same_values()
    ensures reflexive { (targets : List ℕ) (l : List Constraint) → SameOn targets l l }
    ensures symmetric { (targets : List ℕ) (k l : List Constraint) → SameOn targets k l → SameOn targets l k }
    ensures transitive { (targets : List ℕ) (k l m : List Constraint) → SameOn targets k l
        → SameOn targets l m → SameOn targets k m }
    ensures alike { (targets : List ℕ) (k l : List Constraint) → Equivalent k l → SameOn targets k l }
    ensures fewer { (targets more : List ℕ) (k l : List Constraint)
        → ((x : ℕ) → Has x targets → Has x more) → SameOn more k l → SameOn targets k l }
    ensures rows { (targets : List ℕ) (rows l : List Constraint) → MentionsOnly targets rows
        → SameOn targets rows l → Same targets rows l }
    ensures back { (targets : List ℕ) (rows l : List Constraint) → Same targets rows l → SameOn targets rows l }
    ensures solvable { (targets : List ℕ) (k l : List Constraint) → SameOn targets k l → Solvable k ↔ Solvable l }
    ensures entails { (targets : List ℕ) (k l : List Constraint) (c : Constraint)
        → MentionsOnly targets (c ∷ []) → SameOn targets k l → Entails k c → Entails l c }
{}

/// Lists have the same solutions that entail each other's members, as where one is the other in another
/// order, with each member multiplied, or with weak rows strict beside disequations of their forms.
pub fn lists_with_the_same_solutions()
    ensures members { (k l : List Constraint) → ((c : Constraint) → Has c k → Entails l c)
        → ((c : Constraint) → Has c l → Entails k c) → Equivalent k l }
    ensures order { (k l : List Constraint) → ((c : Constraint) → Has c k ↔ Has c l) → Equivalent k l }
    ensures multiple { (a : ℕ → ℚ) (c d : Constraint) → IsMultiple c d → HoldsAt a d ↔ HoldsAt a c }
    ensures scaled { (k l : List Constraint) → AreScaled k l → Equivalent l k }
    ensures arranged { (k l : List Constraint) → IsArranged k l → Equivalent l k }
    ensures strict { (k l : List Constraint) (f : Linear) → Entails (k ++ at_least_zero f ∷ l) (above_zero f)
        → Equivalent (k ++ above_zero f ∷ l) (k ++ at_least_zero f ∷ l) }
    ensures unequal { (l : List Constraint) (f g : Linear) → AreMultiples f g → Has (above_zero f) l
        → Entails l (not_zero g) }
    ensures strengthened { (disequations k l : List Constraint) → Strengthened disequations k l
        → Equivalent (l ++ disequations) (k ++ disequations) }
{}

/// Solved equations are put into the other constraints; those that are solved for no target may go then.
pub fn solved_equations_are_put_into_the_others()
    ensures same { (es : List Solved) (l : List Constraint)
        → Equivalent (equations es ++ map (put_into es) l) (equations es ++ l) }
    ensures free { (es : List Solved) (l : List Constraint) → AreReduced es → AreFreeOf es (map (put_into es) l) }
    ensures forms { (es : List Solved) (l : List Constraint) → AreForms l → AreForms (map (put_into es) l) }
    ensures go { (es : List Solved) → AreReduced es → (targets : List ℕ) (l : List Constraint)
        → AreFreeOf es l → ((x : ℕ) → Has x targets → Has x (solved_variables es) → ⊥)
        → SameOn targets l (equations es ++ l) }
    ensures follows { (es : List Solved) → AreReduced es → (l : List Constraint) (c : Constraint)
        → AreFreeOf es (c ∷ l) → Entails (equations es ++ l) c → Entails l c }
    ensures stand { (es : List Solved) (l : List Constraint) → AreReduced es → AreFreeOf es l
        → Solvable (equations es ++ l) → IsIrredundant l → IsIrredundant (equations es ++ l) }
{}

/// The equations that an echelon form solves for the last variables, the targets, are the echelon form over
/// them, also with more variables behind that it doesn't solve for.
pub fn echelon_forms_over_targets()
    ensures { (front targets kept : List ℕ) (l : List Constraint) (others es : List Solved)
        → AreDistinct (front ++ targets) → IsEchelon (front ++ targets) l (others ++ es)
        → ((x : ℕ) → Has x (solved_variables others) → Has x front)
        → ((x : ℕ) → Has x (solved_variables es) → Has x targets)
        → ((x : ℕ) → Has x kept → Has x front)
        → ((x : ℕ) → Has x kept → Has x (solved_variables others) → ⊥)
        → IsEchelon (targets ++ kept) l es }
{}

/// Values of the other variables satisfy the list without x exactly where some value of x makes them satisfy
/// the list. Other constraints may stand beside it that don't mention x.
pub fn a_variable_is_eliminated()
    ensures values { (x : ℕ) (l : List Constraint) (a : ℕ → ℚ) → StandsInInequalities x l
        → Satisfies a (eliminated x l) ↔ ((q : ℚ) × Satisfies (changed_at x q a) l) }
    ensures same { (targets : List ℕ) (x : ℕ) (l beside : List Constraint) → (Has x targets → ⊥)
        → StandsInInequalities x l → (SomeMentions x beside → ⊥)
        → SameOn targets (eliminated x l ++ beside) (l ++ beside) }
    ensures gone { (x : ℕ) (l : List Constraint) → AreForms l → SomeMentions x (eliminated x l) → ⊥ }
    ensures mentions { (x y : ℕ) (l : List Constraint) → AreForms l → SomeMentions y (eliminated x l)
        → SomeMentions y l }
    ensures forms { (x : ℕ) (l : List Constraint) → AreForms l → AreForms (eliminated x l) }
    ensures inequalities { (x : ℕ) (l : List Constraint) → AreInequalities l → AreInequalities (eliminated x l) }
    // with no lower rows, or no upper ones, the rows with x fall away
    ensures one_sided { (x : ℕ) (l : List Constraint) → (lower_rows x l ≡ []) ⊎ (upper_rows x l ≡ [])
        → eliminated x l ≡ other_rows x l ++ [] }
    ensures count { (x : ℕ) (l : List Constraint)
        → length (eliminated x l) ≡ length (other_rows x l) + length (lower_rows x l) * length (upper_rows x l) }
{}

/// A pass over rows leaves a sublist with the same solutions beside the others, of which none follows. The
/// last three laws are the steps of a loop.
pub fn passes_leave_irredundant_rows()
    ensures sublist { (beside left final : List Constraint) → Sifts beside [] left final → IsSublist final left }
    ensures same { (beside left final : List Constraint) → Sifts beside [] left final
        → Equivalent (final ++ beside) (left ++ beside) }
    ensures none { (beside left final : List Constraint) → Sifts beside [] left final → NoneFollows final beside }
    ensures irredundant { (left final : List Constraint) → Sifts [] [] left final → IsIrredundantSublist final left }
    // one half beside the other, and then the other
    ensures halves { (beside other kept part mid final : List Constraint) → Sifts (other ++ beside) kept part mid
        → Sifts beside mid other final → Sifts beside kept (part ++ other) final }
    ensures two_passes { (rows more unequal : List Constraint) → ((c : Constraint) → Has c rows → Has c more)
        → NoneFollows unequal more → NoneFollows rows unequal → IsIrredundant (rows ++ unequal) }
    ensures scaled { (k l : List Constraint) → AreScaled k l → IsIrredundant k → IsIrredundant l }
    ensures reordered { (k l : List Constraint) → IsReordered k l → IsIrredundant k → IsIrredundant l }
    ensures first { (beside : List Constraint) → NoneFollows [] beside }
    ensures dropped { (part beside less : List Constraint) → ((c : Constraint) → Has c less → Has c beside)
        → NoneFollows part beside → NoneFollows part less }
    ensures stays { (part beside : List Constraint) (d : Constraint) → NoneFollows part (d ∷ beside)
        → (Entails (part ++ beside) d → ⊥) → NoneFollows (part ++ d ∷ []) beside }
{}

/// A constraint follows exactly where its opposite leaves no solution, an equation where both halves of its
/// opposite leave none.
pub fn what_follows_has_an_unsolvable_opposite()
    ensures opposite { (l : List Constraint) (c : Constraint) → Entails l c ↔ Unsolvable (opposite c ∷ l) }
    ensures equation { (l : List Constraint) (f : Linear) → Entails l (equal_zero f)
        ↔ (Unsolvable (above_zero f ∷ l) × Unsolvable (above_zero (negated_form f) ∷ l)) }
    ensures strict { (l : List Constraint) (f : Linear) → Entails l (at_least_zero f)
        → Entails l (above_zero f) ↔ Unsolvable (equal_zero f ∷ l) }
{}

/// The greatest value of the negative form on the weak list decides whether a row follows from the list.
pub fn greatest_values_decide_what_follows()
    ensures negative { (l : List Constraint) (f : Linear) (v : ℚ) → IsGreatest (weak l) (negated_form f) v
        → v <ℚ 0ℚ → Entails l (above_zero f) }
    ensures zero { (l : List Constraint) (f : Linear) (v : ℚ) → IsGreatest (weak l) (negated_form f) v
        → v ≡ 0ℚ → Entails l (at_least_zero f) }
    ensures positive { (l : List Constraint) (f : Linear) (v : ℚ) → Solvable l
        → IsGreatest (weak l) (negated_form f) v → 0ℚ <ℚ v → Entails l (at_least_zero f) → ⊥ }
    // also where there is no greatest value
    ensures reached { (l : List Constraint) (f : Linear) → Solvable l
        → Solvable (above_zero (negated_form f) ∷ weak l) → Entails l (at_least_zero f) → ⊥ }
{}

/// Where each weak row of a solvable list can be strict, all rows are strict at one solution. Then every
/// equation that the list entails follows from its own equations; without any, it entails none, and gives no
/// variable one value alone. Eliminations keep it so.
pub fn lists_that_hold_strictly()
    ensures together { (l : List Constraint) → Solvable l
        → ((f : Linear) → Has (at_least_zero f) l → Solvable (above_zero f ∷ weak l)) → Solvable (strictly l) }
    ensures equations { (l : List Constraint) (f : Linear) → Solvable (strictly l)
        → Entails l (equal_zero f) → Entails (equations_of l) (equal_zero f) }
    ensures no_equation { (l : List Constraint) (f : Linear) → equations_of l ≡ [] → Solvable (strictly l)
        → Entails l (equal_zero f) → HasNoVariable f × (f.constant ≡ 0ℚ) }
    ensures several_values { (l : List Constraint) → equations_of l ≡ [] → Solvable (strictly l) → (x : ℕ)
        → NotFixed l x }
    ensures eliminated { (x : ℕ) (l : List Constraint) → AreInequalities l → Solvable (strictly l)
        → Solvable (strictly (eliminated x l)) }
    ensures fewer { (k l : List Constraint) → ((c : Constraint) → Has c k → Has c l) → Solvable (strictly l)
        → Solvable (strictly k) }
{}

/// Eliminations keep the values of the targets, whatever disequations and equations over these stand beside.
pub fn eliminations_keep_the_targets()
    ensures same { (targets : List ℕ) (start beside m : List Constraint) → AreInequalities start → AreForms start
        → MentionsOnly targets beside → Eliminates targets start m → SameOn targets (m ++ beside) (start ++ beside) }
    ensures partial { (targets : List ℕ) (start m : List Constraint) → IsPartial targets start m
        → Eliminates targets start m }
    // with the next variable each time, until only targets are left
    ensures ends { (others targets : List ℕ) (start : List Constraint) → AreForms start
        → MentionsOnly (others ++ targets) start
        → (m : List Constraint) × IsPartial targets start m × MentionsOnly targets m }
    ensures due { (targets : List ℕ) (start : List Constraint) (limit p n rest : ℕ)
        (d : RowsDue targets start limit p n rest) → limit < length (eliminated d.variable d.rows) }
{}

/// Z eliminated from Y =< Z =< X leaves Y =< X, from Y < Z =< X it leaves Y < X, from Z >= X, Z > Y nothing.
pub fn some_eliminations()
    ensures weak { eliminated 2 between ≡ at_least_zero (difference_form x y) ∷ [] }
    ensures strict { eliminated 2 strictly_between ≡ above_zero (difference_form x y) ∷ [] }
    ensures one_sided { eliminated 2 above_both ≡ [] }
{}
