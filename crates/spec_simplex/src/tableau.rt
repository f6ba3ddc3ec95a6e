//! Tableaux: the quantities of a list of constraints written over live and dropped columns, and what a store keeps of
//! its tableau and its list. No code: each function has an empty body, and its contract is a law of the definitions.
#![tactic(auto)]

ghost use Rattle.std.specs.Prelude.{◌≡◌, ◌≢◌, ◌⊎◌, ℕ, suc, ◌<◌, List, [], ◌∷◌, ◌++◌, Bool, true, false, nat_eq, Option, Some};
ghost use Rattle.spec_numbers.specs.Rational.{ℚ, 0ℚ, 1ℚ, ◌+ℚ◌, neg_ℚ, IsPositive, IsNotNegative, ◌<ℚ◌};
ghost use Rattle.spec_numbers.specs.Sums.{Monomial, sum_at, factor_of};
ghost use Rattle.spec_linear.specs.declared.Relation.TheVariants.{Eq, Ne};
ghost use Rattle.spec_linear.specs.Form.{Linear, value_at, variable_form, negated_form};
ghost use Rattle.spec_linear.specs.Solution.{Equivalent, SomeMentions, Constraint, Satisfies, Solvable, Unsolvable, Fixed, Entails, Has, equal_zero};
ghost use Rattle.spec_linear.specs.Extremes.{IsSupremum, IsUnbounded};
ghost use Rattle.spec_linear.specs.Weak.{above_zero, at_least_zero, not_zero, weak};
ghost use Rattle.spec_linear.specs.Certificate.{member, SomeStrict, Refutes};
ghost use Rattle.spec_linear.specs.Opposite.{opposite};
ghost use Rattle.spec_simplex.specs.Reach.{Rises, NeverNegative, IsFlat, Moves, Stands, Again, IsGreatest, SameMembers};
ghost use Rattle.spec_simplex.specs.Tableau.{Tableau, unit_of, empty, numbers, Within, AllIn, IsWritten, MeetsRows, IsShaped, Linked, AllBelow, IsFeasible, Place, IsNothing, IsSomething, Held, Owned, Sound, Invariant, Shown, Changed, Exchanged, Eliminated, HasFeasibleNumbers, WithinEquations, AreDropped, Restored, IsOptimal, IsUnlimited, HasRoom, EachTermZero};
ghost use Rattle.spec_simplex.specs.Fixing.{NewlyFixed, BecomesFixed, StaysAsItIs};
ghost use Rattle.spec_simplex.specs.Entries.{entries, row_entries, IsNumbered};

/// A list whose tableau keeps the invariant is solvable.
pub fn invariants_solve()
    ensures { (d : Tableau) (l : List Constraint) → Invariant d l → Solvable l }
{}

/// Rows over the columns show the invariant.
pub fn rows_show_the_invariant()
    ensures { (d : Tableau) (l : List Constraint) → Shown d l → Invariant d l }
{}

/// The empty store keeps the invariant, and its rows say what its forms say.
pub fn empty_tableau()
    ensures keeps { Invariant empty [] }
    ensures linked { Linked empty }
{}

/// Another basis and new quantities keep the invariant.
pub fn exchanges_keep_the_invariant()
    ensures { (d e : Tableau) (l : List Constraint) → Invariant d l → Changed d e [] [] → IsWritten e
        → IsFeasible e → Invariant e l }
{}

/// Restricted rows stay feasible where the leaving row is restricted or dropped and an unrestricted column enters, or one
/// that no restricted row limits, or where the leaving row has the constant zero and no unrestricted column; where
/// columns are dropped, or restricted ones restored; and a row over restricted columns stays over such.
pub fn exchanges_stay_feasible()
    ensures free { (d e : Tableau) → IsWritten d → IsWritten e → (q c : ℕ) → Exchanged d e q c (q ∷ []) → IsFeasible d
        → d.is_restricted c ≡ false → HasFeasibleNumbers e }
    ensures unlimited { (d e : Tableau) → IsWritten d → IsWritten e → (q c : ℕ) → Exchanged d e q c (q ∷ []) → IsFeasible d
        → IsUnlimited d c → IsPositive (factor_of c (d.row q).live) → IsNotNegative (neg_ℚ (d.row q).constant)
        → AllIn d.is_restricted (d.row q).live → HasFeasibleNumbers e }
    ensures level { (d e : Tableau) → IsWritten d → IsWritten e → (q c : ℕ) → Exchanged d e q c (q ∷ []) → IsFeasible d
        → AllIn d.is_restricted (d.row q).live → (d.row q).constant ≡ 0ℚ → factor_of c (d.row q).live ≢ 0ℚ
        → HasFeasibleNumbers e }
    ensures free_elimination { (d e : Tableau) → IsWritten d → IsWritten e → (q c : ℕ) → Eliminated d e q c → IsFeasible d
        → d.is_restricted c ≡ false → HasFeasibleNumbers e }
    ensures level_elimination { (d e : Tableau) → IsWritten d → IsWritten e → (q c : ℕ) → Eliminated d e q c → IsFeasible d
        → AllIn d.is_restricted (d.row q).live → (d.row q).constant ≡ 0ℚ → factor_of c (d.row q).live ≢ 0ℚ
        → HasFeasibleNumbers e }
    ensures dropping { (d e : Tableau) → IsWritten d → IsWritten e → (drops : List ℕ) → Changed d e drops []
        → ((z : ℕ) → d.is_live z ≡ true → (e.is_live z ≡ true) ⊎ (e.is_dropped z ≡ true)) → IsFeasible d
        → HasFeasibleNumbers e }
    ensures restoring { (d e : Tableau) → IsWritten d → IsWritten e → Restored d e
        → ((z : ℕ) → d.is_live z ≡ true → e.is_live z ≡ true)
        → ((z : ℕ) → d.is_dropped z ≡ true → (e.is_dropped z ≡ true) ⊎ ((e.is_live z ≡ true) × (d.is_restricted z ≡ true)))
        → IsFeasible d → HasFeasibleNumbers e }
    ensures row { (d e : Tableau) → Changed d e [] [] → IsWritten d → IsWritten e → HasFeasibleNumbers e → (q : ℕ)
        → q < d.count → AllIn d.is_restricted (d.row q).live → (z : ℕ) → e.is_restricted z ≡ false
        → factor_of z (e.row q).live ≡ 0ℚ }
{}

/// The order of the list's members does not matter: the constraint told last may stand first.
pub fn any_order_keeps_the_invariant()
    ensures keeps { (d : Tableau) (l m : List Constraint) → SameMembers l m → Invariant d l → Invariant d m }
    ensures alike { (l m : List Constraint) → SameMembers l m → Equivalent l m }
    ensures last { (l : List Constraint) (c : Constraint) → SameMembers (c ∷ l) (l ++ c ∷ []) }
{}

/// A variable whose row has no live entry is fixed; one with a live entry differs in two solutions, and one that no
/// member mentions is not fixed.
pub fn fixed_variables()
    ensures unmentioned { (l : List Constraint) (x : ℕ) → (SomeMentions x l → ⊥) → (r : ℚ) → Fixed l x r → ⊥ }
    ensures fixes { (d : Tableau) (l : List Constraint) → Invariant d l → (x : ℕ)
        → (p : Place d (variable_form x)) → (d.row p.quantity).live ≡ []
        → Fixed l x (d.row p.quantity).constant }
    ensures unfixes { (d : Tableau) (l : List Constraint) → Invariant d l → (x : ℕ)
        → (p : Place d (variable_form x)) → (c : ℕ) → factor_of c (d.row p.quantity).live ≢ 0ℚ
        → (r : ℚ) → Fixed l x r → ⊥ }
    ensures differ { (d : Tableau) (l : List Constraint) → Invariant d l → (x : ℕ)
        → (p : Place d (variable_form x)) → (c : ℕ) → factor_of c (d.row p.quantity).live ≢ 0ℚ
        → (v w : ℕ → ℚ) × Satisfies v l × Satisfies w l × (v x ≢ w x) }
{}

/// A quantity whose row is nothing is zero wherever the dropped columns are; one whose row is something is not.
pub fn flat_rows()
    ensures nothing { (d : Tableau) → IsWritten d → (q : ℕ) → q < d.count → IsNothing (d.row q)
        → IsFlat (Within d) (d.form q) }
    ensures something { (d : Tableau) → IsWritten d → (q : ℕ) → q < d.count → IsSomething (d.row q)
        → Moves (Within d) (d.form q) }
{}

/// What shows that a form rises: a constant above zero, an unlimited column, one that may take any value, and
/// of a column that no row without room limits.
pub fn rising_forms()
    ensures constant { (d : Tableau) (l : List Constraint) → Sound d l → (q : ℕ) → q < d.count
        → IsPositive (d.row q).constant → Rises l (d.form q) }
    ensures unlimited { (d : Tableau) (l : List Constraint) → Sound d l → (q : ℕ) → q < d.count
        → (c : ℕ) → IsUnlimited d c → IsPositive (factor_of c (d.row q).live) → Rises l (d.form q) }
    ensures unrestricted { (d : Tableau) (l : List Constraint) → Sound d l → (q : ℕ) → q < d.count
        → (c : ℕ) → d.is_live c ≡ true → d.is_restricted c ≡ false → factor_of c (d.row q).live ≢ 0ℚ
        → Rises l (d.form q) × Rises l (negated_form (d.form q)) }
    ensures every_value { (d : Tableau) (l : List Constraint) → Sound d l → (q : ℕ) → q < d.count
        → (c : ℕ) → d.is_live c ≡ true → d.is_restricted c ≡ false → factor_of c (d.row q).live ≢ 0ℚ
        → (y : ℚ) → (v : ℕ → ℚ) × Satisfies v (weak l) × (numbers d v q ≡ y) }
    ensures column { (d : Tableau) (l : List Constraint) → Sound d l → (c : ℕ) → HasRoom d c
        → d.is_live c ≡ true → Rises l (d.form c) }
{}

/// An inequality joins whose form rises; whatever rose still rises.
pub fn inequalities_join()
    ensures still { (l : List Constraint) (f g : Linear) → NeverNegative l g → Rises l f → Rises l g
        → Rises (at_least_zero f ∷ l) g }
    ensures weakly { (d e : Tableau) (l : List Constraint) → Invariant d l → (q : ℕ) → q < d.count
        → Changed d e [] (q ∷ []) → IsWritten e → IsFeasible e → Rises l (d.form q)
        → Invariant e (at_least_zero (d.form q) ∷ l) }
    ensures strictly { (d e : Tableau) (l : List Constraint) → Invariant d l → (q : ℕ) → q < d.count
        → Changed d e [] (q ∷ []) → IsWritten e → IsFeasible e → Rises l (d.form q)
        → Invariant e (above_zero (d.form q) ∷ l) }
    ensures weakly_sound { (d e : Tableau) (l : List Constraint) → Sound d l → (q : ℕ) → q < d.count
        → Changed d e [] (q ∷ []) → IsWritten e → IsFeasible e → Sound e (at_least_zero (d.form q) ∷ l) }
    ensures strictly_sound { (d e : Tableau) (l : List Constraint) → Sound d l → (q : ℕ) → q < d.count
        → Changed d e [] (q ∷ []) → IsWritten e → IsFeasible e → Sound e (above_zero (d.form q) ∷ l) }
    ensures nothing { (d e : Tableau) (l : List Constraint) → Invariant d l → (q : ℕ) → q < d.count
        → IsNothing (d.row q) → Changed d e [] (q ∷ []) → IsWritten e → IsFeasible e
        → Invariant e (at_least_zero (d.form q) ∷ l) }
{}

/// Where a form's greatest value is zero, it is not below zero just on the face where each product of its row is
/// zero.
pub fn faces()
    ensures is { (d : Tableau) (l : List Constraint) → Sound d l → (q : ℕ) → q < d.count
        → IsOptimal d (d.row q).live → (d.row q).constant ≡ 0ℚ
        → (v : ℕ → ℚ) → Satisfies v (weak l) → IsNotNegative (numbers d v q)
        → (numbers d v q ≡ 0ℚ) × EachTermZero (numbers d v) (d.row q).live }
    ensures back { (d : Tableau) (l : List Constraint) → Sound d l → (q : ℕ) → q < d.count
        → (d.row q).constant ≡ 0ℚ → (v : ℕ → ℚ) → Satisfies v (weak l)
        → EachTermZero (numbers d v) (d.row q).live → numbers d v q ≡ 0ℚ }
{}

/// Columns that are zero at the weak list's solutions may be dropped, and a constraint may join with them.
pub fn dropped_columns()
    ensures drop { (d e : Tableau) (l : List Constraint) (c : ℕ) → Sound d l → Changed d e (c ∷ []) []
        → IsWritten e → IsFeasible e → ((v : ℕ → ℚ) → Satisfies v (weak l) → numbers d v c ≡ 0ℚ) → Sound e l }
    ensures more { (d e : Tableau) (l : List Constraint) (c : Constraint) (drops restricts : List ℕ) → Sound d l
        → Changed d e drops restricts → IsWritten e → IsFeasible e
        → ((z : ℕ) → Has z drops → (v : ℕ → ℚ) → Satisfies v (weak (c ∷ l)) → numbers d v z ≡ 0ℚ)
        → ((v : ℕ → ℚ) → Satisfies v (weak (c ∷ l)) → Satisfies v (weak l)) → Held e c.relation c.form
        → ((z : ℕ) → Has z restricts → Owned (c ∷ l) (d.form z)) → Sound e (c ∷ l) }
    ensures restore { (d e : Tableau) (l : List Constraint) → Sound d l → AreDropped d l → Restored d e
        → IsWritten e → IsFeasible e
        → ((z : ℕ) → d.is_dropped z ≡ true → d.is_restricted z ≡ false → e.is_dropped z ≡ true) → Sound e l }
{}

/// A constraint joins whose face makes the other members be looked at again.
pub fn constraints_join_on_a_face()
    ensures { (d e : Tableau) (l : List Constraint) (c : Constraint) → Invariant d l → Sound e (c ∷ l)
        → ((v : ℕ → ℚ) → Within e v → Within d v) → Stands (Within e) (c ∷ l) c.relation c.form
        → ((k : Constraint) → Has k l → Again (Within e) (c ∷ l) k.relation k.form) → Invariant e (c ∷ l) }
{}

/// An equation joins whose form rises and falls, or is flat.
pub fn equations_join()
    ensures still { (l : List Constraint) (f g : Linear) → NeverNegative l g → Rises l f
        → Rises l (negated_form f) → Rises l g → Rises (equal_zero f ∷ l) g }
    ensures sound { (d e : Tableau) (l : List Constraint) (q : ℕ) → Changed d e (q ∷ []) [] → IsWritten e
        → IsFeasible e → Sound d l → Sound e (equal_zero (d.form q) ∷ l) }
    ensures between { (d e : Tableau) (l : List Constraint) (q : ℕ) (restricts : List ℕ)
        → Changed d e (q ∷ []) restricts → ((z : ℕ) → Has z restricts → z ≡ q) → IsWritten e → IsFeasible e
        → Invariant d l → Rises l (d.form q) → Rises l (negated_form (d.form q))
        → ((c : Constraint) → Has c l → c.relation ≡ Ne → Moves (Within e) c.form)
        → Invariant e (equal_zero (d.form q) ∷ l) }
    ensures flat { (e : Tableau) (l : List Constraint) (f : Linear) → IsFlat (Within e) f
        → Invariant e (at_least_zero f ∷ l) → Invariant e (equal_zero f ∷ l) }
    ensures nothing { (d : Tableau) (l : List Constraint) → Invariant d l → (q : ℕ) → q < d.count
        → IsNothing (d.row q) → Invariant d (equal_zero (d.form q) ∷ l) }
{}

/// A disequation joins whose row is something.
pub fn disequations_join()
    ensures { (d : Tableau) (l : List Constraint) → Invariant d l → (q : ℕ) → q < d.count
        → IsSomething (d.row q) → Invariant d (not_zero (d.form q) ∷ l) }
{}

/// A row over members' quantities refutes the list, with the row's factors for multipliers.
pub fn rows_refute()
    ensures below { (d : Tableau) (l : List Constraint) (number : ℕ → ℕ) → IsWritten d → (f : Linear)
        → (p : Place d f) → IsNumbered d l number p.quantity
        → (n : ℕ) (c : Constraint) → member l n ≡ Some c → c.form ≡ f → c.relation ≢ Ne
        → (d.row p.quantity).constant <ℚ 0ℚ → Refutes ((n, 1ℚ) ∷ row_entries number (d.row p.quantity)) l }
    ensures face { (d : Tableau) (l : List Constraint) (number : ℕ → ℕ) → IsWritten d → (f : Linear)
        → (p : Place d f) → IsNumbered d l number p.quantity
        → (n : ℕ) (c : Constraint) → member l n ≡ Some c → c.form ≡ f → c.relation ≢ Ne
        → (d.row p.quantity).constant ≡ 0ℚ → SomeStrict l (entries number (d.row p.quantity).live)
        → Refutes ((n, 1ℚ) ∷ row_entries number (d.row p.quantity)) l }
    ensures strict { (d : Tableau) (l : List Constraint) (number : ℕ → ℕ) → IsWritten d → (f : Linear)
        → (p : Place d f) → IsNumbered d l number p.quantity
        → (n : ℕ) → member l n ≡ Some (above_zero f)
        → (d.row p.quantity).constant ≡ 0ℚ → Refutes ((n, 1ℚ) ∷ row_entries number (d.row p.quantity)) l }
    ensures equation { (d : Tableau) (l : List Constraint) (number : ℕ → ℕ) → IsWritten d → (f : Linear)
        → (p : Place d (negated_form f)) → IsNumbered d l number p.quantity
        → (n : ℕ) → member l n ≡ Some (equal_zero f)
        → ((d.row p.quantity).constant <ℚ 0ℚ)
        ⊎ (((d.row p.quantity).constant ≡ 0ℚ) × SomeStrict l (entries number (d.row p.quantity).live))
        → Refutes ((n, neg_ℚ 1ℚ) ∷ row_entries number (d.row p.quantity)) l }
    ensures disequation { (d e : Tableau) (l : List Constraint) (number : ℕ → ℕ) → IsWritten d → IsWritten e
        → (f : Linear) (p : Place d f) (q : Place e (negated_form f)) (n : ℕ) → member l n ≡ Some (not_zero f)
        → IsNumbered d l number p.quantity → (d.row p.quantity).constant ≡ 0ℚ
        → IsNumbered e l number q.quantity → (e.row q.quantity).constant ≡ 0ℚ
        → Refutes ((n, 1ℚ) ∷ row_entries number (d.row p.quantity)
        ++ (n, neg_ℚ 1ℚ) ∷ row_entries number (e.row q.quantity)) l }
{}

/// The greatest value over the weak list is one, whatever the basis, and it is the list's supremum.
pub fn greatest_values()
    ensures row { (d : Tableau) (l : List Constraint) → Sound d l → (q : ℕ) → q < d.count
        → IsOptimal d (d.row q).live → IsGreatest l (d.form q) (d.row q).constant }
    ensures once { (l : List Constraint) (f : Linear) (q r : ℚ) → IsGreatest l f q → IsGreatest l f r → q ≡ r }
    ensures not_unbounded { (l : List Constraint) (f : Linear) (q : ℚ) → IsGreatest l f q
        → IsUnbounded (weak l) f → ⊥ }
    ensures supremum { (l : List Constraint) (f : Linear) (q : ℚ) → Solvable l → IsGreatest l f q
        → IsSupremum l f q }
    ensures row_supremum { (d : Tableau) (l : List Constraint) → Invariant d l → (q : ℕ) → q < d.count
        → IsOptimal d (d.row q).live → IsSupremum l (d.form q) (d.row q).constant }
    ensures unlimited { (d : Tableau) (l : List Constraint) → Invariant d l → (q : ℕ) → q < d.count
        → (c : ℕ) → IsUnlimited d c → IsPositive (factor_of c (d.row q).live) → IsUnbounded l (d.form q) }
    ensures unrestricted { (d : Tableau) (l : List Constraint) → Invariant d l → (q : ℕ) → q < d.count
        → (c : ℕ) → d.is_live c ≡ true → d.is_restricted c ≡ false → factor_of c (d.row q).live ≢ 0ℚ
        → IsUnbounded l (d.form q) }
{}

/// What cannot be denied is entailed; of equations their rows tell.
pub fn entailed_constraints()
    ensures by_opposite { (l : List Constraint) (c : Constraint) → Unsolvable (opposite c ∷ l) → Entails l c }
    ensures denied { (l : List Constraint) (c : Constraint) → Solvable (opposite c ∷ l) → Entails l c → ⊥ }
    ensures nothing { (d : Tableau) (l : List Constraint) → Invariant d l → (q : ℕ) → q < d.count
        → IsNothing (d.row q) → Entails l (equal_zero (d.form q)) }
    ensures something { (d : Tableau) (l : List Constraint) → Invariant d l → (q : ℕ) → q < d.count
        → IsSomething (d.row q) → Entails l (equal_zero (d.form q)) → ⊥ }
{}

/// Equations stay zero by dropped columns of equations alone, which are not restricted.
pub fn equations_stay_dropped()
    ensures stay { (d e : Tableau) (drops restricts : List ℕ) (l : List Constraint) → IsWritten d
        → Changed d e drops restricts → ((z : ℕ) → Has z restricts → d.is_dropped z ≡ false)
        → AreDropped d l → AreDropped e l }
    ensures grow { (d e : Tableau) (drops restricts : List ℕ) (l : List Constraint) (c : Constraint) → IsWritten d
        → Changed d e drops restricts → ((z : ℕ) → Has z restricts → d.is_dropped z ≡ false) → AreDropped d l
        → (c.relation ≡ Eq → IsFlat (WithinEquations e) c.form) → AreDropped e (c ∷ l) }
    ensures own { (e : Tableau) (q : ℕ) → e.is_dropped q ≡ true → e.is_restricted q ≡ false
        → IsFlat (WithinEquations e) (e.form q) }
{}

/// Rows that numbers meet just where the forms give them write each quantity; changes of a table keep them so.
pub fn linked_rows()
    ensures written { (d : Tableau) → Linked d → IsWritten d }
    ensures change { (d e : Tableau) → Linked d → IsShaped e → e.count ≡ d.count
        → ((q : ℕ) → q < d.count → e.form q ≡ d.form q) → ((x : ℕ → ℚ) → MeetsRows d x → MeetsRows e x)
        → ((x : ℕ → ℚ) → MeetsRows e x → MeetsRows d x) → Linked e }
    ensures row { (d e : Tableau) (k : ℚ) (s : List Monomial) → Linked d → IsShaped e → e.count ≡ suc d.count
        → ((q : ℕ) → q < d.count → e.form q ≡ d.form q) → AllBelow d.count s
        → ((v : ℕ → ℚ) → value_at v (e.form d.count) ≡ k +ℚ sum_at (numbers d v) s)
        → ((x : ℕ → ℚ) → MeetsRows d x → x d.count ≡ k +ℚ sum_at x s → MeetsRows e x)
        → ((x : ℕ → ℚ) → MeetsRows e x → MeetsRows d x × (x d.count ≡ k +ℚ sum_at x s)) → Linked e }
    ensures column { (d e : Tableau) (x : ℕ) → Linked d → IsShaped e → e.count ≡ suc d.count
        → ((q : ℕ) → q < d.count → e.form q ≡ d.form q) → e.form d.count ≡ variable_form x
        → ((q : ℕ) → q < d.count → (v w : ℕ → ℚ) → ((y : ℕ) → nat_eq y x ≡ false → v y ≡ w y)
        → numbers d v q ≡ numbers d w q)
        → ((z : ℕ → ℚ) → MeetsRows d z → MeetsRows e z) → ((z : ℕ → ℚ) → MeetsRows e z → MeetsRows d z)
        → Linked e }
{}

/// Each quantity is written over the live columns in one way.
pub fn rows_are_unique()
    ensures constant { (d : Tableau) → IsWritten d → (q : ℕ) → q < d.count → (k : ℚ) (s : List Monomial)
        → AllIn d.is_live s → ((v : ℕ → ℚ) → Within d v → numbers d v q ≡ k +ℚ sum_at (numbers d v) s)
        → k ≡ (d.row q).constant }
    ensures entry { (d : Tableau) → IsWritten d → (q : ℕ) → q < d.count → (k : ℚ) (s : List Monomial)
        → AllIn d.is_live s → ((v : ℕ → ℚ) → Within d v → numbers d v q ≡ k +ℚ sum_at (numbers d v) s)
        → (c : ℕ) → factor_of c s ≡ factor_of c (d.row q).live }
{}

/// The rows before and after a told constraint tell which variables it fixes: none, where no column is dropped.
pub fn newly_fixed_variables()
    ensures fixes { (d e : Tableau) (l : List Constraint) (c : Constraint) → Invariant d l → Invariant e (c ∷ l)
        → (x : ℕ) → BecomesFixed d e x → NewlyFixed l (l ++ c ∷ []) x }
    ensures stays { (d e : Tableau) (l : List Constraint) (c : Constraint) → Invariant d l → Invariant e (c ∷ l)
        → (x : ℕ) → StaysAsItIs d e l c x → NewlyFixed l (l ++ c ∷ []) x → ⊥ }
    ensures none { (d e : Tableau) (l : List Constraint) (c : Constraint) → Invariant d l → Invariant e (c ∷ l)
        → (x : ℕ) → ((v : ℕ → ℚ) → Within d v → Within e v) → Place e (variable_form x)
        → NewlyFixed l (l ++ c ∷ []) x → ⊥ }
{}

/// Two lists with a tableau that keeps the invariant, made from the empty one by these laws.
pub fn some_tableaux()
    // x >= 0, then x =< 0: the face where x is zero
    ensures face { let x = variable_form 0 in
        (d : Tableau) × Invariant d (at_least_zero (negated_form x) ∷ at_least_zero x ∷ []) }
    // x - 1 >= 0, then x - 1 =\= 0
    ensures apart { let f : Linear = record { products = unit_of 0; constant = neg_ℚ 1ℚ } in
        (d : Tableau) × Invariant d (not_zero f ∷ at_least_zero f ∷ []) }
{}
