//! Linear constraints over the rationals and their solutions: definitions and laws, with no code but the
//! enum of relations. The functions here have empty bodies: each contract is a law.
#![tactic(auto)]

pub mod echelon;
pub mod extremes;
pub mod inequalities;

ghost use Rattle.std.specs.Prelude.{◌≡◌, ◌≢◌, ◌↔◌, ◌++◌, [], ◌∷◌, ℕ, List, Option, Some};
ghost use Rattle.spec_numbers.specs.Rational.{ℚ, 0ℚ, ◌+ℚ◌, ◌-ℚ◌, ◌*ℚ◌, neg_ℚ, IsPositive};
ghost use Rattle.spec_linear.specs.Form.{Linear, value_at, IsForm, constant_form, variable_form, sum_form, scaled_form, negated_form, difference_form, substituted_form, changed_at};
ghost use Rattle.spec_linear.specs.Solution.{Constraint, false_constraint, equal_to, Point, number, Holds, Solves, Solvable, Unsolvable, Fixed, Fixes, Entails, Equivalent, AreEquations, HoldsAt, Satisfies, Extends, Has, MentionsOnly, Same};

/// How a form stands to zero: `= 0`, `> 0`, `>= 0`, `=\= 0`.
#[derive(Clone, Copy, PartialEq, Eq, Debug)]
pub enum Relation {
    Eq,
    Gt,
    Ge,
    Ne,
}

/// The values of forms that are made of numbers, variables and other forms.
pub fn values_of_forms()
    ensures constant { (a : ℕ → ℚ) (q : ℚ) → value_at a (constant_form q) ≡ q }
    ensures variable { (a : ℕ → ℚ) (x : ℕ) → value_at a (variable_form x) ≡ a x }
    ensures sum { (a : ℕ → ℚ) (f g : Linear) → value_at a (sum_form f g) ≡ value_at a f +ℚ value_at a g }
    ensures multiple { (a : ℕ → ℚ) (k : ℚ) (f : Linear) → value_at a (scaled_form k f) ≡ k *ℚ value_at a f }
    ensures negative { (a : ℕ → ℚ) (f : Linear) → value_at a (negated_form f) ≡ neg_ℚ (value_at a f) }
    ensures difference { (a : ℕ → ℚ) (f g : Linear)
        → value_at a (difference_form f g) ≡ value_at a f -ℚ value_at a g }
    ensures substituted { (a : ℕ → ℚ) (x : ℕ) (g f : Linear)
        → value_at a (substituted_form x g f) ≡ value_at (changed_at x (value_at a g) a) f }
{}

/// What is made of forms lists its products in order, each variable once and no factor zero.
pub fn forms_are_in_order()
    ensures constant { (q : ℚ) → IsForm (constant_form q) }
    ensures variable { (x : ℕ) → IsForm (variable_form x) }
    ensures sum { (f g : Linear) → IsForm f → IsForm g → IsForm (sum_form f g) }
    ensures multiple { (k : ℚ) (f : Linear) → IsForm f → IsForm (scaled_form k f) }
    ensures negative { (f : Linear) → IsForm f → IsForm (negated_form f) }
    ensures difference { (f g : Linear) → IsForm f → IsForm g → IsForm (difference_form f g) }
    ensures substituted { (x : ℕ) (g f : Linear) → IsForm g → IsForm f → IsForm (substituted_form x g f) }
{}

/// Two forms with the same values are the same form.
pub fn forms_are_their_values()
    ensures { (f g : Linear) → IsForm f → IsForm g → ((a : ℕ → ℚ) → value_at a f ≡ value_at a g) → f ≡ g }
{}

/// A constraint is multiplied by a positive number, and an equation by any but zero, with no change of
/// what it says; multiplied through by a point's denominator, a list says what it says of the rationals.
pub fn multiplying_changes_nothing()
    ensures through { (p : Point) (l : List Constraint) → Solves p l ↔ Satisfies (number p) l }
    ensures constraint { (a : ℕ → ℚ) (k : ℚ) (c : Constraint) → IsPositive k
        → HoldsAt a (record { relation = c.relation; form = scaled_form k c.form }) ↔ HoldsAt a c }
    ensures equation { (a : ℕ → ℚ) (k : ℚ) (f : Linear) → k ≢ 0ℚ
        → (value_at a (scaled_form k f) ≡ 0ℚ) ↔ (value_at a f ≡ 0ℚ) }
{}

/// Finitely many rationals have one denominator: rationals that satisfy a list extend to a solution of
/// whole numbers, so solutions by points and by rationals say the same.
pub fn one_denominator_suffices()
    ensures extend { (targets : List ℕ) (a : ℕ → ℚ) (l : List Constraint) → Satisfies a l
        → Extends targets a l }
    ensures solvable { (l : List Constraint) → Solvable l ↔ ((a : ℕ → ℚ) × Satisfies a l) }
    ensures entails { (l : List Constraint) (c : Constraint)
        → Entails l c ↔ ((a : ℕ → ℚ) → Satisfies a l → HoldsAt a c) }
    ensures fixed { (l : List Constraint) (x : ℕ) (q : ℚ)
        → Fixed l x q ↔ (Solvable l × ((a : ℕ → ℚ) → Satisfies a l → a x ≡ q)) }
{}

/// What more constraints can't undo.
pub fn more_constraints()
    ensures member { (p : Point) (l : List Constraint) (c : Constraint) → Has c l → Solves p l → Holds p c }
    ensures together { (p : Point) (l m : List Constraint) → Solves p (l ++ m) ↔ (Solves p l × Solves p m) }
    ensures unsolvable { (l m : List Constraint) → Unsolvable l → Unsolvable (l ++ m) }
    ensures entails { (l m : List Constraint) (c : Constraint) → Entails l c → Entails (l ++ m) c }
    ensures fixed { (l m : List Constraint) (x : ℕ) (q : ℚ) → Fixed l x q → Solvable (l ++ m)
        → Fixed (l ++ m) x q }
    ensures never { (l : List Constraint) → Has false_constraint l → Unsolvable l }
{}

/// A variable is fixed at one value at most, which its equation tells.
pub fn fixed_values()
    ensures once { (l : List Constraint) (x : ℕ) (q r : ℚ) → Fixed l x q → Fixed l x r → q ≡ r }
    ensures equation { (l : List Constraint) (x : ℕ) (q : ℚ) → Solvable l
        → Entails l (equal_to x q) ↔ Fixed l x q }
    ensures told { (l : List Constraint) (f g : ℕ → Option ℚ) → Fixes l f → Fixes l g → (x : ℕ) (q : ℚ)
        → f x ≡ Some q → g x ≡ Some q }
{}

/// An entailed constraint may join a list, or leave it, with no change of the solutions; and lists with
/// the same solutions entail and fix the same.
pub fn lists_with_the_same_solutions()
    ensures entailed { (l m : List Constraint) (c : Constraint) → Entails (l ++ m) c
        → Equivalent (l ++ c ∷ m) (l ++ m) }
    ensures solvable { (l m : List Constraint) → Equivalent l m → Solvable l → Solvable m }
    ensures entails { (l m : List Constraint) (c : Constraint) → Equivalent l m → Entails l c → Entails m c }
    ensures fixed { (l m : List Constraint) (x : ℕ) (q : ℚ) → Equivalent l m → Fixed l x q → Fixed m x q }
{}

/// Where the solutions of a list of equations give a variable two values, they give it every value.
pub fn equations_fix_or_free()
    ensures { (l : List Constraint) → AreEquations l → (p q : Point) → Solves p l → Solves q l
        → (x : ℕ) → number p x ≢ number q x → (r : ℚ)
        → (s : Point) × Solves s l × (number s x ≡ r) }
{}

/// To have the same solutions on the targets is an equivalence of lists over the targets.
pub fn same_solutions()
    ensures reflexive { (targets : List ℕ) (l : List Constraint) → MentionsOnly targets l → Same targets l l }
    ensures symmetric { (targets : List ℕ) (k l : List Constraint) → MentionsOnly targets l → Same targets k l
        → Same targets l k }
    ensures transitive { (targets : List ℕ) (k l m : List Constraint) → Same targets k l → Same targets l m
        → Same targets k m }
{}

/// It looks at the solutions of the rows and of the list alone, so an entailed constraint may join or
/// leave either.
pub fn same_for_alike()
    ensures lists { (targets : List ℕ) (rows l m : List Constraint) → Equivalent l m → Same targets rows l
        → Same targets rows m }
    ensures rows { (targets : List ℕ) (k rows l : List Constraint) → Equivalent k rows
        → MentionsOnly targets k → Same targets rows l → Same targets k l }
{}

/// It keeps what is solvable, and what is entailed and fixed of the targets.
pub fn same_on_the_targets()
    ensures solvable { (targets : List ℕ) (rows l : List Constraint) → Same targets rows l
        → Solvable rows ↔ Solvable l }
    ensures entails { (targets : List ℕ) (rows l : List Constraint) (c : Constraint)
        → MentionsOnly targets (c ∷ []) → Same targets rows l → Entails rows c ↔ Entails l c }
    ensures fixed { (targets : List ℕ) (rows l : List Constraint) (x : ℕ) (q : ℚ) → Has x targets
        → Same targets rows l → Fixed rows x q ↔ Fixed l x q }
{}
