//! What a told term means where some variables have fixed values, and the checks of constraints. No code: each
//! function has an empty body, and its contract is a law of the definitions.
#![tactic(auto)]

ghost use Rattle.std.specs.Prelude.{◌≡◌, ◌↔◌, ◌⊎◌, ℕ, List, [], ◌∷◌, Option, Some, None, codes};
ghost use Rattle.std.specs.List.{AllByRecursion};
ghost use Rattle.spec_numbers.specs.Rational.{ℚ};
ghost use Rattle.spec_terms.specs.Operations.{Value};
ghost use Rattle.spec_terms.specs.Arithmetic.{evaluate};
ghost use Rattle.spec_linear.specs.Form.{Linear, value_at, constant_form};
ghost use Rattle.spec_linear.specs.Solution.{Constraint, Point, number, Solves, Holds, HoldsAt, Fixes};
ghost use Rattle.spec_numbers.specs.Texts.{Text};
ghost use Rattle.spec_syntax.specs.Trees.{Tree, binary};
ghost use Rattle.spec_builtins.specs.Built.{atom, natural, indicator, compound1, compound2};
ghost use Rattle.spec_builtins.specs.Errors.{instantiation, type_error, not_evaluable};
ghost use Rattle.spec_branch.specs.Relations.{Is, Waits, False, lin, IsLin, RelationName, relation_name, related, waits_for};
ghost use Rattle.spec_branch.specs.Expressions.{form_of};
ghost use Rattle.spec_branch.specs.Values.{Agrees, value_of, IsTrueAt, IsMetAt};
ghost use Rattle.spec_branch.specs.Checks.{expression_error, constraint_error, question_error, members, Halves, halves};
ghost use Rattle.spec_branch.specs.Examples.{X, Y, Z, half, none_fixed, two_fixed};

/// The linear form of an expression has the expression's value, wherever the fixed variables have their fixed values.
pub fn forms_have_the_values_of_expressions()
    ensures { (fixed : ℕ → Option ℚ) (a : ℕ → ℚ) → Agrees fixed a
        → (e : Tree) (f : Linear) → form_of fixed e ≡ Some f → value_of a e ≡ Some (value_at a f) }
{}

/// A linear constraint holds just where its term is true, so where it joins a list it adds that the term is true. What is
/// false is true nowhere.
pub fn told_constraints_are_true_terms()
    ensures linear { (fixed : ℕ → Option ℚ) (a : ℕ → ℚ) → Agrees fixed a
        → (t : Tree) (c : Constraint) → lin fixed t ≡ Is c → HoldsAt a c ↔ IsTrueAt a t }
    ensures nowhere { (fixed : ℕ → Option ℚ) (a : ℕ → ℚ) → Agrees fixed a
        → (t : Tree) → lin fixed t ≡ False → IsTrueAt a t → ⊥ }
    ensures joined { (l : List Constraint) (t : Tree) (c : Constraint) → IsLin l t (Is c)
        → (p : Point) → Solves p (c ∷ l) ↔ (IsTrueAt (number p) t × Solves p l) }
    ensures unsolvable { (l : List Constraint) (t : Tree) → IsLin l t False
        → (p : Point) → Solves p l → IsTrueAt (number p) t → ⊥ }
{}

/// What has a value and no variable to wait for doesn't wait: an expression is the number that it is worth, a relation
/// that of two numbers.
pub fn nothing_waits_for_no_variable()
    ensures expression { (fixed : ℕ → Option ℚ) (a : ℕ → ℚ) → Agrees fixed a
        → (e : Tree) (q : ℚ) → waits_for fixed e ≡ [] → value_of a e ≡ Some q → form_of fixed e ≡ Some (constant_form q) }
    ensures relation { (fixed : ℕ → Option ℚ) (a : ℕ → ℚ) → Agrees fixed a
        → (r : Text) (n : RelationName) (t u : Tree) (p q : ℚ) → relation_name r ≡ Some n → waits_for fixed (binary r t u) ≡ []
        → value_of a t ≡ Some p → value_of a u ≡ Some q
        → lin fixed (binary r t u) ≡ Is (related n (constant_form p) (constant_form q)) }
{}

/// A constraint is met just where each of its members is, and where it has halves, just where one of these is. Where it has
/// none and is not refused, its members are relations, which are told.
pub fn constraints_are_met_by_members_and_halves()
    ensures members { (a : ℕ → ℚ) (t : Tree) → IsMetAt a t ↔ AllByRecursion (IsMetAt a) (members t) }
    ensures halves { (a : ℕ → ℚ) (t : Tree) (h : Halves) → halves t ≡ Some h
        → IsMetAt a t ↔ (IsMetAt a h.left ⊎ IsMetAt a h.right) }
    ensures told { (a : ℕ → ℚ) (t : Tree) → constraint_error t ≡ None → halves t ≡ None
        → IsMetAt a t ↔ AllByRecursion (IsTrueAt a) (members t) }
{}

/// What `is` gives an expression of constraints is its value in constraints too.
pub fn arithmetic_gives_the_same_values()
    ensures { (a : ℕ → ℚ) (e : Tree) (q : ℚ) → expression_error e ≡ None → evaluate e ≡ Value q → value_of a e ≡ Some q }
{}

/// Where more values are fixed, a term that is linear stays so, and at the solutions that fix them its constraint
/// says the same; a false one stays false.
pub fn more_fixed_values()
    ensures linear { (l : List Constraint) (earlier later : ℕ → Option ℚ)
        → ((x : ℕ) (q : ℚ) → earlier x ≡ Some q → later x ≡ Some q) → Fixes l later
        → (t : Tree) (c : Constraint) → lin earlier t ≡ Is c
        → (d : Constraint) × (lin later t ≡ Is d) × ((p : Point) → Solves p l → Holds p c ↔ Holds p d) }
    ensures no_solution { (earlier later : ℕ → Option ℚ)
        → ((x : ℕ) (q : ℚ) → earlier x ≡ Some q → later x ≡ Some q)
        → (t : Tree) → lin earlier t ≡ False → lin later t ≡ False }
{}

/// What told terms are.
pub fn told_terms()
    ensures product { lin none_fixed (compound2 "=" (compound2 "*" X Y) (natural 6)) ≡ Waits }
    ensures known_factor { lin two_fixed (compound2 "=" (compound2 "*" X Y) (natural 6))
        ≡ lin none_fixed (compound2 "=" (compound2 "*" (natural 2) X) (natural 6)) }
    ensures divisor { lin none_fixed (compound2 "=" (compound2 "/" X Y) Z) ≡ Waits }
    ensures known_divisor { lin two_fixed (compound2 "=" (compound2 "/" X Y) Z)
        ≡ lin none_fixed (compound2 "=" (compound2 "/" X (natural 2)) Z) }
    ensures zero_divisor { lin none_fixed (compound2 "=" (compound2 "*" X Y) (compound2 "/" (natural 1) (natural 0)))
        ≡ False }
    ensures first_power { lin none_fixed (compound2 "=" (compound2 "^" X (natural 1)) Y)
        ≡ lin none_fixed (compound2 "=" X Y) }
    ensures square { lin none_fixed (compound2 "=" (compound2 "^" X (natural 2)) Y) ≡ Waits }
    ensures high_power { lin none_fixed (compound2 "=" X (compound2 "^" (natural 2) (natural 65))) ≡ Waits }
    ensures root { lin none_fixed (compound2 "=" X (compound2 "pow" (natural 4) half)) ≡ Waits }
    ensures absolute { lin none_fixed (compound2 "=" Y (compound1 "abs" X)) ≡ Waits }
    ensures greatest { lin two_fixed (compound2 "=" X (compound2 "max" Y (natural 1)))
        ≡ lin two_fixed (compound2 "=" X Y) }
    ensures at_most { lin none_fixed (compound2 "=<" X Y) ≡ lin none_fixed (compound2 ">=" Y X) }
    ensures awaited { waits_for two_fixed (compound2 "=" (compound2 "*" Z Y) (compound2 "*" X Z)) ≡ 2 ∷ 0 ∷ [] }
{}

/// What constraints are refused for, and the halves at their first disjunction.
pub fn checked_constraints()
    ensures variable { constraint_error (compound2 "," (compound2 "=" X (natural 1)) Y) ≡ Some instantiation }
    ensures other { constraint_error (compound2 "," (atom "foo") X) ≡ Some (type_error "constraint" (atom "foo")) }
    ensures expression { constraint_error (compound2 ";" (compound2 "=" X (compound1 "sin" (atom "a"))) Y)
        ≡ Some (not_evaluable (indicator (codes "sin") 1)) }
    ensures asked { question_error (compound2 "," (compound2 "=" X Y) (compound2 ";" X (atom "foo")))
        ≡ Some (type_error "linear" (compound2 ";" X (atom "foo"))) }
    ensures asked_in_order { question_error (compound2 "," (atom "foo") (compound2 ";" X Y)) ≡ Some (type_error "constraint" (atom "foo")) }
    ensures in_order { members (compound2 "," (compound2 "," X Y) (compound2 ";" Z X)) ≡ X ∷ Y ∷ compound2 ";" Z X ∷ [] }
    ensures right_part { halves (compound2 "," X (compound2 ";" Y Z))
        ≡ Some (record { left = compound2 "," X Y; right = compound2 "," X Z }) }
    ensures left_part_first { halves (compound2 "," (compound2 ";" X Y) (compound2 ";" Y Z))
        ≡ Some (record { left = compound2 "," X (compound2 ";" Y Z); right = compound2 "," Y (compound2 ";" Y Z) }) }
    ensures whole_first { halves (compound2 ";" (compound2 ";" X Y) Z)
        ≡ Some (record { left = compound2 ";" X Y; right = Z }) }
{}
