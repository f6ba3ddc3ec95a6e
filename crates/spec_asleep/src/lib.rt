//! What may become of a pair of terms that are to stay different, and of a condition for which a goal waits. No code: each
//! function has an empty body, and its contract is a law of the definitions.
#![tactic(auto)]

ghost use Rattle.std.specs.Prelude.{◌≡◌, ◌↔◌, ◌⊎◌, ◌||◌, ◌&&◌, true, false, Some, None, codes};
ghost use Rattle.spec_numbers.specs.Texts.{Text};
ghost use Rattle.spec_terms.specs.Term.{Subst, Var, Name};
ghost use Rattle.spec_terms.specs.Unifier.{IsUnifier, HasNoUnifier};
ghost use Rattle.spec_syntax.specs.Trees.{Tree};
ghost use Rattle.spec_builtins.specs.Built.{compound1, compound2};
ghost use Rattle.spec_builtins.specs.Errors.{instantiation, domain_error};
ghost use Rattle.spec_asleep.specs.Asleep.{dif_state, pair, Gone, Broken, Waiting, is_true, condition_error};

/// A pair is gone just where its terms have no unifier, broken just where they are identical, and else waits.
pub fn states_of_pairs()
    ensures gone { (a b : Tree) → dif_state a b ≡ Gone → HasNoUnifier (pair a b) }
    ensures apart { (a b : Tree) → HasNoUnifier (pair a b) → dif_state a b ≡ Gone }
    ensures waiting { (a b : Tree) → dif_state a b ≡ Waiting
        → (a ≡ b → ⊥) × ((u : Subst Text) × IsUnifier (pair a b) u) }
    ensures broken { (a b : Tree) → dif_state a b ≡ Broken → a ≡ b }
    ensures same { (a : Tree) → dif_state a a ≡ Broken }
{}

/// The condition that a pair is decided is true just where its terms are identical or have no unifier; two conditions are true
/// together, or one of them is.
pub fn conditions()
    ensures decided { (a b : Tree) → (is_true (compound2 "?=" a b) ≡ true) ↔ ((a ≡ b) ⊎ HasNoUnifier (pair a b)) }
    ensures together { (a b : Tree) → is_true (compound2 "," a b) ≡ (is_true a && is_true b) }
    ensures either { (a b : Tree) → is_true (compound2 ";" a b) ≡ (is_true a || is_true b) }
{}

/// Conditions on variables, names and compounds, and the errors of terms that are none.
pub fn some_conditions()
    ensures free { is_true (compound1 "nonvar" (Var 0)) ≡ false }
    ensures bound { is_true (compound1 "nonvar" (compound1 "f" (Var 0))) ≡ true }
    ensures open { is_true (compound1 "ground" (compound1 "f" (Var 0))) ≡ false }
    ensures closed { is_true (compound1 "ground" (compound1 "f" (Name (codes "a")))) ≡ true }
    ensures variable { condition_error (Var 0) ≡ Some instantiation }
    ensures name { condition_error (Name (codes "true")) ≡ Some (domain_error "when_condition" (Name (codes "true"))) }
    // a part before the next one
    ensures first { condition_error (compound2 "," (Name (codes "foo")) (Var 0))
        ≡ Some (domain_error "when_condition" (Name (codes "foo"))) }
    ensures second { condition_error (compound2 "," (Var 0) (Name (codes "foo"))) ≡ Some instantiation }
    // arguments are no parts
    ensures none { condition_error (compound2 ";" (compound1 "nonvar" (Var 0)) (compound1 "ground" (Var 1))) ≡ None }
{}
