//! Terms, substitutions, unifiers, and variables by first occurrence: definitions and laws, with no code. The
//! functions here have empty bodies: each contract is a law, for names of any type.
#![tactic(auto)]

pub mod arithmetic;
pub mod order;
pub mod unified;

ghost use Rattle.std.specs.Prelude.{◌≡◌, ◌≢◌, ◌↔◌, ℕ, ◌<◌, ◌≤◌, List, ◌++◌, length, Contains};
ghost use Rattle.std.specs.List.{AllPairs};
ghost use Rattle.spec_numbers.specs.Texts.{Text};
ghost use Rattle.spec_terms.specs.Term.{Term, Subst, Var, apply, identity, single, followed_by, Occurs, size, named};
ghost use Rattle.spec_terms.specs.Unifier.{Equation, IsUnifier, HasNoUnifier, read_under};
ghost use Rattle.spec_terms.specs.Variables.{variables, renamed_from, original_from, counted_from};
ghost use Rattle.spec_terms.specs.Names.{EachName, EachNameInPairs, AreDifferentBelow, named_pairs, named_images};

/// Substitutions compose, and what one makes of a term depends on the images of its variables, and on each of them.
pub fn substitutions<N>()
    ensures none { (t : Term N) → apply identity t ≡ t }
    ensures composed { (r s : Subst N) (t : Term N) → apply (followed_by r s) t ≡ apply s (apply r t) }
    ensures agree { (r s : Subst N) (t : Term N) → apply r t ≡ apply s t ↔ ((v : ℕ) → Occurs v t → r v ≡ s v) }
    ensures occurrences { (s : Subst N) (w : ℕ) (t : Term N) → Occurs w (apply s t) ↔ ((v : ℕ) × Occurs v t × Occurs w (s v)) }
    ensures size { (s : Subst N) (v : ℕ) (t : Term N) → Occurs v t → size (s v) ≤ size (apply s t) }
{}

/// Binding a variable changes no term in which it doesn't stand, and every substitution that makes the variable
/// equal to its term is an instance of the binding.
pub fn one_binding<N>()
    ensures absent { (v : ℕ) (u t : Term N) → (Occurs v t → ⊥) → apply (single v u) t ≡ t }
    ensures instance { (v : ℕ) (u : Term N) (s : Subst N) → s v ≡ apply s u → (t : Term N) → apply s (apply (single v u) t) ≡ apply s t }
{}

/// No finite substitution makes a variable equal to another term in which it stands.
pub fn occurs_check<N>()
    ensures { (s : Subst N) (v : ℕ) (t : Term N) → Occurs v t → t ≢ Var v → s v ≡ apply s t → ⊥ }
{}

/// The unifier that keeps the oldest variables is one, applied twice it is itself, and where it is there not every
/// substitution fails.
pub fn one_unifier<N>()
    ensures one { (es : List (Equation N)) (s r : Subst N) → IsUnifier es s → IsUnifier es r → (v : ℕ) → s v ≡ r v }
    ensures idempotent { (es : List (Equation N)) (s : Subst N) → IsUnifier es s → (v : ℕ) → apply s (s v) ≡ s v }
    ensures never_both { (es : List (Equation N)) (s : Subst N) → IsUnifier es s → HasNoUnifier es → ⊥ }
{}

/// Pairs are unified in turn: the later ones are read under the unifier of the first, and the whole fails just where one
/// of the two does.
pub fn unified_in_turn<N>()
    ensures both { (ds es : List (Equation N)) (r s : Subst N) → IsUnifier ds r → IsUnifier (read_under r es) s
        → IsUnifier (ds ++ es) (followed_by r s) }
    ensures not_first { (ds es : List (Equation N)) → HasNoUnifier ds → HasNoUnifier (ds ++ es) }
    ensures not_later { (ds es : List (Equation N)) (r : Subst N) → IsUnifier ds r → HasNoUnifier (read_under r es)
        → HasNoUnifier (ds ++ es) }
{}

/// The variables of a term are those that stand in it, each once.
pub fn listed_variables<N>()
    ensures listed { (t : Term N) (v : ℕ) → Contains (variables t) v ↔ Occurs v t }
    ensures once { (t : Term N) → AllPairs ◌≢◌ (variables t) }
{}

/// A renamed term has its variables numbered without a gap by first occurrence, and leads back to the term.
pub fn renamed_terms<N>()
    ensures numbered { (n : ℕ) (t : Term N) → variables (renamed_from n t) ≡ counted_from n (length (variables t)) }
    ensures back { (n : ℕ) (t : Term N) → apply (original_from n (variables t)) (renamed_from n t) ≡ t }
{}

/// Names may be replaced before or after a substitution, and other names change neither the variables of a term nor
/// its copies.
pub fn replaced_names<M, N>()
    ensures applied { (f : M → N) (s : Subst M) (t : Term M) → named f (apply s t) ≡ apply (named_images f s) (named f t) }
    ensures variables { (f : M → N) (t : Term M) → variables (named f t) ≡ variables t }
    ensures renamed { (f : M → N) (n : ℕ) (t : Term M) → named f (renamed_from n t) ≡ renamed_from n (named f t) }
    ensures no_unifier { (f : M → N) (es : List (Equation M)) → HasNoUnifier (named_pairs f es) → HasNoUnifier es }
{}

/// Where the first n numbers have different texts, terms whose names are such numbers may be read with their texts:
/// different terms stay different, a unifier is one of the terms with texts, and where there is none there is none of
/// those.
pub fn numbered_names()
    ensures same { (n : ℕ) (f : ℕ → Text) (t u : Term ℕ) → AreDifferentBelow n f → EachName (λ a. a < n) t
        → EachName (λ a. a < n) u → named f t ≡ named f u → t ≡ u }
    ensures unifier { (n : ℕ) (f : ℕ → Text) (es : List (Equation ℕ)) (s : Subst ℕ) → AreDifferentBelow n f
        → EachNameInPairs (λ a. a < n) es → ((v : ℕ) → EachName (λ a. a < n) (s v)) → IsUnifier es s
        → IsUnifier (named_pairs f es) (named_images f s) }
    ensures no_unifier { (n : ℕ) (f : ℕ → Text) (es : List (Equation ℕ)) → AreDifferentBelow n f
        → EachNameInPairs (λ a. a < n) es → HasNoUnifier es → HasNoUnifier (named_pairs f es) }
{}
