//! Unifiers exist. No code: the function has an empty body, and its contract is a law of the definitions.
#![tactic(auto)]

ghost use Rattle.std.specs.Prelude.{◌⊎◌, List};
ghost use Rattle.spec_numbers.specs.Texts.{Text};
ghost use Rattle.spec_terms.specs.Term.{Subst};
ghost use Rattle.spec_terms.specs.Unifier.{Equation, IsUnifier, HasNoUnifier};

/// Any pairs of terms have a unifier that keeps the oldest variables, or no substitution makes each pair equal.
pub fn pairs_are_unified()
    ensures { (es : List (Equation Text)) → ((u : Subst Text) × IsUnifier es u) ⊎ HasNoUnifier es }
{}
