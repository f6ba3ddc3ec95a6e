//! The standard order of terms, and when terms are variants of each other: definitions and laws, with no code. The
//! functions here have empty bodies: each contract is a law.
#![tactic(auto)]

ghost use Rattle.std.specs.Prelude.{◌≡◌, ◌↔◌, ℕ, ◌<◌};
ghost use Rattle.std.specs.Cmp.{IsTotalOrder};
ghost use Rattle.std.specs.declared.cmp.Ordering.TheVariants.{Less, Equal};
ghost use Rattle.spec_numbers.specs.Rational.{ℚ};
ghost use Rattle.spec_terms.specs.Term.{Term, Terms, Var, Number, Name, Compound, named};
ghost use Rattle.spec_terms.specs.Variables.{renamed_from};
ghost use Rattle.spec_terms.specs.Names.{EachName, AreDifferentBelow};
ghost use Rattle.spec_numbers.specs.Texts.{Text};
ghost use Rattle.spec_terms.specs.Order.{compare_terms};
ghost use Rattle.spec_terms.specs.Variants.{AreVariants};

/// The standard order is a total order, in which no two terms have one place, and it keeps the kinds of terms apart.
pub fn standard_order()
    ensures total { IsTotalOrder compare_terms }
    ensures same { (t u : Term Text) → compare_terms t u ≡ Equal ↔ (t ≡ u) }
    ensures variable_first { (v : ℕ) (q : ℚ) → compare_terms (Var v) (Number q) ≡ Less }
    ensures number_second { (q : ℚ) (a : Text) → compare_terms (Number q) (Name a) ≡ Less }
    ensures compound_last { (a f : Text) (ts : Terms Text) → compare_terms (Name a) (Compound f ts) ≡ Less }
{}

/// Terms are variants exactly where they are the same once their variables are numbered by first occurrence.
pub fn variants<N>()
    ensures renamed { (t u : Term N) → AreVariants t u ↔ (renamed_from 0 t ≡ renamed_from 0 u) }
    ensures itself { (t : Term N) → AreVariants t t }
    ensures turned { (t u : Term N) → AreVariants t u → AreVariants u t }
    ensures chained { (t u w : Term N) → AreVariants t u → AreVariants u w → AreVariants t w }
{}

/// Terms whose names are numbers with different texts are variants exactly where they are so with their texts.
pub fn variants_by_names()
    ensures named { (f : ℕ → Text) (t u : Term ℕ) → AreVariants t u → AreVariants (named f t) (named f u) }
    ensures back { (n : ℕ) (f : ℕ → Text) (t u : Term ℕ) → AreDifferentBelow n f → EachName (λ a. a < n) t
        → EachName (λ a. a < n) u → AreVariants (named f t) (named f u) → AreVariants t u }
{}
