//! Why a query stops before its search ends: what it may spend, and the moments of a turn at which a cause holds.
//! Definitions with no code; the function has an empty body: its contract is what the definitions say of examples.
#![tactic(auto)]

ghost use Rattle.std.specs.Prelude.{◌≡◌, [], ◌∷◌};
ghost use Rattle.spec_linear.specs.Form.{constant_form, variable_form};
ghost use Rattle.spec_branch.specs.Expressions.{power};
ghost use Rattle.cq_frac.specs.declared.Operation.TheVariants.{Product};
ghost use Rattle.spec_simplex.specs.Overflow.{on};
ghost use Rattle.spec_branch.specs.Alike.{no_values};
ghost use Rattle.spec_transcript.specs.Operands.{expression_operands};
ghost use Rattle.spec_transcript.specs.Samples.{two, times_two, doubled, product, cube};

/// The operations of a product by a number, of one that waits, which has none, and of a power, which counts as products of its base.
pub fn operations_of_terms()
    ensures product { expression_operands no_values doubled ≡ on Product (constant_form two) (variable_form 0) ∷ [] }
    ensures waiting { expression_operands no_values product ≡ [] }
    ensures power { expression_operands no_values cube ≡ times_two (power two 1) ∷ times_two (power two 2) ∷ [] }
{}
