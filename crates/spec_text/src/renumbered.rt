//! A term is written the same whatever the numbers of its variables. No code: the function has an empty body, and its contract is
//! a law of the definitions.
#![tactic(auto)]

ghost use Rattle.std.specs.Prelude.{◌≡◌, ℕ, []};
ghost use Rattle.spec_syntax.specs.Operators.{Ops};
ghost use Rattle.spec_syntax.specs.Trees.{Tree};
ghost use Rattle.spec_terms.specs.Variables.{renamed_from};
ghost use Rattle.spec_text.specs.Written.{text_within};
ghost use Rattle.spec_text.specs.declared.writing.Style.{Style};

/// Where no variable has a name, a term with its variables numbered by first occurrence is written as the term itself.
pub fn numbers_are_not_written()
    ensures { (style : Style) (ops : Ops) (most : ℕ) (t : Tree) → text_within style ops [] most (renamed_from 0 t) ≡ text_within style ops [] most t }
{}
