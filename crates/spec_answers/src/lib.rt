//! The text of an answer: bindings, rows, delayed constraints and suspended goals. No code: each function has an empty
//! body, and its contract is a law of the definitions, or what they say of an example.
#![tactic(auto)]

ghost use Rattle.std.specs.Prelude.{◌≡◌, List, codes, [], ◌∷◌, ◌++◌};
ghost use Rattle.spec_syntax.specs.Operators.{Ops};
ghost use Rattle.spec_syntax.specs.Standard.{standard};
ghost use Rattle.spec_syntax.specs.TextTokens.{VariableName};
ghost use Rattle.spec_branch.specs.Branch.{State};
ghost use Rattle.spec_answers.specs.Lines.{or_true, lines_text};
ghost use Rattle.spec_answers.specs.Rows.{no_rows};
ghost use Rattle.spec_answers.specs.Targets.{wanted};
ghost use Rattle.spec_answers.specs.Answer.{answer_lines, AnswerForm};
ghost use Rattle.spec_answers.specs.Samples.{kept, residues, named, above_zero};

/// Rows, delayed constraints and suspended goals, and the names of their variables.
pub fn lines()
    ensures rows { kept ≡ codes "{U-_1>=0}\n{_1> -3}\n{V-_1=\\=0}\n" }
    ensures residues { residues ≡ codes "{X*_1=a}\nfreeze(Z,_1)\n" }
{}

/// Where no linear constraint was told, the lines are those without a row.
pub fn answers_without_constraints()
    ensures { (ops : Ops) (names : List VariableName) (st : State) → st.linear ≡ []
        → AnswerForm ops names st (lines_text (or_true (answer_lines ops names st (wanted names st ++ []) no_rows))) }
{}

/// Where X>0 was told, the answer is `{X>0}`.
pub fn an_inequality()
    ensures { AnswerForm standard (named (codes "X") 0 ∷ []) above_zero (codes "{X>0}\n") }
{}
