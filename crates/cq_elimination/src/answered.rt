//! Each answer has a text. No code: the function has an empty body, and its contract is a law of the definitions.
#![tactic(auto)]

ghost use Rattle.std.specs.Prelude.{ℕ, List, map};
ghost use Rattle.spec_numbers.specs.Texts.{Text};
ghost use Rattle.spec_linear.specs.Solution.{Solvable};
ghost use Rattle.spec_linear.specs.Echelon.{AreDistinct};
ghost use Rattle.spec_syntax.specs.Operators.{Ops};
ghost use Rattle.spec_syntax.specs.TextTokens.{VariableName};
ghost use Rattle.spec_projection.specs.Lists.{AreForms};
ghost use Rattle.spec_answers.specs.Answer.{AnswerForm};
ghost use Rattle.spec_branch.specs.Branch.{State};

/// A state has the text of an answer where its linear constraints have a solution and list their products in order, whatever
/// the operators, and for any names of different variables.
pub fn answers_have_forms()
    ensures { (ops : Ops) (names : List VariableName) (st : State) → AreDistinct (map (λ n. n.number) names) → AreForms st.linear
        → Solvable st.linear → (text : Text) × AnswerForm ops names st text }
{}
