//! Transcripts exist: whatever the files and the input hold, some steps of a session lead to its end within the budgets. No
//! code: each function has an empty body, and its contract is a law of the definitions.
#![tactic(auto)]

ghost use Rattle.std.specs.Prelude.{ℕ, ◌<◌, List, Option};
ghost use Rattle.spec_numbers.specs.Texts.{Text};
ghost use Rattle.spec_search.specs.Database.{Database};
ghost use Rattle.spec_transcript.specs.Causes.{Budgets};
ghost use Rattle.spec_transcript.specs.Session.{Session, Over, Marks, Runs, Transcript};
ghost use Rattle.spec_existence.specs.Existing.{AreThere, AnswersHaveForms, IsReady};

/// Files that are there and an input have a transcript, for any budgets that allow an answer, as soon as each answer of a
/// search has a text.
pub fn transcripts_exist()
    ensures { (budgets : Budgets) (shelf : Text → Option (List ℕ)) (input : List ℕ) (files : List Text) → 0 < budgets.answers
        → AreThere shelf files → AnswersHaveForms → (text : Text) × (marks : Marks) × Transcript budgets shelf input files text marks }
{}

/// Steps lead from ready sessions to ready ones, as that of files that are there is; and from each some steps lead to an end. So
/// no session gets stuck, and what is written so far is the beginning of a transcript.
pub fn sessions_come_to_an_end()
    ensures ready { (budgets : Budgets) (shelf : Text → Option (List ℕ)) (input : List ℕ) (a b : Session) (text : Text) (marks : Marks)
        → 0 < budgets.answers → IsReady budgets shelf a → Runs budgets shelf input a text marks b → IsReady budgets shelf b }
    ensures end { (budgets : Budgets) (shelf : Text → Option (List ℕ)) (input : List ℕ) (a : Session)
        → 0 < budgets.answers → AnswersHaveForms → IsReady budgets shelf a
        → (text : Text) × (marks : Marks) × (last : Database) × Runs budgets shelf input a text marks (Over last) }
{}
