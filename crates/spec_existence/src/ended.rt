//! Each command line has an ending. No code: each function has an empty body, and its contract is a law of the definitions.
#![tactic(auto)]

ghost use Rattle.std.specs.Prelude.{◌≡◌, ℕ, ◌<◌, List, [], Bool, Some};
ghost use Rattle.cq_words.specs.Asked.{Asked, ToRun};
ghost use Rattle.cq_words.specs.Language.{asked_by_texts};
ghost use Rattle.spec_numbers.specs.Texts.{Text};
ghost use Rattle.spec_command.specs.Outcome.{GenWrites};
ghost use Rattle.spec_command.specs.declared.endings.status.Status.{Status};
ghost use Rattle.spec_command.specs.Outside.{Outside};
ghost use Rattle.spec_command.specs.Endings.{Ends};
ghost use Rattle.spec_existence.specs.Own.{IsUndisturbed};

/// The search of the query of `gen` comes to a line, for each number.
pub fn gen_has_a_line()
    ensures { (n : ℕ) → (line : Text) × (stopped : Bool) × GenWrites n line stopped }
{}

/// Whatever the words, the files and the input, a run has an ending that comes of them alone: a transcript with its status, a
/// file that is absent or too large, an input that is too large, the line of `gen`, or words that are not in the language. Words
/// that ask for a transcript allow an answer.
pub fn each_command_has_an_ending()
    ensures answers { (words : List Text) (a : Asked) → asked_by_texts words ≡ Some (ToRun a) → 0 < a.answers }
    ensures some { (o : Outside) (words : List Text)
        → (status : Status) × (text : Text) × (line : Text) × Ends o [] (asked_by_texts words) status text line × IsUndisturbed status }
{}
