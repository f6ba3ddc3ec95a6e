//! The transcript of some files and the input. Definitions and a plain type of theirs; the functions here have empty bodies: each
//! contract is a law of the definitions.
#![tactic(auto)]

pub mod stops;

ghost use Rattle.std.specs.Prelude.{◌≡◌, ℕ, ◌<◌, List, ◌++◌, Option, true};
ghost use Rattle.cq_frac.specs.declared.Pair.{Pair};
ghost use Rattle.spec_numbers.specs.Texts.{Text};
ghost use Rattle.spec_search.specs.Search.{Search, look_at, is_selecting};
ghost use Rattle.spec_search.specs.Turns.{Refuses};
ghost use Rattle.spec_transcript.specs.Causes.{Budgets, Resolutions, stop_text};
ghost use Rattle.spec_transcript.specs.Session.{Asker, Reader, Session, Searching, Mark, stop_line, Marks, Step, Transcript, WrittenSoFar};

/// Where a text comes from.
#[derive(Clone, Copy, PartialEq, Eq)]
pub enum Source {
    File,
    Input,
}

/// Where a query has selected its goals and would select another, it stops with `stop: resolutions`, and nothing else
/// can happen.
pub fn spent_goals_stop()
    ensures { (budgets : Budgets) (shelf : Text → Option (List ℕ)) (input : List ℕ) (s : Search) (who : Asker) (r : Reader)
        (out : Text) (mark : Mark) (next : Session) → is_selecting (look_at s.branches) ≡ true → s.selected ≡ budgets.steps
        → Step budgets shelf input (Searching s who r) out mark next
        → (out ≡ stop_text (Resolutions budgets.steps)) × (mark ≡ stop_line) }
{}

/// Where the arithmetic of the goal that is selected refuses two numbers, the query stops.
pub fn refused_arithmetic_stops()
    ensures { (budgets : Budgets) (shelf : Text → Option (List ℕ)) (input : List ℕ) (s : Search) (who : Asker) (r : Reader)
        (out : Text) (mark : Mark) (next : Session) (pair : Pair) → Refuses s pair
        → Step budgets shelf input (Searching s who r) out mark next → mark ≡ stop_line }
{}

/// A transcript, and each beginning of what is written so far, is written so far.
pub fn what_is_written_so_far()
    ensures whole { (budgets : Budgets) (shelf : Text → Option (List ℕ)) (input : List ℕ) (files : List Text) (text : Text) (marks : Marks)
        → Transcript budgets shelf input files text marks → WrittenSoFar budgets shelf input files text }
    ensures beginning { (budgets : Budgets) (shelf : Text → Option (List ℕ)) (input : List ℕ) (files : List Text) (text more : Text)
        → WrittenSoFar budgets shelf input files (text ++ more) → WrittenSoFar budgets shelf input files text }
{}
