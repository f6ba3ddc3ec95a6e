//! Each input has a transcript. No code: the function has an empty body, and its contract is a law of the definitions.
//!
//! The contract of `run` says: what is written is a transcript of the input, as a relation between the two. A relation may be empty, and then a
//! contract that speaks of it says nothing, or asks for what cannot be done. The law here says that it never is: for all files, every
//! input and every budget there is a transcript, whatever the program of the files does.
//!
//! The proof follows the derivation. A turn of a search always comes to something (`progress`): its goal has a row in the table of built-in predicates or
//! is a call; a branch settles, since each pass joins a constraint that waited or is the last (`settled`); a list of constraints has
//! a solution or a certificate, and an answer's rows exist, as elimination makes them (`cq_elimination`'s laws); where a number or a count is past
//! its limit the stop is due, and names it. A query ends since each turn spends one of its budgeted goals (`ended`), and a text is read clause by clause
//! to its end (`transcribed`).
#![tactic(auto)]

pub mod ended;
pub mod progress;
pub mod settled;
pub mod transcribed;

ghost use Rattle.std.specs.Prelude.{ℕ, ◌<◌, List, ◌++◌, Option};
ghost use Rattle.spec_numbers.specs.Texts.{Text};
ghost use Rattle.spec_transcript.specs.Causes.{Budgets};
ghost use Rattle.spec_transcript.specs.Session.{Marks, Transcript, WrittenSoFar};
ghost use Rattle.spec_existence.specs.Existing.{AreThere};

/// Files that are there and an input have a transcript, for any budgets that allow an answer: whatever they hold, each clause
/// of theirs is read or refused, each query comes to an end or a stop, and each answer has a text. And what some steps wrote so
/// far is the beginning of a transcript, so no run of steps gets stuck.
pub fn each_input_has_a_transcript()
    ensures some { (budgets : Budgets) (shelf : Text → Option (List ℕ)) (input : List ℕ) (files : List Text) → 0 < budgets.answers
        → AreThere shelf files → (text : Text) × (marks : Marks) × Transcript budgets shelf input files text marks }
    ensures beginning { (budgets : Budgets) (shelf : Text → Option (List ℕ)) (input : List ℕ) (files : List Text) (text : Text)
        → 0 < budgets.answers → AreThere shelf files → WrittenSoFar budgets shelf input files text
        → (more : Text) × (marks : Marks) × Transcript budgets shelf input files (text ++ more) marks }
{}
