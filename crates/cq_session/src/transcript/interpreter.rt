// What the writer of a transcript asks of an interpreter.

ghost use Rattle.std.specs.Prelude.{◌≡◌, ℕ, List, [], IfOk};
ghost use Rattle.spec_syntax.specs.Operators.{Ops};
ghost use Rattle.spec_branch.specs.Branch.{State};
ghost use Rattle.spec_search.specs.Database.{initial};
ghost use Rattle.spec_search.specs.Search.{Search};
ghost use Rattle.spec_transcript.specs.Causes.{Budgets};
ghost use Rattle.spec_syntax.specs.TextTokens.{VariableName};
ghost use Rattle.cq_session.specs.Events.{IsEvent, IsAnswered, TakesFrom};
ghost use Rattle.cq_session.specs.Sentences.{Program, IsSentence, BeginsLater, MovesOn, budgets_within};

use cq_read::Feed;
use spec_transcript::Source;
use std::alloc::{AllocError, Global};

/// What was read of a text.
#[derive(Drop)]
pub enum Sentence {
    /// The bytes so far don't decide what stands there.
    Needs,
    /// Nothing more stands there.
    End,
    /// An error of syntax, at this place.
    Syntax(usize),
    /// A clause, which was added.
    Added,
    /// A clause that is refused, with its line.
    Refused(Vec<u8>),
    /// A goal that waits for the end of the file.
    Waits,
    /// A directive, which was begun.
    Directive,
    /// A query, which was begun.
    Query,
}

/// What an interpreter tells of the query that it runs.
#[derive(Drop)]
pub enum Event {
    /// Output.
    Wrote(Vec<u8>),
    /// An answer.
    Answer,
    /// No branch is left.
    Fail,
    /// A ball that nothing catches, with its line.
    Ball(Vec<u8>),
    /// A stop, with its line.
    Stop(&'static [u8]),
}

/// What an answer is written as.
#[derive(Drop)]
pub enum Answered {
    /// Its lines.
    Lines(Vec<u8>),
    /// The query stops while they are made, with the line of the stop.
    Stop(&'static [u8]),
}

/// A program that is read clause by clause, and whose queries run one after another. An error of a call is want of memory.
pub trait Interpreter: Sized {
    /// The program, and the goals that wait for the end of the file.
    ghost program: { Self → Program };

    /// What it keeps between calls, also where memory was wanting.
    ghost kept: { Self → Type 0 };

    /// What each query may spend.
    ghost budgets: { Self → Budgets };

    /// It stands for this search: a query or a directive runs.
    ghost stands: { Self → Search → Type 0 };

    /// The answer that was told last is of this state, with these operators.
    ghost is_answer: { Self → State → Ops → Type 0 };

    /// How many goals the query may still select.
    ghost left: { Self → ℕ };

    /// The names of the variables of the query that runs.
    ghost names: { Self → List VariableName };

    /// A program without clauses. A query may select so many goals, make so many exchanges in one maximisation, and write so many
    /// answers.
    fn new(alloc: Global, steps: u64, pivots: u64, answers: u64) -> Result<Self, AllocError>
        ensures program { IfOk result (λ p. program p ≡ record { database = initial; later = [] }) }
        ensures budgets { IfOk result (λ p. budgets p ≡ budgets_within steps pivots answers) }
        ensures kept { IfOk result kept };

    /// Reads what stands at the place of a text. A clause of a file is added, and a directive or a query begun.
    fn read(&mut self, text: &mut Feed, source: Source) -> Result<Sentence, AllocError>
        requires kept { kept self.old }
        ensures sentence { IfOk result (IsSentence (stands self.new) (names self.new) source (program self.old) text.old (program self.new) text.new) }
        ensures forward { IfOk result (MovesOn text.old text.new) }
        ensures bytes { text.new.bytes ≡ text.old.bytes }
        ensures finished { text.new.finished ≡ text.old.finished }
        ensures budgets { budgets self.new ≡ budgets self.old }
        ensures kept { kept self.new };

    /// Begins the first of the goals that wait, if one does.
    fn begin_later(&mut self) -> Result<bool, AllocError>
        requires kept { kept self.old }
        ensures begun { IfOk result (BeginsLater (stands self.new) (program self.old) (program self.new)) }
        ensures budgets { budgets self.new ≡ budgets self.old }
        ensures kept { kept self.new };

    /// What the query comes to next.
    fn next(&mut self) -> Result<Event, AllocError>
        requires kept { kept self.old }
        requires runs { (s : Search) × stands self.old s }
        ensures event { IfOk result (λ e. (s : Search) → stands self.old s → IsEvent (budgets self.old) (stands self.new) (is_answer self.new) (program self.old) (program self.new) s e) }
        ensures less { IfOk result (TakesFrom (left self.old) (left self.new)) }
        ensures names { names self.new ≡ names self.old }
        ensures budgets { budgets self.new ≡ budgets self.old }
        ensures kept { kept self.new };

    /// The lines of the answer that was told last.
    fn answer(&mut self) -> Result<Answered, AllocError>
        requires kept { kept self.old }
        requires told { (st : State) × (ops : Ops) × is_answer self.old st ops }
        ensures lines { IfOk result (IsAnswered (budgets self.old) (is_answer self.old) (names self.old)) }
        ensures left { left self.new ≡ left self.old }
        ensures stands { (s : Search) → stands self.old s → stands self.new s }
        ensures program { program self.new ≡ program self.old }
        ensures names { names self.new ≡ names self.old }
        ensures budgets { budgets self.new ≡ budgets self.old }
        ensures kept { kept self.new };
}
