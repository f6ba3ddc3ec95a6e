// A clause that is being read.

ghost use Rattle.std.specs.Prelude.{◌≡◌, [], List, length, IfOk, OnOk, IsTrue, IsSome};
ghost use Rattle.spec_numbers.specs.Texts.{Text};
ghost use Rattle.cq_term.specs.Texts.{KeepsTexts, AreDifferent};
ghost use Rattle.cq_read.specs.LexShown.{shown};
ghost use Rattle.cq_read.specs.Known.{KnowsState};
ghost use Rattle.cq_read.specs.Growth.{Grows};
ghost use Rattle.cq_read.specs.Clauses.{IsLive, AreTextsFor, Advances, KeepsNames, whole_term};
ghost use Rattle.cq_read.specs.Ends.{IsClauseRead};
ghost use Rattle.cq_read.specs.Tokens.{IsToken};

use crate::lex::Token as TextToken;
use crate::parse::{Frame, Grammar, State, step};
use crate::reading::Read;
use crate::tokens::token_of;
use crate::variables::Variables;
use cq_term::atoms::Atoms;
use cq_term::{Heap, TermId};
use std::alloc::{AllocError, Global};

/// What the machine that reads clauses stands at, and the variables so far.
#[derive(Drop)]
pub struct Clause {
    pub state: State,
    pub frames: Vec<Frame>,
    pub variables: Variables,
}

impl Clause {
    /// Before the first token.
    pub fn new(alloc: Global) -> Clause
        ensures state { result.state ≡ State.BeforeTerm 1200 }
        ensures frames { result.frames.items ≡ [] }
        ensures variables { result.variables ≡ [] }
    {
        Clause {
            state: State::BeforeTerm { most: 1200 },
            frames: Vec::new(alloc),
            variables: Variables::new(alloc),
        }
    }

    /// The term of a whole clause.
    pub fn whole(&self) -> Option<TermId>
        ensures { result ≡ whole_term self.now.state }
    {
        match &self.state {
            State::Whole { term } => Some(*term),
            _ => None,
        }
    }

    /// The whole clause as it is read, where it ends at a place.
    pub fn read(self, next: usize) -> Result<Read, AllocError>
        requires { IsSome (whole_term self.state) }
        ensures { IfOk result (IsClauseRead self next) }
    {
        match self.whole() {
            Some(term) => {
                let Clause { variables, .. } = self;
                Ok(Read::Clause {
                    term,
                    names: variables.into_names()?,
                    next,
                })
            }
            None => unreachable!(),
        }
    }

    /// Reads one more token, or answers false where it is refused.
    pub fn advance(
        &mut self,
        grammar: &Grammar<'_>,
        heap: &mut Heap,
        atoms: &mut Atoms,
        text: &[u8],
        token: &TextToken,
    ) -> Result<bool, AllocError>
        requires live { IsLive heap.old.now self.old }
        requires token { IsToken text.now (shown token.now) }
        ensures step { (texts : List Text) → AreTextsFor atoms.new grammar.now.names.now self.old texts
            → IfOk result (Advances texts grammar.now.ops.now text.now (shown token.now) heap.old.now self.old heap.new.now self.new) }
        ensures known { (texts : List Text) → KeepsTexts atoms.new texts → IfOk result (λ goes_on. IsTrue goes_on → KnowsState texts self.new.state) }
        ensures names { (texts : List Text) → AreTextsFor atoms.new grammar.now.names.now self.old texts
            → OnOk result (KeepsNames texts heap.old.now self.old heap.new.now self.new) }
        ensures live { IfOk result (λ goes_on. IsTrue goes_on → IsLive heap.new.now self.new) }
        ensures heap { Grows heap.old heap.new }
        ensures kept { KeepsTexts atoms.old atoms.new }
        ensures different { AreDifferent atoms.old → AreDifferent atoms.new }
    {
        let seen = token_of(heap, atoms, &mut self.variables, text, token)?;
        match step(grammar, heap, &mut self.frames, self.state, &seen)? {
            Some(next) => {
                self.state = next;
                Ok(true)
            }
            None => Ok(false),
        }
    }
}
