//! What a session writes when its engine tells of a search. No code: each function has an empty body, and its contract is a
//! law of the definitions.
#![tactic(auto)]

ghost use Rattle.std.specs.Prelude.{◌≡◌, ◌⊎◌, ℕ, suc, List, [], ◌++◌, Option};
ghost use Rattle.spec_numbers.specs.Texts.{Text};
ghost use Rattle.spec_syntax.specs.Operators.{Ops};
ghost use Rattle.spec_syntax.specs.TextTokens.{VariableName};
ghost use Rattle.spec_text.specs.Decided.{Decided};
ghost use Rattle.spec_text.specs.Readings.{Read, Reads, Ended as ReadEnded};
ghost use Rattle.spec_answers.specs.Answer.{AnswerForm};
ghost use Rattle.spec_branch.specs.Branch.{State, Copied};
ghost use Rattle.spec_search.specs.Search.{Search};
ghost use Rattle.spec_search.specs.Turns.{Wrote, Answered, Threw, Ended};
ghost use Rattle.spec_transcript.specs.Causes.{Budgets, Cause, stop_text};
ghost use Rattle.spec_engine.specs.Coming.{Quietly, Tells, Shows, Stops};
ghost use Rattle.spec_transcript.specs.Purposes.{answer_end, more_line, no_line, ball_line};
ghost use Rattle.spec_transcript.specs.Session.{Asker, ADirective, AQuery, Reader, Session, Reading, Searching, Marks, unmarked, Runs};
ghost use Rattle.spec_engine.specs.Parts.{both, an_error, a_stop, StopsAnswer};

/// Steps behind steps write one text behind the other.
pub fn steps_are_joined()
    ensures { (budgets : Budgets) (shelf : Text → Option (List ℕ)) (input : List ℕ) (a b c : Session) (text more : Text) (m k : Marks)
        → Runs budgets shelf input a text m b → Runs budgets shelf input b more k c
        → Runs budgets shelf input a (text ++ more) (both m k) c }
{}

/// Turns that show nothing write nothing.
pub fn quiet_turns_write_nothing()
    ensures { (budgets : Budgets) (shelf : Text → Option (List ℕ)) (input : List ℕ) (s t : Search) (who : Asker) (r : Reader)
        → Quietly budgets.steps s t → Runs budgets shelf input (Searching s who r) [] unmarked (Searching t who r) }
{}

/// Each event of a search that an engine tells is written, with the quiet turns before it.
pub fn told_events_are_written()
    ensures output { (budgets : Budgets) (shelf : Text → Option (List ℕ)) (input : List ℕ) (s t : Search) (who : Asker) (r : Reader) (text : Text)
        → Tells budgets s (Shows (Wrote text)) t
        → Runs budgets shelf input (Searching s who r) text unmarked (Searching t who r) }
    ensures answer { (budgets : Budgets) (shelf : Text → Option (List ℕ)) (input : List ℕ) (s t : Search) (r : Reader) (st : State) (ops : Ops)
        (names : List VariableName) (n : ℕ) (text : Text) → Tells budgets s (Shows (Answered st ops)) t → AnswerForm ops names st text
        → Runs budgets shelf input (Searching s (AQuery names (suc (suc n))) r) (text ++ answer_end) unmarked (Searching t (AQuery names (suc n)) r) }
    ensures last { (budgets : Budgets) (shelf : Text → Option (List ℕ)) (input : List ℕ) (s t : Search) (r : Reader) (st : State) (ops : Ops)
        (names : List VariableName) (text : Text) → Tells budgets s (Shows (Answered st ops)) t → AnswerForm ops names st text
        → Runs budgets shelf input (Searching s (AQuery names 1) r) (text ++ answer_end ++ more_line) unmarked (Reading t.database r) }
    ensures success { (budgets : Budgets) (shelf : Text → Option (List ℕ)) (input : List ℕ) (s t : Search) (r : Reader) (st : State) (ops : Ops)
        → Tells budgets s (Shows (Answered st ops)) t
        → Runs budgets shelf input (Searching s ADirective r) [] unmarked (Reading t.database r) }
    ensures failure { (budgets : Budgets) (shelf : Text → Option (List ℕ)) (input : List ℕ) (s t : Search) (who : Asker) (r : Reader)
        → Tells budgets s (Shows Ended) t → Runs budgets shelf input (Searching s who r) no_line unmarked (Reading t.database r) }
    ensures ball { (budgets : Budgets) (shelf : Text → Option (List ℕ)) (input : List ℕ) (s t : Search) (who : Asker) (r : Reader) (ball : Copied)
        → Tells budgets s (Shows (Threw ball)) t
        → Runs budgets shelf input (Searching s who r) (ball_line t.database.operators ball.term) an_error (Reading t.database r) }
{}

/// Each stop that an engine tells is written, and so is one that comes while the lines of an answer are made.
pub fn told_stops_are_written()
    ensures stop { (budgets : Budgets) (shelf : Text → Option (List ℕ)) (input : List ℕ) (s t : Search) (who : Asker) (r : Reader) (cause : Cause)
        → Tells budgets s (Stops cause) t
        → Runs budgets shelf input (Searching s who r) (stop_text cause) a_stop (Reading t.database r) }
    ensures answer { (budgets : Budgets) (shelf : Text → Option (List ℕ)) (input : List ℕ) (s t : Search) (r : Reader) (st : State) (ops : Ops)
        (names : List VariableName) (n : ℕ) (cause : Cause) → Tells budgets s (Shows (Answered st ops)) t → StopsAnswer budgets names st cause
        → Runs budgets shelf input (Searching s (AQuery names n) r) (stop_text cause) a_stop (Reading t.database r) }
{}

/// What bytes decide stands in each text that begins with them, and the end of a text is its end whatever the operators are.
pub fn readings_stand()
    ensures settled { (ops : Ops) (bytes more : List ℕ) (at : ℕ) (r : Read) → Reads ops bytes at r → (more ≡ []) ⊎ Decided ops bytes at
        → Reads ops (bytes ++ more) at r }
    ensures ended { (ops other : Ops) (text : List ℕ) (at : ℕ) → Reads ops text at ReadEnded → Reads other text at ReadEnded }
{}
