// What the row of a predicate is as the reply to its goal.

ghost use Rattle.std.specs.Prelude.{◌≡◌, ◌≢◌, List, Some};
ghost use Rattle.spec_syntax.specs.Trees.{Tree};
ghost use Rattle.spec_search.specs.Predicates.{Predicate, CopyTerm, predicate_of};
ghost use Rattle.spec_search.specs.Builtins.{Builtin};
ghost use Rattle.spec_search.specs.Replies.{Place, Raises};
ghost use Rattle.spec_search.specs.Rows.{builtin_reply};
ghost use Rattle.cq_choices.specs.Calls.{row_of};

/// The row of a predicate is the reply to its goal, but for `copy_term`, where the reply waits for the copy; so is its error.
pub fn rows_are_replies()
    ensures replies { (b : Builtin) (q : Predicate) → predicate_of b ≡ Some q → q ≢ CopyTerm → (p : Place) (ts : List Tree)
        → row_of q p ts ≡ builtin_reply p b ts }
    ensures errors { (b : Builtin) (q : Predicate) → predicate_of b ≡ Some q → (p : Place) (ts : List Tree) (e : Tree)
        → row_of q p ts ≡ Raises e → builtin_reply p b ts ≡ Raises e }
{}
