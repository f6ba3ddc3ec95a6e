// What answers to questions, and their stops, are in a search.

ghost use Rattle.std.specs.Prelude.{◌≡◌, [], ◌∷◌, ℕ, List, None};
ghost use Rattle.spec_numbers.specs.Rational.{ℚ};
ghost use Rattle.spec_builtins.specs.Errors.{type_error};
ghost use Rattle.spec_syntax.specs.Trees.{Tree};
ghost use Rattle.spec_branch.specs.Relations.{Waits, False, lin_expression};
ghost use Rattle.spec_branch.specs.Branch.{State, Item, Branch, read};
ghost use Rattle.spec_search.specs.Builtins.{Side};
ghost use Rattle.spec_search.specs.Replies.{Place, IfEntailed, WithExtent};
ghost use Rattle.spec_search.specs.Rows.{reply_of};
ghost use Rattle.spec_search.specs.Search.{Search, look_at, Selecting};
ghost use Rattle.spec_search.specs.Steps.{Steps, ball_of, children};
ghost use Rattle.spec_search.specs.Turns.{place_of};
ghost use Rattle.spec_transcript.specs.Causes.{Budgets, Overflow, Pivots};
ghost use Rattle.spec_transcript.specs.Due.{Due};
ghost use Rattle.spec_transcript.specs.Questions.{IsQuestionMoment};
ghost use Rattle.cq_frac.specs.declared.Pair.{Pair};
ghost use Rattle.cq_store.specs.declared.store.Extent.TheVariants.{Value, Unbounded};
ghost use Rattle.cq_store.specs.declared.store.StoreFault.{StoreFault};
ghost use Rattle.cq_questions.specs.Extents.{Reaches};
ghost use Rattle.cq_questions.specs.Members.{AreEntailed, IsOneBroken, IsFirstWaiting};
ghost use Rattle.cq_questions.specs.Stops.{RefusesIn, TakesIn, IsDueIn, MembersStop, ExtentStops};
ghost use Rattle.cq_questions.specs.Values.{WithValues};

/// The step of a goal whose reply is a question, by the answer: its child, no child, or its ball.
pub fn answers_are_steps()
    ensures entailed { (p : Place) (goal : Tree) (ms : List Tree) (b : Branch) → reply_of p goal ≡ IfEntailed ms b
        → WithValues p.state.linear (λ fixed. AreEntailed p.state.linear fixed ms) → Steps p goal (children p (b ∷ [])) }
    ensures broken { (p : Place) (goal : Tree) (ms : List Tree) (b : Branch) → reply_of p goal ≡ IfEntailed ms b
        → WithValues p.state.linear (λ fixed. IsOneBroken p.state.linear fixed ms) → Steps p goal (children p []) }
    ensures not_linear { (p : Place) (goal : Tree) (ms : List Tree) (b : Branch) (m : Tree) → reply_of p goal ≡ IfEntailed ms b
        → WithValues p.state.linear (λ fixed. IsFirstWaiting fixed ms m) → Steps p goal (ball_of goal (type_error "linear" m)) }
    ensures extent { (p : Place) (goal : Tree) (side : Side) (e : Tree) (f : ℚ → Branch) (q : ℚ) → reply_of p goal ≡ WithExtent side e f
        → WithValues p.state.linear (λ fixed. Reaches side p.state.linear fixed e (Value q)) → Steps p goal (children p (f q ∷ [])) }
    ensures unbounded { (p : Place) (goal : Tree) (side : Side) (e : Tree) (f : ℚ → Branch) → reply_of p goal ≡ WithExtent side e f
        → WithValues p.state.linear (λ fixed. Reaches side p.state.linear fixed e Unbounded) → Steps p goal (children p []) }
    ensures falsehood { (p : Place) (goal : Tree) (side : Side) (e : Tree) (f : ℚ → Branch) → reply_of p goal ≡ WithExtent side e f
        → WithValues p.state.linear (λ fixed. lin_expression fixed e ≡ False) → Steps p goal (children p []) }
    ensures waits { (p : Place) (goal : Tree) (side : Side) (e : Tree) (f : ℚ → Branch) → reply_of p goal ≡ WithExtent side e f
        → WithValues p.state.linear (λ fixed. lin_expression fixed e ≡ Waits) → Steps p goal (ball_of goal (type_error "linear" e)) }
{}

/// A question's stop is due in a moment of its goal. An operation that is due there and refuses its pair may stop the query, and so
/// may exchanges past the budget.
pub fn questions_stop()
    ensures members { (p : Place) (goal : Tree) (ms : List Tree) (b : Branch) (n : ℕ) (f : StoreFault) → reply_of p goal ≡ IfEntailed ms b
        → MembersStop n p.state ms f → IsDueIn (IsQuestionMoment p.state (reply_of p goal)) n f }
    ensures extent { (p : Place) (goal : Tree) (side : Side) (e : Tree) (next : ℚ → Branch) (n : ℕ) (f : StoreFault)
        → reply_of p goal ≡ WithExtent side e next → ExtentStops n p.state side e f → IsDueIn (IsQuestionMoment p.state (reply_of p goal)) n f }
    ensures overflow { (budgets : Budgets) (s : Search) (goal : Tree) (cut : ℕ) (items : List Item) (st : State) (behind : List Branch) (pair : Pair)
        → look_at s.branches ≡ Selecting goal cut items st behind
        → RefusesIn (IsQuestionMoment st (reply_of (place_of s st items cut behind) (read st goal))) pair
        → Due budgets None s (Overflow pair) }
    ensures pivots { (budgets : Budgets) (s : Search) (goal : Tree) (cut : ℕ) (items : List Item) (st : State) (behind : List Branch)
        → look_at s.branches ≡ Selecting goal cut items st behind
        → TakesIn (IsQuestionMoment st (reply_of (place_of s st items cut behind) (read st goal))) budgets.pivots
        → Due budgets None s (Pivots budgets.pivots) }
{}
