// What an engine may do while it stands for a search, and for which search it stands then.

ghost use Rattle.std.specs.Prelude.{◌≡◌, ◌<◌, ◌≤◌, ◌∷◌, ◌++◌, [], ℕ, suc, List, Bool, Option, None, Some, length};
ghost use Rattle.std.specs.List.{AllZip};
ghost use Rattle.spec_numbers.specs.Texts.{Text};
ghost use Rattle.spec_syntax.specs.Trees.{Tree};
ghost use Rattle.spec_branch.specs.Branch.{State, Item, Branch, Copied, Pending, no_work, read};
ghost use Rattle.spec_branch.specs.Settling.{Settles, Kept, Pruned, Why};
ghost use Rattle.spec_builtins.specs.Bodies.{as_goal};
ghost use Rattle.spec_search.specs.Balls as balls;
ghost use Rattle.spec_search.specs.Balls.{handed};
ghost use Rattle.spec_search.specs.Control.{clause_items, clause_state, clause_work};
ghost use Rattle.spec_search.specs.Database.{Database, Clause, clause_removed};
ghost use Rattle.spec_terms.specs.Variables.{renamed_from};
ghost use Rattle.spec_builtins.specs.Alternatives.{Alternative};
ghost use Rattle.spec_search.specs.Replies.{Place, Made, Makes, child, landed, with_new, with_equations};
ghost use Rattle.spec_search.specs.Rows.{reply_of};
ghost use Rattle.spec_search.specs.Search.{Search, settled, empty_state, start, look_at, Answering, Over, Selecting, Settling};
ghost use Rattle.spec_search.specs.Turns.{Turn, Wrote, place_of, after_step};
ghost use Rattle.cq_control.specs.Items.{items_at};
ghost use Rattle.cq_control.specs.Open.{last};
ghost use Rattle.spec_engine.specs.declared.machine.cell.Cell.{Cell};
ghost use Rattle.spec_engine.specs.declared.machine.cell.Cell.TheVariants.{Goal, CutTo, CutFail, CatchEnd, Collect};
ghost use Rattle.spec_engine.specs.Cells.{Fits, Left, One, Clauses, Ways, Barrier, Catches, Caught, Gathers, Matches, Value, Stack, below, catch_at};
ghost use Rattle.spec_engine.specs.Cells.{GathersAt, nearest_catch};
ghost use Rattle.spec_engine.specs.Standing.{engine, AreItems, AreWaiting, IsContinuation, IsHanded, IsPlace, IsStanding, IsStoredAs};
ghost use Rattle.spec_engine.specs.Standing.{KeepsReading, ReadsOn};
ghost use Rattle.spec_engine.specs.Coming.{Comes, Quietly};
ghost use Rattle.spec_engine.specs.Trying.{ComparesClause, IsLanded, MakesList, TakesBall};

/// Worlds that an engine keeps, where names have these texts: of which branches they are the states, and as which terms they
/// read numbers.
pub trait StateWorlds {
    ghost World: { Type 0 };

    ghost is_state: { List Text → World → State → Type 0 };

    /// The term of a number as the world reads it; None where no term has the number.
    ghost term: { List Text → World → ℕ → Option Tree };
}

/// Cells stand for the same items under one more choice, under the choices below their heights alone, and in a world and a
/// state in which all terms are read on.
pub fn standing_stays<R: StateWorlds>()
    ensures pushed { (texts : List Text) (choice : Value R.World × Left) (choices : Stack R.World) (w : R.World) (st : State) (cells : List Cell)
        (items : List Item)
        → Fits (length choices) cells → AreItems (R.is_state texts) (R.term texts) choices w st cells items
        → AreItems (R.is_state texts) (R.term texts) (choice ∷ choices) w st cells items }
    ensures cut { (texts : List Text) (choices : Stack R.World) (height : ℕ) (w : R.World) (st : State) (cells : List Cell) (items : List Item)
        → Fits height cells → AreItems (R.is_state texts) (R.term texts) choices w st cells items
        → AreItems (R.is_state texts) (R.term texts) (last height choices) w st cells items }
    ensures read_on { (texts : List Text) (choices : Stack R.World) (w : R.World) (st : State) (v : R.World) (su : State)
        → KeepsReading (R.term texts) w st v su
        → (cells : List Cell) (items : List Item) → AreItems (R.is_state texts) (R.term texts) choices w st cells items
        → AreItems (R.is_state texts) (R.term texts) choices v su cells items }
    ensures waiting { (texts : List Text) (choices : Stack R.World) (height : ℕ) (branches : List Branch)
        → AreWaiting (R.is_state texts) (R.term texts) choices branches
        → AreWaiting (R.is_state texts) (R.term texts) (last height choices) (balls.last (below choices height) branches) }

    // While texts are added, each world goes on to read as it did.
    ensures texts { (texts more : List Text) → ReadsOn (R.is_state texts) (R.term texts) (R.is_state more) (R.term more)
        → (choices : Stack R.World) (branches : List Branch) → AreWaiting (R.is_state texts) (R.term texts) choices branches
        → AreWaiting (R.is_state more) (R.term more) choices branches }
    ensures texts_now { (texts more : List Text) → ReadsOn (R.is_state texts) (R.term texts) (R.is_state more) (R.term more)
        → (choices : Stack R.World) (now : Value R.World) (k : ℕ) (items : List Item) (st : State)
        → IsContinuation (R.is_state texts) (R.term texts) choices now k items st
        → IsContinuation (R.is_state more) (R.term more) choices now k items st }
{}

/// A mark in front is passed: a cut to a height keeps the choices below it. The end of a catch keeps all, and needs the catch's own
/// choice no more where that is the newest.
pub fn marks_are_passed<R: StateWorlds>()
    ensures cut { (texts : List Text) (steps : ℕ) (db : Database) (n : ℕ) (choices : Stack R.World) (now : Value R.World) (k rest : ℕ) (s : Search)
        → IsStanding (R.is_state texts) (R.term texts) (engine db n choices now (Some k)) s → rest < k
        → (height : ℕ) → items_at now.1 k ≡ CutTo height ∷ items_at now.1 rest
        → Comes (R.is_state texts) (R.term texts) steps (engine db n (last height choices) now (Some rest)) s }
    ensures cut_fails { (texts : List Text) (steps : ℕ) (db : Database) (n : ℕ) (choices : Stack R.World) (now : Value R.World) (k rest : ℕ) (s : Search)
        → IsStanding (R.is_state texts) (R.term texts) (engine db n choices now (Some k)) s → rest < k
        → (height : ℕ) → items_at now.1 k ≡ CutFail height ∷ items_at now.1 rest
        → Comes (R.is_state texts) (R.term texts) steps (engine db n (last height choices) now None) s }
    ensures end { (texts : List Text) (steps : ℕ) (db : Database) (n : ℕ) (choices : Stack R.World) (now : Value R.World) (k rest : ℕ) (s : Search)
        → IsStanding (R.is_state texts) (R.term texts) (engine db n choices now (Some k)) s → rest < k
        → (height catcher recovery : ℕ) → items_at now.1 k ≡ CatchEnd height catcher recovery ∷ items_at now.1 rest
        → Comes (R.is_state texts) (R.term texts) steps (engine db n choices now (Some rest)) s }
    ensures end_cuts { (texts : List Text) (steps : ℕ) (db : Database) (n : ℕ) (choices : Stack R.World) (now : Value R.World) (k rest : ℕ) (s : Search)
        → IsStanding (R.is_state texts) (R.term texts) (engine db n choices now (Some k)) s → rest < k
        → (height catcher recovery : ℕ) → items_at now.1 k ≡ CatchEnd height catcher recovery ∷ items_at now.1 rest → length choices ≡ suc height
        → Comes (R.is_state texts) (R.term texts) steps (engine db n (last height choices) now (Some rest)) s }
{}

/// A goal in front is the one that the search selects, as it reads, with the continuation behind it for the items behind it.
pub fn goals_are_selected<R: StateWorlds>()
    ensures selected { (texts : List Text) (db : Database) (n : ℕ) (choices : Stack R.World) (now : Value R.World) (k rest : ℕ) (s : Search)
        → (j : IsStanding (R.is_state texts) (R.term texts) (engine db n choices now (Some k)) s) → rest < k
        → (t cut : ℕ) → items_at now.1 k ≡ Goal t cut ∷ items_at now.1 rest
        → (goal : Tree) × (items : List Item) × (st : State) × (look_at s.branches ≡ Selecting goal (below choices cut) items st j.behind)
        × (R.term texts now.0 t ≡ Some (read st goal))
        × IsPlace (R.is_state texts) (R.term texts) choices now rest (place_of s st items (below choices cut) j.behind) }
    ensures made { (s : Search) (goal : Tree) (cut : ℕ) (items : List Item) (st : State) (behind : List Branch) (m : Made)
        → look_at s.branches ≡ Selecting goal cut items st behind → reply_of (place_of s st items cut behind) (read st goal) ≡ Makes m
        → Turn s (Wrote m.output) (after_step s m behind) }
{}

/// The first branch is settled: where it is kept, the engine goes on with a continuation that stands for it, and where it is
/// pruned, the engine comes back. A clause that the branch removes is gone once it is kept. A branch that waits with no work to do
/// is a choice of its continuation.
pub fn children_are_settled<R: StateWorlds>()
    ensures kept { (texts : List Text) (steps : ℕ) (db : Database) (n : ℕ) (choices : Stack R.World) (now : Value R.World) (k : ℕ) (s : Search)
        (items : List Item) (st : State) (p : Pending) (behind : List Branch) → s.database ≡ db → s.selected ≡ n
        → look_at s.branches ≡ Settling items st p behind → p.removes ≡ None
        → (left : List Item) (su : State) → Settles items st p (Kept (settled left su))
        → IsContinuation (R.is_state texts) (R.term texts) choices now k left su → AreWaiting (R.is_state texts) (R.term texts) choices behind
        → Comes (R.is_state texts) (R.term texts) steps (engine db n choices now (Some k)) s }
    ensures removed { (texts : List Text) (steps : ℕ) (db : Database) (n : ℕ) (choices : Stack R.World) (now : Value R.World) (k : ℕ) (s : Search)
        (items : List Item) (st : State) (p : Pending) (behind : List Branch) → s.database ≡ db → s.selected ≡ n
        → look_at s.branches ≡ Settling items st p behind → (m : ℕ) → p.removes ≡ Some m
        → (left : List Item) (su : State) → Settles items st p (Kept (settled left su))
        → IsContinuation (R.is_state texts) (R.term texts) choices now k left su → AreWaiting (R.is_state texts) (R.term texts) choices behind
        → Comes (R.is_state texts) (R.term texts) steps (engine (clause_removed m db) n choices now (Some k)) s }
    ensures pruned { (texts : List Text) (steps : ℕ) (db : Database) (n : ℕ) (choices : Stack R.World) (now : Value R.World) (s : Search)
        (items : List Item) (st : State) (p : Pending) (behind : List Branch) → s.database ≡ db → s.selected ≡ n
        → look_at s.branches ≡ Settling items st p behind → p.ball ≡ None → (why : Why) → Settles items st p (Pruned why)
        → AreWaiting (R.is_state texts) (R.term texts) choices behind → Comes (R.is_state texts) (R.term texts) steps (engine db n choices now None) s }
    ensures waits { (texts : List Text) (choices : Stack R.World) (now : Value R.World) (k : ℕ) (items : List Item) (st : State) (behind : List Branch)
        → IsContinuation (R.is_state texts) (R.term texts) choices now k items st → AreWaiting (R.is_state texts) (R.term texts) choices behind
        → AreWaiting (R.is_state texts) (R.term texts) ((now, One k) ∷ choices) (child items st no_work ∷ behind) }
{}

/// The engine comes back to its newest choice: one that stands for no branch is passed, one of a continuation goes on with it,
/// and one of a call begins its next clause or alternative, and is gone once it has none.
pub fn choices_are_come_back_to<R: StateWorlds>()
    ensures barrier { (texts : List Text) (db : Database) (n : ℕ) (older : Stack R.World) (v now : Value R.World) (s : Search)
        → IsStanding (R.is_state texts) (R.term texts) (engine db n ((v, Barrier) ∷ older) now None) s
        → IsStanding (R.is_state texts) (R.term texts) (engine db n older v None) s }
    ensures one { (texts : List Text) (steps : ℕ) (db : Database) (n : ℕ) (older : Stack R.World) (v now : Value R.World) (s : Search) (k : ℕ)
        → ((w : R.World) (st : State) (items : List Item) → R.is_state texts w st → Settles items st no_work (Kept (settled items st)))
        → IsStanding (R.is_state texts) (R.term texts) (engine db n ((v, One k) ∷ older) now None) s
        → Comes (R.is_state texts) (R.term texts) steps (engine db n older v (Some k)) s }
    ensures clause { (texts : List Text) (db : Database) (n : ℕ) (older : Stack R.World) (v now : Value R.World) (s : Search) (t k : ℕ) (c : Clause)
        (cs : List Clause)
        → IsStanding (R.is_state texts) (R.term texts) (engine db n ((v, Clauses t (c ∷ cs) k) ∷ older) now None) s
        → (p : Place) × (goal : Tree) × (behind : List Branch)
        × (look_at s.branches ≡ Settling (clause_items p c) (clause_state p c) (clause_work p goal c) behind)
        × (R.term texts v.0 t ≡ Some goal) × IsPlace (R.is_state texts) (R.term texts) older v k p
        × AreWaiting (R.is_state texts) (R.term texts) ((v, Clauses t cs k) ∷ older) behind }
    ensures ended { (texts : List Text) (older : Stack R.World) (v : Value R.World) (t k : ℕ) (branches : List Branch)
        → AreWaiting (R.is_state texts) (R.term texts) ((v, Clauses t [] k) ∷ older) branches
        → AreWaiting (R.is_state texts) (R.term texts) older branches }
    ensures way { (texts : List Text) (db : Database) (n : ℕ) (older : Stack R.World) (v now : Value R.World) (s : Search) (k : ℕ) (a : Alternative)
        (ways : List Alternative)
        → IsStanding (R.is_state texts) (R.term texts) (engine db n ((v, Ways (a ∷ ways) k) ∷ older) now None) s
        → (p : Place) × (behind : List Branch)
        × (look_at s.branches ≡ Settling p.rest (with_new a.new p.state) (with_equations a.equations) behind)
        × IsPlace (R.is_state texts) (R.term texts) older v k p
        × AreWaiting (R.is_state texts) (R.term texts) ((v, Ways ways k) ∷ older) behind }
    ensures ways_ended { (texts : List Text) (older : Stack R.World) (v : Value R.World) (k : ℕ) (branches : List Branch)
        → AreWaiting (R.is_state texts) (R.term texts) ((v, Ways [] k) ∷ older) branches
        → AreWaiting (R.is_state texts) (R.term texts) older branches }
    ensures catches { (texts : List Text) (db : Database) (n : ℕ) (older : Stack R.World) (v now : Value R.World) (s : Search) (k : ℕ)
        → IsStanding (R.is_state texts) (R.term texts) (engine db n ((v, Catches k) ∷ older) now None) s
        → IsStanding (R.is_state texts) (R.term texts) (engine db n older v None) s }
    ensures caught { (texts : List Text) (db : Database) (n : ℕ) (older : Stack R.World) (v now : Value R.World) (s : Search) (ball : Tree) (c r k : ℕ)
        → IsStanding (R.is_state texts) (R.term texts) (engine db n ((v, Caught ball c r k) ∷ older) now None) s
        → TakesBall (R.is_state texts) (R.term texts) older v ball c r k s }
    ensures gathers { (texts : List Text) (steps : ℕ) (db : Database) (n : ℕ) (older : Stack R.World) (v now : Value R.World) (s : Search) (t : ℕ)
        (copies : List Tree) (k : ℕ)
        → ((w : R.World) (st : State) (items : List Item) → R.is_state texts w st → Settles items st no_work (Kept (settled items st)))
        → IsStanding (R.is_state texts) (R.term texts) (engine db n ((v, Gathers t copies k) ∷ older) now None) s
        → (r : Search) × Quietly steps s r × (r.database ≡ db) × (r.selected ≡ n) × MakesList (R.is_state texts) (R.term texts) older v t copies k r }
    ensures matches { (texts : List Text) (db : Database) (n : ℕ) (older : Stack R.World) (v now : Value R.World) (s : Search) (t : ℕ) (removes : Bool)
        (c : Clause) (cs : List Clause) (k : ℕ)
        → IsStanding (R.is_state texts) (R.term texts) (engine db n ((v, Matches t removes (c ∷ cs) k) ∷ older) now None) s
        → ComparesClause (R.is_state texts) (R.term texts) older v t removes c cs k s }
    ensures matches_ended { (texts : List Text) (older : Stack R.World) (v : Value R.World) (t : ℕ) (removes : Bool) (k : ℕ) (branches : List Branch)
        → AreWaiting (R.is_state texts) (R.term texts) ((v, Matches t removes [] k) ∷ older) branches
        → AreWaiting (R.is_state texts) (R.term texts) older branches }
{}

/// Copies that are put into a state are there under the next variables, one after another, and nothing is to be told of them.
pub fn copies_are_landed()
    ensures { (st : State) (copies : List Copied) (stored : List Tree) → AllZip IsStoredAs copies stored → IsLanded st stored (landed st copies) }
{}

/// Where the mark of a findall is in front, the choice at its height gathers, and one more copy is added there: that of the
/// template as it reads. Then the engine comes back.
pub fn copies_are_gathered<R: StateWorlds>()
    ensures gathers { (texts : List Text) (db : Database) (n : ℕ) (choices : Stack R.World) (now : Value R.World) (k rest : ℕ) (s : Search)
        → IsStanding (R.is_state texts) (R.term texts) (engine db n choices now (Some k)) s
        → (height t : ℕ) → items_at now.1 k ≡ Collect height t ∷ items_at now.1 rest
        → (height < length choices) × GathersAt choices height × ((x : Tree) × (R.term texts now.0 t ≡ Some x)) }
    ensures comes { (texts : List Text) (steps : ℕ) (db : Database) (n : ℕ) (newer older : Stack R.World) (v now : Value R.World) (k rest : ℕ)
        (s : Search) (l j : ℕ) (copies : List Tree)
        → IsStanding (R.is_state texts) (R.term texts) (engine db n (newer ++ (v, Gathers l copies j) ∷ older) now (Some k)) s
        → (t : ℕ) → items_at now.1 k ≡ Collect (length older) t ∷ items_at now.1 rest
        → (x : Tree) → R.term texts now.0 t ≡ Some x
        → Comes (R.is_state texts) (R.term texts) steps
        (engine db n (newer ++ (v, Gathers l (copies ++ renamed_from 0 x ∷ []) j) ∷ older) now None) s }
{}

/// With nothing left to do the search answers, and the world is its branch; with no choice left, and nothing to go on with, no
/// branch is left.
pub fn searches_end<R: StateWorlds>()
    ensures answered { (texts : List Text) (db : Database) (n : ℕ) (choices : Stack R.World) (now : Value R.World) (k : ℕ) (s : Search)
        → (j : IsStanding (R.is_state texts) (R.term texts) (engine db n choices now (Some k)) s) → items_at now.1 k ≡ []
        → (st : State) × (look_at s.branches ≡ Answering st j.behind) × R.is_state texts now.0 st }
    ensures over { (texts : List Text) (db : Database) (n : ℕ) (now : Value R.World) (s : Search)
        → IsStanding (R.is_state texts) (R.term texts) (engine db n [] now None) s
        → look_at s.branches ≡ Over }
{}

/// An engine that has a query's goal to do stands for the query's search.
pub fn queries_begin<R: StateWorlds>()
    ensures { (texts : List Text) (db : Database) (query : Tree) (n : ℕ) (now : Value R.World) (k t : ℕ)
        → R.is_state texts now.0 (empty_state n) → k < length now.1 → items_at now.1 k ≡ Goal t 0 ∷ []
        → R.term texts now.0 t ≡ Some (read (empty_state n) (as_goal query))
        → IsStanding (R.is_state texts) (R.term texts) (engine db 0 [] now (Some k)) (start db query n) }
{}

/// A ball is handed to the nearest end of a catch, whose choice keeps the world of the catch's call: the newer choices are cut, and
/// that one has the ball. Where there is none, nothing catches it.
pub fn balls_are_handed<R: StateWorlds>()
    ensures fits { (n : ℕ) (cells : List Cell) (c : ℕ × ℕ × ℕ × List Cell) → Fits n cells → nearest_catch cells ≡ Some c
        → (c.0 < n) × Fits c.0 c.3 }
    ensures caught { (texts : List Text) (choices : Stack R.World) (w : R.World) (st : State) (cells : List Cell) (items : List Item)
        (ball : Copied) (behind : List Branch) (c : ℕ × ℕ × ℕ × List Cell)
        → AreItems (R.is_state texts) (R.term texts) choices w st cells items → nearest_catch cells ≡ Some c
        → IsHanded (R.is_state texts) (R.term texts) choices ball items behind c }
    ensures waits { (texts : List Text) (choices : Stack R.World) (now : Value R.World) (k : ℕ) (items : List Item) (st : State) (ball : Copied)
        (stored : Tree) (behind : List Branch) (c : ℕ × ℕ × ℕ × List Cell)
        → IsContinuation (R.is_state texts) (R.term texts) choices now k items st → AreWaiting (R.is_state texts) (R.term texts) choices behind
        → nearest_catch (items_at now.1 k) ≡ Some c → IsStoredAs ball stored
        → (call : Value R.World × ℕ) × (catch_at choices c.0 ≡ Some call) × (next : List Branch) × (handed ball items behind ≡ Some next)
        × AreWaiting (R.is_state texts) (R.term texts) ((call.0, Caught stored c.1 c.2 call.1) ∷ last c.0 choices) next }
    ensures uncaught { (texts : List Text) (choices : Stack R.World) (w : R.World) (st : State) (cells : List Cell) (items : List Item)
        (ball : Copied) (behind : List Branch)
        → AreItems (R.is_state texts) (R.term texts) choices w st cells items → nearest_catch cells ≡ None
        → handed ball items behind ≡ None }
{}
