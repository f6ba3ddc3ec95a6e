//! Branches of the derivation, closures of waiting constraints, and settling. No code: each function has an empty
//! body, and its contract is a law of the definitions.
#![tactic(auto)]

pub mod told;

ghost use Rattle.std.specs.Prelude.{◌≡◌, ◌↔◌, ℕ, List, [], Bool, false, Option, None};
ghost use Rattle.spec_numbers.specs.Rational.{ℚ};
ghost use Rattle.spec_linear.specs.Solution.{Constraint, Point, number, Solvable, Fixes, Equivalent};
ghost use Rattle.spec_numbers.specs.Texts.{Text};
ghost use Rattle.spec_terms.specs.Term.{Subst};
ghost use Rattle.spec_terms.specs.Unifier.{Equation, IsUnifier, read_under};
ghost use Rattle.spec_syntax.specs.Trees.{Tree};
ghost use Rattle.spec_branch.specs.Checks.{constraint_error, members, halves};
ghost use Rattle.spec_branch.specs.Values.{IsMetAt};
ghost use Rattle.spec_branch.specs.Branch.{Item, State, Pending, Branch, no_work, read};
ghost use Rattle.spec_branch.specs.Closure.{IsClosure};
ghost use Rattle.spec_branch.specs.Settling.{Settles, Kept, Pruned, Why, NoSolution, kept_branch};
ghost use Rattle.spec_branch.specs.Meaning.{IsSolution, SolvesState, SolvesPending, IsSettled};
ghost use Rattle.spec_branch.specs.Alike.{SameClosure, SameBranch, with_linear, idle, no_values};

/// A closure has the solutions that there were before: points that solve the linear constraints and at which the waiting
/// terms are true.
pub fn closures_keep_the_solutions()
    ensures { (s : Subst Text) (l m : List Constraint) (w x : List Tree) → IsClosure s l w m x
        → (p : Point) → IsSolution s m x p ↔ IsSolution s l w p }
{}

/// A branch that is kept has the solutions that it had with its work to do, and one that is pruned for want of a solution
/// had none.
pub fn settling_keeps_the_solutions()
    ensures kept { (items : List Item) (st : State) (w : Pending) (b : Branch) → Settles items st w (Kept b)
        → (u : Subst Text) × IsUnifier (read_under st.bindings w.equations) u
        × ((p : Point) → SolvesState b.state p ↔ SolvesPending st w u p) }
    ensures pruned { (items : List Item) (st : State) (w : Pending) (l : List Constraint)
        → Settles items st w (Pruned (NoSolution l))
        → (u : Subst Text) × IsUnifier (read_under st.bindings w.equations) u
        × ((p : Point) → SolvesPending st w u p → ⊥) }
{}

/// Telling a constraint that is not refused and has no halves adds just that it is met: a branch that is kept has the
/// solutions at which it is, and one that is pruned for want of a solution had none such.
pub fn telling_adds_the_constraint()
    ensures kept { (st : State) (c : Tree) → constraint_error c ≡ None → halves c ≡ None → read st c ≡ c
        → (items : List Item) (b : Branch) → Settles items st (record no_work { told = members c }) (Kept b)
        → (p : Point) → SolvesState b.state p ↔ (SolvesState st p × IsMetAt (number p) c) }
    ensures pruned { (st : State) (c : Tree) → constraint_error c ≡ None → halves c ≡ None → read st c ≡ c
        → (items : List Item) (l : List Constraint) → Settles items st (record no_work { told = members c }) (Pruned (NoSolution l))
        → (p : Point) → SolvesState st p → IsMetAt (number p) c → ⊥ }
{}

/// A branch that is kept is settled: its linear constraints have a solution, no waiting term is linear or false over them,
/// and they fix no numeric variable that is unbound.
pub fn kept_branches_are_settled()
    ensures { (items : List Item) (st : State) (w : Pending) (b : Branch) → Settles items st w (Kept b) → IsSettled b.state }
{}

/// From lists with the same solutions, in whatever order waiting constraints become linear, solvable ends have
/// the same solutions, the same waiting terms in the same order, and the same fixed values.
pub fn any_order_gives_the_same()
    ensures { (s : Subst Text) (k l m n : List Constraint) (w x y : List Tree) → Equivalent k l
        → IsClosure s k w m x → IsClosure s l w n y → (f g : ℕ → Option ℚ) → Fixes m f → Fixes n g
        → Solvable m → Solvable n → SameClosure m x n y }
{}

/// Where one end is solvable, so is each other one.
pub fn any_order_is_as_solvable()
    ensures { (s : Subst Text) (k l m n : List Constraint) (w x y : List Tree) → Equivalent k l
        → IsClosure s k w m x → IsClosure s l w n y → (f : ℕ → Option ℚ) → Fixes m f
        → Solvable m → Solvable n }
{}

/// What settling comes to is determined by the solutions of the linear constraints, whatever their form and whatever
/// the order: a branch that is kept is never pruned, and is kept as one branch but for the form of its constraints.
pub fn settling_is_determined()
    ensures kept { (items : List Item) (st : State) (l : List Constraint) (p : Pending) (b c : Branch)
        → Equivalent st.linear l → Settles items st p (Kept b) → Settles items (with_linear l st) p (Kept c)
        → SameBranch b c }
    ensures never_both { (items : List Item) (st : State) (l : List Constraint) (p : Pending) (b : Branch) (why : Why)
        → Equivalent st.linear l → Settles items st p (Kept b)
        → Settles items (with_linear l st) p (Pruned why) → ⊥ }
{}

/// Where a branch settles, it settles in the same way from each list of linear constraints with the same solutions.
pub fn settling_in_each_form()
    ensures kept { (items : List Item) (st : State) (l : List Constraint) (p : Pending) (b : Branch) → Equivalent st.linear l
        → Settles items st p (Kept b) → (c : Branch) × Settles items (with_linear l st) p (Kept c) }
    ensures pruned { (items : List Item) (st : State) (l : List Constraint) (p : Pending) (why : Why) → Equivalent st.linear l
        → Settles items st p (Pruned why) → (other : Why) × Settles items (with_linear l st) p (Pruned other) }
{}

/// Where no variable is numeric, and nothing waits or sleeps, settling unifies the pairs and that is all.
pub fn settling_without_constraints()
    ensures { (items : List Item) (b : Subst Text) (numeric : ℕ → Bool) (next fresh : ℕ)
        → ((v : ℕ) → numeric v ≡ false) → (es : List (Equation Text)) (u : Subst Text) → IsUnifier (read_under b es) u
        → Settles items (idle b numeric next fresh) (record no_work { equations = es })
        (Kept (kept_branch items (idle b numeric next fresh) (record no_work { equations = es }) u [] [] no_values)) }
{}
