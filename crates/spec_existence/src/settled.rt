//! Settling always comes to an end: closures exist, and branches are kept or pruned. No code: each function has an empty
//! body, and its contract is a law of the definitions.
#![tactic(auto)]

ghost use Rattle.std.specs.Prelude.{List};
ghost use Rattle.spec_linear.specs.Solution.{Constraint};
ghost use Rattle.spec_projection.specs.Lists.{AreForms};
ghost use Rattle.spec_numbers.specs.Texts.{Text};
ghost use Rattle.spec_terms.specs.Term.{Subst};
ghost use Rattle.spec_syntax.specs.Trees.{Tree};
ghost use Rattle.spec_branch.specs.Branch.{Item, State, Pending, Branch};
ghost use Rattle.spec_branch.specs.Closure.{IsClosure};
ghost use Rattle.spec_branch.specs.Settling.{Outcome, Settles, Kept};
ghost use Rattle.spec_existence.specs.Bounded.{IsBounded};

/// From any list of linear constraints and any waiting terms some moves lead to where none is possible: each takes one of the
/// waiting terms.
pub fn closures_exist()
    ensures { (s : Subst Text) (l : List Constraint) (w : List Tree)
        → (m : List Constraint) × (x : List Tree) × IsClosure s l w m x }
{}

/// Where finitely many variables are numeric, a branch with work to do is kept or pruned, and one that is kept has finitely
/// many again. Where linear constraints list their products in order, those of a branch that is kept do so.
pub fn branches_settle()
    ensures outcome { (items : List Item) (st : State) (p : Pending) → IsBounded st
        → (o : Outcome) × Settles items st p o }
    ensures bounded { (items : List Item) (st : State) (p : Pending) (b : Branch) → IsBounded st
        → Settles items st p (Kept b) → IsBounded b.state }
    ensures in_order { (items : List Item) (st : State) (p : Pending) (b : Branch) → AreForms st.linear → AreForms p.rows
        → Settles items st p (Kept b) → AreForms b.state.linear }
{}
