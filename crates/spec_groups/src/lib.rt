//! Solutions in groups. No code: each function has an empty body, and its contract is a law of the definitions.
#![tactic(auto)]

ghost use Rattle.std.specs.Prelude.{◌≡◌, List, [], ◌∷◌, codes};
ghost use Rattle.spec_terms.specs.Term.{Var, Name};
ghost use Rattle.spec_syntax.specs.Trees.{Tree};
ghost use Rattle.spec_builtins.specs.Built.{compound1, compound2};
ghost use Rattle.spec_branch.specs.Branch.{Copied, plain_copy};
ghost use Rattle.spec_groups.specs.Groups.{Groups, groups, free_variables, collected_term};

/// There are groups of each list of copies, and no others.
pub fn copies_are_grouped()
    ensures some { (cs : List Copied) → Groups cs (groups cs) }
    ensures one { (cs : List Copied) (gs hs : List (List Copied)) → Groups cs gs → Groups cs hs → gs ≡ hs }
{}

/// What is copied for `a(N,T)` with the template N, and for `N^a(N,T)` with the template T.
pub fn some_free_variables()
    ensures free { free_variables (Var 0) (compound2 "a" (Var 0) (Var 1)) ≡ 1 ∷ [] }
    ensures term { collected_term (Var 0) (compound2 "a" (Var 0) (Var 1))
        ≡ compound2 "-" (compound1 "v" (Var 1)) (Var 0) }
    ensures bound { free_variables (Var 1) (compound2 "^" (Var 0) (compound2 "a" (Var 0) (Var 1))) ≡ [] }
    ensures alone { collected_term (Var 1) (compound2 "^" (Var 0) (compound2 "a" (Var 0) (Var 1)))
        ≡ compound2 "-" (Name (codes "v")) (Var 1) }
    // a caret inside belongs to the goal
    ensures inside { free_variables (Var 2) (compound2 "," (Var 1) (compound2 "^" (Var 0) (Var 1))) ≡ 1 ∷ 0 ∷ [] }
{}

/// The first and the third of three copies have one free part; copies whose free parts are variants go together, unless these hold
/// a numeric variable.
pub fn some_groups()
    ensures names { let x : Copied = plain_copy (compound2 "-" (compound1 "v" (Name (codes "x"))) (Name (codes "1"))) in
        let y : Copied = plain_copy (compound2 "-" (compound1 "v" (Name (codes "y"))) (Name (codes "2"))) in
        let z : Copied = plain_copy (compound2 "-" (compound1 "v" (Name (codes "x"))) (Name (codes "3"))) in
        groups (x ∷ y ∷ z ∷ []) ≡ (x ∷ z ∷ []) ∷ (y ∷ []) ∷ [] }
    ensures variants { let x : Copied = plain_copy (compound2 "-" (compound1 "v" (Var 0)) (Name (codes "1"))) in
        let y : Copied = plain_copy (compound2 "-" (compound1 "v" (Var 5)) (Name (codes "2"))) in
        groups (x ∷ y ∷ []) ≡ (x ∷ y ∷ []) ∷ [] }
    ensures numeric { let x : Copied = record (plain_copy (compound2 "-" (compound1 "v" (Var 0)) (Name (codes "1")))) { numeric = 0 ∷ [] } in
        let y : Copied = plain_copy (compound2 "-" (compound1 "v" (Var 5)) (Name (codes "2"))) in
        groups (x ∷ y ∷ []) ≡ (x ∷ []) ∷ (y ∷ []) ∷ [] }
{}
