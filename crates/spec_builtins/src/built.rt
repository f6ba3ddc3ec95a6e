//! Terms that are built by name: errors, indicators, lists, bodies of clauses. Definitions, with no code.
#![tactic(auto)]

ghost use Rattle.std.specs.Prelude.{◌≡◌, codes, pos, [], ◌∷◌};
ghost use Rattle.spec_terms.specs.Term.{Var};
ghost use Rattle.spec_syntax.specs.Trees.{list_tree};
ghost use Rattle.spec_builtins.specs.Built.{atom, compound1, compound2, natural, indicator, indicator_of};
ghost use Rattle.spec_builtins.specs.Errors.{error_ball, existence_error};
ghost use Rattle.spec_builtins.specs.Bodies.{converted_body};
ghost use Rattle.spec_builtins.specs.Kinds.{parts};

/// Small terms.
pub fn examples()
    ensures body { converted_body (compound2 "," (Var 0) (compound2 ";" (atom "a") (Var 1)))
        ≡ compound2 "," (compound1 "call" (Var 0)) (compound2 ";" (atom "a") (compound1 "call" (Var 1))) }
    ensures indicator { indicator_of (compound2 "foo" (Var 0) (Var 0)) ≡ indicator (codes "foo") 2 }
    ensures list { parts (list_tree (atom "a" ∷ Var 0 ∷ []))
        ≡ record { elements = atom "a" ∷ Var 0 ∷ []; tail = atom "[]" } }
{}
