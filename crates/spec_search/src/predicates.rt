//! What a call of a predicate on terms or texts gives: its error, or its alternatives in order. No code: each function has
//! an empty body, and its contract is a law of the definitions.
#![tactic(auto)]

ghost use Rattle.std.specs.Prelude.{◌≡◌, ◌↔◌, Some, Contains};
ghost use Rattle.spec_syntax.specs.Trees.{Tree};
ghost use Rattle.spec_builtins.specs.Built.{Indicator, indicator_of};
ghost use Rattle.spec_builtins.specs.Terms.{arguments};
ghost use Rattle.spec_branch.specs.Branch.{read};
ghost use Rattle.spec_search.specs.Builtins.{Row, built, builtin_of};
ghost use Rattle.spec_search.specs.Replies.{Place};
ghost use Rattle.spec_search.specs.Steps.{Steps, Stepped};
ghost use Rattle.spec_search.specs.Predicates.{Predicate, predicate_named, arity};
ghost use Rattle.spec_search.specs.Calls.{solutions_of, stepped_by};

/// Each row of the table of the built-in predicates is the one that is found by its name and number of arguments, so none
/// stands there twice; a predicate on terms or texts has as many arguments as the table says.
pub fn predicates_are_found_by_name_and_arity()
    ensures once { (r : Row) → Contains built r → builtin_of r.indicator ≡ Some r.builtin }
    ensures arity { (i : Indicator) (q : Predicate) → predicate_named i ≡ Some q → i.arity ≡ arity q }
{}

/// A goal that calls a predicate on terms or texts has one step: the ball of the call's error, or the children of its
/// alternatives, in order.
pub fn calls_are_steps()
    ensures { (p : Place) (goal : Tree) (q : Predicate) → predicate_named (indicator_of goal) ≡ Some q → read p.state goal ≡ goal
        → (o : Stepped) → Steps p goal o ↔ (o ≡ stepped_by p goal (solutions_of q p.state.fresh (arguments goal))) }
{}
