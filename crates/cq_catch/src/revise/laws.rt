// What walks that were begun show once a program has changed.

ghost use Rattle.std.specs.Prelude.{◌≡◌, ◌<◌, ℕ, List, All, length};
ghost use Rattle.cq_term.specs.declared.names.Pred.{Pred};
ghost use Rattle.cq_resolve.specs.StoredValue.{ClauseValue};
ghost use Rattle.cq_clauses.specs.ClausesValue.{Adds, Declares, DeclaresAll, Removes};
ghost use Rattle.cq_clauses.specs.Walks.{IsWalk, KeepsReading, left};
ghost use Rattle.cq_clauses.specs.declared.list.End.{End};
ghost use Rattle.cq_clauses.specs.declared.procedures.Kind.{Kind};
ghost use Rattle.cq_clauses.specs.declared.walk.Walk.{Walk};
ghost use Rattle.cq_resolve.specs.Database.{Program};
ghost use Rattle.cq_catch.specs.Revised.{clause_key, KeepsShowing};

use cq_resolve::program::calls_read_the_database;

/// A walk goes on to show the clauses that it showed, with what they held, through each change of the program: as a clause is
/// added or removed, and as procedures are made dynamic.
pub fn walks_outlast_changes()
    ensures same { (v : Program) → KeepsShowing v v }
    ensures added { (end : End) (kind : Kind) (pred : Pred) (c : ClauseValue) (old new : Program) → Adds end kind pred c old new
        → KeepsReading clause_key old new → ((w : Walk) → IsWalk w old → All (λ n. n < length old.contents) (left clause_key w old))
        → KeepsShowing old new }
    ensures removed { (n : ℕ) (old new : Program) → Removes n old new → KeepsReading clause_key old new → KeepsShowing old new }
    ensures declared { (pred : Pred) (old new : Program) → Declares pred old new → KeepsReading clause_key old new → KeepsShowing old new }
    ensures all_declared { (preds : List Pred) (old new : Program) → DeclaresAll preds old new → KeepsReading clause_key old new → KeepsShowing old new }
    ensures further { (old mid new : Program) → KeepsShowing old mid → KeepsShowing mid new → KeepsShowing old new }
{
    calls_read_the_database();
}
