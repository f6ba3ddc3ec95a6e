// What choices leave to try once a program has changed.

ghost use Rattle.std.specs.Prelude.{◌≡◌, List};
ghost use Rattle.spec_numbers.specs.Texts.{Text};
ghost use Rattle.spec_engine.specs.Cells.{Value};
ghost use Rattle.cq_resolve.specs.Database.{Program};
ghost use Rattle.cq_settle.specs.Contents.{Contents};
ghost use Rattle.cq_branch.specs.Choices.{AreOpen};
ghost use Rattle.cq_branch.specs.Worlds.{stack};
ghost use Rattle.cq_branch.specs.declared.alternatives.Alternatives.{Alternatives};
ghost use Rattle.cq_catch.specs.Revised.{KeepsShowing};

/// Choices leave the same to try over a program in which each walk goes on to show the same clauses, as it does through each change
/// (`crate::revise::walks_outlast_changes`). So they stand for the same branches.
pub fn choices_outlast_changes()
    ensures tried { (texts : List Text) (old new : Program) → KeepsShowing old new → (saved : List (Value Contents)) (choices : List Alternatives)
        → AreOpen texts old saved choices → AreOpen texts new saved choices }
    ensures same { (texts : List Text) (old new : Program) → KeepsShowing old new → (saved : List (Value Contents)) (choices : List Alternatives)
        → AreOpen texts old saved choices → stack texts new saved choices ≡ stack texts old saved choices }
{}
