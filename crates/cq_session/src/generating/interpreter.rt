// What `gen` asks of an interpreter.

ghost use Rattle.std.specs.Prelude.{◌≡◌, ◌<◌, ◌≤◌, IfOk, OnOk};
ghost use Rattle.spec_syntax.specs.Operators.{Ops};
ghost use Rattle.spec_branch.specs.Branch.{State};
ghost use Rattle.spec_search.specs.Search.{start};
ghost use Rattle.spec_command.specs.Outcome.{value_text};
ghost use Rattle.spec_command.specs.Query.{query, variables};
ghost use Rattle.cq_session.specs.Counting.{gen_names};

use crate::transcript::Interpreter;
use std::alloc::AllocError;

/// An interpreter that is asked the query of a number. An error of a call is want of memory.
pub trait Examined: Interpreter {
    /// Begins the query of a number, of which V alone has a name.
    fn examine(&mut self, number: u64) -> Result<(), AllocError>
        requires kept { Self.kept self.old }
        requires some { 0 < number }
        requires few { number ≤ 200 }
        ensures stands { OnOk result (Self.stands self.new (start (Self.program self.old).database (query number) (variables number))) }
        ensures names { OnOk result (Self.names self.new ≡ gen_names number) }
        ensures budgets { Self.budgets self.new ≡ Self.budgets self.old }
        ensures kept { Self.kept self.new };

    /// V as it reads in the answer that was told last, as by writeq.
    fn value(&self, number: u64) -> Result<Vec<u8>, AllocError>
        requires kept { Self.kept self.now }
        requires told { (st : State) × (ops : Ops) × Self.is_answer self.now st ops }
        requires named { Self.names self.now ≡ gen_names number }
        ensures { IfOk result (λ text. (st : State) (ops : Ops) → Self.is_answer self.now st ops → text.items ≡ value_text number ops st) };
}
