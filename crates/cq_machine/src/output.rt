// The rows of output and of operators, by the arguments of the selected goal.

ghost use Rattle.std.specs.Prelude.{◌≡◌, ◌<◌, ℕ, List, length, IfOk, IfErr, OnOk, OnErr};
ghost use Rattle.spec_syntax.specs.Trees.{Tree};
ghost use Rattle.spec_branch.specs.Branch.{Branch};
ghost use Rattle.spec_builtins.specs.Terms as builtins;
ghost use Rattle.spec_search.specs.Changes.{write_row, op_row};
ghost use Rattle.spec_search.specs.Replies.{Place, outputs, changes};
ghost use Rattle.spec_search.specs.Builtins.{Newline};
ghost use Rattle.spec_search.specs.Rows.{nth, builtin_reply};
ghost use Rattle.cq_built.specs.Errors.{CanBeRaised};
ghost use Rattle.cq_branch.specs.Calls.{IsRaised};
ghost use Rattle.cq_term.specs.Meaning.{at};
ghost use Rattle.cq_term.specs.Shown.{arguments};
ghost use Rattle.cq_machine.specs.Machines.{terms, database_of, IsSound};
ghost use Rattle.cq_machine.specs.Stepping.{IsSelectedAt};

use crate::machine::Machine;
use cq_built::BuiltinFault;
use cq_goals::declarations::{OperatorGoal, declare_operators};
use cq_term::TermId;
use cq_write::{Style, write_term};
use std::alloc::AllocError;

/// The text that `write(T)` or `writeq(T)` shows: T by the operators of the moment, with no names for its variables.
pub fn write(m: &Machine, style: Style, goal: TermId) -> Result<Vec<u8>, AllocError>
    requires sound { IsSound m.now }
    requires goal { goal < length (terms m.now) }
    requires one { length (arguments (at (terms m.now) goal)) ≡ 1 }
    ensures row { IfOk result (λ text. (height rest : ℕ) (p : Place) (behind : List Branch) (g : Tree) → IsSelectedAt m.now goal height rest p behind g
        → write_row p style (nth (builtins.arguments g) 0) ≡ outputs p text.items) }
{
    let term = m.world.first.heap.arg(goal, 0);
    let text = write_term(
        &m.world.first.heap,
        &m.atoms,
        &m.ops,
        term,
        style,
        1200,
        &[],
    )?;
    Ok(text)
}

/// The text that `nl` shows.
pub fn newline(m: &Machine) -> Result<Vec<u8>, AllocError>
    ensures row { IfOk result (λ text. (p : Place) (ts : List Tree) → builtin_reply p Newline ts ≡ outputs p text.items) }
{
    let text = vec![in m.world.first.heap.alloc(); b'\n']?;
    Ok(text)
}

/// `op(P,K,N)`: the operators hold from the next text that is read or written. A fault is an error of the goal, or want of
/// memory; the operators are then as they were.
pub fn declare(m: &mut Machine, goal: TermId) -> Result<(), BuiltinFault>
    requires sound { IsSound m.old }
    requires goal { goal < length (terms m.old) }
    requires three { length (arguments (at (terms m.old) goal)) ≡ 3 }
    ensures row { OnOk result ((height rest : ℕ) (p : Place) (behind : List Branch) (g : Tree) → IsSelectedAt m.old goal height rest p behind g
        → op_row p (nth (builtins.arguments g) 0) (nth (builtins.arguments g) 1) (nth (builtins.arguments g) 2) ≡ changes p (database_of m.new)) }
    ensures fault { IfErr result (λ f. (height rest : ℕ) (p : Place) (behind : List Branch) (g : Tree) → IsSelectedAt m.old goal height rest p behind g
        → IsRaised m.old.atoms (terms m.old) f (op_row p (nth (builtins.arguments g) 0) (nth (builtins.arguments g) 1) (nth (builtins.arguments g) 2))) }
    ensures culprit { IfErr result (CanBeRaised m.old.atoms (terms m.old)) }
    ensures sound { IsSound m.new }
    ensures world { m.new.world ≡ m.old.world }
    ensures choices { m.new.choices ≡ m.old.choices }
    ensures atoms { m.new.atoms ≡ m.old.atoms }
    ensures names { m.new.names ≡ m.old.names }
    ensures clauses { m.new.clauses ≡ m.old.clauses }
    ensures err { OnErr result (m.new.ops ≡ m.old.ops) }
{
    let asked = OperatorGoal {
        priority: m.world.first.heap.arg(goal, 0),
        kind: m.world.first.heap.arg(goal, 1),
        names: m.world.first.heap.arg(goal, 2),
    };
    let world = &m.world;
    match declare_operators(&world.first.heap, &m.atoms, &mut m.ops, asked) {
        Ok(()) => Ok(()),
        Err(fault) => Err(fault),
    }
}
