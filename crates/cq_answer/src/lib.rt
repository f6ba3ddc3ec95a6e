//! The text of an answer: bindings, rows, delayed constraints and suspended goals.
//!
//! An answer says what its branch leaves to the query's variables, in four parts, each in an order of its own:
//!
//! 1. The bindings, `X = f(Y)`, of the query variables that are bound, in the query's order (`residual`).
//! 2. The rows of the branch's linear constraints over the variables that are to be seen, by the projection of `cq_project`: equations, then inequalities,
//!    then disequations (`printing`). To be seen are the free query variables, the variables of what is bound, and those of what waits.
//! 3. The constraints that wait still, read under what is bound by now.
//! 4. The goals that are suspended on a variable, as `freeze(X, G)`.
//!
//! A variable that is printed and is none of the query's is `_1`, `_2` and so on (`naming`); rows have such a name only where a disequation can't be
//! said without it. `true` stands where there is no line. Together the rows leave the query's variables exactly the solutions of the branch's list.
#![tactic(auto)]

mod lines;
mod naming;
pub mod printing;
pub mod residual;
mod standing;

ghost use Rattle.std.specs.Prelude.{◌≡◌, ◌<◌, ℕ, All, Some, codes, length, map, slice_get, IfOk, IfErr};
ghost use Rattle.spec_linear.specs.Echelon.{AreDistinct};
ghost use Rattle.spec_branch.specs.Branch.{State};
ghost use Rattle.spec_simplex.specs.Answers.{IsProjectionDue};
ghost use Rattle.spec_answers.specs.Answer.{AnswerForm};
ghost use Rattle.spec_answers.specs.Targets.{wanted};
ghost use Rattle.cq_frac.specs.declared.Pair.{Pair};
ghost use Rattle.cq_write.specs.Meaning.{operators};
ghost use Rattle.cq_project.specs.Answering.{IsRefusedAnswering, IsSpentAnswering};
ghost use Rattle.cq_project.specs.declared.eliminate.ProjectFault.TheVariants.{Overflow, Pivots};
ghost use Rattle.cq_project.specs.EliminateFaults.{IfRows};
ghost use Rattle.cq_settle.specs.Rest.{IsReady, IsReadyAs};
ghost use Rattle.cq_settle.specs.Worlds.{now_of, saved_of};

use crate::lines::{Writing, lines_of};
use crate::naming::named_variables;
use crate::residual::{Residues, residues_of};
use cq_ops::Ops;
use cq_project::eliminate::ProjectFault;
use cq_project::project;
use cq_read::names::VariableName;
use cq_settle::world::World;
use cq_term::atoms::{Atom, Atoms};
use std::alloc::Global;

/// The lines of the answer that a world is, where these are the names of the query's variables: the query variables that are
/// bound, the rows of the linear constraints, the constraints that are delayed, and the goals that are suspended; `true` where
/// there is none. `freeze` is the atom of that name. The world is the same afterwards.
pub fn answer_lines(
    world: &mut World,
    atoms: &Atoms,
    ops: &Ops,
    freeze: Atom,
    names: &[VariableName],
) -> Result<Vec<u8>, ProjectFault>
    requires ready { IsReady atoms.now (now_of world.old) }
    requires freeze { slice_get atoms.now freeze ≡ Some (codes "freeze") }
    requires live { All (λ n. n.number < length world.old.heap.now.images) names.now }
    requires distinct { AreDistinct (map (λ n. n.number) names.now) }
    ensures answer { IfOk result (λ text. (st : State) → IsReadyAs atoms.now (now_of world.old) st
        → AnswerForm (operators atoms.now ops.now) names.now st text.items) }
    ensures overflow { (pair : Pair) → result ≡ Err (Overflow pair)
        → (st : State) → IsReadyAs atoms.now (now_of world.old) st → IsRefusedAnswering (wanted names.now st) st.linear pair }
    ensures pivots { (n : ℕ) → result ≡ Err (Pivots n)
        → (st : State) → IsReadyAs atoms.now (now_of world.old) st → (n ≡ world.old.store.pivots) × IsSpentAnswering (wanted names.now st) st.linear n }
    ensures limit { IfErr result (λ fault. (st : State) → IsReadyAs atoms.now (now_of world.old) st
        → IfRows fault (IsProjectionDue (wanted names.now st) st.linear 4096)) }
    ensures now { now_of world.new ≡ now_of world.old }
    ensures saved { saved_of world.new ≡ saved_of world.old }
{
    let alloc: Global = world.heap.alloc();
    let left = residues_of(&world.heap, &world.attrs, names)?;
    let Residues {
        free,
        waiting,
        wanted,
    } = left;
    let rows = match project(alloc, world.store.told(), &wanted, world.store.pivots()) {
        Ok(rows) => rows,
        Err(fault) => return Err(fault),
    };
    let given = named_variables(alloc, free, &wanted, &rows)?;
    let writing = Writing {
        atoms,
        ops,
        names: &given,
    };
    let text = lines_of(&mut world.heap, &writing, freeze, names, &waiting, &rows)?;
    Ok(text)
}
