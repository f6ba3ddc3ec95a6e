// What an engine is made of.

ghost use Rattle.std.specs.Prelude.{◌≡◌, [], ◌∷◌, IfOk};
ghost use Rattle.spec_search.specs.Database.{initial};
ghost use Rattle.cq_settle.specs.Contents.{nothing};
ghost use Rattle.cq_branch.specs.Worlds.{KnowsNothing};
ghost use Rattle.cq_machine.specs.Machines.{now, saved, database_of, IsSound};

use crate::names::Names;
use cq_branch::{Alternatives, Searching};
use cq_clauses::Clauses;
use cq_control::{Choices, Continuations};
use cq_ops::{Ops, more_names_keep_the_table};
use cq_resolve::program::{
    ProgramClause, changes_are_those_of_the_database, programs_stay_programs,
};
use cq_settle::world::World;
use cq_term::atoms::Atoms;
use cq_trail::Both;
use std::alloc::{AllocError, Global};

/// The world of a search with what is left to do and to try, and the program.
#[derive(Drop)]
pub struct Machine {
    /// Terms and constraints, and what each continuation has to do: both go back to a choice together.
    pub world: Searching,
    /// What is left to try.
    pub choices: Choices<Alternatives>,
    /// The names of the terms.
    pub atoms: Atoms,
    /// Those among them that it knows.
    pub names: Names,
    /// The operators by which goals read and write.
    pub ops: Ops,
    /// The program's clauses.
    pub clauses: Clauses<ProgramClause>,
}

impl Machine {
    /// A machine without clauses, with the operators at the start, that knows no term and has nothing to do. A call of it may
    /// make as many exchanges as `pivots` says.
    pub fn new(alloc: Global, pivots: u64) -> Result<Machine, AllocError>
        ensures sound { IfOk result IsSound }
        ensures program { IfOk result (λ m. database_of m ≡ initial) }
        ensures now { IfOk result (λ m. now m ≡ (nothing pivots, [] ∷ [])) }
        ensures nothing { IfOk result (λ m. KnowsNothing m.atoms (now m).0) }
        ensures saved { IfOk result (λ m. saved m ≡ []) }
        ensures choices { IfOk result (λ m. m.choices ≡ []) }
    {
        changes_are_those_of_the_database();
        programs_stay_programs();
        more_names_keep_the_table();
        let mut atoms = Atoms::new(alloc);
        let ops = Ops::standard(alloc, &mut atoms)?;
        let names = Names::new(alloc, &mut atoms)?;
        let first = World::new(alloc, pivots);
        let second = Continuations::new(alloc);
        Ok(Machine {
            world: Both { first, second },
            choices: Choices::new(alloc),
            atoms,
            names,
            ops,
            clauses: Clauses::new(alloc),
        })
    }
}
