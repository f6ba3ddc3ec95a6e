// What stands in a text: clauses with what a finding may say of them, and errors.

ghost use Rattle.std.specs.Prelude.{◌≡◌, IfOk};

use crate::predicates::Predicate;
use std::alloc::{AllocError, Global};
use std::marker::Model;

/// A variable where it stands in a text: the place of its first byte, and its name.
#[derive(Drop)]
pub struct Variable {
    pub at: usize,
    pub name: Vec<u8>,
}

impl Model for Variable {
    ghost use Rattle.cq_lint.specs.Named.{Named};

    ghost Value = { Named };

    ghost view = { λ v. record { at = v.at; name = v.name.items } };
}

impl Variable {
    /// The same once more.
    pub fn copy(&self, alloc: Global) -> Result<Variable, AllocError>
        ensures { IfOk result (λ v. v ≡ self.now) }
    {
        let name = self.name.to_vec(alloc)?;
        Ok(Variable { at: self.at, name })
    }
}

/// A clause, a directive or a query of a text.
#[derive(Drop)]
pub struct Clause {
    /// Where it begins.
    pub at: usize,
    /// The predicate of which it is a clause.
    pub head: Option<Predicate>,
    /// The predicates that it calls, each once.
    pub calls: Vec<Predicate>,
    /// The predicates that it declares dynamic.
    pub dynamic: Vec<Predicate>,
    /// The predicates whose clauses may stand apart by it.
    pub scattered: Vec<Predicate>,
    pub is_query: bool,
    /// All that stand in it, in order.
    pub variables: Vec<Variable>,
}

/// What stands at a place of a text.
#[derive(Drop)]
pub enum Sentence {
    /// No clause: the byte at which it isn't one.
    Fault(usize),
    Clause(Clause),
}
