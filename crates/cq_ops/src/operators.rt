// The operators of one position, by name.
ghost use Rattle.std.specs.Prelude.{◌≡◌, OnOk, OnErr};
ghost use Rattle.std.specs.FinMap as map;
ghost use Rattle.cq_ops.specs.Tables.{change};

use cq_term::atoms::Atom;
use spec_syntax::operators::OpDef;
use std::alloc::{AllocError, Global};
use std::collections::HashMap;
use std::marker::Model;

/// A finite map from names to operators.
#[derive(Drop)]
pub(crate) struct Operators {
    entries: HashMap<Atom, OpDef>,
}

impl Model for Operators {
    ghost use Rattle.std.specs.FinMap as map;
    ghost use Rattle.std.specs.Ordering.{nat_cmp};
    ghost use Rattle.cq_ops.specs.Code.{operators_code};
    ghost use Rattle.spec_syntax.specs.declared.operators.OpDef.{OpDef};

    ghost Value = { map.FinMap nat_cmp OpDef };

    ghost coded = { operators_code };

    ghost view = { λ operators. map.from_entries operators.entries.entries };
}

impl Clone for Operators {
    ghost is_clone = { λ operators copy. copy ≡ operators };

    fn clone(&self) -> Result<Operators, AllocError> {
        Ok(Operators {
            entries: self.entries.clone()?,
        })
    }
}

impl Operators {
    /// A table without operators. It takes no memory.
    pub fn new(alloc: Global) -> Operators
        ensures { result ≡ map.empty }
    {
        Operators {
            entries: HashMap::new(alloc),
        }
    }

    /// What the name is as an operator of this class; none where it is none.
    pub fn get(&self, name: Atom) -> Option<OpDef>
        ensures { result ≡ map.get self.now name }
    {
        self.entries.get(&name).copied()
    }

    /// Sets the operator that a name is, or takes it away.
    pub fn set(&mut self, name: Atom, op: Option<OpDef>) -> Result<(), AllocError>
        ensures ok { OnOk result (self.new ≡ change self.old name op) }
        ensures err { OnErr result (self.new ≡ self.old) }
    {
        match op {
            Some(op) => self.insert(name, op),
            None => {
                self.remove(name);
                Ok(())
            }
        }
    }

    fn insert(&mut self, name: Atom, op: OpDef) -> Result<(), AllocError>
        ensures ok { OnOk result (self.new ≡ map.insert self.old name op) }
        ensures err { OnErr result (self.new ≡ self.old) }
    {
        self.entries.insert(name, op)?;
        Ok(())
    }

    fn remove(&mut self, name: Atom)
        ensures { self.new ≡ map.remove self.old name }
    {
        self.entries.remove(&name);
    }
}
