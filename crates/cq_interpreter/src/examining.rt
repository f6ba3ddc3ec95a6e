// An interpreter that is asked the query of a number.

ghost use Rattle.std.specs.Prelude.{◌≡◌, IfOk};
ghost use Rattle.cq_session.specs.Counting.{gen_names};

use crate::generated::query_on;
use crate::toplevel::Toplevel;
use cq_frac::VarId;
use cq_read::names::VariableName;
use cq_session::generating::Examined;
use cq_write::{Style, write_term};
use std::alloc::{AllocError, Global};

/// The names of the query of a number: V alone has one.
fn names_for(alloc: Global, number: usize) -> Result<Vec<VariableName>, AllocError>
    ensures { IfOk result (λ names. names.items ≡ gen_names number) }
{
    let mut names = Vec::new(alloc);
    names.push(VariableName {
        name: String::from_str(alloc, "V")?,
        variable: VarId(number),
    })?;
    Ok(names)
}

impl Examined for Toplevel {
    fn examine(&mut self, number: u64) -> Result<(), AllocError> {
        let alloc = self.engine.machine.world.first.heap.alloc();
        self.engine.end();
        let number = number as usize;
        let names = names_for(alloc, number)?;
        let goal = query_on(&mut self.engine, number)?;
        self.ask(goal, names)
    }

    fn value(&self, number: u64) -> Result<Vec<u8>, AllocError> {
        let machine = &self.engine.machine;
        let heap = &machine.world.first.heap;
        let id = heap.var_term(VarId(number as usize));
        write_term(
            heap,
            &machine.atoms,
            &machine.ops,
            id,
            Style::Quoted,
            1200,
            &[],
        )
    }
}
