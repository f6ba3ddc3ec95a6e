// What a term shows at its head.

use crate::atoms::Atom;
use cq_frac::{Frac, VarId};

/// The head of a term, read through bindings: a variable is unbound, a compound has its name and how many arguments.
#[derive(Clone, Copy, PartialEq, Eq)]
pub enum View {
    Var(VarId),
    Number(Frac),
    Name(Atom),
    Compound(Atom, usize),
}
