// A name.

use cq_term::atoms::{Atom, Atoms};
use std::alloc::{AllocError, Global};

/// The atom `f` of a table of its own.
pub(crate) fn f_named(alloc: Global) -> Result<Atom, AllocError> {
    Atoms::new(alloc).intern("f")
}
