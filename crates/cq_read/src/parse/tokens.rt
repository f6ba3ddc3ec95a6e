// Tokens as the grammar sees them.

use cq_frac::{Frac, VarId};
use cq_term::atoms::Atom;

/// A token. A name and a sign say what stands directly behind them.
#[derive(Drop)]
pub enum Token {
    /// A variable of the heap, which must be unbound.
    Variable(VarId),
    Numeral(Frac),
    /// A text in double quotes.
    Codes(String),
    /// A name with no `(` directly behind it, and whether it is in quotes.
    Named(Atom, bool),
    /// A name with a `(` directly behind it.
    Functor(Atom),
    /// A `-` that is not in quotes, with a digit directly behind it.
    Minus,
    Open,
    Close,
    OpenList,
    CloseList,
    OpenCurly,
    CloseCurly,
    Comma,
    Bar,
    /// The full stop that ends a clause.
    End,
}
