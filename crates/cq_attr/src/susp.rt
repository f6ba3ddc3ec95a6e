// What waits, and its number.

ghost use Rattle.std.specs.Prelude.{◌≡◌};

use cq_frac::VarId;
use cq_term::TermId;
use std::marker::Model;

/// What waits: a goal, with the variable that it is frozen on, or a constraint that is not linear yet.
#[derive(Clone, Copy, PartialEq, Eq)]
pub enum Susp {
    Goal(VarId, TermId),
    Delayed(TermId),
}

/// The number of what waits: a later one is greater.
#[derive(Clone, Copy, PartialEq, Eq, PartialOrd, Ord)]
pub struct SuspNo {
    number: usize,
}

impl Model for SuspNo {
    ghost use Rattle.std.specs.Prelude.{ℕ};

    ghost Value = { ℕ };

    ghost view = { λ n. n.number };

    ghost inverse = { λ n. record { number = n } };
}

impl SuspNo {
    pub(crate) fn new(number: usize) -> SuspNo
        ensures { result ≡ number }
    {
        SuspNo { number }
    }

    pub(crate) fn index(self) -> usize
        ensures { result ≡ self }
    {
        self.number
    }
}

/// What was suspended under a number, and whether it still waits.
#[derive(Clone, Copy)]
pub(crate) struct Slot {
    pub susp: Susp,
    pub waits: bool,
}
