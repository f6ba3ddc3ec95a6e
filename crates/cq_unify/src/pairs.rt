// Pairs of terms that are still to be made equal, and the comparison of two terms at their heads.

ghost use Rattle.std.specs.Prelude.{◌≡◌, ◌<◌, length, All, IfOk, if◌then◌else◌};
ghost use Rattle.cq_term.specs.Pairs.{IsLive};
ghost use Rattle.cq_unify.specs.Work.{Demands, Narrowed};

use cq_frac::VarId;
use cq_term::walk::{Pair, push_pairs};
use cq_term::{Heap, TermId, View};
use std::alloc::AllocError;

/// What it takes to make two terms equal, by their heads.
#[derive(Clone, Copy)]
pub(crate) enum Demand {
    /// Nothing: they are equal.
    Same,
    /// Nothing makes them equal.
    Clash,
    /// The variable becomes the term.
    Bind(VarId, TermId),
    /// So many arguments become equal, pair by pair.
    Arguments(usize),
}

/// What is to be done next to make the pairs of a list equal.
#[derive(Clone, Copy)]
pub(crate) enum Step {
    /// Nothing: they are equal.
    Done,
    /// Nothing makes them equal.
    Clash,
    /// The variable becomes the term, and then the pairs that are left become equal.
    Bind(VarId, TermId),
}

/// Takes pairs off the list, and puts pairs of arguments in their place, until there is a variable to bind, a clash,
/// or no pair left.
pub(crate) fn next(heap: &Heap, work: &mut Vec<Pair>) -> Result<Step, AllocError>
    requires { All (IsLive heap.now.now.terms) work.old.items }
    ensures { IfOk result (Narrowed heap.now.now work.old.items work.new.items) }
{
    while let Some(pair) = work.pop() {
        match demand_of(heap, pair.left, pair.right) {
            Demand::Same => {}
            Demand::Clash => return Ok(Step::Clash),
            Demand::Bind(variable, term) => return Ok(Step::Bind(variable, term)),
            Demand::Arguments(arity) => push_pairs(heap, pair.left, pair.right, arity, work)?,
        }
    }
    Ok(Step::Done)
}

/// Terms that share an id are equal, and are not looked into. Of two variables the younger is to be bound.
#[inline(always)]
pub(crate) fn demand_of(heap: &Heap, left: TermId, right: TermId) -> Demand
    requires left { left < length heap.now.now.terms }
    requires right { right < length heap.now.now.terms }
    ensures { Demands heap.now.now left right result }
{
    if left == right {
        return Demand::Same;
    }
    let shown = heap.view(right);
    match heap.view(left) {
        View::Var(v) => match shown {
            View::Var(w) => {
                if v.0 < w.0 {
                    Demand::Bind(w, left)
                } else if w.0 < v.0 {
                    Demand::Bind(v, right)
                } else {
                    Demand::Same
                }
            }
            _ => Demand::Bind(v, right),
        },
        View::Number(m) => match shown {
            View::Var(w) => Demand::Bind(w, left),
            View::Number(n) => same_or_clash(m == n),
            _ => Demand::Clash,
        },
        View::Name(a) => match shown {
            View::Var(w) => Demand::Bind(w, left),
            View::Name(b) => same_or_clash(a == b),
            _ => Demand::Clash,
        },
        View::Compound(f, n) => match shown {
            View::Var(w) => Demand::Bind(w, left),
            View::Compound(g, m) => {
                if f == g && n == m {
                    Demand::Arguments(n)
                } else {
                    Demand::Clash
                }
            }
            _ => Demand::Clash,
        },
    }
}

/// What it takes where the heads are constants.
fn same_or_clash(same: bool) -> Demand
    ensures { result ≡ (if same then Demand.Same else Demand.Clash) }
{
    if same { Demand::Same } else { Demand::Clash }
}
