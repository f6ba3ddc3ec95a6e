// What the heads of two terms say.

ghost use Rattle.std.specs.Prelude.{◌≡◌, ◌<◌, length, IsTrue, if◌then◌else◌};
ghost use Rattle.cq_term.specs.Meaning.{at};
ghost use Rattle.cq_term.specs.Ground.{IsGround};
ghost use Rattle.cq_unify.specs.OrderWork.{Compared};

use cq_frac::VarId;
use cq_term::{Heap, TermId, View};

/// What the heads of two terms say of the terms.
#[derive(Clone, Copy)]
pub(crate) enum Heads {
    /// Both are this number or this name.
    Same,
    /// One has another kind than the other, or another number, name or count of arguments.
    Different,
    Variables(VarId, VarId),
    /// Both are compounds of one name with so many arguments.
    Arguments(usize),
}

pub(crate) fn compare_heads(heap: &Heap, left: TermId, right: TermId) -> Heads
    requires left { left < length heap.now.now.terms }
    requires right { right < length heap.now.now.terms }
    ensures { Compared (at heap.now.now.terms left) (at heap.now.now.terms right) result }
{
    let shown = heap.view(right);
    match heap.view(left) {
        View::Var(v) => match shown {
            View::Var(w) => Heads::Variables(v, w),
            _ => Heads::Different,
        },
        View::Number(m) => match shown {
            View::Number(n) => same_or_different(m == n),
            _ => Heads::Different,
        },
        View::Name(a) => match shown {
            View::Name(b) => same_or_different(a == b),
            _ => Heads::Different,
        },
        View::Compound(f, n) => match shown {
            View::Compound(g, m) => {
                if f == g && n == m {
                    Heads::Arguments(n)
                } else {
                    Heads::Different
                }
            }
            _ => Heads::Different,
        },
    }
}

/// What two constants are to each other.
fn same_or_different(same: bool) -> Heads
    ensures { result ≡ (if same then Heads.Same else Heads.Different) }
{
    if same { Heads::Same } else { Heads::Different }
}

/// Whether two ids are the same, of a term that is known to have no variable.
pub(crate) fn is_one_ground_term(heap: &Heap, left: TermId, right: TermId) -> bool
    requires { left < length heap.now.now.terms }
    ensures same { IsTrue result → left ≡ right }
    ensures ground { IsTrue result → IsGround (at heap.now.now.terms left) }
{
    if left == right {
        heap.is_ground(left)
    } else {
        false
    }
}
