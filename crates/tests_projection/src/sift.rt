// Passes over rows worked by hand.

ghost use Rattle.std.specs.Prelude.{◌≡◌, ◌++◌, IfOk, IfSome, IsTrue};
ghost use Rattle.spec_linear.specs.Solution.{Solvable};

use crate::given::{Given, are_given, rows, tells};
use cq_form::Constraint;
use cq_project::sift::sift;
use cq_store::store::{Store, StoreFault};
use spec_linear::Relation;
use std::alloc::Global;
use std::test::Fail;

/// What a store is told, the rows of a pass, and those that it keeps.
struct Pass<'a> {
    told: &'a [Given<'a>],
    rows: &'a [Given<'a>],
    kept: &'a [Given<'a>],
}

// X, Y and Z are 0, 1 and 2.
const AT_LEAST: Given = (Relation::Ge, &[(0, 1, 1)], 0, 1);

const ABOVE: Given = (Relation::Gt, &[(0, 1, 1)], 0, 1);

const AT_LEAST_ONE: Given = (Relation::Ge, &[(0, 1, 1)], -1, 1);

const AT_LEAST_TWO: Given = (Relation::Ge, &[(0, 1, 1)], -2, 1);

const AT_MOST_NINE: Given = (Relation::Ge, &[(0, -1, 1)], 9, 1);

const OTHER_AT_LEAST: Given = (Relation::Ge, &[(1, 1, 1)], 0, 1);

const SUM_AT_LEAST: Given = (Relation::Ge, &[(0, 1, 1), (1, 1, 1)], 0, 1);

const OTHER_NOT_LESS: Given = (Relation::Ge, &[(0, -1, 1), (1, 1, 1)], 0, 1);

const THIRD_NOT_LESS: Given = (Relation::Ge, &[(1, -1, 1), (2, 1, 1)], 0, 1);

const THIRD_ABOVE_FIRST: Given = (Relation::Gt, &[(0, -1, 1), (2, 1, 1)], 0, 1);

const NOT_ZERO: Given = (Relation::Ne, &[(0, 1, 1)], 0, 1);

const NOT_FIVE: Given = (Relation::Ne, &[(0, 1, 1)], -5, 1);

static PASSES: [Pass; 9] = [
    // each but the last follows from a later one
    Pass {
        told: &[],
        rows: &[AT_LEAST, AT_LEAST_ONE, AT_LEAST_TWO],
        kept: &[AT_LEAST_TWO],
    },
    // of two equal rows the second stays, and of the two of one form the strict one
    Pass {
        told: &[],
        rows: &[AT_LEAST, AT_LEAST],
        kept: &[AT_LEAST],
    },
    Pass {
        told: &[],
        rows: &[AT_LEAST, ABOVE],
        kept: &[ABOVE],
    },
    Pass {
        told: &[],
        rows: &[ABOVE, AT_LEAST],
        kept: &[ABOVE],
    },
    // a sum follows from two others
    Pass {
        told: &[],
        rows: &[SUM_AT_LEAST, AT_LEAST, OTHER_AT_LEAST],
        kept: &[AT_LEAST, OTHER_AT_LEAST],
    },
    // X =< Y =< Z leaves X =< Z, but not X < Z
    Pass {
        told: &[],
        rows: &[OTHER_NOT_LESS, THIRD_ABOVE_FIRST, THIRD_NOT_LESS, AT_LEAST],
        kept: &[OTHER_NOT_LESS, THIRD_ABOVE_FIRST, THIRD_NOT_LESS, AT_LEAST],
    },
    // from what was told before
    Pass {
        told: &[AT_LEAST_TWO],
        rows: &[AT_LEAST_ONE, AT_MOST_NINE, AT_LEAST],
        kept: &[AT_MOST_NINE],
    },
    // of disequations, and beside them
    Pass {
        told: &[AT_LEAST_ONE],
        rows: &[NOT_ZERO, NOT_FIVE],
        kept: &[NOT_FIVE],
    },
    Pass {
        told: &[NOT_ZERO],
        rows: &[AT_LEAST, AT_MOST_NINE, ABOVE],
        kept: &[AT_MOST_NINE, ABOVE],
    },
];

/// Whether the rows can hold together with what is told.
pub(crate) fn can_hold(
    alloc: Global,
    told: &[Constraint],
    rows: &[Constraint],
) -> Result<bool, StoreFault>
    ensures { IfOk result (λ yes. IsTrue yes → Solvable (told.now ++ rows.now)) }
{
    let mut store = Store::new(alloc, 1000);
    if !tells(&mut store, told)? {
        return Ok(false);
    }
    tells(&mut store, rows)
}

/// A store that was told the rows, if they can hold.
fn store_of(alloc: Global, told: &[Constraint]) -> Result<Option<Store>, StoreFault>
    ensures { IfOk result (λ found. IfSome found (λ store. store.told ≡ told.now)) }
{
    let mut store = Store::new(alloc, 1000);
    if !tells(&mut store, told)? {
        return Ok(None);
    }
    Ok(Some(store))
}

/// The rows that the pass keeps, where they can hold together with what is told.
fn kept(
    alloc: Global,
    told: &[Constraint],
    rows: &[Constraint],
) -> Result<Option<Vec<Constraint>>, StoreFault> {
    if !can_hold(alloc, told, rows)? {
        return Ok(None);
    }
    let Some(mut store) = store_of(alloc, told)? else {
        return Ok(None);
    };
    Ok(Some(sift(alloc, &mut store, rows)?))
}

#[test]
fn what_follows_is_dropped_in_order(rt: HostRuntime) -> Result<(), Fail> {
    for pass in &PASSES {
        let told = rows(rt.alloc(), pass.told)?;
        let kept = kept(rt.alloc(), &told, &rows(rt.alloc(), pass.rows)?)?;
        assert!(rt;
            kept.as_ref().is_some_and(|rows| are_given(rows, pass.kept)),
            "{kept:?}"
        );
    }
    Ok(())
}
