// Variables eliminated from lists of inequalities, worked by hand.

ghost use Rattle.std.specs.Prelude.{IfOk, IfSome, IsTrue};
ghost use Rattle.spec_linear.specs.Solution.{Solvable};
ghost use Rattle.spec_projection.specs.Elimination.{IsInequality};
ghost use Rattle.spec_projection.specs.Partial.{AreInequalities};

use crate::given::{Given, are_given, rows};
use crate::sift::can_hold;
use cq_form::Constraint;
use cq_frac::VarId;
use cq_project::eliminate::{ProjectFault, eliminate};
use cq_store::store::StoreFault;
use spec_linear::Relation;
use std::alloc::Global;
use std::test::Fail;

/// Rows, the variables that are eliminated from them, how many rows there may be, and what comes out.
struct Elimination<'a> {
    rows: &'a [Given<'a>],
    variables: &'a [VarId],
    limit: u64,
    outcome: Outcome<'a>,
}

/// The rows that are left, or how many lower, upper and other rows of those given are too many.
enum Outcome<'a> {
    Left(&'a [Given<'a>]),
    TooMany(usize, usize, usize),
}

// U, V, W, Y are 0, 1, 2, 3, and X and Z are 4 and 5.
const AT_LEAST_U: Given = (Relation::Ge, &[(0, -1, 1), (4, 1, 1)], 0, 1);

const ABOVE_V: Given = (Relation::Gt, &[(1, -1, 1), (4, 1, 1)], 0, 1);

const AT_LEAST_V: Given = (Relation::Ge, &[(1, -1, 1), (4, 1, 1)], 0, 1);

const AT_MOST_W: Given = (Relation::Ge, &[(2, 1, 1), (4, -1, 1)], 0, 1);

const AT_MOST_Y: Given = (Relation::Ge, &[(3, 1, 1), (4, -1, 1)], 0, 1);

const TWICE_AT_MOST_W: Given = (Relation::Ge, &[(2, 1, 1), (4, -2, 1)], 0, 1);

const AT_LEAST_ONE: Given = (Relation::Ge, &[(4, 1, 1)], -1, 1);

const AT_LEAST_ZERO: Given = (Relation::Ge, &[(4, 1, 1)], 0, 1);

const Z_AT_LEAST_U: Given = (Relation::Ge, &[(0, -1, 1), (5, 1, 1)], 0, 1);

const Z_AT_MOST_Y: Given = (Relation::Ge, &[(3, 1, 1), (5, -1, 1)], 0, 1);

const X: VarId = VarId(4);

const Z: VarId = VarId(5);

static ELIMINATIONS: [Elimination; 7] = [
    // each lower row with each upper one
    Elimination {
        rows: &[AT_LEAST_U, AT_LEAST_V, AT_MOST_W, AT_MOST_Y],
        variables: &[X],
        limit: 4,
        outcome: Outcome::Left(&[
            (Relation::Ge, &[(0, -1, 1), (2, 1, 1)], 0, 1),
            (Relation::Ge, &[(0, -1, 1), (3, 1, 1)], 0, 1),
            (Relation::Ge, &[(1, -1, 1), (2, 1, 1)], 0, 1),
            (Relation::Ge, &[(1, -1, 1), (3, 1, 1)], 0, 1),
        ]),
    },
    // four rows are more than three
    Elimination {
        rows: &[AT_LEAST_U, AT_LEAST_V, AT_MOST_W, AT_MOST_Y],
        variables: &[X],
        limit: 3,
        outcome: Outcome::TooMany(2, 2, 0),
    },
    // strict where either is, each row divided by its coefficient
    Elimination {
        rows: &[ABOVE_V, TWICE_AT_MOST_W],
        variables: &[X],
        limit: 9,
        outcome: Outcome::Left(&[(Relation::Gt, &[(1, -1, 1), (2, 1, 2)], 0, 1)]),
    },
    // with no upper row nothing is left
    Elimination {
        rows: &[AT_LEAST_U, ABOVE_V],
        variables: &[X],
        limit: 0,
        outcome: Outcome::Left(&[]),
    },
    // what follows is dropped before
    Elimination {
        rows: &[AT_LEAST_ONE, AT_LEAST_ZERO, AT_MOST_W],
        variables: &[X],
        limit: 1,
        outcome: Outcome::Left(&[(Relation::Ge, &[(2, 1, 1)], -1, 1)]),
    },
    // the variable with the fewest pairs comes first
    Elimination {
        rows: &[
            AT_LEAST_U,
            AT_LEAST_V,
            AT_MOST_W,
            AT_MOST_Y,
            Z_AT_LEAST_U,
            Z_AT_MOST_Y,
        ],
        variables: &[X, Z],
        limit: 4,
        outcome: Outcome::TooMany(1, 1, 4),
    },
    // and then the other one, whose rows make one of the first's follow
    Elimination {
        rows: &[AT_LEAST_U, AT_MOST_Y, Z_AT_LEAST_U, Z_AT_MOST_Y],
        variables: &[Z, X],
        limit: 3,
        outcome: Outcome::Left(&[(Relation::Ge, &[(0, -1, 1), (3, 1, 1)], 0, 1)]),
    },
];

/// Whether the row is an inequality.
fn is_inequality(row: &Constraint) -> bool
    ensures { IsTrue result → IsInequality row.now.relation }
{
    match row.relation {
        Relation::Gt | Relation::Ge => true,
        Relation::Eq | Relation::Ne => false,
    }
}

fn are_inequalities(rows: &[Constraint]) -> bool
    ensures { IsTrue result → AreInequalities rows.now }
{
    'rows: for row in rows {
        if is_inequality(row) {
            continue;
        }
        return false;
    }
    true
}

/// The rows, where they can hold.
fn holding(alloc: Global, given: &[Given]) -> Result<Option<Vec<Constraint>>, StoreFault>
    ensures { IfOk result (λ found. IfSome found (λ rows. Solvable rows.items)) }
{
    let rows = rows(alloc, given)?;
    if !can_hold(alloc, &[], &rows)? {
        return Ok(None);
    }
    Ok(Some(rows))
}

/// What comes of the rows without the variables, where they are inequalities that can hold.
fn left(alloc: Global, given: &Elimination) -> Result<Option<Vec<Constraint>>, ProjectFault> {
    let rows = match holding(alloc, given.rows) {
        Ok(Some(rows)) => rows,
        Ok(None) => return Ok(None),
        Err(fault) => return Err(ProjectFault::from(fault)),
    };
    if !are_inequalities(&rows) {
        return Ok(None);
    }
    match eliminate(alloc, &rows, given.variables, 1000, given.limit) {
        Ok(left) => Ok(Some(left)),
        Err(fault) => Err(fault),
    }
}

fn is_outcome(found: &Result<Option<Vec<Constraint>>, ProjectFault>, given: &Elimination) -> bool {
    match (found, &given.outcome) {
        (Ok(Some(rows)), Outcome::Left(want)) => are_given(rows, want),
        (Err(ProjectFault::Rows(lower, upper, others, rows)), Outcome::TooMany(p, n, rest)) => {
            lower == p && upper == n && others == rest && are_given(rows, given.rows)
        }
        _ => false,
    }
}

#[test]
fn variables_go_one_after_the_other(rt: HostRuntime) -> Result<(), Fail> {
    for given in &ELIMINATIONS {
        let found = left(rt.alloc(), given);
        assert!(rt; is_outcome(&found, given), "{found:?}");
    }
    Ok(())
}
