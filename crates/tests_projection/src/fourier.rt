// Eliminations worked by hand.
use crate::given::{Given, are_given, rows};
use cq_elimination::fourier::eliminated;
use cq_elimination::fourier::next::{Elimination, next_of};
use cq_frac::{Operation, Refusal, VarId};
use spec_linear::Relation;
use std::test::Fail;

const M: i128 = 170141183460469231731687303715884105727;

fn is_refused(
    fault: Option<Refusal>,
    operation: Operation,
    left: (i128, i128),
    right: (i128, i128),
) -> bool {
    match fault {
        None | Some(Refusal::NoMemory) => false,
        Some(Refusal::Overflow(pair)) => {
            pair.operation == operation && pair.left.parts() == left && pair.right.parts() == right
        }
    }
}

fn counts(next: Option<Elimination>) -> Option<(usize, usize, usize, usize)> {
    let next = next?;
    Some((next.variable.0, next.lower, next.upper, next.others))
}

// X, Y and Z are 0, 1 and 2: Y =< Z =< X, 1 < 2*Z, 0 =< Y, 3*Z =< 6
const BETWEEN: [Given; 5] = [
    (Relation::Ge, &[(1, -1, 1), (2, 1, 1)], 0, 1),
    (Relation::Ge, &[(0, 1, 1), (2, -1, 1)], 0, 1),
    (Relation::Gt, &[(2, 2, 1)], -1, 1),
    (Relation::Ge, &[(1, 1, 1)], 0, 1),
    (Relation::Ge, &[(2, -3, 1)], 6, 1),
];

// X =< Z, Y < Z, 0 =< X
const ABOVE: [Given; 3] = [
    (Relation::Ge, &[(0, -1, 1), (2, 1, 1)], 0, 1),
    (Relation::Gt, &[(1, -1, 1), (2, 1, 1)], 0, 1),
    (Relation::Ge, &[(0, 1, 1)], 0, 1),
];

#[test]
fn each_lower_row_meets_each_upper_one(rt: HostRuntime) -> Result<(), Fail> {
    let want: [Given; 5] = [
        (Relation::Ge, &[(1, 1, 1)], 0, 1),
        (Relation::Ge, &[(0, 1, 1), (1, -1, 1)], 0, 1),
        (Relation::Ge, &[(1, -1, 1)], 2, 1),
        (Relation::Gt, &[(0, 1, 1)], -1, 2),
        (Relation::Gt, &[], 3, 2),
    ];
    let left = eliminated(rt.alloc(), &rows(rt.alloc(), &BETWEEN)?, VarId(2))?;
    assert!(rt; are_given(&left, &want), "{left:?}");
    Ok(())
}

#[test]
fn rows_of_one_side_fall_away(rt: HostRuntime) -> Result<(), Fail> {
    let want: [Given; 1] = [(Relation::Ge, &[(0, 1, 1)], 0, 1)];
    let left = eliminated(rt.alloc(), &rows(rt.alloc(), &ABOVE)?, VarId(2))?;
    assert!(rt; are_given(&left, &want), "{left:?}");
    let same = eliminated(rt.alloc(), &rows(rt.alloc(), &ABOVE)?, VarId(9))?;
    assert!(rt; are_given(&same, &ABOVE), "{same:?}");
    Ok(())
}

#[test]
fn a_refusal_names_the_quotient_or_the_difference(rt: HostRuntime) -> Result<(), Fail> {
    // 2*Z >= Y/M: 1/M by 2
    let fine: [Given; 1] = [(Relation::Ge, &[(1, -1, M), (2, 2, 1)], 0, 1)];
    let quotient = eliminated(rt.alloc(), &rows(rt.alloc(), &fine)?, VarId(2)).err();
    assert!(rt; is_refused(quotient, Operation::Quotient, (-1, M), (2, 1)));
    // -M =< Z =< M
    let wide: [Given; 2] = [
        (Relation::Ge, &[(2, 1, 1)], M, 1),
        (Relation::Ge, &[(2, -1, 1)], M, 1),
    ];
    let difference = eliminated(rt.alloc(), &rows(rt.alloc(), &wide)?, VarId(2)).err();
    assert!(rt; is_refused(difference, Operation::Difference, (M, 1), (-M, 1)));
    Ok(())
}

#[test]
fn the_variable_with_the_fewest_pairs_comes_next(rt: HostRuntime) -> Result<(), Fail> {
    let between = rows(rt.alloc(), &BETWEEN)?;
    let (x, y, z) = (VarId(0), VarId(1), VarId(2));
    assert!(rt; counts(next_of(&between, &[z, y, x])) == Some((0, 1, 0, 4)));
    assert!(rt; counts(next_of(&between, &[y, z])) == Some((1, 1, 1, 3)));
    assert!(rt; counts(next_of(&between, &[VarId(7), z])) == Some((2, 2, 2, 1)));
    let four = next_of(&between, &[z]);
    assert!(rt; four.is_some_and(|next| next.pairs() == 4 && next.rows() == 5));
    // of two with as many pairs the older one, and none where none stands in the rows
    let above = rows(rt.alloc(), &ABOVE)?;
    assert!(rt; counts(next_of(&above, &[z, y])) == Some((1, 0, 1, 2)));
    assert!(rt; next_of(&above, &[VarId(3)]).is_none());
    Ok(())
}
