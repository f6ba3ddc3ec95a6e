// Rows of small dictionaries by hand: rows that come to zero, that can cross it, and that stay on one side.
use crate::problems::{Problem, is_feasible, made};
use cq_simplex::SimplexFault;
use cq_tableau::level::choosing::lightest_column;
use cq_tableau::level::levelling::{Levelled, level};
use std::alloc::{AllocError, Global};
use std::test::Fail;

const AT_ZERO: Problem = Problem {
    restricted_columns: 1,
    free_columns: 0,
    rows: &[],
    asked: (&[(0, 1, 1)], 0),
};

const FREE_COLUMN: Problem = Problem {
    restricted_columns: 1,
    free_columns: 1,
    rows: &[],
    asked: (&[(0, 1, 1), (1, -1, 1)], 3),
};

const RISES: Problem = Problem {
    restricted_columns: 1,
    free_columns: 0,
    rows: &[],
    asked: (&[(0, 1, 1)], -1),
};

const FALLS: Problem = Problem {
    restricted_columns: 1,
    free_columns: 0,
    rows: &[],
    asked: (&[(0, -1, 1)], 1),
};

const COMES_UP: Problem = Problem {
    restricted_columns: 1,
    free_columns: 0,
    rows: &[(&[(0, -1, 1)], 1)],
    asked: (&[(0, 1, 1)], -1),
};

const COMES_DOWN: Problem = Problem {
    restricted_columns: 2,
    free_columns: 0,
    rows: &[(&[(0, -1, 1)], 1), (&[(1, -1, 1)], 1)],
    asked: (&[(0, -1, 1), (1, -1, 1)], 2),
};

const PASSES: Problem = Problem {
    restricted_columns: 1,
    free_columns: 0,
    rows: &[(&[(0, -1, 1)], 2)],
    asked: (&[(0, 1, 1)], -1),
};

const STAYS_BELOW: Problem = Problem {
    restricted_columns: 1,
    free_columns: 0,
    rows: &[],
    asked: (&[(0, -1, 1)], -1),
};

const STAYS_ABOVE: Problem = Problem {
    restricted_columns: 2,
    free_columns: 0,
    rows: &[(&[(0, -1, 1)], 1), (&[(1, -1, 1)], 1)],
    asked: (&[(0, -1, 1), (1, -1, 1)], 3),
};

const LARGE: Problem = Problem {
    restricted_columns: 1,
    free_columns: 0,
    rows: &[(
        &[(0, -1, 170_141_183_460_469_231_731_687_303_715_884_105_727)],
        3,
    )],
    asked: (&[(0, 1, 2)], -1),
};

// By the second column alone it comes to zero.
const FURTHER: Problem = Problem {
    restricted_columns: 2,
    free_columns: 0,
    rows: &[(&[(0, -1, 1)], 1), (&[(1, -1, 1)], 5)],
    asked: (&[(0, 1, 1), (1, 1, 1)], -5),
};

// A search may make so many exchanges, after a climb of as many.
static CASES: [(&Problem, u64, &str); 14] = [
    (&AT_ZERO, 0, "level"),
    (&FREE_COLUMN, 0, "crossing by 1"),
    (&RISES, 0, "crossing by 0"),
    (&FALLS, 0, "crossing by 0"),
    (&COMES_UP, 0, "0 pivots and no end"),
    (&COMES_UP, 1, "level"),
    (&COMES_DOWN, 0, "0 pivots and no end"),
    (&COMES_DOWN, 1, "level"),
    (&FURTHER, 1, "level"),
    (&PASSES, 1, "crossing by 0"),
    (&STAYS_BELOW, 0, "short"),
    (&STAYS_ABOVE, 0, "0 pivots and no end"),
    (&STAYS_ABOVE, 1, "short"),
    (&LARGE, 1, "a number past 128 bits"),
];

const SPREAD: Problem = Problem {
    restricted_columns: 1,
    free_columns: 2,
    rows: &[(&[(1, 1, 1), (2, 1, 1)], 0), (&[(0, 1, 1), (1, 1, 1)], 0)],
    asked: (&[(0, 1, 1), (1, 1, 1), (2, 5, 1)], 1),
};

fn shown(alloc: Global, levelled: Result<Levelled, SimplexFault>) -> Result<String, AllocError> {
    match levelled {
        Ok(Levelled::Level) => String::from_str(alloc, "level"),
        Ok(Levelled::Crossing(column)) => format!(in alloc; "crossing by {column}"),
        Ok(Levelled::Short) => String::from_str(alloc, "short"),
        Err(fault) => format!(in alloc; "{fault}"),
    }
}

fn answer(alloc: Global, problem: &Problem, budget: u64) -> Result<String, Fail> {
    let (mut dict, row) = made(alloc, problem)?;
    if row < dict.count() && dict.is_row(row) && !dict.is_restricted(row) {
        if is_feasible(&dict) {
            return Ok(shown(alloc, level(&mut dict, row, budget))?);
        }
    }
    Ok(String::from_str(alloc, "not feasible")?)
}

/// The place of the first case with another answer.
fn first_wrong(alloc: Global) -> Result<Option<usize>, Fail> {
    for (place, (problem, budget, expected)) in CASES.iter().enumerate() {
        if answer(alloc, *problem, *budget)?.as_str() != *expected {
            return Ok(Some(place));
        }
    }
    Ok(None)
}

#[test]
fn rows_are_levelled(rt: HostRuntime) -> Result<(), Fail> {
    assert_eq!(rt; first_wrong(rt.alloc())?, None);
    Ok(())
}

fn lightest(alloc: Global, problem: &Problem) -> Result<Option<usize>, Fail> {
    let (dict, row) = made(alloc, problem)?;
    if row < dict.count() && dict.is_row(row) {
        return Ok(lightest_column(&dict, row)?);
    }
    Ok(None)
}

#[test]
fn a_column_of_few_rows_is_chosen(rt: HostRuntime) -> Result<(), Fail> {
    assert_eq!(rt; lightest(rt.alloc(), &SPREAD)?, Some(2));
    assert_eq!(rt; lightest(rt.alloc(), &FREE_COLUMN)?, Some(1));
    assert_eq!(rt; lightest(rt.alloc(), &RISES)?, None);
    Ok(())
}
