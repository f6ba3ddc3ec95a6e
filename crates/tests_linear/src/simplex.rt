// Maxima of small dictionaries by hand, Beale's example (1955) among them, on which the rule of the greatest coefficient
// goes round in a circle: exchanges made, ties, columns without a limit, and numbers past 128 bits.
use crate::problems::{Problem, is_feasible, made};
use cq_frac::Frac;
use cq_frac::row::Entry;
use cq_simplex::climb::ascend;
use cq_simplex::{Aim, Max, SimplexFault, maximise};
use std::alloc::{AllocError, Global};
use std::test::Fail;

const TWO_COLUMNS: Problem = Problem {
    restricted_columns: 2,
    free_columns: 0,
    rows: &[(&[(0, -1, 1), (1, -1, 1)], 4)],
    asked: (&[(0, 1, 1), (1, 2, 1)], 0),
};

const BOX: Problem = Problem {
    restricted_columns: 3,
    free_columns: 0,
    rows: &[(&[(0, -1, 1)], 1), (&[(1, -1, 1)], 1), (&[(2, -1, 1)], 1)],
    asked: (&[(0, 1, 1), (1, 1, 1), (2, 1, 1)], 0),
};

const BEALE: Problem = Problem {
    restricted_columns: 4,
    free_columns: 0,
    rows: &[
        (&[(0, -1, 4), (1, 60, 1), (2, 1, 25), (3, -9, 1)], 0),
        (&[(0, -1, 2), (1, 90, 1), (2, 1, 50), (3, -3, 1)], 0),
        (&[(2, -1, 1)], 1),
    ],
    asked: (&[(0, 3, 4), (1, -150, 1), (2, 1, 50), (3, -6, 1)], 0),
};

const NO_ROW: Problem = Problem {
    restricted_columns: 1,
    free_columns: 0,
    rows: &[],
    asked: (&[(0, 1, 1)], 0),
};

const TIE: Problem = Problem {
    restricted_columns: 1,
    free_columns: 0,
    rows: &[(&[(0, 1, 1)], 0), (&[(0, -1, 1)], 2), (&[(0, -1, 1)], 2)],
    asked: (&[(0, 1, 1)], 0),
};

const FREE_COLUMN: Problem = Problem {
    restricted_columns: 1,
    free_columns: 1,
    rows: &[(&[(0, -1, 1)], 1)],
    asked: (&[(0, 1, 1), (1, -1, 1)], 0),
};

const FALLING: Problem = Problem {
    restricted_columns: 1,
    free_columns: 0,
    rows: &[],
    asked: (&[(0, -2, 1)], 0),
};

const LARGE: Problem = Problem {
    restricted_columns: 1,
    free_columns: 0,
    rows: &[(
        &[(0, -1, 170_141_183_460_469_231_731_687_303_715_884_105_727)],
        3,
    )],
    asked: (&[(0, 1, 1)], 0),
};

static CASES: [Case; 18] = [
    (&TWO_COLUMNS, Aim::Best, 1, "1 pivots and no end"),
    (&TWO_COLUMNS, Aim::Best, 2, "8 0:1 2:2"),
    (&TWO_COLUMNS, Aim::Positive, 0, "0 pivots and no end"),
    (&TWO_COLUMNS, Aim::Positive, 1, "positive"),
    (&BOX, Aim::Best, 2, "2 pivots and no end"),
    (&BOX, Aim::Best, 3, "3 3:1 4:1 5:1"),
    (&BEALE, Aim::Best, 256, "1r20 1:15 3:21r2 5:3r2 6:1r20"),
    (&BEALE, Aim::Best, 6, "1r20 1:15 3:21r2 5:3r2 6:1r20"),
    (&BEALE, Aim::Best, 5, "5 pivots and no end"),
    (&NO_ROW, Aim::Best, 1, "unbounded along 0"),
    (&NO_ROW, Aim::Positive, 0, "unbounded along 0"),
    (&TIE, Aim::Best, 1, "2 2:1"),
    (&FREE_COLUMN, Aim::Best, 0, "unbounded along 1"),
    (&FREE_COLUMN, Aim::Positive, 9, "unbounded along 1"),
    (&FALLING, Aim::Best, 0, "0 0:2"),
    (&FALLING, Aim::Positive, 0, "0 0:2"),
    (&LARGE, Aim::Best, 0, "a number past 128 bits"),
    (&LARGE, Aim::Positive, 1, "a number past 128 bits"),
];

fn shown_maximum(alloc: Global, value: Frac, multipliers: &[Entry]) -> Result<String, AllocError> {
    let mut text = format!(in alloc; "{value}")?;
    for m in multipliers {
        let multiplier = format!(in alloc; " {}:{}", m.quantity, m.factor)?;
        text.push_str(multiplier.as_str())?;
    }
    Ok(text)
}

fn shown(alloc: Global, found: &Result<Max, SimplexFault>) -> Result<String, AllocError> {
    match found {
        Ok(Max::At(value, multipliers)) => shown_maximum(alloc, *value, multipliers),
        Ok(Max::Positive) => String::from_str(alloc, "positive"),
        Ok(Max::Unbounded(column)) => format!(in alloc; "unbounded along {column}"),
        Err(fault) => format!(in alloc; "{fault}"),
    }
}

/// What the search finds, or the climb and the search.
fn answer(
    alloc: Global,
    problem: &Problem,
    climbs: bool,
    aim: Aim,
    budget: u64,
) -> Result<String, Fail> {
    let (mut dict, row) = made(alloc, problem)?;
    if row < dict.count() && dict.is_row(row) {
        if is_feasible(&dict) {
            let found = if climbs {
                ascend(&mut dict, alloc, row, aim, budget)
            } else {
                maximise(&mut dict, alloc, row, aim, budget)
            };
            return Ok(shown(alloc, &found)?);
        }
    }
    Ok(String::from_str(alloc, "not feasible")?)
}

/// A row that is asked in a way, under a limit, with the answer.
type Case<'a> = (&'a Problem<'a>, Aim, u64, &'a str);

/// The place of the first case with another answer.
fn first_wrong(alloc: Global, cases: &[Case], climbs: bool) -> Result<Option<usize>, Fail> {
    for (place, (problem, aim, budget, expected)) in cases.iter().enumerate() {
        if answer(alloc, *problem, climbs, *aim, *budget)?.as_str() != *expected {
            return Ok(Some(place));
        }
    }
    Ok(None)
}

#[test]
fn rows_have_their_maxima(rt: HostRuntime) -> Result<(), Fail> {
    assert_eq!(rt; first_wrong(rt.alloc(), &CASES, false)?, None);
    Ok(())
}

// Of the two columns the second gains 8 and the first 4. On the box one exchange of the climb and one of the search are not enough.
// On Beale's example the climb takes two exchanges, where the search by itself takes six.
static CLIMBS: [Case; 10] = [
    (&TWO_COLUMNS, Aim::Best, 0, "0 pivots and no end"),
    (&TWO_COLUMNS, Aim::Best, 1, "8 0:1 2:2"),
    (&TWO_COLUMNS, Aim::Positive, 1, "positive"),
    (&BOX, Aim::Best, 1, "1 pivots and no end"),
    (&BOX, Aim::Best, 2, "3 3:1 4:1 5:1"),
    (&BEALE, Aim::Best, 2, "1r20 1:15 3:21r2 5:3r2 6:1r20"),
    (&NO_ROW, Aim::Best, 1, "unbounded along 0"),
    (&FREE_COLUMN, Aim::Positive, 9, "unbounded along 1"),
    (&FALLING, Aim::Best, 0, "0 0:2"),
    (&LARGE, Aim::Best, 1, "a number past 128 bits"),
];

#[test]
fn rows_that_climb_have_their_maxima(rt: HostRuntime) -> Result<(), Fail> {
    assert_eq!(rt; first_wrong(rt.alloc(), &CLIMBS, true)?, None);
    Ok(())
}
