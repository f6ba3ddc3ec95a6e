// The rules at the ends of the range, against vectors by Python's `fractions`, with the printed text.
use cq_frac::{Frac, FracFault, Operation, Pair, VarId, difference, product, quotient, sum};
use std::alloc::{AllocError, Global};
use std::cmp::Ordering;
use std::test::Fail;

const M: i128 = i128::MAX;

/// An operation on two numbers by their parts, and what it comes to.
type Row = (Operation, (i128, i128), (i128, i128), &'static str);

static LIMITS: [Row; 26] = [
    (
        Operation::Sum,
        (170141183460469231731687303715884105726, 1),
        (1, 1),
        "170141183460469231731687303715884105727",
    ),
    (Operation::Sum, (M, 1), (1, 1), "a number past 128 bits"),
    (Operation::Sum, (-M, 1), (-1, 1), "a number past 128 bits"),
    (
        Operation::Sum,
        (-170141183460469231731687303715884105726, 1),
        (-1, 1),
        "-170141183460469231731687303715884105727",
    ),
    (Operation::Sum, (1, 6), (1, 10), "4r15"),
    (Operation::Sum, (M, 2), (-M, 6), "a number past 128 bits"),
    (
        Operation::Sum,
        (1, 85070591730234615865843651857942052864),
        (-1, 85070591730234615865843651857942052864),
        "0",
    ),
    (
        Operation::Sum,
        (1, 18446744073709551616),
        (1, 9223372036854775783),
        "27670116110564327399r170141183460469231270518701873145315328",
    ),
    (
        Operation::Sum,
        (1, 9223372036854775808),
        (1, 18446744073709551557),
        "27670116110564327365r170141183460469231187508353541452333056",
    ),
    (
        Operation::Sum,
        (1, M),
        (-1, 170141183460469231731687303715884105726),
        "a number past 128 bits",
    ),
    (
        Operation::Difference,
        (-M, 1),
        (1, 1),
        "a number past 128 bits",
    ),
    (
        Operation::Difference,
        (-170141183460469231731687303715884105726, 1),
        (1, 1),
        "-170141183460469231731687303715884105727",
    ),
    (Operation::Difference, (5, 6), (1, 3), "1r2"),
    (
        Operation::Product,
        (9223372036854775783, 1),
        (18446744073709551557, 1),
        "170141183460469230726339751698713544131",
    ),
    (
        Operation::Product,
        (18446744073709551557, 1),
        (18446744073709551557, 1),
        "a number past 128 bits",
    ),
    (Operation::Product, (M, 2), (-2, M), "-1"),
    (
        Operation::Product,
        (85070591730234615865843651857942052864, 1),
        (2, 1),
        "a number past 128 bits",
    ),
    (
        Operation::Product,
        (-85070591730234615865843651857942052864, 1),
        (M, 85070591730234615865843651857942052864),
        "-170141183460469231731687303715884105727",
    ),
    (Operation::Product, (0, 1), (-7, 3), "0"),
    (Operation::Product, (-6, 35), (-14, 9), "4r15"),
    (Operation::Quotient, (1, 1), (0, 1), "a division by zero"),
    (Operation::Quotient, (0, 1), (0, 1), "a division by zero"),
    (
        Operation::Quotient,
        (M, 1),
        (1, 2),
        "a number past 128 bits",
    ),
    (Operation::Quotient, (M, 1), (-M, 1), "-1"),
    (Operation::Quotient, (3, 4), (-9, 8), "-2r3"),
    (
        Operation::Quotient,
        (1, M),
        (2, 1),
        "a number past 128 bits",
    ),
];

fn apply(operation: Operation, left: Frac, right: Frac) -> Result<Frac, FracFault> {
    match operation {
        Operation::Sum => left.add(right),
        Operation::Difference => left.sub(right),
        Operation::Product => left.mul(right),
        Operation::Quotient => left.div(right),
    }
}

fn shown(alloc: Global, outcome: Result<Frac, FracFault>) -> Result<String, AllocError> {
    match outcome {
        Ok(number) => format!(in alloc; "{number}"),
        Err(fault) => format!(in alloc; "{fault}"),
    }
}

fn fraction(parts: (i128, i128)) -> Frac {
    Frac::new(parts.0, parts.1).unwrap_or(Frac::zero())
}

/// The place of the first row that comes to something else.
fn first_past_limits(alloc: Global) -> Result<Option<usize>, AllocError> {
    for (place, (operation, left, right, want)) in LIMITS.iter().enumerate() {
        let found = apply(*operation, fraction(*left), fraction(*right));
        if shown(alloc, found)?.as_str() != *want {
            return Ok(Some(place));
        }
    }
    Ok(None)
}

#[test]
fn operations_end_at_the_limits(rt: HostRuntime) -> Result<(), Fail> {
    assert_eq!(rt; first_past_limits(rt.alloc())?, None);
    Ok(())
}

static FRACTIONS: [((i128, i128), &str); 17] = [
    ((i128::MIN, i128::MIN), "1"),
    ((i128::MIN, 1), "a number past 128 bits"),
    ((i128::MIN, 2), "-85070591730234615865843651857942052864"),
    ((M, i128::MIN), "a number past 128 bits"),
    ((i128::MIN, 3), "a number past 128 bits"),
    ((1, i128::MIN), "a number past 128 bits"),
    ((2, i128::MIN), "-1r85070591730234615865843651857942052864"),
    ((0, -7), "0"),
    ((0, 0), "a division by zero"),
    ((i128::MIN, 0), "a division by zero"),
    ((6, -4), "-3r2"),
    ((-6, -4), "3r2"),
    ((M, M), "1"),
    ((i128::MIN, M), "a number past 128 bits"),
    ((14, 7), "2"),
    ((0, -5), "0"),
    ((1, M), "1r170141183460469231731687303715884105727"),
];

fn first_other_fraction(alloc: Global) -> Result<Option<usize>, AllocError> {
    for (place, (parts, want)) in FRACTIONS.iter().enumerate() {
        if shown(alloc, Frac::new(parts.0, parts.1))?.as_str() != *want {
            return Ok(Some(place));
        }
    }
    Ok(None)
}

#[test]
fn every_two_numbers_make_a_fraction_or_a_fault(rt: HostRuntime) -> Result<(), Fail> {
    assert_eq!(rt; first_other_fraction(rt.alloc())?, None);
    Ok(())
}

/// The number, or the pair that is refused; nothing of a quotient by zero.
fn told(alloc: Global, outcome: Option<Result<Frac, Pair>>) -> Result<String, AllocError> {
    match outcome {
        Some(Ok(number)) => format!(in alloc; "{number}"),
        Some(Err(pair)) => {
            format!(in alloc; "{:?} {} {}", pair.operation, pair.left, pair.right)
        }
        None => Ok(String::new(alloc)),
    }
}

fn tried(operation: Operation, left: Frac, right: Frac) -> Option<Result<Frac, Pair>> {
    match operation {
        Operation::Sum => Some(sum(left, right)),
        Operation::Difference => Some(difference(left, right)),
        Operation::Product => Some(product(left, right)),
        Operation::Quotient => {
            if right.is_zero() {
                None
            } else {
                Some(quotient(left, right))
            }
        }
    }
}

static REFUSALS: [Row; 8] = [
    (
        Operation::Sum,
        (M, 1),
        (2, 1),
        "Sum 170141183460469231731687303715884105727 2",
    ),
    (
        Operation::Difference,
        (-2, 1),
        (M, 1),
        "Difference -2 170141183460469231731687303715884105727",
    ),
    (
        Operation::Product,
        (2, 1),
        (M, 1),
        "Product 2 170141183460469231731687303715884105727",
    ),
    (
        Operation::Quotient,
        (M, 1),
        (1, 2),
        "Quotient 170141183460469231731687303715884105727 1r2",
    ),
    (Operation::Sum, (2, 1), (2, 1), "4"),
    (
        Operation::Difference,
        (2, 1),
        (M, 1),
        "-170141183460469231731687303715884105725",
    ),
    (Operation::Product, (2, 1), (2, 1), "4"),
    (Operation::Quotient, (2, 1), (1, 2), "4"),
];

fn first_other_refusal(alloc: Global) -> Result<Option<usize>, AllocError> {
    for (place, (operation, left, right, want)) in REFUSALS.iter().enumerate() {
        let found = tried(*operation, fraction(*left), fraction(*right));
        if told(alloc, found)?.as_str() != *want {
            return Ok(Some(place));
        }
    }
    Ok(None)
}

#[test]
fn a_refusal_tells_its_pair(rt: HostRuntime) -> Result<(), Fail> {
    assert_eq!(rt; first_other_refusal(rt.alloc())?, None);
    Ok(())
}

/// Order and signs of two close numbers, of which the first is the lesser.
fn stand_as_they_should(low: Frac, high: Frac) -> bool {
    low.cmp(high) == Ordering::Less
        && high.neg().cmp(low.neg()) == Ordering::Less
        && high > low
        && Ord::cmp(&low, &low) == Ordering::Equal
        && low == low
        && low.is_positive()
        && low.neg().is_negative()
}

#[test]
fn order_and_signs_of_close_numbers(rt: HostRuntime) -> Result<(), Fail> {
    assert!(rt; stand_as_they_should(Frac::new(M - 2, M - 1)?, Frac::new(M - 1, M)?));
    assert!(rt; Frac::zero().is_zero() && Frac::from(-3).cmp(Frac::one()) == Ordering::Less);
    assert!(rt; VarId(1) < VarId(2), "the younger has the greater number");
    Ok(())
}
