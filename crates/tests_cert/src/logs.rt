// Logs, lawful ones and damaged ones, worked by hand.

use cq_cert::check_log;
use spec_log::Verdict;
use std::alloc::Global;
use std::test::Fail;

static LOGS: [(&str, Verdict); 45] = [
    // x >= 1 and x =< 0
    (
        "clpq proof 1\nlist 2\nge -1 1:1\nge 0 1:-1\nrun 1:1 2:1\ndone 1\n",
        Verdict::Accepted(1),
    ),
    // the multipliers leave a variable
    (
        "clpq proof 1\nlist 2\nge -1 1:1\nge 0 1:-1\nrun 1:1 2:2\ndone 1\n",
        Verdict::Wrong(5),
    ),
    // the last line is missing
    (
        "clpq proof 1\nlist 2\nge -1 1:1\nge 0 1:-1\nrun 1:1 2:1\n",
        Verdict::Wrong(6),
    ),
    ("clpq proof 1\ndone 0\n", Verdict::Accepted(0)),
    // a false constraint alone
    (
        "clpq proof 1\nlist 1\neq 1\nrun 1:-1\ndone 1\n",
        Verdict::Accepted(1),
    ),
    // 0 > 0
    (
        "clpq proof 1\nlist 2\ngt 0 1:1\nge 0 1:-1\nrun 1:2 2:2\ndone 1\n",
        Verdict::Accepted(1),
    ),
    // two runs
    (
        "clpq proof 1\nlist 3\nge 0 1:1 2:-1\nge 0 1:-1 2:1\nne 0 1:1 2:-1\nrun 3:1 2:1\nrun 3:-1 1:1\ndone 1\n",
        Verdict::Accepted(1),
    ),
    (
        "clpq proof 1\nlist 3\neq -3 1:1 2:1\nge -4 1:1\nge 0 2:1\nrun 1:-1 2:1 3:1\ndone 1\n",
        Verdict::Accepted(1),
    ),
    (
        "clpq proof 1\nlist 2\nge -1 1:1\nge 0 1:-1\nrun 1:1 2:1\nlist 2\neq -1r2 1:1\nne -1r2 1:1\nrun 2:1 1:-1\nrun 2:-1 1:1\ndone 2\n",
        Verdict::Accepted(2),
    ),
    (
        "clpq proof 1\nlist 2\nge -170141183460469231731687303715884105727 1:1\nge 0 1:-1\nrun 1:1 2:1\ndone 1\n",
        Verdict::Accepted(1),
    ),
    // the constants add up to -2M
    (
        "clpq proof 1\nlist 3\nge -170141183460469231731687303715884105727 1:1\nge -170141183460469231731687303715884105727 2:1\nge 0 1:-1 2:-1\nrun 1:1 2:1 3:1\ndone 1\n",
        Verdict::Wide(6),
    ),
    // wide and no refutation at one line: wide
    (
        "clpq proof 1\nlist 2\nge -2 1:1\nge 0 1:-1\nrun 1:170141183460469231731687303715884105727 2:1\ndone 1\n",
        Verdict::Wide(5),
    ),
    (
        "clpq proof 1\nlist 3\neq 0 1:1\nne 0 1:1\nge -2 2:1\nrun 2:1 1:-1\nrun 2:-1 1:1 3:170141183460469231731687303715884105727\ndone 1\n",
        Verdict::Wide(7),
    ),
    // -M+M fits in this order, and is 0 > 0
    (
        "clpq proof 1\nlist 3\nge -170141183460469231731687303715884105727 1:1\ngt 170141183460469231731687303715884105727 1:-1\nge 0 1:-1\nrun 1:1 2:1 3:0\ndone 1\n",
        Verdict::Accepted(1),
    ),
    // another head
    (
        "clpq proof 2\nlist 2\nge -1 1:1\nge 0 1:-1\nrun 1:1 2:1\ndone 1\n",
        Verdict::Wrong(1),
    ),
    // a fraction that is not in lowest terms
    (
        "clpq proof 1\nlist 2\nge -2r2 1:1\nge 0 1:-1\nrun 1:1 2:1\ndone 1\n",
        Verdict::Wrong(3),
    ),
    // a coefficient 0
    (
        "clpq proof 1\nlist 2\nge -1 1:1\nge 0 1:0\nrun 1:1 2:1\ndone 1\n",
        Verdict::Wrong(4),
    ),
    // a negative multiplier of an inequality
    (
        "clpq proof 1\nlist 2\nge -1 1:1\nge 0 1:-1\nrun 1:-1 2:-1\ndone 1\n",
        Verdict::Wrong(5),
    ),
    // 0 >= 0 is no contradiction
    (
        "clpq proof 1\nlist 2\nge 0 1:1\nge 0 1:-1\nrun 1:1 2:1\ndone 1\n",
        Verdict::Wrong(5),
    ),
    // one entry, and not two
    (
        "clpq proof 1\nlist 2\nge -1 1:1\nge 0 1:-1\nrun 1:1 2:1\ndone 2\n",
        Verdict::Wrong(6),
    ),
    // a blank line behind done
    (
        "clpq proof 1\nlist 2\nge -1 1:1\nge 0 1:-1\nrun 1:1 2:1\ndone 1\n\n",
        Verdict::Wrong(7),
    ),
    // an empty file
    ("", Verdict::Wrong(1)),
    // no member to name
    ("clpq proof 1\nlist 0\nrun 1:1\ndone 1\n", Verdict::Wrong(3)),
    (
        "clpq proof 1\nlist 1\nne 0\nrun 1:1\nrun 1:-1\nrun 1:1\ndone 1\n",
        Verdict::Wrong(6),
    ),
    // the second run is no run: line 5, not 4
    (
        "clpq proof 1\nlist 1\nne 0\nrun 1:1\nrun 1:-01\ndone 1\n",
        Verdict::Wrong(5),
    ),
    (
        "clpq proof 1\nlist 1\nne 0\nrun 1:1\nrun 1:1\ndone 1\n",
        Verdict::Wrong(5),
    ),
    // the run is wrong, and the end is missing: line 5
    (
        "clpq proof 1\nlist 2\nge -1 1:1\nge 0 1:-1\nrun 1:1 2:2\n",
        Verdict::Wrong(5),
    ),
    (
        "clpq proof 1\r\nlist 2\r\nge -1 1:1\r\nge 0 1:-1\r\nrun 1:1 2:1\r\ndone 1\r\n",
        Verdict::Wrong(1),
    ),
    (
        "clpq proof 1\nlist 1\neq 1 2:1 1:1\nrun 1:1\ndone 1\n",
        Verdict::Wrong(3),
    ),
    // a fraction
    (
        "clpq proof 1\nlist 1\nge -1r2\nrun 1:2\ndone 1\n",
        Verdict::Accepted(1),
    ),
    // a plus
    (
        "clpq proof 1\nlist 1\nge +1\nrun 1:1\ndone 1\n",
        Verdict::Wrong(3),
    ),
    // a digit behind a first 0
    (
        "clpq proof 1\nlist 1\nge -01\nrun 1:1\ndone 1\n",
        Verdict::Wrong(3),
    ),
    // zero with a sign
    (
        "clpq proof 1\nlist 1\nge -0\nrun 1:1\ndone 1\n",
        Verdict::Wrong(3),
    ),
    // a denominator 1
    (
        "clpq proof 1\nlist 1\nge -1r1\nrun 1:1\ndone 1\n",
        Verdict::Wrong(3),
    ),
    // 2^127
    (
        "clpq proof 1\nlist 1\nge -170141183460469231731687303715884105728\nrun 1:1\ndone 1\n",
        Verdict::Wrong(3),
    ),
    // a blank at the end
    (
        "clpq proof 1\nlist 1\nge -1 \nrun 1:1\ndone 1\n",
        Verdict::Wrong(3),
    ),
    // two blanks
    (
        "clpq proof 1\nlist 1\nge  -1\nrun 1:1\ndone 1\n",
        Verdict::Wrong(3),
    ),
    // no such member
    (
        "clpq proof 1\nlist 1\nge -1\nrun 2:1\ndone 1\n",
        Verdict::Wrong(4),
    ),
    // a run without an entry
    (
        "clpq proof 1\nlist 1\nge -1\nrun\ndone 1\n",
        Verdict::Wrong(4),
    ),
    // a variable's number is left out
    (
        "clpq proof 1\nlist 1\nge -1 2:1\nrun 1:1\ndone 1\n",
        Verdict::Wrong(3),
    ),
    // the last line has no end
    (
        "clpq proof 1\nlist 1\nge -1\nrun 1:1\ndone 1",
        Verdict::Wrong(5),
    ),
    // neither has the run's
    ("clpq proof 1\nlist 1\nge 1\nrun 1:1", Verdict::Wrong(4)),
    // two members are missing
    (
        "clpq proof 1\nlist 3\nge -1\nrun 1:1\ndone 1\n",
        Verdict::Wrong(4),
    ),
    // the run is missing
    ("clpq proof 1\nlist 1\nge -1\n", Verdict::Wrong(4)),
    // nothing behind the head
    ("clpq proof 1\n", Verdict::Wrong(2)),
];

/// Whether the check finds this of the text.
fn is_found(alloc: Global, text: &str, wanted: Verdict) -> Result<bool, Fail> {
    let log = text.as_bytes();
    Ok(log.len() < 1_000 && check_log(alloc, log)? == wanted)
}

/// The place of the first log of which something else is found.
fn first_wrong(alloc: Global) -> Result<Option<usize>, Fail> {
    for (place, &(text, wanted)) in LOGS.iter().enumerate() {
        if !is_found(alloc, text, wanted)? {
            return Ok(Some(place));
        }
    }
    Ok(None)
}

#[test]
fn logs_are_checked(rt: HostRuntime) -> Result<(), Fail> {
    assert_eq!(rt; first_wrong(rt.alloc())?, None);
    Ok(())
}
