// Loads, reads and writes that fail.

use crate::given::{Given, Pieces, Wanted, does, input_of};
use spec_command::endings::Status;
use std::alloc::{AllocError, Global};
use std::test::Fail;

/// A run that ends at a write that fails.
fn broken_at_a_write(out: &str) -> Wanted<'_> {
    Wanted {
        out,
        status: Status::WriteFault,
        line: "clpq: write failed\n",
    }
}

/// A run that ends at a read or a load that fails.
fn broken_at_a_read(out: &str) -> Wanted<'_> {
    Wanted {
        out,
        status: Status::ReadFault,
        line: "clpq: read failed\n",
    }
}

/// What the sink holds before each of its writes, a byte each.
static HELD: [&str; 10] = [
    "",
    "X",
    "X ",
    "X =",
    "X = ",
    "X = 2",
    "X = 2\n",
    "X = 2\n;",
    "X = 2\n;\n",
    "X = 2\n;\nn",
];

/// The place of the first write after whose failure a run doesn't end as it should.
fn first_write(alloc: Global) -> Result<Option<usize>, AllocError> {
    for (before, out) in HELD.iter().enumerate() {
        let given = Given {
            write_fails: &[before as u64 + 1],
            pieces: Pieces::Bytes,
            ..input_of(&["run"], b"?- {2*X+3=7}.")
        };
        if !does(alloc, given, broken_at_a_write(out))? {
            return Ok(Some(before));
        }
    }
    Ok(None)
}

/// The place of the first read after whose failure a run doesn't end as it should. The first query is decided by the blank behind
/// its full stop, the seventh byte, and the second is not.
fn first_read(alloc: Global) -> Result<Option<usize>, AllocError> {
    for before in 0..13_u64 {
        let given = Given {
            read_fails: &[before + 1],
            pieces: Pieces::Bytes,
            ..input_of(&["run"], b"{X=1}. {X=2}")
        };
        let out = if before < 7 { "" } else { "X = 1\n;\nno\n" };
        if !does(alloc, given, broken_at_a_read(out))? {
            return Ok(Some(before as usize));
        }
    }
    Ok(None)
}

/// The place of the first load after whose failure a run doesn't end as it should: the files before are consulted, and no later one
/// is asked for.
fn first_load(alloc: Global) -> Result<Option<usize>, AllocError> {
    for (before, out) in ["", "one", "onetwo"].iter().enumerate() {
        let given = Given {
            files: &[
                ("1.pl", ":- write(one)."),
                ("2.pl", ":- write(two)."),
                ("3.pl", ":- write(three)."),
            ],
            load_fails: &[before as u64 + 1],
            ..input_of(&["run", "1.pl", "2.pl", "3.pl"], b"?- true.")
        };
        if !does(alloc, given, broken_at_a_read(out))? {
            return Ok(Some(before));
        }
    }
    Ok(None)
}

#[test]
fn a_fault_ends_a_run_behind_what_came_before(rt: HostRuntime) -> Result<(), Fail> {
    assert_eq!(rt; first_write(rt.alloc())?, None);
    assert_eq!(rt; first_read(rt.alloc())?, None);
    assert_eq!(rt; first_load(rt.alloc())?, None);
    Ok(())
}
