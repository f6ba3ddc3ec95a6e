// Inputs that come byte by byte.

use crate::given::{Given, Pieces, does, input_of, written};
use spec_command::endings::Status;
use std::alloc::{AllocError, Global};
use std::test::Fail;

/// An input, what is written, and the status.
type Row = (&'static str, &'static str, Status);

static ROWS: [Row; 8] = [
    ("", "", Status::Done),
    (
        "?- {X>=0}, ({X=<1} ; {X>=2}).",
        "{X>=0}\n{X=<1}\n;\n{X>=2}\n;\nno\n",
        Status::Done,
    ),
    (
        "?- {X=1}. ?- {X=2}.",
        "X = 1\n;\nno\nX = 2\n;\nno\n",
        Status::Done,
    ),
    (
        "?- op(700,xfx,===>). ?- writeq(a===>b).",
        "true\n;\nno\na===>btrue\n;\nno\n",
        Status::Done,
    ),
    (
        "?- X = 'été', writeq(X), nl.",
        "été\nX = été\n;\nno\n",
        Status::Done,
    ),
    (
        "?- a b. true.",
        "error: syntax 5\ntrue\n;\nno\n",
        Status::Faulty,
    ),
    ("?- {X = ", "error: syntax 8\n", Status::Faulty),
    (
        "?- {X=170141183460469231731687303715884105727*2}. ?- {2*X+3=7}.",
        "stop: overflow\nX = 2\n;\nno\n",
        Status::Stopped,
    ),
];

/// The place of the first row that a run does otherwise.
fn first_wrong(alloc: Global) -> Result<Option<usize>, AllocError> {
    for (i, (input, out, status)) in ROWS.iter().enumerate() {
        let given = Given {
            pieces: Pieces::Bytes,
            ..input_of(&["run"], input.as_bytes())
        };
        if !does(alloc, given, written(out, *status))? {
            return Ok(Some(i));
        }
    }
    Ok(None)
}

#[test]
fn an_input_that_comes_byte_by_byte_is_answered(rt: HostRuntime) -> Result<(), Fail> {
    assert_eq!(rt; first_wrong(rt.alloc())?, None);
    Ok(())
}
