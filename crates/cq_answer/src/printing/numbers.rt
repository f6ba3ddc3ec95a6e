//! The text of a number.

ghost use Rattle.std.specs.Prelude.{◌≡◌, ◌++◌, OnOk};
ghost use Rattle.spec_text.specs.Numbers.{number_text};

use cq_frac::Frac;
use itoa::Buffer;
use std::alloc::AllocError;

/// A number in lowest terms: `N`, or `NrD`.
pub(crate) fn push_number(out: &mut Vec<u8>, number: Frac) -> Result<(), AllocError>
    ensures { OnOk result (out.new.items ≡ out.old.items ++ number_text number) }
{
    let (numerator, denominator) = number.parts();
    let mut buffer = Buffer::new();
    out.extend_from_slice(buffer.format(numerator).as_bytes())?;
    if denominator != 1 {
        out.extend_from_slice(b"r")?;
        out.extend_from_slice(buffer.format(denominator).as_bytes())?;
    }
    Ok(())
}
