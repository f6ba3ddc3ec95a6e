//! The texts of numbers and of variables without a name.

ghost use Rattle.std.specs.Prelude.{◌≡◌, ◌++◌, ◌+◌, ◌<◌, ◌^◌, OnOk, string_bytes};
ghost use Rattle.spec_text.specs.Numbers.{number_text};
ghost use Rattle.spec_text.specs.Written.{counted_name};

use cq_frac::Frac;
use itoa::Buffer;
use std::alloc::AllocError;

/// A number in lowest terms: `N`, or `NrD`.
pub(crate) fn push_number(out: &mut String, number: Frac) -> Result<(), AllocError>
    ensures { OnOk result (string_bytes out.new ≡ string_bytes out.old ++ number_text number) }
{
    let (numerator, denominator) = number.parts();
    let mut buffer = Buffer::new();
    out.push_str(buffer.format(numerator))?;
    if denominator != 1 {
        out.push_str("r")?;
        out.push_str(buffer.format(denominator))?;
    }
    Ok(())
}

/// `_1`, `_2` and so on, of a number from 0 on.
pub(crate) fn push_counted(out: &mut String, number: usize) -> Result<(), AllocError>
    requires { number + 1 < 2 ^ 64 }
    ensures { OnOk result (string_bytes out.new ≡ string_bytes out.old ++ counted_name number) }
{
    let mut buffer = Buffer::new();
    out.push_str("_")?;
    out.push_str(buffer.format(number + 1))?;
    Ok(())
}
