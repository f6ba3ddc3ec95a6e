// The line of a query whose search is over.

ghost use Rattle.std.specs.Prelude.{◌≡◌, ◌++◌, codes, string_bytes, IfOk};
ghost use Rattle.spec_text.specs.Numbers.{whole_text};
ghost use Rattle.spec_command.specs.Outcome.{gen_line};

use std::alloc::{AllocError, Global};
use std::fmt::Write;

/// The line up to the value.
fn up_to_value(alloc: Global, number: u64) -> Result<String, AllocError>
    ensures { IfOk result (λ text. string_bytes text ≡ codes "n=" ++ whole_text number ++ codes " inf=") }
{
    format!(in alloc; "n={number} inf=")
}

/// The line behind the value.
fn behind_value(alloc: Global, answers: u64) -> Result<String, AllocError>
    ensures { IfOk result (λ text. string_bytes text ≡ codes " answers=" ++ whole_text answers ++ codes "\n") }
{
    format!(in alloc; " answers={answers}\n")
}

/// The line of a number, the text of a value, and how many answers came.
pub(crate) fn line_of(
    alloc: Global,
    number: u64,
    value: &[u8],
    answers: u64,
) -> Result<Vec<u8>, AllocError>
    ensures { IfOk result (λ line. line.items ≡ gen_line number value.now answers) }
{
    let first = up_to_value(alloc, number)?;
    let last = behind_value(alloc, answers)?;
    let mut line = Vec::new(alloc);
    line.extend_from_slice(first.as_bytes())?;
    line.extend_from_slice(value)?;
    line.extend_from_slice(last.as_bytes())?;
    Ok(line)
}
