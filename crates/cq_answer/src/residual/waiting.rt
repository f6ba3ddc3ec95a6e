//! What waits.

ghost use Rattle.std.specs.Prelude.{◌≡◌, IfOk};
ghost use Rattle.cq_answer.specs.Shown.{all_waiting as all_waiting_of};

use cq_attr::{Attrs, Susp};
use std::alloc::{AllocError, Global};

/// The goals and constraints that wait, in the order of suspension.
pub(crate) fn all_waiting(alloc: Global, attrs: &Attrs) -> Result<Vec<Susp>, AllocError>
    ensures { IfOk result (λ all. all.items ≡ all_waiting_of attrs.now.now) }
{
    attrs.numbers_ascend();
    let numbers = attrs.waiting()?;
    let mut all = Vec::new(alloc);
    'numbers: for number in &numbers {
        all.push(*attrs.susp(*number))?;
    }
    Ok(all)
}
