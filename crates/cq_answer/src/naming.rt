//! Names for all variables that an answer prints.

ghost use Rattle.std.specs.Prelude.{◌≡◌, ◌≤◌, ◌<◌, ◌+◌, ◌-◌, ◌^◌, ◌++◌, ◌∷◌, [], ℕ, List, drop, filter, length, string_bytes, vec_len, IfOk, OnOk};
ghost use Rattle.spec_terms.specs.VariableName.{VariableName as Named};
ghost use Rattle.spec_text.specs.Written.{counted_name};
ghost use Rattle.spec_answers.specs.Rows.{row_variables};
ghost use Rattle.cq_term.specs.Places.{numbers_of};
ghost use Rattle.cq_project.specs.Projecting.{rows_of};
ghost use Rattle.cq_answer.specs.Numbered.{counted, has_variable, AreCounted};

use crate::standing::stands_in;
use cq_frac::VarId;
use cq_project::Rows;
use cq_read::names::VariableName;
use itoa::Buffer;
use std::alloc::{AllocError, Global};

/// `_1`, `_2` and so on, of a number from 0 on.
fn counted_text(alloc: Global, number: usize) -> Result<String, AllocError>
    requires { number + 1 < 2 ^ 64 }
    ensures { IfOk result (λ name. string_bytes name ≡ counted_name number) }
{
    let mut buffer = Buffer::new();
    let mut name = String::new(alloc);
    name.push_str("_")?;
    name.push_str(buffer.format(number + 1))?;
    Ok(name)
}

/// Names one more variable, where all behind the first so many names are counted.
fn name_next(
    alloc: Global,
    names: &mut Vec<VariableName>,
    from: usize,
    variable: VarId,
) -> Result<(), AllocError>
    requires { from ≤ length names.old.items }
    ensures { OnOk result (names.new.items ≡ names.old.items ++ record { name = counted_name (length names.old.items - from); number = variable.0 } ∷ []) }
{
    let name = counted_text(alloc, names.len() - from)?;
    let Ok(()) = names.push(VariableName { name, variable }) else {
        return Err(AllocError);
    };
    Ok(())
}

/// Names these variables.
fn name_all(
    alloc: Global,
    names: &mut Vec<VariableName>,
    from: usize,
    variables: &[VarId],
) -> Result<(), AllocError>
    requires { from ≤ length names.old.items }
    ensures named { OnOk result ((first : List Named) (us : List ℕ) → AreCounted first us from names.old.items
        → AreCounted first (us ++ numbers_of variables.now) from names.new.items) }
    ensures longer { OnOk result (from ≤ length names.new.items) }
{
    'variables: for variable in variables {
        name_next(alloc, names, from, *variable)?;
    }
    Ok(())
}

/// Names those variables that are kept and stand in a row.
fn name_kept(
    alloc: Global,
    names: &mut Vec<VariableName>,
    from: usize,
    rows: &Rows,
) -> Result<(), AllocError>
    requires { from ≤ length names.old.items }
    ensures { OnOk result ((first : List Named) (us : List ℕ) → AreCounted first us from names.old.items
        → AreCounted first (us ++ filter (has_variable (row_variables (rows_of rows.now))) (numbers_of rows.now.kept.items)) from names.new.items) }
{
    'kept: for variable in &rows.kept {
        if stands_in(rows, *variable) {
            name_next(alloc, names, from, *variable)?;
        }
    }
    Ok(())
}

/// The names of all variables that are printed: those of the free query variables, which come first among the wanted ones, and
/// `_1`, `_2` and so on for the other wanted ones, and for those that are kept and stand in a row.
pub(crate) fn named_variables(
    alloc: Global,
    free: Vec<VariableName>,
    wanted: &[VarId],
    rows: &Rows,
) -> Result<Vec<VariableName>, AllocError>
    requires { length free.items ≤ length wanted.now }
    ensures { IfOk result (λ names. names.items ≡ free.items
        ++ counted 0 (drop (length free.items) (numbers_of wanted.now) ++ filter (has_variable (row_variables (rows_of rows.now))) (numbers_of rows.now.kept.items))) }
{
    let from = free.len();
    let mut names = free;
    name_all(alloc, &mut names, from, &wanted[from..])?;
    name_kept(alloc, &mut names, from, rows)?;
    Ok(names)
}
