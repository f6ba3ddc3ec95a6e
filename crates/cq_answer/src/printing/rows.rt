//! The lines of rows: equations, inequalities and disequations, each in braces.

ghost use Rattle.std.specs.Prelude.{◌≡◌, ◌++◌, map, codes, OnOk};
ghost use Rattle.spec_numbers.specs.Rational.{0ℚ};
ghost use Rattle.spec_text.specs.Numbers.{number_text};
ghost use Rattle.spec_answers.specs.Answer.{braced};
ghost use Rattle.spec_answers.specs.Lines.{lines_text};
ghost use Rattle.spec_answers.specs.RowText.{related, linear_text as sum_text, equation_text};
ghost use Rattle.spec_answers.specs.Rows.{comparison_text, inequality_text, disequation_text, row_texts};
ghost use Rattle.cq_elimination.specs.Lines.{comparison_of, line_of, inequality_of, disequation_of};
ghost use Rattle.cq_equations.specs.Rows.{monomial_of, solved_of};
ghost use Rattle.cq_answer.specs.Names.{name_among};
ghost use Rattle.cq_answer.specs.Texts.{printed_rows};

use crate::printing::names::name_of;
use crate::printing::numbers::push_number;
use crate::printing::sums::{begins_with_minus, linear_text};
use cq_elimination::arrange::{Comparison, PrintedRow};
use cq_equations::project::Equation;
use cq_frac::{Frac, VarId};
use cq_read::names::VariableName;
use std::alloc::{AllocError, Global};

/// A row on a line of its own: one blank follows the relation where the right side begins with `-`.
fn push_line(
    out: &mut Vec<u8>,
    left: &[u8],
    relation: &[u8],
    right: &[u8],
) -> Result<(), AllocError>
    ensures { OnOk result (out.new.items ≡ out.old.items ++ (braced (related left.now relation.now right.now) ++ codes "\n")) }
{
    out.extend_from_slice(b"{")?;
    out.extend_from_slice(left)?;
    out.extend_from_slice(relation)?;
    if begins_with_minus(right) {
        out.extend_from_slice(b" ")?;
    }
    out.extend_from_slice(right)?;
    out.extend_from_slice(b"}\n")
}

/// The variable that is solved for, and what it is.
fn push_equation(
    alloc: Global,
    out: &mut Vec<u8>,
    names: &[VariableName],
    row: &Equation,
) -> Result<(), AllocError>
    ensures { OnOk result (out.new.items ≡ out.old.items ++ (braced (equation_text (name_among names.now) (solved_of row.now)) ++ codes "\n")) }
{
    let right = linear_text(alloc, names, &row.products, row.constant)?;
    push_line(out, name_of(names, row.variable).as_bytes(), b"=", &right)
}

/// Products, a relation, and a number.
fn push_related(
    alloc: Global,
    out: &mut Vec<u8>,
    names: &[VariableName],
    products: &[(VarId, Frac)],
    relation: &[u8],
    bound: Frac,
) -> Result<(), AllocError>
    ensures { OnOk result (out.new.items ≡ out.old.items
        ++ (braced (related (sum_text (name_among names.now) (map monomial_of products.now) 0ℚ) relation.now (number_text bound)) ++ codes "\n")) }
{
    let left = linear_text(alloc, names, products, Frac::zero())?;
    let mut right = Vec::new(alloc);
    push_number(&mut right, bound)?;
    push_line(out, &left, relation, &right)
}

/// The text of an inequality's comparison.
fn sign_of(comparison: Comparison) -> &'static [u8]
    ensures { result.now ≡ comparison_text (comparison_of comparison) }
{
    match comparison {
        Comparison::AtLeast => b">=",
        Comparison::Above => b">",
        Comparison::AtMost => b"=<",
        Comparison::Below | Comparison::Unequal => b"<",
    }
}

fn push_inequality(
    alloc: Global,
    out: &mut Vec<u8>,
    names: &[VariableName],
    row: &PrintedRow,
) -> Result<(), AllocError>
    ensures { OnOk result (out.new.items ≡ out.old.items
        ++ (braced (inequality_text (name_among names.now) (inequality_of (line_of row.now))) ++ codes "\n")) }
{
    let sign = sign_of(row.comparison);
    push_related(alloc, out, names, &row.products, sign, row.bound)
}

fn push_disequation(
    alloc: Global,
    out: &mut Vec<u8>,
    names: &[VariableName],
    row: &PrintedRow,
) -> Result<(), AllocError>
    ensures { OnOk result (out.new.items ≡ out.old.items
        ++ (braced (disequation_text (name_among names.now) (disequation_of (line_of row.now))) ++ codes "\n")) }
{
    push_related(alloc, out, names, &row.products, b"=\\=", row.bound)
}

/// The lines of an answer's rows: the equations, the inequalities, and the disequations. Each variable of a row is to have a
/// name; a look-up goes through the names.
pub fn push_rows(
    alloc: Global,
    out: &mut Vec<u8>,
    names: &[VariableName],
    equations: &[Equation],
    inequalities: &[PrintedRow],
    disequations: &[PrintedRow],
) -> Result<(), AllocError>
    ensures { OnOk result (out.new.items ≡ out.old.items
        ++ lines_text (map braced (row_texts (name_among names.now) (printed_rows equations.now inequalities.now disequations.now)))) }
{
    'equations: for equation in equations {
        push_equation(alloc, out, names, equation)?;
    }
    'inequalities: for inequality in inequalities {
        push_inequality(alloc, out, names, inequality)?;
    }
    'disequations: for disequation in disequations {
        push_disequation(alloc, out, names, disequation)?;
    }
    Ok(())
}
