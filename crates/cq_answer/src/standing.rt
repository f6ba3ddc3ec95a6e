//! Whether a variable stands in the rows of an answer.

ghost use Rattle.std.specs.Prelude.{◌≡◌, map};
ghost use Rattle.spec_linear.specs.Form.{variables};
ghost use Rattle.spec_answers.specs.Rows.{equation_variables, row_variables};
ghost use Rattle.cq_equations.specs.Rows.{monomial_of, equations_of};
ghost use Rattle.cq_project.specs.Projecting.{rows_of};
ghost use Rattle.cq_answer.specs.Numbered.{has_variable};
ghost use Rattle.cq_answer.specs.Standing.{line_variables};

use cq_elimination::arrange::PrintedRow;
use cq_equations::project::Equation;
use cq_frac::{Frac, VarId};
use cq_project::Rows;

fn is_in_products(products: &[(VarId, Frac)], variable: VarId) -> bool
    ensures { result ≡ has_variable (variables (map monomial_of products.now)) variable.0 }
{
    'products: for product in products {
        if product.0.0 == variable.0 {
            return true;
        }
    }
    false
}

fn is_in_equations(rows: &[Equation], variable: VarId) -> bool
    ensures { result ≡ has_variable (equation_variables (equations_of rows.now)) variable.0 }
{
    'rows: for row in rows {
        if row.variable.0 == variable.0 {
            return true;
        }
        if is_in_products(&row.products, variable) {
            return true;
        }
    }
    false
}

fn is_in_lines(rows: &[PrintedRow], variable: VarId) -> bool
    ensures { result ≡ has_variable (line_variables rows.now) variable.0 }
{
    'rows: for row in rows {
        if is_in_products(&row.products, variable) {
            return true;
        }
    }
    false
}

/// Whether a variable stands in one of the rows.
pub(crate) fn stands_in(rows: &Rows, variable: VarId) -> bool
    ensures { result ≡ has_variable (row_variables (rows_of rows.now)) variable.0 }
{
    if is_in_equations(&rows.equations, variable) {
        return true;
    }
    if is_in_lines(&rows.inequalities, variable) {
        return true;
    }
    is_in_lines(&rows.disequations, variable)
}
