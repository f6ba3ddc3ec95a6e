//! Solved equations put into rows: the form of each in the place of its variable.

ghost use Rattle.std.specs.Prelude.{◌≡◌, ℕ, [], ◌∷◌, ◌++◌, map, IfOk, OnOk};
ghost use Rattle.std.specs.List.{AllByRecursion};
ghost use Rattle.spec_numbers.specs.Rational.{ℚ, ◌+ℚ◌, ◌*ℚ◌};
ghost use Rattle.spec_linear.specs.Form.{IsForm, value_at};
ghost use Rattle.spec_projection.specs.Substitution.{AreReduced, put_into as put_into_one};
ghost use Rattle.cq_frac.specs.declared.Pair.{Pair};
ghost use Rattle.cq_equations.specs.Rows.{equations_of, solved_of};
ghost use Rattle.cq_form.specs.Entries.{entry_of};
ghost use Rattle.cq_project.specs.Putting.{value_of, IsProper, all_solved_by, AreAlike, PutsPair, PutsInForm, PutsInSome};

use cq_equations::project::Equation;
use cq_form::{Constraint, Form};
use cq_frac::row::Entry;
use cq_frac::{Frac, Refusal, VarId};
use std::alloc::{AllocError, Global};

/// A variable and the form that it is, whose products stand by ascending variable.
#[derive(Drop)]
struct Row {
    variable: VarId,
    form: Form,
}

/// The equation's products as entries, in its order.
fn entries_of(alloc: Global, equation: &Equation) -> Result<Vec<Entry>, AllocError>
    ensures { IfOk result (λ s. s.items ≡ map entry_of equation.now.products.items) }
{
    let mut entries = Vec::new(alloc);
    'products: for product in &equation.products {
        entries.push(Entry {
            quantity: product.0.0,
            factor: product.1,
        })?;
    }
    Ok(entries)
}

/// The equation with its products by ascending variable.
fn sorted(alloc: Global, equation: &Equation) -> Result<Row, AllocError>
    requires proper { IsProper (solved_of equation.now) }
    ensures variable { IfOk result (λ r. r.variable ≡ equation.now.variable) }
    ensures value { IfOk result (λ r. (a : ℕ → ℚ) → value_at a r.form ≡ value_at a (solved_of equation.now).form) }
{
    let mut entries = entries_of(alloc, equation)?;
    entries.sort_by_key(|entry| entry.quantity)?;
    Ok(Row {
        variable: equation.variable,
        form: Form::of_entries(equation.constant, entries),
    })
}

/// The equations, each with its products by ascending variable.
fn all_sorted(alloc: Global, equations: &[Equation]) -> Result<Vec<Row>, AllocError>
    requires proper { AllByRecursion IsProper (equations_of equations.now) }
    ensures { IfOk result (λ rows. AreAlike (all_solved_by rows.items) (equations_of equations.now)) }
{
    let mut rows = Vec::new(alloc);
    'equations: for equation in equations {
        let row = sorted(alloc, equation)?;
        rows.push(row)?;
    }
    Ok(rows)
}

/// The form of the variable: that of its equation, or the variable itself.
fn row_of(alloc: Global, rows: &[Row], variable: VarId) -> Result<Form, AllocError>
    ensures { IfOk result (λ f. (a : ℕ → ℚ) → value_at a f ≡ value_of (all_solved_by rows.now) a variable.0) }
{
    'rows: for row in rows {
        if row.variable == variable {
            return row.form.clone();
        }
    }
    Form::new(alloc, Frac::zero(), &[(variable, Frac::one())])
}

/// The sum with the product put in.
fn with_product(alloc: Global, rows: &[Row], sum: Form, product: Entry) -> Result<Form, Refusal>
    ensures value { IfOk result (λ f. (a : ℕ → ℚ)
        → value_at a f ≡ value_at a sum +ℚ product.factor *ℚ value_of (all_solved_by rows.now) a product.quantity) }
    ensures overflow { (pair : Pair) → result ≡ Err (Refusal.Overflow pair)
        → PutsPair (all_solved_by rows.now) sum product.quantity product.factor pair }
{
    let row = row_of(alloc, rows, VarId(product.quantity))?;
    let _products = row.entries();
    let multiple = row.scale(product.factor)?;
    sum.add(&multiple)
}

/// The form with the equations put in, product by product.
fn put_into_form(alloc: Global, rows: &[Row], form: &Form) -> Result<Form, Refusal>
    ensures value { IfOk result (λ f. (a : ℕ → ℚ) → value_at a f ≡ value_at (value_of (all_solved_by rows.now) a) form.now) }
    ensures in_order { IfOk result (λ f. IsForm f × IsForm form.now) }
    ensures overflow { (pair : Pair) → result ≡ Err (Refusal.Overflow pair) → PutsInForm (all_solved_by rows.now) form.now pair }
{
    let mut sum = Form::new(alloc, form.constant(), &[])?;
    'products: for product in form.entries() {
        let _products = sum.entries();
        sum = with_product(alloc, rows, sum, *product)?;
    }
    let _products = sum.entries();
    Ok(sum)
}

/// The rows with the equations put in. Overflow where a product's factor times a number of its variable's form is refused,
/// or the sum of that and of what the products in front gave.
pub fn put_into(
    alloc: Global,
    equations: &[Equation],
    rows: &[Constraint],
) -> Result<Vec<Constraint>, Refusal>
    requires proper { AllByRecursion IsProper (equations_of equations.now) }
    requires reduced { AreReduced (equations_of equations.now) }
    ensures value { IfOk result (λ all. all.items ≡ map (put_into_one (equations_of equations.now)) rows.now) }
    ensures overflow { (pair : Pair) → result ≡ Err (Refusal.Overflow pair) → PutsInSome (equations_of equations.now) rows.now pair }
{
    let sorted = all_sorted(alloc, equations)?;
    let mut all = Vec::new(alloc);
    'rows: for row in rows {
        let form = put_into_form(alloc, &sorted, &row.form)?;
        all.push(Constraint {
            relation: row.relation,
            form,
        })?;
    }
    Ok(all)
}
