// Sums, differences, multiples and substitutions against vectors made by hand and by Python's `fractions`.
use cq_form::{Cert, Constraint, Form};
use cq_frac::{Frac, Refusal, VarId};
use spec_linear::Relation;
use std::alloc::{AllocError, Global};
use std::test::Fail;

const M: i128 = 170141183460469231731687303715884105727;

// Variables with numerator and denominator of their coefficients, and those of the constant.
type Given<'a> = (&'a [(usize, i128, i128)], i128, i128);

fn number(n: i128, d: i128) -> Frac {
    Frac::new(n, d).unwrap_or(Frac::zero())
}

/// The form and the product of a number and a variable.
fn with_product(alloc: Global, form: Form, factor: Frac, x: usize) -> Result<Form, Refusal> {
    let variable = Form::new(alloc, Frac::zero(), &[(VarId(x), Frac::one())])?;
    let product = variable.scale(factor)?;
    form.add(&product)
}

fn form(alloc: Global, given: &Given) -> Result<Form, Refusal> {
    let mut sum = Form::new(alloc, number(given.1, given.2), &[])?;
    for (x, n, d) in given.0 {
        sum = with_product(alloc, sum, number(*n, *d), *x)?;
    }
    Ok(sum)
}

/// Products as factors and variables, and the constant.
fn form_text(alloc: Global, form: &Form) -> Result<String, AllocError> {
    let mut text = String::new(alloc);
    for entry in form.entries() {
        let product = format!(in alloc; "{}*{} ", entry.factor, entry.quantity)?;
        text.push_str(product.as_str())?;
    }
    let constant = format!(in alloc; "{}", form.constant())?;
    text.push_str(constant.as_str())?;
    Ok(text)
}

/// The form, or the operation with the two numbers that it refuses.
fn text_of(alloc: Global, found: &Result<Form, Refusal>) -> Result<String, AllocError> {
    match found {
        Ok(form) => form_text(alloc, form),
        Err(Refusal::Overflow(pair)) => {
            format!(in alloc; "{:?} {} {}", pair.operation, pair.left, pair.right)
        }
        Err(Refusal::NoMemory) => Err(AllocError),
    }
}

/// What is done with two forms.
#[derive(Clone, Copy)]
enum Act {
    Add,
    Subtract,
    /// The first is put into the second in the place of a variable.
    Put(usize),
    /// The first is taken twice.
    Double,
}

fn done(act: Act, first: Form, second: &Form) -> Result<Form, Refusal> {
    match act {
        Act::Add => first.add(second),
        Act::Subtract => first.sub(second),
        Act::Put(x) => second.subst(VarId(x), &first),
        Act::Double => first.scale(number(2, 1)),
    }
}

const F: Given = (&[(1, 1, 1), (4, -2, 3)], 5, 2);

const G: Given = (&[(0, 1, 6), (4, 2, 3), (7, 3, 1)], -1, 2);

const K: Given = (&[(2, 3, 1), (5, -1, 1)], 0, 1);

const WIDE: Given = (&[(3, M, 1)], 1, 1);

const TWICE: Given = (&[(0, 2, 1), (3, 1, 1)], 0, 1);

static ROWS: [(Act, Given, Given, &str); 17] = [
    (Act::Add, F, G, "1r6*0 1*1 3*7 2"),
    (Act::Add, G, F, "1r6*0 1*1 3*7 2"),
    (Act::Add, F, (&[], -7, 1), "1*1 -2r3*4 -9r2"),
    (Act::Add, F, (&[(1, -1, 1), (4, 2, 3)], -5, 2), "0"),
    (Act::Subtract, F, (&[], 7, 1), "1*1 -2r3*4 -9r2"),
    (
        Act::Subtract,
        F,
        (&[(0, 1, 6)], 0, 1),
        "-1r6*0 1*1 -2r3*4 5r2",
    ),
    (Act::Subtract, F, (&[(4, 1, 3)], 1, 1), "1*1 -1*4 3r2"),
    (Act::Subtract, F, (&[(4, -2, 3)], 1, 1), "1*1 3r2"),
    (
        Act::Subtract,
        F,
        (&[(1, 1, 1), (7, 3, 1)], 1, 2),
        "-2r3*4 -3*7 2",
    ),
    (Act::Put(4), K, F, "1*1 -2*2 2r3*5 5r2"),
    (Act::Put(1), F, F, "1*1 -4r3*4 5"),
    (Act::Put(9), K, F, "1*1 -2r3*4 5r2"),
    (Act::Put(2), (&[(5, 1, 3)], 1, 1), K, "3"),
    // Refused: M + M, 2 * M, and once more where M x3 + 1 is put in; with M/2 x3 in its place the sum 1 + M.
    (
        Act::Add,
        WIDE,
        WIDE,
        "Sum 170141183460469231731687303715884105727 170141183460469231731687303715884105727",
    ),
    (
        Act::Double,
        WIDE,
        WIDE,
        "Product 2 170141183460469231731687303715884105727",
    ),
    (
        Act::Put(0),
        WIDE,
        TWICE,
        "Product 2 170141183460469231731687303715884105727",
    ),
    (
        Act::Put(0),
        (&[(3, M, 2)], 0, 1),
        TWICE,
        "Sum 1 170141183460469231731687303715884105727",
    ),
];

/// What a row comes to.
fn outcome(
    alloc: Global,
    act: Act,
    first: &Given,
    second: &Given,
) -> Result<Result<Form, Refusal>, Refusal> {
    let first = form(alloc, first)?;
    let second = form(alloc, second)?;
    Ok(done(act, first, &second))
}

/// The place of the first row that comes to something else.
fn first_wrong(alloc: Global) -> Result<Option<usize>, Refusal> {
    for (place, (act, left, right, want)) in ROWS.iter().enumerate() {
        let found = outcome(alloc, *act, left, right)?;
        if text_of(alloc, &found)?.as_str() != *want {
            return Ok(Some(place));
        }
    }
    Ok(None)
}

#[test]
fn forms_are_added_subtracted_scaled_and_put_in(rt: HostRuntime) -> Result<(), Fail> {
    assert_eq!(rt; first_wrong(rt.alloc())?, None);
    Ok(())
}

/// The relation and the form of a copy of a constraint.
fn copy_text(alloc: Global, form: Form) -> Result<String, AllocError> {
    let constraint = Constraint {
        relation: Relation::Ge,
        form,
    };
    let copy = constraint.clone()?;
    let text = form_text(alloc, &copy.form)?;
    format!(in alloc; "{:?} {text}", copy.relation)
}

fn is_copied_whole(alloc: Global) -> Result<bool, Refusal> {
    let given = form(alloc, &K)?;
    Ok(copy_text(alloc, given)?.as_str() == "Ge 3*2 -1*5 0")
}

/// The first variable of a form with its coefficient.
fn lead_of(alloc: Global, given: &Given) -> Result<Option<(VarId, Frac)>, Refusal> {
    Ok(form(alloc, given)?.lead())
}

#[test]
fn a_constraint_is_copied_whole_and_leads_with_its_oldest_variable(
    rt: HostRuntime,
) -> Result<(), Fail> {
    assert!(rt; is_copied_whole(rt.alloc())?);
    assert_eq!(rt; lead_of(rt.alloc(), &K)?, Some((VarId(2), Frac::from(3))));
    assert_eq!(rt; lead_of(rt.alloc(), &(&[], 1, 2))?, None);
    assert!(rt; Cert::empty(rt.alloc()).entries().is_empty());
    Ok(())
}
