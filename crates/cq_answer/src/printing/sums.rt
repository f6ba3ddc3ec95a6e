//! The text of a sum of products and a constant.

ghost use Rattle.std.specs.Prelude.{◌≡◌, ◌++◌, map, IfOk, OnOk};
ghost use Rattle.spec_answers.specs.RowText.{begins_with_minus as has_minus, joined, product_text, sum_onto, linear_text as sum_text};
ghost use Rattle.cq_equations.specs.Rows.{monomial_of};
ghost use Rattle.cq_answer.specs.Names.{name_among};
ghost use Rattle.cq_answer.specs.Texts.{coefficient_text};

use crate::printing::names::name_of;
use crate::printing::numbers::push_number;
use cq_frac::{Frac, VarId};
use cq_read::names::VariableName;
use std::alloc::{AllocError, Global};

pub(crate) fn begins_with_minus(text: &[u8]) -> bool
    ensures { result ≡ has_minus text.now }
{
    match text {
        [first, ..] => *first == b'-',
        [] => false,
    }
}

/// Puts a piece behind a sum, with `+` between them unless the piece brings its own `-`.
fn join(sum: &mut Vec<u8>, piece: &[u8]) -> Result<(), AllocError>
    ensures { OnOk result (sum.new.items ≡ joined sum.old.items piece.now) }
{
    if !begins_with_minus(piece) {
        sum.extend_from_slice(b"+")?;
    }
    sum.extend_from_slice(piece)
}

/// What stands before a variable's name: nothing for 1, `-` for -1, and else the number and `*`.
fn push_coefficient(out: &mut Vec<u8>, factor: Frac) -> Result<(), AllocError>
    ensures { OnOk result (out.new.items ≡ out.old.items ++ coefficient_text factor) }
{
    if factor == Frac::one() {
        return Ok(());
    }
    if factor == Frac::one().neg() {
        return out.extend_from_slice(b"-");
    }
    push_number(out, factor)?;
    out.extend_from_slice(b"*")
}

/// A product, in which a coefficient 1 is left away, and -1 is `-`.
fn push_product(
    out: &mut Vec<u8>,
    names: &[VariableName],
    product: (VarId, Frac),
) -> Result<(), AllocError>
    ensures { OnOk result (out.new.items ≡ out.old.items ++ product_text (name_among names.now) (monomial_of product)) }
{
    let (variable, factor) = product;
    push_coefficient(out, factor)?;
    out.extend_from_slice(name_of(names, variable).as_bytes())
}

/// Puts more products behind a sum.
fn add_products(
    alloc: Global,
    sum: &mut Vec<u8>,
    names: &[VariableName],
    products: &[(VarId, Frac)],
) -> Result<(), AllocError>
    ensures { OnOk result (sum.new.items ≡ sum_onto (name_among names.now) sum.old.items (map monomial_of products.now)) }
{
    let mut piece = Vec::new(alloc);
    'products: for product in products {
        piece.clear();
        push_product(&mut piece, names, *product)?;
        join(sum, &piece)?;
    }
    Ok(())
}

/// The products and then the constant, which is left away where it is zero and a product stands before it.
pub(crate) fn linear_text(
    alloc: Global,
    names: &[VariableName],
    products: &[(VarId, Frac)],
    constant: Frac,
) -> Result<Vec<u8>, AllocError>
    ensures { IfOk result (λ text. text.items ≡ sum_text (name_among names.now) (map monomial_of products.now) constant) }
{
    let mut text = Vec::new(alloc);
    let [first, others @ ..] = products else {
        push_number(&mut text, constant)?;
        return Ok(text);
    };
    push_product(&mut text, names, *first)?;
    add_products(alloc, &mut text, names, others)?;
    if !constant.is_zero() {
        let mut piece = Vec::new(alloc);
        push_number(&mut piece, constant)?;
        join(&mut text, &piece)?;
    }
    Ok(text)
}
