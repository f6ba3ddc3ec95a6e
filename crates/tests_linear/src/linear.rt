//! A certificate, and how many exchanges are enough, worked out by hand.

use cq_form::{Constraint, Form};
use cq_frac::{Frac, VarId};
use cq_store::store::{Store, StoreFault, Told};
use spec_linear::Relation;
use std::alloc::Global;
use std::test::Fail;

/// Products of a factor and a variable.
type Products<'a> = &'a [(i128, usize)];

fn number(n: i128) -> Frac {
    Frac::new(n, 1).unwrap_or(Frac::zero())
}

/// The form and the product of a number and a variable.
fn with_product(alloc: Global, form: Form, factor: i128, x: usize) -> Result<Form, Fail> {
    let variable = Form::new(alloc, Frac::zero(), &[(VarId(x), Frac::one())])?;
    let product = variable.scale(number(factor))?;
    Ok(form.add(&product)?)
}

fn form_of(alloc: Global, products: Products, constant: i128) -> Result<Form, Fail> {
    let mut form = Form::new(alloc, number(constant), &[])?;
    for (factor, x) in products {
        form = with_product(alloc, form, *factor, *x)?;
    }
    Ok(form)
}

fn constraint(
    alloc: Global,
    relation: Relation,
    products: Products,
    constant: i128,
) -> Result<Constraint, Fail> {
    Ok(Constraint {
        relation,
        form: form_of(alloc, products, constant)?,
    })
}

/// Whether these are the entries, in some order.
fn are_entries(found: &[(usize, Frac)], wanted: &[(usize, i128)]) -> bool {
    found.len() == wanted.len()
        && wanted.iter().all(|w| found.iter().any(|f| f.0 == w.0 && f.1.parts() == (w.1, 1)))
}

/// The store's call without its contract, which takes a minute to prove wherever it is called.
fn tell(store: &mut Store, c: Constraint) -> Result<Told, StoreFault> {
    store.tell(c)
}

fn is_refused_with(store: &mut Store, c: Constraint, wanted: &[(usize, i128)]) -> bool {
    match tell(store, c) {
        Ok(Told::Unsolvable(cert)) => are_entries(cert.entries(), wanted),
        _ => false,
    }
}

/// Tells that a form stands so to zero.
fn tell_form(
    store: &mut Store,
    alloc: Global,
    relation: Relation,
    products: Products,
) -> Result<(), Fail> {
    tell(store, constraint(alloc, relation, products, 0)?)?;
    Ok(())
}

/// x0 > x1 > x2 > x0 is false, each of the three taken once.
fn has_its_certificate(alloc: Global) -> Result<bool, Fail> {
    let mut store = Store::new(alloc, 20);
    tell_form(&mut store, alloc, Relation::Gt, &[(1, 0), (-1, 1)])?;
    tell_form(&mut store, alloc, Relation::Gt, &[(1, 1), (-1, 2)])?;
    let last = constraint(alloc, Relation::Gt, &[(-1, 0), (1, 2)], 0)?;
    Ok(is_refused_with(&mut store, last, &[(3, 1), (1, 1), (2, 1)]))
}

#[test]
fn what_is_refused_has_its_certificate(rt: HostRuntime) -> Result<(), Fail> {
    assert!(rt; has_its_certificate(rt.alloc())?);
    Ok(())
}

/// x0 >= 0, x1 = 0, x2 =\= 0, x3 > 0: two inequalities
static MIXED: [(Relation, Products); 4] = [
    (Relation::Ge, &[(1, 0)]),
    (Relation::Eq, &[(1, 1)]),
    (Relation::Ne, &[(1, 2)]),
    (Relation::Gt, &[(1, 3)]),
];

fn tell_mixed(store: &mut Store, alloc: Global) -> Result<(), Fail> {
    for (relation, form) in &MIXED {
        tell_form(store, alloc, *relation, *form)?;
    }
    Ok(())
}

/// Inequalities of so many variables more.
fn tell_many(store: &mut Store, alloc: Global, from: usize, to: usize) -> Result<(), Fail> {
    for x in from..to {
        tell_form(store, alloc, Relation::Ge, &[(1, x)])?;
    }
    Ok(())
}

/// How much is enough for none, two, 62 and 63 inequalities.
fn enough_for(alloc: Global) -> Result<[Option<u64>; 4], Fail> {
    let mut store = Store::new(alloc, 20);
    let none = store.enough();
    tell_mixed(&mut store, alloc)?;
    let two = store.enough();
    tell_many(&mut store, alloc, 4, 64)?;
    let many = store.enough();
    tell_many(&mut store, alloc, 64, 65)?;
    Ok([none, two, many, store.enough()])
}

#[test]
fn enough_is_a_power_of_two(rt: HostRuntime) -> Result<(), Fail> {
    let wanted = [Some(2), Some(8), Some(9_223_372_036_854_775_808), None];
    assert!(rt; enough_for(rt.alloc())? == wanted);
    Ok(())
}
