//! One pass over rows, which leaves those of which none follows from the others and from what a store was told.
#![tactic(auto)]

ghost use Rattle.std.specs.Prelude.{◌≡◌, ◌<◌, ℕ, [], ◌∷◌, ◌++◌, length, IfOk, OnOk, OnErr};
ghost use Rattle.spec_linear.specs.Solution.{Solvable};
ghost use Rattle.spec_simplex.specs.Asked.{NoQuestion};
ghost use Rattle.cq_frac.specs.declared.Pair.{Pair};
ghost use Rattle.cq_store.specs.declared.store.StoreFault.TheVariants.{Overflow, Pivots};
ghost use Rattle.cq_store.specs.StoreValue.{MayRefuse, MayTake, Only};
ghost use Rattle.cq_project.specs.Sifting.{SiftsBeside, SiftsBehind, IsToldWith, RefusesSifting, SpendsSifting};

use cq_form::Constraint;
use cq_store::store::{Store, StoreFault, Told};
use cq_trail::Undo;
use std::alloc::{AllocError, Global};

/// Tells the row. It is kept, since it has a solution together with what the store was told.
fn tell_one(store: &mut Store, row: &Constraint) -> Result<(), StoreFault>
    requires solvable { Solvable (store.old.told ++ row.now ∷ []) }
    ensures told { OnOk result (store.new.told ≡ store.old.told ++ row.now ∷ []) }
    ensures overflow { (pair : Pair) → result ≡ Err (Overflow pair) → MayRefuse store.old.told (Only row.now) NoQuestion pair }
    ensures pivots { (n : ℕ) → result ≡ Err (Pivots n) → (n ≡ store.old.pivots) × MayTake store.old.told (Only row.now) NoQuestion n }
    ensures err { OnErr result (store.new.told ≡ store.old.told) }
    ensures saved { store.new.saved ≡ store.old.saved }
    ensures budget { store.new.pivots ≡ store.old.pivots }
{
    let copy = row.clone()?;
    match store.tell(copy) {
        Ok(told) => match told {
            Told::Kept(_) => Ok(()),
            Told::Unsolvable(_) => unreachable!(),
        },
        Err(fault) => Err(fault),
    }
}

/// Tells the rows in their order. All are kept.
fn tell_all(store: &mut Store, rows: &[Constraint]) -> Result<(), StoreFault>
    requires solvable { Solvable (store.old.told ++ rows.now) }
    ensures told { OnOk result (store.new.told ≡ store.old.told ++ rows.now) }
    ensures overflow { (pair : Pair) → result ≡ Err (Overflow pair) → RefusesSifting store.old.told rows.now pair }
    ensures pivots { (n : ℕ) → result ≡ Err (Pivots n) → (n ≡ store.old.pivots) × SpendsSifting store.old.told rows.now n }
    ensures part { IsToldWith store.old.told rows.now store.new.told }
    ensures saved { store.new.saved ≡ store.old.saved }
    ensures budget { store.new.pivots ≡ store.old.pivots }
{
    'rows: for row in rows {
        tell_one(store, row)?;
    }
    Ok(())
}

/// A list of the row.
fn alone(alloc: Global, row: &Constraint) -> Result<Vec<Constraint>, AllocError>
    ensures { IfOk result (λ r. r.items ≡ row.now ∷ []) }
{
    let mut rows = Vec::new(alloc);
    rows.push(row.clone()?)?;
    Ok(rows)
}

/// The row, told to the store, unless it follows from what the store was told.
fn sift_one(
    alloc: Global,
    store: &mut Store,
    row: &Constraint,
) -> Result<Vec<Constraint>, StoreFault>
    requires solvable { Solvable (store.old.told ++ row.now ∷ []) }
    ensures sifts { IfOk result (λ kept. SiftsBeside store.old.told (row.now ∷ []) kept.items) }
    ensures told { IfOk result (λ kept. store.new.told ≡ store.old.told ++ kept.items) }
    ensures overflow { (pair : Pair) → result ≡ Err (Overflow pair) → RefusesSifting store.old.told (row.now ∷ []) pair }
    ensures pivots { (n : ℕ) → result ≡ Err (Pivots n) → (n ≡ store.old.pivots) × SpendsSifting store.old.told (row.now ∷ []) n }
    ensures part { IsToldWith store.old.told (row.now ∷ []) store.new.told }
    ensures saved { store.new.saved ≡ store.old.saved }
    ensures budget { store.new.pivots ≡ store.old.pivots }
{
    if store.entailed(row)? {
        return Ok(Vec::new(alloc));
    }
    let kept = alone(alloc, row)?;
    tell_one(store, row)?;
    Ok(kept)
}

/// Appends the rows.
fn append(rows: &mut Vec<Constraint>, more: Vec<Constraint>) -> Result<(), AllocError>
    ensures { OnOk result (rows.new.items ≡ rows.old.items ++ more.items) }
{
    'more: for row in more {
        rows.push(row)?;
    }
    Ok(())
}

/// Goes through one row, or none.
fn sift_few(
    alloc: Global,
    store: &mut Store,
    rows: &[Constraint],
) -> Result<Vec<Constraint>, StoreFault>
    requires few { length rows.now < 2 }
    requires solvable { Solvable (store.old.told ++ rows.now) }
    ensures sifts { IfOk result (λ kept. SiftsBeside store.old.told rows.now kept.items) }
    ensures told { IfOk result (λ kept. store.new.told ≡ store.old.told ++ kept.items) }
    ensures overflow { (pair : Pair) → result ≡ Err (Overflow pair) → RefusesSifting store.old.told rows.now pair }
    ensures pivots { (n : ℕ) → result ≡ Err (Pivots n) → (n ≡ store.old.pivots) × SpendsSifting store.old.told rows.now n }
    ensures part { IsToldWith store.old.told rows.now store.new.told }
    ensures saved { store.new.saved ≡ store.old.saved }
    ensures budget { store.new.pivots ≡ store.old.pivots }
{
    match rows.first() {
        None => Ok(Vec::new(alloc)),
        Some(row) => sift_one(alloc, store, row),
    }
}

/// Tells the rows behind, and goes through those in front.
#[cycle(sift)]
fn sift_beside(
    alloc: Global,
    store: &mut Store,
    front: &[Constraint],
    back: &[Constraint],
) -> Result<Vec<Constraint>, StoreFault>
    requires solvable { Solvable (store.old.told ++ (front.now ++ back.now)) }
    ensures sifts { IfOk result (λ kept. SiftsBeside (store.old.told ++ back.now) front.now kept.items) }
    ensures overflow { (pair : Pair) → result ≡ Err (Overflow pair) → RefusesSifting store.old.told (front.now ++ back.now) pair }
    ensures pivots { (n : ℕ) → result ≡ Err (Pivots n)
        → (n ≡ store.old.pivots) × SpendsSifting store.old.told (front.now ++ back.now) n }
    ensures saved { store.new.saved ≡ store.old.saved }
    ensures budget { store.new.pivots ≡ store.old.pivots }
{
    tell_all(store, back)?;
    sift(alloc, store, front)
}

/// Goes through the rows in front while those behind are told. The store is as before then.
#[cycle(sift)]
fn sift_front(
    alloc: Global,
    store: &mut Store,
    front: &[Constraint],
    back: &[Constraint],
) -> Result<Vec<Constraint>, StoreFault>
    requires solvable { Solvable (store.old.told ++ (front.now ++ back.now)) }
    ensures sifts { IfOk result (λ kept. SiftsBeside (store.old.told ++ back.now) front.now kept.items) }
    ensures overflow { (pair : Pair) → result ≡ Err (Overflow pair) → RefusesSifting store.old.told (front.now ++ back.now) pair }
    ensures pivots { (n : ℕ) → result ≡ Err (Pivots n)
        → (n ≡ store.old.pivots) × SpendsSifting store.old.told (front.now ++ back.now) n }
    ensures told { store.new.told ≡ store.old.told }
    ensures saved { store.new.saved ≡ store.old.saved }
    ensures budget { store.new.pivots ≡ store.old.pivots }
{
    let start = store.mark()?;
    let kept = sift_beside(alloc, store, front, back);
    store.undo(start);
    kept
}

/// Tells the rows kept in front, and goes through those behind.
#[cycle(sift)]
fn sift_behind(
    alloc: Global,
    store: &mut Store,
    first: Vec<Constraint>,
    back: &[Constraint],
) -> Result<Vec<Constraint>, StoreFault>
    requires solvable { Solvable (store.old.told ++ (first.items ++ back.now)) }
    ensures sifts { IfOk result (λ kept. SiftsBehind store.old.told first.items back.now kept.items) }
    ensures told { IfOk result (λ kept. store.new.told ≡ store.old.told ++ kept.items) }
    ensures overflow { (pair : Pair) → result ≡ Err (Overflow pair) → RefusesSifting store.old.told (first.items ++ back.now) pair }
    ensures pivots { (n : ℕ) → result ≡ Err (Pivots n)
        → (n ≡ store.old.pivots) × SpendsSifting store.old.told (first.items ++ back.now) n }
    ensures part { IsToldWith store.old.told (first.items ++ back.now) store.new.told }
    ensures saved { store.new.saved ≡ store.old.saved }
    ensures budget { store.new.pivots ≡ store.old.pivots }
{
    tell_all(store, &first)?;
    let second = sift(alloc, store, back)?;
    let mut kept = first;
    append(&mut kept, second)?;
    Ok(kept)
}

/// Goes through the rows in their order, and drops each that follows from those kept before it, those behind it and what
/// the store was told. The others are told to it. Of two halves the second is told while the first is gone through, so
/// that a row is told only as often as the rows can be halved. After an error the store may have been told some of the
/// rows.
#[cycle(sift)]
pub fn sift(
    alloc: Global,
    store: &mut Store,
    rows: &[Constraint],
) -> Result<Vec<Constraint>, StoreFault>
    requires solvable { Solvable (store.old.told ++ rows.now) }
    ensures sifts { IfOk result (λ kept. SiftsBeside store.old.told rows.now kept.items) }
    ensures told { IfOk result (λ kept. store.new.told ≡ store.old.told ++ kept.items) }
    ensures overflow { (pair : Pair) → result ≡ Err (Overflow pair) → RefusesSifting store.old.told rows.now pair }
    ensures pivots { (n : ℕ) → result ≡ Err (Pivots n) → (n ≡ store.old.pivots) × SpendsSifting store.old.told rows.now n }
    ensures part { IsToldWith store.old.told rows.now store.new.told }
    ensures saved { store.new.saved ≡ store.old.saved }
    ensures budget { store.new.pivots ≡ store.old.pivots }
{
    if rows.len() < 2 {
        return sift_few(alloc, store, rows);
    }
    let (front, back) = rows.split_at(rows.len() / 2);
    let first = sift_front(alloc, store, front, back)?;
    sift_behind(alloc, store, first, back)
}
