// What joins the linear constraints before any term: equations of variables that were bound, and rows.

ghost use Rattle.std.specs.Prelude.{◌≡◌, ◌↔◌, ℕ, ◌<◌, ◌≤◌, ◌||◌, ◌==◌, [], ◌∷◌, ◌++◌, length, All, Any, Contains, true, Option, Some, IsTrue, IfOk, OnOk, MatchBool};
ghost use Rattle.std.specs.List.{list_any};
ghost use Rattle.spec_numbers.specs.Rational.{ℚ};
ghost use Rattle.spec_linear.specs.Form.{variable_form, constant_form};
ghost use Rattle.spec_linear.specs.Solution.{Fixed};
ghost use Rattle.spec_terms.specs.Variables.{variables};
ghost use Rattle.cq_frac.specs.declared.Pair.{Pair};
ghost use Rattle.cq_term.specs.Meaning.{at};
ghost use Rattle.cq_term.specs.Shown.{IsUnbound};
ghost use Rattle.spec_terms.specs.Term.{Var};
ghost use Rattle.cq_term.specs.Places.{numbers_of};
ghost use Rattle.cq_attr.specs.Attributes.{is_numeric, numbers};
ghost use Rattle.cq_store.specs.declared.store.StoreFault.TheVariants.{Overflow, Pivots};
ghost use Rattle.cq_settle.specs.Worlds.{now_of};
ghost use Rattle.cq_settle.specs.Settled.{KeepsMarks};
ghost use Rattle.cq_settle.specs.Steps.{is_neither, ClashesAt, AreThere, AreBoundThere, Follows, AllWatch, zero_difference, equation_at, equations_of, numeric_ones, HaveJoined, StopsAt, CannotJoin, Refuses, Takes, is_image_of, BindsValues};

use crate::world::World;
use cq_attr::{Attrs, SuspNo};
use cq_form::{Constraint, Form};
use cq_frac::{Frac, VarId};
use cq_store::store::{Store, StoreFault, Told};
use cq_term::{Heap, Newly, TermId, View};
use cq_unify::vars_of;
use spec_linear::Relation;
use std::alloc::{AllocError, Global};

/// Whether one of the variables is numeric and is to be an atom or a compound.
pub(crate) fn clashes(world: &World, newly: &[VarId]) -> bool
    requires { AreThere world.now.heap.now.images newly.now }
    ensures { MatchBool result (Any (λ v. ClashesAt (now_of world.now) v.0) newly.now) (All (λ v. ClashesAt (now_of world.now) v.0 → ⊥) newly.now) }
{
    for &variable in newly {
        if clashes_at(world, variable) {
            return true;
        }
    }
    false
}

/// Whether a variable is numeric and is to be an atom or a compound.
fn clashes_at(world: &World, variable: VarId) -> bool
    requires { variable.0 < length world.now.heap.now.images }
    ensures { MatchBool result (ClashesAt (now_of world.now) variable.0) (ClashesAt (now_of world.now) variable.0 → ⊥) }
{
    if !world.attrs.is_numeric(variable) {
        return false;
    }
    match world.heap.view(world.heap.var_term(variable)) {
        View::Name(_) | View::Compound(_, _) => true,
        View::Var(_) | View::Number(_) => false,
    }
}

/// What waits for a variable that became another one waits for that one too.
pub(crate) fn follow(world: &mut World, newly: &[VarId]) -> Result<(), AllocError>
    requires { AreThere world.old.heap.now.images newly.now }
    ensures follows { OnOk result (Follows world.old.heap.now.images (numbers_of newly.now) world.old.attrs.now world.new.attrs.now) }
    ensures heap { world.new.heap.now ≡ world.old.heap.now }
    ensures told { world.new.store.told ≡ world.old.store.told }
    ensures marks { KeepsMarks world.old world.new }
{
    for &variable in newly {
        if let View::Var(image) = world.heap.view(world.heap.var_term(variable)) {
            let woken = world.attrs.woken(&[variable])?;
            watch_all(&mut world.attrs, &woken, image)?;
        }
    }
    Ok(())
}

/// What waits under the numbers waits for the variable too.
fn watch_all(attrs: &mut Attrs, woken: &[SuspNo], image: VarId) -> Result<(), AllocError>
    requires { All (λ n. Contains (numbers attrs.old.now.waiting) n) woken.now }
    ensures watch { OnOk result (AllWatch woken.now image.0 attrs.old.now attrs.new.now) }
    ensures saved { attrs.new.saved ≡ attrs.old.saved }
    ensures room { attrs.old.room ≤ attrs.new.room }
{
    for &number in woken {
        attrs.watch(number, &[image])?;
    }
    Ok(())
}

/// The equation of each numeric variable that was bound joins, and its image becomes numeric where that is a variable. These
/// images and the variables that get fixed are told. False where the list has no solution.
pub(crate) fn join_equations(
    world: &mut World,
    newly: &[VarId],
    fixed: &mut Vec<VarId>,
) -> Result<bool, StoreFault>
    requires bound { AreBoundThere world.old.heap.now.images newly.now }
    requires older { All (λ (v : VarId). (w : ℕ) → at world.old.heap.now.images v.0 ≡ Var w → w < v.0) newly.now }
    requires values { All (λ v. ClashesAt (now_of world.old) v.0 → ⊥) newly.now }
    ensures joined { IfOk result (λ yes. MatchBool yes
        (HaveJoined world.old.store.told (equations_of (now_of world.old) newly.now) world.new.store.told fixed.old.items fixed.new.items)
        (StopsAt CannotJoin world.old.store.told (equations_of (now_of world.old) newly.now))) }
    ensures numeric { IfOk result (λ yes. IsTrue yes → (v : ℕ) → is_numeric world.new.attrs.now v
        ≡ (is_numeric world.old.attrs.now v || is_image_of world.old.heap.now.images (numeric_ones world.old.attrs.now newly.now) v)) }
    ensures images { IfOk result (λ yes. IsTrue yes → (v : ℕ) → is_image_of world.old.heap.now.images (numeric_ones world.old.attrs.now newly.now) v ≡ true
        → Contains (numbers_of fixed.new.items) v) }
    ensures waiting { world.new.attrs.now.waiting ≡ world.old.attrs.now.waiting }
    ensures heap { world.new.heap.now ≡ world.old.heap.now }
    ensures overflow { (pair : Pair) → result ≡ Err (Overflow pair)
        → StopsAt (Refuses pair) world.old.store.told (equations_of (now_of world.old) newly.now) }
    ensures pivots { (n : ℕ) → result ≡ Err (Pivots n) → (n ≡ world.old.store.pivots)
        × StopsAt (Takes n) world.old.store.told (equations_of (now_of world.old) newly.now) }
    ensures marks { KeepsMarks world.old world.new }
{
    for &variable in newly {
        if world.attrs.is_numeric(variable) {
            let equation = equation_of(world, variable, fixed)?;
            if !join(&mut world.store, equation, fixed)? {
                return Ok(false);
            }
        }
    }
    Ok(true)
}

/// The rows join. The variables that get fixed are told. False where the list has no solution.
pub(crate) fn join_rows(
    store: &mut Store,
    rows: &[Constraint],
    fixed: &mut Vec<VarId>,
) -> Result<bool, StoreFault>
    ensures joined { IfOk result (λ yes. MatchBool yes
        (HaveJoined store.old.told rows.now store.new.told fixed.old.items fixed.new.items)
        (StopsAt CannotJoin store.old.told rows.now)) }
    ensures overflow { (pair : Pair) → result ≡ Err (Overflow pair) → StopsAt (Refuses pair) store.old.told rows.now }
    ensures pivots { (n : ℕ) → result ≡ Err (Pivots n) → (n ≡ store.old.pivots) × StopsAt (Takes n) store.old.told rows.now }
    ensures saved { store.new.saved ≡ store.old.saved }
    ensures room { store.old.room ≤ store.new.room }
    ensures budget { store.new.pivots ≡ store.old.pivots }
{
    for row in rows {
        let row = row.clone()?;
        if !join(store, row, fixed)? {
            return Ok(false);
        }
    }
    Ok(true)
}

/// A constraint joins, and the variables that it fixes are told. False where the list has no solution.
fn join(
    store: &mut Store,
    constraint: Constraint,
    fixed: &mut Vec<VarId>,
) -> Result<bool, StoreFault>
    ensures joined { IfOk result (λ yes. MatchBool yes
        (HaveJoined store.old.told (constraint ∷ []) store.new.told fixed.old.items fixed.new.items)
        (CannotJoin store.old.told constraint)) }
    ensures overflow { (pair : Pair) → result ≡ Err (Overflow pair) → Refuses pair store.old.told constraint }
    ensures pivots { (n : ℕ) → result ≡ Err (Pivots n) → (n ≡ store.old.pivots) × Takes n store.old.told constraint }
    ensures saved { store.new.saved ≡ store.old.saved }
    ensures room { store.old.room ≤ store.new.room }
    ensures budget { store.new.pivots ≡ store.old.pivots }
{
    match store.tell(constraint)? {
        Told::Unsolvable(_) => Ok(false),
        Told::Kept(more) => {
            fixed.extend_from_slice(&more)?;
            Ok(true)
        }
    }
}

/// That a variable less its image is zero. An image that is a variable, which is an older one, becomes numeric and is told.
fn equation_of(
    world: &mut World,
    variable: VarId,
    fixed: &mut Vec<VarId>,
) -> Result<Constraint, AllocError>
    requires there { variable.0 < length world.old.heap.now.images }
    requires value { IsTrue (is_neither (at world.old.heap.now.images variable.0)) → ⊥ }
    requires older { (w : ℕ) → at world.old.heap.now.images variable.0 ≡ Var w → w < variable.0 }
    ensures equation { IfOk result (λ c. c ≡ equation_at world.old.heap.now.images variable.0) }
    ensures unbound { OnOk result ((w : ℕ) → at world.old.heap.now.images variable.0 ≡ Var w → at world.old.heap.now.images w ≡ Var w) }
    ensures numeric { OnOk result ((v : ℕ) → is_numeric world.new.attrs.now v
        ≡ (is_numeric world.old.attrs.now v || is_image_of world.old.heap.now.images (variable.0 ∷ []) v)) }
    ensures images { OnOk result ((v : ℕ) → is_image_of world.old.heap.now.images (variable.0 ∷ []) v ≡ true → Contains (numbers_of fixed.new.items) v) }
    ensures still { (v : ℕ) → Contains (numbers_of fixed.old.items) v → Contains (numbers_of fixed.new.items) v }
    ensures waiting { world.new.attrs.now.waiting ≡ world.old.attrs.now.waiting }
    ensures heap { world.new.heap.now ≡ world.old.heap.now }
    ensures told { world.new.store.told ≡ world.old.store.told }
    ensures marks { KeepsMarks world.old world.new }
{
    let alloc = world.heap.alloc();
    match world.heap.view(world.heap.var_term(variable)) {
        View::Var(image) => {
            world.attrs.set_numeric(image)?;
            fixed.push(image)?;
            less_variable(alloc, variable, image)
        }
        View::Number(value) => less_number(alloc, variable, value),
        View::Name(_) | View::Compound(_, _) => unreachable!(),
    }
}

/// That a variable less an older one is zero.
fn less_variable(alloc: Global, variable: VarId, older: VarId) -> Result<Constraint, AllocError>
    requires { older.0 < variable.0 }
    ensures { IfOk result (λ c. c ≡ zero_difference variable.0 (variable_form older.0)) }
{
    let one = Frac::one();
    Ok(Constraint {
        relation: Relation::Eq,
        form: Form::new(alloc, Frac::zero(), &[(older, one.neg()), (variable, one)])?,
    })
}

/// That a variable less a number is zero.
fn less_number(alloc: Global, variable: VarId, value: Frac) -> Result<Constraint, AllocError>
    ensures { IfOk result (λ c. c ≡ zero_difference variable.0 (constant_form value)) }
{
    Ok(Constraint {
        relation: Relation::Eq,
        form: Form::new(alloc, value.neg(), &[(variable, Frac::one())])?,
    })
}

/// The variables of the terms become numeric, and are told.
pub(crate) fn make_numeric(
    world: &mut World,
    told: &[TermId],
    fixed: &mut Vec<VarId>,
) -> Result<(), AllocError>
    requires { All (λ id. id < length world.old.heap.now.terms) told.now }
    ensures numeric { OnOk result ((v : ℕ) → is_numeric world.new.attrs.now v ≡ (is_numeric world.old.attrs.now v
        || list_any (λ id. list_any (λ w. w == v) (variables (at world.old.heap.now.terms id))) told.now)) }
    ensures unbound { OnOk result (All (λ id. All (IsUnbound world.old.heap.now.images) (variables (at world.old.heap.now.terms id))) told.now) }
    ensures told { OnOk result (All (λ id. All (Contains (numbers_of fixed.new.items)) (variables (at world.old.heap.now.terms id))) told.now) }
    ensures still { (v : ℕ) → Contains (numbers_of fixed.old.items) v → Contains (numbers_of fixed.new.items) v }
    ensures waiting { world.new.attrs.now.waiting ≡ world.old.attrs.now.waiting }
    ensures heap { world.new.heap.now ≡ world.old.heap.now }
    ensures store { world.new.store.told ≡ world.old.store.told }
    ensures marks { KeepsMarks world.old world.new }
{
    for &term in told {
        let variables = vars_of(&world.heap, term)?;
        make_each_numeric(&mut world.attrs, &variables, fixed)?;
    }
    Ok(())
}

/// The variables become numeric, and are told.
fn make_each_numeric(
    attrs: &mut Attrs,
    variables: &[VarId],
    fixed: &mut Vec<VarId>,
) -> Result<(), AllocError>
    ensures numeric { OnOk result ((v : ℕ) → is_numeric attrs.new.now v ≡ (is_numeric attrs.old.now v
        || list_any (λ w. w == v) (numbers_of variables.now))) }
    ensures told { OnOk result (fixed.new.items ≡ fixed.old.items ++ variables.now) }
    ensures still { (v : ℕ) → Contains (numbers_of fixed.old.items) v → Contains (numbers_of fixed.new.items) v }
    ensures waiting { attrs.new.now.waiting ≡ attrs.old.now.waiting }
    ensures saved { attrs.new.saved ≡ attrs.old.saved }
    ensures room { attrs.old.room ≤ attrs.new.room }
{
    for &variable in variables {
        attrs.set_numeric(variable)?;
        fixed.push(variable)?;
    }
    Ok(())
}

/// Those of the variables that are numeric and unbound are bound to the values that the list gives them.
pub(crate) fn bind_fixed(
    world: &mut World,
    fixed: &[VarId],
    newly: &mut Newly,
) -> Result<(), AllocError>
    requires { All (λ v. v < length world.old.heap.now.images) world.old.attrs.now.numeric }
    ensures bound { OnOk result ((values : ℕ → Option ℚ)
        × BindsValues world.old.attrs.now world.old.store.told world.old.heap.now world.new.heap.now newly.old newly.new values
        × ((v : ℕ) (q : ℚ) → Contains (numbers_of fixed.now) v → is_numeric world.old.attrs.now v ≡ true → at world.old.heap.now.images v ≡ Var v
        → Fixed world.old.store.told v q → values v ≡ Some q)) }
    ensures attrs { world.new.attrs.now ≡ world.old.attrs.now }
    ensures store { world.new.store.told ≡ world.old.store.told }
    ensures marks { KeepsMarks world.old world.new }
{
    for &variable in fixed {
        bind_value(world, variable, newly)?;
    }
    Ok(())
}

/// A numeric variable that is unbound is bound to the value that the list gives it.
fn bind_value(world: &mut World, variable: VarId, newly: &mut Newly) -> Result<(), AllocError>
    requires { All (λ v. v < length world.old.heap.now.images) world.old.attrs.now.numeric }
    ensures bound { OnOk result ((values : ℕ → Option ℚ)
        × BindsValues world.old.attrs.now world.old.store.told world.old.heap.now world.new.heap.now newly.old newly.new values
        × ((q : ℚ) → is_numeric world.old.attrs.now variable.0 ≡ true → at world.old.heap.now.images variable.0 ≡ Var variable.0
        → Fixed world.old.store.told variable.0 q → values variable.0 ≡ Some q)) }
    ensures attrs { world.new.attrs.now ≡ world.old.attrs.now }
    ensures store { world.new.store.told ≡ world.old.store.told }
    ensures marks { KeepsMarks world.old world.new }
{
    if !world.attrs.is_numeric(variable) {
        return Ok(());
    }
    let Some(value) = world.store.value(variable) else {
        return Ok(());
    };
    if !is_unbound(&world.heap, variable) {
        return Ok(());
    }
    let number = world.heap.number(value)?;
    world.heap.bind(variable, number)?;
    newly.push(variable)
}

/// Whether a variable is unbound.
fn is_unbound(heap: &Heap, variable: VarId) -> bool
    requires { variable.0 < length heap.now.now.images }
    ensures { MatchBool result (at heap.now.now.images variable.0 ≡ Var variable.0) (at heap.now.now.images variable.0 ≡ Var variable.0 → ⊥) }
{
    match heap.view(heap.var_term(variable)) {
        View::Var(image) => image == variable,
        View::Number(_) | View::Name(_) | View::Compound(_, _) => false,
    }
}
