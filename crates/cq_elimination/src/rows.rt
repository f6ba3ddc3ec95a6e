//! Rows of an answer: scaled, and beside disequations of their forms made strict.
#![tactic(auto)]

ghost use Rattle.std.specs.Prelude.{◌≡◌, ◌≢◌, ◌++◌, map, IfOk, OnOk, MatchBool};
ghost use Rattle.spec_numbers.specs.Rational.{0ℚ, 1ℚ};
ghost use Rattle.spec_linear.specs.declared.Relation.TheVariants.{Ge};
ghost use Rattle.spec_linear.specs.Form.{IsForm};
ghost use Rattle.spec_linear.specs.Solution.{Has};
ghost use Rattle.spec_projection.specs.Lists.{AreForms};
ghost use Rattle.spec_projection.specs.Strict.{Strengthened};
ghost use Rattle.spec_simplex.specs.Overflow.{Moment, OverflowDue};
ghost use Rattle.cq_frac.specs.declared.Pair.{Pair};
ghost use Rattle.cq_elimination.specs.Steps.{AreRowsOf};
ghost use Rattle.cq_elimination.specs.Scaling.{canonical, canonical_of, ScalesForm, ScalesIn, AreDisequations, IsRelationBeside};

use crate::fourier::divided;
use cq_form::{Constraint, Form};
use cq_frac::row::Entry;
use cq_frac::{Frac, Refusal};
use spec_linear::Relation;
use std::alloc::Global;

/// Whether the two are one entry.
fn are_equal(a: Entry, b: Entry) -> bool
    ensures { MatchBool result (a ≡ b) (a ≡ b → ⊥) }
{
    a.quantity == b.quantity && a.factor == b.factor
}

/// Whether the two have the same entries.
fn have_same_entries(a: &[Entry], b: &[Entry]) -> bool
    ensures { MatchBool result (a.now ≡ b.now) (a.now ≡ b.now → ⊥) }
{
    if a.len() != b.len() {
        return false;
    }
    'entries: for (i, &entry) in a.iter().enumerate() {
        if !are_equal(entry, b[i]) {
            return false;
        }
    }
    true
}

/// Whether the two are one form.
fn are_one(f: &Form, g: &Form) -> bool
    ensures { MatchBool result (f.now ≡ g.now) (f.now ≡ g.now → ⊥) }
{
    if f.constant() == g.constant() {
        have_same_entries(f.entries(), g.entries())
    } else {
        false
    }
}

/// 1, unless the number is zero.
fn unit_of(number: Frac) -> Frac
    ensures zero { number ≡ 0ℚ → result ≡ 0ℚ }
    ensures unit { number ≢ 0ℚ → result ≡ 1ℚ }
{
    if number.is_zero() {
        Frac::zero()
    } else {
        Frac::one()
    }
}

/// The form by its first coefficient; 1 for a number, unless that is zero. Two forms are multiples of each other just
/// where this is one form.
pub fn scaled(alloc: Global, form: &Form) -> Result<Form, Refusal>
    ensures value { IfOk result (λ f. f ≡ canonical form.now) }
    ensures in_order { IsForm form.now }
    ensures overflow { (pair : Pair) → result ≡ Err (Refusal.Overflow pair) → ScalesForm form.now pair }
{
    let _entries = form.entries();
    match form.lead() {
        None => Ok(Form::new(alloc, unit_of(form.constant()), &[])?),
        Some(lead) => divided(alloc, form, lead.1),
    }
}

/// The forms of the rows, each scaled.
fn scaled_forms(alloc: Global, rows: &[Constraint]) -> Result<Vec<Form>, Refusal>
    ensures value { IfOk result (λ forms. forms.items ≡ map canonical_of rows.now) }
    ensures in_order { OnOk result (AreForms rows.now) }
    ensures overflow { (pair : Pair) → result ≡ Err (Refusal.Overflow pair) → ScalesIn rows.now pair }
{
    let mut forms = Vec::new(alloc);
    'rows: for row in rows {
        let form = scaled(alloc, &row.form)?;
        forms.push(form)?;
    }
    Ok(forms)
}

/// Whether the form is one of these.
fn is_among(form: &Form, forms: &[Form]) -> bool
    ensures { MatchBool result (Has form.now forms.now) (Has form.now forms.now → ⊥) }
{
    'forms: for other in forms {
        if are_one(form, other) {
            return true;
        }
    }
    false
}

/// Whether the relation is that of a weak inequality.
fn is_weak(relation: Relation) -> bool
    ensures { MatchBool result (relation ≡ Ge) (relation ≡ Ge → ⊥) }
{
    match relation {
        Relation::Ge => true,
        _ => false,
    }
}

/// The relation that the row has beside disequations of these scaled forms: a weak one is strict where its form is one of
/// theirs.
fn relation_beside(alloc: Global, row: &Constraint, forms: &[Form]) -> Result<Relation, Refusal>
    ensures relation { IfOk result (IsRelationBeside forms.now row.now) }
    ensures in_order { IsForm row.now.form }
    ensures overflow { (pair : Pair) → result ≡ Err (Refusal.Overflow pair) → ScalesForm row.now.form pair }
{
    let _entries = row.form.entries();
    if forms.is_empty() || !is_weak(row.relation) {
        return Ok(row.relation);
    }
    let own = scaled(alloc, &row.form)?;
    if is_among(&own, forms) {
        return Ok(Relation::Gt);
    }
    Ok(row.relation)
}

/// The rows in their order, each weak one that has the form of a disequation, up to a factor, made strict. Overflow where a
/// number of a row or a disequation by one of its coefficients is refused.
pub fn strengthened(
    alloc: Global,
    disequations: &[Constraint],
    rows: &[Constraint],
) -> Result<Vec<Constraint>, Refusal>
    requires disequations { AreDisequations disequations.now }
    ensures strict { IfOk result (λ strict. Strengthened disequations.now rows.now strict.items) }
    ensures overflow { (pair : Pair) (m : Moment) → AreRowsOf m (disequations.now ++ rows.now)
        → result ≡ Err (Refusal.Overflow pair) → OverflowDue m pair }
{
    let forms = scaled_forms(alloc, disequations)?;
    let mut strict = Vec::new(alloc);
    'rows: for row in rows {
        let relation = relation_beside(alloc, row, &forms)?;
        let form = row.form.clone()?;
        strict.push(Constraint { relation, form })?;
    }
    Ok(strict)
}
