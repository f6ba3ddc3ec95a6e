//! Certificates with entries that are found over restored columns.

ghost use Rattle.std.specs.Prelude.{◌≡◌, ◌≤◌, ◌∷◌, ◌++◌, ℕ, IfOk};
ghost use Rattle.spec_numbers.specs.Rational.{1ℚ, neg_ℚ};
ghost use Rattle.spec_linear.specs.Form.{negated_form};
ghost use Rattle.cq_frac.specs.declared.Pair.{Pair};
ghost use Rattle.cq_dict.specs.DictValue.{quantities_of};
ghost use Rattle.cq_dict.specs.Roles.{IsRow};
ghost use Rattle.cq_simplex.specs.declared.SimplexFault.TheVariants.{Overflow, Pivots};
ghost use Rattle.cq_tableau.specs.Numbered.{AreNumbered};
ghost use Rattle.cq_tableau.specs.Restored.{HasGreatest, IsRestoredCertificate, RefusesRaised, SpendsRaised, AsksGreatest, IsFormCertificate, RefusesFormEntries, SpendsFormEntries, IsApartCertificate, RefusesEither, SpendsEither};

use crate::names::Name;
use crate::negating::negated;
use crate::restoring::{form_entries, row_entries};
use cq_dict::dict::Dict;
use cq_form::{Cert, Form};
use cq_frac::{Frac, VarId};
use cq_simplex::SimplexFault;
use cq_trail::Stack;
use indexmap::IndexMap;
use std::alloc::{AllocError, Global};

/// The constraint of this number, once, and the entries behind it.
fn with_member(
    alloc: Global,
    number: usize,
    found: &[(usize, Frac)],
) -> Result<Vec<(usize, Frac)>, AllocError>
    ensures { IfOk result (λ s. s.items ≡ (number, 1ℚ) ∷ found.now) }
{
    let mut entries = Vec::new(alloc);
    entries.push((number, Frac::one()))?;
    entries.extend_from_slice(found)?;
    Ok(entries)
}

/// The constraint of this number, once, and the one run of entries, and its negative, and the other run.
fn with_both(
    alloc: Global,
    number: usize,
    up: &[(usize, Frac)],
    down: &[(usize, Frac)],
) -> Result<Vec<(usize, Frac)>, AllocError>
    ensures { IfOk result (λ s. s.items ≡ (number, 1ℚ) ∷ up.now ++ (number, neg_ℚ 1ℚ) ∷ down.now) }
{
    let mut entries = with_member(alloc, number, up)?;
    entries.push((number, Frac::one().neg()))?;
    entries.extend_from_slice(down)?;
    Ok(entries)
}

/// The certificate of the row that is held to its greatest value, for the constraint of this number.
pub fn row_certificate(
    alloc: Global,
    pivots: u64,
    names: &Stack<Name>,
    dict: &mut Dict,
    q: usize,
    number: usize,
) -> Result<Cert, SimplexFault>
    requires row { IsRow dict.old.roles q }
    requires greatest { HasGreatest dict.old.roles dict.old.restricted q }
    ensures certificate { IfOk result (λ cert. IsRestoredCertificate names.now.now q dict.old.roles dict.old.restricted number cert) }
    ensures saved { dict.new.saved ≡ dict.old.saved }
    ensures room { dict.old.room ≤ dict.new.room }
    ensures overflow { (pair : Pair) → result ≡ Err (Overflow pair) → RefusesRaised q dict.old.roles dict.old.restricted pair }
    ensures pivots { (n : ℕ) → result ≡ Err (Pivots n) → (n ≡ pivots) × SpendsRaised q dict.old.roles dict.old.restricted n }
{
    let found = row_entries(alloc, pivots, names, dict, q)?;
    let entries = with_member(alloc, number, &found)?;
    Ok(Cert::new(entries))
}

/// The certificate of the form that is held to its greatest value, for the constraint of this number.
pub fn form_certificate(
    alloc: Global,
    pivots: u64,
    numbers: &IndexMap<VarId, usize>,
    names: &Stack<Name>,
    dict: &mut Dict,
    form: &Form,
    number: usize,
) -> Result<Cert, SimplexFault>
    requires numbered { AreNumbered names.now.now numbers.now.entries }
    requires greatest { AsksGreatest names.now.now (quantities_of dict.old) form.now }
    ensures certificate { IfOk result (λ cert. IsFormCertificate names.now.now (quantities_of dict.old) form.now number cert) }
    ensures saved { dict.new.saved ≡ dict.old.saved }
    ensures room { dict.old.room ≤ dict.new.room }
    ensures overflow { (pair : Pair) → result ≡ Err (Overflow pair) → RefusesFormEntries names.now.now (quantities_of dict.old) form.now pair }
    ensures pivots { (n : ℕ) → result ≡ Err (Pivots n) → (n ≡ pivots) × SpendsFormEntries names.now.now (quantities_of dict.old) form.now n }
{
    let found = form_entries(alloc, pivots, numbers, names, dict, form)?;
    let entries = with_member(alloc, number, &found)?;
    Ok(Cert::new(entries))
}

/// The certificate of the form that is held to a greatest value as its negative is, for the disequation of this number.
pub fn apart_certificate(
    alloc: Global,
    pivots: u64,
    numbers: &IndexMap<VarId, usize>,
    names: &Stack<Name>,
    dict: &mut Dict,
    form: &Form,
    number: usize,
) -> Result<Cert, SimplexFault>
    requires numbered { AreNumbered names.now.now numbers.now.entries }
    requires greatest { AsksGreatest names.now.now (quantities_of dict.old) form.now }
    requires least { AsksGreatest names.now.now (quantities_of dict.old) (negated_form form.now) }
    ensures certificate { IfOk result (λ cert. IsApartCertificate names.now.now (quantities_of dict.old) form.now number cert) }
    ensures saved { dict.new.saved ≡ dict.old.saved }
    ensures room { dict.old.room ≤ dict.new.room }
    ensures overflow { (pair : Pair) → result ≡ Err (Overflow pair) → RefusesEither names.now.now (quantities_of dict.old) form.now pair }
    ensures pivots { (n : ℕ) → result ≡ Err (Pivots n) → (n ≡ pivots) × SpendsEither names.now.now (quantities_of dict.old) form.now n }
{
    let up = form_entries(alloc, pivots, numbers, names, dict, form)?;
    let opposite = negated(alloc, form)?;
    let down = form_entries(alloc, pivots, numbers, names, dict, &opposite)?;
    let entries = with_both(alloc, number, &up, &down)?;
    Ok(Cert::new(entries))
}
