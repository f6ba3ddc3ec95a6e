//! Certificates that a list has no solution, read off rows over the columns of its members.

ghost use Rattle.std.specs.Prelude.{◌≡◌, ◌++◌, IsTrue, IfOk, IfSome, OnOk, MatchBool, MatchOption};
ghost use Rattle.std.specs.List.{AllByRecursion};
ghost use Rattle.spec_numbers.specs.Rational.{0ℚ, ◌≤ℚ◌};
ghost use Rattle.spec_linear.specs.declared.Relation.TheVariants.{Ge};
ghost use Rattle.spec_projection.specs.Elimination.{IsInequality};
ghost use Rattle.spec_linear.specs.Certificate.{Allows, IsAllowed};
ghost use Rattle.spec_simplex.specs.Entries.{entries};
ghost use Rattle.cq_form.specs.Entries.{products_of};
ghost use Rattle.cq_frac.specs.Row.{Row};
ghost use Rattle.cq_dict.specs.declared.table.Role.TheVariants.{Basic};
ghost use Rattle.cq_dict.specs.Roles.{IsAt, IsRow};
ghost use Rattle.cq_tableau.specs.Refuted.{number_in, IsRowCertificate, IsTooSmall, IsTwoRuns};
ghost use Rattle.cq_tableau.specs.Stored.{IsAny, IsMemberOf};

use crate::names::Name;
use cq_dict::dict::Dict;
use cq_form::{Cert, Constraint};
use cq_frac::Frac;
use cq_frac::row::{Entry, opposed};
use cq_trail::Stack;
use spec_linear::Relation;
use std::alloc::{AllocError, Global};

/// The relation of the told constraint that the quantity is for.
pub fn relation_of(told: &[Constraint], names: &Stack<Name>, n: usize) -> Option<Relation>
    ensures { MatchOption result (IsMemberOf IsAny told.now names.now.now n → ⊥) (λ r. IsMemberOf (λ s. s ≡ r) told.now names.now.now n) }
{
    let i = member_number(names, n);
    if i == 0 || i > told.len() {
        return None;
    }
    let c = &told[i - 1];
    Some(c.relation)
}

/// The number of the told constraint that the quantity is for; 0 where it is for none.
pub fn member_number(names: &Stack<Name>, n: usize) -> usize
    ensures { result ≡ number_in names.now.now n }
{
    if n >= names.len() {
        return 0;
    }
    match names.get(n) {
        Name::Member(i) => *i,
        Name::Variable(_) => 0,
    }
}

/// Whether a constraint of this relation may be multiplied by the number.
fn allows(relation: Relation, number: Frac) -> bool
    ensures { IsTrue result → Allows relation number }
{
    match relation {
        Relation::Eq => true,
        Relation::Gt | Relation::Ge => !number.is_negative(),
        Relation::Ne => false,
    }
}

/// Whether an inequality can't hold where this is its form's greatest value over the others.
pub fn is_refused(relation: Relation, greatest: Frac) -> bool
    requires inequality { IsInequality relation }
    requires short { greatest ≤ℚ 0ℚ }
    ensures { MatchBool result (IsTooSmall relation greatest) ((greatest ≡ 0ℚ) × (relation ≡ Ge)) }
{
    match relation {
        Relation::Gt => true,
        _ => greatest.is_negative(),
    }
}

/// Whether there is a told constraint of this number, from 1, that may be multiplied by the factor.
fn is_allowed(told: &[Constraint], number: usize, factor: Frac) -> bool
    ensures { IsTrue result → IsAllowed told.now (number, factor) }
{
    if number == 0 || number > told.len() {
        return false;
    }
    let c = &told[number - 1];
    allows(c.relation, factor)
}

/// Whether each column is that of a told constraint which may be multiplied by the negative of the column's factor.
pub fn are_allowed(told: &[Constraint], names: &Stack<Name>, row: &[Entry]) -> bool
    ensures { IsTrue result → AllByRecursion (IsAllowed told.now) (entries (number_in names.now.now) (products_of row.now)) }
{
    for m in row {
        if !is_allowed(told, member_number(names, m.quantity), m.factor.neg()) {
            return false;
        }
    }
    true
}

/// Adds the columns' constraints, each with the negative of the column's factor.
pub fn add_members(
    cert: &mut Vec<(usize, Frac)>,
    names: &Stack<Name>,
    row: &[Entry],
) -> Result<(), AllocError>
    ensures { OnOk result (cert.new.items ≡ cert.old.items ++ entries (number_in names.now.now) (products_of row.now)) }
{
    for m in row {
        cert.push((member_number(names, m.quantity), m.factor.neg()))?;
    }
    Ok(())
}

/// The certificate that a row makes whose constant is its greatest value, for the constraint of this number.
///
/// None where a dropped column is for an inequality that may not be multiplied so.
pub fn certificate(
    alloc: Global,
    told: &[Constraint],
    names: &Stack<Name>,
    dict: &Dict,
    q: usize,
    number: usize,
) -> Result<Option<Cert>, AllocError>
    requires { IsRow dict.now.roles q }
    ensures { IfOk result (λ o. IfSome o (λ cert. (own : Row) → IsAt dict.now.roles q (Basic own) → IsRowCertificate told.now names.now.now number own cert)) }
{
    if !are_allowed(told, names, dict.dropped(q)) {
        return Ok(None);
    }
    let mut entries = Vec::new(alloc);
    entries.push((number, Frac::one()))?;
    add_members(&mut entries, names, dict.row(q))?;
    add_members(&mut entries, names, dict.dropped(q))?;
    Ok(Some(Cert::new(entries)))
}

/// The certificate for the disequation of this number, where the row of its form is zero: its run, and that of its negative.
///
/// None where a dropped column is for an inequality.
pub fn disequation_certificate(
    alloc: Global,
    told: &[Constraint],
    names: &Stack<Name>,
    dict: &Dict,
    q: usize,
    number: usize,
) -> Result<Option<Cert>, AllocError>
    requires { IsRow dict.now.roles q }
    ensures { IfOk result (λ o. IfSome o (λ cert. (own : Row) → IsAt dict.now.roles q (Basic own) → IsTwoRuns told.now names.now.now number own cert)) }
{
    let opposite = opposed(alloc, dict.dropped(q))?;
    if !are_allowed(told, names, dict.dropped(q)) || !are_allowed(told, names, &opposite) {
        return Ok(None);
    }
    let mut entries = Vec::new(alloc);
    entries.push((number, Frac::one()))?;
    add_members(&mut entries, names, dict.dropped(q))?;
    entries.push((number, Frac::one().neg()))?;
    add_members(&mut entries, names, &opposite)?;
    Ok(Some(Cert::new(entries)))
}
