//! Equations: the quantity of a told one is a dropped column, unless its row is zero by other equations.

ghost use Rattle.std.specs.Prelude.{◌≡◌, ◌≤◌, ℕ, [], ◌∷◌, ◌++◌, ◌+◌, length, IfOk, IfSome, OnOk, MatchOption};
ghost use Rattle.spec_numbers.specs.Rational.{0ℚ, 1ℚ, neg_ℚ};
ghost use Rattle.spec_numbers.specs.Sums.{Mentions};
ghost use Rattle.spec_linear.specs.Certificate.{Refutes};
ghost use Rattle.spec_linear.specs.declared.Relation.TheVariants.{Eq};
ghost use Rattle.spec_linear.specs.Form.{negated_form};
ghost use Rattle.spec_simplex.specs.Asked.{NoQuestion};
ghost use Rattle.spec_numbers.specs.Prefixes.{IsPrefix};
ghost use Rattle.cq_frac.specs.declared.Pair.{Pair};
ghost use Rattle.cq_frac.specs.Row.{Row};
ghost use Rattle.cq_dict.specs.declared.table.Role.TheVariants.{Basic};
ghost use Rattle.cq_dict.specs.DictValue.{quantities_of};
ghost use Rattle.cq_dict.specs.Roles.{IsAt, IsRow, AreOverColumns, HasEntry, constant_at};
ghost use Rattle.cq_simplex.specs.declared.SimplexFault.TheVariants as of_search;
ghost use Rattle.cq_tableau.specs.declared.names.Name.TheVariants.{Member};
ghost use Rattle.cq_tableau.specs.Numbered.{AreNumbered};
ghost use Rattle.cq_tableau.specs.Restored.{AsksGreatest, RefusesFormEntries, SpendsFormEntries};
ghost use Rattle.cq_tableau.specs.Looked.{SpeaksOfSome, LooksOn, RefusesLook, SpendsLook};
ghost use Rattle.cq_tableau.specs.Stored.{IsKnown, IsStored, IsBetween};
ghost use Rattle.cq_store.specs.declared.store.StoreFault.TheVariants.{Overflow, Pivots};
ghost use Rattle.cq_store.specs.Alone.{IsNewIn};
ghost use Rattle.cq_store.specs.Entered.{IfJoined, IsJoined, IsRefuted, CanJoin};
ghost use Rattle.cq_store.specs.Equated.{IsRowBehind, Crosses, IsLevelRow, HasNoLiveEntry, IsHeldBy, IsHeldColumn, StayNumbered, IsConcluded, IsFound, StaysBelow, IsToJoinSome, OfJoining, IsApproached, IsOppositeCertificate, IsOppositeRowCertificate};
ghost use Rattle.cq_store.specs.StoreValue.{MayRefuse, MayTake, Only};
ghost use Rattle.cq_store.specs.Fallen.{FallsAt};

use crate::entering::{Entered, has_joined};
use crate::falling::fallen_certificate;
use crate::solving::{enter_by_new, free_column_of, new_place};
use crate::store::StoreFault;
use cq_dict::dict::{Col, Dict};
use cq_form::{Cert, Constraint, Form};
use cq_frac::row::{Entry, opposed};
use cq_frac::{Frac, VarId};
use cq_simplex::SimplexFault;
use cq_tableau::face::facing::{fallen_among, fallen_disequation};
use cq_tableau::fixing::{fixed_now, open_among, open_variables};
use cq_tableau::level::choosing::lightest_column;
use cq_tableau::level::levelling::{Levelled, level};
use cq_tableau::looking::look_again;
use cq_tableau::names::Name;
use cq_tableau::negating::negated;
use cq_tableau::placing::place;
use cq_tableau::refuting::{add_members, are_allowed, certificate};
use cq_tableau::restoring::form_entries;
use cq_tableau::weighing::form_certificate;
use cq_trail::{Stack, Undo};
use indexmap::IndexMap;
use std::alloc::{AllocError, Global};

/// Where an equation's row has come to.
#[derive(Clone, Copy)]
enum Approached {
    /// The row of this number is zero.
    Zero(usize),
    /// The row has values on both sides of zero, and where it is zero the column may take its place.
    Crossing(usize, Col),
    /// The row of this number is held below zero by its columns.
    Below(usize),
    /// It is held above.
    Above(usize),
}

/// Names the quantity of a constraint that joins, and tells what it came to: a member falls by it, or none, and then these variables
/// have got a value.
fn conclude(
    alloc: Global,
    pivots: u64,
    numbers: &IndexMap<VarId, usize>,
    names: &mut Stack<Name>,
    dict: &mut Dict,
    told: &[Constraint],
    c: &Constraint,
    before: &[VarId],
    fallen: Option<usize>,
) -> Result<Entered, StoreFault>
    requires numbered { AreNumbered names.old.now numbers.now.entries }
    requires between { IsBetween (told.now ++ c.now ∷ []) (names.old.now ++ Member (length told.now + 1) ∷ []) (quantities_of dict.old) }
    requires falls { IfSome fallen (FallsAt told.now (told.now ++ c.now ∷ []) (names.old.now ++ Member (length told.now + 1) ∷ [])) }
    ensures joined { IfOk result
        (λ e. IfJoined e (IsConcluded told.now names.old.now (quantities_of dict.old) before.now fallen names.new.now (quantities_of dict.new))) }
    ensures refuted { IsRefuted result told.now c.now }
    ensures overflow { (pair : Pair) → result ≡ Err (Overflow pair) → MayRefuse told.now (Only c.now) NoQuestion pair }
    ensures pivots { (n : ℕ) → result ≡ Err (Pivots n) → (n ≡ pivots) × MayTake told.now (Only c.now) NoQuestion n }
    ensures grows { IsPrefix names.old.now names.new.now }
    ensures numbered { AreNumbered names.new.now numbers.now.entries }
    ensures names_saved { names.new.saved ≡ names.old.saved }
    ensures names_room { names.old.room ≤ names.new.room }
    ensures dict_saved { dict.new.saved ≡ dict.old.saved }
    ensures dict_room { dict.old.room ≤ dict.new.room }
{
    names.reserve_places(1)?;
    names.push(Name::Member(told.len() + 1)).unwrap();
    if let Some(z) = fallen {
        let cert = fallen_certificate(alloc, pivots, numbers, names, dict, told, c, z)?;
        return Ok(Entered::Contradiction(cert));
    }
    let fixed = fixed_now(alloc, numbers, names, dict, before)?;
    Ok(Entered::Joined(fixed))
}

/// Enters an equation by a column that may take its row's place: the equation's own quantity is a dropped column then. As the form has
/// values above and below zero, no inequality comes to be zero by it. Only the rows that hold the column change: no other is looked at.
fn enter_by_column(
    alloc: Global,
    pivots: u64,
    numbers: &IndexMap<VarId, usize>,
    names: &mut Stack<Name>,
    dict: &mut Dict,
    told: &[Constraint],
    c: &Constraint,
    q: usize,
    column: Col,
) -> Result<Entered, StoreFault>
    requires equation { c.now.relation ≡ Eq }
    requires numbered { AreNumbered names.old.now numbers.now.entries }
    requires crosses { Crosses told.now names.old.now c.now dict.old.roles dict.old.restricted q column }
    ensures joined { IsJoined result told.now c.now names.new.now (quantities_of dict.new) }
    ensures refuted { IsRefuted result told.now c.now }
    ensures overflow { (pair : Pair) → result ≡ Err (Overflow pair) → MayRefuse told.now (Only c.now) NoQuestion pair }
    ensures pivots { (n : ℕ) → result ≡ Err (Pivots n) → (n ≡ pivots) × MayTake told.now (Only c.now) NoQuestion n }
    ensures grows { IsPrefix names.old.now names.new.now }
    ensures numbered { AreNumbered names.new.now numbers.now.entries }
    ensures names_saved { names.new.saved ≡ names.old.saved }
    ensures names_room { names.old.room ≤ names.new.room }
    ensures dict_saved { dict.new.saved ≡ dict.old.saved }
    ensures dict_room { dict.old.room ≤ dict.new.room }
{
    let rows = dict.touched(column)?;
    let before = open_among(alloc, names, dict, &rows)?;
    dict.eliminate(q, column)?;
    let fallen = fallen_among(told, names, dict, &rows);
    conclude(
        alloc, pivots, numbers, names, dict, told, c, &before, fallen,
    )
}

/// Enters an equation by a column that may take its row's place. Where it mentions a variable of which the told list says nothing, of
/// this quantity, no other is looked at.
fn enter_crossing(
    alloc: Global,
    pivots: u64,
    numbers: &IndexMap<VarId, usize>,
    names: &mut Stack<Name>,
    dict: &mut Dict,
    told: &[Constraint],
    c: &Constraint,
    q: usize,
    column: Col,
    new: Option<usize>,
) -> Result<Entered, StoreFault>
    requires equation { c.now.relation ≡ Eq }
    requires numbered { AreNumbered names.old.now numbers.now.entries }
    requires crosses { Crosses told.now names.old.now c.now dict.old.roles dict.old.restricted q column }
    requires new { IfSome new (IsNewIn told.now names.old.now c.now) }
    ensures joined { IsJoined result told.now c.now names.new.now (quantities_of dict.new) }
    ensures refuted { IsRefuted result told.now c.now }
    ensures overflow { (pair : Pair) → result ≡ Err (Overflow pair) → MayRefuse told.now (Only c.now) NoQuestion pair }
    ensures pivots { (n : ℕ) → result ≡ Err (Pivots n) → (n ≡ pivots) × MayTake told.now (Only c.now) NoQuestion n }
    ensures grows { IsPrefix names.old.now names.new.now }
    ensures numbered { AreNumbered names.new.now numbers.now.entries }
    ensures names_saved { names.new.saved ≡ names.old.saved }
    ensures names_room { names.old.room ≤ names.new.room }
    ensures dict_saved { dict.new.saved ≡ dict.old.saved }
    ensures dict_room { dict.old.room ≤ dict.new.room }
{
    match new {
        Some(n) => enter_by_new(alloc, names, dict, told, c, q, column, n),
        None => enter_by_column(alloc, pivots, numbers, names, dict, told, c, q, column),
    }
}

/// A restricted column among the dropped ones of the row.
fn held_column(dict: &Dict, q: usize) -> Option<Col>
    requires table { AreOverColumns dict.now.roles }
    requires row { IsRow dict.now.roles q }
    ensures { IsHeldColumn dict.now.roles dict.now.restricted q result }
{
    for m in dict.dropped(q) {
        if dict.is_restricted(m.quantity) {
            return Some(m.quantity);
        }
    }
    None
}

/// Enters an equation whose row is zero by dropped columns, one of which is an inequality's: the equation's quantity is dropped in place
/// of this column, so that equations are zero by the columns of equations alone. It says nothing new.
fn enter_held(
    alloc: Global,
    names: &mut Stack<Name>,
    dict: &mut Dict,
    told: &[Constraint],
    c: &Constraint,
    q: usize,
    column: Col,
) -> Result<Entered, StoreFault>
    requires equation { c.now.relation ≡ Eq }
    requires behind { IsRowBehind told.now names.old.now c.now dict.old.roles dict.old.restricted q }
    requires zero { constant_at dict.old.roles q ≡ 0ℚ }
    requires number { HasNoLiveEntry dict.old.roles q }
    requires held { IsHeldBy dict.old.roles dict.old.restricted q column }
    ensures joined { IsJoined result told.now c.now names.new.now (quantities_of dict.new) }
    ensures refuted { IsRefuted result told.now c.now }
    ensures overflow { (pair : Pair) → result ≡ Err (Overflow pair) → MayRefuse told.now (Only c.now) NoQuestion pair }
    ensures pivots { (n : ℕ) → result ≡ Err (Pivots n) → ⊥ }
    ensures grows { IsPrefix names.old.now names.new.now }
    ensures numbered { StayNumbered names.old.now names.new.now }
    ensures names_saved { names.new.saved ≡ names.old.saved }
    ensures names_room { names.old.room ≤ names.new.room }
    ensures dict_saved { dict.new.saved ≡ dict.old.saved }
    ensures dict_room { dict.old.room ≤ dict.new.room }
{
    dict.restore_column(column)?;
    dict.eliminate(q, column)?;
    names.reserve_places(1)?;
    names.push(Name::Member(told.len() + 1)).unwrap();
    Ok(Entered::Joined(Vec::new(alloc)))
}

/// Enters an equation whose row is zero by dropped columns: it says nothing new.
fn enter_nothing(
    alloc: Global,
    names: &mut Stack<Name>,
    dict: &mut Dict,
    told: &[Constraint],
    c: &Constraint,
    q: usize,
) -> Result<Entered, StoreFault>
    requires equation { c.now.relation ≡ Eq }
    requires behind { IsRowBehind told.now names.old.now c.now dict.old.roles dict.old.restricted q }
    requires zero { constant_at dict.old.roles q ≡ 0ℚ }
    requires number { HasNoLiveEntry dict.old.roles q }
    ensures joined { IsJoined result told.now c.now names.new.now (quantities_of dict.new) }
    ensures refuted { IsRefuted result told.now c.now }
    ensures overflow { (pair : Pair) → result ≡ Err (Overflow pair) → MayRefuse told.now (Only c.now) NoQuestion pair }
    ensures pivots { (n : ℕ) → result ≡ Err (Pivots n) → ⊥ }
    ensures grows { IsPrefix names.old.now names.new.now }
    ensures numbered { StayNumbered names.old.now names.new.now }
    ensures names_saved { names.new.saved ≡ names.old.saved }
    ensures names_room { names.old.room ≤ names.new.room }
    ensures dict_saved { dict.new.saved ≡ dict.old.saved }
    ensures dict_room { dict.old.room ≤ dict.new.room }
{
    if let Some(column) = held_column(dict, q) {
        return enter_held(alloc, names, dict, told, c, q, column);
    }
    names.reserve_places(1)?;
    names.push(Name::Member(told.len() + 1)).unwrap();
    Ok(Entered::Joined(Vec::new(alloc)))
}

/// Looks at each member again, and finds one that can't hold: a strict inequality or a disequation whose form is zero.
fn look_at_members(
    alloc: Global,
    pivots: u64,
    told: &[Constraint],
    names: &Stack<Name>,
    dict: &mut Dict,
) -> Result<Option<usize>, StoreFault>
    requires { SpeaksOfSome dict.old.roles dict.old.restricted }
    ensures looks { OnOk result (LooksOn dict.old.roles dict.new.roles dict.old.restricted) }
    ensures found { IfOk result (IsFound told.now names.now.now dict.old.roles dict.new.roles dict.old.restricted) }
    ensures flags { dict.new.restricted ≡ dict.old.restricted }
    ensures saved { dict.new.saved ≡ dict.old.saved }
    ensures room { dict.old.room ≤ dict.new.room }
    ensures overflow { (pair : Pair) → result ≡ Err (Overflow pair) → RefusesLook dict.old.roles dict.old.restricted pair }
    ensures pivots { (n : ℕ) → result ≡ Err (Pivots n) → (n ≡ pivots) × SpendsLook dict.old.roles dict.old.restricted n }
{
    match look_again(alloc, pivots, told, names, dict)? {
        Some(strict) => Ok(Some(strict)),
        None => Ok(fallen_disequation(told, names, dict)),
    }
}

/// Enters an equation whose row is zero, by a restricted column of the row. Other quantities may be zero everywhere by it, so that each
/// member is looked at again.
fn enter_by_level(
    alloc: Global,
    pivots: u64,
    numbers: &IndexMap<VarId, usize>,
    names: &mut Stack<Name>,
    dict: &mut Dict,
    told: &[Constraint],
    c: &Constraint,
    q: usize,
    column: Col,
) -> Result<Entered, StoreFault>
    requires equation { c.now.relation ≡ Eq }
    requires numbered { AreNumbered names.old.now numbers.now.entries }
    requires level { IsLevelRow told.now names.old.now c.now dict.old.roles dict.old.restricted q column }
    ensures joined { IsJoined result told.now c.now names.new.now (quantities_of dict.new) }
    ensures refuted { IsRefuted result told.now c.now }
    ensures overflow { (pair : Pair) → result ≡ Err (Overflow pair) → MayRefuse told.now (Only c.now) NoQuestion pair }
    ensures pivots { (n : ℕ) → result ≡ Err (Pivots n) → (n ≡ pivots) × MayTake told.now (Only c.now) NoQuestion n }
    ensures grows { IsPrefix names.old.now names.new.now }
    ensures numbered { AreNumbered names.new.now numbers.now.entries }
    ensures names_saved { names.new.saved ≡ names.old.saved }
    ensures names_room { names.old.room ≤ names.new.room }
    ensures dict_saved { dict.new.saved ≡ dict.old.saved }
    ensures dict_room { dict.old.room ≤ dict.new.room }
{
    let before = open_variables(alloc, names, dict)?;
    dict.eliminate(q, column)?;
    let fallen = look_at_members(alloc, pivots, told, names, dict)?;
    conclude(
        alloc, pivots, numbers, names, dict, told, c, &before, fallen,
    )
}

/// The first live column of the row, if it has one.
fn first_column(dict: &Dict, q: usize) -> Option<Col>
    requires row { IsRow dict.now.roles q }
    ensures { MatchOption result (HasNoLiveEntry dict.now.roles q) (λ c. HasEntry dict.now.roles q c) }
{
    let row = dict.row(q);
    if row.is_empty() {
        return None;
    }
    Some(row[0].quantity)
}

/// Enters an equation whose row is zero.
fn enter_zero(
    alloc: Global,
    pivots: u64,
    numbers: &IndexMap<VarId, usize>,
    names: &mut Stack<Name>,
    dict: &mut Dict,
    told: &[Constraint],
    c: &Constraint,
    q: usize,
) -> Result<Entered, StoreFault>
    requires equation { c.now.relation ≡ Eq }
    requires numbered { AreNumbered names.old.now numbers.now.entries }
    requires behind { IsRowBehind told.now names.old.now c.now dict.old.roles dict.old.restricted q }
    requires zero { constant_at dict.old.roles q ≡ 0ℚ }
    ensures joined { IsJoined result told.now c.now names.new.now (quantities_of dict.new) }
    ensures refuted { IsRefuted result told.now c.now }
    ensures overflow { (pair : Pair) → result ≡ Err (Overflow pair) → MayRefuse told.now (Only c.now) NoQuestion pair }
    ensures pivots { (n : ℕ) → result ≡ Err (Pivots n) → (n ≡ pivots) × MayTake told.now (Only c.now) NoQuestion n }
    ensures grows { IsPrefix names.old.now names.new.now }
    ensures numbered { AreNumbered names.new.now numbers.now.entries }
    ensures names_saved { names.new.saved ≡ names.old.saved }
    ensures names_room { names.old.room ≤ names.new.room }
    ensures dict_saved { dict.new.saved ≡ dict.old.saved }
    ensures dict_room { dict.old.room ≤ dict.new.room }
{
    if let Some(column) = lightest_column(dict, q)? {
        return enter_by_column(alloc, pivots, numbers, names, dict, told, c, q, column);
    }
    match first_column(dict, q) {
        Some(column) => enter_by_level(alloc, pivots, numbers, names, dict, told, c, q, column),
        None => enter_nothing(alloc, names, dict, told, c, q),
    }
}

/// The certificate for an equation whose form is below zero at each solution of the told list: the one that was read off its row, or
/// else one that is sought.
fn below_certificate(
    alloc: Global,
    pivots: u64,
    numbers: &IndexMap<VarId, usize>,
    names: &Stack<Name>,
    dict: &mut Dict,
    told: &[Constraint],
    c: &Constraint,
    read: Option<Cert>,
) -> Result<Cert, SimplexFault>
    requires equation { c.now.relation ≡ Eq }
    requires numbered { AreNumbered names.now.now numbers.now.entries }
    requires stored { IsStored told.now names.now.now (quantities_of dict.old) }
    requires knows { (x : ℕ) → Mentions x c.now.form.products → IsKnown names.now.now x }
    requires below { StaysBelow told.now c.now.form }
    requires read { IfSome read (λ cert. Refutes cert (told.now ++ c.now ∷ [])) }
    ensures refuted { IfOk result (λ cert. Refutes cert (told.now ++ c.now ∷ [])) }
    ensures overflow { (pair : Pair) → result ≡ Err (of_search.Overflow pair) → MayRefuse told.now (Only c.now) NoQuestion pair }
    ensures pivots { (n : ℕ) → result ≡ Err (of_search.Pivots n) → (n ≡ pivots) × MayTake told.now (Only c.now) NoQuestion n }
    ensures saved { dict.new.saved ≡ dict.old.saved }
    ensures room { dict.old.room ≤ dict.new.room }
{
    if let Some(cert) = read {
        return Ok(cert);
    }
    form_certificate(alloc, pivots, numbers, names, dict, &c.form, told.len() + 1)
}

/// The constraint of this number, taken -1 times, and the entries behind it.
fn against_member(
    alloc: Global,
    number: usize,
    found: &[(usize, Frac)],
) -> Result<Vec<(usize, Frac)>, AllocError>
    ensures { IfOk result (λ s. s.items ≡ (number, neg_ℚ 1ℚ) ∷ found.now) }
{
    let mut entries = Vec::new(alloc);
    entries.push((number, Frac::one().neg()))?;
    entries.extend_from_slice(found)?;
    Ok(entries)
}

/// The certificate for the constraint of this number whose form's negative is held to its greatest value: the constraint, taken -1 times,
/// and what holds it there.
fn opposite_certificate(
    alloc: Global,
    pivots: u64,
    numbers: &IndexMap<VarId, usize>,
    names: &Stack<Name>,
    dict: &mut Dict,
    form: &Form,
    number: usize,
) -> Result<Cert, SimplexFault>
    requires numbered { AreNumbered names.now.now numbers.now.entries }
    requires least { AsksGreatest names.now.now (quantities_of dict.old) (negated_form form.now) }
    ensures certificate { IfOk result (λ cert. IsOppositeCertificate names.now.now (quantities_of dict.old) form.now number cert) }
    ensures saved { dict.new.saved ≡ dict.old.saved }
    ensures room { dict.old.room ≤ dict.new.room }
    ensures overflow { (pair : Pair) → result ≡ Err (of_search.Overflow pair)
        → RefusesFormEntries names.now.now (quantities_of dict.old) (negated_form form.now) pair }
    ensures pivots { (n : ℕ) → result ≡ Err (of_search.Pivots n)
        → (n ≡ pivots) × SpendsFormEntries names.now.now (quantities_of dict.old) (negated_form form.now) n }
{
    let opposite = negated(alloc, form)?;
    let found = form_entries(alloc, pivots, numbers, names, dict, &opposite)?;
    let entries = against_member(alloc, number, &found)?;
    Ok(Cert::new(entries))
}

/// The certificate that a row makes whose constant is its least value, for the equation of this number: the equation, taken -1 times,
/// and what the row with the other sign makes of its columns.
///
/// None where a dropped column is for an inequality that may not be multiplied so.
fn opposite_row_certificate(
    alloc: Global,
    told: &[Constraint],
    names: &Stack<Name>,
    dict: &Dict,
    q: usize,
    number: usize,
) -> Result<Option<Cert>, AllocError>
    requires { IsRow dict.now.roles q }
    ensures { IfOk result (λ o. IfSome o (λ cert. (own : Row) → IsAt dict.now.roles q (Basic own)
        → IsOppositeRowCertificate told.now names.now.now number own cert)) }
{
    let dropped = opposed(alloc, dict.dropped(q))?;
    if !are_allowed(told, names, &dropped) {
        return Ok(None);
    }
    let live = opposed(alloc, dict.row(q))?;
    let mut entries = Vec::new(alloc);
    entries.push((number, Frac::one().neg()))?;
    add_members(&mut entries, names, &live)?;
    add_members(&mut entries, names, &dropped)?;
    Ok(Some(Cert::new(entries)))
}

/// The certificate for an equation whose form is above zero at each solution of the told list: the one that was read off its row, or
/// else one that is sought.
fn above_certificate(
    alloc: Global,
    pivots: u64,
    numbers: &IndexMap<VarId, usize>,
    names: &Stack<Name>,
    dict: &mut Dict,
    told: &[Constraint],
    c: &Constraint,
    read: Option<Cert>,
) -> Result<Cert, SimplexFault>
    requires equation { c.now.relation ≡ Eq }
    requires numbered { AreNumbered names.now.now numbers.now.entries }
    requires stored { IsStored told.now names.now.now (quantities_of dict.old) }
    requires knows { (x : ℕ) → Mentions x c.now.form.products → IsKnown names.now.now x }
    requires above { StaysBelow told.now (negated_form c.now.form) }
    requires read { IfSome read (λ cert. Refutes cert (told.now ++ c.now ∷ [])) }
    ensures refuted { IfOk result (λ cert. Refutes cert (told.now ++ c.now ∷ [])) }
    ensures overflow { (pair : Pair) → result ≡ Err (of_search.Overflow pair) → MayRefuse told.now (Only c.now) NoQuestion pair }
    ensures pivots { (n : ℕ) → result ≡ Err (of_search.Pivots n) → (n ≡ pivots) × MayTake told.now (Only c.now) NoQuestion n }
    ensures saved { dict.new.saved ≡ dict.old.saved }
    ensures room { dict.old.room ≤ dict.new.room }
{
    if let Some(cert) = read {
        return Ok(cert);
    }
    opposite_certificate(alloc, pivots, numbers, names, dict, &c.form, told.len() + 1)
}

/// Makes a row of a form over the quantities, and brings it to zero, or to where it can cross zero, or shows that it can't be zero.
///
/// It can cross by the quantity of a new variable wherever it stands.
fn approach(
    dict: &mut Dict,
    places: &[Entry],
    constant: Frac,
    new: Option<usize>,
    pivots: u64,
) -> Result<Approached, SimplexFault>
    requires { IsToJoinSome (quantities_of dict.old) places.now constant }
    ensures approached { IfOk result (λ a. OfJoining (quantities_of dict.old) places.now constant (IsApproached dict.new.roles dict.new.restricted a)) }
    ensures saved { dict.new.saved ≡ dict.old.saved }
    ensures room { dict.old.room ≤ dict.new.room }
    ensures overflow { (pair : Pair) → result ≡ Err (of_search.Overflow pair)
        → OfJoining (quantities_of dict.old) places.now constant (λ told names c. MayRefuse told (Only c) NoQuestion pair) }
    ensures pivots { (n : ℕ) → result ≡ Err (of_search.Pivots n)
        → (n ≡ pivots) × OfJoining (quantities_of dict.old) places.now constant (λ told names c. MayTake told (Only c) NoQuestion n) }
{
    let q = dict.add_row(places, constant, false)?;
    if let Some(column) = free_column_of(dict, q, new) {
        return Ok(Approached::Crossing(q, column));
    }
    match level(dict, q, pivots)? {
        Levelled::Level => Ok(Approached::Zero(q)),
        Levelled::Crossing(column) => Ok(Approached::Crossing(q, column)),
        Levelled::Short => {
            if dict.constant(q).is_positive() {
                return Ok(Approached::Above(q));
            }
            Ok(Approached::Below(q))
        }
    }
}

/// Enters an equation behind the told list. Where its form can't be zero, a certificate is read off the row, which is taken
/// away again, or else one is sought.
pub fn enter_equation(
    alloc: Global,
    pivots: u64,
    numbers: &mut IndexMap<VarId, usize>,
    names: &mut Stack<Name>,
    dict: &mut Dict,
    told: &[Constraint],
    c: &Constraint,
) -> Result<Entered, StoreFault>
    requires equation { c.now.relation ≡ Eq }
    requires numbered { AreNumbered names.old.now numbers.old.entries }
    requires stored { IsStored told.now names.old.now (quantities_of dict.old) }
    ensures joined { IsJoined result told.now c.now names.new.now (quantities_of dict.new) }
    ensures refuted { IsRefuted result told.now c.now }
    ensures overflow { (pair : Pair) → result ≡ Err (Overflow pair) → MayRefuse told.now (Only c.now) NoQuestion pair }
    ensures pivots { (n : ℕ) → result ≡ Err (Pivots n) → (n ≡ pivots) × MayTake told.now (Only c.now) NoQuestion n }
    ensures grows { IsPrefix names.old.now names.new.now }
    ensures numbered { AreNumbered names.new.now numbers.new.entries }
    ensures names_saved { names.new.saved ≡ names.old.saved }
    ensures names_room { names.old.room ≤ names.new.room }
    ensures dict_saved { dict.new.saved ≡ dict.old.saved }
    ensures dict_room { dict.old.room ≤ dict.new.room }
{
    let known = names.len();
    let places = place(numbers, names, dict, alloc, &c.form)?;
    let new = new_place(&places, known);
    let start = dict.mark()?;
    match approach(dict, &places, c.form.constant(), new, pivots) {
        Ok(Approached::Zero(q)) => {
            dict.forget(start);
            enter_zero(alloc, pivots, numbers, names, dict, told, c, q)
        }
        Ok(Approached::Crossing(q, column)) => {
            dict.forget(start);
            enter_crossing(alloc, pivots, numbers, names, dict, told, c, q, column, new)
        }
        Ok(Approached::Below(q)) => {
            let read = certificate(alloc, told, names, dict, q, told.len() + 1);
            dict.undo(start);
            let cert = below_certificate(alloc, pivots, numbers, names, dict, told, c, read?)?;
            Ok(Entered::Contradiction(cert))
        }
        Ok(Approached::Above(q)) => {
            let read = opposite_row_certificate(alloc, told, names, dict, q, told.len() + 1);
            dict.undo(start);
            let cert = above_certificate(alloc, pivots, numbers, names, dict, told, c, read?)?;
            Ok(Entered::Contradiction(cert))
        }
        Err(fault) => {
            dict.undo(start);
            Err(StoreFault::from(fault))
        }
    }
}

/// Whether an equation can join. No certificate is sought where its form can't be zero.
pub fn can_enter_equation(
    alloc: Global,
    pivots: u64,
    numbers: &mut IndexMap<VarId, usize>,
    names: &mut Stack<Name>,
    dict: &mut Dict,
    told: &[Constraint],
    c: &Constraint,
) -> Result<bool, StoreFault>
    requires equation { c.now.relation ≡ Eq }
    requires numbered { AreNumbered names.old.now numbers.old.entries }
    requires stored { IsStored told.now names.old.now (quantities_of dict.old) }
    ensures solvable { IfOk result (CanJoin told.now c.now) }
    ensures overflow { (pair : Pair) → result ≡ Err (Overflow pair) → MayRefuse told.now (Only c.now) NoQuestion pair }
    ensures pivots { (n : ℕ) → result ≡ Err (Pivots n) → (n ≡ pivots) × MayTake told.now (Only c.now) NoQuestion n }
    ensures grows { IsPrefix names.old.now names.new.now }
    ensures numbered { AreNumbered names.new.now numbers.new.entries }
    ensures names_saved { names.new.saved ≡ names.old.saved }
    ensures names_room { names.old.room ≤ names.new.room }
    ensures dict_saved { dict.new.saved ≡ dict.old.saved }
    ensures dict_room { dict.old.room ≤ dict.new.room }
{
    let known = names.len();
    let places = place(numbers, names, dict, alloc, &c.form)?;
    let new = new_place(&places, known);
    match approach(dict, &places, c.form.constant(), new, pivots)? {
        Approached::Zero(q) => {
            let entered = enter_zero(alloc, pivots, numbers, names, dict, told, c, q)?;
            Ok(has_joined(entered))
        }
        Approached::Crossing(q, column) => {
            let entered = enter_crossing(
                alloc, pivots, numbers, names, dict, told, c, q, column, new,
            )?;
            Ok(has_joined(entered))
        }
        Approached::Below(_) => Ok(false),
        Approached::Above(_) => Ok(false),
    }
}
