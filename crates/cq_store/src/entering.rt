//! The steps of telling a constraint. Where one of them is refused, the store is left between marks, to be undone.

ghost use Rattle.std.specs.Prelude.{◌≡◌, ◌≤◌, ℕ, List, [], ◌∷◌, ◌++◌, IfOk, MatchBool};
ghost use Rattle.spec_linear.specs.declared.Relation.TheVariants.{Ne};
ghost use Rattle.spec_linear.specs.Solution.{Constraint, Solvable, Unsolvable};
ghost use Rattle.spec_simplex.specs.Asked.{NoQuestion};
ghost use Rattle.spec_projection.specs.Elimination.{IsInequality};
ghost use Rattle.spec_numbers.specs.Prefixes.{IsPrefix};
ghost use Rattle.cq_frac.specs.declared.Pair.{Pair};
ghost use Rattle.cq_store.specs.declared.store.StoreFault.TheVariants.{Overflow, Pivots};
ghost use Rattle.cq_store.specs.StoreValue.{MayRefuse, MayTake, Only};
ghost use Rattle.cq_dict.specs.DictValue.{quantities_of};
ghost use Rattle.cq_dict.specs.Roles.{Quantities};
ghost use Rattle.cq_tableau.specs.declared.names.Name.{Name};
ghost use Rattle.cq_store.specs.Entered.{IfJoined, IfContradiction, IsJoined, IsRefuted, CanJoin};
ghost use Rattle.cq_store.specs.Questions.{OfStored};
ghost use Rattle.cq_tableau.specs.Faced.{IsOnFace};
ghost use Rattle.cq_tableau.specs.Stored.{IsStored, JoinsStored};
ghost use Rattle.spec_linear.specs.Certificate.{Refutes};
ghost use Rattle.cq_tableau.specs.Numbered.{AreNumbered};

use crate::asking::{ask, is_zero};
use crate::equating::{can_enter_equation, enter_equation};
use crate::falling::fallen_certificate;
use crate::store::StoreFault;
use cq_dict::dict::Dict;
use cq_form::{Cert, Constraint};
use cq_frac::VarId;
use cq_frac::row::Entry;
use cq_tableau::face::facing::face;
use cq_tableau::fixing::{fixed_now, open_variables};
use cq_tableau::names::Name;
use cq_tableau::raising::{Raised, raise};
use cq_tableau::refuting::{certificate, disequation_certificate, is_refused};
use cq_tableau::weighing::{apart_certificate, row_certificate};
use cq_trail::{Both, Stack};
use indexmap::IndexMap;
use spec_linear::Relation;
use std::alloc::Global;

/// The told list, and the quantities and their names.
pub type Held = Both<Stack<Constraint>, Both<Stack<Name>, Dict>>;

/// What entering a constraint came to.
#[derive(Drop)]
pub enum Entered {
    /// It joined, and these variables have got a value by it.
    Joined(Vec<VarId>),
    /// It contradicts the others, as the certificate shows.
    Contradiction(Cert),
}

/// Enters an inequality behind the told list. Where its form rises it fixes no variable.
pub fn enter_inequality(
    alloc: Global,
    pivots: u64,
    numbers: &mut IndexMap<VarId, usize>,
    names: &mut Stack<Name>,
    dict: &mut Dict,
    told: &[Constraint],
    c: &Constraint,
) -> Result<Entered, StoreFault>
    requires inequality { IsInequality c.now.relation }
    requires numbered { AreNumbered names.old.now numbers.old.entries }
    requires stored { IsStored told.now names.old.now (quantities_of dict.old) }
    ensures joined { IsJoined result told.now c.now names.new.now (quantities_of dict.new) }
    ensures refuted { IsRefuted result told.now c.now }
    ensures overflow { (pair : Pair) → result ≡ Err (Overflow pair) → MayRefuse told.now (Only c.now) NoQuestion pair }
    ensures pivots { (n : ℕ) → result ≡ Err (Pivots n) → (n ≡ pivots) × MayTake told.now (Only c.now) NoQuestion n }
    ensures grows { IsPrefix names.old.now names.new.now }
    ensures numbered { AreNumbered names.new.now numbers.new.entries }
    ensures names_saved { names.new.saved ≡ names.old.saved }
    ensures names_room { names.old.room ≤ names.new.room }
    ensures dict_saved { dict.new.saved ≡ dict.old.saved }
    ensures dict_room { dict.old.room ≤ dict.new.room }
{
    let q = ask(alloc, numbers, names, dict, &c.form)?;
    names.reserve_places(1)?;
    let number = told.len() + 1;
    match raise(dict, alloc, q, pivots)? {
        Raised::Rises => {
            names.push(Name::Member(number)).unwrap();
            Ok(Entered::Joined(Vec::new(alloc)))
        }
        Raised::Best(greatest, columns) => {
            if is_refused(c.relation, greatest) {
                match certificate(alloc, told, names, dict, q, number)? {
                    Some(cert) => Ok(Entered::Contradiction(cert)),
                    None => {
                        let restored = row_certificate(alloc, pivots, names, dict, q, number)?;
                        Ok(Entered::Contradiction(restored))
                    }
                }
            } else {
                enter_on_face(alloc, pivots, numbers, names, dict, told, c, q, &columns)
            }
        }
    }
}

/// Enters a weak inequality whose form has zero for its greatest value: its own quantity and those of the columns are zero from
/// then on.
fn enter_on_face(
    alloc: Global,
    pivots: u64,
    numbers: &IndexMap<VarId, usize>,
    names: &mut Stack<Name>,
    dict: &mut Dict,
    told: &[Constraint],
    c: &Constraint,
    q: usize,
    columns: &[Entry],
) -> Result<Entered, StoreFault>
    requires numbered { AreNumbered names.old.now numbers.now.entries }
    requires on_face { IsOnFace told.now names.old.now c.now dict.old.roles dict.old.restricted q columns.now }
    ensures joined { IsJoined result told.now c.now names.new.now (quantities_of dict.new) }
    ensures refuted { IsRefuted result told.now c.now }
    ensures overflow { (pair : Pair) → result ≡ Err (Overflow pair) → MayRefuse told.now (Only c.now) NoQuestion pair }
    ensures pivots { (n : ℕ) → result ≡ Err (Pivots n) → (n ≡ pivots) × MayTake told.now (Only c.now) NoQuestion n }
    ensures grows { IsPrefix names.old.now names.new.now }
    ensures numbered { AreNumbered names.new.now numbers.now.entries }
    ensures names_saved { names.new.saved ≡ names.old.saved }
    ensures names_room { names.old.room ≤ names.new.room }
    ensures dict_saved { dict.new.saved ≡ dict.old.saved }
    ensures dict_room { dict.old.room ≤ dict.new.room }
{
    let before = open_variables(alloc, names, dict)?;
    let fallen = face(alloc, pivots, told, names, dict, q, columns)?;
    names.reserve_places(1)?;
    names.push(Name::Member(told.len() + 1)).unwrap();
    if let Some(z) = fallen {
        let cert = fallen_certificate(alloc, pivots, numbers, names, dict, told, c, z)?;
        return Ok(Entered::Contradiction(cert));
    }
    let fixed = fixed_now(alloc, numbers, names, dict, &before)?;
    Ok(Entered::Joined(fixed))
}

/// Enters a disequation behind the told list. It fixes no variable.
pub fn enter_disequation(
    alloc: Global,
    pivots: u64,
    numbers: &mut IndexMap<VarId, usize>,
    names: &mut Stack<Name>,
    dict: &mut Dict,
    told: &[Constraint],
    c: &Constraint,
) -> Result<Entered, StoreFault>
    requires disequation { c.now.relation ≡ Ne }
    requires numbered { AreNumbered names.old.now numbers.old.entries }
    requires stored { IsStored told.now names.old.now (quantities_of dict.old) }
    ensures joined { IsJoined result told.now c.now names.new.now (quantities_of dict.new) }
    ensures refuted { IsRefuted result told.now c.now }
    ensures overflow { (pair : Pair) → result ≡ Err (Overflow pair) → MayRefuse told.now (Only c.now) NoQuestion pair }
    ensures pivots { (n : ℕ) → result ≡ Err (Pivots n) → (n ≡ pivots) × MayTake told.now (Only c.now) NoQuestion n }
    ensures grows { IsPrefix names.old.now names.new.now }
    ensures numbered { AreNumbered names.new.now numbers.new.entries }
    ensures names_saved { names.new.saved ≡ names.old.saved }
    ensures names_room { names.old.room ≤ names.new.room }
    ensures dict_saved { dict.new.saved ≡ dict.old.saved }
    ensures dict_room { dict.old.room ≤ dict.new.room }
{
    let q = ask(alloc, numbers, names, dict, &c.form)?;
    let number = told.len() + 1;
    if is_zero(dict, q) {
        return match disequation_certificate(alloc, told, names, dict, q, number)? {
            Some(cert) => Ok(Entered::Contradiction(cert)),
            None => {
                names.reserve_places(1)?;
                names.push(Name::Member(number)).unwrap();
                let restored = apart_certificate(
                    alloc, pivots, numbers, names, dict, &c.form, number,
                )?;
                Ok(Entered::Contradiction(restored))
            }
        };
    }
    names.reserve_places(1)?;
    names.push(Name::Member(number)).unwrap();
    Ok(Entered::Joined(Vec::new(alloc)))
}

/// Enters a constraint of any relation behind the told list.
fn enter_behind(
    alloc: Global,
    pivots: u64,
    numbers: &mut IndexMap<VarId, usize>,
    names: &mut Stack<Name>,
    dict: &mut Dict,
    told: &[Constraint],
    c: &Constraint,
) -> Result<Entered, StoreFault>
    requires numbered { AreNumbered names.old.now numbers.old.entries }
    requires stored { IsStored told.now names.old.now (quantities_of dict.old) }
    ensures joined { IsJoined result told.now c.now names.new.now (quantities_of dict.new) }
    ensures refuted { IsRefuted result told.now c.now }
    ensures overflow { (pair : Pair) → result ≡ Err (Overflow pair) → MayRefuse told.now (Only c.now) NoQuestion pair }
    ensures pivots { (n : ℕ) → result ≡ Err (Pivots n) → (n ≡ pivots) × MayTake told.now (Only c.now) NoQuestion n }
    ensures grows { IsPrefix names.old.now names.new.now }
    ensures numbered { AreNumbered names.new.now numbers.new.entries }
    ensures names_saved { names.new.saved ≡ names.old.saved }
    ensures names_room { names.old.room ≤ names.new.room }
    ensures dict_saved { dict.new.saved ≡ dict.old.saved }
    ensures dict_room { dict.old.room ≤ dict.new.room }
{
    match c.relation {
        Relation::Ge | Relation::Gt => enter_inequality(
            alloc, pivots, numbers, names, dict, told, c,
        ),
        Relation::Ne => enter_disequation(alloc, pivots, numbers, names, dict, told, c),
        Relation::Eq => enter_equation(alloc, pivots, numbers, names, dict, told, c),
    }
}

/// Enters the constraint, and puts it last in the told list.
pub fn enter(
    alloc: Global,
    pivots: u64,
    numbers: &mut IndexMap<VarId, usize>,
    held: &mut Held,
    c: Constraint,
) -> Result<Entered, StoreFault>
    requires numbered { AreNumbered held.old.second.first.now numbers.old.entries }
    requires stored { IsStored held.old.first.now held.old.second.first.now (quantities_of held.old.second.second) }
    ensures told { IfOk result (λ e. IfJoined e (λ fixed. held.new.first.now ≡ held.old.first.now ++ c ∷ [])) }
    ensures joined { IsJoined result held.old.first.now c held.new.second.first.now (quantities_of held.new.second.second) }
    ensures refuted { IsRefuted result held.old.first.now c }
    ensures overflow { (pair : Pair) → result ≡ Err (Overflow pair) → MayRefuse held.old.first.now (Only c) NoQuestion pair }
    ensures pivots { (n : ℕ) → result ≡ Err (Pivots n) → (n ≡ pivots) × MayTake held.old.first.now (Only c) NoQuestion n }
    ensures grows { IsPrefix held.old.second.first.now held.new.second.first.now }
    ensures numbered { AreNumbered held.new.second.first.now numbers.new.entries }
    ensures told_saved { held.new.first.saved ≡ held.old.first.saved }
    ensures told_room { held.old.first.room ≤ held.new.first.room }
    ensures names_saved { held.new.second.first.saved ≡ held.old.second.first.saved }
    ensures names_room { held.old.second.first.room ≤ held.new.second.first.room }
    ensures dict_saved { held.new.second.second.saved ≡ held.old.second.second.saved }
    ensures dict_room { held.old.second.second.room ≤ held.new.second.second.room }
{
    held.first.reserve_places(1)?;
    let told = held.first.as_slice();
    let quantities = &mut held.second;
    let entered = enter_behind(
        alloc,
        pivots,
        numbers,
        &mut quantities.first,
        &mut quantities.second,
        told,
        &c,
    )?;
    match entered {
        Entered::Joined(fixed) => {
            held.first.push(c).unwrap();
            Ok(Entered::Joined(fixed))
        }
        Entered::Contradiction(cert) => Ok(Entered::Contradiction(cert)),
    }
}

/// Whether a constraint joined, by what entering it came to.
pub fn has_joined(entered: Entered) -> bool
    ensures { (told : List Constraint) (c : Constraint) (names : List Name) (q : Quantities) → IfJoined entered (λ fixed. JoinsStored told c fixed names q)
        → IfContradiction entered (λ cert. Refutes cert (told ++ c ∷ [])) → CanJoin told c result }
{
    match entered {
        Entered::Joined(_) => true,
        Entered::Contradiction(_) => false,
    }
}

/// Whether an inequality can join. No certificate is sought where its form stays too small.
fn can_enter_inequality(
    alloc: Global,
    pivots: u64,
    numbers: &mut IndexMap<VarId, usize>,
    names: &mut Stack<Name>,
    dict: &mut Dict,
    told: &[Constraint],
    c: &Constraint,
) -> Result<bool, StoreFault>
    requires inequality { IsInequality c.now.relation }
    requires numbered { AreNumbered names.old.now numbers.old.entries }
    requires stored { IsStored told.now names.old.now (quantities_of dict.old) }
    ensures solvable { IfOk result (CanJoin told.now c.now) }
    ensures overflow { (pair : Pair) → result ≡ Err (Overflow pair) → MayRefuse told.now (Only c.now) NoQuestion pair }
    ensures pivots { (n : ℕ) → result ≡ Err (Pivots n) → (n ≡ pivots) × MayTake told.now (Only c.now) NoQuestion n }
    ensures grows { IsPrefix names.old.now names.new.now }
    ensures numbered { AreNumbered names.new.now numbers.new.entries }
    ensures names_saved { names.new.saved ≡ names.old.saved }
    ensures names_room { names.old.room ≤ names.new.room }
    ensures dict_saved { dict.new.saved ≡ dict.old.saved }
    ensures dict_room { dict.old.room ≤ dict.new.room }
{
    let q = ask(alloc, numbers, names, dict, &c.form)?;
    match raise(dict, alloc, q, pivots)? {
        Raised::Rises => Ok(true),
        Raised::Best(highest, columns) => {
            if is_refused(c.relation, highest) {
                return Ok(false);
            }
            let entered = enter_on_face(alloc, pivots, numbers, names, dict, told, c, q, &columns)?;
            Ok(has_joined(entered))
        }
    }
}

/// Whether a disequation can join: it can't just where its form is zero. No certificate is sought then.
fn can_enter_disequation(
    alloc: Global,
    numbers: &mut IndexMap<VarId, usize>,
    names: &mut Stack<Name>,
    dict: &mut Dict,
    c: &Constraint,
) -> Result<bool, StoreFault>
    requires disequation { c.now.relation ≡ Ne }
    requires numbered { AreNumbered names.old.now numbers.old.entries }
    requires stored { (told : List Constraint) × IsStored told names.old.now (quantities_of dict.old) }
    ensures solvable { IfOk result (λ yes. OfStored names.old.now (quantities_of dict.old) (λ told. CanJoin told c.now yes)) }
    ensures overflow { (pair : Pair) → result ≡ Err (Overflow pair)
        → OfStored names.old.now (quantities_of dict.old) (λ told. MayRefuse told (Only c.now) NoQuestion pair) }
    ensures pivots { (n : ℕ) → result ≡ Err (Pivots n) → ⊥ }
    ensures grows { IsPrefix names.old.now names.new.now }
    ensures numbered { AreNumbered names.new.now numbers.new.entries }
    ensures names_saved { names.new.saved ≡ names.old.saved }
    ensures names_room { names.old.room ≤ names.new.room }
    ensures dict_saved { dict.new.saved ≡ dict.old.saved }
    ensures dict_room { dict.old.room ≤ dict.new.room }
{
    let q = ask(alloc, numbers, names, dict, &c.form)?;
    Ok(!is_zero(dict, q))
}

/// Whether a constraint of any relation can join.
fn can_enter_behind(
    alloc: Global,
    pivots: u64,
    numbers: &mut IndexMap<VarId, usize>,
    names: &mut Stack<Name>,
    dict: &mut Dict,
    told: &[Constraint],
    c: &Constraint,
) -> Result<bool, StoreFault>
    requires numbered { AreNumbered names.old.now numbers.old.entries }
    requires stored { IsStored told.now names.old.now (quantities_of dict.old) }
    ensures solvable { IfOk result (CanJoin told.now c.now) }
    ensures overflow { (pair : Pair) → result ≡ Err (Overflow pair) → MayRefuse told.now (Only c.now) NoQuestion pair }
    ensures pivots { (n : ℕ) → result ≡ Err (Pivots n) → (n ≡ pivots) × MayTake told.now (Only c.now) NoQuestion n }
    ensures grows { IsPrefix names.old.now names.new.now }
    ensures numbered { AreNumbered names.new.now numbers.new.entries }
    ensures names_saved { names.new.saved ≡ names.old.saved }
    ensures names_room { names.old.room ≤ names.new.room }
    ensures dict_saved { dict.new.saved ≡ dict.old.saved }
    ensures dict_room { dict.old.room ≤ dict.new.room }
{
    match c.relation {
        Relation::Ge | Relation::Gt => can_enter_inequality(
            alloc, pivots, numbers, names, dict, told, c,
        ),
        Relation::Ne => can_enter_disequation(alloc, numbers, names, dict, c),
        Relation::Eq => can_enter_equation(alloc, pivots, numbers, names, dict, told, c),
    }
}

/// Whether the constraint can join. What is held is left changed, to be undone.
pub fn can_enter(
    alloc: Global,
    pivots: u64,
    numbers: &mut IndexMap<VarId, usize>,
    held: &mut Held,
    c: Constraint,
) -> Result<bool, StoreFault>
    requires numbered { AreNumbered held.old.second.first.now numbers.old.entries }
    requires stored { IsStored held.old.first.now held.old.second.first.now (quantities_of held.old.second.second) }
    ensures solvable { IfOk result (λ yes. MatchBool yes (Solvable (held.old.first.now ++ c ∷ [])) (Unsolvable (held.old.first.now ++ c ∷ []))) }
    ensures overflow { (pair : Pair) → result ≡ Err (Overflow pair) → MayRefuse held.old.first.now (Only c) NoQuestion pair }
    ensures pivots { (n : ℕ) → result ≡ Err (Pivots n) → (n ≡ pivots) × MayTake held.old.first.now (Only c) NoQuestion n }
    ensures grows { IsPrefix held.old.second.first.now held.new.second.first.now }
    ensures numbered { AreNumbered held.new.second.first.now numbers.new.entries }
    ensures told_saved { held.new.first.saved ≡ held.old.first.saved }
    ensures told_room { held.old.first.room ≤ held.new.first.room }
    ensures names_saved { held.new.second.first.saved ≡ held.old.second.first.saved }
    ensures names_room { held.old.second.first.room ≤ held.new.second.first.room }
    ensures dict_saved { held.new.second.second.saved ≡ held.old.second.second.saved }
    ensures dict_room { held.old.second.second.room ≤ held.new.second.second.room }
{
    let told = held.first.as_slice();
    let quantities = &mut held.second;
    can_enter_behind(
        alloc,
        pivots,
        numbers,
        &mut quantities.first,
        &mut quantities.second,
        told,
        &c,
    )
}
