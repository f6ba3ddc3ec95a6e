//! The operator table: which names are operators, with what priority and of what kind.
#![tactic(auto)]

mod operators;
mod standard;

ghost use Rattle.std.specs.Prelude.{◌≡◌, ℕ, ◌<◌, ◌≤◌, ◌&&◌, ◌||◌, ◌==◌, not, nat_le, pos, is_some, List, Some, None, Ok, length, bytes_eq, codes, IfSome, IfOk, IfErr, IsOk, Err, OnOk, OnErr, ◌≢◌, MatchOption};
ghost use Rattle.spec_syntax.specs.Writing.{IsTable};
ghost use Rattle.std.specs.FinMap as map;
ghost use Rattle.spec_numbers.specs.Texts.{Text};
ghost use Rattle.cq_term.specs.Texts.{KeepsTexts, text_of};
ghost use Rattle.spec_syntax.specs.Operators.{Fits, Prefix, Infix, Postfix, entry, in_range, position_of, kind_named, is_bracket, set};
ghost use Rattle.cq_ops.specs.Tables.{Tables, AreNamed, GainsNames, IsByText, named, put_number, is_number_at_odds};
ghost use Rattle.cq_ops.specs.Faults.{Explains, IsAdmitted};

use cq_term::atoms::{Atom, Atoms};
use operators::Operators;
use spec_syntax::operators::{OpDef, OpKind};
use std::alloc::{AllocError, Global};
use std::marker::Model;
use thiserror::Error;

/// The operators in force. Contracts see, for each position, the finite map from the number of a name to the operator
/// that it is there; `named` reads it by the texts of the names.
#[derive(Drop)]
pub struct Ops {
    prefix: Operators,
    infixed: Operators,
    postfix: Operators,
}

impl Model for Ops {
    ghost use Rattle.cq_ops.specs.Tables.{Tables, AreFit};
    ghost use Rattle.cq_ops.specs.Code.{tables_code};

    ghost Value = { Tables };

    ghost coded = { tables_code };

    ghost view = { λ ops. record { prefix = ops.prefix; infixed = ops.infixed; postfix = ops.postfix } };

    ghost invariant = { λ ops. AreFit (record { prefix = ops.prefix; infixed = ops.infixed; postfix = ops.postfix }) };
}

/// A table on which changes can be tried: several that must all be made, or none, are made on a copy that then takes the
/// place of the table.
impl Clone for Ops {
    ghost is_clone = { λ ops copy. copy ≡ ops };

    fn clone(&self) -> Result<Ops, AllocError> {
        Ok(Ops {
            prefix: self.prefix.clone()?,
            infixed: self.infixed.clone()?,
            postfix: self.postfix.clone()?,
        })
    }
}

/// Why an operator is not set, in the order in which it is looked for.
#[derive(Clone, Copy, PartialEq, Eq, Debug, Error)]
pub enum OpFault {
    #[error("the priority is not from 0 to 1200")]
    BadPriority,
    #[error("no kind of operator has this name")]
    BadKind,
    #[error("the comma stays as it is")]
    Comma,
    #[error("an infix operator would be postfix too, or the name is a bracket")]
    Clash,
    #[error("out of memory")]
    NoMemory,
}

impl Ops {
    /// The operator that a name is before an operand.
    pub fn prefix(&self, name: Atom) -> Option<OpDef>
        ensures value { result ≡ map.get self.now.prefix name }
        ensures fits { IfSome result (Fits Prefix) }
        ensures by_text { IsByText Prefix self.now name result }
    {
        self.prefix.get(name)
    }

    /// The operator that a name is between two operands.
    pub fn infix(&self, name: Atom) -> Option<OpDef>
        ensures value { result ≡ map.get self.now.infixed name }
        ensures fits { IfSome result (Fits Infix) }
        ensures by_text { IsByText Infix self.now name result }
    {
        self.infixed.get(name)
    }

    /// The operator that a name is behind an operand.
    pub fn postfix(&self, name: Atom) -> Option<OpDef>
        ensures value { result ≡ map.get self.now.postfix name }
        ensures fits { IfSome result (Fits Postfix) }
        ensures by_text { IsByText Postfix self.now name result }
    {
        self.postfix.get(name)
    }

    /// Looks whether `set` would set the operator, where memory suffices.
    pub fn check(
        &self,
        atoms: &Atoms,
        priority: i128,
        kind: &str,
        name: Atom,
    ) -> Result<(), OpFault>
        requires { name < length atoms.now }
        ensures ok { OnOk result (IsOk (set (named atoms.now self.now) priority kind.now (text_of atoms.now name))) }
        ensures refused { IfErr result (λ fault. Explains fault (set (named atoms.now self.now) priority kind.now (text_of atoms.now name))) }
        ensures memory { result ≢ Err OpFault.NoMemory }
    {
        match self.admitted(atoms, priority, kind, name) {
            Ok(_) => Ok(()),
            Err(fault) => Err(fault),
        }
    }

    /// Sets an operator, as the goal `op/3` does, or takes it away at priority 0.
    pub fn set(
        &mut self,
        atoms: &Atoms,
        priority: i128,
        kind: &str,
        name: Atom,
    ) -> Result<(), OpFault>
        requires { name < length atoms.now }
        ensures ok { OnOk result (set (named atoms.now self.old) priority kind.now (text_of atoms.now name) ≡ Ok (named atoms.now self.new)) }
        ensures refused { IfErr result (λ fault. Explains fault (set (named atoms.now self.old) priority kind.now (text_of atoms.now name))) }
        ensures unchanged { OnErr result (self.new ≡ self.old) }
        ensures known { AreNamed atoms.now self.old → AreNamed atoms.now self.new }
        ensures table { IsTable (named atoms.now self.old) → IsTable (named atoms.now self.new) }
    {
        let (priority, kind) = match self.admitted(atoms, priority, kind, name) {
            Ok(admitted) => admitted,
            Err(fault) => return Err(fault),
        };
        match self.put(priority, kind, name) {
            Ok(()) => Ok(()),
            Err(_) => Err(OpFault::NoMemory),
        }
    }

    /// The priority and the kind, where the operator may be set.
    fn admitted(
        &self,
        atoms: &Atoms,
        priority: i128,
        kind: &str,
        name: Atom,
    ) -> Result<(u16, OpKind), OpFault>
        requires { name < length atoms.now }
        ensures ok { IfOk result (λ op. IsAdmitted atoms.now self.now priority kind.now name op.0 op.1) }
        ensures refused { IfErr result (λ fault. Explains fault (set (named atoms.now self.now) priority kind.now (text_of atoms.now name))) }
        ensures memory { result ≢ Err OpFault.NoMemory }
    {
        let Some(priority) = priority_in_range(priority) else {
            return Err(OpFault::BadPriority);
        };
        let Some(kind) = kind_named(kind) else {
            return Err(OpFault::BadKind);
        };
        let text = atoms.text(name);
        if is_comma(text) {
            return Err(OpFault::Comma);
        }
        if self.clashes(text, priority, kind, name) {
            return Err(OpFault::Clash);
        }
        Ok((priority, kind))
    }

    /// Whether the name, of this text, may not be such an operator.
    fn clashes(&self, text: &str, priority: u16, kind: OpKind, name: Atom) -> bool
        ensures { result ≡ (is_bracket text.now || (not (priority == 0) && is_number_at_odds (position_of kind) self.now name)) }
    {
        is_bracket(text) || self.is_at_odds(priority, kind, name)
    }

    /// Whether the name is an infix operator and would be a postfix one, or the other way round.
    fn is_at_odds(&self, priority: u16, kind: OpKind, name: Atom) -> bool
        ensures { result ≡ (not (priority == 0) && is_number_at_odds (position_of kind) self.now name) }
    {
        if priority == 0 {
            return false;
        }
        match kind {
            OpKind::Fy | OpKind::Fx => false,
            OpKind::Xfx | OpKind::Xfy | OpKind::Yfx => self.postfix.get(name).is_some(),
            OpKind::Xf | OpKind::Yf => self.infixed.get(name).is_some(),
        }
    }

    /// Sets an operator, or takes it away at priority 0.
    fn put(&mut self, priority: u16, kind: OpKind, name: Atom) -> Result<(), AllocError>
        requires { priority ≤ 1200 }
        ensures ok { OnOk result (self.new ≡ put_number self.old priority kind name) }
        ensures err { OnErr result (self.new ≡ self.old) }
    {
        let op = entry(priority, kind);
        match kind {
            OpKind::Fy | OpKind::Fx => self.prefix.set(name, op),
            OpKind::Xfx | OpKind::Xfy | OpKind::Yfx => self.infixed.set(name, op),
            OpKind::Xf | OpKind::Yf => self.postfix.set(name, op),
        }
    }
}

/// What a name is with this priority.
fn entry(priority: u16, kind: OpKind) -> Option<OpDef>
    ensures { result ≡ entry priority kind }
{
    if priority > 0 {
        Some(OpDef { priority, kind })
    } else {
        None
    }
}

/// The priority, where it is from 0 to 1200.
fn priority_in_range(priority: i128) -> Option<u16>
    ensures { result ≡ in_range priority }
{
    if 0 <= priority && priority <= 1200 {
        Some(priority as u16)
    } else {
        None
    }
}

/// The kind that has this name.
fn kind_named(name: &str) -> Option<OpKind>
    ensures { result ≡ kind_named name.now }
{
    if name == "xfx" {
        Some(OpKind::Xfx)
    } else if name == "xfy" {
        Some(OpKind::Xfy)
    } else if name == "yfx" {
        Some(OpKind::Yfx)
    } else if name == "fy" {
        Some(OpKind::Fy)
    } else if name == "fx" {
        Some(OpKind::Fx)
    } else if name == "xf" {
        Some(OpKind::Xf)
    } else if name == "yf" {
        Some(OpKind::Yf)
    } else {
        None
    }
}

fn is_comma(name: &str) -> bool
    ensures { result ≡ bytes_eq name.now (codes ",") }
{
    name == ","
}

/// Whether the name is never an operator.
fn is_bracket(name: &str) -> bool
    ensures { result ≡ is_bracket name.now }
{
    name == "[]" || name == "{}" || name == "|"
}

/// More names change no operator.
pub fn more_names_keep_the_table()
    ensures table { (old new : List Text) (tables : Tables) → GainsNames old new → AreNamed old tables → named new tables ≡ named old tables }
    ensures known { (old new : List Text) (tables : Tables) → KeepsTexts old new → AreNamed old tables → AreNamed new tables }
{}
