// Why a built-in predicate gives no solution.

ghost use Rattle.std.specs.Prelude.{◌≡◌};
ghost use Rattle.cq_built.specs.Errors.{type_name, domain_name, representation_name, action_name, object_name};
ghost use Rattle.cq_built.specs.declared.errors.BuiltinFault.TheVariants.{NoMemory};

use cq_frac::Frac;
use cq_term::{Pred, TermId};
use std::alloc::AllocError;
use thiserror::Error;

/// What a term should have been.
#[derive(Clone, Copy, Debug, PartialEq, Eq)]
pub enum ValidType {
    Atom,
    Atomic,
    Callable,
    Character,
    Compound,
    Constraint,
    Evaluable,
    Integer,
    Linear,
    List,
    Number,
    PredicateIndicator,
}

impl ValidType {
    pub(crate) fn name(self) -> &'static str
        ensures { result.now ≡ type_name self }
    {
        match self {
            ValidType::Atom => "atom",
            ValidType::Atomic => "atomic",
            ValidType::Callable => "callable",
            ValidType::Character => "character",
            ValidType::Compound => "compound",
            ValidType::Constraint => "constraint",
            ValidType::Evaluable => "evaluable",
            ValidType::Integer => "integer",
            ValidType::Linear => "linear",
            ValidType::List => "list",
            ValidType::Number => "number",
            ValidType::PredicateIndicator => "predicate_indicator",
        }
    }
}

/// Among what a term of the right type should have been.
#[derive(Clone, Copy, Debug, PartialEq, Eq)]
pub enum ValidDomain {
    Library,
    NonEmptyList,
    NotLessThanZero,
    OperatorPriority,
    OperatorSpecifier,
}

impl ValidDomain {
    pub(crate) fn name(self) -> &'static str
        ensures { result.now ≡ domain_name self }
    {
        match self {
            ValidDomain::Library => "library",
            ValidDomain::NonEmptyList => "non_empty_list",
            ValidDomain::NotLessThanZero => "not_less_than_zero",
            ValidDomain::OperatorPriority => "operator_priority",
            ValidDomain::OperatorSpecifier => "operator_specifier",
        }
    }
}

/// What cannot be represented.
#[derive(Clone, Copy, Debug, PartialEq, Eq)]
pub enum Representation {
    CharacterCode,
    MaxArity,
}

impl Representation {
    pub(crate) fn name(self) -> &'static str
        ensures { result.now ≡ representation_name self }
    {
        match self {
            Representation::CharacterCode => "character_code",
            Representation::MaxArity => "max_arity",
        }
    }
}

/// What is not permitted.
#[derive(Clone, Copy, Debug, PartialEq, Eq)]
pub enum Permission {
    ModifyStaticProcedure,
    AccessPrivateProcedure,
    ModifyOperator,
    CreateOperator,
}

impl Permission {
    pub(crate) fn action(self) -> &'static str
        ensures { result.now ≡ action_name self }
    {
        match self {
            Permission::ModifyStaticProcedure => "modify",
            Permission::AccessPrivateProcedure => "access",
            Permission::ModifyOperator => "modify",
            Permission::CreateOperator => "create",
        }
    }

    pub(crate) fn object(self) -> &'static str
        ensures { result.now ≡ object_name self }
    {
        match self {
            Permission::ModifyStaticProcedure => "static_procedure",
            Permission::AccessPrivateProcedure => "private_procedure",
            Permission::ModifyOperator => "operator",
            Permission::CreateOperator => "operator",
        }
    }
}

/// What an error blames.
#[derive(Clone, Copy, Debug)]
pub enum Culprit {
    Term(TermId),
    Number(Frac),
    /// The term NAME/ARITY.
    Predicate(Pred),
}

/// The error of a built-in predicate, from which its term is made only where it is raised.
#[derive(Clone, Copy, Debug)]
pub enum BuiltinError {
    Instantiation,
    Type(ValidType, Culprit),
    Domain(ValidDomain, Culprit),
    Representation(Representation),
    Permission(Permission, Culprit),
    UnknownProcedure(Pred),
    ZeroDivisor,
    IllegalNumber,
}

/// Why a built-in predicate gives no solutions.
#[derive(Clone, Copy, Debug, Error)]
pub enum BuiltinFault {
    #[error("an error of a predicate")]
    Error(BuiltinError),
    #[error("out of memory")]
    NoMemory,
}

impl From<AllocError> for BuiltinFault {
    ghost from_gives = { λ _ fault. fault ≡ NoMemory };

    fn from(_: AllocError) -> BuiltinFault {
        BuiltinFault::NoMemory
    }
}
