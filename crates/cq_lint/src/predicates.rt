// Predicates by their names' texts, and lists of them.

ghost use Rattle.std.specs.Prelude.{◌≡◌, IfOk, OnOk};
ghost use Rattle.spec_builtins.specs.Built.{indicator, same_indicator};
ghost use Rattle.cq_lint.specs.Predicates.{has, with};

use std::alloc::{AllocError, Global};
use std::marker::Model;

/// A predicate: its name and how many arguments it has. Contracts see it as an indicator.
#[derive(Drop)]
pub struct Predicate {
    pub name: String,
    pub arity: usize,
}

impl Model for Predicate {
    ghost use Rattle.std.specs.Prelude.{string_bytes};
    ghost use Rattle.spec_builtins.specs.Built.{Indicator};

    ghost Value = { Indicator };

    ghost view = { λ p. record { name = string_bytes p.name; arity = p.arity } };
}

impl Predicate {
    /// The predicate of a name and so many arguments.
    pub fn new(alloc: Global, name: &str, arity: usize) -> Result<Predicate, AllocError>
        ensures { IfOk result (λ p. p ≡ indicator name.now arity) }
    {
        let name = String::from_str(alloc, name)?;
        Ok(Predicate { name, arity })
    }

    /// The same once more.
    pub fn copy(&self, alloc: Global) -> Result<Predicate, AllocError>
        ensures { IfOk result (λ p. p ≡ self.now) }
    {
        Predicate::new(alloc, self.name.as_str(), self.arity)
    }

    /// Whether it is another.
    pub fn is(&self, other: &Predicate) -> bool
        ensures { result ≡ same_indicator self.now other.now }
    {
        self.name.as_str() == other.name.as_str() && self.arity == other.arity
    }
}

/// Whether a list has the predicate.
pub(crate) fn has(predicates: &[Predicate], predicate: &Predicate) -> bool
    ensures { result ≡ has predicates.now predicate.now }
{
    for other in predicates {
        if predicate.is(other) {
            return true;
        }
    }
    false
}

/// Puts a predicate at the end of a list that lacks it.
pub(crate) fn put(predicates: &mut Vec<Predicate>, predicate: Predicate) -> Result<(), AllocError>
    ensures { OnOk result (predicates.new.items ≡ with predicates.old.items predicate) }
{
    if has(predicates, &predicate) {
        return Ok(());
    }
    predicates.push(predicate)?;
    Ok(())
}
