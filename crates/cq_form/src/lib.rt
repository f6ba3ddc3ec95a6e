//! Linear forms with exact coefficients, linear constraints, and certificates that constraints have no solution.
#![tactic(auto)]

mod entries;

ghost use Rattle.std.specs.Prelude.{◌≡◌, [], map, IfOk, OnOk, slice_get};
ghost use Rattle.std.specs.Option.{option_map};
ghost use Rattle.spec_numbers.specs.Rational.{ℚ};
ghost use Rattle.spec_linear.specs.Form.{IsForm, sum_form, difference_form, scaled_form, substituted_form};
ghost use Rattle.cq_frac.specs.declared.Operation.{Operation};
ghost use Rattle.cq_frac.specs.declared.Pair.{Pair};
ghost use Rattle.cq_frac.specs.Refused.{Accepts, IsRefused};
ghost use Rattle.cq_form.specs.Entries.{entry_of, form_of, product_of, products_of};
ghost use Rattle.cq_form.specs.Steps.{joined_form, JoinedPair, SumPair, DifferencePair, ScalePair, SubstPair};

use crate::entries::{coefficient, entries_of, joined, others, scaled};
use cq_frac::row::{Entry, Joining};
use cq_frac::{Frac, Refusal, VarId, product};
use spec_linear::Relation;
use std::alloc::{AllocError, Global};
use std::marker::Model;

/// A linear form: variables with their coefficients, by ascending variable and none zero, and a constant.
#[derive(Debug, Drop)]
pub struct Form {
    constant: Frac,
    entries: Vec<Entry>,
}

impl Model for Form {
    ghost use Rattle.spec_linear.specs.Form.{Linear, IsForm};
    ghost use Rattle.cq_form.specs.Entries.{form_of, linear_code};

    ghost Value = { Linear };

    ghost coded = { linear_code };

    ghost view = { λ f. form_of f.constant f.entries.items };

    ghost invariant = { λ f. IsForm (form_of f.constant f.entries.items) };
}

impl Form {
    /// The form of a constant and the coefficients of variables.
    pub fn new(alloc: Global, constant: Frac, pairs: &[(VarId, Frac)]) -> Result<Form, AllocError>
        requires in_order { IsForm (form_of constant (map entry_of pairs.now)) }
        ensures { IfOk result (λ f. f ≡ form_of constant (map entry_of pairs.now)) }
    {
        Ok(Form {
            constant,
            entries: entries_of(alloc, pairs)?,
        })
    }

    /// The form of a constant and entries of variables.
    pub fn of_entries(constant: Frac, entries: Vec<Entry>) -> Form
        requires in_order { IsForm (form_of constant entries.items) }
        ensures { result ≡ form_of constant entries.items }
    {
        Form { constant, entries }
    }

    /// The value of the form where every variable is zero.
    pub fn constant(&self) -> Frac
        ensures { result ≡ self.now.constant }
    {
        self.constant
    }

    /// The variables with their coefficients, in order.
    pub fn entries(&self) -> &[Entry]
        ensures value { products_of result.now ≡ self.now.products }
        ensures in_order { IsForm self.now }
    {
        &self.entries
    }

    /// The oldest variable with its coefficient; None where the form is a number.
    pub fn lead(&self) -> Option<(VarId, Frac)>
        ensures { option_map (λ p. product_of (entry_of p)) result ≡ slice_get self.now.products 0 }
    {
        match self.entries.first() {
            Some(first) => Some((VarId(first.quantity), first.factor)),
            None => None,
        }
    }

    /// The sum. Overflow where two coefficients of one variable, or the constants, have a refused one.
    pub fn add(self, other: &Form) -> Result<Form, Refusal>
        ensures value { IfOk result (λ f. f ≡ sum_form self other.now) }
        ensures accepted { OnOk result ((o : Operation) (p q : ℚ)
            → SumPair self other.now o p q → Accepts o p q) }
        ensures overflow { (pair : Pair) → result ≡ Err (Refusal.Overflow pair)
            → SumPair self other.now pair.operation pair.left pair.right × IsRefused pair }
    {
        self.joined(Joining::Plus, other)
    }

    /// The difference. Overflow where two coefficients of one variable, or the constants, have a refused one.
    pub fn sub(self, other: &Form) -> Result<Form, Refusal>
        ensures value { IfOk result (λ f. f ≡ difference_form self other.now) }
        ensures accepted { OnOk result ((o : Operation) (p q : ℚ)
            → DifferencePair self other.now o p q → Accepts o p q) }
        ensures overflow { (pair : Pair) → result ≡ Err (Refusal.Overflow pair)
            → DifferencePair self other.now pair.operation pair.left pair.right × IsRefused pair }
    {
        self.joined(Joining::Less, other)
    }

    fn joined(self, how: Joining, other: &Form) -> Result<Form, Refusal>
        ensures value { IfOk result (λ f. f ≡ joined_form how self other.now) }
        ensures accepted { OnOk result ((o : Operation) (p q : ℚ)
            → JoinedPair how self other.now o p q → Accepts o p q) }
        ensures overflow { (pair : Pair) → result ≡ Err (Refusal.Overflow pair)
            → JoinedPair how self other.now pair.operation pair.left pair.right × IsRefused pair }
    {
        let constant = how.of(self.constant, other.constant)?;
        let entries = joined(self.entries, how, &other.entries)?;
        Ok(Form { constant, entries })
    }

    /// The form times `k`. Overflow where `k` times a coefficient or the constant is refused.
    pub fn scale(&self, k: Frac) -> Result<Form, Refusal>
        ensures value { IfOk result (λ f. f ≡ scaled_form k self.now) }
        ensures accepted { OnOk result ((o : Operation) (p q : ℚ) → ScalePair k self.now o p q
            → Accepts o p q) }
        ensures overflow { (pair : Pair) → result ≡ Err (Refusal.Overflow pair)
            → ScalePair k self.now pair.operation pair.left pair.right × IsRefused pair }
    {
        Ok(Form {
            constant: product(k, self.constant)?,
            entries: scaled(*self.entries.allocator(), k, &self.entries)?,
        })
    }

    /// The form with `form` in the place of `variable`. Overflow where the variable's coefficient times a number of
    /// `form` is refused, or the sum of that product and this form's own number.
    pub fn subst(&self, variable: VarId, form: &Form) -> Result<Form, Refusal>
        ensures value { IfOk result (λ f. f ≡ substituted_form variable.0 form.now self.now) }
        ensures accepted { OnOk result ((o : Operation) (p q : ℚ)
            → SubstPair variable.0 form.now self.now o p q → Accepts o p q) }
        ensures overflow { (pair : Pair) → result ≡ Err (Refusal.Overflow pair)
            → SubstPair variable.0 form.now self.now pair.operation pair.left pair.right
            × IsRefused pair }
    {
        let Some(k) = coefficient(&self.entries, variable) else {
            return Ok(self.clone()?);
        };
        let rest = Form {
            constant: self.constant,
            entries: others(*self.entries.allocator(), &self.entries, variable)?,
        };
        rest.add(&form.scale(k)?)
    }
}

impl Clone for Form {
    ghost is_clone = { λ form copy. copy ≡ form };

    fn clone(&self) -> Result<Form, AllocError> {
        Ok(Form {
            constant: self.constant,
            entries: Vec::from_slice(*self.entries.allocator(), &self.entries)?,
        })
    }
}

/// A linear constraint: how a form stands to zero.
#[derive(Debug, Drop)]
pub struct Constraint {
    pub relation: Relation,
    pub form: Form,
}

impl Model for Constraint {
    ghost use Rattle.spec_linear.specs.Solution.{Constraint};
    ghost use Rattle.cq_form.specs.Entries.{constraint_code};

    ghost Value = { Constraint };

    ghost coded = { constraint_code };

    ghost view = { λ c. record { relation = c.relation; form = c.form } };
}

impl Clone for Constraint {
    ghost is_clone = { λ constraint copy. copy ≡ constraint };

    fn clone(&self) -> Result<Constraint, AllocError> {
        Ok(Constraint {
            relation: self.relation,
            form: self.form.clone()?,
        })
    }
}

/// Numbers, from 1, of constraints of a list, each with a multiplier: their sum shows that the list has no solution.
#[derive(Drop)]
pub struct Cert {
    entries: Vec<(usize, Frac)>,
}

impl Model for Cert {
    ghost use Rattle.std.specs.Prelude.{ℕ, List};
    ghost use Rattle.spec_numbers.specs.Rational.{ℚ};
    ghost use Rattle.cq_form.specs.Entries.{cert_code};

    ghost Value = { List (ℕ × ℚ) };

    ghost coded = { cert_code };

    ghost view = { λ c. c.entries.items };
}

impl Cert {
    /// The certificate without an entry.
    pub fn empty(alloc: Global) -> Cert
        ensures { result ≡ [] }
    {
        Cert {
            entries: Vec::new(alloc),
        }
    }

    /// The certificate of these members' numbers and multipliers.
    pub fn new(entries: Vec<(usize, Frac)>) -> Cert
        ensures { result ≡ entries.items }
    {
        Cert { entries }
    }

    /// The members' numbers with their multipliers.
    pub fn entries(&self) -> &[(usize, Frac)]
        ensures { result.now ≡ self.now }
    {
        &self.entries
    }
}
