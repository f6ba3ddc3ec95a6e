// Told terms as linear constraints.

ghost use Rattle.std.specs.Prelude.{◌≡◌, ◌<◌, ◌++◌, ◌∷◌, [], length, All, IfOk};
ghost use Rattle.spec_linear.specs.Form.{difference_form};
ghost use Rattle.spec_simplex.specs.Overflow.{on};
ghost use Rattle.spec_terms.specs.Variables.{variables};
ghost use Rattle.spec_branch.specs.Relations.{lin, related, related_forms, Waits};
ghost use Rattle.spec_branch.specs.Alike.{no_values};
ghost use Rattle.spec_transcript.specs.Operands.{both, relation_operands};
ghost use Rattle.cq_frac.specs.declared.Operation.TheVariants.{Difference};
ghost use Rattle.cq_frac.specs.declared.Pair.{Pair};
ghost use Rattle.cq_term.specs.Trees.{tree};
ghost use Rattle.cq_term.specs.Meaning.{at};
ghost use Rattle.cq_term.specs.Names.{HasNamesBelow};
ghost use Rattle.cq_term.specs.Shown.{IsUnbound, view_of};
ghost use Rattle.cq_term.specs.declared.view.View.TheVariants.{Compound};
ghost use Rattle.cq_term.specs.Places.{numbers_of};
ghost use Rattle.cq_cexpr.specs.Found.{constraint_of, IfWaits, is_or_waits};
ghost use Rattle.cq_cexpr.specs.Names.{relation_of_code, relation_meant};
ghost use Rattle.cq_cexpr.specs.Overflows.{ComesFrom};

use crate::evaluation::{LinExpression, linearise_expression};
use crate::names::{self, Comparison};
use crate::operations::difference;
use cq_form::{Constraint, Form};
use cq_frac::{Refusal, VarId};
use cq_term::atoms::Atoms;
use cq_term::{Atom, Heap, TermId, View};
use cq_unify::vars_of;
use spec_linear::Relation;
use std::alloc::AllocError;

/// What a told term is now.
#[derive(Drop)]
pub enum Lin {
    Linear(Constraint),
    /// It waits: these are its unbound variables by first occurrence.
    Waits(Vec<VarId>),
    /// A divisor in it is zero.
    False,
}

/// What a told term is where the variables that are bound to numbers are these numbers: a linear constraint, where it
/// is a relation of two expressions with linear forms; false, where a divisor is zero, even where another part waits;
/// else it waits. `atoms` has to know the names in the term. Overflow where an operation of the term refuses two numbers
/// of the forms of its operands; the term may then be any of these.
pub fn linearise(heap: &Heap, atoms: &Atoms, term: TermId) -> Result<Lin, Refusal>
    requires live { term < length heap.now.now.terms }
    requires names { HasNamesBelow (length atoms.now) (at heap.now.now.terms term) }
    ensures lin { IfOk result (λ r. constraint_of r ≡ lin no_values (tree atoms.now heap.now.now.terms term)) }
    ensures waits { IfOk result (λ r. IfWaits r (λ vs. numbers_of vs ≡ variables (at heap.now.now.terms term))) }
    ensures unbound { IfOk result (λ r. IfWaits r (All (λ v. IsUnbound heap.now.now.images v.0))) }
    ensures overflow { (pair : Pair) → result ≡ Err (Refusal.Overflow pair)
        → ComesFrom (relation_operands no_values (tree atoms.now heap.now.now.terms term)) pair }
{
    match heap.view(term) {
        View::Compound(name, arity) => {
            if arity == 2 {
                of_two(heap, atoms, term, name)
            } else {
                Ok(waiting(heap, term)?)
            }
        }
        _ => Ok(waiting(heap, term)?),
    }
}

/// A term of two arguments. A zero divisor on the left side is found before the right one is looked at.
fn of_two(heap: &Heap, atoms: &Atoms, term: TermId, name: Atom) -> Result<Lin, Refusal>
    requires live { term < length heap.now.now.terms }
    requires names { HasNamesBelow (length atoms.now) (at heap.now.now.terms term) }
    requires shown { view_of (at heap.now.now.terms term) ≡ Compound name 2 }
    ensures lin { IfOk result (λ r. constraint_of r ≡ lin no_values (tree atoms.now heap.now.now.terms term)) }
    ensures waits { IfOk result (λ r. IfWaits r (λ vs. numbers_of vs ≡ variables (at heap.now.now.terms term))) }
    ensures unbound { IfOk result (λ r. IfWaits r (All (λ v. IsUnbound heap.now.now.images v.0))) }
    ensures overflow { (pair : Pair) → result ≡ Err (Refusal.Overflow pair)
        → ComesFrom (relation_operands no_values (tree atoms.now heap.now.now.terms term)) pair }
{
    let left = heap.arg(term, 0);
    let right = heap.arg(term, 1);
    let first = linearise_expression(heap, atoms, left)?;
    if first.is_false() {
        return Ok(Lin::False);
    }
    let second = linearise_expression(heap, atoms, right)?;
    if second.is_false() {
        return Ok(Lin::False);
    }
    let comparison = names::relation_named(atoms.text(name));
    match constraint(comparison, first.form(), second.form())? {
        None => Ok(waiting(heap, term)?),
        Some(constraint) => Ok(Lin::Linear(constraint)),
    }
}

/// The answer of a term that waits.
fn waiting(heap: &Heap, term: TermId) -> Result<Lin, AllocError>
    requires { term < length heap.now.now.terms }
    ensures lin { IfOk result (λ r. constraint_of r ≡ Waits) }
    ensures waits { IfOk result (λ r. IfWaits r (λ vs. numbers_of vs ≡ variables (at heap.now.now.terms term))) }
    ensures unbound { IfOk result (λ r. IfWaits r (All (λ v. IsUnbound heap.now.now.images v.0))) }
{
    Ok(Lin::Waits(vars_of(heap, term)?))
}

/// The constraint that two sides make, if they are related and both have forms.
fn constraint(
    comparison: Option<Comparison>,
    left: Option<Form>,
    right: Option<Form>,
) -> Result<Option<Constraint>, Refusal>
    ensures value { IfOk result (λ r. is_or_waits r ≡ related_forms (relation_meant comparison) left right) }
    ensures overflow { (pair : Pair) → result ≡ Err (Refusal.Overflow pair)
        → ComesFrom (both Difference left right ++ both Difference right left) pair }
{
    let Some(comparison) = comparison else {
        return Ok(None);
    };
    let Some(left) = left else {
        return Ok(None);
    };
    let Some(right) = right else {
        return Ok(None);
    };
    Ok(Some(related(comparison, left, right)?))
}

/// `A =< B` is `B-A >= 0` and `A < B` is `B-A > 0`; the others are of `A-B`.
fn related(comparison: Comparison, left: Form, right: Form) -> Result<Constraint, Refusal>
    ensures value { IfOk result (λ c. c ≡ related (relation_of_code comparison) left right) }
    ensures overflow { (pair : Pair) → result ≡ Err (Refusal.Overflow pair)
        → ComesFrom (on Difference left right ∷ on Difference right left ∷ []) pair }
{
    match comparison {
        Comparison::Equals => of_difference(Relation::Eq, left, &right),
        Comparison::Differs => of_difference(Relation::Ne, left, &right),
        Comparison::Greater => of_difference(Relation::Gt, left, &right),
        Comparison::GreaterOrEqual => of_difference(Relation::Ge, left, &right),
        Comparison::Lesser => of_difference(Relation::Gt, right, &left),
        Comparison::LesserOrEqual => of_difference(Relation::Ge, right, &left),
    }
}

/// How the difference of two forms stands to zero.
fn of_difference(relation: Relation, left: Form, right: &Form) -> Result<Constraint, Refusal>
    ensures value { IfOk result (λ c. c ≡ record { relation = relation; form = difference_form left right.now }) }
    ensures overflow { (pair : Pair) → result ≡ Err (Refusal.Overflow pair)
        → ComesFrom (on Difference left right.now ∷ []) pair }
{
    Ok(Constraint {
        relation,
        form: difference(left, right)?,
    })
}
