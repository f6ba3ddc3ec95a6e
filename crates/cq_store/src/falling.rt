//! The certificate that a member can't hold where its form is zero at each solution.

ghost use Rattle.std.specs.Prelude.{◌≡◌, ◌≤◌, ℕ, [], ◌∷◌, ◌++◌, IfOk};
ghost use Rattle.spec_linear.specs.Certificate.{Refutes};
ghost use Rattle.spec_simplex.specs.Asked.{NoQuestion};
ghost use Rattle.cq_frac.specs.declared.Pair.{Pair};
ghost use Rattle.cq_simplex.specs.declared.SimplexFault.TheVariants.{Overflow, Pivots};
ghost use Rattle.cq_dict.specs.DictValue.{quantities_of};
ghost use Rattle.cq_tableau.specs.Numbered.{AreNumbered};
ghost use Rattle.cq_tableau.specs.Stored.{IsBetween};
ghost use Rattle.cq_store.specs.StoreValue.{MayRefuse, MayTake, Only};
ghost use Rattle.cq_store.specs.Fallen.{FallsAt};

use cq_dict::dict::Dict;
use cq_form::{Cert, Constraint};
use cq_frac::VarId;
use cq_simplex::SimplexFault;
use cq_tableau::names::Name;
use cq_tableau::refuting::member_number;
use cq_tableau::weighing::{apart_certificate, form_certificate};
use cq_trail::Stack;
use indexmap::IndexMap;
use spec_linear::Relation;
use std::alloc::Global;

/// The certificate for the strict inequality or the disequation of this quantity, where a constraint joins on a face.
pub fn fallen_certificate(
    alloc: Global,
    pivots: u64,
    numbers: &IndexMap<VarId, usize>,
    names: &Stack<Name>,
    dict: &mut Dict,
    told: &[Constraint],
    c: &Constraint,
    q: usize,
) -> Result<Cert, SimplexFault>
    requires numbered { AreNumbered names.now.now numbers.now.entries }
    requires between { IsBetween (told.now ++ c.now ∷ []) names.now.now (quantities_of dict.old) }
    requires falls { FallsAt told.now (told.now ++ c.now ∷ []) names.now.now q }
    ensures refuted { IfOk result (λ cert. Refutes cert (told.now ++ c.now ∷ [])) }
    ensures overflow { (pair : Pair) → result ≡ Err (Overflow pair) → MayRefuse told.now (Only c.now) NoQuestion pair }
    ensures pivots { (n : ℕ) → result ≡ Err (Pivots n) → (n ≡ pivots) × MayTake told.now (Only c.now) NoQuestion n }
    ensures saved { dict.new.saved ≡ dict.old.saved }
    ensures room { dict.old.room ≤ dict.new.room }
{
    let number = member_number(names, q);
    let member = &told[number - 1];
    match member.relation {
        Relation::Ne => {
            apart_certificate(alloc, pivots, numbers, names, dict, &member.form, number)
        }
        _ => form_certificate(alloc, pivots, numbers, names, dict, &member.form, number),
    }
}
