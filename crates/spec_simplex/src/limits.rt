//! When a stop for want of digits may come: dictionaries of a list of constraints, and the pairs of numbers
//! that the steps of a solver make over them. The functions have empty bodies: each contract is a law.
#![tactic(auto)]

ghost use Rattle.std.specs.Prelude.{ℕ, List};
ghost use Rattle.spec_numbers.specs.Sums.{Mentions};
ghost use Rattle.spec_linear.specs.Form.{Linear};
ghost use Rattle.spec_linear.specs.Solution.{Constraint, Has};
ghost use Rattle.spec_simplex.specs.LimitsDictionary.{Quantity, variable, IsQuantity, Expression, IsWritten, AreOne, IsDictionary, IsFeasible};
ghost use Rattle.cq_frac.specs.declared.Pair.{Pair};
ghost use Rattle.spec_simplex.specs.Overflow.{Stage, Operands, Moment, IsInUse, OverflowDue};
ghost use Rattle.spec_simplex.specs.Chains.{IsBlandChain};
ghost use Rattle.spec_simplex.specs.Later.{in_place_of, HasAll};

/// Over a dictionary each form of the quantities, and so each form that is asked, is written in one way,
/// and in no other.
pub fn forms_are_written_in_one_way()
    ensures some_way { (l : List Constraint) (asked : List Linear) (zeros columns : List Quantity)
        → IsDictionary l asked zeros columns → (f : Linear)
        → ((x : ℕ) → Mentions x f.products → IsQuantity l asked (variable x))
        → (e : Expression) × IsWritten l zeros columns f e }
    ensures asked_form { (l : List Constraint) (asked : List Linear) (zeros columns : List Quantity)
        → IsDictionary l asked zeros columns → (f : Linear) → Has f asked
        → (e : Expression) × IsWritten l zeros columns f e }
    ensures one_way { (l : List Constraint) (asked : List Linear) (zeros columns : List Quantity)
        → IsDictionary l asked zeros columns → (f : Linear) (d e : Expression)
        → IsWritten l zeros columns f d → IsWritten l zeros columns f e → AreOne columns d e }
{}

/// A feasible dictionary is in use.
pub fn feasible_dictionaries_are_in_use()
    ensures { (m : Moment) (zeros columns : List Quantity) → IsFeasible m.list m.asked zeros columns
        → IsInUse m zeros columns }
{}

/// What is due at a moment is due also where more is told and more rows of an answer stand, and while an answer is made
/// in place of a settling.
pub fn stops_stay_due()
    ensures overflow { (m : Moment) (stage : Stage) (operations : List Operands) (rows : List Linear) (pair : Pair)
        → HasAll m stage operations rows → OverflowDue m pair → OverflowDue (in_place_of m stage operations rows) pair }
    ensures pivots { (m : Moment) (stage : Stage) (operations : List Operands) (rows : List Linear) (n : ℕ)
        → IsBlandChain m n → IsBlandChain (in_place_of m stage operations rows) n }
{}
