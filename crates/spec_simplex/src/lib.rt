//! The simplex method by Bland's rule: definitions and laws, with no code. Dictionaries are seen as functions of the
//! numbers of their quantities, so that the laws hold however the rows are kept. The functions here have empty bodies:
//! each contract is a law.
#![tactic(auto)]

pub mod budgets;
pub mod limits;
pub mod tableau;

ghost use Rattle.std.specs.Prelude.{◌≡◌, ℕ, suc, ◌<◌, ◌≤◌, ◌^◌, Bool};
ghost use Rattle.spec_numbers.specs.Rational.{◌≤ℚ◌};
ghost use Rattle.spec_simplex.specs.Dictionary.{Dictionary, IsDictionary, AreEquivalent, IsFeasible, IsGreatest, IsUnbounded};
ghost use Rattle.spec_simplex.specs.Rule.{IsDue, Exchanged, Chain, IsOptimal, IsUnlimited, IsFree};

/// A dictionary is a chain of no exchange, and a chain goes on by an exchange that is due.
pub fn chains_go_on()
    ensures begin { (size : ℕ) (restricted : ℕ → Bool) (d : Dictionary) → IsDictionary size d → Chain size restricted d 0 d }
    ensures go_on { (size : ℕ) (restricted : ℕ → Bool) (first : Dictionary) (n : ℕ) (d e : Dictionary) (c r : ℕ)
        → Chain size restricted first n d → IsDictionary size e → AreEquivalent size d e → IsDue restricted d c r → Exchanged d c r e
        → Chain size restricted first (suc n) e }
{}

/// No chain of exchanges comes back to the rows of an earlier dictionary (Bland 1977), so each is shorter than the number
/// of sets of quantities.
pub fn chains_end()
    ensures no_return { (size : ℕ) (restricted : ℕ → Bool) (first : Dictionary) (n : ℕ) (last : Dictionary)
        → IsFeasible restricted first → (chain : Chain size restricted first n last)
        → (j k : ℕ) → j < k → k ≤ n → ((q : ℕ) → (chain.stage k).is_row q ≡ (chain.stage j).is_row q) → ⊥ }
    ensures short { (size : ℕ) (restricted : ℕ → Bool) (first : Dictionary) (n : ℕ) (last : Dictionary)
        → IsFeasible restricted first → Chain size restricted first n last → n < 2 ^ size }
{}

/// An exchange of the rule keeps the dictionary feasible, and the asked form's value does not fall.
pub fn exchanges_keep_feasibility()
    ensures feasible { (size : ℕ) (restricted : ℕ → Bool) (d e : Dictionary) (c r : ℕ)
        → IsDictionary size d → IsDictionary size e → AreEquivalent size d e
        → IsFeasible restricted d → IsDue restricted d c r → Exchanged d c r e → IsFeasible restricted e }
    ensures value { (size : ℕ) (restricted : ℕ → Bool) (d e : Dictionary) (c r : ℕ)
        → IsDictionary size d → IsDictionary size e → AreEquivalent size d e
        → IsFeasible restricted d → IsDue restricted d c r → Exchanged d c r e → d.value ≤ℚ e.value }
{}

/// What the last dictionary of a chain says of the asked form.
pub fn ends_of_chains()
    ensures greatest { (size : ℕ) (restricted : ℕ → Bool) (d : Dictionary)
        → IsDictionary size d → IsFeasible restricted d → IsOptimal restricted d → IsGreatest size restricted d d.value }
    ensures unlimited { (size : ℕ) (restricted : ℕ → Bool) (d : Dictionary) (c : ℕ)
        → IsDictionary size d → IsFeasible restricted d → IsUnlimited restricted d c → IsUnbounded size restricted d }
    ensures free { (size : ℕ) (restricted : ℕ → Bool) (d : Dictionary) (c : ℕ)
        → IsDictionary size d → IsFeasible restricted d → IsFree restricted d c → IsUnbounded size restricted d }
{}
