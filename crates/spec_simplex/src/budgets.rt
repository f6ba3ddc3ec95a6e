//! How many exchanges by the rule of the least numbers a list of constraints can take. The function here has an empty
//! body: its contract is a law.
#![tactic(auto)]

ghost use Rattle.std.specs.Prelude.{ℕ, ◌<◌, ◌^◌, length};
ghost use Rattle.spec_simplex.specs.Chains.{IsBlandChain};
ghost use Rattle.spec_simplex.specs.Overflow.{Moment};
ghost use Rattle.spec_projection.specs.Projection.{inequalities_of};

/// There are fewer exchanges one after another than sets of the list's inequalities: an exchange moves inequalities alone, and
/// none comes back to an earlier set.
pub fn exchanges_end()
    ensures { (m : Moment) (n : ℕ) → IsBlandChain m n → n < 2 ^ length (inequalities_of m.list) }
{}
