//! Lists and numbers: what texts are, lists that go on from others, and facts that several layers prove with.
#![tactic(auto)]

ghost use Rattle.std.specs.Prelude.{◌≡◌, ◌↔◌, ◌≤◌, ◌<◌, ℕ, List, nat_le, true, false, length, slice_get};
ghost use Rattle.spec_numbers.specs.Prefixes.{IsPrefix};

/// The test of order tells the order.
pub fn tests_tell_order()
    ensures passes { (m n : ℕ) → (nat_le m n ≡ true) ↔ (m ≤ n) }
    ensures fails { (m n : ℕ) → (nat_le m n ≡ false) ↔ (n < m) }
{}

/// A list that goes on from another has the same at the places of the other, and going on twice is going on.
pub fn lists_go_on()
    ensures longer { (xs ys : List ℕ) → IsPrefix xs ys → length xs ≤ length ys }
    ensures same { (xs ys : List ℕ) (i : ℕ) → IsPrefix xs ys → i < length xs → slice_get ys i ≡ slice_get xs i }
    ensures twice { (xs ys zs : List ℕ) → IsPrefix xs ys → IsPrefix ys zs → IsPrefix xs zs }
{}
