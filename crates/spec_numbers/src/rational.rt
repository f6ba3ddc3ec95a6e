//! The rational numbers: definitions and laws, with no code. Each rational is its lowest terms, so that
//! equal numbers are identical. The functions here have empty bodies: each contract is a law, which
//! shows that the definitions mean what their names say.
#![tactic(auto)]

ghost use Rattle.std.specs.Prelude.{List, ◌≡◌, ◌≢◌, ℕ, ℤ, pos, negsuc, neg_ℤ, ◌+ℤ◌, ◌*ℤ◌, ◌*◌, ◌<◌, ◌≤ℤ◌, ◌<ℤ◌, ◌⊎◌};
ghost use Rattle.std.specs.Int.{IsGcd, ◌∣◌};
ghost use Rattle.std.specs.Cmp.{IsTotalOrder};
ghost use Rattle.std.specs.Ordering.{MatchOrdering};
ghost use Rattle.spec_numbers.specs.Gcd.{gcd};
ghost use Rattle.spec_numbers.specs.Order.{cmp_ℚ};
ghost use Rattle.spec_numbers.specs.Rational.{ℚ, 0ℚ, 1ℚ, denominator, ratio, quotient, ◌+ℚ◌, ◌-ℚ◌, ◌*ℚ◌, ◌/ℚ◌, neg_ℚ, inv_ℚ, IsPositive, IsNotNegative, ◌≤ℚ◌, ◌<ℚ◌};
ghost use Rattle.spec_numbers.specs.Sums.{Monomial, sum_at, factor_of, unit};

/// `gcd` is the greatest common divisor, and what has no divisor in common with one factor of a
/// product and divides the product divides the other factor (Gauss 1801).
pub fn greatest_common_divisor()
    ensures greatest { (a b : ℕ) → IsGcd a b (gcd a b) }
    ensures gauss { (a b c : ℕ) → gcd a b ≡ 1 → b ∣ a * c → b ∣ c }
{}

/// Two quotients of whole numbers are one rational exactly where their cross products are equal, and
/// each rational is the quotient of its own parts.
pub fn equal_quotients()
    ensures same { (n m : ℤ) (d e : ℕ) → 0 < d → 0 < e → n *ℤ pos e ≡ m *ℤ pos d → ratio n d ≡ ratio m e }
    ensures back { (n m : ℤ) (d e : ℕ) → 0 < d → 0 < e → ratio n d ≡ ratio m e → n *ℤ pos e ≡ m *ℤ pos d }
    ensures own { (q : ℚ) → ratio q.numerator (denominator q) ≡ q }
{}

/// The operations are those of quotients as they are taught.
pub fn operations()
    ensures sum { (n m : ℤ) (d e : ℕ) → 0 < d → 0 < e → ratio n d +ℚ ratio m e ≡ ratio (n *ℤ pos e +ℤ m *ℤ pos d) (d * e) }
    ensures product { (n m : ℤ) (d e : ℕ) → 0 < d → 0 < e → ratio n d *ℚ ratio m e ≡ ratio (n *ℤ m) (d * e) }
    ensures negative { (n : ℤ) (d : ℕ) → 0 < d → neg_ℚ (ratio n d) ≡ ratio (neg_ℤ n) d }
    ensures inverse { (q : ℚ) → q ≢ 0ℚ → q *ℚ inv_ℚ q ≡ 1ℚ }
{}

/// The rationals are a field.
pub fn field()
    ensures sum_commutes { (p q : ℚ) → p +ℚ q ≡ q +ℚ p }
    ensures sum_associates { (p q r : ℚ) → (p +ℚ q) +ℚ r ≡ p +ℚ (q +ℚ r) }
    ensures sum_with_zero { (p : ℚ) → 0ℚ +ℚ p ≡ p }
    ensures sum_with_negative { (p : ℚ) → p -ℚ p ≡ 0ℚ }
    ensures product_commutes { (p q : ℚ) → p *ℚ q ≡ q *ℚ p }
    ensures product_associates { (p q r : ℚ) → (p *ℚ q) *ℚ r ≡ p *ℚ (q *ℚ r) }
    ensures product_with_one { (p : ℚ) → 1ℚ *ℚ p ≡ p }
    ensures product_of_sum { (p q r : ℚ) → p *ℚ (q +ℚ r) ≡ p *ℚ q +ℚ p *ℚ r }
    ensures one_is_not_zero { 1ℚ ≢ 0ℚ }
{}

/// `cmp_ℚ` tells the order, which is total and kept by sums and by products with positive numbers.
pub fn total_order()
    ensures told { (p q : ℚ) → MatchOrdering (cmp_ℚ p q) (p <ℚ q) (p ≡ q) (q <ℚ p) }
    ensures total { IsTotalOrder cmp_ℚ }
    ensures cross { (p q : ℚ) → p <ℚ q → (p.numerator *ℤ pos (denominator q)) <ℤ (q.numerator *ℤ pos (denominator p)) }
    ensures irreflexive { (p : ℚ) → p <ℚ p → ⊥ }
    ensures weak { (p q : ℚ) → (p <ℚ q) ⊎ (q ≤ℚ p) }
    ensures antisymmetric { (p q : ℚ) → p ≤ℚ q → q ≤ℚ p → p ≡ q }
    ensures kept_by_sums { (p q r s : ℚ) → p <ℚ q → r ≤ℚ s → (p +ℚ r) <ℚ (q +ℚ s) }
    ensures kept_by_products { (p q t : ℚ) → IsPositive t → p <ℚ q → (t *ℚ p) <ℚ (t *ℚ q) }
{}

/// A coefficient of a sum of products is the sum's value where its variable is 1 and the others are 0.
pub fn coefficients()
    ensures { (x : ℕ) (s : List Monomial) → factor_of x s ≡ sum_at (unit x) s }
{}
