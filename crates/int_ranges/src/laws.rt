//! Laws of whole numbers, each a clause of a function that does nothing.
//!
//! Their lemmas stand in `specs/`, for proofs elsewhere to cite: `Ring`, `Signs`, `QuotientLaws` and `RangeLaws`.

ghost use Rattle.std.specs.Prelude.{◌≡◌, ◌≢◌, ◌⊎◌, ◌-◌, ◌/◌, ◌^◌, ℤ, pos, negsuc, ◌+ℤ◌, ◌-ℤ◌, ◌*ℤ◌, neg_ℤ, ◌≤ℤ◌, ◌<ℤ◌};
ghost use Rattle.std.specs.Prelude.{int_div, int_rem, unsigned_abs, FitsSigned};
ghost use Rattle.std.specs.Int.{w128};
ghost use Rattle.int_ranges.specs.declared.ctype.CType.{CType};
ghost use Rattle.int_ranges.specs.declared.ctype.CType.TheVariants.{Int, Unsigned, LongLong, UnsignedLongLong};
ghost use Rattle.int_ranges.specs.Exact.{Leaves};
ghost use Rattle.int_ranges.specs.Quotient.{IsQuotient};
ghost use Rattle.int_ranges.specs.Ranges.{least_of, greatest_of, InRange, usual_type};

/// Whole numbers are a ring with no divisors of 0.
pub fn ring_laws()
    ensures product_commutes { (a b : ℤ) → a *ℤ b ≡ b *ℤ a }
    ensures product_associates { (a b c : ℤ) → (a *ℤ b) *ℤ c ≡ a *ℤ (b *ℤ c) }
    ensures product_of_sum { (a b c : ℤ) → a *ℤ (b +ℤ c) ≡ a *ℤ b +ℤ a *ℤ c }
    ensures sum_by_factor { (a b c : ℤ) → (a +ℤ b) *ℤ c ≡ a *ℤ c +ℤ b *ℤ c }
    ensures product_of_difference { (a b c : ℤ) → a *ℤ (b -ℤ c) ≡ a *ℤ b -ℤ a *ℤ c }
    ensures difference_by_factor { (a b c : ℤ) → (a -ℤ b) *ℤ c ≡ a *ℤ c -ℤ b *ℤ c }
    ensures product_by_zero { (a : ℤ) → a *ℤ pos 0 ≡ pos 0 }
    ensures zero_by_factor { (a : ℤ) → pos 0 *ℤ a ≡ pos 0 }
    ensures product_by_one { (a : ℤ) → a *ℤ pos 1 ≡ a }
    ensures one_by_factor { (a : ℤ) → pos 1 *ℤ a ≡ a }
    ensures product_by_negative { (a b : ℤ) → a *ℤ neg_ℤ b ≡ neg_ℤ (a *ℤ b) }
    ensures negative_by_factor { (a b : ℤ) → neg_ℤ a *ℤ b ≡ neg_ℤ (a *ℤ b) }
    ensures no_divisor_of_zero { (a b : ℤ) → a *ℤ b ≡ pos 0 → (a ≡ pos 0) ⊎ (b ≡ pos 0) }
    ensures factor_cancels { (a b c : ℤ) → a ≢ pos 0 → a *ℤ b ≡ a *ℤ c → b ≡ c }
{}

/// The signs of products, and products on both sides of `<=`.
pub fn sign_laws()
    ensures non_negatives { (a b : ℤ) → pos 0 ≤ℤ a → pos 0 ≤ℤ b → pos 0 ≤ℤ (a *ℤ b) }
    ensures positives { (a b : ℤ) → pos 0 <ℤ a → pos 0 <ℤ b → pos 0 <ℤ (a *ℤ b) }
    ensures non_positives { (a b : ℤ) → a ≤ℤ pos 0 → b ≤ℤ pos 0 → pos 0 ≤ℤ (a *ℤ b) }
    ensures unlike { (a b : ℤ) → pos 0 ≤ℤ a → b ≤ℤ pos 0 → (a *ℤ b) ≤ℤ pos 0 }
    ensures unlike_turned { (a b : ℤ) → a ≤ℤ pos 0 → pos 0 ≤ℤ b → (a *ℤ b) ≤ℤ pos 0 }
    ensures order_kept { (a b c : ℤ) → pos 0 ≤ℤ c → a ≤ℤ b → (c *ℤ a) ≤ℤ (c *ℤ b) }
    ensures order_kept_behind { (a b c : ℤ) → pos 0 ≤ℤ c → a ≤ℤ b → (a *ℤ c) ≤ℤ (b *ℤ c) }
    ensures order_turned { (a b c : ℤ) → c ≤ℤ pos 0 → a ≤ℤ b → (c *ℤ b) ≤ℤ (c *ℤ a) }
    ensures antisymmetric { (a b : ℤ) → a ≤ℤ b → b ≤ℤ a → a ≡ b }
    ensures transitive { (a b c : ℤ) → a ≤ℤ b → b ≤ℤ c → a ≤ℤ c }
    ensures next_above { (a b : ℤ) → (a ≤ℤ b → ⊥) → (b +ℤ pos 1) ≤ℤ a }
    ensures decided { (a b : ℤ) → (a ≤ℤ b) ⊎ (b <ℤ a) }
{}

/// `int_div` and `int_rem`, in whose words `div_trunc` and `rem_trunc` are stated, are C's `/` and `%`, and nothing else is.
///
/// From ISO/IEC 9899 6.5.5.
pub fn quotient_laws()
    ensures are_the_quotient { (a b : ℤ) → b ≢ pos 0 → IsQuotient a b (int_div a b) (int_rem a b) }
    ensures no_others { (a b q r : ℤ) → IsQuotient a b q r → (q ≡ int_div a b) × (r ≡ int_rem a b) }
    ensures unique { (a b p r q s : ℤ) → IsQuotient a b p r → IsQuotient a b q s → (p ≡ q) × (r ≡ s) }
    ensures toward_zero { (a b : ℤ) → unsigned_abs (int_div a b) ≡ unsigned_abs a / unsigned_abs b }
    ensures whole { (a b : ℤ) → b ≢ pos 0 → int_div a b *ℤ b +ℤ int_rem a b ≡ a }
    ensures within_positive { (a b : ℤ) → pos 0 <ℤ b → (neg_ℤ b <ℤ int_rem a b) × (int_rem a b <ℤ b) }
    ensures within_negative { (a b : ℤ) → b <ℤ pos 0 → (b <ℤ int_rem a b) × (int_rem a b <ℤ neg_ℤ b) }
    ensures rem_non_negative { (a b : ℤ) → pos 0 ≤ℤ a → pos 0 ≤ℤ int_rem a b }
    ensures rem_non_positive { (a b : ℤ) → a ≤ℤ pos 0 → int_rem a b ≤ℤ pos 0 }
    ensures multiple { (k b : ℤ) → b ≢ pos 0 → (int_div (k *ℤ b) b ≡ k) × (int_rem (k *ℤ b) b ≡ pos 0) }
    ensures exact { (a b : ℤ) → int_rem a b ≡ pos 0 → a ≡ int_div a b *ℤ b }
    ensures least_leaves_only { (a b : ℤ) → FitsSigned w128 a → b ≢ pos 0 → Leaves (int_div a b) → (a ≡ negsuc (2 ^ 127 - 1)) × (b ≡ negsuc 0) }
    ensures remainder_fits { (a b : ℤ) → FitsSigned w128 a → FitsSigned w128 (int_rem a b) }
{}

/// The ranges of the types, which of them holds which, and the common type of two operands.
///
/// From ISO/IEC 9899 6.2.5 and 6.3.1.8.
pub fn range_laws()
    ensures ordered { (ty : CType) → least_of ty ≤ℤ greatest_of ty }
    ensures int_in_long_long { (value : ℤ) → InRange Int value → InRange LongLong value }
    ensures unsigned_in_long_long { (value : ℤ) → InRange Unsigned value → InRange LongLong value }
    ensures unsigned_in_unsigned_long_long { (value : ℤ) → InRange Unsigned value → InRange UnsignedLongLong value }
    ensures fits { (ty : CType) (value : ℤ) → InRange ty value → FitsSigned w128 value }
    ensures sum_fits { (s t : CType) (a b : ℤ) → InRange s a → InRange t b → FitsSigned w128 (a +ℤ b) }
    ensures difference_fits { (s t : CType) (a b : ℤ) → InRange s a → InRange t b → FitsSigned w128 (a -ℤ b) }
    ensures common_commutes { (a b : CType) → usual_type a b ≡ usual_type b a }
    ensures common_idempotent { (a : CType) → usual_type a a ≡ a }
    ensures common_associates { (a b c : CType) → usual_type (usual_type a b) c ≡ usual_type a (usual_type b c) }
    ensures common_reaches { (a b : CType) → greatest_of a ≤ℤ greatest_of (usual_type a b) }
{}
