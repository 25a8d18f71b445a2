//! Sums, differences and products.

ghost use Rattle.std.specs.Prelude.{◌≡◌, ◌+ℤ◌, ◌-ℤ◌, ◌*ℤ◌, neg_ℤ};
ghost use Rattle.int_ops.specs.Wrapping.{wrapped};

/// The sum, brought modulo 2^64 into the range of 64 bits (manual, section 3.4.1).
#[inline]
#[tactic(auto, using(crate::proofs::Wraps::wrap_rules))]
pub fn add(a: i64, b: i64) -> i64
    ensures { result ≡ wrapped (a +ℤ b) }
{
    a.wrapping_add(b)
}

/// The difference, brought modulo 2^64 into the range of 64 bits (manual, section 3.4.1).
#[inline]
#[tactic(auto, using(crate::proofs::Wraps::wrap_rules))]
pub fn sub(a: i64, b: i64) -> i64
    ensures { result ≡ wrapped (a -ℤ b) }
{
    a.wrapping_sub(b)
}

/// The product, brought modulo 2^64 into the range of 64 bits (manual, section 3.4.1).
#[inline]
#[tactic(auto, using(crate::proofs::Wraps::wrap_rules))]
pub fn mul(a: i64, b: i64) -> i64
    ensures { result ≡ wrapped (a *ℤ b) }
{
    a.wrapping_mul(b)
}

/// The number with the other sign, brought modulo 2^64 into the range of 64 bits: that of -2^63 is
/// itself.
#[inline]
#[tactic(auto, using(crate::proofs::Wraps::wrap_rules))]
pub fn neg(a: i64) -> i64
    ensures { result ≡ wrapped (neg_ℤ a) }
{
    a.wrapping_neg()
}
