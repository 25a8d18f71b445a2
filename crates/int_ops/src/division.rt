//! Quotients and remainders.

ghost use Rattle.std.specs.Prelude.{◌≡◌, ◌≢◌, ◌↔◌, ℤ, pos, negsuc, IfOk, IsErr, int_div, int_rem};
ghost use Rattle.int_ops.specs.Wrapping.{wrapped, floor_quotient, floor_remainder, is_cut_upwards, IsFloor};

use crate::arithmetic::{add, neg, sub};

/// The divisor is 0.
#[derive(Clone, Copy, Debug, PartialEq, Eq)]
pub struct ZeroDivisor;

/// The quotient that is cut towards 0.
#[inline]
#[tactic(auto, using(crate::proofs::Floors::quotient_rules))]
fn cut_quotient(a: i64, b: i64) -> i64
    requires divisor { b ≢ pos 0 }
    requires in_range { b ≢ negsuc 0 }
    ensures { result ≡ int_div a b }
{
    a / b
}

/// What a division that is cut towards 0 leaves.
#[inline]
#[tactic(auto, using(crate::proofs::Floors::quotient_rules))]
fn cut_rest(a: i64, b: i64) -> i64
    requires divisor { b ≢ pos 0 }
    requires in_range { b ≢ negsuc 0 }
    ensures { result ≡ int_rem a b }
{
    a % b
}

/// Whether a quotient that is cut towards 0 is above its floor: something is left, with the other
/// sign than the divisor.
#[inline]
fn is_above_floor(rest: i64, divisor: i64) -> bool
    ensures { result ≡ is_cut_upwards rest divisor }
{
    rest != 0 && (rest < 0) != (divisor < 0)
}

/// The quotient, rounded towards minus infinity and brought into range: only that of -2^63 by -1
/// isn't there already. It is refused exactly where the divisor is 0 (manual, section 3.4.1).
#[inline]
#[tactic(auto, using(crate::proofs::Floors::floor_rules))]
pub fn floor_div(a: i64, b: i64) -> Result<i64, ZeroDivisor>
    ensures quotient { IfOk result (λ q. q ≡ wrapped (floor_quotient a b)) }
    ensures refused { IsErr result ↔ (b ≡ pos 0) }
{
    if b == 0 {
        return Err(ZeroDivisor);
    }
    if b == -1 {
        return Ok(neg(a));
    }
    let quotient = cut_quotient(a, b);
    if is_above_floor(cut_rest(a, b), b) {
        Ok(sub(quotient, 1))
    } else {
        Ok(quotient)
    }
}

/// What is left of a number after that many divisors as its floor quotient says: it has the
/// divisor's sign, or is 0. It is refused exactly where the divisor is 0 (manual, section 3.4.1).
#[inline]
#[tactic(auto, using(crate::proofs::Floors::floor_rules))]
pub fn floor_mod(a: i64, b: i64) -> Result<i64, ZeroDivisor>
    ensures remainder { IfOk result (λ r. r ≡ floor_remainder a b) }
    ensures refused { IsErr result ↔ (b ≡ pos 0) }
{
    if b == 0 {
        return Err(ZeroDivisor);
    }
    if b == -1 {
        return Ok(0);
    }
    let rest = cut_rest(a, b);
    if is_above_floor(rest, b) {
        Ok(add(rest, b))
    } else {
        Ok(rest)
    }
}

/// The floor quotient of any two integers, in range or not, is the one integer for which this
/// holds: that many divisors are left with less than one more, on the divisor's side of 0.
#[tactic(auto, using(crate::proofs::Floors::is_floor))]
pub fn floor_law()
    ensures { (a b : ℤ) → b ≢ pos 0 → IsFloor a b (floor_quotient a b) }
{}
