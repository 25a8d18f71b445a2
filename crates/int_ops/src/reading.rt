//! Integers that texts read as.

ghost use Rattle.std.specs.Prelude.{◌≡◌, ◌≤◌, ◌%◌, ◌^◌, option_map, Option};
ghost use Rattle.int_ops.specs.Reading as spec;
ghost use Rattle.int_ops.specs.Wrapping.{wrapped};
ghost use Rattle.int_ops.specs.View.{small};

use crate::arithmetic::neg;
use crate::digits::{number_in, past_hex, small_number, split_sign, trimmed};

/// A number modulo 2^64 with its sign, as an integer of 64 bits.
#[tactic(auto, using(crate::proofs::Signs::wrap_rules))]
fn wrap(minus: bool, number: u64) -> i64
    ensures { result ≡ wrapped (spec.signed minus number) }
{
    if minus {
        neg(number.cast_signed())
    } else {
        number.cast_signed()
    }
}

/// Digits of a base after a sign.
#[tactic(auto, using(crate::proofs::Signs::sign_rules))]
fn wrapped_in(minus: bool, base: u32, digits: &[u8]) -> Option<i64>
    requires { base ≤ 36 }
    ensures { result
        ≡ option_map (λ n. wrapped (spec.signed minus n)) (spec.number_in base digits.now) }
{
    match number_in(base, digits) {
        Some(number) => Some(wrap(minus, number)),
        None => None,
    }
}

/// Decimal digits after a sign, of a value in range.
#[tactic(auto, using(crate::proofs::Signs::decimal_rules))]
fn decimal(minus: bool, digits: &[u8]) -> Option<i64>
    ensures { result ≡ spec.within minus (spec.number_in 10 digits.now) }
{
    let Some(number) = small_number(digits) else {
        return None;
    };
    if minus {
        Some(neg(number.cast_signed()))
    } else if number < 1 << 63 {
        Some(number as i64)
    } else {
        None
    }
}

/// The integer that a text reads as: with blanks round it, a sign or none, and `0x` or `0X` with
/// hexadecimal digits, of a value modulo 2^64, or decimal digits, of a value in range. None exactly
/// where the text doesn't read as an integer (manual, sections 3.1 and 3.4.3).
#[tactic(auto, unfolding(crate::specs::Reading::integer_of))]
pub fn read_integer(text: &[u8]) -> Option<i64>
    ensures { result ≡ spec.integer_of text.now }
{
    let (minus, unsigned) = split_sign(trimmed(text));
    match past_hex(unsigned) {
        Some(digits) => wrapped_in(minus, 16, digits),
        None => decimal(minus, unsigned),
    }
}

/// The integer that a text is in a base: with blanks round it, a sign or none, and one or more
/// digits or letters below the base, of a value modulo 2^64. None exactly where the text is no such
/// thing (manual, section 6.1, `tonumber`).
#[tactic(auto, unfolding(crate::specs::Reading::integer_in))]
pub fn read_in_base(text: &[u8], base: u32) -> Option<i64>
    requires low { 2 ≤ base }
    requires high { base ≤ 36 }
    ensures { result ≡ spec.integer_in base text.now }
{
    let (minus, digits) = split_sign(trimmed(text));
    wrapped_in(minus, base, digits)
}
