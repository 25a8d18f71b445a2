//! Operations on each of the 64 bits.

ghost use Rattle.std.specs.Prelude as word;
ghost use Rattle.std.specs.Prelude.{◌≡◌};
ghost use Rattle.int_ops.specs.Wrapping as spec;

/// The bits that both numbers have (manual, section 3.4.2).
#[inline]
pub fn bit_and(a: i64, b: i64) -> i64
    ensures { result ≡ spec.of_bits (word.bit_and (spec.bits_of a) (spec.bits_of b)) }
{
    a & b
}

/// The bits that one of the numbers has, or both (manual, section 3.4.2).
#[inline]
pub fn bit_or(a: i64, b: i64) -> i64
    ensures { result ≡ spec.of_bits (word.bit_or (spec.bits_of a) (spec.bits_of b)) }
{
    a | b
}

/// The bits that just one of the numbers has (manual, section 3.4.2).
#[inline]
pub fn bit_xor(a: i64, b: i64) -> i64
    ensures { result ≡ spec.of_bits (word.bit_xor (spec.bits_of a) (spec.bits_of b)) }
{
    a ^ b
}

/// The bits that the number lacks (manual, section 3.4.2).
#[inline]
pub fn bit_not(a: i64) -> i64
    ensures { result ≡ spec.of_bits (spec.other_bits (spec.bits_of a)) }
{
    !a
}
