//! Logical shifts.

ghost use Rattle.std.specs.Prelude.{◌≡◌};
ghost use Rattle.int_ops.specs.Wrapping as spec;

/// The bits moved up, those that leave at the top being lost.
#[inline]
fn up(a: i64, count: u64) -> i64
    ensures { result ≡ spec.moved_up a count }
{
    if count >= 64 {
        return 0;
    }
    (a.cast_unsigned() << count).cast_signed()
}

/// The bits moved down, those that leave at the bottom being lost.
#[inline]
fn down(a: i64, count: u64) -> i64
    ensures { result ≡ spec.moved_down a count }
{
    if count < 64 {
        (a.cast_unsigned() >> count).cast_signed()
    } else {
        0
    }
}

/// The 64 bits moved up by a count of 0 or more, or down by a negative count. Zeros come in, and
/// all bits are lost where the count is 64 or more either way (manual, section 3.4.2).
#[inline]
pub fn shift_left(a: i64, n: i64) -> i64
    ensures { result ≡ spec.shifted_left a n }
{
    if 0 <= n {
        up(a, n.unsigned_abs())
    } else {
        down(a, n.unsigned_abs())
    }
}

/// The 64 bits moved down by a count of 0 or more, or up by a negative count. Zeros come in, and
/// all bits are lost where the count is 64 or more either way (manual, section 3.4.2).
#[inline]
pub fn shift_right(a: i64, n: i64) -> i64
    ensures { result ≡ spec.shifted_right a n }
{
    if 0 <= n {
        down(a, n.unsigned_abs())
    } else {
        up(a, n.unsigned_abs())
    }
}
