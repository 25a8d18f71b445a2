//! The decimal text of an integer.

ghost use Rattle.std.specs.Prelude.{◌≡◌, IfOk};
ghost use Rattle.std.specs.Fmt.{signed_decimal};

use itoa::Buffer;
use lanes_arena::{Bytes, Memory};
use std::alloc::Global;

/// The decimal text: digits, after a minus where the number is below 0. The only refusal is want of
/// memory (manual, section 3.4.3).
pub fn text_of(alloc: Global, a: i64) -> Result<Bytes, Memory>
    ensures { IfOk result (λ text. text ≡ signed_decimal a) }
{
    let mut buffer = Buffer::new();
    Bytes::of(alloc, buffer.format(a).as_bytes())
}
