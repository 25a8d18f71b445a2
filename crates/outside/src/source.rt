//! A source of bytes.
ghost use Rattle.std.specs.Prelude.{◌<◌, List, ℕ, length};
ghost use Rattle.std.specs.declared.option.Option.{Option};
ghost use Rattle.std.specs.Io.{ReadsAtMost};
ghost use Rattle.std.specs.Io.KnownBytes.{ReadConsumes};
ghost use Rattle.outside.specs.Faults.{HasCause};

use thiserror::Error;

/// A read failed, and the source's count of faults rose.
#[derive(Clone, Copy, Debug, Error, PartialEq, Eq)]
#[error("read fault")]
pub struct ReadFault;

/// Bytes that come from outside, in order.
pub trait Source {
    /// The bytes still to come, where the source tells them.
    ghost left: { Self → Option (List ℕ) };

    /// How many reads have failed so far. The count never falls, and ends at 2^64 - 1.
    ghost faults: { Self → ℕ };

    /// Moves the first bytes that are left into the slice, and answers how many. 0 is the end of
    /// the bytes. A fault comes exactly where the count of faults rises, and moves nothing.
    fn read(&mut self, into: &mut [u8]) -> Result<usize, ReadFault>
        requires { 0 < length into.old }
        ensures bound { ReadsAtMost result into.new }
        ensures bytes { ReadConsumes (left self.old) (left self.new) result into.new }
        ensures cause { HasCause (faults self.old) (faults self.new) result };
}
