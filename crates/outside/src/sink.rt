//! A sink of bytes.
ghost use Rattle.std.specs.Prelude.{◌<◌, List, ℕ, length, IfOk};
ghost use Rattle.std.specs.declared.option.Option.{Option};
ghost use Rattle.std.specs.Io.{WritesAtMost};
ghost use Rattle.std.specs.Io.KnownBytes.{WriteAppends};
ghost use Rattle.outside.specs.Faults.{HasCause};

use thiserror::Error;

/// A write failed, and the sink's count of faults rose.
#[derive(Clone, Copy, Debug, Error, PartialEq, Eq)]
#[error("write fault")]
pub struct WriteFault;

/// Takes bytes to the outside, in order.
pub trait Sink {
    /// The bytes taken so far, where the sink tells them.
    ghost taken: { Self → Option (List ℕ) };

    /// How many writes have failed so far. The count never falls, and ends at 2^64 - 1.
    ghost faults: { Self → ℕ };

    /// Takes the first bytes of the piece, at least one, and answers how many. A fault comes
    /// exactly where the count of faults rises, and takes nothing.
    fn write(&mut self, piece: &[u8]) -> Result<usize, WriteFault>
        requires { 0 < length piece.now }
        ensures bound { WritesAtMost result piece.now }
        ensures some { IfOk result (λ count. 0 < count) }
        ensures bytes { WriteAppends (taken self.old) (taken self.new) result piece.now }
        ensures cause { HasCause (faults self.old) (faults self.new) result };
}
