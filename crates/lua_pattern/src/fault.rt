//! What is wrong with a pattern.

use std::alloc::{AllocError, AllocFailed};

/// Why a pattern is refused.
#[derive(Clone, Copy, Debug, PartialEq, Eq)]
pub enum PatternFault {
    /// `%b` without two bytes, `%f` without a set, or `%` and a letter or digit that means nothing.
    BadItem,
    /// A set without its `]`.
    OpenSet,
    /// A bracket without its partner, `%n` of no closed capture, or a 33rd capture.
    BadCapture,
    /// `%` at the end.
    EndsWithPercent,
    /// A 201st item.
    TooManyItems,
    /// Want of memory.
    Memory,
}

impl From<AllocError> for PatternFault {
    ghost use Rattle.std.specs.Prelude.{◌≡◌};
    ghost use Rattle.lua_pattern.specs.declared.fault.PatternFault.TheVariants.{Memory};

    ghost from_gives = { λ _ e. e ≡ Memory };

    fn from(_: AllocError) -> PatternFault {
        PatternFault::Memory
    }
}

impl<T: Drop> From<AllocFailed<T>> for PatternFault {
    ghost use Rattle.std.specs.Prelude.{◌≡◌};
    ghost use Rattle.lua_pattern.specs.declared.fault.PatternFault.TheVariants.{Memory};

    ghost from_gives = { λ _ e. e ≡ Memory };

    fn from(_: AllocFailed<T>) -> PatternFault {
        PatternFault::Memory
    }
}
