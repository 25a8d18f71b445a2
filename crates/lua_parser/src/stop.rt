//! Why reading stops.

use std::alloc::{AllocError, AllocFailed};

/// Why reading stops. But for `Memory` the cursor stands at the refused token.
#[derive(Clone, Copy)]
pub enum Stop {
    Memory,
    /// No script goes on with the token.
    Bad,
    /// Only scripts that are too deep go on with the token.
    Deep,
    /// The token is a name that stands for an attribute, and isn't `const`.
    Attribute,
}

impl From<AllocError> for Stop {
    ghost use Rattle.std.specs.Prelude.{◌≡◌};
    ghost use Rattle.lua_parser.specs.declared.stop.Stop.TheVariants.{Memory};

    ghost from_gives = { λ _ e. e ≡ Memory };

    fn from(_: AllocError) -> Stop {
        Stop::Memory
    }
}

impl<T: Drop> From<AllocFailed<T>> for Stop {
    ghost use Rattle.std.specs.Prelude.{◌≡◌};
    ghost use Rattle.lua_parser.specs.declared.stop.Stop.TheVariants.{Memory};

    ghost from_gives = { λ _ e. e ≡ Memory };

    fn from(_: AllocFailed<T>) -> Stop {
        Stop::Memory
    }
}
