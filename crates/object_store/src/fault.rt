//! Why an operation of a script has no answer.
ghost use Rattle.object_store.specs.declared.fault.LuaFault.TheVariants.{NilKey, DeadKey, Full, Memory};
ghost use Rattle.object_store.specs.Fault.{fault_of_set, fault_of_arena};
ghost use Rattle.std.specs.Prelude.{◌≡◌};

use crate::kind::Kind;
use crate::table::{DeadKey, SetFault};
use lanes_arena::{ArenaFault, Bytes, Memory};

/// Why an operation of a script has no answer. `text` gives the message that a script sees.
#[derive(Debug, Drop)]
pub enum LuaFault {
    Full,
    ZeroDivisor,
    NotInteger,
    ZeroStep,
    NilKey,
    DeadKey,
    NotCallable(Kind),
    NotIndexable(Kind),
    NotArith(Kind),
    NotBits(Kind),
    NotConcat(Kind),
    NotLength(Kind),
    NotOrdered(Kind, Kind),
    LongChain,
    BadItem,
    OpenSet,
    BadCapture,
    EndsWithPercent,
    TooManyItems,
    BadArgument { at: u64, function: Bytes },
    BadPosition,
    TextTooLong,
    NoModule,
    BadFormat,
    BadKey,
    NoData,
    BadCount,
    BadOption,
    TooManyValues,
    BadToString,
    Protected,
    /// Want of memory, which no script sees.
    Memory,
}

impl From<SetFault> for LuaFault {
    ghost from_gives = { λ fault e. e ≡ fault_of_set fault };

    fn from(fault: SetFault) -> LuaFault {
        match fault {
            SetFault::NilKey => LuaFault::NilKey,
            SetFault::Memory => LuaFault::Memory,
        }
    }
}

impl From<DeadKey> for LuaFault {
    ghost from_gives = { λ _ e. e ≡ DeadKey };

    fn from(_fault: DeadKey) -> LuaFault {
        LuaFault::DeadKey
    }
}

impl From<ArenaFault> for LuaFault {
    ghost from_gives = { λ fault e. e ≡ fault_of_arena fault };

    fn from(fault: ArenaFault) -> LuaFault {
        match fault {
            ArenaFault::Full => LuaFault::Full,
            ArenaFault::Memory => LuaFault::Memory,
        }
    }
}

impl From<Memory> for LuaFault {
    ghost from_gives = { λ _ e. e ≡ Memory };

    fn from(_fault: Memory) -> LuaFault {
        LuaFault::Memory
    }
}
