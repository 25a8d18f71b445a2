//! Why a function of the library has no answer.
ghost use Rattle.std.specs.Prelude.{◌≡◌};
ghost use Rattle.string_lib.specs.Given.{fault_of, IsFault, pattern_fault as fault_of_pattern};

use lanes_arena::{Bytes, Memory};
use lua_pattern::PatternFault;
use object_store::LuaFault;
use std::alloc::Global;

/// Why a function of the library has no answer, without the function's name.
#[derive(Clone, Copy, Debug, PartialEq, Eq)]
pub enum Refusal {
    /// The argument of this number, counted from 1, is missing or of another kind than is wanted.
    BadArgument(u64),
    TextTooLong,
    TooManyValues,
    /// What is wrong with the pattern.
    Pattern(PatternFault),
    Memory,
}

impl From<Memory> for Refusal {
    ghost use Rattle.std.specs.Prelude.{◌≡◌};
    ghost use Rattle.string_lib.specs.declared.refusal.Refusal.TheVariants.{Memory as WantOfMemory};

    ghost from_gives = { λ _ e. e ≡ WantOfMemory };

    fn from(_: Memory) -> Refusal {
        Refusal::Memory
    }
}

/// The fault of a script for one of a pattern.
fn pattern_fault(fault: PatternFault) -> LuaFault
    ensures { result ≡ fault_of_pattern fault }
{
    match fault {
        PatternFault::BadItem => LuaFault::BadItem,
        PatternFault::OpenSet => LuaFault::OpenSet,
        PatternFault::BadCapture => LuaFault::BadCapture,
        PatternFault::EndsWithPercent => LuaFault::EndsWithPercent,
        PatternFault::TooManyItems => LuaFault::TooManyItems,
        PatternFault::Memory => LuaFault::Memory,
    }
}

/// The fault of a script for a refusal by the function of this name. Want of memory takes the place
/// of a bad argument where there is none for the name.
pub fn fault(alloc: Global, refusal: Refusal, name: &'static str) -> LuaFault
    ensures { IsFault (fault_of name.now refusal) result }
{
    match refusal {
        Refusal::BadArgument(at) => match Bytes::of(alloc, name.as_bytes()) {
            Ok(function) => LuaFault::BadArgument { at, function },
            Err(_) => LuaFault::Memory,
        },
        Refusal::TextTooLong => LuaFault::TextTooLong,
        Refusal::TooManyValues => LuaFault::TooManyValues,
        Refusal::Pattern(why) => pattern_fault(why),
        Refusal::Memory => LuaFault::Memory,
    }
}
