//! Why a function of the library has no answer.
ghost use Rattle.std.specs.Prelude.{◌≡◌};
ghost use Rattle.base_lib.specs.Given.{fault_of, IsFault};

use lanes_arena::{Bytes, Memory};
use object_store::{DeadKey, LuaFault};
use std::alloc::Global;

/// Why a function of the library has no answer, without the function's name.
#[derive(Clone, Copy, Debug, PartialEq, Eq)]
pub enum Refusal {
    /// The argument of this number, counted from 1, is missing or of another kind than is wanted.
    BadArgument(u64),
    NilKey,
    DeadKey,
    Protected,
    Memory,
}

/// The fault of a script for a refusal by the function of this name. Want of memory takes the place
/// of a bad argument where there is none for the name.
pub fn fault(alloc: Global, refusal: Refusal, name: &'static str) -> LuaFault
    ensures { IsFault (fault_of name.now refusal) result }
{
    match refusal {
        Refusal::BadArgument(at) => match Bytes::of(alloc, name.as_bytes()) {
            Ok(function) => LuaFault::BadArgument { at, function },
            Err(_) => LuaFault::Memory,
        },
        Refusal::NilKey => LuaFault::NilKey,
        Refusal::DeadKey => LuaFault::DeadKey,
        Refusal::Protected => LuaFault::Protected,
        Refusal::Memory => LuaFault::Memory,
    }
}
