//! The faults of the face.
ghost use Rattle.std.specs.Prelude.{◌≡◌, ◌⊎◌};
ghost use Rattle.object_store.specs.declared.fault.LuaFault.TheVariants as lua;
ghost use Rattle.lanes_lib.specs.declared.ask.AskFault.TheVariants.{Lua};

use lanes_arena::Bytes;
use lanes_lib::AskFault;
use object_store::LuaFault;
use std::alloc::Global;

/// Want of memory.
pub fn no_memory() -> AskFault
    ensures { result ≡ Lua lua.Memory }
{
    AskFault::Lua(LuaFault::Memory)
}

/// The fault of a function of this name whose first argument is of another kind than is wanted. The
/// name takes memory, and want of it takes the fault's place.
pub fn bad_handle(alloc: Global, name: &[u8]) -> AskFault
    ensures { (result ≡ Lua (lua.BadArgument 1 name.now)) ⊎ (result ≡ Lua lua.Memory) }
{
    match Bytes::of(alloc, name) {
        Ok(function) => AskFault::Lua(LuaFault::BadArgument { at: 1, function }),
        Err(_) => no_memory(),
    }
}
