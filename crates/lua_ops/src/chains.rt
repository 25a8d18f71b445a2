//! Chains of values that are asked one after the other.
ghost use Rattle.std.specs.Prelude.{◌≡◌, Result};
ghost use Rattle.object_store.specs.declared.fault.LuaFault.{LuaFault};
ghost use Rattle.lua_ops.specs.Metamethods as spec;
ghost use Rattle.lua_ops.specs.Turns.{turn_or};

use crate::handlers::is_function;
use object_store::Value;

/// How many values a chain of `index` or of `set_target` asks at most.
pub const CHAIN_LIMIT: u32 = 100;

/// What one value of a chain says.
#[derive(Clone, Copy, Debug, PartialEq, Eq)]
pub enum Turn<A> {
    /// The answer.
    Ends(A),
    /// The value that is asked next.
    Goes(Value),
}

/// What a handler says: a function is called, any other value is asked next. None for nil.
pub fn by_handler<A: Copy>(handler: Value, call: A) -> Option<Turn<A>>
    ensures { (absent : Result A LuaFault) →
        turn_or result absent ≡ spec.by_handler absent call handler }
{
    if handler.is_nil() {
        None
    } else if is_function(handler) {
        Some(Turn::Ends(call))
    } else {
        Some(Turn::Goes(handler))
    }
}
